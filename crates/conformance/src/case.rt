// A case of a vector file, and what the program prints of it: a line for each value that differs.
use super::settings::Settings;
use super::text::{first_numbers, low_32, number_at, word_at};
use registers::refusal::Refusal;
use std::alloc::AllocError;
use std::{fmt, io};

// A case is a line: the argument that names its file, its line number, the numbers given, which are all after its key, those due, which
// are the ones after its `=`, and the settings that hold there.
#[derive(Drop)]
pub(crate) struct Case<'a, R> {
    pub rt: &'a R,
    pub group: &'a str,
    pub line: u64,
    pub given: Vec<u64>,
    pub due: Vec<u64>,
    pub settings: &'a Settings,
}

impl<R> fmt::Display for Case<'_, R> {
    fn fmt<W: fmt::Write>(&self, f: &mut fmt::Formatter<W>) -> fmt::Result {
        write!(f, "{} line {}", self.group, self.line)
    }
}

impl<R: Print + AllocGlobal> Case<'_, R> {
    // Number k of those given, counted from 0; a missing one is 0.
    pub(crate) fn given(&self, k: usize) -> u64 {
        number_at(&self.given, k)
    }

    // The same, as a word.
    pub(crate) fn given_word(&self, k: usize) -> u32 {
        word_at(&self.given, k)
    }

    // Whether a call gave what is due; if not, prints a line that says which case differs, and how. Values are hexadecimal, as in the
    // vectors.
    pub(crate) fn agrees(
        &self,
        what: impl fmt::Display + Drop,
        got: u64,
        due: u64,
    ) -> io::Result<bool> {
        if got == due {
            return Ok(true);
        }
        println!(self.rt; "{self}: {what} is {got:x}, due {due:x}")?;
        Ok(false)
    }

    // Names the form that differs, where it is not the plain call.
    pub(crate) fn name_form(&self, form: &str) -> io::Result<()> {
        println!(self.rt; "{self}: differs by the {form}")
    }

    // Whether the line lists so many numbers.
    fn lists(&self, count: usize) -> io::Result<bool> {
        self.agrees("numbers", count as u64, self.due.len() as u64)
    }

    // Whether the line's first number is the number of the refusal, 0 where the call is accepted.
    pub(crate) fn answers(&self, refusal: Option<Refusal>) -> io::Result<bool> {
        let got = refusal.map_or(0, u32::from);
        self.agrees("answer", u64::from(got), number_at(&self.due, 0))
    }

    // Whether the line's only number is that of this refusal.
    pub(crate) fn refused(&self, refusal: Refusal) -> io::Result<bool> {
        let right = self.lists(1)?;
        Ok(self.answers(Some(refusal))? & right)
    }

    // Whether the line has the numbers of this answer and no more: 0 and the values of these names, or the number of the refusal.
    pub(crate) fn gives<const N: usize>(
        &self,
        names: &[&str],
        answer: Result<[u64; N], Refusal>,
    ) -> io::Result<bool> {
        let values = match answer {
            Ok(values) => values,
            Err(refusal) => return self.refused(refusal),
        };
        let mut right = self.lists(N.saturating_add(1))?;
        right &= self.answers(None)?;
        for ((what, got), k) in names.iter().zip(&values).zip(1..) {
            right &= self.agrees(*what, *got, number_at(&self.due, k))?;
        }
        Ok(right)
    }

    // Whether two slices have the same entries, up to where one of them ends; prints the first that differs.
    pub(crate) fn same_entries(&self, got: &[u32], due: &[u32]) -> io::Result<bool> {
        for (entry, (got, due)) in got.iter().zip(due).enumerate() {
            if got != due {
                return self.agrees(
                    format_args!("entry {entry}"),
                    u64::from(*got),
                    u64::from(*due),
                );
            }
        }
        Ok(true)
    }

    // Whether the line lists these entries, and no more.
    pub(crate) fn list_agrees(&self, got: &[u32]) -> io::Result<bool> {
        let due = first_numbers(self.rt.alloc(), &self.due, got.len(), low_32)?;
        let right = self.lists(got.len())?;
        Ok(self.same_entries(got, &due)? & right)
    }

    // Entries to be lent: different numbers, none of them a colour.
    pub(crate) fn fresh_entries(&self) -> Result<Vec<u32>, AllocError> {
        (0xdead_0000..0xdead_1000).collect(self.rt.alloc())
    }

    // Whether lent entries are as due: the line's values from entry `first` on, the others as they were. After a refusal, whose line lists
    // none, that is all of them (§9.5).
    pub(crate) fn entries_agree(&self, first: u64, out: &[u32]) -> io::Result<bool> {
        let mut due = self.fresh_entries()?;
        let values = self.due.iter().skip(1);
        for (entry, value) in due.iter_mut().skip(first as usize).zip(values) {
            *entry = low_32(*value);
        }
        self.same_entries(out, &due)
    }
}
