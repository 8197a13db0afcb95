// The tally of a group's cases.
use std::fmt;

// How many cases were run, and how many of them differ.
#[derive(Clone, Copy, Default)]
pub(crate) struct Tally {
    cases: u64,
    differ: u64,
}

impl Tally {
    // One case more.
    pub(crate) fn count(&mut self, right: bool) {
        self.cases = self.cases.wrapping_add(1);
        if !right {
            self.differ = self.differ.wrapping_add(1);
        }
    }
}

impl fmt::Display for Tally {
    fn fmt<W: fmt::Write>(&self, f: &mut fmt::Formatter<W>) -> fmt::Result {
        let Tally { cases, differ } = *self;
        if differ == 0 {
            return write!(f, "{cases} ok");
        }
        write!(f, "{cases} cases, {differ} differ")
    }
}
