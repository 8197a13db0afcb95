// The nine words from the fields in a lent slice, into another one (§1.5, §10.2). The fields stand in the order of `order`.
ghost use Rattle.std.specs.Prelude.{◌≡◌};
ghost use Rattle.laws.specs.Answers.{leaves};
ghost use Rattle.registers.specs.Refusals.{code};
ghost use Rattle.entries.specs.Writing.{write_fields_of, write_fields};

use super::order::Entries;
use fields::{Fields, write};
use registers::put_entries;
use registers::refusal::{Refusal, refuse_if};

fn write_fields_of(f: Fields, words: &mut [u32]) -> Result<(), Refusal>
    ensures { leaves (code result) words.new ≡ write_fields_of f words.old }
{
    let w = write(f)?;
    put_entries(&<[u32; 9]>::from(w), words)
}

// The words with the first 34 entries of `fields` as their fields, read-only bits 0, to the first nine entries of `words`; the others
// stay. 10 first where `fields` has fewer than 34 entries or `words` fewer than nine, then 12.
pub fn write_fields(fields: &[u32], words: &mut [u32]) -> Result<(), Refusal>
    ensures { leaves (code result) words.new ≡ write_fields fields.now words.old }
{
    let Some(entries) = fields.first_chunk() else {
        return Err(Refusal::WrongLength);
    };
    refuse_if(words.len() < 9, Refusal::WrongLength)?;
    write_fields_of(Entries(*entries).into(), words)
}
