// The writable fields of the nine words into a lent slice (§1.4, §10.2), in the order of `order`.
ghost use Rattle.std.specs.Prelude.{◌≡◌};
ghost use Rattle.laws.specs.Answers.{leaves};
ghost use Rattle.registers.specs.Refusals.{code};
ghost use Rattle.entries.specs.Reading.{read_fields_of, read_fields};

use super::order::Entries;
use fields::read;
use registers::refusal::Refusal;
use registers::{Words, load, put_entries};

fn read_fields_of(w: Words, fields: &mut [u32]) -> Result<(), Refusal>
    ensures { leaves (code result) fields.new ≡ read_fields_of w fields.old }
{
    let f = read(w)?;
    put_entries(&Entries::from(f).0, fields)
}

// The 34 fields to the first 34 entries of `fields`; the others stay. 10 first where `words` has fewer than nine entries, then 1, then
// 10 where `fields` has fewer than 34.
pub fn read_fields(words: &[u32], fields: &mut [u32]) -> Result<(), Refusal>
    ensures { leaves (code result) fields.new ≡ read_fields words.now fields.old }
{
    let w = load(words)?;
    read_fields_of(w, fields)
}
