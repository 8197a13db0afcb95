// The words field by field, for C: the writable fields (§10.2) and the panel's sizes (§10.3) as plain numbers in lent slices. The
// crates `entries` and `sizes` do the work.
ghost use Rattle.std.specs.Prelude.{◌≡◌};
ghost use Rattle.laws.specs.Answers.{leaves};
ghost use Rattle.entries.specs.Reading.{read_fields};
ghost use Rattle.entries.specs.Writing.{write_fields};
ghost use Rattle.sizes.specs.Sizes.{read_sizes};

use entries::reading::read_fields;
use entries::writing::write_fields;
use registers::refusal::code;
use sizes::read_sizes;

// The 34 fields (§1.4) go to the first 34 entries of `fields`; the others stay. Refusals: 10 for `words` with fewer than nine entries,
// 1, 10 for `fields` with fewer than 34.
#[unsafe(no_mangle)]
pub extern "C" fn lcd_read_fields(words: &[u32], fields: &mut [u32]) -> u32
    ensures { leaves result fields.new ≡ read_fields words.now fields.old }
{
    code(read_fields(words, fields))
}

// The first 34 entries of `fields` are packed into the nine words (§1.5), read-only bits 0. These go to the first nine entries of
// `words`; the others stay. Refusals: 10 for `fields` with fewer than 34 entries or `words` with fewer than nine, 12.
#[unsafe(no_mangle)]
pub extern "C" fn lcd_write_fields(fields: &[u32], words: &mut [u32]) -> u32
    ensures { leaves result words.new ≡ write_fields fields.now words.old }
{
    code(write_fields(fields, words))
}

// The panel's 12 sizes go to the first 12 entries of `sizes`; the others stay. Refusals: 10 for `words` with fewer than nine entries,
// 1, 10 for `sizes` with fewer than 12.
#[unsafe(no_mangle)]
pub extern "C" fn lcd_read_sizes(words: &[u32], sizes: &mut [u32]) -> u32
    ensures { leaves result sizes.new ≡ read_sizes words.now sizes.old }
{
    code(read_sizes(words, sizes))
}
