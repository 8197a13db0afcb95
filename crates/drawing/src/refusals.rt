// What every drawing is judged by (§9.3).
ghost use Rattle.std.specs.Prelude.{◌≡◌};
ghost use Rattle.registers.specs.Refusals.{code};
ghost use Rattle.drawing.specs.Drawing.{palette_wrong, judge_drawing};

use memory::{Screen, judge_memory};
use panel::refusals::video_off;
use registers::refusal::{Refusal, refuse_if};

// 10 (§5.1): the palette does not have 256 entries.
pub fn palette_wrong(entries: usize) -> bool
    ensures { result ≡ palette_wrong entries }
{
    entries != 256
}

// Judges a drawing: 1 to 8, 9, 10 (§9.3). `lent` words of memory and `entries` of the palette are lent; `short` where another slice is
// too short.
pub fn judge_drawing(s: Screen, lent: usize, entries: usize, short: bool) -> Result<(), Refusal>
    ensures { code result ≡ judge_drawing s lent entries short }
{
    judge_memory(s, lent)?;
    refuse_if(video_off(s.words), Refusal::VideoOff)?;
    let wrong_length = palette_wrong(entries) | short;
    refuse_if(wrong_length, Refusal::WrongLength)
}
