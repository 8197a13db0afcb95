// One pixel for C (§5.6).
ghost use Rattle.std.specs.Prelude.{◌≡◌};
ghost use Rattle.drawing.specs.Colour.{contents, lending};
ghost use Rattle.laws.specs.Answers.{leaves};
ghost use Rattle.registers.specs.Refusals.{code};
ghost use Rattle.lcd.specs.Pixel.{draw_pixel_in, draw_pixel};

use super::drawn::screen_of;
use drawing::Lent;
use drawing::pixel::{draw_pixel, judge_pixel};
use memory::Screen;
use panel::geometry::Place;
use registers::refusal::{Refusal, code};

// Without an entry for the colour it is judged with a slice that is too short.
fn draw_pixel_in(s: Screen, lent: Lent, place: Place, out: &mut [u32]) -> Result<(), Refusal>
    ensures { leaves (code result) out.new ≡ draw_pixel_in s (contents lent.entry) place.row place.column out.old }
{
    let Some(first) = out.first_mut() else {
        return judge_pixel(s, lent.video.len(), lent.palette.len(), true, place);
    };
    let colour = draw_pixel(s, lent, place)?;
    *first = colour;
    Ok(())
}

fn pixel_of(
    words: &[u32],
    window_start: u32,
    lent: Lent,
    place: Place,
    out: &mut [u32],
) -> Result<(), Refusal>
    ensures { leaves (code result) out.new ≡ draw_pixel words.now window_start (contents lent.entry) place.row place.column out.old }
{
    let s = screen_of(words, window_start)?;
    draw_pixel_in(s, lent, place, out)
}

// One pixel's colour goes to the first entry of `out`; the others stay. Refusals: 10 for `words` with fewer than nine entries, 1 to 9,
// 10 for a palette not of 256 entries or an `out` with no entry, 11 for a row or column outside the panel.
#[unsafe(no_mangle)]
pub extern "C" fn lcd_draw_pixel(
    words: &[u32],
    window_start: u32,
    video: &[u32],
    palette: &[u16],
    row: u32,
    column: u32,
    out: &mut [u32],
) -> u32
    ensures { leaves result out.new ≡ draw_pixel words.now window_start (lending video.now palette.now) row column out.old }
{
    let lent = Lent { video, palette };
    let place = Place { row, column };
    code(pixel_of(words, window_start, lent, place, out))
}
