// One pixel (§5.5, §5.6).
ghost use Rattle.std.specs.Prelude.{◌≡◌, ◌^◌, ◌<◌, get_or};
ghost use Rattle.registers.specs.Refusals.{answer, code};
ghost use Rattle.pixels.specs.Pixel.{indexed, shown};
ghost use Rattle.pixels.specs.Order.{stored_pixel};
ghost use Rattle.drawing.specs.Colour.{contents, colour};
ghost use Rattle.drawing.specs.Core.{Sized};
ghost use Rattle.drawing.specs.Drawing.{judge_pixel, draw_pixel};

use super::Lent;
use super::refusals::judge_drawing;
use super::table::entry_at;
use super::words::bits_past;
use memory::{Screen, first_word};
use panel::geometry::{Place, height, width};
use pixels::colours::{cut_24, expand};
use pixels::format::{Format, format_of};
use pixels::order::in_order;
use registers::refusal::{Refusal, refuse_if};

// A word of the memory, 0 where there is none.
fn word_at(video: &[u32], place: usize) -> u32
    ensures { result ≡ get_or video.now place 0 }
{
    video.get(place).copied().unwrap_or(0)
}

// The stored bits of a pixel in the row that begins with the memory's word `base` (§4.1); 0 where the mode stores none.
fn stored_at(f: Format, video: &[u32], base: usize, column: usize) -> u32
    requires { Sized f × (base < 2 ^ 44) × (column < 2 ^ 32) }
    ensures { result ≡ stored_pixel f.bits f.bswp f.hwswp video.now base column }
{
    let bits = f.bits;
    if bits == 0 {
        return 0;
    }
    let bit = column * bits as usize;
    let x = in_order(word_at(video, base + bit / 32), f.bswp, f.hwswp);
    bits_past(x, (bit % 32) as u32, bits)
}

// What the stored bits of a pixel show, by the palette (§5.5).
fn show_indexed(f: Format, palette: &[u16], v: u32) -> u32
    ensures { result ≡ shown f (indexed f palette.now) v }
{
    match f.bits {
        32 => cut_24(v, f.bpp24bl),
        16 => expand(v, f.expansion),
        _ => expand(entry_at(palette, v as usize), f.expansion),
    }
}

// The colour of the pixel at a place (§5.5). Nothing is judged, and a word or an entry that is not lent counts as 0.
pub fn pixel_colour(s: Screen, lent: Lent, place: Place) -> u32
    ensures { result ≡ colour s (contents lent.entry) place.row place.column }
{
    let f = format_of(s.words);
    if f.tpalen {
        return f.tpalval;
    }
    let v = stored_at(
        f,
        lent.video,
        first_word(s, place.row),
        place.column as usize,
    );
    show_indexed(f, lent.palette, v)
}

// Judges one pixel: 1 to 8, 9, 10, 11 (§9.3). `lent` words of memory and `entries` of the palette are lent; `short` where a slice for the
// colour is too short.
pub fn judge_pixel(
    s: Screen,
    lent: usize,
    entries: usize,
    short: bool,
    place: Place,
) -> Result<(), Refusal>
    ensures { code result ≡ judge_pixel s lent entries short place.row place.column }
{
    judge_drawing(s, lent, entries, short)?;
    let outside = (height(s.words) <= place.row) | (width(s.words) <= place.column);
    refuse_if(outside, Refusal::OutsidePanel)
}

// Draws one pixel (§5.6): its colour. It is refused by 1 to 8, 9, 10 for a palette not of 256 entries, 11 for a row or column outside
// the panel.
pub fn draw_pixel(s: Screen, lent: Lent, place: Place) -> Result<u32, Refusal>
    ensures { answer result ≡ draw_pixel s (contents lent.entry) place.row place.column }
{
    judge_pixel(s, lent.video.len(), lent.palette.len(), false, place)?;
    Ok(pixel_colour(s, lent, place))
}
