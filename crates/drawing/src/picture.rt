// The picture (§5.6), and a stretch of it (§5.7).
ghost use Rattle.std.specs.Prelude.{true, ◌≡◌, ◌+◌, ◌-◌, ◌*◌, ◌/◌, ◌%◌, ◌<◌, ◌≤◌, length};
ghost use Rattle.laws.specs.Answers.{leaves};
ghost use Rattle.registers.specs.Refusals.{code};
ghost use Rattle.drawing.specs.Colour.{contents};
ghost use Rattle.drawing.specs.Core.{ByRows, InWords, Shows};
ghost use Rattle.drawing.specs.Drawing.{pixels, colour_in_order, judge_picture, draw_picture, draw_stretch};

use super::Lent;
use super::columns::{draw_columns, legal};
use super::pixel::pixel_colour;
use super::refusals::judge_drawing;
use super::table::fill_table;
use memory::{Screen, first_word};
use panel::geometry::{Place, height, width};
use pixels::format::format_of;
use registers::Words;
use registers::refusal::Refusal;

// Pixels of the panel: W × H (§2.1).
pub fn pixels_of(w: Words) -> u32
    ensures value { result ≡ pixels w }
    ensures upper_bound { result ≤ 2048 * 1024 }
{
    width(w) * height(w)
}

// The pixels from number `first` on, in reading order, as many as `out` has entries: a row a turn, the first and the last perhaps in
// part.
fn draw_rows(s: Screen, lent: Lent, first: usize, out: &mut [u32])
    requires { ByRows s (length lent.video.now) × InWords s first (length out.old) × (first + length out.old ≤ pixels s.words) }
    ensures { Shows (λ k. colour_in_order s (contents lent.entry) (first + k)) out.new }
{
    let f = format_of(s.words);
    let mut table = [0; 256];
    fill_table(f, lent.palette, &mut table);
    let wide = width(s.words) as usize;
    let end = first + out.len();
    for row in first / wide..end.div_ceil(wide) {
        let begin = row * wide;
        let from = begin.max(first);
        let to = (begin + wide).min(end);
        let base = first_word(s, row as u32);
        draw_columns(
            f,
            lent.video,
            base,
            &table,
            from - begin,
            &mut out[from - first..to - first],
        );
    }
}

// The same pixel by pixel, without the table of colours. For few pixels a division each costs less than the table.
fn draw_few(s: Screen, lent: Lent, first: usize, out: &mut [u32])
    requires { first + length out.old ≤ pixels s.words }
    ensures { Shows (λ k. colour_in_order s (contents lent.entry) (first + k)) out.new }
{
    let wide = width(s.words) as usize;
    for (i, colour) in out.iter_mut().enumerate() {
        let number = first + i;
        let place = Place {
            row: (number / wide) as u32,
            column: (number % wide) as u32,
        };
        *colour = pixel_colour(s, lent, place);
    }
}

// Judges the picture: 1 to 8, 9, 10 (§9.3). `room` is how many entries are lent for the picture.
fn judge_picture(s: Screen, lent: Lent, room: usize) -> Result<(), Refusal>
    ensures { code result ≡ judge_picture s (length lent.entry.video.now) (length lent.entry.palette.now) room }
{
    let short = room < pixels_of(s.words) as usize;
    judge_drawing(s, lent.video.len(), lent.palette.len(), short)
}

// Draws the picture to the first W × H entries of `picture`, in reading order; the others stay (§5.6). It is refused by 1 to 8, 9, 10
// for a palette not of 256 entries or a `picture` of fewer than W × H; then nothing is written.
pub fn draw_picture(s: Screen, lent: Lent, picture: &mut [u32]) -> Result<(), Refusal>
    ensures { leaves (code result) picture.new ≡ draw_picture s (contents lent.entry) picture.old }
{
    judge_picture(s, lent, picture.len())?;
    let n = pixels_of(s.words) as usize;
    draw_rows(s, lent, 0, &mut picture[..n]);
    Ok(())
}

// Rows fill whole words, and each lies inside `lent` words of memory. It is enough to look at the last.
fn by_rows(s: Screen, lent: usize) -> bool
    ensures { result ≡ true → ByRows s lent }
{
    let f = format_of(s.words);
    let bits = width(s.words) as usize * f.bits as usize;
    let last = first_word(s, height(s.words) - 1);
    legal(f) & (bits % 32 == 0) & (last + bits / 32 <= lent)
}

// Pixels from a column to the next one that begins a word. There is no division where that is the column itself.
fn to_next_word(bits: usize, column: usize) -> usize
    requires { (0 < bits) × (bits * (32 / bits) ≡ 32) × (column ≤ 2048) }
    ensures bits_value { (column + result) % (32 / bits) ≡ 0 }
    ensures upper_bound { result ≤ 32 }
{
    let bit = column * bits % 32;
    if bit == 0 {
        return 0;
    }
    (32 - bit) / bits
}

// As `draw_rows`, from any pixel on, in three parts: single pixels up to the next word, rows, and single pixels again.
fn draw_parts(s: Screen, lent: Lent, first: usize, out: &mut [u32])
    requires { ByRows s (length lent.video.now) × (first + length out.old ≤ pixels s.words) }
    ensures { Shows (λ k. colour_in_order s (contents lent.entry) (first + k)) out.new }
{
    let f = format_of(s.words);
    let bits = f.bits as usize;
    let head = to_next_word(bits, first % width(s.words) as usize).min(out.len());
    let tail = (out.len() - head) * bits % 32 / bits;
    let rows_end = out.len() - tail;
    draw_few(s, lent, first, &mut out[..head]);
    draw_rows(s, lent, first + head, &mut out[head..rows_end]);
    draw_few(s, lent, first + rows_end, &mut out[rows_end..]);
}

// Draws the `count` pixels from number `first` on, in reading order, to the entries of `picture` with the same numbers, as far as the
// panel and the picture go; the others stay (§5.7). Nothing is judged. Draws by rows; pixel by pixel where they are few, since the
// table costs as much as some eight of them, or where rows do not lie in the memory in whole words.
pub fn draw_stretch(s: Screen, lent: Lent, first: u32, count: u32, picture: &mut [u32])
    ensures { picture.new ≡ draw_stretch s (contents lent.entry) first count picture.old }
{
    let end = picture.len().min(pixels_of(s.words) as usize);
    let from = end.min(first as usize);
    let n = (end - from).min(count as usize);
    let out = &mut picture[from..from + n];
    if n < 8 {
        draw_few(s, lent, from, out);
    } else if by_rows(s, lent.video.len()) {
        draw_parts(s, lent, from, out);
    } else {
        draw_few(s, lent, from, out);
    }
}
