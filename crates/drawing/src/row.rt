// One row (§5.6).
ghost use Rattle.std.specs.Prelude.{◌≡◌, ◌≤◌, length};
ghost use Rattle.laws.specs.Answers.{leaves};
ghost use Rattle.registers.specs.Refusals.{code};
ghost use Rattle.pixels.specs.Pixel.{indexed};
ghost use Rattle.drawing.specs.Colour.{contents, row_colour};
ghost use Rattle.drawing.specs.Core.{Legal, InMemory, Shows};
ghost use Rattle.drawing.specs.Drawing.{judge_row, draw_row};

use super::Lent;
use super::columns::draw_columns;
use super::refusals::judge_drawing;
use super::table::{fill_table, looked_up};
use memory::{Screen, first_word};
use panel::geometry::{height, width};
use pixels::format::{Format, format_of};
use registers::refusal::{Refusal, refuse_if};

// A table where none is read.
static NO_COLOURS: [u32; 256] = [0; 256];

// The first pixels of the row that begins with the memory's word `base`, as many as `out` has entries. The table is made only where it
// is read.
fn draw_from(f: Format, video: &[u32], base: usize, palette: &[u16], out: &mut [u32])
    requires { Legal f × InMemory f video.now base (length out.old) × (length out.old ≤ 2048) }
    ensures { Shows (row_colour f (indexed f palette.now) video.now base) out.new }
{
    if looked_up(f) {
        let mut table = [0; 256];
        fill_table(f, palette, &mut table);
        draw_columns(f, video, base, &table, 0, out);
    } else {
        draw_columns(f, video, base, &NO_COLOURS, 0, out);
    }
}

// Judges a row: 1 to 8, 9, 10, 11 (§9.3). `room` is how many entries are lent for the row.
fn judge_row(s: Screen, lent: Lent, row: u32, room: usize) -> Result<(), Refusal>
    ensures { code result ≡ judge_row s (length lent.entry.video.now) (length lent.entry.palette.now) row room }
{
    let short = room < width(s.words) as usize;
    judge_drawing(s, lent.video.len(), lent.palette.len(), short)?;
    refuse_if(height(s.words) <= row, Refusal::OutsidePanel)
}

// Draws a row to the first W entries of `out`; the others stay (§5.6). It is refused by 1 to 8, 9, 10 for a palette not of 256 entries
// or an `out` of fewer than W, 11 for a row outside the panel; then nothing is written.
pub fn draw_row(s: Screen, lent: Lent, row: u32, out: &mut [u32]) -> Result<(), Refusal>
    ensures { leaves (code result) out.new ≡ draw_row s (contents lent.entry) row out.old }
{
    judge_row(s, lent, row, out.len())?;
    let f = format_of(s.words);
    let wide = width(s.words) as usize;
    draw_from(
        f,
        lent.video,
        first_word(s, row),
        lent.palette,
        &mut out[..wide],
    );
    Ok(())
}
