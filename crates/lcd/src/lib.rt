// The C interface (§10): a slice comes from C as a pointer and a length (§10.1); host/lcd.h declares the calls. Each call is thin and
// leaves the work to a crate below. It answers 0 when done, else the number of the refusal, and then nothing lent is changed (§9.5).
// Its comment lists the refusals in the order in which they are judged (§9.3).
#![tactic(auto)]

ghost use Rattle.std.specs.Prelude.{◌≡◌};
ghost use Rattle.drawing.specs.Colour.{lending};
ghost use Rattle.laws.specs.Answers.{leaves};
ghost use Rattle.memory.specs.Memory.{check};
ghost use Rattle.settings.specs.Stores.{load_settings};
ghost use Rattle.sizes.specs.Counts.{read_counts};
ghost use Rattle.lcd.specs.Calls.{draw_row, draw_picture, draw_stn};

use drawing::Lent;
use drawn::{picture_of, row_of, stn_frame_of};
use memory::check;
use registers::refusal::code;
use settings::load_settings;
use sizes::counts::read_counts;

mod drawn;
pub mod pixel;
pub mod reading;
pub mod scan;

// The check of the words against the lent memory (§3.6). Refusals: 10 for `words` with fewer than nine entries, 1 to 8,
// 17. It takes TFT and STN panels.
#[unsafe(no_mangle)]
pub extern "C" fn lcd_check(words: &[u32], window_start: u32, video: &[u32]) -> u32
    ensures { result ≡ check words.now window_start video.now }
{
    code(check(words, window_start, video))
}

// Loads new words into the first nine entries of `stored`, by the first `cut` of ten stores (§1.8); the others stay. Refusals: 10 for
// `stored` or `words` with fewer than nine entries, 1 to 8, 17, of the new words. It takes TFT and STN panels.
#[unsafe(no_mangle)]
pub extern "C" fn lcd_load(
    stored: &mut [u32],
    words: &[u32],
    window_start: u32,
    video: &[u32],
    cut: u32,
) -> u32
    ensures { leaves result stored.new ≡ load_settings stored.old words.now window_start video.now cut }
{
    code(load_settings(stored, words, window_start, video, cut))
}

// The frame's clocks, its HCLK ticks and its rate in millihertz (§10.3) go to the first three entries of `counts`; the others stay.
// Refusals: 10 for `words` with fewer than nine entries, 1 to 7, 10 for `counts` with fewer than three, 17, 27 for an
// edition that is neither 1 nor 2. It takes TFT and STN panels.
#[unsafe(no_mangle)]
pub extern "C" fn lcd_counts(words: &[u32], edition: u32, hclk: u32, counts: &mut [u64]) -> u32
    ensures { leaves result counts.new ≡ read_counts words.now edition hclk counts.old }
{
    code(read_counts(words, edition, hclk, counts))
}

// One row goes to the first W entries of `out`; the others stay (§5.6). Refusals: 10 for `words` with fewer than nine entries, 1 to 9,
// 10 for a palette not of 256 entries or an `out` of fewer than W, 11 for a row outside the panel.
#[unsafe(no_mangle)]
pub extern "C" fn lcd_draw_row(
    words: &[u32],
    window_start: u32,
    video: &[u32],
    palette: &[u16],
    row: u32,
    out: &mut [u32],
) -> u32
    ensures { leaves result out.new ≡ draw_row words.now window_start (lending video.now palette.now) row out.old }
{
    let lent = Lent { video, palette };
    code(row_of(words, window_start, lent, row, out))
}

// The picture goes to the first W × H entries of `picture`, row by row; the others stay (§5.6). Refusals: 10 for `words` with fewer
// than nine entries, 1 to 9, 10 for a palette not of 256 entries or a `picture` of fewer than W × H.
#[unsafe(no_mangle)]
pub extern "C" fn lcd_draw_picture(
    words: &[u32],
    window_start: u32,
    video: &[u32],
    palette: &[u16],
    picture: &mut [u32],
) -> u32
    ensures { leaves result picture.new ≡ draw_picture words.now window_start (lending video.now palette.now) picture.old }
{
    let lent = Lent { video, palette };
    code(picture_of(words, window_start, lent, picture))
}

// Frame `frame` of an STN panel goes to the first W × H / 8 bytes of `out`, eight pixels to a byte, row by row; the others stay (§5.10).
// Refusals: 10 for `words` with fewer than nine entries, 1 to 9, 10 for an `out` of fewer than W × H / 8 bytes, 17.
#[unsafe(no_mangle)]
pub extern "C" fn lcd_draw_stn(
    words: &[u32],
    window_start: u32,
    video: &[u32],
    frame: u32,
    out: &mut [u8],
) -> u32
    ensures { leaves result out.new ≡ draw_stn words.now window_start video.now frame out.old }
{
    code(stn_frame_of(words, window_start, video, frame, out))
}
