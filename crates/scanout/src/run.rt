// A run: many clocks of one frame (§7.4).
ghost use Rattle.std.specs.Prelude.{◌≡◌, ◌+◌, ◌≤◌, length};
ghost use Rattle.registers.specs.Refusals.{answer};
ghost use Rattle.drawing.specs.Colour.{contents};
ghost use Rattle.drawing.specs.Drawing.{pixels};
ghost use Rattle.scanout.specs.Calls.{count_of, run, drawn, running};
ghost use Rattle.scanout.specs.State.{frame_of};

use super::refusals::judge_scan;
use super::state::{State, moved, shown_screen};
use drawing::Lent;
use drawing::picture::{draw_stretch, pixels_of};
use panel::timing::frame_clocks;
use registers::refusal::Refusal;
use signals::pixel::pixels_before;

// What a run gives: how many clocks it took and the next state.
#[derive(Clone, Copy)]
pub struct Taken {
    pub count: u64,
    pub next: State,
}

// How many clocks a run takes: as many as it is asked for, or what is left of the frame where that is less.
#[tactic(auto, unfolding(crate::specs::Calls::count_of))]
fn count_of(s: State, clocks: u64) -> u32
    ensures { result ≡ count_of s clocks }
{
    let left = frame_clocks(s.screen.words).saturating_sub(s.position);
    clocks.min(u64::from(left)) as u32
}

// Draws the pixels of the next `count` clocks, which are of one frame: a stretch of the picture (§5.7).
fn draw_clocks(s: State, lent: Lent, count: u32, picture: &mut [u32])
    requires { (s.position + count ≤ frame_of s) × (pixels s.screen.words ≤ length picture.old) }
    ensures { picture.new ≡ drawn count s (contents lent.entry) picture.old }
{
    let first = pixels_before(s.screen.words, s.position);
    let end = pixels_before(s.screen.words, s.position + count);
    draw_stretch(shown_screen(s), lent, first, end - first, picture);
}

// Takes `clocks` clocks, or those left of the frame where they are fewer. The colour of each pixel that it passes goes to the pixel's
// entry of `picture`; the others stay. It is refused by 1 to 8 of the viewport in force and the pending one, 9, 10 for a palette not of
// 256 entries or a `picture` of fewer than W × H, 13, 15; then nothing is written.
pub fn run(s: State, lent: Lent, clocks: u64, picture: &mut [u32]) -> Result<Taken, Refusal>
    ensures { running (answer result) picture.new ≡ run s (contents lent.entry) clocks picture.old }
{
    let short = picture.len() < pixels_of(s.screen.words) as usize;
    judge_scan(s, lent.video.len(), lent.palette.len(), short)?;
    let count = count_of(s, clocks);
    let none = count == 0;
    if none {
        return Ok(Taken { count: 0, next: s });
    }
    draw_clocks(s, lent, count, picture);
    Ok(Taken {
        count: u64::from(count),
        next: moved(s, count),
    })
}
