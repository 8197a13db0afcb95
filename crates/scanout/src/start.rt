// A start (§7.2).
ghost use Rattle.std.specs.Prelude.{◌≡◌};
ghost use Rattle.registers.specs.Refusals.{answer};
ghost use Rattle.scanout.specs.Calls.{start};

use super::refusals::judge_start;
use super::state::{State, viewport_of};
use memory::Screen;
use registers::load;
use registers::refusal::Refusal;

// Starts a scan: the viewport in the words is in force and pending, and the position is 0. It is refused by 10 for `words` with fewer
// than nine entries, before all others, then by 1 to 8, 9.
pub fn start(words: &[u32], window_start: u32, video: &[u32]) -> Result<State, Refusal>
    ensures { answer result ≡ start words.now window_start video.now }
{
    let words = load(words)?;
    let screen = Screen {
        words,
        window_start,
    };
    judge_start(screen, video.len())?;
    Ok(State {
        screen,
        pending: viewport_of(words),
        position: 0,
    })
}
