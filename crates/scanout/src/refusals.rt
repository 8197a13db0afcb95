// What start, step, run and viewport change are judged by (§9.3): the lowest number over all the viewports that a call judges (§9.4).
ghost use Rattle.std.specs.Prelude.{◌≡◌};
ghost use Rattle.laws.specs.Cases.{lowest};
ghost use Rattle.registers.specs.Refusals.{code};
ghost use Rattle.scanout.specs.Refusals.{bank_differs, past_frame, viewport_cases, state_cases, judge_start, judge_scan, judge_change};

use super::state::{State, Viewport, viewport_of, with_viewport};
use drawing::refusals::palette_wrong;
use memory::{Screen, judge_memory};
use panel::refusals::{lower, video_off};
use panel::timing::frame_clocks;
use registers::Words;
use registers::refusal::{Refusal, refuse_if};

// 1 to 8 of a state's words with this viewport in them.
#[tactic(auto, unfolding(memory::specs::Memory::judge_memory))]
fn judge_viewport(s: State, v: Viewport, lent: usize) -> Result<(), Refusal>
    ensures { code result ≡ lowest (viewport_cases s v lent) }
{
    let words = with_viewport(s.screen.words, v);
    judge_memory(Screen { words, ..s.screen }, lent)
}

// 1 to 8 of the viewport in force and of the pending one: judged once where they are the same.
fn judge_state(s: State, lent: usize) -> Result<(), Refusal>
    ensures { code result ≡ lowest (state_cases s lent) }
{
    let current = judge_memory(s.screen, lent);
    if s.pending == viewport_of(s.screen.words) {
        return current;
    }
    lower(current, judge_viewport(s, s.pending, lent))
}

// 13 (§9.1): the viewport's LCDBANK is not the one in force.
#[tactic(auto, unfolding(crate::specs::Refusals::bank_differs))]
fn bank_differs(w: Words, v: Viewport) -> bool
    ensures { result ≡ bank_differs w v }
{
    with_viewport(w, v).lcdbank() != w.lcdbank()
}

// 15 (§9.1): the position is past the frame's last clock.
#[tactic(auto, unfolding(crate::specs::Refusals::past_frame))]
fn past_frame(s: State) -> bool
    ensures { result ≡ past_frame s }
{
    frame_clocks(s.screen.words) <= s.position
}

// A start: 1 to 8, 9.
pub(crate) fn judge_start(s: Screen, lent: usize) -> Result<(), Refusal>
    ensures { code result ≡ judge_start s lent }
{
    judge_memory(s, lent)?;
    refuse_if(video_off(s.words), Refusal::VideoOff)
}

// A step or a run: 1 to 8, 9, 10, 13, 15. `short` where a slice that it is lent besides memory and palette is too short.
pub fn judge_scan(s: State, lent: usize, entries: usize, short: bool) -> Result<(), Refusal>
    ensures { code result ≡ judge_scan s lent entries short }
{
    judge_state(s, lent)?;
    refuse_if(video_off(s.screen.words), Refusal::VideoOff)?;
    refuse_if(palette_wrong(entries) | short, Refusal::WrongLength)?;
    refuse_if(bank_differs(s.screen.words, s.pending), Refusal::OtherBank)?;
    refuse_if(past_frame(s), Refusal::PastFrame)
}

// A viewport change: 1 to 8, 9, 13, 15.
pub(crate) fn judge_change(s: State, lent: usize, v: Viewport) -> Result<(), Refusal>
    ensures { code result ≡ judge_change s lent v }
{
    lower(judge_state(s, lent), judge_viewport(s, v, lent))?;
    refuse_if(video_off(s.screen.words), Refusal::VideoOff)?;
    let other_bank = bank_differs(s.screen.words, v) | bank_differs(s.screen.words, s.pending);
    refuse_if(other_bank, Refusal::OtherBank)?;
    refuse_if(past_frame(s), Refusal::PastFrame)
}
