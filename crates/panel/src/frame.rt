// A frame's clocks and HCLK ticks (§6.3) and its rate (§6.4), of either panel (§6.8), by the nine words that a slice begins with and, for
// an STN panel, the rule edition. A caller that wants all of them takes the words by `accept`, which judges them once by 1 to 7, asks
// `judge_timed` (17, 27), and then for each.
ghost use Rattle.std.specs.Prelude.{◌≡◌};
ghost use Rattle.registers.specs.Refusals.{answer};
ghost use Rattle.panel.specs.Counts.{panel_clocks, panel_ticks, panel_millihertz, accept_timed, counts, rate};

use super::refusals::{accept, judge_timed};
use super::stn_frame::{stn_frame_clocks, stn_frame_ticks};
use super::timing::{frame_clocks, frame_ticks};
use registers::Words;
use registers::refusal::Refusal;

// The length of a frame, in clocks and in HCLK ticks.
#[derive(Clone, Copy)]
pub struct Counts {
    pub clocks: u32,
    pub ticks: u64,
}

// Clocks in a frame, by the panel that PNRMODE selects.
pub fn panel_clocks(w: Words) -> u32
    ensures { result ≡ panel_clocks w }
{
    if w.stn() {
        stn_frame_clocks(w)
    } else {
        frame_clocks(w)
    }
}

// HCLK ticks in a frame, by the panel that PNRMODE selects, on STN by the rule edition.
pub fn panel_ticks(w: Words, edition: u32) -> u64
    ensures { result ≡ panel_ticks w edition }
{
    if w.stn() {
        stn_frame_ticks(w, edition)
    } else {
        frame_ticks(w)
    }
}

// The frame rate in millihertz (§6.4): one exact division, rounded down once.
pub fn panel_millihertz(w: Words, edition: u32, hclk: u32) -> u64
    ensures { result ≡ panel_millihertz w edition hclk }
{
    hclk as u64 * 1000 / panel_ticks(w, edition)
}

fn accept_timed(words: &[u32], edition: u32) -> Result<Words, Refusal>
    ensures { answer result ≡ accept_timed words.now edition }
{
    let w = accept(words)?;
    judge_timed(w, edition).and(Ok(w))
}

// A frame's clocks and HCLK ticks, or a refusal: 10 first where `words` has fewer than nine entries, then 1 to 7, then 17, then 27.
pub fn frame_counts(words: &[u32], edition: u32) -> Result<Counts, Refusal>
    ensures { answer result ≡ counts words.now edition }
{
    let w = accept_timed(words, edition)?;
    Ok(Counts {
        clocks: panel_clocks(w),
        ticks: panel_ticks(w, edition),
    })
}

// The frame rate in millihertz, rounded down, or a refusal: 10 first where `words` has fewer than nine entries, then 1 to 7, then 17,
// then 27.
pub fn frame_rate(words: &[u32], edition: u32, hclk: u32) -> Result<u64, Refusal>
    ensures { answer result ≡ rate words.now edition hclk }
{
    let timed = accept_timed(words, edition)?;
    Ok(panel_millihertz(timed, edition, hclk))
}
