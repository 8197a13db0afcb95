// The scan, clock by clock (§7): a start, one step, a run of many clocks and a change of the viewport, over a state by value. What they
// guarantee over any list of calls (§8) is the claim of specs/FrameByFrame.antt.
#![tactic(auto)]

pub mod refusals;
pub mod run;
pub mod start;
pub mod state;
pub mod step;
pub mod viewport;
