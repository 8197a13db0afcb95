// The signals of a clock: which part of its line and of its frame it lies in (§6.5), the pixel that it shows (§6.6), and the levels of
// the four signals (§6.7). Every function here is total, whatever the position; what walks through a frame stands in `scanout`.
#![tactic(auto)]

pub mod clock;
pub mod parts;
pub mod pixel;
