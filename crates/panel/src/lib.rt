// The panel that the nine words describe: its size (§2), the frame's length and rate (§6.1 to §6.4, §6.8), and refusals 1 to 7, 9, 17
// and 27 (§9.1).
#![tactic(auto)]

pub mod frame;
pub mod geometry;
pub mod refusals;
pub mod stn_frame;
pub mod timing;
