// Drawing what an STN panel shows in a frame (§5.10): a bit for each pixel, to lent bytes.
#![tactic(auto)]

ghost use Rattle.std.specs.Prelude.{◌≡◌};
ghost use Rattle.laws.specs.Answers.{leaves};
ghost use Rattle.registers.specs.Refusals.{code};
ghost use Rattle.stn.specs.Drawing.{frame_bytes, judge_stn_drawing, draw_stn};

mod greys;
mod patterns;
mod phase;
mod rows;
mod words;

use memory::{Screen, judge_stn_memory};
use panel::geometry::height;
use panel::refusals::{clock_too_fast, video_off};
use registers::Words;
use registers::refusal::{Refusal, refuse_if};
use rows::{draw_frame, row_bytes};

// Bytes of a frame: H × W / 8.
fn frame_bytes(w: Words) -> u32
    ensures { result ≡ frame_bytes w }
{
    height(w) * row_bytes(w)
}

// Judges the drawing: 1 to 8, 9, 10, 17 (§9.3). `lent` words of memory and `room` bytes are lent.
fn judge_drawing(s: Screen, lent: usize, room: usize) -> Result<(), Refusal>
    ensures { code result ≡ judge_stn_drawing s lent room }
{
    judge_stn_memory(s, lent)?;
    refuse_if(video_off(s.words), Refusal::VideoOff)?;
    refuse_if(room < frame_bytes(s.words) as usize, Refusal::WrongLength)?;
    refuse_if(clock_too_fast(s.words), Refusal::ClockTooFast)
}

// Draws a frame to the first H × W / 8 bytes of `out`, row after row, a bit for each pixel, the leftmost of eight in bit 7; the others
// stay (§5.10). Refuses with the lowest of 1 to 8, 9, 10 for an `out` of fewer bytes, 17; then nothing is written.
pub fn draw_stn(s: Screen, video: &[u32], frame: u32, out: &mut [u8]) -> Result<(), Refusal>
    ensures { leaves (code result) out.new ≡ draw_stn s video.now frame out.old }
{
    judge_drawing(s, video.len(), out.len())?;
    draw_frame(s, video, frame, out);
    Ok(())
}
