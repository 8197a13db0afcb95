// Clocks and lines of a TFT panel's frame (§6.1 to §6.3), and its rate (§6.4).
ghost use Rattle.std.specs.Prelude.{◌≡◌, ◌+◌};
ghost use Rattle.registers.specs.Fields.{vspw, vbpd, vfpd, hspw, hbpd, hfpd};
ghost use Rattle.panel.specs.Counts.{frame_ticks, frame_millihertz};
ghost use Rattle.panel.specs.Timing.{timing, line_clocks, frame_lines, frame_clocks};

use super::geometry::{height, width};
use registers::Words;

// Clocks of a line that show nothing: sync, back porch and front porch.
fn blank_clocks(w: Words) -> u32
    ensures { result ≡ (hspw w + 1) + (hbpd w + 1) + (hfpd w + 1) }
{
    (w.hspw() + 1) + (w.hbpd() + 1) + (w.hfpd() + 1)
}

// Clocks in a line (§6.1).
pub fn line_clocks(w: Words) -> u32
    ensures { result ≡ line_clocks (timing w) }
{
    blank_clocks(w) + width(w)
}

// Lines of a frame that show nothing: sync, back porch and front porch.
fn blank_lines(w: Words) -> u32
    ensures { result ≡ (vspw w + 1) + (vbpd w + 1) + (vfpd w + 1) }
{
    (w.vspw() + 1) + (w.vbpd() + 1) + (w.vfpd() + 1)
}

// Lines in a frame (§6.2).
pub fn frame_lines(w: Words) -> u32
    ensures { result ≡ frame_lines (timing w) }
{
    blank_lines(w) + height(w)
}

// Clocks in a frame (§6.3).
pub fn frame_clocks(w: Words) -> u32
    ensures { result ≡ frame_clocks (timing w) }
{
    frame_lines(w) * line_clocks(w)
}

// HCLK ticks in a frame (§6.3).
pub fn frame_ticks(w: Words) -> u64
    ensures { result ≡ frame_ticks w }
{
    2 * (w.clkval() as u64 + 1) * frame_clocks(w) as u64
}

// The frame rate in millihertz (§6.4): one exact division, rounded down once.
pub fn frame_millihertz(w: Words, hclk: u32) -> u64
    ensures { result ≡ frame_millihertz w hclk }
{
    hclk as u64 * 1000 / frame_ticks(w)
}
