// Clocks and HCLK ticks of an STN panel's frame (§6.8), the ticks by the rule edition of its pulses. 27 is judged elsewhere: here every
// number but 2 counts as 1.
ghost use Rattle.std.specs.Prelude.{◌≡◌, ◌<◌, ◌≤◌};
ghost use Rattle.panel.specs.Counts.{pulse, later_pulse, edition_pulse, stn_line_ticks, stn_frame_clocks, stn_frame_ticks};

use super::geometry::height;
use registers::Words;

// A pulse, by the two bits n of WLH or WDLY.
#[derive(Clone, Copy)]
struct Pulse {
    n: u32,
    ghost two_bits: { n < 4 },
}

impl Pulse {
    // Its HCLK ticks by rule edition 1.
    fn ticks(self) -> u32
        ensures { result ≡ pulse self.n }
    {
        1 << (4 + self.n)
    }

    // By rule edition 2.
    fn later_ticks(self) -> u32
        ensures { result ≡ later_pulse self.n }
    {
        16 * (self.n + 1)
    }

    // By the rule edition given.
    fn ticks_by(self, edition: u32) -> u32
        ensures value { result ≡ edition_pulse edition self.n }
        ensures upper_bound { result ≤ 128 }
    {
        let later = edition == 2;
        if later {
            self.later_ticks()
        } else {
            self.ticks()
        }
    }
}

// HCLK ticks of a line.
pub fn stn_line_ticks(w: Words, edition: u32) -> u32
    ensures { result ≡ stn_line_ticks (edition_pulse edition) w }
{
    let data = 2 * w.clkval() * (w.hozval() + 1);
    let high = Pulse { n: w.wlh() };
    let delay = Pulse { n: w.wdly() };
    data + high.ticks_by(edition) + delay.ticks_by(edition) + 8 * w.lineblank()
}

// Clocks in a frame.
pub fn stn_frame_clocks(w: Words) -> u32
    ensures { result ≡ stn_frame_clocks w }
{
    height(w) * (w.hozval() + 1)
}

// HCLK ticks in a frame.
pub fn stn_frame_ticks(w: Words, edition: u32) -> u64
    ensures { result ≡ stn_frame_ticks (edition_pulse edition) w }
{
    height(w) as u64 * stn_line_ticks(w, edition) as u64
}
