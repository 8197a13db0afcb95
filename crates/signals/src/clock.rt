// The levels of the four signals at a clock (§6.7).
ghost use Rattle.std.specs.Prelude.{◌≡◌};
ghost use Rattle.signals.specs.Clock.{level, data_word, in_sync, clock_of};

use super::parts::{Part, Parts};
use super::pixel::spot_of;
use registers::Words;

// The levels at one clock: VSYNC, HSYNC and VDEN are 0 or 1, VD has the 24 data lines.
#[derive(Clone, Copy)]
pub struct Clock {
    pub vsync: u32,
    pub hsync: u32,
    pub vden: u32,
    pub vd: u32,
}

#[tactic(auto, unfolding(crate::specs::Clock::level))]
fn level(invert: u32, active: bool) -> u32
    ensures { result ≡ level invert active }
{
    let inverted = invert == 1;
    u32::from(active != inverted)
}

#[tactic(auto, unfolding(crate::specs::Clock::data_word))]
fn data_word(invert: u32, colour: u32) -> u32
    ensures { result ≡ data_word invert colour }
{
    let lines = colour % 0x100_0000;
    if invert == 1 {
        0xff_ffff - lines
    } else {
        lines
    }
}

#[tactic(auto, unfolding(crate::specs::Clock::in_sync))]
fn in_sync(part: Part) -> bool
    ensures { result ≡ in_sync part }
{
    matches!(part, Part::Sync)
}

// The levels at a clock that lies in these parts; `colour` is its colour before INVVD.
#[tactic(auto, unfolding(crate::specs::Clock::clock_of, crate::specs::Clock::shows_pixel))]
pub fn clock_of(w: Words, parts: Parts, colour: u32) -> Clock
    ensures { result ≡ clock_of w parts.line parts.clock colour }
{
    Clock {
        vsync: level(w.invvframe(), in_sync(parts.line)),
        hsync: level(w.invvline(), in_sync(parts.clock)),
        vden: level(w.invvden(), spot_of(parts).is_some()),
        vd: data_word(w.invvd(), colour),
    }
}
