// A step: one clock (§7.3).
ghost use Rattle.std.specs.Prelude.{◌≡◌};
ghost use Rattle.registers.specs.Refusals.{answer};
ghost use Rattle.drawing.specs.Colour.{contents};
ghost use Rattle.scanout.specs.Calls.{spot_colour, step};

use super::refusals::judge_scan;
use super::state::{State, moved, shown_screen};
use drawing::Lent;
use drawing::pixel::pixel_colour;
use memory::Screen;
use panel::geometry::Place;
use registers::refusal::Refusal;
use signals::clock::{Clock, clock_of};
use signals::parts::parts_at;
use signals::pixel::spot_of;

// What a step gives: the levels of its clock and the next state.
#[derive(Clone, Copy)]
pub struct Shown {
    pub clock: Clock,
    pub next: State,
}

// The colour of what a clock shows, before INVVD: its pixel's, or 0.
#[tactic(auto, unfolding(crate::specs::Calls::spot_colour))]
fn spot_colour(s: Screen, lent: Lent, spot: Option<Place>) -> u32
    ensures { result ≡ spot_colour s (contents lent.entry) spot }
{
    match spot {
        Some(place) => pixel_colour(s, lent, place),
        None => 0,
    }
}

// Takes one clock. It is refused by 1 to 8 of the viewport in force and the pending one, 9, 10 for a palette not of 256 entries, 13, 15.
pub fn step(s: State, lent: Lent) -> Result<Shown, Refusal>
    ensures { answer result ≡ step s (contents lent.entry) }
{
    judge_scan(s, lent.video.len(), lent.palette.len(), false)?;
    let shown = shown_screen(s);
    let parts = parts_at(shown.words, s.position);
    let colour = spot_colour(shown, lent, spot_of(parts));
    Ok(Shown {
        clock: clock_of(shown.words, parts, colour),
        next: moved(s, 1),
    })
}
