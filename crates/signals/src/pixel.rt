// The pixel of a position, and how many pixels come before it (§6.6).
ghost use Rattle.std.specs.Prelude.{◌≡◌};
ghost use Rattle.panel.specs.Timing.{timing};
ghost use Rattle.signals.specs.Pixel.{spot_of, pixels_before};

use super::parts::{Layout, Part, Parts};
use panel::geometry::Place;
use panel::timing::line_clocks;
use registers::Words;

// The pixel that a clock in these parts shows, or none.
#[tactic(auto, unfolding(crate::specs::Pixel::spot_of, crate::specs::Pixel::in_row))]
pub fn spot_of(parts: Parts) -> Option<Place>
    ensures { result ≡ spot_of parts.line parts.clock }
{
    match (parts.line, parts.clock) {
        (Part::Active(row), Part::Active(column)) => Some(Place { row, column }),
        _ => None,
    }
}

// Pixels of a frame before the clock at a position: those of the rows above it, and in an active line those of its own row.
#[tactic(auto, unfolding(panel::specs::Timing::line_clocks))]
pub fn pixels_before(w: Words, position: u32) -> u32
    ensures { result ≡ pixels_before (timing w) position }
{
    let size = line_clocks(w);
    let line = position / size;
    let clock = position % size;
    let lines = Layout::lines_of(w);
    let clocks = Layout::clocks_of(w);
    let wide = clocks.active;
    match lines.part_at(line) {
        Part::Active(row) => row * wide + clocks.active_before(clock),
        _ => lines.active_before(line) * wide,
    }
}
