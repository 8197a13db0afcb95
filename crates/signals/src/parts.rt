// The parts of a line and of a frame (§6.5).
ghost use Rattle.std.specs.Prelude.{◌≡◌, ◌-◌, min};
ghost use Rattle.panel.specs.Timing.{timing};
ghost use Rattle.signals.specs.Core.{lines_of, clocks_of};
ghost use Rattle.signals.specs.Parts.{part_at, lines_before, clocks_before, parts_at};

use panel::geometry::{height, width};
use panel::timing::line_clocks;
use registers::Words;

// A part of a line or of a frame. An active clock or line has its number among the active ones.
#[derive(Clone, Copy)]
pub enum Part {
    Sync,
    BackPorch,
    Active(u32),
    FrontPorch,
}

// Lines of a frame before its first active one.
pub fn lines_before(w: Words) -> u32
    ensures { result ≡ lines_before (timing w) }
{
    (w.vspw() + 1) + (w.vbpd() + 1)
}

// Clocks of a line before its first active one.
pub fn clocks_before(w: Words) -> u32
    ensures { result ≡ clocks_before (timing w) }
{
    (w.hspw() + 1) + (w.hbpd() + 1)
}

// How the lines of a frame, or the clocks of a line, follow one another: the first `sync` are in sync, `before` come before the active
// ones, and `active` are active.
#[derive(Clone, Copy)]
pub(crate) struct Layout {
    sync: u32,
    before: u32,
    pub(crate) active: u32,
}

impl Layout {
    // The lines of a frame.
    pub(crate) fn lines_of(w: Words) -> Layout
        ensures { result ≡ lines_of (timing w) }
    {
        Layout {
            sync: w.vspw() + 1,
            before: lines_before(w),
            active: height(w),
        }
    }

    // The clocks of a line.
    pub(crate) fn clocks_of(w: Words) -> Layout
        ensures { result ≡ clocks_of (timing w) }
    {
        Layout {
            sync: w.hspw() + 1,
            before: clocks_before(w),
            active: width(w),
        }
    }

    // The part of the line, or clock, with this number.
    #[tactic(auto, unfolding(crate::specs::Parts::part_at))]
    pub(crate) fn part_at(self, number: u32) -> Part
        ensures { result ≡ part_at self.sync self.before self.active number }
    {
        if number < self.sync {
            Part::Sync
        } else if number < self.before {
            Part::BackPorch
        } else if number - self.before < self.active {
            Part::Active(number - self.before)
        } else {
            Part::FrontPorch
        }
    }

    // How many active ones come before that with this number.
    pub(crate) fn active_before(self, number: u32) -> u32
        ensures { result ≡ min (number - self.before) self.active }
    {
        number.saturating_sub(self.before).min(self.active)
    }
}

// Where a position lies: the part of its line in the frame, and of its clock in the line.
#[derive(Clone, Copy)]
pub struct Parts {
    pub line: Part,
    pub clock: Part,
}

// The parts in which a position's line and clock lie.
#[tactic(auto, unfolding(panel::specs::Timing::line_clocks, crate::specs::Parts::line_part, crate::specs::Parts::clock_part))]
pub fn parts_at(w: Words, position: u32) -> Parts
    ensures { result ≡ parts_at (timing w) position }
{
    let size = line_clocks(w);
    let line = Layout::lines_of(w).part_at(position / size);
    let clock = Layout::clocks_of(w).part_at(position % size);
    Parts { line, clock }
}
