// The calls that keep no state. Each is made with what is lent, and its answer compared with what is due, the numbers after the line's
// `=`: the number of the refusal or 0, then the values. By rule edition 1: the check, a frame's counts and its rate. Those that draw: a
// pixel, a row, a picture (§5.6), a stretch (§5.7), which judges nothing, so that its answer is 0.
use super::case::Case;
use drawing::picture::{draw_picture, draw_stretch, pixels_of};
use drawing::pixel::draw_pixel;
use drawing::row::draw_row;
use memory::{Screen, check};
use panel::frame::{frame_counts, frame_rate};
use panel::geometry::{Place, width};
use registers::refusal::Refusal;
use std::io;

// What an accepted call has drawn on a screen: so many entries in reading order, from the first column of a row on.
#[derive(Clone, Copy)]
struct Drawing {
    screen: Screen,
    row: u32,
    entries: u32,
}

impl<R: Print + AllocGlobal> Case<'_, R> {
    pub(crate) fn check_agrees(&self) -> io::Result<bool> {
        let s = self.settings;
        let answer = check(&s.words, s.window_start, &s.video);
        self.gives(&[], answer.map(|()| []))
    }

    pub(crate) fn counts_agree(&self) -> io::Result<bool> {
        let counts = frame_counts(&self.settings.words, 1);
        let values = counts.map(|frame| [u64::from(frame.clocks), frame.ticks]);
        self.gives(&["value", "ticks"], values)
    }

    pub(crate) fn rate_agrees(&self) -> io::Result<bool> {
        let rate = frame_rate(&self.settings.words, 1, self.settings.hclk);
        self.gives(&["value"], rate.map(|rate| [rate]))
    }

    // One pixel of a screen, drawn and through a reader.
    fn drawn_agrees(&self, screen: Screen) -> io::Result<bool> {
        let place = Place {
            row: self.given_word(0),
            column: self.given_word(1),
        };
        let drawn = draw_pixel(screen, self.settings.lent(), place);
        let read = self.lookup_agrees(screen, place, drawn)?;
        let values = drawn.map(|colour| [u64::from(colour)]);
        Ok(self.gives(&["value"], values)? & read)
    }

    pub(crate) fn pixel_agrees(&self) -> io::Result<bool> {
        match self.settings.screen() {
            Ok(screen) => self.drawn_agrees(screen),
            Err(refusal) => self.refused(refusal),
        }
    }

    // A call that draws into entries that are lent, as many as the line's first number says: whether its answer and every entry are as
    // due, the line's values from entry `first` on, and whether a reader gives what it has drawn.
    fn drawing_agrees<F: FnOnce(Screen, &mut [u32]) -> Result<Drawing, Refusal>>(
        &self,
        first: u64,
        draw: F,
    ) -> io::Result<bool>
        requires { F.IsAlwaysCallable draw }
    {
        let mut out = self.fresh_entries()?;
        let room = (self.given(0) as usize).min(out.len());
        let drawn = match self.settings.screen() {
            Ok(screen) => draw(screen, &mut out[..room]),
            Err(refusal) => Err(refusal),
        };
        let mut right = self.answers(drawn.err())?;
        right &= self.entries_agree(first, &out)?;
        if let Ok(drawing) = drawn {
            let count = (drawing.entries as usize).min(out.len());
            right &= self.entries_read(drawing.screen, drawing.row, &out[..count])?;
        }
        Ok(right)
    }

    pub(crate) fn row_agrees(&self) -> io::Result<bool> {
        let lent = self.settings.lent();
        let row = self.given_word(1);
        self.drawing_agrees(0, |screen, out| {
            draw_row(screen, lent, row, out)?;
            let entries = width(screen.words);
            Ok(Drawing {
                screen,
                row,
                entries,
            })
        })
    }

    pub(crate) fn picture_agrees(&self) -> io::Result<bool> {
        let lent = self.settings.lent();
        self.drawing_agrees(0, |screen, out| {
            draw_picture(screen, lent, out)?;
            let entries = pixels_of(screen.words);
            Ok(Drawing {
                screen,
                row: 0,
                entries,
            })
        })
    }

    // A stretch begins anywhere in a row and is not read.
    pub(crate) fn stretch_agrees(&self) -> io::Result<bool> {
        let lent = self.settings.lent();
        let first = self.given_word(1);
        let count = self.given_word(2);
        self.drawing_agrees(self.given(1), |screen, out| {
            draw_stretch(screen, lent, first, count, out);
            Ok(Drawing {
                screen,
                row: 0,
                entries: 0,
            })
        })
    }
}
