// Lookups through a reader (§12.1), compared with the plain calls: one pixel with `draw_pixel`, a row and a picture entry by entry with
// what was drawn.
use super::case::Case;
use memory::Screen;
use panel::geometry::{Place, width};
use reader::read_pixel;
use registers::refusal::Refusal;
use std::io;

// An answer as one number: the colour, or 2^32 times the number of the refusal.
fn number_of(drawn: Result<u32, Refusal>) -> u64 {
    match drawn {
        Ok(colour) => u64::from(colour),
        Err(refusal) => u64::from(u32::from(refusal)) << 32,
    }
}

impl<R: Print + AllocGlobal> Case<'_, R> {
    // Whether a reader gives the same for a pixel as the plain call.
    pub(crate) fn lookup_agrees(
        &self,
        screen: Screen,
        place: Place,
        plain: Result<u32, Refusal>,
    ) -> io::Result<bool> {
        let read = read_pixel(screen, self.settings.lent(), place);
        self.agrees("reader", number_of(read), number_of(plain))
    }

    // Whether a reader gives each of these entries, drawn in reading order from the first column of a row on.
    pub(crate) fn entries_read(
        &self,
        screen: Screen,
        first_row: u32,
        drawn: &[u32],
    ) -> io::Result<bool> {
        let wide = width(screen.words) as usize;
        let mut right = true;
        for (colours, row) in drawn.chunks(wide).zip(first_row..) {
            for (colour, column) in colours.iter().zip(0..) {
                right &= self.lookup_agrees(screen, Place { row, column }, Ok(*colour))?;
            }
        }
        Ok(right)
    }
}
