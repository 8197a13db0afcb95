// Drawing what the words, the palette and the lent video memory show: one pixel, a row, the picture (§5.6), a stretch of it (§5.7), and
// their refusals (§9.3).
#![tactic(auto)]

mod columns;
pub mod picture;
pub mod pixel;
pub mod refusals;
pub mod row;
mod table;
mod words;

// What is lent to a call beside the slice that it draws to: the video memory (§3.1) and the palette (§5.1).
#[derive(Clone, Copy)]
pub struct Lent<'a> {
    pub video: &'a [u32],
    pub palette: &'a [u16],
}
