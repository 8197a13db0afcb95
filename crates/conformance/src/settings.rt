// What the cases of a vector file are lent: each setting holds from its line on.
use super::text::{first_numbers, low_16, low_32, number_at, word_at};
use drawing::Lent;
use memory::Screen;
use registers::load;
use registers::refusal::Refusal;
use std::alloc::{AllocError, Global};

const MOST_VIDEO_WORDS: usize = 40960;

// Before any setting all lists are empty.
#[derive(Drop)]
pub(crate) struct Settings {
    pub words: Vec<u32>,
    pub palette: Vec<u16>,
    pub video: Vec<u32>,
    pub window_start: u32,
    pub hclk: u32,
}

// Video words counted up from a line's count, first word and step.
fn counted(alloc: Global, numbers: &[u64]) -> Result<Vec<u32>, AllocError> {
    let first = word_at(numbers, 1);
    let step = word_at(numbers, 2);
    (0..number_at(numbers, 0).min(MOST_VIDEO_WORDS as u64))
        .map(|i| step.wrapping_mul(low_32(i)).wrapping_add(first))
        .collect(alloc)
}

impl Settings {
    pub(crate) fn new(alloc: Global) -> Settings {
        Settings {
            words: Vec::new(alloc),
            palette: Vec::new(alloc),
            video: Vec::new(alloc),
            window_start: 0,
            hclk: 0,
        }
    }

    // The settings after a line; a line that is no setting leaves them.
    pub(crate) fn set(
        &mut self,
        alloc: Global,
        key: &[u8],
        numbers: &[u64],
    ) -> Result<(), AllocError> {
        match key {
            b"words" => self.words = first_numbers(alloc, numbers, 16, low_32)?,
            b"palette" => self.palette = first_numbers(alloc, numbers, 260, low_16)?,
            b"video" => self.video = first_numbers(alloc, numbers, MOST_VIDEO_WORDS, low_32)?,
            b"counted" => self.video = counted(alloc, numbers)?,
            b"start" => self.window_start = word_at(numbers, 0),
            b"hclk" => self.hclk = word_at(numbers, 0),
            _ => {}
        }
        Ok(())
    }

    // The words with their window start, or the refusal where they are too few.
    pub(crate) fn screen(&self) -> Result<Screen, Refusal> {
        let words = load(&self.words)?;
        Ok(Screen {
            words,
            window_start: self.window_start,
        })
    }

    // What a call that draws is lent.
    pub(crate) fn lent(&self) -> Lent<'_> {
        Lent {
            video: &self.video,
            palette: &self.palette,
        }
    }

    // The same for a call of a scan: 1,024 video words at most.
    pub(crate) fn lent_to_scan(&self) -> Lent<'_> {
        Lent {
            video: self.video.get(..1024).unwrap_or(&self.video),
            palette: &self.palette,
        }
    }
}
