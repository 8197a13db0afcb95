// The rows of an STN panel, one after the other (§5.10).
ghost use Rattle.std.specs.Prelude.{◌≡◌, ◌*◌, ◌≤◌, length, is_none};
ghost use Rattle.laws.specs.Storing.{stores};
ghost use Rattle.stn.specs.Core.{mono, bits_in, bytes_of, ByRows};
ghost use Rattle.stn.specs.Drawing.{row_bytes, frame_bytes, stn_byte};
ghost use Rattle.stn.specs.Greys.{row_byte};

use super::patterns::Patterns;
use super::phase::Phase;
use super::words::{draw_greys, draw_mono};
use memory::{Screen, first_word};
use panel::geometry::{height, stn_width};
use registers::Words;

// Bytes of a row: one for eight pixels.
#[tactic(auto, unfolding(crate::specs::Drawing::row_bytes))]
pub(crate) fn row_bytes(w: Words) -> u32
    ensures value { result ≡ row_bytes w }
    ensures upper_bound { result ≤ 2048 }
{
    stn_width(w) / 8
}

fn mono(w: Words) -> bool
    ensures { result ≡ mono w }
{
    w.bppmode() == 0
}

// The words of a row. A mono row has no patterns.
#[tactic(auto, unfolding(crate::specs::Greys::row_byte, crate::specs::Greys::lit_bits))]
fn draw_row(words: &[u32], bswp: bool, patterns: Option<&Patterns>, phase: Phase, out: &mut [u8])
    requires { length out.old ≡ bytes_of (is_none patterns) (length words.now) }
    ensures { out.new ≡ stores (row_byte (bits_in (is_none patterns.entry)) bswp words.now 0 phase.number) 0 (length out.old) out.old }
{
    match patterns {
        None => draw_mono(words, bswp, out),
        Some(patterns) => draw_greys(words, bswp, patterns, phase, out),
    }
}

// All rows of a frame.
fn draw_rows(s: Screen, video: &[u32], frame: u32, patterns: Option<&Patterns>, out: &mut [u8])
    requires { ByRows s (length video.now) × (is_none patterns ≡ mono s.words) × (frame_bytes s.words ≤ length out.old) }
    ensures { out.new ≡ stores (stn_byte s video.now frame) 0 (frame_bytes s.words) out.old }
{
    let bswp = s.words.bswp() == 1;
    let words = (s.words.pagewidth() / 2) as usize;
    let bytes = row_bytes(s.words) as usize;
    for row in 0..height(s.words) {
        let from = first_word(s, row);
        let at = row as usize * bytes;
        draw_row(
            &video[from..from + words],
            bswp,
            patterns,
            Phase::new(frame, row),
            &mut out[at..at + bytes],
        );
    }
}

// The same. The patterns are made only where they are read.
pub(crate) fn draw_frame(s: Screen, video: &[u32], frame: u32, out: &mut [u8])
    requires { ByRows s (length video.now) × (frame_bytes s.words ≤ length out.old) }
    ensures { out.new ≡ stores (stn_byte s video.now frame) 0 (frame_bytes s.words) out.old }
{
    if mono(s.words) {
        draw_rows(s, video, frame, None, out);
    } else {
        draw_rows(s, video, frame, Some(&Patterns::new()), out);
    }
}
