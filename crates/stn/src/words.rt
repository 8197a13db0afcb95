// Whole words of video memory to bytes, a bit for each pixel (§5.10): one loop for each mode.
ghost use Rattle.std.specs.Prelude.{◌≡◌, ◌*◌, length};
ghost use Rattle.laws.specs.Storing.{stores};
ghost use Rattle.stn.specs.Greys.{row_byte};

use super::patterns::Patterns;
use super::phase::Phase;
use pixels::order::in_order;

// A row's words at 4 bits a pixel, a byte for each. The phase is that of the first pixel.
pub(crate) fn draw_greys(
    words: &[u32],
    bswp: bool,
    patterns: &Patterns,
    phase: Phase,
    out: &mut [u8],
)
    requires { length out.old ≡ length words.now }
    ensures { out.new ≡ stores (row_byte 4 bswp words.now 0 phase.number) 0 (length out.old) out.old }
{
    let mut now = phase;
    for (i, word) in words.iter().enumerate() {
        out[i] = patterns.lit_byte(in_order(*word, bswp, false), now);
        now = now.eight_on();
    }
}

// A row's words at 1 bit a pixel, four bytes for each.
pub(crate) fn draw_mono(words: &[u32], bswp: bool, out: &mut [u8])
    requires { length out.old ≡ length words.now * 4 }
    ensures { out.new ≡ stores (row_byte 1 bswp words.now 0 0) 0 (length out.old) out.old }
{
    for (i, word) in words.iter().enumerate() {
        let bytes = in_order(*word, bswp, false).to_be_bytes();
        out[4 * i..4 * i + 4].copy_from_slice(&bytes);
    }
}
