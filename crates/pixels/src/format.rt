// How a pixel's bits are to be read, by the words: worked out once and then handed on.
ghost use Rattle.std.specs.Prelude.{◌≡◌};
ghost use Rattle.pixels.specs.Format.{expansion_of, format};

use super::colours::Expansion;
use panel::geometry::bits_of;
use registers::Words;

// Stored bits of a pixel (§2.2), the two swaps (§4.2, §4.3), the place of 24 bits in a word (§4.5), the expansion of 16 bits (§5.2,
// §5.3), the temporary palette (§5.4).
#[derive(Clone, Copy)]
pub struct Format {
    pub bits: u32,
    pub bswp: bool,
    pub hwswp: bool,
    pub bpp24bl: bool,
    pub expansion: Expansion,
    pub tpalen: bool,
    pub tpalval: u32,
}

fn expansion_of(w: Words) -> Expansion
    ensures { result ≡ expansion_of w }
{
    if w.frm565() == 1 {
        return Expansion::Rgb565;
    }
    Expansion::Rgb5551
}

// The format of the words' pixels.
pub fn format_of(w: Words) -> Format
    ensures { result ≡ format w }
{
    Format {
        bits: bits_of(w),
        bswp: w.bswp() == 1,
        hwswp: w.hwswp() == 1,
        bpp24bl: w.bpp24bl() == 1,
        expansion: expansion_of(w),
        tpalen: w.tpalen() == 1,
        tpalval: w.tpalval(),
    }
}
