// Pixels of a row to the entries of a slice, in whole words: the core of row and picture drawing (§5.6). It reads the memory and the
// table of colours only.
ghost use Rattle.std.specs.Prelude.{true, ◌≡◌, ◌+◌, length, get_or};
ghost use Rattle.drawing.specs.Colour.{row_colour};
ghost use Rattle.drawing.specs.Core.{Sized, Legal, Columns, Shows};

use super::words::draw_words;
use pixels::format::Format;

// The mode stores pixels, and the swaps are legal for it (§4.4).
pub(crate) fn legal(f: Format) -> bool
    requires { Sized f }
    ensures { result ≡ true → Legal f }
{
    let bits = f.bits;
    (bits != 0) & (!f.bswp | (bits <= 8)) & (!f.hwswp | (bits == 16))
}

// Pixels of a row from a column on, as many as `out` has entries. The column begins a word, and the pixels fill whole words.
pub(crate) fn draw_columns(
    f: Format,
    video: &[u32],
    base: usize,
    table: &[u32; 256],
    column: usize,
    out: &mut [u32],
)
    requires { Columns f video.now base column (length out.old) }
    ensures { Shows (λ i. row_colour f (λ v. get_or table.now v 0) video.now base (column + i)) out.new }
{
    if f.tpalen {
        out.fill(f.tpalval);
    } else {
        let bits = f.bits as usize;
        let from = base + column * bits / 32;
        let end = from + out.len() * bits / 32;
        draw_words(f, &video[from..end], table, out);
    }
}
