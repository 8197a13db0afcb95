// Whole words of video memory to the entries of a slice: one loop for each kind of pixel, with the mode's size as a literal.
ghost use Rattle.std.specs.Prelude.{false, cond, ◌≡◌, ◌+◌, ◌-◌, ◌*◌, ◌/◌, ◌%◌, ◌^◌, ◌<◌, ◌≤◌, length, get_or};
ghost use Rattle.pixels.specs.Colours.{expanded, cut24};
ghost use Rattle.pixels.specs.Order.{pixel_bits, stored_pixel};
ghost use Rattle.pixels.specs.Pixel.{shown};
ghost use Rattle.drawing.specs.Core.{Legal, Fits, Shows};

use pixels::colours::{Expansion, cut_24, expand};
use pixels::format::Format;
use pixels::order::{exchange_halves, in_order};

// The s bits of a word that lie below the `past` highest.
pub(crate) fn bits_past(x: u32, past: u32, s: u32) -> u32
    requires { (0 < s) × (past + s ≤ 32) }
    ensures { result ≡ x / 2 ^ (32 - (past + s)) % 2 ^ s }
{
    (x << past) >> (32 - s)
}

// The pixels of one word, s bits each, through the table of colours.
fn look_up_word(x: u32, s: u32, table: &[u32; 256], out: &mut [u32])
    requires { Fits s 1 out.old × (s ≤ 8) }
    ensures { Shows (λ k. get_or table.now (pixel_bits s x k) 0) out.new }
{
    for k in 0..32 / s {
        out[k as usize] = table[bits_past(x, s * k, s) as usize];
    }
}

// Words at s bits a pixel, through the table of colours.
fn look_up_words(words: &[u32], s: u32, bswp: bool, table: &[u32; 256], out: &mut [u32])
    requires { Fits s (length words.now) out.old × (s ≤ 8) }
    ensures { Shows (λ j. get_or table.now (stored_pixel s bswp false words.now 0 j) 0) out.new }
{
    let per_word = (32 / s) as usize;
    for (i, word) in words.iter().enumerate() {
        let at = i * per_word;
        look_up_word(
            in_order(*word, bswp, false),
            s,
            table,
            &mut out[at..at + per_word],
        );
    }
}

fn half(x: u32, upper: bool) -> u32
    ensures { result ≡ cond upper (x / 2 ^ 16) (x % 2 ^ 16) }
{
    if upper { x >> 16 } else { x & 0xffff }
}

// Words at 16 bits a pixel. The halves are exchanged whether HWSWP is set or not, and then taken in the order that it asks for: the
// compiler vectorises this form four words at a time.
fn expand_words(words: &[u32], hwswp: bool, expansion: Expansion, out: &mut [u32])
    requires { Fits 16 (length words.now) out.old }
    ensures { Shows (λ j. expanded expansion (stored_pixel 16 false hwswp words.now 0 j)) out.new }
{
    for (i, word) in words.iter().enumerate() {
        let x = exchange_halves(*word);
        out[i * 2] = expand(half(x, hwswp), expansion);
        out[i * 2 + 1] = expand(half(x, !hwswp), expansion);
    }
}

// Words at 24 bits a pixel.
fn cut_words(words: &[u32], bpp24bl: bool, out: &mut [u32])
    requires { Fits 32 (length words.now) out.old }
    ensures { Shows (λ j. cut24 bpp24bl (stored_pixel 32 false false words.now 0 j)) out.new }
{
    for (i, word) in words.iter().enumerate() {
        out[i] = cut_24(*word, bpp24bl);
    }
}

// Words by the format. The size is a literal in each arm, so that each has a loop of its own.
pub(crate) fn draw_words(f: Format, words: &[u32], table: &[u32; 256], out: &mut [u32])
    requires { Legal f × (length out.old ≡ length words.now * (32 / f.bits)) }
    ensures { Shows (λ j. shown f (λ v. get_or table.now v 0) (stored_pixel f.bits f.bswp f.hwswp words.now 0 j)) out.new }
{
    match f.bits {
        1 => look_up_words(words, 1, f.bswp, table, out),
        2 => look_up_words(words, 2, f.bswp, table, out),
        4 => look_up_words(words, 4, f.bswp, table, out),
        8 => look_up_words(words, 8, f.bswp, table, out),
        16 => expand_words(words, f.hwswp, f.expansion, out),
        _ => cut_words(words, f.bpp24bl, out),
    }
}
