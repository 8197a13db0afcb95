// The panel's size (§2.1), the stored bits of a pixel (§2.2), both on STN (§2.3), and where a row starts in the bank (§3.2).
ghost use Rattle.std.specs.Prelude.{◌≡◌};
ghost use Rattle.registers.specs.Fields.{bppmode};
ghost use Rattle.registers.specs.Refusals.{answer};
ghost use Rattle.panel.specs.Geometry.{width, height, depth_of, stored_bits, pitch, row_offset};
ghost use Rattle.panel.specs.Geometry.{stn_width, stn_bits, panel_width, panel_bits};

use registers::Words;
use registers::refusal::Refusal;

// A pixel's place on the panel.
#[derive(Clone, Copy)]
pub struct Place {
    pub row: u32,
    pub column: u32,
}

// Pixels in a row of a TFT panel (§2.1).
pub fn width(w: Words) -> u32
    ensures { result ≡ width w }
{
    w.hozval() + 1
}

// Rows.
pub fn height(w: Words) -> u32
    ensures { result ≡ height w }
{
    w.lineval() + 1
}

// The stored bits of a pixel by BPPMODE, or 3 where that is no TFT mode.
pub fn stored_bits(mode: u32) -> Result<u32, Refusal>
    ensures { answer result ≡ depth_of mode }
{
    match mode {
        0..=7 => Err(Refusal::NoSuchMode),
        8 => Ok(1),
        9 => Ok(2),
        10 => Ok(4),
        11 => Ok(8),
        12 => Ok(16),
        13 => Ok(32),
        14.. => Err(Refusal::NoSuchMode),
    }
}

// The stored bits by the words' BPPMODE, 0 where that is no TFT mode.
pub fn bits_of(w: Words) -> u32
    ensures { result ≡ stored_bits (bppmode w) }
{
    stored_bits(w.bppmode()).unwrap_or(0)
}

// Pixels in a row of an STN panel (§2.3).
pub fn stn_width(w: Words) -> u32
    ensures { result ≡ stn_width w }
{
    8 * width(w)
}

// The stored bits by the words' BPPMODE on STN, 0 where that is no STN mode.
pub fn stn_bits_of(w: Words) -> u32
    ensures { result ≡ stn_bits (bppmode w) }
{
    let mode = w.bppmode();
    match mode {
        0 => 1,
        2 => 4,
        _ => 0,
    }
}

// Pixels in a row, by the panel that PNRMODE selects.
pub fn panel_width(w: Words) -> u32
    ensures { result ≡ panel_width w }
{
    if w.stn() { stn_width(w) } else { width(w) }
}

// The stored bits of a pixel, by the panel that PNRMODE selects.
pub fn panel_bits(w: Words) -> u32
    ensures { result ≡ panel_bits w }
{
    if w.stn() { stn_bits_of(w) } else { bits_of(w) }
}

// Half-words from row to row.
pub fn pitch(w: Words) -> u32
    ensures { result ≡ pitch w }
{
    w.pagewidth() + w.offsize()
}

// Half-words from the bank's start to a row.
pub fn row_offset(w: Words, row: u32) -> u64
    ensures { result ≡ row_offset w row }
{
    w.lcdbaseu() as u64 + row as u64 * pitch(w) as u64
}
