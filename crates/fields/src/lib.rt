// Fields and words: reading the fields of the nine words (§1.4) and writing words from fields (§1.5).
#![tactic(auto)]

ghost use Rattle.std.specs.Prelude.{◌≡◌};
ghost use Rattle.registers.specs.Refusals.{answer};
ghost use Rattle.fields.specs.Reading.{read};
ghost use Rattle.fields.specs.Writing.{write};

use registers::Words;
use registers::refusal::{Refusal, refuse_if};

mod packing;
mod unpacking;

#[derive(Clone, Copy)]
pub struct Lcdcon1 {
    pub clkval: u32,
    pub mmode: u32,
    pub pnrmode: u32,
    pub bppmode: u32,
    pub envid: u32,
}

#[derive(Clone, Copy)]
pub struct Lcdcon2 {
    pub vbpd: u32,
    pub lineval: u32,
    pub vfpd: u32,
    pub vspw: u32,
}

#[derive(Clone, Copy)]
pub struct Lcdcon3 {
    pub hbpd: u32,
    pub hozval: u32,
    pub hfpd: u32,
}

#[derive(Clone, Copy)]
pub struct Lcdcon4 {
    pub mval: u32,
    pub hspw: u32,
}

#[derive(Clone, Copy)]
pub struct Lcdcon5 {
    pub bpp24bl: u32,
    pub frm565: u32,
    pub invvclk: u32,
    pub invvline: u32,
    pub invvframe: u32,
    pub invvd: u32,
    pub invvden: u32,
    pub invpwren: u32,
    pub invlend: u32,
    pub pwren: u32,
    pub enlend: u32,
    pub bswp: u32,
    pub hwswp: u32,
}

#[derive(Clone, Copy)]
pub struct Lcdsaddr1 {
    pub lcdbank: u32,
    pub lcdbaseu: u32,
}

#[derive(Clone, Copy)]
pub struct Lcdsaddr2 {
    pub lcdbasel: u32,
}

#[derive(Clone, Copy)]
pub struct Lcdsaddr3 {
    pub offsize: u32,
    pub pagewidth: u32,
}

#[derive(Clone, Copy)]
pub struct Tpal {
    pub tpalen: u32,
    pub tpalval: u32,
}

// The fields of all nine words.
#[derive(Clone, Copy)]
pub struct Fields {
    pub lcdcon1: Lcdcon1,
    pub lcdcon2: Lcdcon2,
    pub lcdcon3: Lcdcon3,
    pub lcdcon4: Lcdcon4,
    pub lcdcon5: Lcdcon5,
    pub lcdsaddr1: Lcdsaddr1,
    pub lcdsaddr2: Lcdsaddr2,
    pub lcdsaddr3: Lcdsaddr3,
    pub tpal: Tpal,
}

// The writable fields of nine words, or 1 where a reserved bit is set. Read-only bits do not matter.
pub fn read(w: Words) -> Result<Fields, Refusal>
    ensures { answer result ≡ read w }
{
    refuse_if(w.reserved_bit(), Refusal::ReservedBit)?;
    Ok(w.into())
}

// The nine words with these fields, read-only bits 0, or 12 where a field is too wide.
pub fn write(f: Fields) -> Result<Words, Refusal>
    ensures { answer result ≡ write f }
{
    refuse_if(f.too_wide(), Refusal::FieldTooWide)?;
    Ok(f.packed())
}
