// The fields of the nine words by bit (§1.2, §1.7): where each stands in its word, and the field of nine words.
ghost use Rattle.std.specs.Prelude.{◌≡◌, suc, ◌+◌, ◌-◌, ◌*◌, ◌/◌, ◌%◌, ◌^◌, ◌≤◌, ◌<◌, leb, ltb};
ghost use Rattle.std.specs.List.{list_any};
ghost use Rattle.laws.specs.Booleans.{any};
ghost use Rattle.registers.specs.Fields.{linecnt, clkval, mmode, pnrmode, bppmode, envid};
ghost use Rattle.registers.specs.Fields.{vbpd, lineval, vfpd, vspw};
ghost use Rattle.registers.specs.Fields.{hbpd, hozval, hfpd, wdly, lineblank};
ghost use Rattle.registers.specs.Fields.{mval, hspw, wlh};
ghost use Rattle.registers.specs.Fields.{vstatus, hstatus, bpp24bl, frm565, invvclk, invvline, invvframe, invvd};
ghost use Rattle.registers.specs.Fields.{invvden, invpwren, invlend, pwren, enlend, bswp, hwswp};
ghost use Rattle.registers.specs.Fields.{lcdbank, lcdbaseu};
ghost use Rattle.registers.specs.Fields.{lcdbasel};
ghost use Rattle.registers.specs.Fields.{offsize, pagewidth};
ghost use Rattle.registers.specs.Fields.{tpalen, tpalval};
ghost use Rattle.registers.specs.Fields.{stn, reserved_words, stn_reserved_words, reserved_bit};

use super::Words;

// Bits of a word, by the highest and the lowest of them. Fewer than all 32.
#[derive(Clone, Copy)]
pub struct Bits {
    pub high: u32,
    pub low: u32,
    pub ghost in_word: { (low ≤ high) × (high < 32) × (high - low < 31) },
}

impl Bits {
    // What they hold in a word, as a number (§1.2).
    pub fn of(self, word: u32) -> u32
        ensures { result ≡ word / 2 ^ self.low % 2 ^ (suc self.high - self.low) }
    {
        (word >> self.low) & ((1 << (self.high - self.low + 1)) - 1)
    }

    // A value in them, above the bits of a word below them (§1.5).
    pub fn put(self, value: u32, below: u32) -> u32
        ensures { (value < 2 ^ (suc self.high - self.low)) × (below < 2 ^ self.low) → (result ≡ value * 2 ^ self.low + below) × (result < 2 ^ suc self.high) }
    {
        value << self.low | below
    }

    // The value does not fit them (§1.5).
    pub fn exceeded_by(self, value: u32) -> bool
        ensures { result ≡ leb (2 ^ (suc self.high - self.low)) value }
    {
        0 < value >> (self.high - self.low + 1)
    }
}

// ---- each field's bits (§1.2)

// LCDCON1
pub const LINECNT: Bits = Bits { high: 27, low: 18 };

pub const CLKVAL: Bits = Bits { high: 17, low: 8 };

pub const MMODE: Bits = Bits { high: 7, low: 7 };

pub const PNRMODE: Bits = Bits { high: 6, low: 5 };

pub const BPPMODE: Bits = Bits { high: 4, low: 1 };

pub const ENVID: Bits = Bits { high: 0, low: 0 };

// LCDCON2
pub const VBPD: Bits = Bits { high: 31, low: 24 };

pub const LINEVAL: Bits = Bits { high: 23, low: 14 };

pub const VFPD: Bits = Bits { high: 13, low: 6 };

pub const VSPW: Bits = Bits { high: 5, low: 0 };

// LCDCON3
pub const HBPD: Bits = Bits { high: 25, low: 19 };

pub const HOZVAL: Bits = Bits { high: 18, low: 8 };

pub const HFPD: Bits = Bits { high: 7, low: 0 };

// On STN.
pub const WDLY: Bits = Bits { high: 20, low: 19 };

// On STN.
pub const LINEBLANK: Bits = Bits { high: 7, low: 0 };

// LCDCON4
pub const MVAL: Bits = Bits { high: 15, low: 8 };

pub const HSPW: Bits = Bits { high: 7, low: 0 };

// On STN.
pub const WLH: Bits = Bits { high: 1, low: 0 };

// LCDCON5
pub const VSTATUS: Bits = Bits { high: 16, low: 15 };

pub const HSTATUS: Bits = Bits { high: 14, low: 13 };

pub const BPP24BL: Bits = Bits { high: 12, low: 12 };

pub const FRM565: Bits = Bits { high: 11, low: 11 };

pub const INVVCLK: Bits = Bits { high: 10, low: 10 };

pub const INVVLINE: Bits = Bits { high: 9, low: 9 };

pub const INVVFRAME: Bits = Bits { high: 8, low: 8 };

pub const INVVD: Bits = Bits { high: 7, low: 7 };

pub const INVVDEN: Bits = Bits { high: 6, low: 6 };

pub const INVPWREN: Bits = Bits { high: 5, low: 5 };

pub const INVLEND: Bits = Bits { high: 4, low: 4 };

pub const PWREN: Bits = Bits { high: 3, low: 3 };

pub const ENLEND: Bits = Bits { high: 2, low: 2 };

pub const BSWP: Bits = Bits { high: 1, low: 1 };

pub const HWSWP: Bits = Bits { high: 0, low: 0 };

// LCDSADDR1
pub const LCDBANK: Bits = Bits { high: 29, low: 21 };

pub const LCDBASEU: Bits = Bits { high: 20, low: 0 };

// LCDSADDR2
pub const LCDBASEL: Bits = Bits { high: 20, low: 0 };

// LCDSADDR3
pub const OFFSIZE: Bits = Bits { high: 21, low: 11 };

pub const PAGEWIDTH: Bits = Bits { high: 10, low: 0 };

// TPAL
pub const TPALEN: Bits = Bits { high: 24, low: 24 };

pub const TPALVAL: Bits = Bits { high: 23, low: 0 };

// One of the numbers is not 0.
fn some_set(numbers: &[u32]) -> bool
    ensures { result ≡ list_any (λ n. ltb 0 n) numbers.now }
{
    numbers.iter().any(|n| 0 < *n)
}

impl Words {
    // ---- LCDCON1

    pub fn linecnt(self) -> u32
        ensures { result ≡ linecnt self }
    {
        LINECNT.of(self.lcdcon1)
    }

    pub fn clkval(self) -> u32
        ensures { result ≡ clkval self }
    {
        CLKVAL.of(self.lcdcon1)
    }

    pub fn mmode(self) -> u32
        ensures { result ≡ mmode self }
    {
        MMODE.of(self.lcdcon1)
    }

    pub fn pnrmode(self) -> u32
        ensures { result ≡ pnrmode self }
    {
        PNRMODE.of(self.lcdcon1)
    }

    pub fn bppmode(self) -> u32
        ensures { result ≡ bppmode self }
    {
        BPPMODE.of(self.lcdcon1)
    }

    pub fn envid(self) -> u32
        ensures { result ≡ envid self }
    {
        ENVID.of(self.lcdcon1)
    }

    // ---- LCDCON2

    pub fn vbpd(self) -> u32
        ensures { result ≡ vbpd self }
    {
        VBPD.of(self.lcdcon2)
    }

    pub fn lineval(self) -> u32
        ensures { result ≡ lineval self }
    {
        LINEVAL.of(self.lcdcon2)
    }

    pub fn vfpd(self) -> u32
        ensures { result ≡ vfpd self }
    {
        VFPD.of(self.lcdcon2)
    }

    pub fn vspw(self) -> u32
        ensures { result ≡ vspw self }
    {
        VSPW.of(self.lcdcon2)
    }

    // ---- LCDCON3

    pub fn hbpd(self) -> u32
        ensures { result ≡ hbpd self }
    {
        HBPD.of(self.lcdcon3)
    }

    pub fn hozval(self) -> u32
        ensures { result ≡ hozval self }
    {
        HOZVAL.of(self.lcdcon3)
    }

    pub fn hfpd(self) -> u32
        ensures { result ≡ hfpd self }
    {
        HFPD.of(self.lcdcon3)
    }

    // On STN.
    pub fn wdly(self) -> u32
        ensures { result ≡ wdly self }
    {
        WDLY.of(self.lcdcon3)
    }

    // On STN.
    pub fn lineblank(self) -> u32
        ensures { result ≡ lineblank self }
    {
        LINEBLANK.of(self.lcdcon3)
    }

    // ---- LCDCON4

    pub fn mval(self) -> u32
        ensures { result ≡ mval self }
    {
        MVAL.of(self.lcdcon4)
    }

    pub fn hspw(self) -> u32
        ensures { result ≡ hspw self }
    {
        HSPW.of(self.lcdcon4)
    }

    // On STN.
    pub fn wlh(self) -> u32
        ensures { result ≡ wlh self }
    {
        WLH.of(self.lcdcon4)
    }

    // ---- LCDCON5

    pub fn vstatus(self) -> u32
        ensures { result ≡ vstatus self }
    {
        VSTATUS.of(self.lcdcon5)
    }

    pub fn hstatus(self) -> u32
        ensures { result ≡ hstatus self }
    {
        HSTATUS.of(self.lcdcon5)
    }

    pub fn bpp24bl(self) -> u32
        ensures { result ≡ bpp24bl self }
    {
        BPP24BL.of(self.lcdcon5)
    }

    pub fn frm565(self) -> u32
        ensures { result ≡ frm565 self }
    {
        FRM565.of(self.lcdcon5)
    }

    pub fn invvclk(self) -> u32
        ensures { result ≡ invvclk self }
    {
        INVVCLK.of(self.lcdcon5)
    }

    pub fn invvline(self) -> u32
        ensures { result ≡ invvline self }
    {
        INVVLINE.of(self.lcdcon5)
    }

    pub fn invvframe(self) -> u32
        ensures { result ≡ invvframe self }
    {
        INVVFRAME.of(self.lcdcon5)
    }

    pub fn invvd(self) -> u32
        ensures { result ≡ invvd self }
    {
        INVVD.of(self.lcdcon5)
    }

    pub fn invvden(self) -> u32
        ensures { result ≡ invvden self }
    {
        INVVDEN.of(self.lcdcon5)
    }

    pub fn invpwren(self) -> u32
        ensures { result ≡ invpwren self }
    {
        INVPWREN.of(self.lcdcon5)
    }

    pub fn invlend(self) -> u32
        ensures { result ≡ invlend self }
    {
        INVLEND.of(self.lcdcon5)
    }

    pub fn pwren(self) -> u32
        ensures { result ≡ pwren self }
    {
        PWREN.of(self.lcdcon5)
    }

    pub fn enlend(self) -> u32
        ensures { result ≡ enlend self }
    {
        ENLEND.of(self.lcdcon5)
    }

    pub fn bswp(self) -> u32
        ensures { result ≡ bswp self }
    {
        BSWP.of(self.lcdcon5)
    }

    pub fn hwswp(self) -> u32
        ensures { result ≡ hwswp self }
    {
        HWSWP.of(self.lcdcon5)
    }

    // ---- LCDSADDR1

    pub fn lcdbank(self) -> u32
        ensures { result ≡ lcdbank self }
    {
        LCDBANK.of(self.lcdsaddr1)
    }

    pub fn lcdbaseu(self) -> u32
        ensures { result ≡ lcdbaseu self }
    {
        LCDBASEU.of(self.lcdsaddr1)
    }

    // ---- LCDSADDR2

    pub fn lcdbasel(self) -> u32
        ensures { result ≡ lcdbasel self }
    {
        LCDBASEL.of(self.lcdsaddr2)
    }

    // ---- LCDSADDR3

    pub fn offsize(self) -> u32
        ensures { result ≡ offsize self }
    {
        OFFSIZE.of(self.lcdsaddr3)
    }

    pub fn pagewidth(self) -> u32
        ensures { result ≡ pagewidth self }
    {
        PAGEWIDTH.of(self.lcdsaddr3)
    }

    // ---- TPAL

    pub fn tpalen(self) -> u32
        ensures { result ≡ tpalen self }
    {
        TPALEN.of(self.tpal)
    }

    pub fn tpalval(self) -> u32
        ensures { result ≡ tpalval self }
    {
        TPALVAL.of(self.tpal)
    }

    // ---- all nine

    // PNRMODE selects an STN panel (§1.7).
    #[tactic(auto, unfolding(crate::specs::Fields::stn))]
    pub fn stn(self) -> bool
        ensures { result ≡ stn self }
    {
        self.pnrmode() == 2
    }

    // A bit is set that is reserved on every panel (§1.3).
    fn reserved_anywhere(self) -> bool
        ensures { result ≡ any (reserved_words self) }
    {
        some_set(&[
            Bits { high: 31, low: 28 }.of(self.lcdcon1),
            Bits { high: 31, low: 26 }.of(self.lcdcon3),
            Bits { high: 31, low: 16 }.of(self.lcdcon4),
            Bits { high: 31, low: 17 }.of(self.lcdcon5),
            Bits { high: 31, low: 30 }.of(self.lcdsaddr1),
            Bits { high: 31, low: 21 }.of(self.lcdsaddr2),
            Bits { high: 31, low: 22 }.of(self.lcdsaddr3),
            Bits { high: 31, low: 25 }.of(self.tpal),
        ])
    }

    // A bit is set that is reserved on an STN panel (§1.7).
    fn reserved_on_stn(self) -> bool
        ensures { result ≡ any (stn_reserved_words self) }
    {
        some_set(&[
            Bits { high: 31, low: 21 }.of(self.lcdcon3),
            Bits { high: 7, low: 2 }.of(self.lcdcon4),
            Bits { high: 31, low: 16 }.of(self.lcdcon4),
            self.tpal,
        ])
    }

    // Refusal 1 (§1.3): some word has a reserved bit set.
    #[tactic(auto, unfolding(crate::specs::Fields::reserved_bit))]
    pub fn reserved_bit(self) -> bool
        ensures { result ≡ reserved_bit self }
    {
        self.reserved_anywhere() || self.stn() && self.reserved_on_stn()
    }
}
