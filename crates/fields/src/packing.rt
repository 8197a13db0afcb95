// Packing (§1.5): each word from its lowest field up, read-only bits 0 (§1.3); and refusal 12, a field too wide for its bits.
ghost use Rattle.std.specs.Prelude.{◌≡◌, List, ℕ};
ghost use Rattle.laws.specs.Booleans.{any};
ghost use Rattle.laws.specs.BitFields.{Span, pack, too_wide};
ghost use Rattle.laws.specs.BitFieldLaws.{Fit};
ghost use Rattle.registers.specs.Layouts.{LCDCON1, LCDCON2, LCDCON3, LCDCON4, LCDCON5, LCDSADDR1, LCDSADDR2, LCDSADDR3, TPAL};
ghost use Rattle.fields.specs.Core.{FieldsFit};
ghost use Rattle.fields.specs.Writing.{words_of, field_too_wide};
ghost use Rattle.fields.specs.Writing.{lcdcon1_values, lcdcon2_values, lcdcon3_values, lcdcon4_values, lcdcon5_values};
ghost use Rattle.fields.specs.Writing.{lcdsaddr1_values, lcdsaddr2_values, lcdsaddr3_values, tpal_values};

use super::{
    Fields, Lcdcon1, Lcdcon2, Lcdcon3, Lcdcon4, Lcdcon5, Lcdsaddr1, Lcdsaddr2, Lcdsaddr3, Tpal,
};
use registers::Words;
use registers::bits::{
    BPP24BL, BPPMODE, BSWP, CLKVAL, ENLEND, ENVID, FRM565, HBPD, HFPD, HOZVAL, HSPW, HWSWP,
    INVLEND, INVPWREN, INVVCLK, INVVD, INVVDEN, INVVFRAME, INVVLINE, LCDBANK, LCDBASEL, LCDBASEU,
    LINEVAL, MMODE, MVAL, OFFSIZE, PAGEWIDTH, PNRMODE, PWREN, TPALEN, TPALVAL, VBPD, VFPD, VSPW,
};

// The writable fields of one word.
trait Register {
    // The word's layout, and the fields' values in its order.
    ghost layout: { List Span };

    ghost values: { Self → List ℕ };

    // A field does not fit its bits.
    fn too_wide(self) -> bool
        ensures { result ≡ too_wide layout (values self) };

    // The word of the fields.
    fn packed(self) -> u32
        requires { Fit layout (values self) }
        ensures { result ≡ pack layout (values self) };
}

impl Register for Lcdcon1 {
    ghost layout = { LCDCON1 };

    ghost values = { lcdcon1_values };

    fn too_wide(self) -> bool {
        CLKVAL.exceeded_by(self.clkval)
            | MMODE.exceeded_by(self.mmode)
            | PNRMODE.exceeded_by(self.pnrmode)
            | BPPMODE.exceeded_by(self.bppmode)
            | ENVID.exceeded_by(self.envid)
    }

    fn packed(self) -> u32 {
        let word = ENVID.put(self.envid, 0);
        let word = BPPMODE.put(self.bppmode, word);
        let word = PNRMODE.put(self.pnrmode, word);
        let word = MMODE.put(self.mmode, word);
        CLKVAL.put(self.clkval, word)
    }
}

impl Register for Lcdcon2 {
    ghost layout = { LCDCON2 };

    ghost values = { lcdcon2_values };

    fn too_wide(self) -> bool {
        VBPD.exceeded_by(self.vbpd)
            | LINEVAL.exceeded_by(self.lineval)
            | VFPD.exceeded_by(self.vfpd)
            | VSPW.exceeded_by(self.vspw)
    }

    fn packed(self) -> u32 {
        let word = VSPW.put(self.vspw, 0);
        let word = VFPD.put(self.vfpd, word);
        let word = LINEVAL.put(self.lineval, word);
        VBPD.put(self.vbpd, word)
    }
}

impl Register for Lcdcon3 {
    ghost layout = { LCDCON3 };

    ghost values = { lcdcon3_values };

    fn too_wide(self) -> bool {
        HBPD.exceeded_by(self.hbpd) | HOZVAL.exceeded_by(self.hozval) | HFPD.exceeded_by(self.hfpd)
    }

    fn packed(self) -> u32 {
        let word = HFPD.put(self.hfpd, 0);
        let word = HOZVAL.put(self.hozval, word);
        HBPD.put(self.hbpd, word)
    }
}

impl Register for Lcdcon4 {
    ghost layout = { LCDCON4 };

    ghost values = { lcdcon4_values };

    fn too_wide(self) -> bool {
        MVAL.exceeded_by(self.mval) | HSPW.exceeded_by(self.hspw)
    }

    fn packed(self) -> u32 {
        let word = HSPW.put(self.hspw, 0);
        MVAL.put(self.mval, word)
    }
}

impl Register for Lcdcon5 {
    ghost layout = { LCDCON5 };

    ghost values = { lcdcon5_values };

    fn too_wide(self) -> bool {
        BPP24BL.exceeded_by(self.bpp24bl)
            | FRM565.exceeded_by(self.frm565)
            | INVVCLK.exceeded_by(self.invvclk)
            | INVVLINE.exceeded_by(self.invvline)
            | INVVFRAME.exceeded_by(self.invvframe)
            | INVVD.exceeded_by(self.invvd)
            | INVVDEN.exceeded_by(self.invvden)
            | INVPWREN.exceeded_by(self.invpwren)
            | INVLEND.exceeded_by(self.invlend)
            | PWREN.exceeded_by(self.pwren)
            | ENLEND.exceeded_by(self.enlend)
            | BSWP.exceeded_by(self.bswp)
            | HWSWP.exceeded_by(self.hwswp)
    }

    fn packed(self) -> u32 {
        let word = HWSWP.put(self.hwswp, 0);
        let word = BSWP.put(self.bswp, word);
        let word = ENLEND.put(self.enlend, word);
        let word = PWREN.put(self.pwren, word);
        let word = INVLEND.put(self.invlend, word);
        let word = INVPWREN.put(self.invpwren, word);
        let word = INVVDEN.put(self.invvden, word);
        let word = INVVD.put(self.invvd, word);
        let word = INVVFRAME.put(self.invvframe, word);
        let word = INVVLINE.put(self.invvline, word);
        let word = INVVCLK.put(self.invvclk, word);
        let word = FRM565.put(self.frm565, word);
        BPP24BL.put(self.bpp24bl, word)
    }
}

impl Register for Lcdsaddr1 {
    ghost layout = { LCDSADDR1 };

    ghost values = { lcdsaddr1_values };

    fn too_wide(self) -> bool {
        LCDBANK.exceeded_by(self.lcdbank) | LCDBASEU.exceeded_by(self.lcdbaseu)
    }

    fn packed(self) -> u32 {
        let word = LCDBASEU.put(self.lcdbaseu, 0);
        LCDBANK.put(self.lcdbank, word)
    }
}

impl Register for Lcdsaddr2 {
    ghost layout = { LCDSADDR2 };

    ghost values = { lcdsaddr2_values };

    fn too_wide(self) -> bool {
        LCDBASEL.exceeded_by(self.lcdbasel)
    }

    fn packed(self) -> u32 {
        LCDBASEL.put(self.lcdbasel, 0)
    }
}

impl Register for Lcdsaddr3 {
    ghost layout = { LCDSADDR3 };

    ghost values = { lcdsaddr3_values };

    fn too_wide(self) -> bool {
        OFFSIZE.exceeded_by(self.offsize) | PAGEWIDTH.exceeded_by(self.pagewidth)
    }

    fn packed(self) -> u32 {
        let word = PAGEWIDTH.put(self.pagewidth, 0);
        OFFSIZE.put(self.offsize, word)
    }
}

impl Register for Tpal {
    ghost layout = { TPAL };

    ghost values = { tpal_values };

    fn too_wide(self) -> bool {
        TPALEN.exceeded_by(self.tpalen) | TPALVAL.exceeded_by(self.tpalval)
    }

    fn packed(self) -> u32 {
        let word = TPALVAL.put(self.tpalval, 0);
        TPALEN.put(self.tpalen, word)
    }
}

impl Fields {
    // Refusal 12 (§1.5).
    #[tactic(auto, unfolding(crate::specs::Writing::field_too_wide))]
    pub(crate) fn too_wide(self) -> bool
        ensures { result ≡ field_too_wide self }
    {
        self.lcdcon1.too_wide()
            | self.lcdcon2.too_wide()
            | self.lcdcon3.too_wide()
            | self.lcdcon4.too_wide()
            | self.lcdcon5.too_wide()
            | self.lcdsaddr1.too_wide()
            | self.lcdsaddr2.too_wide()
            | self.lcdsaddr3.too_wide()
            | self.tpal.too_wide()
    }

    // The nine words of fields that fit.
    pub(crate) fn packed(self) -> Words
        requires { FieldsFit self }
        ensures { result ≡ words_of self }
    {
        Words {
            lcdcon1: self.lcdcon1.packed(),
            lcdcon2: self.lcdcon2.packed(),
            lcdcon3: self.lcdcon3.packed(),
            lcdcon4: self.lcdcon4.packed(),
            lcdcon5: self.lcdcon5.packed(),
            lcdsaddr1: self.lcdsaddr1.packed(),
            lcdsaddr2: self.lcdsaddr2.packed(),
            lcdsaddr3: self.lcdsaddr3.packed(),
            tpal: self.tpal.packed(),
        }
    }
}
