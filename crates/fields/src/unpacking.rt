// The writable fields of each word (§1.4), as the accessors of `Words` give them.
ghost use Rattle.std.specs.Prelude.{◌≡◌};
ghost use Rattle.fields.specs.Reading.{fields_of};
ghost use Rattle.fields.specs.Reading.{lcdcon1_of, lcdcon2_of, lcdcon3_of, lcdcon4_of, lcdcon5_of};
ghost use Rattle.fields.specs.Reading.{lcdsaddr1_of, lcdsaddr2_of, lcdsaddr3_of, tpal_of};

use super::{
    Fields, Lcdcon1, Lcdcon2, Lcdcon3, Lcdcon4, Lcdcon5, Lcdsaddr1, Lcdsaddr2, Lcdsaddr3, Tpal,
};
use registers::Words;

impl From<Words> for Lcdcon1 {
    ghost from_gives = { λ w f. f ≡ lcdcon1_of w };

    fn from(w: Words) -> Lcdcon1 {
        Lcdcon1 {
            clkval: w.clkval(),
            mmode: w.mmode(),
            pnrmode: w.pnrmode(),
            bppmode: w.bppmode(),
            envid: w.envid(),
        }
    }
}

impl From<Words> for Lcdcon2 {
    ghost from_gives = { λ w f. f ≡ lcdcon2_of w };

    fn from(w: Words) -> Lcdcon2 {
        Lcdcon2 {
            vbpd: w.vbpd(),
            lineval: w.lineval(),
            vfpd: w.vfpd(),
            vspw: w.vspw(),
        }
    }
}

impl From<Words> for Lcdcon3 {
    ghost from_gives = { λ w f. f ≡ lcdcon3_of w };

    fn from(w: Words) -> Lcdcon3 {
        Lcdcon3 {
            hbpd: w.hbpd(),
            hozval: w.hozval(),
            hfpd: w.hfpd(),
        }
    }
}

impl From<Words> for Lcdcon4 {
    ghost from_gives = { λ w f. f ≡ lcdcon4_of w };

    fn from(w: Words) -> Lcdcon4 {
        Lcdcon4 {
            mval: w.mval(),
            hspw: w.hspw(),
        }
    }
}

impl From<Words> for Lcdcon5 {
    ghost from_gives = { λ w f. f ≡ lcdcon5_of w };

    fn from(w: Words) -> Lcdcon5 {
        Lcdcon5 {
            bpp24bl: w.bpp24bl(),
            frm565: w.frm565(),
            invvclk: w.invvclk(),
            invvline: w.invvline(),
            invvframe: w.invvframe(),
            invvd: w.invvd(),
            invvden: w.invvden(),
            invpwren: w.invpwren(),
            invlend: w.invlend(),
            pwren: w.pwren(),
            enlend: w.enlend(),
            bswp: w.bswp(),
            hwswp: w.hwswp(),
        }
    }
}

impl From<Words> for Lcdsaddr1 {
    ghost from_gives = { λ w f. f ≡ lcdsaddr1_of w };

    fn from(w: Words) -> Lcdsaddr1 {
        Lcdsaddr1 {
            lcdbank: w.lcdbank(),
            lcdbaseu: w.lcdbaseu(),
        }
    }
}

impl From<Words> for Lcdsaddr2 {
    ghost from_gives = { λ w f. f ≡ lcdsaddr2_of w };

    fn from(w: Words) -> Lcdsaddr2 {
        Lcdsaddr2 {
            lcdbasel: w.lcdbasel(),
        }
    }
}

impl From<Words> for Lcdsaddr3 {
    ghost from_gives = { λ w f. f ≡ lcdsaddr3_of w };

    fn from(w: Words) -> Lcdsaddr3 {
        Lcdsaddr3 {
            offsize: w.offsize(),
            pagewidth: w.pagewidth(),
        }
    }
}

impl From<Words> for Tpal {
    ghost from_gives = { λ w f. f ≡ tpal_of w };

    fn from(w: Words) -> Tpal {
        Tpal {
            tpalen: w.tpalen(),
            tpalval: w.tpalval(),
        }
    }
}

impl From<Words> for Fields {
    ghost from_gives = { λ w f. f ≡ fields_of w };

    fn from(w: Words) -> Fields {
        Fields {
            lcdcon1: w.into(),
            lcdcon2: w.into(),
            lcdcon3: w.into(),
            lcdcon4: w.into(),
            lcdcon5: w.into(),
            lcdsaddr1: w.into(),
            lcdsaddr2: w.into(),
            lcdsaddr3: w.into(),
            tpal: w.into(),
        }
    }
}
