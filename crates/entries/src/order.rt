// The writable fields as the first 34 entries of a lent slice (§10.2): in the order of the words and, within a word, from its highest
// bits down. Entries 0 to 13 are LCDCON1 to LCDCON4, 14 to 26 LCDCON5, 27 to 33 the addresses and TPAL.
ghost use Rattle.std.specs.Prelude.{◌≡◌};
ghost use Rattle.entries.specs.Order.{field_entries, fields_in};
ghost use Rattle.entries.specs.Order.{lcdcon1_in, lcdcon2_in, lcdcon3_in, lcdcon4_in, lcdcon5_in};
ghost use Rattle.entries.specs.Order.{lcdsaddr1_in, lcdsaddr2_in, lcdsaddr3_in, tpal_in};

use fields::{
    Fields, Lcdcon1, Lcdcon2, Lcdcon3, Lcdcon4, Lcdcon5, Lcdsaddr1, Lcdsaddr2, Lcdsaddr3, Tpal,
};

// The numbers of the fields, in that order.
#[derive(Clone, Copy)]
pub(crate) struct Entries(pub(crate) [u32; 34]);

// ---- fields as entries

impl From<Fields> for Entries {
    ghost from_gives = { λ f entries. entries.0 ≡ field_entries f };

    fn from(f: Fields) -> Entries {
        Entries([
            f.lcdcon1.clkval,
            f.lcdcon1.mmode,
            f.lcdcon1.pnrmode,
            f.lcdcon1.bppmode,
            f.lcdcon1.envid,
            f.lcdcon2.vbpd,
            f.lcdcon2.lineval,
            f.lcdcon2.vfpd,
            f.lcdcon2.vspw,
            f.lcdcon3.hbpd,
            f.lcdcon3.hozval,
            f.lcdcon3.hfpd,
            f.lcdcon4.mval,
            f.lcdcon4.hspw,
            f.lcdcon5.bpp24bl,
            f.lcdcon5.frm565,
            f.lcdcon5.invvclk,
            f.lcdcon5.invvline,
            f.lcdcon5.invvframe,
            f.lcdcon5.invvd,
            f.lcdcon5.invvden,
            f.lcdcon5.invpwren,
            f.lcdcon5.invlend,
            f.lcdcon5.pwren,
            f.lcdcon5.enlend,
            f.lcdcon5.bswp,
            f.lcdcon5.hwswp,
            f.lcdsaddr1.lcdbank,
            f.lcdsaddr1.lcdbaseu,
            f.lcdsaddr2.lcdbasel,
            f.lcdsaddr3.offsize,
            f.lcdsaddr3.pagewidth,
            f.tpal.tpalen,
            f.tpal.tpalval,
        ])
    }
}

// ---- entries as fields

impl From<Entries> for Lcdcon1 {
    ghost from_gives = { λ entries f. f ≡ lcdcon1_in entries.0 };

    fn from(entries: Entries) -> Lcdcon1 {
        Lcdcon1 {
            clkval: entries.0[0],
            mmode: entries.0[1],
            pnrmode: entries.0[2],
            bppmode: entries.0[3],
            envid: entries.0[4],
        }
    }
}

impl From<Entries> for Lcdcon2 {
    ghost from_gives = { λ entries f. f ≡ lcdcon2_in entries.0 };

    fn from(entries: Entries) -> Lcdcon2 {
        Lcdcon2 {
            vbpd: entries.0[5],
            lineval: entries.0[6],
            vfpd: entries.0[7],
            vspw: entries.0[8],
        }
    }
}

impl From<Entries> for Lcdcon3 {
    ghost from_gives = { λ entries f. f ≡ lcdcon3_in entries.0 };

    fn from(entries: Entries) -> Lcdcon3 {
        Lcdcon3 {
            hbpd: entries.0[9],
            hozval: entries.0[10],
            hfpd: entries.0[11],
        }
    }
}

impl From<Entries> for Lcdcon4 {
    ghost from_gives = { λ entries f. f ≡ lcdcon4_in entries.0 };

    fn from(entries: Entries) -> Lcdcon4 {
        Lcdcon4 {
            mval: entries.0[12],
            hspw: entries.0[13],
        }
    }
}

impl From<Entries> for Lcdcon5 {
    ghost from_gives = { λ entries f. f ≡ lcdcon5_in entries.0 };

    fn from(entries: Entries) -> Lcdcon5 {
        Lcdcon5 {
            bpp24bl: entries.0[14],
            frm565: entries.0[15],
            invvclk: entries.0[16],
            invvline: entries.0[17],
            invvframe: entries.0[18],
            invvd: entries.0[19],
            invvden: entries.0[20],
            invpwren: entries.0[21],
            invlend: entries.0[22],
            pwren: entries.0[23],
            enlend: entries.0[24],
            bswp: entries.0[25],
            hwswp: entries.0[26],
        }
    }
}

impl From<Entries> for Lcdsaddr1 {
    ghost from_gives = { λ entries f. f ≡ lcdsaddr1_in entries.0 };

    fn from(entries: Entries) -> Lcdsaddr1 {
        Lcdsaddr1 {
            lcdbank: entries.0[27],
            lcdbaseu: entries.0[28],
        }
    }
}

impl From<Entries> for Lcdsaddr2 {
    ghost from_gives = { λ entries f. f ≡ lcdsaddr2_in entries.0 };

    fn from(entries: Entries) -> Lcdsaddr2 {
        Lcdsaddr2 {
            lcdbasel: entries.0[29],
        }
    }
}

impl From<Entries> for Lcdsaddr3 {
    ghost from_gives = { λ entries f. f ≡ lcdsaddr3_in entries.0 };

    fn from(entries: Entries) -> Lcdsaddr3 {
        Lcdsaddr3 {
            offsize: entries.0[30],
            pagewidth: entries.0[31],
        }
    }
}

impl From<Entries> for Tpal {
    ghost from_gives = { λ entries f. f ≡ tpal_in entries.0 };

    fn from(entries: Entries) -> Tpal {
        Tpal {
            tpalen: entries.0[32],
            tpalval: entries.0[33],
        }
    }
}

impl From<Entries> for Fields {
    ghost from_gives = { λ entries f. f ≡ fields_in entries.0 };

    fn from(entries: Entries) -> Fields {
        Fields {
            lcdcon1: entries.into(),
            lcdcon2: entries.into(),
            lcdcon3: entries.into(),
            lcdcon4: entries.into(),
            lcdcon5: entries.into(),
            lcdsaddr1: entries.into(),
            lcdsaddr2: entries.into(),
            lcdsaddr3: entries.into(),
            tpal: entries.into(),
        }
    }
}
