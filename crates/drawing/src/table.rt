// The colours of all indices (§5.1), expanded once.
ghost use Rattle.std.specs.Prelude.{true, false, ◌≡◌, ◌^◌, ◌<◌, ◌≤◌, length, get_or, replicate};
ghost use Rattle.drawing.specs.Core.{looked_up, Expanded};

use pixels::colours::expand;
use pixels::format::Format;

// An entry of the palette, 0 where there is none.
pub(crate) fn entry_at(palette: &[u16], place: usize) -> u32
    ensures { result ≡ get_or palette.now place 0 }
{
    u32::from(palette.get(place).copied().unwrap_or(0))
}

// Pixels are looked up: they are indices, and no temporary palette hides them.
pub(crate) fn looked_up(f: Format) -> bool
    ensures { result ≡ looked_up f }
{
    (f.bits <= 8) & !f.tpalen
}

// How many indices a pixel's bits can be; 0 where nothing is looked up.
fn indices(f: Format) -> usize
    ensures { (f.tpalen ≡ false → f.bits ≤ 8 → result ≡ 2 ^ f.bits) × (result ≤ 256) }
{
    if looked_up(f) {
        return 1 << f.bits;
    }
    0
}

// The colour of each index to a table of zeros; none where nothing is looked up. An index that has no palette entry stays 0.
pub(crate) fn fill_table(f: Format, palette: &[u16], table: &mut [u32; 256])
    requires { table.old ≡ replicate 256 0 }
    ensures { Expanded f palette.now table.new }
{
    let n = indices(f).min(palette.len());
    for (v, entry) in palette[..n].iter().enumerate() {
        table[v] = expand(u32::from(*entry), f.expansion);
    }
}
