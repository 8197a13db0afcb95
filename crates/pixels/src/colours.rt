// Colours: 16 bits (§5.2, §5.3) or 24 bits of a word (§4.5) as the 24 lines VD23..VD0.
ghost use Rattle.std.specs.Prelude.{◌≡◌};
ghost use Rattle.pixels.specs.Colours.{expanded565, expanded5551, expanded, cut24};

// The two ways in which 16 bits become 24 lines; FRM565 chooses.
#[derive(Clone, Copy)]
pub enum Expansion {
    Rgb565,
    Rgb5551,
}

// 5:6:5 (§5.2).
pub fn expand_565(v: u32) -> u32
    ensures { result ≡ expanded565 v }
{
    ((v & 0x1f) << 3) | ((v & 0x7e0) << 5) | ((v & 0xf800) << 8)
}

// 5:5:5:1 (§5.3). Bits 5..1 and bit 0 go to neighbouring lines, so one shift moves them all.
pub fn expand_5551(v: u32) -> u32
    ensures { result ≡ expanded5551 v }
{
    ((v & 0x3f) << 2) | ((v & 1) << 10) | ((v & 0x7c0) << 5) | ((v & 1) << 18) | ((v & 0xf800) << 8)
}

// The 16 bits of a palette entry or of a pixel.
pub fn expand(v: u32, expansion: Expansion) -> u32
    ensures { result ≡ expanded expansion v }
{
    match expansion {
        Expansion::Rgb565 => expand_565(v),
        Expansion::Rgb5551 => expand_5551(v),
    }
}

// 24 bits of a word: the upper ones where BPP24BL is set, else the lower (§4.5).
pub fn cut_24(x: u32, bpp24bl: bool) -> u32
    ensures { result ≡ cut24 bpp24bl x }
{
    if bpp24bl { x >> 8 } else { x & 0xff_ffff }
}
