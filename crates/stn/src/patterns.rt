// Which levels are lit at each phase (§5.9): a table, looked up for each pixel.
ghost use Rattle.std.specs.Prelude.{◌≡◌, ◌+◌, ◌*◌, ◌<◌, ◌≤◌};
ghost use Rattle.pixels.specs.Order.{pixel_bits};
ghost use Rattle.stn.specs.Core.{pattern, lit_in, IsPatterns};
ghost use Rattle.stn.specs.Greys.{packed};

use super::greys::lit;
use super::phase::Phase;

// The levels that are lit at a phase: level v is bit v.
fn pattern_at(phase: u32) -> u32
    requires { phase < 427 }
    ensures { result ≡ pattern phase }
{
    let mut pattern = 0;
    for level in (0..16).rev() {
        pattern = pattern * 2 + lit(level, phase) as u32;
    }
    pattern
}

// Pixel k of a word in order, at s bits a pixel (§4.1).
fn pixel_at(x: u32, s: u32, k: u32) -> u32
    requires { (0 < s) × (s * k + s ≤ 32) }
    ensures { result ≡ pixel_bits s x k }
{
    (x << (s * k)) >> (32 - s)
}

// The patterns of the phases below 420, and of the seven columns after.
#[derive(Drop)]
pub(crate) struct Patterns {
    table: [u32; 427],
    ghost each: { IsPatterns table },
}

impl Patterns {
    pub(crate) fn new() -> Patterns {
        let mut table = [0; 427];
        for (phase, pattern) in table.iter_mut().enumerate() {
            *pattern = pattern_at(phase as u32);
        }
        Patterns { table }
    }

    // The eight greys of a word that begins at a phase.
    pub(crate) fn lit_byte(&self, word: u32, phase: Phase) -> u8
        ensures { result ≡ packed (lit_in word phase.number) 8 }
    {
        let mut byte = 0;
        for k in 0..8 {
            byte = byte * 2 + (self.table[phase.number + k as usize] >> pixel_at(word, 4, k)) % 2;
        }
        byte as u8
    }
}
