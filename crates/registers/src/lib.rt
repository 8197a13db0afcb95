// The nine words of the LCD controller (§1), and numbers in lent slices (§10.1).
#![tactic(auto)]

ghost use Rattle.std.specs.Prelude.{◌≡◌};
ghost use Rattle.laws.specs.Answers.{leaves};
ghost use Rattle.registers.specs.Loading.{nine_words, word_entries, load, put_entries};
ghost use Rattle.registers.specs.Refusals.{answer, code};

pub mod bits;
pub mod refusal;

use refusal::{Refusal, refuse_if};

// The words in their order (§1.1).
#[derive(Clone, Copy)]
pub struct Words {
    pub lcdcon1: u32,
    pub lcdcon2: u32,
    pub lcdcon3: u32,
    pub lcdcon4: u32,
    pub lcdcon5: u32,
    pub lcdsaddr1: u32,
    pub lcdsaddr2: u32,
    pub lcdsaddr3: u32,
    pub tpal: u32,
}

impl From<[u32; 9]> for Words {
    ghost from_gives = { λ s w. w ≡ nine_words s };

    fn from(words: [u32; 9]) -> Words {
        Words {
            lcdcon1: words[0],
            lcdcon2: words[1],
            lcdcon3: words[2],
            lcdcon4: words[3],
            lcdcon5: words[4],
            lcdsaddr1: words[5],
            lcdsaddr2: words[6],
            lcdsaddr3: words[7],
            tpal: words[8],
        }
    }
}

impl From<Words> for [u32; 9] {
    ghost from_gives = { λ w s. s ≡ word_entries w };

    fn from(w: Words) -> [u32; 9] {
        [
            w.lcdcon1,
            w.lcdcon2,
            w.lcdcon3,
            w.lcdcon4,
            w.lcdcon5,
            w.lcdsaddr1,
            w.lcdsaddr2,
            w.lcdsaddr3,
            w.tpal,
        ]
    }
}

// The nine words that a slice begins with, or 10 where it has fewer than nine entries; a tenth is ignored.
pub fn load(words: &[u32]) -> Result<Words, Refusal>
    ensures { answer result ≡ load words.now }
{
    let Some(nine) = words.first_chunk() else {
        return Err(Refusal::WrongLength);
    };
    Ok(Words::from(*nine))
}

// The numbers to the first entries of `out`; the others stay. 10 where `out` has fewer entries than `numbers`, and then all stay.
pub fn put_entries(numbers: &[u32], out: &mut [u32]) -> Result<(), Refusal>
    ensures { leaves (code result) out.new ≡ put_entries numbers.now out.old }
{
    refuse_if(out.len() < numbers.len(), Refusal::WrongLength)?;
    out[..numbers.len()].copy_from_slice(numbers);
    Ok(())
}
