// The lent video memory (§3.1): where a row lies in it (§3.2), refusal 8 (§3.6), and the check (§9.3).
#![tactic(auto)]

ghost use Rattle.std.specs.Prelude.{◌≡◌, ◌^◌, ◌<◌};
ghost use Rattle.panel.specs.Refusals.{judge_either};
ghost use Rattle.registers.specs.Refusals.{code};
ghost use Rattle.memory.specs.Memory.{row_address, outside_memory, judge_memory, judge_stn_memory, judge_check, check, first_word};

use panel::geometry::{height, row_offset};
use panel::refusals::{clock_too_fast, judge, judge_either, judge_stn};
use registers::refusal::{Refusal, refuse_if};
use registers::{Words, load};

// What a screen is drawn from beside the lent slices: the nine words, and the byte address of the first lent word (the window start).
#[derive(Clone, Copy)]
pub struct Screen {
    pub words: Words,
    pub window_start: u32,
}

// The byte address at which a row starts (§3.2).
pub fn row_address(w: Words, row: u32) -> u64
    ensures { result ≡ row_address w row }
{
    w.lcdbank() as u64 * 0x40_0000 + 2 * row_offset(w, row)
}

// The index of a row's first word among the lent words; 0 for a row that starts before them.
pub fn first_word(s: Screen, row: u32) -> usize
    ensures value { result ≡ first_word s row }
    ensures upper_bound { result < 2 ^ 44 }
{
    let address = row_address(s.words, row);
    let window_start = s.window_start as u64;
    if address < window_start {
        return 0;
    }
    ((address - window_start) / 4) as usize
}

// Refusal 8 (§3.6) of words that 1 to 7 accept: it is enough to look at the first row and the last.
fn outside_memory(s: Screen, lent: usize) -> bool
    requires { judge_either s.words ≡ 0 }
    ensures { result ≡ outside_memory s lent }
{
    let window_start = s.window_start as u64;
    let first = row_address(s.words, 0);
    let end = row_address(s.words, height(s.words) - 1) + 2 * s.words.pagewidth() as u64;
    if (window_start % 4 != 0) | (first < window_start) {
        return true;
    }
    (lent as u64) < (end - window_start) / 4
}

// The lowest of 1 to 8 whose condition holds (§9.2), where `lent` words are lent, for a call that takes TFT panels.
pub fn judge_memory(s: Screen, lent: usize) -> Result<(), Refusal>
    ensures { code result ≡ judge_memory s lent }
{
    judge(s.words)?;
    refuse_if(outside_memory(s, lent), Refusal::OutsideMemory)
}

// The same for a call that takes STN panels.
pub fn judge_stn_memory(s: Screen, lent: usize) -> Result<(), Refusal>
    ensures { code result ≡ judge_stn_memory s lent }
{
    judge_stn(s.words)?;
    refuse_if(outside_memory(s, lent), Refusal::OutsideMemory)
}

fn judge_check(s: Screen, lent: usize) -> Result<(), Refusal>
    ensures { code result ≡ judge_check s lent }
{
    judge_either(s.words)?;
    refuse_if(outside_memory(s, lent), Refusal::OutsideMemory)?;
    refuse_if(clock_too_fast(s.words), Refusal::ClockTooFast)
}

// The check, of either panel: 10 first where `words` has fewer than nine entries, then the lowest of 1 to 8, then 17.
pub fn check(words: &[u32], window_start: u32, video: &[u32]) -> Result<(), Refusal>
    ensures { code result ≡ check words.now window_start video.now }
{
    let nine = load(words)?;
    let s = Screen {
        words: nine,
        window_start,
    };
    judge_check(s, video.len())
}
