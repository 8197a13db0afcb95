// New settings for a stored block of nine words (§1.8): ten stores of a word each, in an order that a power cut can't tear (§8.7).
#![tactic(auto)]

ghost use Rattle.std.specs.Prelude.{◌≡◌, ◌≤◌, length};
ghost use Rattle.laws.specs.Answers.{leaves};
ghost use Rattle.registers.specs.Refusals.{code};
ghost use Rattle.settings.specs.Stores.{◌gets◌, with_video_off, ten_stores, after_cut, load_settings};

use memory::check;
use registers::refusal::{Refusal, refuse_if};
use registers::{Words, load};

// One store: an entry of the block gets a word.
#[derive(Clone, Copy)]
struct Store {
    entry: usize,
    word: u32,
}

fn gets(entry: usize, word: u32) -> Store
    ensures { result ≡ entry gets word }
{
    Store { entry, word }
}

// LCDCON1 with ENVID 0.
#[tactic(auto, unfolding(crate::specs::Stores::with_video_off))]
fn with_video_off(lcdcon1: u32) -> u32
    ensures { result ≡ with_video_off lcdcon1 }
{
    lcdcon1 >> 1 << 1
}

// The ten stores in their order: LCDCON1 with ENVID 0 comes first, LCDCON1 as wanted last.
fn ten_stores(w: Words) -> [Store; 10]
    ensures { result ≡ ten_stores w }
{
    [
        gets(0, with_video_off(w.lcdcon1)),
        gets(1, w.lcdcon2),
        gets(2, w.lcdcon3),
        gets(3, w.lcdcon4),
        gets(4, w.lcdcon5),
        gets(5, w.lcdsaddr1),
        gets(6, w.lcdsaddr2),
        gets(7, w.lcdsaddr3),
        gets(8, w.tpal),
        gets(0, w.lcdcon1),
    ]
}

// Makes the first `cut` of them, all ten where it is above 10.
fn make_stores(w: Words, cut: u32, stored: &mut [u32])
    requires { 9 ≤ length stored.old }
    ensures { stored.new ≡ after_cut w cut stored.old }
{
    let made = (cut as usize).min(10);
    for store in &ten_stores(w)[..made] {
        stored[store.entry] = store.word;
    }
}

// Loads new words into the first nine entries of `stored` by the first `cut` of the ten stores; the others stay. 10 first where `stored`
// or `words` has fewer than nine entries, then the lowest of 1 to 8, then 17, of the new words; the old ones are not judged.
pub fn load_settings(
    stored: &mut [u32],
    words: &[u32],
    window_start: u32,
    video: &[u32],
    cut: u32,
) -> Result<(), Refusal>
    ensures { leaves (code result) stored.new ≡ load_settings stored.old words.now window_start video.now cut }
{
    refuse_if(stored.len() < 9, Refusal::WrongLength)?;
    let wanted = load(words)?;
    check(words, window_start, video)?;
    make_stores(wanted, cut, stored);
    Ok(())
}
