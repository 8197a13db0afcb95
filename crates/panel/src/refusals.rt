// Refusals 1 to 7, 9 and 17, which the words alone decide, and 27, which the rule edition does (§9.1). Each condition has a function of
// its own; `judge` goes through 1 to 7 for a call that takes TFT panels, `judge_stn` for one that takes STN panels, `judge_either` for one
// that takes both, and `judge_timed` through 17 and 27 (§9.3).
ghost use Rattle.std.specs.Prelude.{◌≡◌};
ghost use Rattle.laws.specs.Cases.{lower};
ghost use Rattle.registers.specs.Fields.{bppmode};
ghost use Rattle.registers.specs.Refusals.{number, answer, code};
ghost use Rattle.panel.specs.Geometry.{outside_modes, outside_stn_modes};
ghost use Rattle.panel.specs.Refusals.{not_tft, not_stn, neither_panel, no_such_mode, swaps_illegal, row_size_wrong, end_differs, past_bank};
ghost use Rattle.panel.specs.Refusals.{judge_where, judge, judge_either, judge_stn, video_off, accept};
ghost use Rattle.panel.specs.Refusals.{clock_too_fast, no_such_edition, judge_timed};

use super::geometry::{height, panel_bits, panel_width, row_offset, stored_bits};
use registers::refusal::{Refusal, refuse_if};
use registers::{Words, load};

fn not_tft(w: Words) -> bool
    ensures { result ≡ not_tft w }
{
    w.pnrmode() != 3
}

fn not_stn(w: Words) -> bool
    ensures { result ≡ not_stn w }
{
    !w.stn()
}

fn neither_panel(w: Words) -> bool
    ensures { result ≡ neither_panel w }
{
    not_tft(w) & not_stn(w)
}

fn no_tft_mode(w: Words) -> bool
    ensures { result ≡ outside_modes (bppmode w) }
{
    stored_bits(w.bppmode()).is_err()
}

fn no_stn_mode(w: Words) -> bool
    ensures { result ≡ outside_stn_modes (bppmode w) }
{
    let mode = w.bppmode();
    (mode != 0) & (mode != 2)
}

fn no_such_mode(w: Words) -> bool
    ensures { result ≡ no_such_mode w }
{
    if w.stn() {
        no_stn_mode(w)
    } else {
        no_tft_mode(w)
    }
}

fn swaps_illegal(w: Words) -> bool
    ensures { result ≡ swaps_illegal w }
{
    let bits = panel_bits(w);
    let bswp = w.bswp();
    let hwswp = w.hwswp();
    let up_to_byte = (bits == 1) | (bits == 2) | (bits == 4) | (bits == 8);
    ((bswp == 1) & !up_to_byte) | ((hwswp == 1) & (bits != 16)) | ((bswp == 1) & (hwswp == 1))
}

fn row_size_wrong(w: Words) -> bool
    ensures { result ≡ row_size_wrong w }
{
    let row = 16 * w.pagewidth();
    let pixels = panel_width(w) * panel_bits(w);
    (row != pixels) | (w.lcdbaseu() % 2 == 1) | (w.pagewidth() % 2 == 1) | (w.offsize() % 2 == 1)
}

fn end_differs(w: Words) -> bool
    ensures { result ≡ end_differs w }
{
    let end = row_offset(w, height(w)) % 0x20_0000;
    w.lcdbasel() as u64 != end
}

fn past_bank(w: Words) -> bool
    ensures { result ≡ past_bank w }
{
    0x20_0000 < row_offset(w, height(w) - 1) + w.pagewidth() as u64
}

// The lowest of 1 to 7 whose condition holds (§9.2), for a call that does not take the panel where `other` holds.
fn judge_where(other: bool, w: Words) -> Result<(), Refusal>
    ensures { code result ≡ judge_where other w }
{
    refuse_if(w.reserved_bit(), Refusal::ReservedBit)?;
    refuse_if(other, Refusal::OtherPanel)?;
    refuse_if(no_such_mode(w), Refusal::NoSuchMode)?;
    refuse_if(swaps_illegal(w), Refusal::IllegalSwap)?;
    refuse_if(row_size_wrong(w), Refusal::WrongRowSize)?;
    refuse_if(end_differs(w), Refusal::WrongEnd)?;
    refuse_if(past_bank(w), Refusal::PastBank)
}

// 1 to 7, for a call that takes TFT panels.
pub fn judge(w: Words) -> Result<(), Refusal>
    ensures { code result ≡ judge w }
{
    judge_where(not_tft(w), w)
}

// 1 to 7, for a call that takes either panel.
pub fn judge_either(w: Words) -> Result<(), Refusal>
    ensures { code result ≡ judge_either w }
{
    judge_where(neither_panel(w), w)
}

// 1 to 7, for a call that takes STN panels.
pub fn judge_stn(w: Words) -> Result<(), Refusal>
    ensures { code result ≡ judge_stn w }
{
    judge_where(not_stn(w), w)
}

// Refusal 17 (§9.1): CLKVAL is too low for an STN panel.
pub fn clock_too_fast(w: Words) -> bool
    ensures { result ≡ clock_too_fast w }
{
    w.stn() & (w.clkval() < 2)
}

// Refusal 27 (§9.1): no such rule edition.
pub fn no_such_edition(edition: u32) -> bool
    ensures { result ≡ no_such_edition edition }
{
    !((edition == 1) | (edition == 2))
}

// The judgement of a frame's length by a rule edition, of words that 1 to 7 let pass: 17, then 27, or 0 (§9.3).
pub fn judge_timed(w: Words, edition: u32) -> Result<(), Refusal>
    ensures { code result ≡ judge_timed w edition }
{
    refuse_if(clock_too_fast(w), Refusal::ClockTooFast)?;
    refuse_if(no_such_edition(edition), Refusal::NoSuchEdition)
}

// Refusal 9 (§9.1): video is off.
pub fn video_off(w: Words) -> bool
    ensures { result ≡ video_off w }
{
    w.envid() == 0
}

// The refusal with the lower number.
#[tactic(auto, using(registers::proofs::Order::lesser_number))]
fn lesser(a: Refusal, b: Refusal) -> Refusal
    ensures { number result ≡ lower (number a) (number b) }
{
    a.min(b)
}

// Of two judgements the one that gives the lower number; one that refuses nothing gives way to the other.
pub fn lower(a: Result<(), Refusal>, b: Result<(), Refusal>) -> Result<(), Refusal>
    ensures { code result ≡ lower (code a) (code b) }
{
    let Err(first) = a else {
        return b;
    };
    let Err(second) = b else {
        return a;
    };
    Err(lesser(first, second))
}

// The nine words that a slice begins with, of either panel, or a refusal: 10 first where `words` has fewer than nine entries, then 1
// to 7. Words from here need not be judged by these again.
pub fn accept(words: &[u32]) -> Result<Words, Refusal>
    ensures { answer result ≡ accept words.now }
{
    let w = load(words)?;
    judge_either(w).and(Ok(w))
}
