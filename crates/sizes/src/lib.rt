// The panel's sizes and a frame's counts as plain numbers in lent slices (§10.3). Refused, a call changes no lent
// slice (§9.5). Here the 12 sizes: the picture and its clock, the parts of a line in clocks, the parts
// of a frame in lines; on STN the parts that do not show the picture are 0.
#![tactic(auto)]

ghost use Rattle.std.specs.Prelude.{◌≡◌};
ghost use Rattle.laws.specs.Answers.{leaves};
ghost use Rattle.registers.specs.Refusals.{code};
ghost use Rattle.sizes.specs.Sizes.{tft_sizes, stn_sizes, sizes, read_sizes_of, read_sizes};

use panel::geometry::{bits_of, height, stn_bits_of, stn_width, width};
use panel::timing::{frame_lines, line_clocks};
use registers::refusal::{Refusal, refuse_if};
use registers::{Words, load, put_entries};

pub mod counts;

fn tft_sizes(w: Words) -> [u32; 12]
    ensures { result ≡ tft_sizes w }
{
    [
        width(w),
        height(w),
        bits_of(w),
        2 * (w.clkval() + 1),
        w.hspw() + 1,
        w.hbpd() + 1,
        w.hfpd() + 1,
        line_clocks(w),
        w.vspw() + 1,
        w.vbpd() + 1,
        w.vfpd() + 1,
        frame_lines(w),
    ]
}

fn stn_sizes(w: Words) -> [u32; 12]
    ensures { result ≡ stn_sizes w }
{
    [
        stn_width(w),
        height(w),
        stn_bits_of(w),
        2 * w.clkval(),
        0,
        0,
        0,
        w.hozval() + 1,
        0,
        0,
        0,
        height(w),
    ]
}

fn sizes_of(w: Words) -> [u32; 12]
    ensures { result ≡ sizes w }
{
    if w.stn() { stn_sizes(w) } else { tft_sizes(w) }
}

fn read_sizes_of(w: Words, sizes: &mut [u32]) -> Result<(), Refusal>
    ensures { leaves (code result) sizes.new ≡ read_sizes_of w sizes.old }
{
    refuse_if(w.reserved_bit(), Refusal::ReservedBit)?;
    put_entries(&sizes_of(w), sizes)
}

// The 12 sizes to the first 12 entries of `sizes`; the others stay. 10 first where `words` has fewer than nine entries, then 1, then 10
// where `sizes` has fewer than 12.
pub fn read_sizes(words: &[u32], sizes: &mut [u32]) -> Result<(), Refusal>
    ensures { leaves (code result) sizes.new ≡ read_sizes words.now sizes.old }
{
    let w = load(words)?;
    read_sizes_of(w, sizes)
}
