// A frame's clocks, HCLK ticks and rate (§6.3, §6.4, §6.8), of either panel, into a lent slice of three entries (§10.3).
ghost use Rattle.std.specs.Prelude.{◌≡◌};
ghost use Rattle.laws.specs.Answers.{leaves};
ghost use Rattle.registers.specs.Refusals.{code};
ghost use Rattle.sizes.specs.Counts.{put_counts, read_counts};

use panel::frame::{panel_clocks, panel_millihertz, panel_ticks};
use panel::refusals::{accept, judge_timed};
use registers::Words;
use registers::refusal::{Refusal, refuse_if};

fn put_counts(w: Words, edition: u32, hclk: u32, counts: &mut [u64]) -> Result<(), Refusal>
    ensures { leaves (code result) counts.new ≡ put_counts w edition hclk counts.old }
{
    refuse_if(counts.len() < 3, Refusal::WrongLength)?;
    judge_timed(w, edition)?;
    let clocks = panel_clocks(w) as u64;
    let ticks = panel_ticks(w, edition);
    let rate = panel_millihertz(w, edition, hclk);
    counts[..3].copy_from_slice(&[clocks, ticks, rate]);
    Ok(())
}

// The frame's clocks, its HCLK ticks and its rate in millihertz, to the first three entries of `counts`; the others stay. 10 first where
// `words` has fewer than nine entries, then 1 to 7, then 10 where `counts` has fewer than three, then 17, then 27.
pub fn read_counts(
    words: &[u32],
    edition: u32,
    hclk: u32,
    counts: &mut [u64],
) -> Result<(), Refusal>
    ensures { leaves (code result) counts.new ≡ read_counts words.now edition hclk counts.old }
{
    let w = accept(words)?;
    put_counts(w, edition, hclk, counts)
}
