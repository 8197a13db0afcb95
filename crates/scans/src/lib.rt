// The scan's calls on slices (§10.4). The state is a lent slice of 13 entries, in the order of `scanout::state`. Further entries stay. A
// step's levels and a run's count go to slices of their own. Refused, a call changes nothing that is lent (§9.5).
#![tactic(auto)]

ghost use Rattle.std.specs.Prelude.{◌≡◌};
ghost use Rattle.laws.specs.Answers.{leaves};
ghost use Rattle.registers.specs.Refusals.{code};
ghost use Rattle.scans.specs.Scan.{levels, start_scan, change_scan, step_leaves, step_scan, run_leaves, run_scan};

use drawing::Lent;
use registers::put_entries;
use registers::refusal::Refusal;
use scanout::refusals::judge_scan;
use scanout::run::run;
use scanout::start::start;
use scanout::state::{State, Viewport};
use scanout::step::step;
use scanout::viewport::change_viewport;
use signals::clock::Clock;

// Starts a scan (§7.2) and stores its state in `scan`. Refusals in order: 10 where `words` has fewer than nine entries, 1 to 8, 9, 10
// where `scan` has fewer than 13.
pub fn start_scan(
    words: &[u32],
    window_start: u32,
    video: &[u32],
    scan: &mut [u32],
) -> Result<(), Refusal>
    ensures { leaves (code result) scan.new ≡ start_scan words.now window_start video.now scan.old }
{
    let s = start(words, window_start, video)?;
    put_entries(&<[u32; 13]>::from(s), scan)
}

// The levels of a clock (§6.7), in the order of their slice.
fn levels_of(k: Clock) -> [u32; 4]
    ensures { result ≡ levels k }
{
    [k.vsync, k.hsync, k.vden, k.vd]
}

// Steps one clock (§7.3): the next state goes to `scan`, VSYNC, HSYNC, VDEN and VD go to entries 0 to 3 of `clock`. Refusals in order:
// 10 where `scan` has fewer than 13 entries, 1 to 8 over the viewport in force and the pending one, 9, 10 for a palette not of 256
// entries or a `clock` of fewer than 4, 13, 15.
pub fn step_scan(scan: &mut [u32], lent: Lent, clock: &mut [u32]) -> Result<(), Refusal>
    ensures { step_leaves (code result) scan.new clock.new ≡ step_scan scan.old lent.entry.video.now lent.entry.palette.now clock.old }
{
    let Some(entries) = scan.first_chunk_mut() else {
        return Err(Refusal::WrongLength);
    };
    let s = State::from(*entries);
    let Some(levels) = clock.first_chunk_mut() else {
        return judge_scan(s, lent.video.len(), lent.palette.len(), true);
    };
    let shown = step(s, lent)?;
    *entries = shown.next.into();
    *levels = levels_of(shown.clock);
    Ok(())
}

// Runs up to `clocks` clocks, to the end of the frame at most (§7.4): the next state goes to `scan`, the count of clocks taken to
// entry 0 of `taken`, the colour of each pixel scanned to its entry of `picture`. Refusals in order: 10 where `scan` has fewer than 13
// entries, 1 to 8 over the viewport in force and the pending one, 9, 10 for a palette not of 256 entries, a `picture` of fewer than
// W × H entries or an empty `taken`, 13, 15.
pub fn run_scan(
    scan: &mut [u32],
    lent: Lent,
    clocks: u64,
    picture: &mut [u32],
    taken: &mut [u32],
) -> Result<(), Refusal>
    ensures { run_leaves (code result) scan.new picture.new taken.new ≡ run_scan scan.old lent.entry.video.now lent.entry.palette.now clocks picture.old taken.old }
{
    let Some(entries) = scan.first_chunk_mut() else {
        return Err(Refusal::WrongLength);
    };
    let s = State::from(*entries);
    let Some(count) = taken.first_mut() else {
        return judge_scan(s, lent.video.len(), lent.palette.len(), true);
    };
    let t = run(s, lent, clocks, picture)?;
    *entries = t.next.into();
    *count = t.count as u32;
    Ok(())
}

// Makes a new LCDSADDR1 and LCDSADDR2 the pending viewport (§7.5), in force from the next frame (§7.6). Refusals in order: 10 where
// `scan` has fewer than 13 entries, 1 to 8 over the viewport in force, the pending one and the new one, 9, 13, 15.
pub fn change_scan(
    scan: &mut [u32],
    video: &[u32],
    lcdsaddr1: u32,
    lcdsaddr2: u32,
) -> Result<(), Refusal>
    ensures { leaves (code result) scan.new ≡ change_scan scan.old video.now lcdsaddr1 lcdsaddr2 }
{
    let Some(entries) = scan.first_chunk_mut() else {
        return Err(Refusal::WrongLength);
    };
    let v = Viewport {
        lcdsaddr1,
        lcdsaddr2,
    };
    let next = change_viewport(State::from(*entries), video, v)?;
    *entries = next.into();
    Ok(())
}
