// The scan for C (§10.4): its state is a lent slice of 13 entries. The crate `scans` does the work.
ghost use Rattle.std.specs.Prelude.{◌≡◌};
ghost use Rattle.laws.specs.Answers.{leaves};
ghost use Rattle.scans.specs.Scan.{start_scan, step_leaves, step_scan, run_leaves, run_scan, change_scan};

use drawing::Lent;
use registers::refusal::code;
use scans::{change_scan, run_scan, start_scan, step_scan};

// Starts a scan (§7.2) and stores its state in `scan`. Refusals: 10 for `words` with fewer than nine entries, 1 to 8, 9, 10 for `scan`
// with fewer than 13.
#[unsafe(no_mangle)]
pub extern "C" fn lcd_start(
    words: &[u32],
    window_start: u32,
    video: &[u32],
    scan: &mut [u32],
) -> u32
    ensures { leaves result scan.new ≡ start_scan words.now window_start video.now scan.old }
{
    code(start_scan(words, window_start, video, scan))
}

// Steps one clock (§7.3): the next state goes to `scan`, VSYNC, HSYNC, VDEN and VD to entries 0 to 3 of `clock`. Refusals: 10 for
// `scan` with fewer than 13 entries, 1 to 8 over the viewport in force and the pending one, 9, 10 for a palette not of 256 entries or
// a `clock` of fewer than 4, 13, 15.
#[unsafe(no_mangle)]
pub extern "C" fn lcd_step(
    scan: &mut [u32],
    video: &[u32],
    palette: &[u16],
    clock: &mut [u32],
) -> u32
    ensures { step_leaves result scan.new clock.new ≡ step_scan scan.old video.now palette.now clock.old }
{
    let lent = Lent { video, palette };
    code(step_scan(scan, lent, clock))
}

// Runs up to `clocks` clocks, to the end of the frame at most (§7.4): the next state goes to `scan`, the count of clocks taken to
// entry 0 of `taken`, the colour of each pixel scanned to its entry of `picture`. Refusals: 10 for `scan` with fewer than 13 entries,
// 1 to 8 over the viewport in force and the pending one, 9, 10 for a palette not of 256 entries, a `picture` of fewer than W × H
// entries or an empty `taken`, 13, 15.
#[unsafe(no_mangle)]
pub extern "C" fn lcd_run(
    scan: &mut [u32],
    video: &[u32],
    palette: &[u16],
    clocks: u64,
    picture: &mut [u32],
    taken: &mut [u32],
) -> u32
    ensures { run_leaves result scan.new picture.new taken.new ≡ run_scan scan.old video.now palette.now clocks picture.old taken.old }
{
    let lent = Lent { video, palette };
    code(run_scan(scan, lent, clocks, picture, taken))
}

// Makes a new LCDSADDR1 and LCDSADDR2 the pending viewport (§7.5), in force from the next frame (§7.6). Refusals: 10 for `scan` with
// fewer than 13 entries, 1 to 8 over the viewport in force, the pending one and the new one, 9, 13, 15.
#[unsafe(no_mangle)]
pub extern "C" fn lcd_change_viewport(
    scan: &mut [u32],
    video: &[u32],
    lcdsaddr1: u32,
    lcdsaddr2: u32,
) -> u32
    ensures { leaves result scan.new ≡ change_scan scan.old video.now lcdsaddr1 lcdsaddr2 }
{
    code(change_scan(scan, video, lcdsaddr1, lcdsaddr2))
}
