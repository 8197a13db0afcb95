// The bench program (§11): nine words, HCLK, window start, palette and video words come on standard input; it prints a line of counts
// and a line for each row, or only `refused N`. All input is read, and all refusals are judged, before anything is printed.
#![tactic(auto)]

ghost use Rattle.std.specs.Prelude.{◌≤◌, length};

mod input;
mod output;

use drawing::Lent;
use drawing::row::draw_row;
use input::{length_refused, numbers};
use memory::Screen;
use output::{print_counts, print_refused, print_row};
use panel::geometry::{height, width};
use registers::load;
use registers::refusal::Refusal;
use std::io;
use std::io::Read;

// Prints every row. None is refused once the first was accepted: rows differ by their number alone, which stays below the height.
// A refusal would end the output.
fn print_rows(
    rt: &(impl Print + AllocGlobal),
    s: Screen,
    lent: Lent,
    row: &mut [u32],
) -> io::Result<()>
    requires { 2048 ≤ length row.old }
{
    let wide = width(s.words) as usize;
    for r in 0..height(s.words) {
        if draw_row(s, lent, r, row).is_err() {
            break;
        }
        print_row(rt, &row[..wide])?;
    }
    Ok(())
}

// Draws the first row to see whether the panel is refused. The widest row fits.
fn print_panel(
    rt: &(impl Print + AllocGlobal),
    s: Screen,
    hclk: u32,
    lent: Lent,
) -> io::Result<()> {
    let mut row = [0u32; 2048];
    if let Err(refusal) = draw_row(s, lent, 0, &mut row) {
        return print_refused(rt, refusal);
    }
    print_counts(rt, s.words, hclk)?;
    print_rows(rt, s, lent, &mut row)
}

// Nine words, HCLK and window start come first (44 bytes), then the palette (512 bytes) and the video words.
fn print_input(rt: &(impl Print + AllocGlobal), bytes: &[u8]) -> io::Result<()>
    requires { 556 ≤ length bytes.now }
{
    let head = numbers::<u32, _>(rt.alloc(), &bytes[..44])?;
    let palette = numbers::<u16, _>(rt.alloc(), &bytes[44..556])?;
    let video = numbers::<u32, _>(rt.alloc(), &bytes[556..])?;
    match load(&head) {
        Ok(words) => {
            let s = Screen {
                words,
                window_start: head[10],
            };
            let lent = Lent {
                video: &video,
                palette: &palette,
            };
            print_panel(rt, s, head[9], lent)
        }
        Err(refusal) => print_refused(rt, refusal),
    }
}

// Reads at most the longest input and one byte more, so that a longer input is noticed.
fn main(rt: HostRuntime) -> io::Result<()> {
    let mut bytes = Vec::new(rt.alloc());
    rt.reader().take(33325).read_to_end(&mut bytes)?;
    if length_refused(bytes.len()) {
        return print_refused(&rt, Refusal::InputLength);
    }
    print_input(&rt, &bytes)
}
