// What the bench prints (§11.2): the counts, the rows, or a refusal.
ghost use Rattle.std.specs.Prelude.{◌+◌, ◌*◌, ◌<◌, ◌≤◌, ◌≡◌, length};
ghost use Rattle.laws.specs.Storing.{stores};
ghost use Rattle.bench.specs.Output.{digit_char, colour_text, parting, row_text};

use panel::timing::{frame_clocks, frame_millihertz, frame_ticks};
use registers::Words;
use registers::refusal::Refusal;
use std::io;

pub(crate) fn print_refused(rt: &impl Print, refusal: Refusal) -> io::Result<()> {
    let number = u32::from(refusal);
    println!(rt; "refused {number}")
}

// A frame's clocks, its HCLK ticks and its rate in millihertz.
pub(crate) fn print_counts(rt: &impl Print, w: Words, hclk: u32) -> io::Result<()> {
    let clocks = frame_clocks(w);
    let ticks = frame_ticks(w);
    let millihertz = frame_millihertz(w, hclk);
    println!(rt; "clocks {clocks} hclk {ticks} mhz {millihertz}")
}

// The character of a hexadecimal digit.
#[tactic(auto, unfolding(crate::specs::Output::digit_char))]
fn digit(d: u32) -> u8
    requires { d < 16 }
    ensures { result ≡ digit_char d }
{
    if d < 10 {
        b'0' + d as u8
    } else {
        b'a' + (d - 10) as u8
    }
}

// A colour's six hexadecimal digits.
fn spell_colour(colour: u32, text: &mut [u8])
    requires { length text.old ≡ 6 }
    ensures { text.new ≡ stores (colour_text colour) 0 6 text.old }
{
    for (k, character) in text.iter_mut().enumerate() {
        *character = digit((colour >> (20 - 4 * k)) % 16);
    }
}

// What follows a colour: a newline after the row's last, else a space.
fn parting(last: bool) -> u8
    ensures { result ≡ parting last }
{
    if last { b'\n' } else { b' ' }
}

// The line of a row: its colours with one space between them, and a newline.
fn spell_row(row: &[u32], text: &mut [u8])
    requires { 7 * length row.now ≤ length text.old }
    ensures { text.new ≡ stores (row_text row.now) 0 (7 * length row.now) text.old }
{
    for (c, colour) in row.iter().enumerate() {
        let at = 7 * c;
        spell_colour(*colour, &mut text[at..at + 6]);
        text[at + 6] = parting(c + 1 == row.len());
    }
}

// A colour takes seven bytes.
pub(crate) fn print_row(rt: &(impl Print + AllocGlobal), row: &[u32]) -> io::Result<()>
    requires { length row.now ≤ 2048 }
{
    let mut text = vec![in rt.alloc(); 0u8; 7 * row.len()]?;
    spell_row(row, &mut text);
    rt.write_all(&text)
}
