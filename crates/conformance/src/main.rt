// The conformance program: runs the vectors of data/ through the library's calls (§3 to §9). Each argument names a file of data/, a
// group of cases; the head of data/hand describes the format. Pixels, rows and pictures are also read through a reader (§12.1) and
// steps are also taken in place (§12.2); both must agree with the plain calls. The program prints a line for every answer that
// differs, and for each group its name, the number of its cases and `ok` or how many differ.
#![tactic(auto)]

mod calls;
mod case;
mod lines;
mod lookups;
mod scan;
mod settings;
mod tally;
mod text;

use lines::run_lines;
use std::io::Read;
use std::rt::Files;
use std::{env, fs, io};

const MOST_BYTES: u64 = 65535;

// A file that is longer is not run.
fn run_file(
    rt: &(impl Print + AllocGlobal),
    group: &str,
    file: impl Read + Drop,
) -> io::Result<()> {
    let mut text = Vec::new(rt.alloc());
    file.take(MOST_BYTES + 1).read_to_end(&mut text)?;
    if text.len() as u64 > MOST_BYTES {
        return println!(rt; "{group}: more than {MOST_BYTES} bytes");
    }
    let tally = run_lines(rt, group, &text)?;
    println!(rt; "{group} {tally}")
}

// The system's words for an error, without its number.
fn print_unopened(rt: &(impl Eprint + Alloc), group: &str, error: io::Error) -> io::Result<()> {
    let text = error.to_string(rt.alloc())?;
    match text.as_str().split_once(" (os error ") {
        Some((words, _)) => eprintln!(rt; "{group}: {words}"),
        None => eprintln!(rt; "{group}: {text}"),
    }
}

fn run_group(rt: &(impl Files + Print + Eprint + AllocGlobal), group: &str) -> io::Result<()> {
    match fs::open(rt, group) {
        Ok(file) => run_file(rt, group, file),
        Err(error) => print_unopened(rt, group, error),
    }
}

fn main(rt: HostRuntime) -> io::Result<()> {
    for group in env::args(&rt)?.skip(1) {
        run_group(&rt, group.as_str())?;
    }
    Ok(())
}
