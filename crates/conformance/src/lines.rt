// The lines of a vector file: settings, calls, and what sets or checks the state and picture of a scan. Other lines are skipped.
use super::case::Case;
use super::scan::Scan;
use super::settings::Settings;
use super::tally::Tally;
use super::text::{numbers, split_before};
use std::io;

// Whether a line's call gives what is due; nothing where the line is no case.
fn run_case(
    key: &[u8],
    case: &Case<'_, impl Print + AllocGlobal>,
    scan: &mut Scan,
) -> io::Result<Option<bool>> {
    let right = match key {
        b"check" => case.check_agrees()?,
        b"counts" => case.counts_agree()?,
        b"rate" => case.rate_agrees()?,
        b"pixel" => case.pixel_agrees()?,
        b"row" => case.row_agrees()?,
        b"picture" => case.picture_agrees()?,
        b"stretch" => case.stretch_agrees()?,
        b"begin" => scan.begin_agrees(case)?,
        b"step" => scan.step_agrees(case)?,
        b"run" => scan.run_agrees(case)?,
        b"view" => scan.view_agrees(case)?,
        b"at" => scan.at_agrees(case)?,
        b"shows" => scan.shows_agrees(case)?,
        _ => return Ok(None),
    };
    Ok(Some(right))
}

// Runs a file's cases, line after line.
pub(crate) fn run_lines(
    rt: &(impl Print + AllocGlobal),
    group: &str,
    text: &[u8],
) -> io::Result<Tally> {
    let mut settings = Settings::new(rt.alloc());
    let mut scan = Scan::new(rt.alloc());
    let mut tally = Tally::default();
    for (words, line) in text.split(|b| *b == b'\n').zip(1..) {
        let (key, given) = split_before(words, b' ');
        let (_, due) = split_before(given, b'=');
        let given = numbers(rt.alloc(), given)?;
        let due = numbers(rt.alloc(), due)?;
        settings.set(rt.alloc(), key, &given)?;
        scan.set(rt.alloc(), key, &given)?;
        let case = Case {
            rt,
            group,
            line,
            given,
            due,
            settings: &settings,
        };
        if let Some(right) = run_case(key, &case, &mut scan)? {
            tally.count(right);
        }
    }
    Ok(tally)
}
