//! Runs command lines as the program does, and holds what comes of each against a row that says it.
#![tactic(auto)]

mod parts;
mod row;
mod told;

use crate::row::{is_row, is_so};
use std::process::ExitCode;
use std::{fs, io};

/// How many rows there are, and how many of them are not so.
#[derive(Clone, Copy)]
struct Counts {
    rows: u64,
    not_so: u64,
}

/// Prints the first line of each row that is not so, and a line of counts. The status is 1 where there
/// is such a row.
fn main(rt: HostRuntime) -> io::Result<ExitCode> {
    let text = fs::read_to_string(&rt, "ROWS.txt")?;
    let counts = count_rows(&rt, text.as_str());
    tell(&rt, counts)
}

// Prints how many rows are not so.
fn tell(rt: &HostRuntime, counts: io::Result<Counts>) -> io::Result<ExitCode> {
    let Counts { rows, not_so } = counts?;
    println!(rt; "{rows} rows: {not_so} not so")?;
    Ok(ExitCode::from(if not_so == 0 { 0 } else { 1 }))
}

// Counts the rows, which an empty line parts, and prints those that are not so. A row that cannot be
// read is not so.
fn count_rows(rt: &HostRuntime, text: &str) -> io::Result<Counts> {
    let mut counts = Counts { rows: 0, not_so: 0 };
    for block in text.split("\n\n") {
        if is_row(block) {
            let so = is_so(rt, block).unwrap_or(false);
            counts.rows = counts.rows.saturating_add(1);
            counts.not_so = counts.not_so.saturating_add(if so { 0 } else { 1 });
            tell_row(rt, block, so)?;
        }
    }
    Ok(counts)
}

// Prints a row that is not so.
fn tell_row(rt: &HostRuntime, block: &str, so: bool) -> io::Result<()> {
    if so {
        return Ok(());
    }
    println!(rt; "not so: {block}")
}
