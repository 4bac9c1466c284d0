//! Holds what captures determine against a list: packets, connections, and the bytes of each
//! direction.
#![tactic(auto)]

mod listed;
mod packets;
mod row;
mod streams;

use crate::listed::{connection_is_so, has_connections, lines_of};
use crate::packets::packets_are_so;
use crate::row::{Row, row_of};
use crate::streams::stream_is_so;
use std::process::ExitCode;
use std::{fs, io};

/// Prints each row that is not so, and a line of counts. The status is 1 where there is such a row.
fn main(rt: HostRuntime) -> io::Result<ExitCode> {
    let list = fs::read_to_string(&rt, "EXPECTED.txt")?;
    let counts = count_rows(&rt, list.as_str());
    tell(&rt, counts)
}

// How many rows there are, and how many of them are not so.
#[derive(Clone, Copy)]
struct Counts {
    rows: u64,
    not_so: u64,
}

// Prints how many rows are not so.
fn tell(rt: &HostRuntime, counts: io::Result<Counts>) -> io::Result<ExitCode> {
    let Counts { rows, not_so } = counts?;
    println!(rt; "{rows} rows: {not_so} not so")?;
    Ok(ExitCode::from(if not_so == 0 { 0 } else { 1 }))
}

// Counts the rows of the list, and prints those that are not so.
fn count_rows(rt: &HostRuntime, list: &str) -> io::Result<Counts> {
    let mut counts = Counts { rows: 0, not_so: 0 };
    let mut listed = String::new(rt.alloc());
    for line in list.lines() {
        if let Some(row) = row_of(line) {
            let so = is_so(rt, row, &mut listed)?;
            counts.rows = counts.rows.saturating_add(1);
            counts.not_so = counts.not_so.saturating_add(if so { 0 } else { 1 });
            tell_row(rt, line, so)?;
        }
    }
    Ok(counts)
}

// Prints a row that is not so.
fn tell_row(rt: &HostRuntime, line: &str, so: bool) -> io::Result<()> {
    if so {
        return Ok(());
    }
    println!(rt; "{line}")
}

// Whether the row is so. The row of a whole file leaves the lines of its connections for the rows of
// their directions, which follow it.
fn is_so(rt: &HostRuntime, row: Row<'_>, listed: &mut String) -> io::Result<bool> {
    let file = fs::read(rt, row.file)?;
    if row.connection == "-" {
        *listed = lines_of(rt.alloc(), &file)?;
        return Ok(has_connections(listed, row) && packets_are_so(rt.alloc(), &file, row)?);
    }
    let stream = fs::read(rt, row.stream)?;
    Ok(connection_is_so(rt.alloc(), listed, row)? && stream_is_so(rt.alloc(), &file, &stream, row)?)
}
