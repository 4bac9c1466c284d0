//! The lines of connections that a capture is said to have.

use crate::row::Row;
use iscsi_captures::{CaptureFile, CapturesFault, list_connections};
use std::alloc::{AllocError, Global};

/// The lines of a capture's connections, as far as it has them. Where every packet lacks headers, which
/// is told, there are none.
pub fn lines_of(alloc: Global, file: &[u8]) -> Result<String, AllocError> {
    let mut capture = CaptureFile::new(alloc)?;
    let mut source = file;
    let mut lines = Vec::new(alloc);
    match list_connections(alloc, &mut capture, &mut source, &mut lines) {
        Ok(()) | Err(CapturesFault::Cut { .. }) => String::from_utf8_lossy(alloc, &lines),
        Err(fault) => format!(in alloc; "{fault}"),
    }
}

/// Whether there are as many lines as a file's row has connections.
pub fn has_connections(lines: &str, row: Row<'_>) -> bool {
    usize::from_str_radix(row.count, 10) == Ok(lines.lines().count())
}

/// Whether the line of a connection has the bytes and the remark of a direction's row.
pub fn connection_is_so(alloc: Global, lines: &str, row: Row<'_>) -> Result<bool, AllocError> {
    let number = format!(in alloc; "{} ", row.connection)?;
    match lines.lines().find(|line| line.starts_with(number.as_str())) {
        Some(line) => Ok(has_count(line, row) && has_remark(alloc, line, row)?),
        None => Ok(false),
    }
}

// Whether so many bytes are said to be known of the row's end: the initiator's are the fourth word of
// a line, those of the target the fifth.
fn has_count(line: &str, row: Row<'_>) -> bool {
    let place = if row.end == "initiator" { 3 } else { 4 };
    line.split_whitespace().nth(place) == Some(row.count)
}

// Whether a line has the row's remark, behind the name of the row's end, or none if the row has none.
fn has_remark(alloc: Global, line: &str, row: Row<'_>) -> Result<bool, AllocError> {
    if row.remark == "-" {
        let end = format!(in alloc; " {} ", row.end)?;
        return Ok(!line.contains(end.as_str()));
    }
    let (kind, place) = row
        .remark
        .split_once(":")
        .unwrap_or((row.remark, row.count));
    let remark = format!(in alloc; " {kind} {} {place}", row.end)?;
    Ok(line.contains(remark.as_str()))
}
