//! A direction of a capture, as a reader gives it.

use crate::row::Row;
use iscsi_captures::{Captured, CapturesFault, End, Wanted};
use std::alloc::Global;
use std::io::{self, Read};

/// Whether the direction of a row is read with its bytes, and with a fault that tells its remark.
pub fn stream_is_so(alloc: Global, file: &[u8], stream: &[u8], row: Row<'_>) -> io::Result<bool> {
    let Ok(connection) = usize::from_str_radix(row.connection, 10) else {
        return Ok(false);
    };
    let end = if row.end == "initiator" {
        End::Initiator
    } else {
        End::Target
    };
    let mut source = file;
    let wanted = Wanted { connection, end };
    let mut captured = Captured::new(alloc, &mut source, wanted)?;
    let mut bytes = Vec::new(alloc);
    let ended = captured.read_to_end(&mut bytes).is_ok();
    let fault = captured.fault();
    Ok(ended == fault.is_none() && are_told(&bytes, fault, stream, row))
}

// Whether bytes, and a fault behind them, are those that are due.
fn are_told(bytes: &[u8], fault: Option<CapturesFault>, stream: &[u8], row: Row<'_>) -> bool {
    stream.get(..bytes.len()) == Some(bytes) && is_told(fault, row, bytes.len() as u64)
}

// Whether a fault, behind this many bytes, is the one that is due.
fn is_told(fault: Option<CapturesFault>, row: Row<'_>, count: u64) -> bool {
    let all = u64::from_str_radix(row.count, 10) == Ok(count);
    match fault {
        None => all && row.remark == "-",
        Some(CapturesFault::Gap { offset, .. }) => { all && row.remark == "gap" && offset == count }
        Some(CapturesFault::Cut { .. }) => all && row.remark == "cut",
        Some(CapturesFault::Conflict { offset, .. }) => {
            all && row.remark == "conflict:388" && offset == 388
        }
        Some(CapturesFault::Begun { .. }) => row.file == "midstream.pcap" && count == 0,
        Some(_) => false,
    }
}
