//! The line of a request, written: a line of `loop`'s scripts if one means the same, else one with
//! its bytes.

ghost use Rattle.std.specs.Prelude.{◌≤◌};

use crate::entry::Stored;
use crate::fault::LineFault;
use crate::outcome_writing::write_payload;
use crate::request_reading::request_of;
use iscsi_job::{Asked, Item, Moves};
use scsi_cdb::{Cdb, Transfer10, Transfer16};
use std::alloc::{AllocError, Global};

/// Appends the line of a request, without its line end. If memory runs out, a part of it may stand
/// there.
pub fn write_request(alloc: Global, item: &Item, text: &mut String) -> Result<(), AllocError> {
    write_asking(alloc, item, None, text)
}

/// Appends the line of a request whose data may stand in the file of data, without its line end.
pub(crate) fn write_asking(
    alloc: Global,
    item: &Item,
    stored: Option<Stored>,
    text: &mut String,
) -> Result<(), AllocError> {
    match item.asked {
        Asked::Command { lun, cdb, .. } => write_asked(alloc, item, stored, lun, &cdb, text),
        Asked::Ping => write_sent(alloc, "ping", item, stored, text),
        Asked::Text => write_sent(alloc, "text", item, stored, text),
        Asked::Logout => text.push_str("logout"),
        Asked::Task(function) => write!(text, "task {function:02x}"),
    }
}

// Appends a word, and the bytes that are sent with it.
fn write_sent(
    alloc: Global,
    word: &str,
    item: &Item,
    stored: Option<Stored>,
    text: &mut String,
) -> Result<(), AllocError> {
    text.push_str(word)?;
    write_payload(alloc, " ", &item.sent, stored, text)
}

// Appends the line of a command: that of a script, if one means the same.
fn write_asked(
    alloc: Global,
    item: &Item,
    stored: Option<Stored>,
    lun: u64,
    cdb: &[u8; 16],
    text: &mut String,
) -> Result<(), AllocError> {
    let mut line = String::new(alloc);
    if stored.is_none() && is_script_line(alloc, item, lun, cdb, &mut line)? {
        text.push_str(line.as_str())
    } else {
        write_command(alloc, item, stored, lun, cdb, text)
    }
}

// Whether a line of a script means a command. It is appended to `line` then; else another one may be.
fn is_script_line(
    alloc: Global,
    item: &Item,
    lun: u64,
    cdb: &[u8; 16],
    line: &mut String,
) -> Result<bool, AllocError> {
    let Some(unit) = unit_of(lun) else {
        return Ok(false);
    };
    write_script(unit, cdb, line)?;
    if let Some(byte) = item.sent.first() {
        write!(line, " {byte:02x}")?;
    }
    means(alloc, line.as_str(), item)
}

// Appends the name and the numbers of the line of a script that might mean a command; nothing if there
// is none.
fn write_script(unit: u8, cdb: &[u8; 16], line: &mut String) -> Result<(), AllocError> {
    match Cdb::read(cdb) {
        Cdb::TestUnitReady { .. } => write!(line, "tur {unit}"),
        Cdb::Inquiry {
            allocation_length,
            ..
        } => write_pair(
            "inquiry",
            u64::from(unit),
            u64::from(allocation_length),
            line,
        ),
        Cdb::Capacity10 { .. } => line.push_str("capacity"),
        Cdb::Capacity16 { .. } => line.push_str("capacity16"),
        Cdb::ReportLuns { .. } => line.push_str("luns"),
        Cdb::Read10(read) => write_transfer10("read", read, line),
        Cdb::Read16(read) => write_transfer16("read", read, line),
        Cdb::Write10(write) => write_transfer10("write", write, line),
        Cdb::Write16(write) => write_transfer16("write", write, line),
        Cdb::SyncCache10(sync) => {
            let first = u64::from(sync.logical_block_address);
            write_pair("sync", first, u64::from(sync.blocks), line)
        }
        _ => Ok(()),
    }
}

fn write_transfer10(name: &str, of: Transfer10, line: &mut String) -> Result<(), AllocError> {
    write_pair(
        name,
        u64::from(of.logical_block_address),
        u64::from(of.blocks),
        line,
    )
}

fn write_transfer16(name: &str, of: Transfer16, line: &mut String) -> Result<(), AllocError> {
    write_pair(name, of.logical_block_address, u64::from(of.blocks), line)
}

// Appends a name and two numbers.
fn write_pair(name: &str, first: u64, second: u64, line: &mut String) -> Result<(), AllocError> {
    write!(line, "{name} {first} {second}")
}

// Whether a line means this request.
fn means(alloc: Global, line: &str, item: &Item) -> Result<bool, AllocError> {
    match request_of(alloc, line.as_bytes()) {
        Ok((asked, sent)) => Ok(
            asked == item.asked && sent.bytes.as_slice() == item.sent.as_slice(),
        ),
        Err(LineFault::Refused(_)) => Ok(false),
        Err(LineFault::NoMemory) => Err(AllocError),
    }
}

// The number of a unit of the simplest form: byte 1 of its LUN (SAM-5, section 4.7).
fn unit_of(lun: u64) -> Option<u8> {
    match lun.to_be_bytes() {
        [0, unit, 0, 0, 0, 0, 0, 0] => Some(unit),
        _ => None,
    }
}

// Appends the line that has a command's descriptor block and data.
fn write_command(
    alloc: Global,
    item: &Item,
    stored: Option<Stored>,
    lun: u64,
    cdb: &[u8; 16],
    text: &mut String,
) -> Result<(), AllocError> {
    match unit_of(lun) {
        Some(unit) => write!(text, "command {unit}")?,
        None => write!(text, "command {lun:016x}")?,
    }
    write_payload(alloc, " ", shown_block(cdb), None, text)?;
    write_moved(alloc, item, stored, text)
}

// Appends which way the data of a command go, and what is sent.
fn write_moved(
    alloc: Global,
    item: &Item,
    stored: Option<Stored>,
    text: &mut String,
) -> Result<(), AllocError> {
    match item.asked {
        Asked::Command {
            moves: Moves::In,
            expected,
            ..
        } => write!(text, " in {expected}"),
        Asked::Command {
            moves: Moves::Out,
            expected,
            ..
        } => {
            text.push_str(" out")?;
            write_payload(alloc, " ", &item.sent, stored, text)?;
            write_length(sent_bytes(item, stored), expected as usize, text)
        }
        _ => text.push_str(" none"),
    }
}

// How many bytes were sent.
fn sent_bytes(item: &Item, stored: Option<Stored>) -> usize {
    match stored {
        Some(stored) => stored.length as usize,
        None => item.sent.len(),
    }
}

// Appends how many bytes were to be sent, if these are fewer.
fn write_length(sent: usize, expected: usize, text: &mut String) -> Result<(), AllocError> {
    if sent < expected {
        write!(text, " of {expected}")
    } else {
        Ok(())
    }
}

// The bytes of a block that are shown: those of its group, or all if one of the others is not 00.
fn shown_block(cdb: &[u8; 16]) -> &[u8] {
    let (shown, others) = cdb.split_at(length_of(cdb[0]));
    if others.iter().all(|byte| *byte == 0) {
        shown
    } else {
        cdb
    }
}

// How many bytes a block with this operation code has (SPC-4, section 4.3.4.1).
fn length_of(operation_code: u8) -> usize
    ensures { result ≤ 16 }
{
    match operation_code / 0x20 {
        0 => 6,
        1 | 2 => 10,
        5 => 12,
        _ => 16,
    }
}
