//! What scripts look for in the object of a PDU, beside the fields of its line.

use crate::commands::Asking;
use crate::iscsi_words::login_words;
use crate::notes::{known_bytes, spelled};
use crate::objects::{put, put_number, put_text};
use crate::sense::{sense_of, status_words};
use crate::stamp::Stamp;
use iscsi_pdu::{Head, Pdu};
use scsi_cdb::Cdb;
use serde_json::{Map, Value};
use std::alloc::{AllocError, Global};

/// Puts the command that a PDU is or belongs to, the words of its status, its sense data and the
/// keys of its text.
pub(crate) fn put_meaning(
    alloc: Global,
    stamp: Option<Stamp>,
    pdu: &Pdu<'_>,
    map: &mut Map<String, Value>,
) -> Result<(), AllocError> {
    put_asked(alloc, stamp, map)?;
    let bytes = known_bytes(stamp, pdu);
    match &pdu.head {
        Head::ScsiCommand(h) => put_command(alloc, &h.cdb, map),
        Head::ScsiResponse(h) => {
            put_status(alloc, h.status, map)?;
            put_sense(alloc, bytes, map)
        }
        Head::DataIn(h) => put_status(alloc, h.status, map),
        Head::LoginRequest(_) | Head::TextRequest(_) | Head::TextResponse(_) => {
            put_keys(alloc, bytes, map)
        }
        Head::LoginResponse(h) => {
            let words = login_words(h.status_class, h.status_detail);
            put_text(alloc, map, "status_name", words)?;
            put_keys(alloc, bytes, map)
        }
        _ => Ok(()),
    }
}

/// Puts a logical unit: its number, or the digits of the line where it has none.
pub(crate) fn put_lun(
    alloc: Global,
    lun: u64,
    map: &mut Map<String, Value>,
) -> Result<(), AllocError> {
    match unit_number(lun) {
        Some(number) => put_number(alloc, map, "lun", number),
        None => {
            let digits = format!(in alloc; "{lun:016x}")?;
            put(alloc, map, "lun", Value::String(digits))
        }
    }
}

// The number of a logical unit of a single level: peripheral addressing at bus 0, or flat space
// addressing (SAM-5, section 4.7.7).
fn unit_number(lun: u64) -> Option<u64> {
    if lun % 0x1_0000_0000_0000 != 0 {
        return None;
    }
    let first = lun / 0x1_0000_0000_0000;
    match first / 0x100 {
        0 => Some(first),
        0x40..=0x7f => Some(first % 0x4000),
        _ => None,
    }
}

// Puts the command that a PDU belongs to, and its logical unit.
fn put_asked(
    alloc: Global,
    stamp: Option<Stamp>,
    map: &mut Map<String, Value>,
) -> Result<(), AllocError> {
    match stamp {
        Some(
            Stamp {
                asked: Some(asked),
                ..
            },
        ) => {
            put_lun(alloc, asked.lun, map)?;
            put_command(alloc, &asked.cdb, map)
        }
        _ => Ok(()),
    }
}

// Puts the name of a command, its first block and its number of blocks, and its page.
fn put_command(alloc: Global, cdb: &Cdb, map: &mut Map<String, Value>) -> Result<(), AllocError> {
    let asking = Asking::of(cdb);
    let command = asking.command(alloc)?;
    put(alloc, map, "command", Value::String(command))?;
    if let Some((lba, blocks)) = asking.extent {
        put_number(alloc, map, "lba", lba)?;
        put_number(alloc, map, "blocks", blocks)?;
    }
    match asking.page {
        Some(page) => put_number(alloc, map, "page", page as u64),
        None => Ok(()),
    }
}

// Puts the words of a SCSI status, if there is one.
fn put_status(
    alloc: Global,
    status: Option<u8>,
    map: &mut Map<String, Value>,
) -> Result<(), AllocError> {
    match status {
        Some(status) => put_text(alloc, map, "status_name", status_words(status)),
        None => Ok(()),
    }
}

// Puts the key, the additional code and the qualifier of sense data, if a segment has some.
fn put_sense(
    alloc: Global,
    segment: &[u8],
    map: &mut Map<String, Value>,
) -> Result<(), AllocError> {
    let Some((key, code, qualifier)) = sense_of(segment) else {
        return Ok(());
    };
    put_number(alloc, map, "sense_key", key as u64)?;
    put_number(alloc, map, "asc", code as u64)?;
    put_number(alloc, map, "ascq", qualifier as u64)
}

// Puts the keys of a text with their values, as notes have them. What has no `=`, as the end of a
// value that began in another PDU, is left out.
fn put_keys(alloc: Global, segment: &[u8], map: &mut Map<String, Value>) -> Result<(), AllocError> {
    let mut keys = Map::new(alloc);
    for pair in segment.split(|byte| *byte == 0) {
        put_key(alloc, pair, &mut keys)?;
    }
    put(alloc, map, "keys", Value::Object(keys))
}

// Puts a key with its value.
fn put_key(alloc: Global, pair: &[u8], keys: &mut Map<String, Value>) -> Result<(), AllocError> {
    let pair = spelled(alloc, pair)?;
    match pair.split_once('=') {
        Some((key, value)) => put_text(alloc, keys, key, value),
        None => Ok(()),
    }
}
