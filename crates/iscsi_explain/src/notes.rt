//! What is told under the line of a PDU.

use crate::commands::Asking;
use crate::iscsi_words::{
    event_words, function_words, login_words, logout_response_words, logout_words, reject_words,
    stage_words, task_response_words,
};
use crate::sense::{sense_words, status_words};
use crate::stamp::Stamp;
use iscsi_pdu::{Head, LoginRequest, LoginResponse, Pdu, ScsiResponse};
use scsi_cdb::Cdb;
use std::alloc::{AllocError, Global};

/// The notes of a PDU, one for each thing that people look up. They give a SCSI command by its
/// name, with its first block and number of blocks. They give sense data, statuses and reasons by
/// their words, and each key of a login or text with its value.
///
/// Bytes of a key or value other than `!` to `~` and the space are `\x` and two hex digits, and so
/// is the backslash.
pub fn notes_of(alloc: Global, pdu: &Pdu<'_>) -> Result<Vec<String>, AllocError> {
    let mut notes = Vec::new(alloc);
    add_notes(alloc, pdu, &mut notes)?;
    Ok(notes)
}

/// The notes of a PDU, that of the time from its request last. Where bytes of its segment are
/// missing, what the segment says is left out.
pub(crate) fn all_notes(
    alloc: Global,
    stamp: Option<Stamp>,
    pdu: &Pdu<'_>,
) -> Result<Vec<String>, AllocError> {
    let Some(stamp) = stamp else {
        return notes_of(alloc, pdu);
    };
    let known = Pdu {
        head: pdu.head,
        bytes: known_bytes(Some(stamp), pdu),
    };
    let mut notes = notes_of(alloc, &known)?;
    add_elapsed(alloc, &stamp, &mut notes)?;
    Ok(notes)
}

/// The segment of a PDU; nothing where bytes of it are missing.
pub(crate) fn known_bytes<'a>(stamp: Option<Stamp>, pdu: &Pdu<'a>) -> &'a [u8] {
    match stamp {
        Some(stamp) if stamp.missing > 0 => &[],
        _ => pdu.bytes,
    }
}

// Appends how long the request took, if this is its response.
fn add_elapsed(alloc: Global, stamp: &Stamp, notes: &mut Vec<String>) -> Result<(), AllocError> {
    match stamp.elapsed_note(alloc)? {
        Some(note) => Ok(notes.push(note)?),
        None => Ok(()),
    }
}

// Appends the notes of a PDU.
fn add_notes(alloc: Global, pdu: &Pdu<'_>, notes: &mut Vec<String>) -> Result<(), AllocError> {
    match &pdu.head {
        Head::ScsiCommand(h) => command_note(alloc, &h.cdb, notes),
        Head::ScsiResponse(h) => response_notes(alloc, h, pdu.bytes, notes),
        Head::DataIn(h) => status_note(alloc, h.status, notes),
        Head::LoginRequest(h) => request_notes(alloc, h, pdu.bytes, notes),
        Head::LoginResponse(h) => login_notes(alloc, h, pdu.bytes, notes),
        Head::TextRequest(_) | Head::TextResponse(_) => key_notes(alloc, pdu.bytes, notes),
        Head::TaskRequest(h) => named(alloc, "function", function_words(h.function), notes),
        Head::TaskResponse(h) => named(alloc, "response", task_response_words(h.response), notes),
        Head::LogoutRequest(h) => named(alloc, "reason", logout_words(h.reason), notes),
        Head::LogoutResponse(h) => {
            named(alloc, "response", logout_response_words(h.response), notes)
        }
        Head::AsyncMessage(h) => named(alloc, "event", event_words(h.async_event), notes),
        Head::Reject(h) => named(alloc, "reason", reject_words(h.reason), notes),
        Head::NopOut(_) | Head::NopIn(_) | Head::DataOut(_) | Head::ReadyToTransfer(_) => Ok(()),
    }
}

// Appends what a command asks for.
fn command_note(alloc: Global, cdb: &Cdb, notes: &mut Vec<String>) -> Result<(), AllocError> {
    let note = Asking::of(cdb).words(alloc)?;
    Ok(notes.push(note)?)
}

// Appends a note of a name and words.
fn named(
    alloc: Global,
    name: &str,
    words: &str,
    notes: &mut Vec<String>,
) -> Result<(), AllocError> {
    let note = format!(in alloc; "{name} {words}")?;
    Ok(notes.push(note)?)
}

// Appends a SCSI status, if there is one.
fn status_note(
    alloc: Global,
    status: Option<u8>,
    notes: &mut Vec<String>,
) -> Result<(), AllocError> {
    match status {
        Some(status) => named(alloc, "status", status_words(status), notes),
        None => Ok(()),
    }
}

// Appends what a SCSI Response says: its status, and its sense data if it has some.
fn response_notes(
    alloc: Global,
    head: &ScsiResponse,
    segment: &[u8],
    notes: &mut Vec<String>,
) -> Result<(), AllocError> {
    if head.response != 0 {
        named(
            alloc,
            "response",
            "the command did not complete at the target",
            notes,
        )?;
    }
    status_note(alloc, head.status, notes)?;
    match sense_words(alloc, segment)? {
        Some(words) => Ok(notes.push(words)?),
        None => Ok(()),
    }
}

// Appends the stages of a login PDU.
fn stage_note(
    alloc: Global,
    current: u8,
    next: Option<u8>,
    notes: &mut Vec<String>,
) -> Result<(), AllocError> {
    let from = stage_words(current);
    let Some(next) = next else {
        return named(alloc, "stage", from, notes);
    };
    let to = stage_words(next);
    let note = format!(in alloc; "stage {from}, next {to}")?;
    Ok(notes.push(note)?)
}

// Appends what a Login Request says.
fn request_notes(
    alloc: Global,
    head: &LoginRequest,
    segment: &[u8],
    notes: &mut Vec<String>,
) -> Result<(), AllocError> {
    stage_note(alloc, head.current_stage, head.next_stage, notes)?;
    key_notes(alloc, segment, notes)
}

// Appends what a Login Response says.
fn login_notes(
    alloc: Global,
    head: &LoginResponse,
    segment: &[u8],
    notes: &mut Vec<String>,
) -> Result<(), AllocError> {
    let words = login_words(head.status_class, head.status_detail);
    named(alloc, "status", words, notes)?;
    stage_note(alloc, head.current_stage, head.next_stage, notes)?;
    key_notes(alloc, segment, notes)
}

// Appends each key of a text with its value. A text that goes on in another PDU is told as far as it
// stands in this one.
fn key_notes(alloc: Global, segment: &[u8], notes: &mut Vec<String>) -> Result<(), AllocError> {
    for pair in segment.split(|byte| *byte == 0) {
        if !pair.is_empty() {
            notes.push(spelled(alloc, pair)?)?;
        }
    }
    Ok(())
}

/// Bytes as text that can be printed.
pub(crate) fn spelled(alloc: Global, bytes: &[u8]) -> Result<String, AllocError> {
    let mut text = String::with_capacity(alloc, bytes.len())?;
    for byte in bytes {
        if (0x20..=0x7e).contains(byte) && *byte != b'\\' {
            text.push(*byte as char)?;
        } else {
            write!(text, "\\x{byte:02x}")?;
        }
    }
    Ok(text)
}
