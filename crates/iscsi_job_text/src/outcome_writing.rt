//! The line of an outcome, written.

use crate::entry::Stored;
use iscsi_job::{Ended, Outcome};
use scsi_cdb::Residual;
use std::alloc::{AllocError, Global};

/// The most bytes of data that the line of a difference shows whole.
const SHOWN_WHOLE: usize = 64;
/// How many bytes it shows of longer data.
const SHOWN: usize = 16;

/// Appends the line of an outcome: two blanks, this word, and what came. If memory runs out, a part
/// of it may stand there.
pub fn write_outcome(
    alloc: Global,
    word: &str,
    outcome: Option<Outcome<'_>>,
    text: &mut String,
) -> Result<(), AllocError> {
    write_ending(alloc, word, outcome, None, text)?;
    text.push_str("\n")
}

/// Appends the line of an outcome whose data may stand in the file of data, without its line end.
pub(crate) fn write_ending(
    alloc: Global,
    word: &str,
    outcome: Option<Outcome<'_>>,
    stored: Option<Stored>,
    text: &mut String,
) -> Result<(), AllocError> {
    let Some(outcome) = outcome else {
        return write!(text, "  {word} unanswered");
    };
    write!(text, "  {word} ")?;
    write_end(alloc, outcome, text)?;
    write_data(alloc, outcome, stored, text)
}

/// Appends the same line, but of data of more than 64 bytes it shows their number and 16 of them, from
/// this index on. If memory runs out, a part of it may stand there.
pub fn write_outcome_from(
    alloc: Global,
    word: &str,
    outcome: Option<Outcome<'_>>,
    from: usize,
    text: &mut String,
) -> Result<(), AllocError> {
    match outcome {
        Some(long) if long.data.len() > SHOWN_WHOLE => {
            write!(text, "  {word} ")?;
            write_end(alloc, long, text)?;
            write_part(alloc, long.data, from, text)
        }
        _ => write_outcome(alloc, word, outcome, text),
    }
}

// Appends the number of bytes, and 16 of them from an index on.
fn write_part(
    alloc: Global,
    data: &[u8],
    from: usize,
    text: &mut String,
) -> Result<(), AllocError> {
    let length = data.len();
    let from = from.min(length);
    let digits = hex::encode(alloc, &data[from..length.min(from + SHOWN)])?;
    writeln!(text, " data of {length} bytes, from {from}: {digits}")
}

// Appends all of an outcome but its data.
fn write_end(alloc: Global, outcome: Outcome<'_>, text: &mut String) -> Result<(), AllocError> {
    match outcome.ended {
        Ended::Command {
            response,
            status,
            residual,
        } => {
            write_status(response, status, text)?;
            write_hex(alloc, " sense ", outcome.sense, text)?;
            write_residual(residual, text)
        }
        Ended::Ping => text.push_str("ping"),
        Ended::Text => text.push_str("text"),
        Ended::Closed => text.push_str("closed"),
        Ended::Task(response) => write!(text, "done {response:02x}"),
    }
}

// Appends a response that is not 0, and a status.
fn write_status(response: u8, status: u8, text: &mut String) -> Result<(), AllocError> {
    match (response, status) {
        (0, 0) => text.push_str("good"),
        (0, status) => write!(text, "status {status:02x}"),
        (response, 0) => write!(text, "response {response:02x}"),
        (response, status) => write!(text, "response {response:02x} status {status:02x}"),
    }
}

fn write_residual(residual: Residual, text: &mut String) -> Result<(), AllocError> {
    match residual {
        Residual::Exact => Ok(()),
        Residual::Under(bytes) => write!(text, " under {bytes}"),
        Residual::Over(bytes) => write!(text, " over {bytes}"),
    }
}

// Appends the data of an outcome.
fn write_data(
    alloc: Global,
    outcome: Outcome<'_>,
    stored: Option<Stored>,
    text: &mut String,
) -> Result<(), AllocError> {
    let word = match outcome.ended {
        Ended::Command { .. } => " data ",
        Ended::Ping | Ended::Text | Ended::Closed | Ended::Task(_) => " ",
    };
    write_payload(alloc, word, outcome.data, stored, text)
}

/// Appends a word, and bytes as hex or where they stand; nothing if there are no bytes.
pub(crate) fn write_payload(
    alloc: Global,
    word: &str,
    bytes: &[u8],
    stored: Option<Stored>,
    text: &mut String,
) -> Result<(), AllocError> {
    let Some(stored) = stored else {
        return write_hex(alloc, word, bytes, text);
    };
    let Stored {
        offset,
        length,
        hash,
    } = stored;
    write!(text, "{word}at {offset} {length}")?;
    write_hex(alloc, " ", &hash, text)
}

// Appends a word, and bytes as hex; nothing if there are no bytes.
fn write_hex(alloc: Global, word: &str, bytes: &[u8], text: &mut String) -> Result<(), AllocError> {
    if bytes.is_empty() {
        return Ok(());
    }
    let digits = hex::encode(alloc, bytes)?;
    text.push_str(word)?;
    text.push_str(digits.as_str())
}
