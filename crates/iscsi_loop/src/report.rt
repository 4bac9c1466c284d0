//! The line for the outcome of a request.

ghost use Rattle.std.specs.Prelude.{◌≡◌, false, IfOk, slice_index_or};
ghost use Rattle.std.specs.Fmt.{digits};
ghost use Rattle.std.specs.String.{string_bytes};
ghost use Rattle.iscsi_loop.specs.Reports.{report, ended_report, good_report, check_report, two_digits, difference};

use iscsi_initiator::Done;
use scsi_cdb::Residual;
use std::alloc::{AllocError, Global};

/// How many bytes of a command's data a line shows.
const SHOWN: usize = 16;

/// The line for the outcome of a request, with its line end.
///
/// A command that ended well is `good LEN`, with its first 16 bytes in hex behind a blank if it
/// gave some. Another one is `check K/AA/QQ`: sense key, additional sense code and its qualifier in
/// hex. Each is 0 if the sense data lack it (SPC-4, section 4.5.3). Behind it stands ` under R` or
/// ` over R`, where the command has R bytes less or more than were expected. A ping is `ping HEX`,
/// a text `text HEX`, and the end of the session `logout`.
pub fn report(alloc: Global, done: &Done) -> Result<String, AllocError>
    ensures line { IfOk result (λ line. string_bytes line ≡ report done.now) }
{
    match done {
        Done::Command {
            status,
            sense,
            bytes,
            residual,
            ..
        } => {
            let ended = ended(alloc, *status, sense.as_slice(), bytes.as_slice())?;
            let difference = difference(alloc, *residual)?;
            format!(in alloc; "{ended}{difference}\n")
        }
        Done::Ping { bytes } => {
            let digits = hex::encode(alloc, bytes.as_slice())?;
            format!(in alloc; "ping {digits}\n")
        }
        Done::Text { bytes } => {
            let digits = hex::encode(alloc, bytes.as_slice())?;
            format!(in alloc; "text {digits}\n")
        }
        Done::Closed => format!(in alloc; "logout\n"),
    }
}

// How a command with this status ended.
fn ended(alloc: Global, status: u8, sense: &[u8], bytes: &[u8]) -> Result<String, AllocError>
    ensures { IfOk result (λ text. string_bytes text ≡ ended_report status sense.now bytes.now) }
{
    if status == 0 {
        return good(alloc, bytes);
    }
    check(alloc, sense)
}

// A command that ended well and gave these bytes.
fn good(alloc: Global, bytes: &[u8]) -> Result<String, AllocError>
    ensures { IfOk result (λ text. string_bytes text ≡ good_report bytes.now) }
{
    let len = bytes.len();
    if len == 0 {
        return format!(in alloc; "good 0");
    }
    let shown = hex::encode(alloc, &bytes[..len.min(SHOWN)])?;
    format!(in alloc; "good {len} {shown}")
}

// A command that failed with these sense data.
fn check(alloc: Global, sense: &[u8]) -> Result<String, AllocError>
    ensures { IfOk result (λ text. string_bytes text ≡ check_report sense.now) }
{
    let key = hexadecimal(alloc, byte_at(sense, 2) % 16)?;
    let code = two_digits(alloc, byte_at(sense, 12))?;
    let qualifier = two_digits(alloc, byte_at(sense, 13))?;
    format!(in alloc; "check {key}/{code}/{qualifier}")
}

// A number in hex.
fn hexadecimal(alloc: Global, n: u8) -> Result<String, AllocError>
    ensures { IfOk result (λ text. string_bytes text ≡ digits 16 false n) }
{
    format!(in alloc; "{n:x}")
}

// A byte as two hex digits.
#[tactic(auto, using(crate::proofs::ReportLemmas::as_two_digits))]
fn two_digits(alloc: Global, byte: u8) -> Result<String, AllocError>
    ensures { IfOk result (λ text. string_bytes text ≡ two_digits byte) }
{
    format!(in alloc; "{byte:02x}")
}

// The byte at this place, or 0 past the end.
fn byte_at(bytes: &[u8], at: usize) -> u8
    ensures { result ≡ slice_index_or bytes.now at 0 }
{
    bytes.get(at).copied().unwrap_or(0)
}

// By how many bytes a command differs from what was expected.
fn difference(alloc: Global, residual: Residual) -> Result<String, AllocError>
    ensures { IfOk result (λ text. string_bytes text ≡ difference residual) }
{
    match residual {
        Residual::Exact => Ok(String::new(alloc)),
        Residual::Under(bytes) => format!(in alloc; " under {bytes}"),
        Residual::Over(bytes) => format!(in alloc; " over {bytes}"),
    }
}
