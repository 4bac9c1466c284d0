//! The line of a request, read.

ghost use Rattle.std.specs.Prelude.{◌≡◌, None, [], IfOk, IfErr, OnErr};
ghost use Rattle.iscsi_job_text.specs.Requests.{request_of, request_in, bytes_request, command, moved_said, moved_out, expected_of};
ghost use Rattle.iscsi_job_text.specs.Faults.{RefusesOnly};
ghost use Rattle.iscsi_job_text.specs.Payloads.{contents};

use crate::fault::{LineFault, LineReason};
use crate::scripts::{blocks_of_one_byte, without_data};
use crate::words::{Payload, Words};
use iscsi_job::{Asked, Moves};
use std::alloc::Global;

// The names of requests.
const COMMAND: &[u8] = b"command";

const WRITE: &[u8] = b"write";

const PING: &[u8] = b"ping";

const TEXT: &[u8] = b"text";

/// What the line of a request asks, and the bytes that it sends.
pub(crate) fn request_of(alloc: Global, line: &[u8]) -> Result<(Asked, Payload), LineFault>
    ensures reads { IfOk result (λ found.
        request_of line.now ≡ Some (found.0, contents found.1)) }
    ensures refuses { IfErr result (RefusesOnly (request_of line.now)) }
{
    let mut words = Words::of(line);
    let request = request_in(alloc, &mut words)?;
    words.end()?;
    Ok(request)
}

// The request that begins with the next word.
fn request_in(alloc: Global, words: &mut Words<'_>) -> Result<(Asked, Payload), LineFault>
    ensures reads { IfOk result (λ found.
        request_in words.old ≡ Some ((found.0, contents found.1), words.new)) }
    ensures refuses { IfErr result (RefusesOnly (request_in words.old)) }
{
    let Some(name) = words.take() else {
        return Err(LineFault::Refused(LineReason::Request));
    };
    if name == COMMAND {
        command(alloc, words)
    } else if name == WRITE {
        let (asked, bytes) = blocks_of_one_byte(alloc, words)?;
        let stored = None;
        Ok((asked, Payload { bytes, stored }))
    } else if name == PING {
        with_bytes(alloc, Asked::Ping, words)
    } else if name == TEXT {
        with_bytes(alloc, Asked::Text, words)
    } else {
        let asked = without_data(name, words)?;
        Ok((asked, Payload::none(alloc)))
    }
}

// A request that sends the bytes behind it.
fn with_bytes(
    alloc: Global,
    asked: Asked,
    words: &mut Words<'_>,
) -> Result<(Asked, Payload), LineFault>
    ensures reads { IfOk result (λ found.
        bytes_request asked words.old ≡ Some ((found.0, contents found.1), words.new)) }
    ensures refuses { IfErr result (RefusesOnly (bytes_request asked words.old)) }
{
    let sent = words.payload_before(alloc, b"")?;
    Ok((asked, sent))
}

// A command with its descriptor block.
fn command(alloc: Global, words: &mut Words<'_>) -> Result<(Asked, Payload), LineFault>
    ensures reads { IfOk result (λ found.
        command words.old ≡ Some ((found.0, contents found.1), words.new)) }
    ensures refuses { IfErr result (RefusesOnly (command words.old)) }
{
    let lun = words.lun()?;
    let cdb = words.block(alloc)?;
    let (moves, expected, sent) = moved(alloc, words)?;
    let asked = Asked::Command {
        lun,
        cdb,
        moves,
        expected,
    };
    Ok((asked, sent))
}

// Which way the data of a command go, how many bytes are expected, and those that are sent.
fn moved(alloc: Global, words: &mut Words<'_>) -> Result<(Moves, u32, Payload), LineFault>
    ensures reads { IfOk result (λ found.
        moved_said words.old ≡ Some ((found.0, found.1, contents found.2), words.new)) }
    ensures refuses { IfErr result (RefusesOnly (moved_said words.old)) }
{
    if words.take_if(b"none") {
        Ok((Moves::Nothing, 0, Payload::none(alloc)))
    } else if words.take_if(b"in") {
        let expected = words.number(u64::from(u32::MAX))? as u32;
        Ok((Moves::In, expected, Payload::none(alloc)))
    } else if words.take_if(b"out") {
        moved_out(alloc, words)
    } else {
        Err(LineFault::Refused(LineReason::Direction))
    }
}

fn moved_out(alloc: Global, words: &mut Words<'_>) -> Result<(Moves, u32, Payload), LineFault>
    ensures reads { IfOk result (λ found.
        moved_out words.old ≡ Some ((found.0, found.1, contents found.2), words.new)) }
    ensures refuses { IfErr result (RefusesOnly (moved_out words.old)) }
{
    let sent = words.payload_before(alloc, b"of")?;
    let expected = expected_of(sent.length(), words)?;
    Ok((Moves::Out, expected, sent))
}

// How many bytes a command that sent so many was to send: more than those if `of` stands there.
fn expected_of(sent: usize, words: &mut Words<'_>) -> Result<u32, LineReason>
    ensures reads { IfOk result (λ found. expected_of sent words.old ≡ Some (found, words.new)) }
    ensures refuses { OnErr result (expected_of sent words.old ≡ None) }
{
    let Ok(sent) = u32::try_from(sent) else {
        return Err(LineReason::Hex);
    };
    match words.number_behind(b"of", u64::from(u32::MAX))? {
        None => Ok(sent),
        Some(expected) if expected > u64::from(sent) => Ok(expected as u32),
        Some(_) => Err(LineReason::Number),
    }
}
