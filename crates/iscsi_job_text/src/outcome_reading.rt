//! The line of an outcome, read.

ghost use Rattle.std.specs.Prelude.{◌≡◌, None, [], IfOk, IfErr, OnErr};
ghost use Rattle.iscsi_job_text.specs.Requests.{whole_line};
ghost use Rattle.iscsi_job_text.specs.Outcomes.{unanswered, bare, answer_named, closed_said, task_ended, command_ended, response_and_status, statuses, residual_said, ended_said, outcome_in};
ghost use Rattle.iscsi_job_text.specs.Faults.{RefusesOnly};
ghost use Rattle.iscsi_job_text.specs.Came.{outcome_held};

use crate::fault::{LineFault, LineReason};
use crate::words::{Payload, Words};
use iscsi_job::{Asked, Ended};
use scsi_cdb::Residual;
use std::alloc::Global;

/// What a line says of an outcome.
#[derive(Drop)]
pub(crate) struct Came {
    /// How the request ended; none where it was not answered.
    pub(crate) ended: Option<Ended>,
    pub(crate) sense: Vec<u8>,
    pub(crate) received: Payload,
}

/// What came of a request that asked this, by the words behind `was`.
pub(crate) fn outcome_of(
    alloc: Global,
    asked: Asked,
    words: &mut Words<'_>,
) -> Result<Came, LineFault>
    ensures reads { IfOk result (λ found.
        whole_line (outcome_in asked words.old) ≡ Some (outcome_held found)) }
    ensures refuses { IfErr result (RefusesOnly (whole_line (outcome_in asked words.old))) }
{
    let came = outcome_in(alloc, asked, words)?;
    words.end()?;
    Ok(came)
}

// What came of a request; words may be left.
fn outcome_in(alloc: Global, asked: Asked, words: &mut Words<'_>) -> Result<Came, LineFault>
    ensures reads { IfOk result (λ found.
        outcome_in asked words.old ≡ Some (outcome_held found, words.new)) }
    ensures refuses { IfErr result (RefusesOnly (outcome_in asked words.old)) }
{
    if words.take_if(b"unanswered") {
        return Ok(unanswered(alloc));
    }
    if words.take_if(b"none") {
        return Ok(unanswered(alloc));
    }
    ended(alloc, asked, words)
}

// No answer.
fn unanswered(alloc: Global) -> Came
    ensures { outcome_held result ≡ unanswered }
{
    Came {
        ended: None,
        sense: Vec::new(alloc),
        received: Payload::none(alloc),
    }
}

// How a request ended, with what came.
fn ended(alloc: Global, asked: Asked, words: &mut Words<'_>) -> Result<Came, LineFault>
    ensures reads { IfOk result (λ found.
        ended_said asked words.old ≡ Some (outcome_held found, words.new)) }
    ensures refuses { IfErr result (RefusesOnly (ended_said asked words.old)) }
{
    match asked {
        Asked::Command { .. } => command_ended(alloc, words),
        Asked::Ping => answered(alloc, b"ping", Ended::Ping, words),
        Asked::Text => answered(alloc, b"text", Ended::Text, words),
        Asked::Logout => closed(alloc, words),
        Asked::Task(_) => task_ended(alloc, words),
    }
}

// How a request ended that is answered with bytes, behind this word.
fn answered(
    alloc: Global,
    word: &[u8],
    ended: Ended,
    words: &mut Words<'_>,
) -> Result<Came, LineFault>
    ensures reads { IfOk result (λ found.
        answer_named word.now ended words.old ≡ Some (outcome_held found, words.new)) }
    ensures refuses { IfErr result (RefusesOnly (answer_named word.now ended words.old)) }
{
    if !words.take_if(word) {
        return Err(LineFault::Refused(LineReason::Stray));
    }
    let received = words.payload_before(alloc, b"")?;
    Ok(Came {
        ended: Some(ended),
        sense: Vec::new(alloc),
        received,
    })
}

// The ending without bytes.
fn bare(alloc: Global, ended: Ended) -> Came
    ensures { outcome_held result ≡ bare ended }
{
    Came {
        ended: Some(ended),
        sense: Vec::new(alloc),
        received: Payload::none(alloc),
    }
}

fn closed(alloc: Global, words: &mut Words<'_>) -> Result<Came, LineFault>
    ensures reads { IfOk result (λ found.
        closed_said words.old ≡ Some (outcome_held found, words.new)) }
    ensures refuses { IfErr result (RefusesOnly (closed_said words.old)) }
{
    if words.take_if(b"closed") {
        Ok(bare(alloc, Ended::Closed))
    } else {
        Err(LineFault::Refused(LineReason::Stray))
    }
}

fn task_ended(alloc: Global, words: &mut Words<'_>) -> Result<Came, LineFault>
    ensures reads { IfOk result (λ found.
        task_ended words.old ≡ Some (outcome_held found, words.new)) }
    ensures refuses { IfErr result (RefusesOnly (task_ended words.old)) }
{
    match words.byte_behind(b"done")? {
        Some(response) => Ok(bare(alloc, Ended::Task(response))),
        None => Err(LineFault::Refused(LineReason::Stray)),
    }
}

// How a command ended, with its sense and its data.
fn command_ended(alloc: Global, words: &mut Words<'_>) -> Result<Came, LineFault>
    ensures reads { IfOk result (λ found.
        command_ended words.old ≡ Some (outcome_held found, words.new)) }
    ensures refuses { IfErr result (RefusesOnly (command_ended words.old)) }
{
    let (response, status) = response_and_status(words)?;
    let sense = words.bytes_behind(alloc, b"sense")?;
    let residual = residual(words)?;
    let received = words.payload_behind(alloc, b"data")?;
    let ended = Some(Ended::Command {
        response,
        status,
        residual,
    });
    Ok(Came {
        ended,
        sense,
        received,
    })
}

// A response and a status, of which one may be missing; it is 00 then.
fn response_and_status(words: &mut Words<'_>) -> Result<(u8, u8), LineReason>
    ensures reads { IfOk result (λ found. response_and_status words.old ≡ Some (found, words.new)) }
    ensures refuses { OnErr result (response_and_status words.old ≡ None) }
{
    let response = words.byte_behind(b"response")?;
    let status = words.byte_behind(b"status")?;
    statuses(response, status, words)
}

// A response and a status, where `good` may stand in place of the status.
fn statuses(
    response: Option<u8>,
    status: Option<u8>,
    words: &mut Words<'_>,
) -> Result<(u8, u8), LineReason>
    ensures reads { IfOk result (λ found.
        statuses response status words.old ≡ Some (found, words.new)) }
    ensures refuses { OnErr result (statuses response status words.old ≡ None) }
{
    if let Some(status) = status {
        return Ok((response.unwrap_or(0), status));
    }
    let is_good = words.take_if(b"good");
    match response {
        Some(response) => Ok((response, 0)),
        None if is_good => Ok((0, 0)),
        None => Err(LineReason::Outcome),
    }
}

fn residual(words: &mut Words<'_>) -> Result<Residual, LineReason>
    ensures reads { IfOk result (λ found. residual_said words.old ≡ Some (found, words.new)) }
    ensures refuses { OnErr result (residual_said words.old ≡ None) }
{
    if let Some(bytes) = words.number_behind(b"under", u64::from(u32::MAX))? {
        return Ok(Residual::Under(bytes as u32));
    }
    if let Some(bytes) = words.number_behind(b"over", u64::from(u32::MAX))? {
        return Ok(Residual::Over(bytes as u32));
    }
    Ok(Residual::Exact)
}
