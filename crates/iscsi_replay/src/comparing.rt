//! Whether two outcomes of a request are the same.

ghost use Rattle.std.specs.Prelude.{◌≡◌, ◌↔◌, true};
ghost use Rattle.iscsi_replay.specs.Outcomes.{AreSame, compared_data, compared_end, has_failed, is_unit_attention_end, sense_key, without_residual};
ghost use Rattle.iscsi_replay.specs.inner.Outcomes.{is_good_end};

use iscsi_job::{Ended, Outcome};
use scsi_cdb::Residual;

/// The status that comes with sense data (SAM-5, section 5.3.1).
const CHECK_CONDITION: u8 = 2;

/// Whether a recorded outcome and a live one are the same. If data are ignored, those and the
/// residual count are left out. Data beside a status other than GOOD are never compared: they say
/// nothing (SAM-5, section 5.3.1), and some targets send what lay in memory.
pub fn are_same(recorded: Outcome<'_>, live: Outcome<'_>, ignores_data: bool) -> bool
    ensures same { (result ≡ true) ↔ AreSame ignores_data recorded.entry live.entry }
{
    compared_end(recorded.ended, ignores_data) == compared_end(live.ended, ignores_data)
        && recorded.sense == live.sense
        && compared_data(recorded, ignores_data) == compared_data(live, ignores_data)
}

// What is compared of how a request ended.
fn compared_end(ended: Ended, ignores_data: bool) -> Ended
    ensures { result ≡ compared_end ignores_data ended }
{
    if ignores_data {
        without_residual(ended)
    } else {
        ended
    }
}

fn without_residual(ended: Ended) -> Ended
    ensures { result ≡ without_residual ended }
{
    match ended {
        Ended::Command {
            response,
            status,
            ..
        } => Ended::Command {
            response,
            status,
            residual: Residual::Exact,
        },
        Ended::Ping | Ended::Text | Ended::Closed | Ended::Task(_) => ended,
    }
}

// What is compared of the data that came.
fn compared_data<'a>(outcome: Outcome<'a>, ignores_data: bool) -> &'a [u8]
    ensures { result.now ≡ compared_data ignores_data outcome.entry.ended outcome.entry.«data».now }
{
    if ignores_data || has_failed(outcome.ended) {
        &[]
    } else {
        outcome.data
    }
}

// Whether a command did not end with status GOOD.
fn has_failed(ended: Ended) -> bool
    ensures { result ≡ has_failed ended }
{
    match ended {
        Ended::Command {
            response,
            status,
            ..
        } => !(response == 0 && status == 0),
        Ended::Ping | Ended::Text | Ended::Closed | Ended::Task(_) => false,
    }
}

/// Whether a command was answered with a unit attention: CHECK CONDITION with sense key 6, in fixed
/// or descriptor format (SPC-4, sections 4.5.2 and 4.5.3).
pub fn is_unit_attention(outcome: Outcome<'_>) -> bool
    ensures value { result ≡ is_unit_attention_end outcome.entry.ended outcome.entry.sense.now }
{
    match outcome.ended {
        Ended::Command {
            response,
            status,
            ..
        } => response == 0 && status == CHECK_CONDITION && sense_key(outcome.sense) == 6,
        Ended::Ping | Ended::Text | Ended::Closed | Ended::Task(_) => false,
    }
}

// Whether a command was done: its target completed it with status GOOD.
pub(crate) fn is_good(outcome: Outcome<'_>) -> bool
    ensures value { result ≡ is_good_end outcome.entry.ended }
{
    match outcome.ended {
        Ended::Command {
            response,
            status,
            ..
        } => response == 0 && status == 0,
        Ended::Ping | Ended::Text | Ended::Closed | Ended::Task(_) => false,
    }
}

// The additional sense code of sense data, and its qualifier: bytes 12 and 13 in fixed format, 2 and 3 in
// descriptor format; 0 where they are not there.
pub(crate) fn additional_sense(sense: &[u8]) -> (u8, u8) {
    match byte_at(sense, 0) % 128 {
        0x70 | 0x71 => (byte_at(sense, 12), byte_at(sense, 13)),
        0x72 | 0x73 => (byte_at(sense, 2), byte_at(sense, 3)),
        _ => (0, 0),
    }
}

// A byte of sense data; 0 where they are shorter.
fn byte_at(sense: &[u8], index: usize) -> u8 {
    match sense.get(index) {
        Some(byte) => *byte,
        None => 0,
    }
}

// The sense key that sense data have.
pub(crate) fn sense_key(sense: &[u8]) -> u8
    ensures { result ≡ sense_key sense.now }
{
    let [code, second, third, ..] = sense else {
        return 0;
    };
    let format = code % 128;
    if format == 0x70 || format == 0x71 {
        third % 16
    } else if format == 0x72 || format == 0x73 {
        second % 16
    } else {
        0
    }
}
