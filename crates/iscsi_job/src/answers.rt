//! What the PDUs of a target answer.

ghost use Rattle.std.specs.Prelude.{◌≡◌, ◌++◌, length, IfOk, OnOk, OnErr, None, Some};
ghost use Rattle.std.specs.Option.{option_map};
ghost use Rattle.iscsi_initiator.specs.Full.{residual, sense_of};
ghost use Rattle.iscsi_job.specs.declared.item.Ended.TheVariants.{Ping as IsPing};
ghost use Rattle.iscsi_job.specs.Answers.{item_answered, item_on_data, on_sense, item_on_text};
ghost use Rattle.iscsi_job.specs.Recordings.{answered_once, is_answer, kind_refusal, noted_answered, noted_heard, noted_unrefused, TasksHear};

use crate::fault::Reason;
use crate::item::{Asked, Ended, Item, Moves};
use crate::recording::{Noted, slot};
use iscsi_pdu::{DataIn, Head, RESERVED_TAG, ScsiResponse, TextResponse};
use iscsi_tasks::Tasks;
use scsi_cdb::Residual;
use std::alloc::AllocError;
use std::collections::VecDeque;

/// Notes what a PDU of the target answers, or says why it has no place in a job. If memory runs out,
/// nothing is noted of it.
pub(crate) fn take(
    given: usize,
    noted: &mut VecDeque<Noted>,
    tasks: &mut Tasks,
    now: u64,
    head: &Head,
    bytes: &[u8],
) -> Result<Option<Reason>, AllocError>
    ensures refusal { IfOk result (λ refusal.
        refusal ≡ (noted_heard given tasks.old noted.old.items head.now bytes.now).refusal) }
    ensures noted { OnOk result (noted.new.items
        ≡ (noted_heard given tasks.old noted.old.items head.now bytes.now).noted) }
    ensures err { OnErr result (noted.new.items ≡ noted.old.items) }
    ensures length { length noted.new.items ≡ length noted.old.items }
    ensures tasks { TasksHear tasks.old head.now tasks.new }
{
    let found = slot(given, tasks.hear(head));
    match kind_refusal(head) {
        Some(reason) => Ok(Some(reason)),
        None => answer_if_any(noted, found, now, head, bytes),
    }
}

// Notes what a PDU answers, if it is an answer.
fn answer_if_any(
    noted: &mut VecDeque<Noted>,
    found: Option<usize>,
    now: u64,
    head: &Head,
    bytes: &[u8],
) -> Result<Option<Reason>, AllocError>
    ensures refusal { IfOk result (λ refusal.
        refusal ≡ (noted_unrefused None noted.old.items found head.now bytes.now).refusal) }
    ensures noted { OnOk result (noted.new.items
        ≡ (noted_unrefused None noted.old.items found head.now bytes.now).noted) }
    ensures err { OnErr result (noted.new.items ≡ noted.old.items) }
    ensures length { length noted.new.items ≡ length noted.old.items }
{
    if is_answer(head) {
        answer(noted, found, now, head, bytes)
    } else {
        Ok(None)
    }
}

// Why a PDU has no place in a job, by its kind.
fn kind_refusal(head: &Head) -> Option<Reason>
    ensures value { result ≡ kind_refusal head.now }
{
    match head {
        Head::NopIn(_)
        | Head::ScsiResponse(_)
        | Head::TaskResponse(_)
        | Head::LoginResponse(_)
        | Head::TextResponse(_)
        | Head::DataIn(_)
        | Head::LogoutResponse(_)
        | Head::ReadyToTransfer(_)
        | Head::AsyncMessage(_) => None,
        Head::Reject(_) => Some(Reason::Rejected),
        _ => Some(Reason::Kind),
    }
}

// Whether a PDU answers a request.
fn is_answer(head: &Head) -> bool
    ensures value { result ≡ is_answer head.now }
{
    match head {
        Head::NopIn(head) => head.initiator_task_tag != RESERVED_TAG,
        Head::ScsiResponse(_)
        | Head::TaskResponse(_)
        | Head::TextResponse(_)
        | Head::DataIn(_)
        | Head::LogoutResponse(_) => true,
        _ => false,
    }
}

// Notes what a PDU answers to the request with this index, which is still without an answer.
fn answer(
    noted: &mut VecDeque<Noted>,
    index: Option<usize>,
    now: u64,
    head: &Head,
    bytes: &[u8],
) -> Result<Option<Reason>, AllocError>
    ensures refusal { IfOk result (λ refusal.
        refusal ≡ (noted_answered noted.old.items index head.now bytes.now).refusal) }
    ensures noted { OnOk result (noted.new.items
        ≡ (noted_answered noted.old.items index head.now bytes.now).noted) }
    ensures err { OnErr result (noted.new.items ≡ noted.old.items) }
    ensures length { length noted.new.items ≡ length noted.old.items }
{
    let Some(index) = index else {
        return Ok(Some(Reason::Unasked));
    };
    let Some(found) = noted.get_mut(index) else {
        return Ok(Some(Reason::Unasked));
    };
    found.answered = now;
    answered_once(&mut found.item, head, bytes)
}

// Notes what a PDU answers to a request, unless that has ended.
fn answered_once(item: &mut Item, head: &Head, bytes: &[u8]) -> Result<Option<Reason>, AllocError>
    ensures refusal { IfOk result (λ refusal.
        refusal ≡ (answered_once item.old head.now bytes.now).refusal) }
    ensures item { OnOk result (item.new ≡ (answered_once item.old head.now bytes.now).item) }
    ensures err { OnErr result (item.new ≡ item.old) }
{
    match item.ended {
        Some(_) => Ok(Some(Reason::Unasked)),
        None => answered(item, head, bytes),
    }
}

// Notes what a PDU answers to its request.
fn answered(item: &mut Item, head: &Head, bytes: &[u8]) -> Result<Option<Reason>, AllocError>
    ensures refusal { IfOk result (λ refusal.
        refusal ≡ (item_answered item.old head.now bytes.now).refusal) }
    ensures item { OnOk result (item.new ≡ (item_answered item.old head.now bytes.now).item) }
    ensures err { OnErr result (item.new ≡ item.old) }
{
    match (head, item.asked) {
        (
            Head::DataIn(head),
            Asked::Command {
                moves: Moves::In | Moves::Nothing,
                expected,
                ..
            },
        ) => { data(item, expected, head, bytes) }
        (Head::ScsiResponse(head), Asked::Command { .. }) => response(item, head, bytes),
        (Head::NopIn(_), Asked::Ping) => pong(item, bytes),
        (Head::TextResponse(head), Asked::Text) => text(item, head, bytes),
        (Head::LogoutResponse(_), Asked::Logout) => Ok(ends(item, Ended::Closed)),
        (Head::TaskResponse(head), Asked::Task(_)) => Ok(ends(item, Ended::Task(head.response))),
        _ => Ok(Some(Reason::Unasked)),
    }
}

// A request ended.
fn ends(item: &mut Item, ended: Ended) -> Option<Reason>
    ensures none { result ≡ None }
    ensures ended { item.new ≡ record item.old { ended = Some ended } }
{
    item.ended = Some(ended);
    None
}

// Data of a read; with a status they end it.
fn data(
    item: &mut Item,
    expected: u32,
    head: &DataIn,
    bytes: &[u8],
) -> Result<Option<Reason>, AllocError>
    ensures refusal { IfOk result (λ refusal.
        refusal ≡ (item_on_data item.old expected head.now bytes.now).refusal) }
    ensures item { OnOk result (item.new ≡ (item_on_data item.old expected head.now
        bytes.now).item) }
    ensures err { OnErr result (item.new ≡ item.old) }
{
    let held = item.received.len();
    if head.buffer_offset as usize != held || held.saturating_add(bytes.len()) > expected as usize {
        return Ok(Some(Reason::Order));
    }
    item.received.extend_from_slice(bytes)?;
    if !head.has_status {
        return Ok(None);
    }
    let residual = residual(
        head.overflow.unwrap_or(false),
        head.underflow.unwrap_or(false),
        head.residual.unwrap_or(0),
    );
    let ended = Ended::Command {
        response: 0,
        status: head.status.unwrap_or(0),
        residual,
    };
    Ok(ends(item, ended))
}

// A response ends its command, with its sense.
fn response(
    item: &mut Item,
    head: &ScsiResponse,
    bytes: &[u8],
) -> Result<Option<Reason>, AllocError>
    ensures refusal { IfOk result (λ refusal.
        refusal ≡ (on_sense (sense_of bytes.now) item.old head.now).refusal) }
    ensures item { OnOk result (item.new ≡ (on_sense (sense_of bytes.now) item.old head.now).item) }
    ensures err { OnErr result (item.new ≡ item.old) }
{
    let Some(sense) = sense_of(bytes) else {
        return Ok(Some(Reason::Sense));
    };
    item.sense.extend_from_slice(sense)?;
    let residual = residual(head.overflow, head.underflow, head.residual.unwrap_or(0));
    let ended = Ended::Command {
        response: head.response,
        status: head.status.unwrap_or(0),
        residual,
    };
    Ok(ends(item, ended))
}

// The answer to a ping.
fn pong(item: &mut Item, bytes: &[u8]) -> Result<Option<Reason>, AllocError>
    ensures ok { IfOk result (λ refusal. (refusal ≡ None)
        × (item.new ≡ record item.old { ended = Some IsPing; received = item.old.received ++ bytes.now })) }
    ensures err { OnErr result (item.new ≡ item.old) }
{
    item.received.extend_from_slice(bytes)?;
    Ok(ends(item, Ended::Ping))
}

// The answer to a text.
fn text(item: &mut Item, head: &TextResponse, bytes: &[u8]) -> Result<Option<Reason>, AllocError>
    ensures refusal { IfOk result (λ refusal.
        refusal ≡ (item_on_text item.old head.now bytes.now).refusal) }
    ensures item { OnOk result (item.new ≡ (item_on_text item.old head.now bytes.now).item) }
    ensures err { OnErr result (item.new ≡ item.old) }
{
    if !head.is_final || head.continues {
        return Ok(Some(Reason::Parts));
    }
    item.received.extend_from_slice(bytes)?;
    Ok(ends(item, Ended::Text))
}

// The residual that a PDU names; overflow is looked at first.
fn residual(overflow: bool, underflow: bool, count: u32) -> Residual
    ensures { result ≡ residual overflow underflow count }
{
    if overflow {
        Residual::Over(count)
    } else if underflow {
        Residual::Under(count)
    } else {
        Residual::Exact
    }
}

// The sense bytes behind their length; none where the segment is empty (RFC 7143, section 11.4.7).
fn sense_of(bytes: &[u8]) -> Option<&[u8]>
    ensures { option_map (λ sense. sense.now) result ≡ sense_of bytes.now }
{
    if bytes.is_empty() {
        return Some(bytes);
    }
    let [high, low, sense @ ..] = bytes else {
        return None;
    };
    sense.get(..usize::from(u16::from_be_bytes([*high, *low])))
}
