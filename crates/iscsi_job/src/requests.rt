//! What the PDUs of an initiator ask.

ghost use Rattle.std.specs.Prelude.{◌≡◌, ◌++◌, ◌∷◌, [], None, Ok, IfOk, IsSome, OnOk, OnErr};
ghost use Rattle.scsi_cdb.specs.Blocks.{CdbFits as FitsTable};
ghost use Rattle.iscsi_pdu.specs.Meaning.{HeadFits};
ghost use Rattle.iscsi_job.specs.Requests.{asked_item, commanded, gives, said_by, texted, way};

use crate::fault::{JobFault, Reason};
use crate::item::{Asked, Item, Moves};
use crate::recording::{At, Noted};
use iscsi_pdu::{Head, RESERVED_TAG, ScsiCommand, TextRequest};
use std::alloc::{AllocError, Global};
use std::collections::VecDeque;

/// What a PDU of the initiator says of a job.
#[derive(Clone, Copy)]
pub enum Heard {
    /// It asks this under this tag, with the bytes of its segment.
    Asks(u32, Asked),
    /// It gives the bytes of its segment to the last request with this tag, at this offset.
    Gives(u32, u32),
    /// Nothing.
    Nothing,
    /// It has no place in a job.
    Refuses(Reason),
}

/// What a PDU of the initiator says of a job, by its kind.
pub(crate) fn said_by(head: &Head, bytes: &[u8]) -> Heard
    requires fits { HeadFits head.now }
    ensures value { result ≡ said_by head.now bytes.now }
{
    match head {
        Head::ScsiCommand(head) => commanded(head, bytes),
        Head::DataOut(head) => Heard::Gives(head.initiator_task_tag, head.buffer_offset),
        Head::NopOut(head) => {
            if head.initiator_task_tag == RESERVED_TAG {
                Heard::Nothing
            } else {
                Heard::Asks(head.initiator_task_tag, Asked::Ping)
            }
        }
        Head::TextRequest(head) => texted(head),
        Head::LogoutRequest(head) => Heard::Asks(head.initiator_task_tag, Asked::Logout),
        Head::TaskRequest(head) => {
            Heard::Asks(head.initiator_task_tag, Asked::Task(head.function))
        }
        Head::LoginRequest(_) => Heard::Nothing,
        _ => Heard::Refuses(Reason::Kind),
    }
}

// What a command says, with its immediate data.
fn commanded(head: &ScsiCommand, bytes: &[u8]) -> Heard
    requires fits { FitsTable head.now.cdb }
    ensures value { result ≡ commanded head.now bytes.now }
{
    if head.read && head.write {
        return Heard::Refuses(Reason::Bidirectional);
    }
    let length = head.expected_data_transfer_length;
    let expected = if head.read || head.write { length } else { 0 };
    let most = if head.write { expected } else { 0 };
    if bytes.len() > most as usize {
        return Heard::Refuses(Reason::Order);
    }
    let asked = Asked::Command {
        lun: head.lun,
        cdb: head.cdb.write(),
        moves: way(head),
        expected,
    };
    Heard::Asks(head.initiator_task_tag, asked)
}

// Which way the data of a command go.
fn way(head: &ScsiCommand) -> Moves
    ensures value { result ≡ way head.now }
{
    if head.write {
        Moves::Out
    } else if head.read {
        Moves::In
    } else {
        Moves::Nothing
    }
}

// What a text says.
fn texted(head: &TextRequest) -> Heard
    ensures value { result ≡ texted head.now }
{
    if head.is_final && !head.continues && head.target_transfer_tag == RESERVED_TAG {
        Heard::Asks(head.initiator_task_tag, Asked::Text)
    } else {
        Heard::Refuses(Reason::Parts)
    }
}

/// Notes a request with the bytes that its PDU has, behind those that stand there. `at` is where
/// the PDU stands. If memory runs out, nothing is noted.
pub(crate) fn note(
    alloc: Global,
    noted: &mut VecDeque<Noted>,
    at: At,
    tag: u32,
    asked: Asked,
    bytes: &[u8],
) -> Result<(), JobFault>
    ensures ok { OnOk result (noted.new.items ≡ noted.old.items ++ record {
      tag = tag;
      place = at.place;
      pdu = at.pdu;
      item = asked_item asked bytes.now;
    } ∷ []) }
    ensures err { OnErr result (noted.new.items ≡ noted.old.items) }
{
    let item = Item {
        asked,
        sent: bytes.to_vec(alloc)?,
        ended: None,
        sense: Vec::new(alloc),
        received: Vec::new(alloc),
    };
    noted.push_back(Noted {
        tag,
        place: at.place,
        pdu: at.pdu,
        item,
        sent: at.now,
        answered: 0,
    })?;
    Ok(())
}

/// Gives bytes at an offset to a request, or says why they have no place in a job. If memory runs
/// out, the request is as it was.
pub(crate) fn give(item: &mut Item, offset: u32, bytes: &[u8]) -> Result<Option<Reason>, AllocError>
    ensures refusal { IfOk result (λ refusal. refusal ≡ gives item.old offset bytes.now) }
    ensures given { result ≡ Ok None
        → item.new ≡ record item.old { sent = item.old.sent ++ bytes.now } }
    ensures refused { IfOk result (λ refusal. IsSome refusal → item.new ≡ item.old) }
    ensures err { OnErr result (item.new ≡ item.old) }
{
    let Asked::Command {
        moves: Moves::Out,
        expected,
        ..
    } = item.asked
    else {
        return Ok(Some(Reason::Unasked));
    };
    let held = item.sent.len();
    if offset as usize != held || held.saturating_add(bytes.len()) > expected as usize {
        return Ok(Some(Reason::Order));
    }
    item.sent.extend_from_slice(bytes)?;
    Ok(None)
}
