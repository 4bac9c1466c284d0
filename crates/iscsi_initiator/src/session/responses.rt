//! Responses to the outstanding request (RFC 7143, section 11): a method for each kind of PDU that may
//! answer. The data of a read and R2Ts are not among them: they have files of their own.

ghost use Rattle.std.specs.Prelude.{◌≡◌, None, Some};
ghost use Rattle.std.specs.Option.{option_map};
ghost use Rattle.iscsi_initiator.specs.declared.target_pdu.Answer.TheVariants as answers;
ghost use Rattle.iscsi_initiator.specs.Full.{due_to, takes, residual, sense_of, outcome_with};
ghost use Rattle.iscsi_initiator.specs.inner.Inside.{SessionStepPost, CountedStepPost, received_by};

use super::Session;
use crate::fault::InitiatorFault;
use crate::outstanding::Outstanding;
use crate::request::Done;
use crate::target_pdu::{Answer, Counters};
use iscsi_pdu::rule::{DATA_OUT_OF_ORDER, KIND_NOT_DUE, TEXT_AT_FAULT};
use iscsi_pdu::{ScsiResponse, TextResponse};
use scsi_cdb::{Bytes, Residual};
use std::alloc::{AllocError, Global};

impl Session {
    // What may answer the outstanding request, by its kind.
    pub(super) fn on_answer(
        &mut self,
        answer: Answer,
        counters: Counters,
        bytes: &[u8],
        out: &mut Vec<u8>,
    ) -> Result<Option<InitiatorFault>, AllocError>
        ensures { CountedStepPost (takes (due_to self.old.outstanding answer) counters self.old
            bytes.now)
            result self.old self.new out.old.items out.new.items }
    {
        match answer {
            Answer::Ping => self.on_pong(counters, bytes, out),
            Answer::Data(head) => self.on_data(&head, counters, bytes, out),
            Answer::Response(head) => self.on_response(&head, counters, bytes, out),
            Answer::R2t(head) => self.on_r2t(&head, counters, bytes, out),
            Answer::Text(head) => self.on_text_answer(&head, counters, bytes, out),
            Answer::Logout => self.on_logout(counters, bytes, out),
        }
    }

    // The answer to a ping.
    fn on_pong(
        &mut self,
        counters: Counters,
        bytes: &[u8],
        out: &mut Vec<u8>,
    ) -> Result<Option<InitiatorFault>, AllocError>
        ensures { CountedStepPost (takes
            (due_to self.old.outstanding answers.Ping) counters self.old bytes.now)
            result self.old self.new out.old.items out.new.items }
    {
        let Some(Outstanding::Ping) = self.outstanding else {
            return Ok(self.protocol_error(KIND_NOT_DUE));
        };
        let fault = self.admit(bytes, counters);
        if fault.is_some() {
            return Ok(fault);
        }
        let bytes = Bytes::from_vec(bytes.to_vec(*out.allocator())?);
        self.complete(Done::Ping { bytes });
        Ok(None)
    }

    // The bytes that the outstanding request received; it is outstanding no more.
    pub(super) fn take_received(&mut self, alloc: Global) -> Bytes
        ensures bytes { result ≡ received_by self.old.outstanding }
        ensures none { self.new ≡ record self.old { outstanding = None } }
    {
        match self.outstanding.take() {
            Some(Outstanding::In(reading)) => Bytes::from_vec(reading.received),
            Some(Outstanding::Out(_) | Outstanding::Ping | Outstanding::Text | Outstanding::Logout)
            | None => Bytes::from_vec(Vec::new(alloc)),
        }
    }

    // The outstanding request has this outcome.
    pub(super) fn complete(&mut self, done: Done)
        ensures { self.new ≡ record self.old { outstanding = None; done = Some done } }
    {
        self.outstanding = None;
        self.done = Some(done);
    }

    // A response completes its command, unless its sense is cut off.
    fn on_response(
        &mut self,
        head: &ScsiResponse,
        counters: Counters,
        bytes: &[u8],
        out: &mut Vec<u8>,
    ) -> Result<Option<InitiatorFault>, AllocError>
        ensures { CountedStepPost (takes
            (due_to self.old.outstanding (answers.Response head.now)) counters self.old bytes.now)
            result self.old self.new out.old.items out.new.items }
    {
        if !matches!(
            self.outstanding,
            Some(Outstanding::In(_) | Outstanding::Out(_))
        ) {
            return Ok(self.protocol_error(KIND_NOT_DUE));
        }
        let fault = self.admit(bytes, counters);
        if fault.is_some() {
            return Ok(fault);
        }
        self.complete_command(head, bytes, out)
    }

    // The same for a response whose numbers are counted.
    fn complete_command(
        &mut self,
        head: &ScsiResponse,
        bytes: &[u8],
        out: &mut Vec<u8>,
    ) -> Result<Option<InitiatorFault>, AllocError>
        ensures { SessionStepPost (outcome_with (sense_of bytes.now) self.old
            (received_by self.old.outstanding) head.now)
            result self.old self.new out.old.items out.new.items }
    {
        let Some(sense) = sense_of(bytes) else {
            return Ok(self.protocol_error(DATA_OUT_OF_ORDER));
        };
        let sense = Bytes::from_vec(sense.to_vec(*out.allocator())?);
        let bytes = self.take_received(*out.allocator());
        self.complete(Done::Command {
            response: head.response,
            status: head.status.unwrap_or(0),
            sense,
            bytes,
            residual: residual(head.overflow, head.underflow, head.residual.unwrap_or(0)),
        });
        Ok(None)
    }

    // An answer to a text is to be whole.
    fn on_text_answer(
        &mut self,
        head: &TextResponse,
        counters: Counters,
        bytes: &[u8],
        out: &mut Vec<u8>,
    ) -> Result<Option<InitiatorFault>, AllocError>
        ensures { CountedStepPost (takes
            (due_to self.old.outstanding (answers.Text head.now)) counters self.old bytes.now)
            result self.old self.new out.old.items out.new.items }
    {
        let Some(Outstanding::Text) = self.outstanding else {
            return Ok(self.protocol_error(KIND_NOT_DUE));
        };
        let fault = self.admit(bytes, counters);
        if fault.is_some() {
            return Ok(fault);
        }
        if !head.is_final || head.continues {
            return Ok(self.protocol_error(TEXT_AT_FAULT));
        }
        let bytes = Bytes::from_vec(bytes.to_vec(*out.allocator())?);
        self.complete(Done::Text { bytes });
        Ok(None)
    }

    // The answer to a logout closes the session.
    fn on_logout(
        &mut self,
        counters: Counters,
        bytes: &[u8],
        out: &mut Vec<u8>,
    ) -> Result<Option<InitiatorFault>, AllocError>
        ensures { SessionStepPost (takes
            (due_to self.old.outstanding answers.Logout) counters self.old bytes.now)
            result self.old self.new out.old.items out.new.items }
    {
        let Some(Outstanding::Logout) = self.outstanding else {
            return Ok(self.protocol_error(KIND_NOT_DUE));
        };
        let fault = self.admit(bytes, counters);
        if fault.is_some() {
            return Ok(fault);
        }
        self.close();
        self.complete(Done::Closed);
        Ok(None)
    }
}

// The residual that a response names; overflow is looked at first.
pub(super) fn residual(overflow: bool, underflow: bool, count: u32) -> Residual
    ensures { result ≡ residual overflow underflow count }
{
    if overflow {
        Residual::Over(count)
    } else if underflow {
        Residual::Under(count)
    } else {
        Residual::Exact
    }
}

// The sense bytes behind their length; none where the segment is empty.
fn sense_of(bytes: &[u8]) -> Option<&[u8]>
    ensures { option_map (λ sense. sense.now) result ≡ sense_of bytes.now }
{
    if bytes.is_empty() {
        return Some(bytes);
    }
    let [high, low, sense @ ..] = bytes else {
        return None;
    };
    sense.get(..usize::from(u16::from_be_bytes([*high, *low])))
}
