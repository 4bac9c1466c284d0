//! Full feature phase (RFC 7143, sections 4.2 and 11).

ghost use Rattle.std.specs.Prelude.{◌≡◌, length, Some, is_some, if◌then◌else◌};
ghost use Rattle.iscsi_pdu.specs.Meaning.{HeadFits};
ghost use Rattle.iscsi_pdu.specs.declared.head.Head.TheVariants as heads;
ghost use Rattle.iscsi_initiator.specs.Full.{UnsolicitedNopIn, RejectPdu, update_counters, is_in_turn, nop_answer, takes, initiator_full_step};
ghost use Rattle.iscsi_initiator.specs.Steps.{closed_session};
ghost use Rattle.iscsi_initiator.specs.inner.Inside.{CountedStepPost, due_fault};

use super::Session;
use crate::fault::InitiatorFault;
use crate::target_pdu::{Content, Counters, TargetPdu};
use iscsi_pdu::rule::{KIND_NOT_DUE, REJECTED, SEGMENT_TOO_LONG, STATUS_OUT_OF_ORDER};
use iscsi_pdu::{Head, NopIn, NopOut, RESERVED_TAG, Serial};
use iscsi_stream::write_pdu;
use std::alloc::AllocError;

impl Session {
    /// Takes a message in full feature phase.
    pub(super) fn full_step(
        &mut self,
        head: &Head,
        bytes: &[u8],
        out: &mut Vec<u8>,
    ) -> Result<Option<InitiatorFault>, AllocError>
        requires fits { HeadFits head.now }
        ensures { CountedStepPost (initiator_full_step self.old head.now bytes.now)
            result self.old self.new out.old.items out.new.items }
    {
        let Some(pdu) = TargetPdu::of(head) else {
            return Ok(self.protocol_error(KIND_NOT_DUE));
        };
        match pdu.content {
            Content::UnsolicitedNopIn(head) => self.on_nop_in(&head, pdu.counters, bytes, out),
            Content::Async => Ok(self.admit(bytes, pdu.counters)),
            Content::Reject => self.on_reject(pdu.counters, bytes, out),
            Content::Tagged(tag, answer) if tag == self.initiator_task_tag => {
                self.on_answer(answer, pdu.counters, bytes, out)
            }
            Content::Tagged(..) => Ok(self.protocol_error(KIND_NOT_DUE)),
        }
    }

    // A NOP-In that answers no ping; one with a transfer tag is answered.
    #[tactic(auto, using(crate::proofs::WritingLemmas::one_message))]
    fn on_nop_in(
        &mut self,
        head: &NopIn,
        counters: Counters,
        bytes: &[u8],
        out: &mut Vec<u8>,
    ) -> Result<Option<InitiatorFault>, AllocError>
        requires fits { HeadFits (heads.NopIn head.now) }
        ensures { CountedStepPost (takes (Some (UnsolicitedNopIn head.now)) counters self.old
            bytes.now)
            result self.old self.new out.old.items out.new.items }
    {
        let fault = self.admit(bytes, counters);
        if fault.is_some() {
            return Ok(fault);
        }
        if head.target_transfer_tag == RESERVED_TAG {
            return Ok(None);
        }
        write_pdu(&Head::NopOut(self.nop_answer(head)), &[], out)?;
        Ok(None)
    }

    // The head of a NOP-Out that answers and asks for nothing.
    fn nop_answer(&self, head: &NopIn) -> NopOut
        requires { HeadFits (heads.NopIn head.now) }
        ensures value { result ≡ nop_answer self.now head.now }
        ensures fits { HeadFits (heads.NopOut result) }
    {
        NopOut {
            immediate: true,
            lun: head.lun,
            initiator_task_tag: RESERVED_TAG,
            target_transfer_tag: head.target_transfer_tag,
            cmd_sn: self.cmd_sn,
            exp_stat_sn: self.sent_exp_stat_sn(),
        }
    }

    // A Reject breaks a rule.
    fn on_reject(
        &mut self,
        counters: Counters,
        bytes: &[u8],
        out: &mut Vec<u8>,
    ) -> Result<Option<InitiatorFault>, AllocError>
        ensures { CountedStepPost (takes (Some RejectPdu) counters self.old bytes.now)
            result self.old self.new out.old.items out.new.items }
    {
        let fault = self.admit(bytes, counters);
        if fault.is_some() {
            return Ok(fault);
        }
        Ok(self.protocol_error(REJECTED))
    }

    // Judges a PDU that is due by the length of its segment, then by its StatSN, if it counts. The
    // numbers of one that breaks no rule are counted.
    pub(super) fn admit(&mut self, bytes: &[u8], counters: Counters) -> Option<InitiatorFault>
        ensures fault { result ≡ due_fault self.old (length bytes.now) counters.stat_sn }
        ensures machine { self.new ≡ if is_some result then closed_session self.old
            else update_counters self.old counters }
    {
        if bytes.len() > self.held.initiator_max_recv as usize {
            return self.protocol_error(SEGMENT_TOO_LONG);
        }
        if !self.is_in_turn(counters.stat_sn) {
            return self.protocol_error(STATUS_OUT_OF_ORDER);
        }
        self.update_counters(counters);
        None
    }

    // Whether a StatSN, if it counts, is the expected one.
    fn is_in_turn(&self, stat_sn: Option<u32>) -> bool
        ensures { result ≡ is_in_turn self.now.exp_stat_sn stat_sn }
    {
        match stat_sn {
            Some(stat_sn) => self.is_expected(stat_sn),
            None => true,
        }
    }

    // The numbers of a PDU are counted.
    pub(super) fn update_counters(&mut self, counters: Counters)
        ensures { self.new ≡ update_counters self.old counters }
    {
        if let Some(stat_sn) = counters.stat_sn {
            self.exp_stat_sn = Some(stat_sn.wrapping_add(1));
        }
        self.window
            .update(Serial(counters.exp_cmd_sn), Serial(counters.max_cmd_sn));
    }
}
