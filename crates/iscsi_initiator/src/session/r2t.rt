//! R2Ts, and the data that they ask for (RFC 7143, section 11.8).

ghost use Rattle.std.specs.Prelude.{◌≡◌, ◌<◌, ◌^◌, false};
ghost use Rattle.std.specs.Bool.{then_some};
ghost use Rattle.iscsi_pdu.specs.Meaning.{HeadFits};
ghost use Rattle.iscsi_pdu.specs.Fields.{is_tag};
ghost use Rattle.iscsi_pdu.specs.declared.head.Head.TheVariants as heads;
ghost use Rattle.iscsi_initiator.specs.State.{sent_exp_stat_sn};
ghost use Rattle.iscsi_initiator.specs.Full.{due_to, takes, on_r2t};
ghost use Rattle.iscsi_initiator.specs.declared.outstanding.Outstanding.TheVariants as opens;
ghost use Rattle.iscsi_initiator.specs.declared.target_pdu.Answer.TheVariants as answers;
ghost use Rattle.iscsi_initiator.specs.inner.Inside.{SessionStepPost, CountedStepPost, with_outstanding, r2t_received};

use super::Session;
use super::data_out::write_sequence;
use crate::fault::InitiatorFault;
use crate::outstanding::{Outstanding, Writing};
use crate::target_pdu::Counters;
use iscsi_login::NegKey;
use iscsi_pdu::rule::{DATA_OUT_OF_ORDER, KIND_NOT_DUE};
use iscsi_pdu::{DataOut, RESERVED_TAG, ReadyToTransfer};
use std::alloc::AllocError;

impl Session {
    // An R2T is answered with one sequence.
    pub(super) fn on_r2t(
        &mut self,
        head: &ReadyToTransfer,
        counters: Counters,
        bytes: &[u8],
        out: &mut Vec<u8>,
    ) -> Result<Option<InitiatorFault>, AllocError>
        ensures { CountedStepPost (takes
            (due_to self.old.outstanding (answers.R2t head.now)) counters self.old bytes.now)
            result self.old self.new out.old.items out.new.items }
    {
        let Some(Outstanding::Out(_)) = &self.outstanding else {
            return Ok(self.protocol_error(KIND_NOT_DUE));
        };
        let fault = self.admit(bytes, counters);
        if fault.is_some() {
            return Ok(fault);
        }
        self.answer_r2t(head, out)
    }

    // An R2T whose numbers are counted.
    fn answer_r2t(
        &mut self,
        head: &ReadyToTransfer,
        out: &mut Vec<u8>,
    ) -> Result<Option<InitiatorFault>, AllocError>
        ensures { SessionStepPost (r2t_received self.old.outstanding self.old head.now)
            result self.old self.new out.old.items out.new.items }
    {
        match self.outstanding.take() {
            Some(Outstanding::Out(writing)) => self.answer_r2t_for(writing, head, out),
            other => {
                self.outstanding = other;
                Ok(self.protocol_error(KIND_NOT_DUE))
            }
        }
    }

    // The same for this write, which was taken out of the session.
    fn answer_r2t_for(
        &mut self,
        mut writing: Writing,
        head: &ReadyToTransfer,
        out: &mut Vec<u8>,
    ) -> Result<Option<InitiatorFault>, AllocError>
        ensures { SessionStepPost (on_r2t (with_outstanding self.old (opens.Out writing)) writing
            head.now)
            result (with_outstanding self.old (opens.Out writing)) self.new
            out.old.items out.new.items }
    {
        if !writing.fits(head, self.held.number(NegKey::MaxBurstLength)) {
            self.outstanding = Some(Outstanding::Out(writing));
            return Ok(self.protocol_error(DATA_OUT_OF_ORDER));
        }
        let first = self.first_data_out(head);
        if let Err(error) = write_sequence(first, self.most_sent(), writing.requested(head), out) {
            self.outstanding = Some(Outstanding::Out(writing));
            return Err(error);
        }
        writing.count_r2t(head);
        self.outstanding = Some(Outstanding::Out(writing));
        Ok(None)
    }

    // The most bytes that the target takes in one segment.
    pub(super) fn most_sent(&self) -> u32
        ensures most { result ≡ self.now.held.target_max_recv }
        ensures some { 0 < result }
        ensures short { result < 2 ^ 24 }
    {
        // Opens the invariant of what is held.
        let _held = self.held.get(NegKey::MaxBurstLength);
        self.held.target_max_recv
    }

    // The head of the first Data-Out that an R2T is answered with.
    fn first_data_out(&self, head: &ReadyToTransfer) -> DataOut
        ensures value { result ≡ record {
          is_final = false;
          lun = then_some (is_tag head.now.target_transfer_tag) head.now.lun;
          initiator_task_tag = self.now.initiator_task_tag;
          target_transfer_tag = head.now.target_transfer_tag;
          exp_stat_sn = sent_exp_stat_sn self.now;
          data_sn = 0;
          buffer_offset = head.now.buffer_offset;
        } }
        ensures fits { HeadFits (heads.DataOut result) }
    {
        DataOut {
            is_final: false,
            lun: (head.target_transfer_tag != RESERVED_TAG).then_some(head.lun),
            initiator_task_tag: self.initiator_task_tag,
            target_transfer_tag: head.target_transfer_tag,
            exp_stat_sn: self.sent_exp_stat_sn(),
            data_sn: 0,
            buffer_offset: head.buffer_offset,
        }
    }
}
