//! The data of a read (RFC 7143, section 11.7).

ghost use Rattle.std.specs.Prelude.{◌≡◌, None, Some};
ghost use Rattle.iscsi_initiator.specs.Full.{due_to, takes, read_outcome, on_data};
ghost use Rattle.iscsi_initiator.specs.declared.outstanding.Outstanding.TheVariants as opens;
ghost use Rattle.iscsi_initiator.specs.declared.target_pdu.Answer.TheVariants as answers;
ghost use Rattle.iscsi_initiator.specs.inner.Inside.{SessionStepPost, CountedStepPost, with_outstanding, data_received, received_by};

use super::Session;
use super::responses::residual;
use crate::fault::InitiatorFault;
use crate::outstanding::{Outstanding, Reading};
use crate::request::Done;
use crate::target_pdu::Counters;
use iscsi_pdu::DataIn;
use iscsi_pdu::rule::{DATA_OUT_OF_ORDER, KIND_NOT_DUE};
use scsi_cdb::Bytes;
use std::alloc::{AllocError, Global};

impl Session {
    // Data of a read; with a status they complete it.
    pub(super) fn on_data(
        &mut self,
        head: &DataIn,
        counters: Counters,
        bytes: &[u8],
        out: &mut Vec<u8>,
    ) -> Result<Option<InitiatorFault>, AllocError>
        ensures { CountedStepPost (takes
            (due_to self.old.outstanding (answers.Data head.now)) counters self.old bytes.now)
            result self.old self.new out.old.items out.new.items }
    {
        let Some(Outstanding::In(_)) = &self.outstanding else {
            return Ok(self.protocol_error(KIND_NOT_DUE));
        };
        let fault = self.admit(bytes, counters);
        if fault.is_some() {
            return Ok(fault);
        }
        self.receive(head, bytes, out)
    }

    // Data whose numbers are counted.
    fn receive(
        &mut self,
        head: &DataIn,
        bytes: &[u8],
        out: &mut Vec<u8>,
    ) -> Result<Option<InitiatorFault>, AllocError>
        ensures { SessionStepPost (data_received self.old.outstanding self.old head.now bytes.now)
            result self.old self.new out.old.items out.new.items }
    {
        match self.outstanding.take() {
            Some(Outstanding::In(reading)) => self.receive_for(reading, head, bytes, out),
            other => {
                self.outstanding = other;
                Ok(self.protocol_error(KIND_NOT_DUE))
            }
        }
    }

    // The same for this read, which was taken out of the session.
    fn receive_for(
        &mut self,
        mut reading: Reading,
        head: &DataIn,
        bytes: &[u8],
        out: &mut Vec<u8>,
    ) -> Result<Option<InitiatorFault>, AllocError>
        ensures { SessionStepPost
            (on_data (with_outstanding self.old (opens.In reading)) reading head.now bytes.now)
            result (with_outstanding self.old (opens.In reading)) self.new
            out.old.items out.new.items }
    {
        if !reading.fits(head, bytes) {
            self.outstanding = Some(Outstanding::In(reading));
            return Ok(self.protocol_error(DATA_OUT_OF_ORDER));
        }
        if let Err(error) = reading.receive(bytes) {
            self.outstanding = Some(Outstanding::In(reading));
            return Err(error);
        }
        self.outstanding = Some(Outstanding::In(reading));
        if !head.has_status {
            return Ok(None);
        }
        self.complete_read(head, *out.allocator());
        Ok(None)
    }

    // A field without a value counts as 0.
    fn complete_read(&mut self, head: &DataIn, alloc: Global)
        ensures { self.new ≡ record self.old {
          outstanding = None;
          done = Some (read_outcome (received_by self.old.outstanding) head.now);
        } }
    {
        let residual = residual(
            head.overflow.unwrap_or(false),
            head.underflow.unwrap_or(false),
            head.residual.unwrap_or(0),
        );
        let bytes = self.take_received(alloc);
        self.complete(Done::Command {
            response: 0,
            status: head.status.unwrap_or(0),
            sense: Bytes::from_vec(Vec::new(alloc)),
            bytes,
            residual,
        });
    }
}
