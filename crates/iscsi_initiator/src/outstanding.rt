//! The outstanding request.

ghost use Rattle.std.specs.Prelude.{◌≡◌, ◌≤◌, ◌+◌, ◌++◌, length, take, drop, OnOk, OnErr};
ghost use Rattle.iscsi_text.specs.declared.negotiated.NegKey.TheVariants.{MaxBurstLength};
ghost use Rattle.iscsi_login.specs.Held.{held_value, number_of};
ghost use Rattle.iscsi_initiator.specs.State.{InitiatorSession};
ghost use Rattle.iscsi_pdu.specs.Serial.{next_sn};
ghost use Rattle.iscsi_initiator.specs.Full.{fits_reading, fits_writing};

use iscsi_pdu::{DataIn, ReadyToTransfer};
use std::alloc::AllocError;
use std::marker::Model;

/// The most bytes that one command moves.
pub(crate) const MOST_BYTES: usize = 4_194_304;

/// How far a command that may read is.
#[derive(Drop)]
pub(crate) struct Reading {
    /// Expected Data Transfer Length, bytes (RFC 7143, section 11.3.4).
    pub(crate) expected: u32,
    /// The bytes received so far.
    pub(crate) received: Vec<u8>,
    /// The DataSN that comes next.
    pub(crate) next_data_sn: u32,
}

impl Model for Reading {
    ghost use Rattle.iscsi_initiator.specs.Progress.{ReadProgress as Progress};

    ghost Value = { Progress };

    ghost view = { λ r. record {
      expected = r.expected;
      received = r.received.items;
      next_data_sn = r.next_data_sn;
    } };
}

impl Reading {
    /// Whether data have the next DataSN and the next offset, and are no more than expected.
    pub(crate) fn fits(&self, head: &DataIn, bytes: &[u8]) -> bool
        ensures { result ≡ fits_reading self.now head.now bytes.now }
    {
        let reached = self.received.len().saturating_add(bytes.len());
        head.data_sn == self.next_data_sn
            && head.buffer_offset as usize == self.received.len()
            && reached <= self.expected as usize
    }

    /// Takes these data. Where memory runs out it is as it was.
    pub(crate) fn receive(&mut self, bytes: &[u8]) -> Result<(), AllocError>
        ensures ok { OnOk result (self.new ≡ record self.old {
          received = self.old.received ++ bytes.now;
          next_data_sn = next_sn self.old.next_data_sn;
        }) }
        ensures err { OnErr result (self.new ≡ self.old) }
    {
        self.received.extend_from_slice(bytes)?;
        self.next_data_sn = self.next_data_sn.wrapping_add(1);
        Ok(())
    }
}

/// How far a command that may write is.
#[derive(Drop)]
pub(crate) struct Writing {
    /// The data.
    pub(crate) bytes: Vec<u8>,
    /// How many of them are sent.
    pub(crate) sent: usize,
    /// The R2TSN that comes next.
    pub(crate) next_r2t_sn: u32,
}

impl Model for Writing {
    ghost use Rattle.std.specs.Prelude.{◌≤◌, length};
    ghost use Rattle.iscsi_initiator.specs.Progress.{WriteProgress as Progress};

    ghost Value = { Progress };

    ghost view = { λ w. record {
      bytes = w.bytes.items;
      sent = w.sent;
      next_r2t_sn = w.next_r2t_sn;
    } };

    ghost invariant = { λ w. length w.bytes.items ≤ 4194304 };
}

impl Writing {
    /// Whether an R2T has the next R2TSN and the next offset, and asks for 1 to `most_burst` bytes,
    /// all of them within the data.
    pub(crate) fn fits(&self, head: &ReadyToTransfer, most_burst: u32) -> bool
        ensures { (m : InitiatorSession) → number_of (held_value m.held MaxBurstLength) ≡ most_burst
            → result ≡ fits_writing m self.now head.now }
    {
        let desired = head.desired_data_transfer_length;
        head.r2t_sn == self.next_r2t_sn
            && head.buffer_offset as usize == self.sent
            && desired >= 1
            && desired <= most_burst
            && self.sent.saturating_add(desired as usize) <= self.bytes.len()
    }

    /// The bytes that an R2T requests.
    pub(crate) fn requested(&self, head: &ReadyToTransfer) -> &[u8]
        requires { self.now.sent + head.now.desired_data_transfer_length ≤ length self.now.bytes }
        ensures bytes { result.now ≡ take head.now.desired_data_transfer_length
            (drop self.now.sent self.now.bytes) }
        ensures most { self.now.sent + length result.now ≤ 4194304 }
    {
        let end = self.sent + head.desired_data_transfer_length as usize;
        &self.bytes[self.sent..end]
    }

    /// The bytes that an R2T requested are sent.
    pub(crate) fn count_r2t(&mut self, head: &ReadyToTransfer)
        requires { self.old.sent + head.now.desired_data_transfer_length ≤ length self.old.bytes }
        ensures { self.new ≡ record self.old {
          sent = self.old.sent + head.now.desired_data_transfer_length;
          next_r2t_sn = next_sn self.old.next_r2t_sn;
        } }
    {
        self.sent += head.desired_data_transfer_length as usize;
        self.next_r2t_sn = self.next_r2t_sn.wrapping_add(1);
    }
}

/// The outstanding request, and what came of it so far.
#[derive(Drop)]
pub(crate) enum Outstanding {
    /// A command that may read.
    In(Reading),
    /// A command that may write.
    Out(Writing),
    /// A ping.
    Ping,
    /// A text.
    Text,
    /// A logout.
    Logout,
}
