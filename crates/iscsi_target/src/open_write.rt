//! The write that is open.

ghost use Rattle.std.specs.Prelude.{◌≡◌, ◌<◌, ◌≤◌, ◌^◌, ◌+◌, ◌-◌, ◌==◌, ◌&&◌, if◌then◌else◌, true, false, length, min, IfOk, OnErr, IsTrue};
ghost use Rattle.iscsi_target.specs.inner.Staged.{with_r2t_for};
ghost use Rattle.iscsi_target.specs.Transfer.{bytes_received, is_whole_write, is_nothing_due, is_in_sequence, with_data, joined_write, continued};
ghost use Rattle.iscsi_target.specs.declared.due.Due.TheVariants.{Nothing};

use crate::due::Due;
use iscsi_pdu::{DataOut, RESERVED_TAG};
use scsi_disk::{Found, Order};
use std::alloc::AllocError;
use std::marker::Model;

/// A write whose data are not all there.
#[derive(Drop)]
pub struct OpenWrite {
    /// The command's tag.
    pub initiator_task_tag: u32,
    /// Whether the command was immediate.
    pub immediate: bool,
    /// What the command orders of the disk.
    pub order: Order,
    /// What was found of the order when the write was opened.
    pub found: Found,
    /// How many bytes it takes.
    pub total: u32,
    /// The bytes that came.
    pub data: Vec<u8>,
    /// Which data may come next.
    pub due: Due,
    /// How many R2Ts were sent.
    pub r2t_count: u32,
}

impl Model for OpenWrite {
    ghost use Rattle.std.specs.Prelude.{[], ◌≤◌};
    ghost use Rattle.std.specs.Vec.{vec_capacity};
    ghost use Rattle.iscsi_target.specs.Write.{Write};
    ghost use Rattle.iscsi_target.specs.Transfer.{with_piece};
    ghost use Rattle.iscsi_target.specs.inner.Staged.{IsStaged};

    ghost Value = { Write };

    // The bytes stand as one piece.
    ghost view = { λ w. record {
      initiator_task_tag = w.initiator_task_tag;
      immediate = w.immediate;
      order = w.order;
      total = w.total;
      pieces = with_piece [] 0 w.data.items;
      due = w.due;
      r2t_count = w.r2t_count;
    } };

    // There is room for all bytes.
    ghost invariant = { λ w. IsStaged w.order w.found w.total w.data.items w.due w.r2t_count
        × (w.total ≤ vec_capacity w.data) };
}

impl OpenWrite {
    /// How many bytes came.
    #[tactic(auto, using(crate::proofs::Writes::OpenWriteLemmas::data_of_one))]
    pub fn received(&self) -> u32
        ensures value { result ≡ bytes_received self.now }
        ensures fits { bytes_received self.now ≤ self.now.total }
    {
        // Opens the invariant.
        let _total = self.total;
        self.data.len() as u32
    }

    /// Whether all bytes came.
    pub fn is_whole(&self) -> bool
        ensures { result ≡ is_whole_write self.now }
    {
        self.total == self.received()
    }

    /// Whether nothing is due: an R2T is sent next, or all bytes are there.
    pub fn is_idle(&self) -> bool
        ensures { result ≡ is_nothing_due self.now.due }
    {
        matches!(self.due, Due::Nothing)
    }

    /// How many bytes the next R2T asks for: a burst, or the rest.
    pub fn desired(&self, burst: u32) -> u32
        ensures { result ≡ min (self.now.total - bytes_received self.now) burst }
    {
        (self.total - self.received()).min(burst)
    }

    /// An R2T for `n` bytes was sent: its sequence is due.
    pub fn await_sequence(&mut self, desired: u32)
        requires idle { is_nothing_due self.old.due ≡ true }
        requires some { 0 < desired }
        requires fits { bytes_received self.old + desired ≤ self.old.total }
        ensures { self.new ≡ with_r2t_for desired self.old }
    {
        self.due = Due::Solicited {
            target_transfer_tag: self.r2t_count,
            data_sn: 0,
            end: self.received() + desired,
        };
        self.r2t_count += 1;
    }

    /// Takes the bytes of a Data-Out, where it is due; `n` bytes may come unasked. Where memory
    /// runs out it is as it was.
    pub fn take(
        &mut self,
        first_burst: u32,
        head: &DataOut,
        bytes: &[u8],
    ) -> Result<bool, AllocError>
        requires { length bytes.now < 2 ^ 24 }
        ensures due { IfOk result (λ taken. taken ≡ is_in_sequence first_burst self.old head.now
            (bytes_received self.old + length bytes.now) self.old.due) }
        ensures taken { IfOk result (λ taken. IsTrue taken
            → self.new ≡ joined_write (with_data self.old head.now bytes.now)) }
        ensures refused { IfOk result (λ taken. taken ≡ false → self.new ≡ self.old) }
        ensures err { OnErr result (self.new ≡ self.old) }
    {
        let reached = u64::from(self.received()) + bytes.len() as u64;
        if !self.is_in_sequence(first_burst, head, reached) {
            return Ok(false);
        }
        self.data.extend_from_slice(bytes)?;
        self.due = due_after(self.due, head);
        Ok(true)
    }

    /// Whether a Data-Out with `n` bytes is due; `first_burst` bytes may come unasked.
    pub fn is_due(&self, first_burst: u32, head: &DataOut, len: u32) -> bool
        ensures { result ≡ is_in_sequence first_burst self.now head.now
            (bytes_received self.now + len)
            self.now.due }
    {
        let reached = u64::from(self.received()) + u64::from(len);
        self.is_in_sequence(first_burst, head, reached)
    }

    // Whether the Data-Out, with which `n` bytes have come, is one of the sequence that is due.
    fn is_in_sequence(&self, first_burst: u32, head: &DataOut, reached: u64) -> bool
        ensures { result ≡ is_in_sequence first_burst self.now head.now reached self.now.due }
    {
        match self.due {
            Due::Nothing => false,
            Due::Unsolicited { data_sn } => {
                let end = u64::from(self.total.min(first_burst));
                self.is_next(head, data_sn)
                    && head.target_transfer_tag == RESERVED_TAG
                    && (reached < end || reached == end && head.is_final)
            }
            Due::Solicited {
                target_transfer_tag,
                data_sn,
                end,
            } => {
                let end = u64::from(end);
                self.is_next(head, data_sn)
                    && head.target_transfer_tag == target_transfer_tag
                    && (reached < end && !head.is_final || reached == end && head.is_final)
            }
        }
    }

    // Whether the Data-Out has this number, and goes on where the bytes end.
    fn is_next(&self, head: &DataOut, data_sn: u32) -> bool
        ensures { result ≡ (head.now.data_sn == data_sn
            && head.now.buffer_offset == bytes_received self.now) }
    {
        head.data_sn == data_sn && head.buffer_offset == self.received()
    }
}

/// What is due after a Data-Out that was due.
pub fn due_after(due: Due, head: &DataOut) -> Due
    ensures { result ≡ (if head.now.is_final then Nothing else continued due) }
{
    if head.is_final {
        Due::Nothing
    } else {
        continued(due)
    }
}

// What is due after a Data-Out that isn't the last of its sequence.
fn continued(due: Due) -> Due
    ensures { result ≡ continued due }
{
    match due {
        Due::Nothing => Due::Nothing,
        Due::Unsolicited { data_sn } => Due::Unsolicited {
            data_sn: data_sn.wrapping_add(1),
        },
        Due::Solicited {
            target_transfer_tag,
            data_sn,
            end,
        } => Due::Solicited {
            target_transfer_tag,
            data_sn: data_sn.wrapping_add(1),
            end,
        },
    }
}
