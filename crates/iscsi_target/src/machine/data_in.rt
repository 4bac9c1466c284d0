//! The data that commands return (RFC 7143, section 11.7).

ghost use Rattle.std.specs.Prelude.{◌≡◌, ◌<◌, ◌≤◌, ◌-◌, ◌^◌, IfOk};
ghost use Rattle.iscsi_pdu.specs.Meaning.{HeadFits};
ghost use Rattle.iscsi_login.specs.Held.{max_burst};
ghost use Rattle.iscsi_target_session.specs.Session.{data_in_length};
ghost use Rattle.iscsi_target.specs.State.{waiting_tasks};
ghost use Rattle.iscsi_target.specs.Execution.{data_in_head};
ghost use Rattle.iscsi_target.specs.Advances.{store_of};
ghost use Rattle.iscsi_target.specs.inner.Reads.{CanBeCut, HasPart, ReadsOnto, SendsData, SendsSequence, given_by_source, reply, source_len};

use super::Machine;
use super::source::Source;
use iscsi_pdu::{DataIn, HEADER_LEN, Head, RESERVED_TAG};
use scsi_disk::{BlockStore, StoreFault};

impl Machine {
    // Data in sequences of MaxBurstLength bytes. Returns how many Data-In PDUs were sent.
    pub(super) fn send_data_in<S: BlockStore>(
        &self,
        tag: u32,
        source: &Source<'_>,
        store: &mut S,
        out: &mut Vec<u8>,
    ) -> Result<u32, StoreFault>
        requires segment { CanBeCut source.now (data_in_length self.now.session) }
        requires burst { CanBeCut source.now (max_burst self.now.session.held) }
        requires has { HasPart source.now (S.disk store.old).count 0 (source_len source.now) }
        requires short { source_len source.now < 2 ^ 32 }
        ensures ok { IfOk result (SendsData (reply self.now tag out.old.items out.new.items)
            (given_by_source source.now (S.disk store.old) (S.failures store.old)
            (S.failures store.new))) }
        ensures reads { ReadsOnto (store_of (S.disk store.old) (S.failures store.old))
            (store_of (S.disk store.new) (S.failures store.new))
            (S.kept store.old) (S.kept store.new) out.old.items out.new.items result }
    {
        let total = source.len();
        let burst = self.max_burst();
        out.reserve(self.room_for(total))?;
        let mut sent = Sent { count: 0, bytes: 0 };
        while sent.bytes < total {
            let end = sent.bytes + burst.min(total - sent.bytes);
            sent = self.send_sequence(tag, source, sent, end, store, out)?;
        }
        Ok(sent.count)
    }

    // The data up to an end as one sequence, in parts as long as a Data-In may be.
    fn send_sequence<S: BlockStore>(
        &self,
        tag: u32,
        source: &Source<'_>,
        before: Sent,
        end: u32,
        store: &mut S,
        out: &mut Vec<u8>,
    ) -> Result<Sent, StoreFault>
        requires segment { CanBeCut source.now (data_in_length self.now.session) }
        requires within { before.bytes ≤ end }
        requires has { HasPart source.now (S.disk store.old).count before.bytes
            (end - before.bytes) }
        requires count { before.count ≤ before.bytes }
        ensures most { 0 < data_in_length self.now.session }
        ensures ok { IfOk result (λ sent. SendsSequence
            (reply self.now tag out.old.items out.new.items)
            (given_by_source source.now (S.disk store.old) (S.failures store.old)
            (S.failures store.new))
            before sent end) }
        ensures reads { ReadsOnto (store_of (S.disk store.old) (S.failures store.old))
            (store_of (S.disk store.new) (S.failures store.new))
            (S.kept store.old) (S.kept store.new) out.old.items out.new.items result }
    {
        let most = self.max_segment();
        let mut sent = before;
        while sent.bytes < end {
            let len = most.min(end - sent.bytes);
            let head = self.data_in(tag, sent, sent.bytes + len == end);
            source.append_part(&head, sent.bytes, len, store, out)?;
            sent = Sent {
                count: sent.count + 1,
                bytes: sent.bytes + len,
            };
        }
        Ok(sent)
    }

    // At least the length of `n` bytes in Data-In PDUs, and of a response.
    fn room_for(&self, bytes: u32) -> usize {
        let segments = bytes / self.max_segment();
        let sequences = bytes / self.max_burst();
        bytes as usize + HEADER_LEN * (segments as usize + sequences as usize + 2)
    }

    // The head of a Data-In behind others.
    pub(super) fn data_in(&self, tag: u32, sent: Sent, is_final: bool) -> Head
        ensures head { result ≡ data_in_head self.now.session (waiting_tasks self.now.tasks) tag sent.count sent.bytes is_final }
        ensures fits { HeadFits result }
    {
        let numbers = self.numbers();
        Head::DataIn(DataIn {
            is_final,
            acknowledge: false,
            overflow: None,
            underflow: None,
            has_status: false,
            status: None,
            lun: None,
            initiator_task_tag: tag,
            target_transfer_tag: RESERVED_TAG,
            stat_sn: None,
            exp_cmd_sn: numbers.exp_cmd_sn,
            max_cmd_sn: numbers.max_cmd_sn,
            data_sn: sent.count,
            buffer_offset: sent.bytes,
            residual: None,
        })
    }
}

// The Data-In PDUs of a command that were sent.
#[derive(Clone, Copy)]
pub(super) struct Sent {
    // How many.
    pub(super) count: u32,
    // How many bytes they carried.
    pub(super) bytes: u32,
}
