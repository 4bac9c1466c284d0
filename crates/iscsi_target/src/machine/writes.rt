//! Writes, and the data that they take (RFC 7143, sections 11.3, 11.7 and 11.8).

ghost use Rattle.std.specs.Prelude.{◌≡◌, [], ◌∷◌, ◌<◌, ◌≤◌, ◌^◌, ℕ, length, IfOk, true, false};
ghost use Rattle.scsi_disk.specs.Disk.{Disk};
ghost use Rattle.scsi_disk.specs.Plan.{plan_of, is_write, taken_length};
ghost use Rattle.scsi_disk.specs.Found.{IsFound};
ghost use Rattle.iscsi_pdu.specs.Meaning.{HeadFits};
ghost use Rattle.iscsi_stream.specs.Pieces.{piece_data};
ghost use Rattle.iscsi_target.specs.State.{unit_of, waiting_tasks};
ghost use Rattle.iscsi_target.specs.Execution.{execute};
ghost use Rattle.iscsi_target.specs.Transfer.{is_whole_write, is_nothing_due, desired, with_piece};
ghost use Rattle.iscsi_target.specs.Command.{order_of, r2t_head, led_by, send_r2t, proceed, write_opened};
ghost use Rattle.iscsi_target.specs.Machine.{on_data_out};
ghost use Rattle.iscsi_target.specs.Crash.{CrashLeavesBlocks, commands_by};
ghost use Rattle.iscsi_target.specs.Advances.{store_of};
ghost use Rattle.iscsi_target.specs.inner.Inside.{DisklessPost, TaskPost, NextPost, moment};
ghost use Rattle.iscsi_target.specs.Queue.{TakePlaces};

use super::Machine;
use crate::due::Due;
use crate::open_write::OpenWrite;
use crate::scsi_response::{append_response, response_head};
use iscsi_pdu::rule::DATA_OUT_OF_ORDER;
use iscsi_pdu::{DataOut, Head, ReadyToTransfer, ScsiCommand};
use iscsi_stream::write_pdu;
use iscsi_target_session::Received;
use scsi_disk::{BlockStore, Found, Order, Plan, execute_found};
use std::alloc::{AllocError, Global};

/// The most that a response takes: a header, the sense data behind their length, padding.
const RESPONSE_LEN: usize = 71;

impl Machine {
    // Opens a write of `n` bytes, of which this was found, with its immediate data.
    pub(super) fn open<S: BlockStore>(
        &mut self,
        command: &ScsiCommand,
        found: Found,
        total: u32,
        bytes: &[u8],
        store: &mut S,
        out: &mut Vec<u8>,
    ) -> Result<Option<u8>, AllocError>
        requires plan { plan_of (order_of (unit_of self.old.session) command.now)
            (S.disk store.old).count ≡ Plan.Take total }
        requires found { IsFound (order_of (unit_of self.old.session) command.now) found }
        requires fits { length bytes.now ≤ total }
        requires places { TakePlaces self.old.tasks }
        requires room { length self.old.tasks < 9 }
        ensures handles { TaskPost S.protected (λ device. proceed device self.old (S.disk store.old)
            (write_opened command.now (order_of (unit_of self.old.session) command.now) total
            bytes.now)) result
            (moment self.old (store_of (S.disk store.old) (S.failures store.old)) out.old.items)
            (moment self.new (store_of (S.disk store.new) (S.failures store.new)) out.new.items) }
        ensures crash { CrashLeavesBlocks S.protected
            ((order_of (unit_of self.old.session) command.now, bytes.now) ∷ [])
            (S.disk store.old) (S.disk store.new) (S.kept store.old) (S.kept store.new) }
    {
        let order = self.order_of(command);
        // Where all the data came with the command, they are written from where they lie.
        if bytes.len() == total as usize {
            let tag = command.initiator_task_tag;
            let mut found = found;
            return self.execute_write(tag, &order, &mut found, bytes, store, out);
        }
        let write = opened(*out.allocator(), command, order, found, total, bytes)?;
        self.continue_write(write, store, out)
    }

    // A write that is the first task, before the others: it is executed when all its bytes are
    // there, else an R2T is sent where no sequence is due.
    pub(super) fn continue_write<S: BlockStore>(
        &mut self,
        write: OpenWrite,
        store: &mut S,
        out: &mut Vec<u8>,
    ) -> Result<Option<u8>, AllocError>
        requires places { TakePlaces self.old.tasks }
        requires room { length self.old.tasks < 9 }
        ensures handles { TaskPost S.protected
            (λ device. proceed device self.old (S.disk store.old) write) result
            (moment self.old (store_of (S.disk store.old) (S.failures store.old)) out.old.items)
            (moment self.new (store_of (S.disk store.new) (S.failures store.new)) out.new.items) }
        ensures crash { CrashLeavesBlocks S.protected ((write.order, piece_data write.pieces) ∷ [])
            (S.disk store.old) (S.disk store.new) (S.kept store.old) (S.kept store.new) }
    {
        let mut write = write;
        if write.is_whole() {
            return self.execute_write(
                write.initiator_task_tag,
                &write.order,
                &mut write.found,
                &write.data,
                store,
                out,
            );
        }
        if write.is_idle() {
            return self.send_r2t(write, out);
        }
        self.tasks.push_first(write);
        Ok(None)
    }

    // Executes a write whose bytes are all there, from what was found when it was opened, and sends
    // its response. The room for the response is there before a block changes, so that a call that
    // is out of memory changes none.
    fn execute_write<S: BlockStore>(
        &mut self,
        tag: u32,
        order: &Order,
        found: &mut Found,
        bytes: &[u8],
        store: &mut S,
        out: &mut Vec<u8>,
    ) -> Result<Option<u8>, AllocError>
        requires write { is_write order.now.cdb ≡ true }
        requires whole { length bytes.now ≡ taken_length order.now }
        requires found { IsFound order.now found.old }
        ensures handles { TaskPost S.protected (λ device. execute device self.old (S.disk store.old)
            tag order.now (with_piece [] 0 bytes.now)) result
            (moment self.old (store_of (S.disk store.old) (S.failures store.old)) out.old.items)
            (moment self.new (store_of (S.disk store.new) (S.failures store.new)) out.new.items) }
        ensures crash { CrashLeavesBlocks S.protected ((order.now, bytes.now) ∷ [])
            (S.disk store.old) (S.disk store.new) (S.kept store.old) (S.kept store.new) }
    {
        out.reserve(RESPONSE_LEN)?;
        found.renew(order, store.blocks());
        let outcome = execute_found(*out.allocator(), order, found, bytes, store)?;
        let head = response_head(self.numbers(), tag, &outcome, 0);
        let Ok(()) = append_response(&head, outcome.sense, out) else {
            unreachable!()
        };
        self.advance_stat_sn();
        Ok(None)
    }

    // Sends an R2T for the next bytes of a write (RFC 7143, section 11.8).
    fn send_r2t(&mut self, write: OpenWrite, out: &mut Vec<u8>) -> Result<Option<u8>, AllocError>
        requires whole { is_whole_write write ≡ false }
        requires idle { is_nothing_due write.due ≡ true }
        requires places { TakePlaces self.old.tasks }
        requires room { length self.old.tasks < 9 }
        ensures { (disk : Disk) → DisklessPost (send_r2t self.old disk write)
            result self.old self.new out.old.items out.new.items }
    {
        let mut write = write;
        let desired = write.desired(self.max_burst());
        let head = self.r2t_head(&write, desired);
        write_pdu(&head, &[], out)?;
        // Its contract says that the bytes fit the transfer.
        let _received = write.received();
        write.await_sequence(desired);
        self.tasks.push_first(write);
        Ok(None)
    }

    // The head of the next R2T of a write, for `len` bytes.
    fn r2t_head(&self, write: &OpenWrite, len: u32) -> Head
        requires { len ≡ desired self.now.session.held write.now }
        ensures head { result ≡ r2t_head self.now.session (waiting_tasks (led_by write.now self.now).tasks) write.now }
        ensures fits { HeadFits result }
    {
        let numbers = self
            .session
            .numbers(self.waiting() + u32::from(!write.immediate));
        Head::ReadyToTransfer(ReadyToTransfer {
            lun: write.order.lun,
            initiator_task_tag: write.initiator_task_tag,
            target_transfer_tag: write.r2t_count,
            stat_sn: numbers.stat_sn,
            exp_cmd_sn: numbers.exp_cmd_sn,
            max_cmd_sn: numbers.max_cmd_sn,
            r2t_sn: write.r2t_count,
            buffer_offset: write.received(),
            desired_data_transfer_length: len,
        })
    }

    // A Data-Out, which the write with its tag takes; without one it is dropped. Then tasks are done
    // in their turn. Returns the rule that is broken, if one is.
    pub(super) fn data_out<S: BlockStore>(
        &mut self,
        head: &DataOut,
        bytes: &[u8],
        received: &Received<'_>,
        store: &mut S,
        out: &mut Vec<u8>,
    ) -> Result<Option<u8>, AllocError>
        requires { length bytes.now < 2 ^ 24 }
        ensures follows { NextPost S.protected
            (on_data_out self.old received.now head.now bytes.now) result
            (moment self.old (store_of (S.disk store.old) (S.failures store.old)) out.old.items)
            (moment self.new (store_of (S.disk store.new) (S.failures store.new)) out.new.items) }
        ensures crash { CrashLeavesBlocks S.protected (commands_by
            (on_data_out self.old received.now head.now bytes.now))
            (S.disk store.old) (S.disk store.new) (S.kept store.old) (S.kept store.new) }
    {
        let Some((place, write)) = self.tasks.take_write(head.initiator_task_tag) else {
            return Ok(None);
        };
        let mut write = write;
        let is_due = write.take(self.first_burst(), head, bytes)?;
        self.tasks.put_write(place, write);
        if !is_due {
            return self.reject_and_close(DATA_OUT_OF_ORDER, received, out);
        }
        self.run_queue(store, out)
    }
}

// The write of `n` bytes that a command with this order opens with its immediate data, and the room
// for all of them.
pub(super) fn opened(
    alloc: Global,
    command: &ScsiCommand,
    order: Order,
    found: Found,
    total: u32,
    bytes: &[u8],
) -> Result<OpenWrite, AllocError>
    requires plan { (count : ℕ) × (plan_of order count ≡ Plan.Take total) }
    requires found { IsFound order found }
    requires fits { length bytes.now ≤ total }
    ensures { IfOk result (λ write. write ≡ write_opened command.now order total bytes.now) }
{
    let mut data = Vec::with_capacity(alloc, total as usize)?;
    data.extend_from_slice(bytes)?;
    Ok(OpenWrite {
        initiator_task_tag: command.initiator_task_tag,
        immediate: command.immediate,
        order,
        found,
        total,
        data,
        due: if command.is_final {
            Due::Nothing
        } else {
            Due::Unsolicited { data_sn: 0 }
        },
        r2t_count: 0,
    })
}
