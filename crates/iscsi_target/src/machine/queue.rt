//! Requests that wait their turn as tasks, and the tasks in their turn (RFC 7143, section 4.2.2.1).

ghost use Rattle.std.specs.Prelude.{◌≡◌, ◌⊎◌, ◌<◌, ◌≤◌, [], length, false, IfOk};
ghost use Rattle.scsi_disk.specs.Disk.{Disk};
ghost use Rattle.iscsi_stream.specs.Segment.{is_last_login_pdu, segment_bytes};
ghost use Rattle.iscsi_target_session.specs.Inbound.{IsRequest};
ghost use Rattle.iscsi_target.specs.State.{on, unit_of, waiting_tasks};
ghost use Rattle.iscsi_target.specs.Command.{breaks_rules, task_of, presented, breaks_burst_rules, task_for};
ghost use Rattle.iscsi_target.specs.Machine.{admitted, task_begun};
ghost use Rattle.iscsi_target_session.specs.Requests.{request_answered};
ghost use Rattle.iscsi_target.specs.Crash.{CrashLeavesBlocks, command_of_task, commands_by, commands_of};
ghost use Rattle.iscsi_target.specs.Advances.{store_of};
ghost use Rattle.iscsi_target.specs.inner.Inside.{DisklessPost, TaskPost, TasksPost, NextPost, moment};
ghost use Rattle.iscsi_target.specs.Queue.{TakePlaces};

use super::Machine;
use super::writes::opened;
use crate::queued_request::QueuedRequest;
use crate::tasks::Task;
use iscsi_pdu::ScsiCommand;
use iscsi_target_session::{Asks, InboundRequest, Received, SessionRequest};
use scsi_disk::{BlockStore, Found, Plan};
use std::alloc::{AllocError, Global};

impl Machine {
    // A request that is accepted: it becomes the last task, unless it breaks a rule, and is handled
    // where it lies if it is the first.
    pub(super) fn enqueue<S: BlockStore>(
        &mut self,
        request: &InboundRequest,
        received: &Received<'_>,
        store: &mut S,
        out: &mut Vec<u8>,
    ) -> Result<Option<u8>, AllocError>
        requires is { IsRequest request.now received.now.head }
        requires room { waiting_tasks self.old.tasks ≤ 7 }
        requires turn { self.old.tasks ≡ [] ⊎ (request.now.immediate ≡ false) }
        ensures follows { NextPost S.protected
            (admitted self.old (presented (S.disk store.old).count received.now request.now)) result
            (moment self.old (store_of (S.disk store.old) (S.failures store.old)) out.old.items)
            (moment self.new (store_of (S.disk store.new) (S.failures store.new)) out.new.items) }
        ensures crash { CrashLeavesBlocks S.protected
            (commands_by (admitted self.old (presented (S.disk store.old).count received.now request.now)))
            (S.disk store.old) (S.disk store.new) (S.kept store.old) (S.kept store.new) }
    {
        if let Some(rule) = self.refusal(request, received) {
            return self.reject_and_close(rule, received, out);
        }
        if self.tasks.len() == 0 {
            return self.run_request(request, received, store, out);
        }
        let task = self.task(request, received, store.blocks(), out)?;
        self.tasks.push(task);
        self.run_queue(store, out)
    }

    // The task of a request that has to wait, on a disk of `n` blocks.
    fn task(
        &self,
        request: &InboundRequest,
        received: &Received<'_>,
        blocks: u64,
        out: &Vec<u8>,
    ) -> Result<Task, AllocError>
        requires is { IsRequest request.now received.now.head }
        requires keeps { breaks_rules self.now.session.held
            (length (segment_bytes received.now.segment)) request.now.asks ≡ false }
        ensures { IfOk result (λ task. task
            ≡ task_of (unit_of self.now.session) (presented blocks received.now request.now)) }
    {
        let alloc = *out.allocator();
        match &request.asks {
            Asks::Command(command) => self.command_task(command, received.pdu.bytes, blocks, alloc),
            Asks::Session(asked) => {
                let tag = request.initiator_task_tag;
                Ok(Task::Request(QueuedRequest::copy(alloc, tag, asked, received)?))
            }
        }
    }

    // The task of a command with its immediate data, on a disk of `n` blocks. A WRITE is planned
    // here, and any other command when its turn comes.
    fn command_task(
        &self,
        command: &ScsiCommand,
        bytes: &[u8],
        blocks: u64,
        alloc: Global,
    ) -> Result<Task, AllocError>
        requires keeps { breaks_burst_rules self.now.session.held command.now (length bytes.now)
            ≡ false }
        ensures { IfOk result (λ task. task
            ≡ task_for (unit_of self.now.session) blocks command.now bytes.now) }
    {
        let order = self.order_of(command);
        if order.is_write() {
            let found = Found::of(&order, blocks);
            if let Plan::Take(total) = found.plan(&order) {
                let write = opened(alloc, command, order, found, total, bytes)?;
                return Ok(Task::Data(write));
            }
        }
        Ok(Task::Command {
            initiator_task_tag: command.initiator_task_tag,
            order,
        })
    }

    // Tasks in their turn, up to a write whose data are not all there, or to the end of the session.
    pub(super) fn run_queue<S: BlockStore>(
        &mut self,
        store: &mut S,
        out: &mut Vec<u8>,
    ) -> Result<Option<u8>, AllocError>
        ensures works { TasksPost S.protected result
            (moment self.old (store_of (S.disk store.old) (S.failures store.old)) out.old.items)
            (moment self.new (store_of (S.disk store.new) (S.failures store.new)) out.new.items) }
        ensures crash { CrashLeavesBlocks S.protected (commands_of self.old.tasks)
            (S.disk store.old) (S.disk store.new) (S.kept store.old) (S.kept store.new) }
    {
        while let Some(task) = self.tasks.take_first() {
            let behind = self.tasks.len();
            let broken = self.run_task(task, store, out)?;
            if self.is_closed() || self.tasks.len() > behind {
                return Ok(broken);
            }
        }
        Ok(None)
    }

    // The first task, which was taken from before the others.
    fn run_task<S: BlockStore>(
        &mut self,
        task: Task,
        store: &mut S,
        out: &mut Vec<u8>,
    ) -> Result<Option<u8>, AllocError>
        requires places { TakePlaces self.old.tasks }
        requires room { length self.old.tasks < 9 }
        ensures handles { TaskPost S.protected
            (λ device. task_begun device self.old (S.disk store.old) task) result
            (moment self.old (store_of (S.disk store.old) (S.failures store.old)) out.old.items)
            (moment self.new (store_of (S.disk store.new) (S.failures store.new)) out.new.items) }
        ensures crash { CrashLeavesBlocks S.protected (command_of_task task)
            (S.disk store.old) (S.disk store.new) (S.kept store.old) (S.kept store.new) }
    {
        match task {
            Task::Command {
                initiator_task_tag,
                order,
            } => self.execute_waiting(initiator_task_tag, order, store, out),
            Task::Data(write) => self.continue_write(write, store, out),
            Task::Request(kept) => self.answer_request(kept.request(), &kept.received(), out),
        }
    }

    // A request that is the first task, where it lies.
    fn run_request<S: BlockStore>(
        &mut self,
        request: &InboundRequest,
        received: &Received<'_>,
        store: &mut S,
        out: &mut Vec<u8>,
    ) -> Result<Option<u8>, AllocError>
        requires is { IsRequest request.now received.now.head }
        requires keeps { breaks_rules self.old.session.held
            (length (segment_bytes received.now.segment)) request.now.asks ≡ false }
        requires places { TakePlaces self.old.tasks }
        requires room { length self.old.tasks < 9 }
        ensures handles { TaskPost S.protected
            (λ device. task_begun device self.old (S.disk store.old)
            (task_of (unit_of self.old.session) (presented (S.disk store.old).count received.now request.now)))
            result
            (moment self.old (store_of (S.disk store.old) (S.failures store.old)) out.old.items)
            (moment self.new (store_of (S.disk store.new) (S.failures store.new)) out.new.items) }
        ensures crash { CrashLeavesBlocks S.protected
            (command_of_task (task_of (unit_of self.old.session)
            (presented (S.disk store.old).count received.now request.now)))
            (S.disk store.old) (S.disk store.new) (S.kept store.old) (S.kept store.new) }
    {
        match &request.asks {
            Asks::Command(command) => self.scsi_command(command, received.pdu.bytes, store, out),
            Asks::Session(asked) => self.answer_request(asked, received, out),
        }
    }

    // A request that is no command.
    pub(super) fn answer_request(
        &mut self,
        request: &SessionRequest,
        received: &Received<'_>,
        out: &mut Vec<u8>,
    ) -> Result<Option<u8>, AllocError>
        requires plain { is_last_login_pdu received.now.head ≡ false }
        ensures { (disk : Disk) → DisklessPost (on disk self.old.tasks
            (request_answered self.old.session (waiting_tasks self.old.tasks) received.now
            request.now))
            result self.old self.new out.old.items out.new.items }
    {
        let waiting = self.waiting();
        let result = self.session.answer_request(waiting, request, received, out);
        self.drop_tasks_if_closed();
        result
    }
}
