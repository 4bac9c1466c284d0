//! Dispatch of a PDU by phase, by what its checks find and by kind (RFC 7143, sections 4.2 and 11).

ghost use Rattle.std.specs.Prelude.{◌≡◌, false};
ghost use Rattle.scsi_disk.specs.Disk.{Disk};
ghost use Rattle.iscsi_target_session.specs.Inbound.{IsRequest};
ghost use Rattle.iscsi_target.specs.State.{on, waiting_tasks};
ghost use Rattle.iscsi_target_session.specs.Login.{target_login_step};
ghost use Rattle.iscsi_target.specs.Machine.{advanced, beside, has_task_room, full_met, is_machine_closed, is_meant, is_over_limit};
ghost use Rattle.iscsi_target_session.specs.Requests.{on_task_request};
ghost use Rattle.iscsi_target.specs.Crash.{CrashLeavesBlocks, commands_at, commands_by};
ghost use Rattle.iscsi_target.specs.Advances.{store_of};
ghost use Rattle.iscsi_target.specs.inner.Inside.{DisklessPost, NextPost, MessagePost, moment};

use super::Machine;
use crate::admission::Admission;
use iscsi_login::Phase;
use iscsi_pdu::TaskRequest;
use iscsi_pdu::rule::TOO_MANY_IMMEDIATE;
use iscsi_target_session::{Asks, InboundRequest, Received, SessionRequest};
use scsi_disk::BlockStore;
use std::alloc::AllocError;

impl Machine {
    /// Answers a PDU. Returns the rule that it broke, if it broke one. Where memory runs out, the
    /// tasks before the one at which it did were handled, that one wrote nothing and changed no
    /// block, and the session is to be closed.
    pub fn answer_pdu<S: BlockStore>(
        &mut self,
        received: &Received<'_>,
        store: &mut S,
        out: &mut Vec<u8>,
    ) -> Result<Option<u8>, AllocError>
        requires within { is_over_limit self.old received.now.segment ≡ false }
        requires live { is_machine_closed self.old ≡ false }
        ensures answers { MessagePost S.protected received.now result
            (moment self.old (store_of (S.disk store.old) (S.failures store.old)) out.old.items)
            (moment self.new (store_of (S.disk store.new) (S.failures store.new)) out.new.items) }
        ensures crash { CrashLeavesBlocks S.protected (commands_at self.old
            (S.disk store.old).count received.now)
            (S.disk store.old) (S.disk store.new) (S.kept store.old) (S.kept store.new) }
    {
        match self.phase() {
            Phase::Login => self.log_in(received, out),
            Phase::Full => self.answer_full_phase(received, store, out),
            Phase::Closed => Ok(None),
        }
    }

    // A PDU before full feature phase.
    fn log_in(
        &mut self,
        received: &Received<'_>,
        out: &mut Vec<u8>,
    ) -> Result<Option<u8>, AllocError>
        ensures { (disk : Disk) → DisklessPost (on disk self.old.tasks
            (target_login_step self.old.session received.now)) result
            self.old self.new out.old.items out.new.items }
    {
        let result = self.session.log_in(received, out);
        self.drop_tasks_if_closed();
        result
    }

    // A PDU in full feature phase, by what its checks find.
    fn answer_full_phase<S: BlockStore>(
        &mut self,
        received: &Received<'_>,
        store: &mut S,
        out: &mut Vec<u8>,
    ) -> Result<Option<u8>, AllocError>
        ensures follows { NextPost S.protected
            (full_met self.old (S.disk store.old).count received.now).next result
            (moment self.old (store_of (S.disk store.old) (S.failures store.old)) out.old.items)
            (moment self.new (store_of (S.disk store.new) (S.failures store.new)) out.new.items) }
        ensures crash { CrashLeavesBlocks S.protected
            (commands_by (full_met self.old (S.disk store.old).count received.now).next)
            (S.disk store.old) (S.disk store.new) (S.kept store.old) (S.kept store.new) }
    {
        match self.check(received) {
            Admission::Outside => Ok(None),
            Admission::Breaks(rule) => self.reject_and_close(rule, received, out),
            Admission::Beside(request) => self.answer_beside(&request, received, out),
            Admission::Data(head) => self.data_out(&head, received.pdu.bytes, received, store, out),
            Admission::AtOnce(request) => self.enqueue(&request, received, store, out),
            Admission::InTurn(request) => {
                self.take_cmd_sn();
                self.enqueue(&request, received, store, out)
            }
        }
    }

    // An immediate request beside tasks: where the disk tells more than the profile has there is room
    // for a ping and for task management.
    fn answer_beside(
        &mut self,
        request: &InboundRequest,
        received: &Received<'_>,
        out: &mut Vec<u8>,
    ) -> Result<Option<u8>, AllocError>
        requires { IsRequest request.now received.now.head }
        ensures { (disk : Disk) → DisklessPost (on disk self.old.tasks
            (beside self.old received.now request.now)) result
            self.old self.new out.old.items out.new.items }
    {
        if !self.has_room(request.initiator_task_tag) {
            return self.reject(TOO_MANY_IMMEDIATE, received, out);
        }
        let Asks::Session(asked) = &request.asks else {
            return self.reject(TOO_MANY_IMMEDIATE, received, out);
        };
        match asked {
            SessionRequest::Ping(_) => self.answer_request(asked, received, out),
            SessionRequest::Task(head) => self.manage_tasks(head, out),
            SessionRequest::Text(_) | SessionRequest::Logout(_) => {
                self.reject(TOO_MANY_IMMEDIATE, received, out)
            }
        }
    }

    // Whether there is room beside the tasks for a request with this tag.
    fn has_room(&self, initiator_task_tag: Option<u32>) -> bool
        ensures { result ≡ has_task_room self.now initiator_task_tag }
    {
        self.session.has_unit() && !self.has_tag(initiator_task_tag)
    }

    // A task management request beside tasks.
    fn manage_tasks(
        &mut self,
        request: &TaskRequest,
        out: &mut Vec<u8>,
    ) -> Result<Option<u8>, AllocError>
        ensures { (disk : Disk) → DisklessPost
            (on disk self.old.tasks (on_task_request self.old.session
            (waiting_tasks self.old.tasks) (is_meant self.old.tasks request.now) request.now))
            result
            self.old self.new out.old.items out.new.items }
    {
        let is_open = self.is_meant(request);
        let waiting = self.waiting();
        let result = self.session.task_request(waiting, is_open, request, out);
        self.drop_tasks_if_closed();
        result
    }

    // Whether a task that the function means is open.
    fn is_meant(&self, request: &TaskRequest) -> bool
        ensures { result ≡ is_meant self.now.tasks request.now }
    {
        if request.function == 1 {
            self.tasks.has_tag(request.referenced_task_tag)
        } else {
            self.tasks.len() > 0
        }
    }

    // Takes the CmdSN that is due.
    fn take_cmd_sn(&mut self)
        ensures { self.new ≡ advanced self.old }
    {
        let due = self.numbers().exp_cmd_sn;
        self.session.set_exp_cmd_sn(due.wrapping_add(1));
    }
}
