//! A target between two PDUs: its session and its tasks.

ghost use Rattle.std.specs.Prelude.{◌≡◌, ◌<◌, ◌^◌, ◌≤◌, None, Some};
ghost use Rattle.scsi_disk.specs.Disk.{Disk};
ghost use Rattle.iscsi_target.specs.State.{opening_machine, max_cmd_sn, closed_machine, left, on, unit_of, waiting_tasks};
ghost use Rattle.iscsi_target_session.specs.Session.{stat_sn_advanced};
ghost use Rattle.iscsi_target.specs.State.{writes_joined};
ghost use Rattle.iscsi_target_session.specs.Rejecting.{message_rejected};
ghost use Rattle.iscsi_target.specs.inner.State.{breaks};
ghost use Rattle.iscsi_target.specs.Machine.{is_machine_closed};
ghost use Rattle.iscsi_target.specs.Asking.{asks_head, machine_asks, has_cache};
ghost use Rattle.iscsi_target.specs.inner.Inside.{DisklessPost};

mod arriving;
mod checks;
mod data_in;
mod dispatch;
mod queue;
mod reads;
mod scsi_command;
mod source;
mod writes;

use crate::tasks::Tasks;
use iscsi_login::Phase;
use iscsi_pdu::Head;
use iscsi_target_session::{Config, Numbers, Received, Session};
use scsi_unit::asks_to_last;
use std::alloc::{AllocError, Global};
use std::marker::Model;

/// A session and its tasks, between two PDUs. Where a call runs out of memory, the session can then
/// only be closed.
#[derive(Drop)]
pub struct Machine {
    session: Session,
    tasks: Tasks,
}

impl Model for Machine {
    ghost use Rattle.iscsi_target.specs.State.{Machine};

    ghost Value = { Machine };

    ghost view = { λ s. record { session = s.session; tasks = s.tasks } };
}

impl Machine {
    /// Nothing came. It takes no memory.
    pub fn new(alloc: Global, config: Config, first_statsn: u32) -> Machine
        ensures { result ≡ opening_machine config first_statsn }
    {
        Machine {
            session: Session::new(alloc, config, first_statsn),
            tasks: Tasks::new(alloc),
        }
    }

    /// Its session.
    pub fn session(&self) -> &Session
        ensures { result.now ≡ self.now.session }
    {
        &self.session
    }

    /// What the session is doing.
    pub fn phase(&self) -> Phase
        ensures phase { result ≡ self.now.session.phase }
        // The bytes of each write stand as one piece.
        ensures joined { writes_joined self.now ≡ self.now }
    {
        // Opens the invariant.
        let _tasks = self.tasks.len();
        self.session.phase()
    }

    /// Whether the session is over.
    pub fn is_closed(&self) -> bool
        ensures { result ≡ is_machine_closed self.now }
    {
        self.session.is_closed()
    }

    /// Whether the disk has a write cache.
    pub fn has_cache(&self) -> bool
        ensures { result ≡ has_cache self.now }
    {
        match self.session.unit() {
            Some(unit) => unit.is_write_back(),
            None => false,
        }
    }

    /// Whether a command that may be executed for a PDU of this head asks that what was written lasts
    /// before it is answered: that of the PDU, or of a task.
    pub fn asks(&self, head: &Head) -> bool
        ensures { result ≡ machine_asks self.now head.now }
    {
        self.tasks.asks() || self.asks_head(head)
    }

    // Whether the command of a request asks so, by what it orders of the disk.
    fn asks_head(&self, head: &Head) -> bool
        ensures { result ≡ asks_head (unit_of self.now.session) head.now }
    {
        match head {
            Head::ScsiCommand(command) => asks_to_last(&self.order_of(command).cdb),
            _ => false,
        }
    }

    // How many tasks take a place of the window.
    fn waiting(&self) -> u32
        ensures value { result ≡ waiting_tasks self.now.tasks }
        ensures most { result ≤ 9 }
    {
        self.tasks.waiting()
    }

    // The serial numbers that an answer carries.
    fn numbers(&self) -> Numbers
        ensures stat_sn { result.stat_sn ≡ self.now.session.stat_sn }
        ensures exp_cmd_sn { result.exp_cmd_sn ≡ self.now.session.exp_cmd_sn }
        ensures max_cmd_sn { result.max_cmd_sn ≡ max_cmd_sn self.now }
        ensures fits { self.now.session.exp_cmd_sn < 2 ^ 32 }
        ensures few { waiting_tasks self.now.tasks ≤ 9 }
    {
        self.session.numbers(self.waiting())
    }

    /// The CmdSN that the next numbered request is to have.
    pub fn expected_command(&self) -> u32
        ensures { result ≡ self.now.session.exp_cmd_sn }
    {
        self.numbers().exp_cmd_sn
    }

    // An answer was sent that carries StatSN and advances it.
    fn advance_stat_sn(&mut self)
        ensures { self.new ≡ record self.old { session = stat_sn_advanced self.old.session } }
    {
        self.session.advance_stat_sn();
    }

    /// Closes the session; what was gathered and the CmdSN that was due are dropped, and so are the
    /// tasks.
    pub fn close(&mut self)
        ensures { self.new ≡ closed_machine self.old }
    {
        self.session.close();
        self.tasks.clear();
    }

    // The tasks go with the session.
    fn drop_tasks_if_closed(&mut self)
        ensures { self.new ≡ record self.old { tasks = left self.old.session self.old.tasks } }
    {
        if self.session.is_closed() {
            self.tasks.clear();
        }
    }

    // Rejects a PDU for this reason; the session goes on.
    fn reject(
        &mut self,
        reason: u8,
        received: &Received<'_>,
        out: &mut Vec<u8>,
    ) -> Result<Option<u8>, AllocError>
        ensures { (disk : Disk) → DisklessPost (on disk self.old.tasks
            (message_rejected self.old.session (waiting_tasks self.old.tasks) reason received.now))
            result
            self.old self.new out.old.items out.new.items }
    {
        let waiting = self.waiting();
        let result = self.session.reject(waiting, reason, received, out);
        self.drop_tasks_if_closed();
        result
    }

    // A PDU broke the rule: it is rejected, and the session is closed. Returns the rule.
    fn reject_and_close(
        &mut self,
        rule: u8,
        received: &Received<'_>,
        out: &mut Vec<u8>,
    ) -> Result<Option<u8>, AllocError>
        ensures { (disk : Disk) → DisklessPost (breaks self.old disk rule received.now) result
            self.old self.new out.old.items out.new.items }
    {
        let waiting = self.waiting();
        let result = self.session.reject_and_close(waiting, rule, received, out);
        self.drop_tasks_if_closed();
        result
    }
}
