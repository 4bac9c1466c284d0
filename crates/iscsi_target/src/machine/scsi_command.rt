//! SCSI commands, and what they answer (RFC 7143, sections 11.3 and 11.4).

ghost use Rattle.std.specs.Prelude.{◌≡◌, ◌≢◌, ◌<◌, ◌≤◌, ◌^◌, ◌++◌, ℕ, [], false, length, OnOk, OnErr, IfOk};
ghost use Rattle.scsi_disk.specs.Disk.{IsDisk};
ghost use Rattle.scsi_disk.specs.Plan.{plan_of};
ghost use Rattle.scsi_disk.specs.Found.{IsFound};
ghost use Rattle.iscsi_login.specs.Held.{first_burst, is_on, max_burst};
ghost use Rattle.iscsi_target_session.specs.Session.{data_in_length};
ghost use Rattle.iscsi_stream.specs.Canonical.{canon};
ghost use Rattle.iscsi_target.specs.State.{unit_of, waiting_tasks};
ghost use Rattle.iscsi_target.specs.Execution.{data_in_parts, command_answers, execute};
ghost use Rattle.iscsi_target.specs.Command.{order_of, order_said, breaks_burst_rules, task_for};
ghost use Rattle.iscsi_target.specs.Machine.{task_begun};
ghost use Rattle.iscsi_target.specs.Crash.{CrashLeavesBlocks, command_of_task};
ghost use Rattle.iscsi_target.specs.inner.Reads.{CanBeCut, HasPart, IsStoreRead, ReadsOnto, SendsAnswers, given_by_source, reply, source_len};
ghost use Rattle.iscsi_target.specs.Advances.{store_of};
ghost use Rattle.iscsi_target.specs.inner.Inside.{TaskPost, OrderLedTo, moment};
ghost use Rattle.iscsi_target.specs.Queue.{TakePlaces};

use super::Machine;
use super::source::Source;
use crate::scsi_response::{append_response, response_head};
use iscsi_login::{Answered, NegKey};
use iscsi_pdu::ScsiCommand;
use scsi_disk::{BlockStore, Deed, Found, Order, Outcome, Plan, StoreFault, execute_found};
use std::alloc::{AllocError, Global};

impl Machine {
    // A SCSI Command that is the first task, with its immediate data.
    pub(super) fn scsi_command<S: BlockStore>(
        &mut self,
        command: &ScsiCommand,
        bytes: &[u8],
        store: &mut S,
        out: &mut Vec<u8>,
    ) -> Result<Option<u8>, AllocError>
        requires keeps { breaks_burst_rules self.old.session.held command.now (length bytes.now)
            ≡ false }
        requires places { TakePlaces self.old.tasks }
        requires room { length self.old.tasks < 9 }
        ensures handles { TaskPost S.protected
            (λ device. task_begun device self.old (S.disk store.old)
            (task_for (unit_of self.old.session) (S.disk store.old).count command.now bytes.now))
            result
            (moment self.old (store_of (S.disk store.old) (S.failures store.old)) out.old.items)
            (moment self.new (store_of (S.disk store.new) (S.failures store.new)) out.new.items) }
        ensures crash { CrashLeavesBlocks S.protected (command_of_task
            (task_for (unit_of self.old.session) (S.disk store.old).count command.now bytes.now))
            (S.disk store.old) (S.disk store.new) (S.kept store.old) (S.kept store.new) }
    {
        let order = self.order_of(command);
        let found = Found::of(&order, store.blocks());
        match found.plan(&order) {
            Plan::Take(total) => self.open(command, found, total, bytes, store, out),
            Plan::Refuse(_) | Plan::Give(_) => {
                self.execute_order(command.initiator_task_tag, order, &found, store, out)
            }
        }
    }

    // A command that takes no data, whose turn has come. A disk that has grown could take data for a
    // WRITE that was refused when it came: then the session is closed, since none were asked for.
    pub(super) fn execute_waiting<S: BlockStore>(
        &mut self,
        tag: u32,
        order: Order,
        store: &mut S,
        out: &mut Vec<u8>,
    ) -> Result<Option<u8>, AllocError>
        ensures handles { TaskPost S.protected
            (λ device. execute device self.old (S.disk store.old) tag order []) result
            (moment self.old (store_of (S.disk store.old) (S.failures store.old)) out.old.items)
            (moment self.new (store_of (S.disk store.new) (S.failures store.new)) out.new.items) }
        ensures crash { CrashLeavesBlocks S.protected []
            (S.disk store.old) (S.disk store.new) (S.kept store.old) (S.kept store.new) }
    {
        let found = Found::of(&order, store.blocks());
        match found.plan(&order) {
            Plan::Take(_) => Err(AllocError),
            Plan::Refuse(_) | Plan::Give(_) => {
                self.execute_order(tag, order, &found, store, out)
            }
        }
    }

    // What a command orders of the disk, which may tell more of itself than the profile has.
    pub(super) fn order_of(&self, command: &ScsiCommand) -> Order
        ensures { result ≡ order_of (unit_of self.now.session) command.now }
    {
        let order = order_said(command);
        match self.session.unit() {
            Some(unit) => unit.meant(order),
            None => order,
        }
    }

    // Whether a command with `n` immediate bytes breaks the rules of the first burst.
    pub(super) fn breaks_burst_rules(&self, command: &ScsiCommand, len: usize) -> bool
        ensures { result ≡ breaks_burst_rules self.now.session.held command.now len }
    {
        let unasked = command
            .expected_data_transfer_length
            .min(self.session.held().first_burst()) as usize;
        let is_bad_segment = len > 0
            && (!command.write || !self.is_on(NegKey::ImmediateData) || unasked < len);
        let is_bad_announcement = command.write
            && !command.is_final
            && (self.is_on(NegKey::InitialR2T) || unasked <= len);
        is_bad_segment || is_bad_announcement
    }

    // Whether the held value of the key is `Yes`.
    fn is_on(&self, key: NegKey) -> bool
        ensures { result ≡ is_on self.now.session.held key }
    {
        matches!(self.session.held().get(key), Answered::Flag(true))
    }

    // How many bytes a Data-In has at most.
    pub(super) fn max_segment(&self) -> u32
        ensures value { result ≡ data_in_length self.now.session }
        ensures some { 512 ≤ result }
        ensures short { result ≤ 16777215 }
    {
        self.session.data_in_length()
    }

    // How many bytes of data go one after another, at least 512.
    pub(super) fn max_burst(&self) -> u32
        ensures value { result ≡ max_burst self.now.session.held }
        ensures some { 512 ≤ result }
    {
        match self.session.held().get(NegKey::MaxBurstLength) {
            Answered::Number(bytes) => bytes,
            Answered::Flag(_) | Answered::NoneItem | Answered::Reject => 0,
        }
    }

    // How many bytes may come unasked.
    pub(super) fn first_burst(&self) -> u32
        ensures { result ≡ first_burst self.now.session.held }
    {
        self.session.held().first_burst()
    }

    // Executes an order that takes no data, from what was found of it: its data go out, and its
    // response.
    fn execute_order<S: BlockStore>(
        &mut self,
        tag: u32,
        order: Order,
        found: &Found,
        store: &mut S,
        out: &mut Vec<u8>,
    ) -> Result<Option<u8>, AllocError>
        requires disk { IsDisk (S.disk store.old) }
        requires few { (S.disk store.old).count < 2 ^ 64 }
        requires found { IsFound order found.now }
        requires blocks { found.now.blocks ≡ (S.disk store.old).count }
        requires gives { (n : ℕ) → plan_of order (S.disk store.old).count ≢ Plan.Take n }
        ensures handles { TaskPost S.protected
            (λ device. execute device self.old (S.disk store.old) tag order []) result
            (moment self.old (store_of (S.disk store.old) (S.failures store.old)) out.old.items)
            (moment self.new (store_of (S.disk store.new) (S.failures store.new)) out.new.items) }
        ensures crash { CrashLeavesBlocks S.protected []
            (S.disk store.old) (S.disk store.new) (S.kept store.old) (S.kept store.new) }
    {
        if let Some(range) = self.blocks_to_send(&order, found) {
            return self.execute_read(tag, &order, found, range, store, out);
        }
        let outcome = self.outcome_of(*out.allocator(), order, found, store)?;
        self.send_outcome(tag, &outcome, store, out)?;
        self.advance_stat_sn();
        Ok(None)
    }

    // What an order that takes no data leads to: what the disk tells of itself, where it tells more
    // than the profile has and the order asks for it, or what the store gives.
    fn outcome_of<S: BlockStore>(
        &self,
        alloc: Global,
        order: Order,
        found: &Found,
        store: &mut S,
    ) -> Result<Outcome, AllocError>
        requires found { IsFound order found.now }
        requires blocks { found.now.blocks ≡ (S.disk store.old).count }
        requires gives { (n : ℕ) → plan_of order (S.disk store.old).count ≢ Plan.Take n }
        ensures ok { IfOk result (OrderLedTo S.protected (unit_of self.now.session) order
            (store_of (S.disk store.old) (S.failures store.old))
            (store_of (S.disk store.new) (S.failures store.new))) }
        ensures disk { S.disk store.new ≡ S.disk store.old }
        ensures err_rises { OnErr result (S.failures store.old ≤ S.failures store.new) }
        ensures crash { CrashLeavesBlocks S.protected []
            (S.disk store.old) (S.disk store.new) (S.kept store.old) (S.kept store.new) }
    {
        if let Some(unit) = self.session.unit() {
            if let Some(told) = unit.outcome(alloc, &order, found.blocks)? {
                return Ok(told);
            }
        }
        execute_found(alloc, &order, found, &[], store)
    }

    // The data of an outcome, and the response.
    fn send_outcome<S: BlockStore>(
        &self,
        tag: u32,
        outcome: &Outcome,
        store: &mut S,
        out: &mut Vec<u8>,
    ) -> Result<(), AllocError>
        requires { length outcome.now.bytes < 2 ^ 32 }
        ensures ok { OnOk result (out.new.items ≡ out.old.items ++ canon
            (command_answers self.now.session (waiting_tasks self.now.tasks) tag outcome.now (data_in_parts self.now.session outcome.now.bytes))) }
        ensures failures { OnOk result (S.failures store.new ≡ S.failures store.old) }
        ensures err { OnErr result (out.new.items ≡ out.old.items) }
        ensures read { IsStoreRead (store_of (S.disk store.old) (S.failures store.old))
            (store_of (S.disk store.new) (S.failures store.new))
            (S.kept store.old) (S.kept store.new) }
    {
        let start = out.len();
        let source = Source::Bytes(outcome.bytes.as_slice());
        let Ok(()) = self.append_answers(tag, outcome, &source, store, out) else {
            out.truncate(start);
            return Err(AllocError);
        };
        Ok(())
    }

    // The data of a command from their source, and its response. A front of them may stand where a
    // read failed or memory ran out.
    pub(super) fn append_answers<S: BlockStore>(
        &self,
        tag: u32,
        outcome: &Outcome,
        source: &Source<'_>,
        store: &mut S,
        out: &mut Vec<u8>,
    ) -> Result<(), StoreFault>
        requires segment { CanBeCut source.now (data_in_length self.now.session) }
        requires burst { CanBeCut source.now (max_burst self.now.session.held) }
        requires has { HasPart source.now (S.disk store.old).count 0 (source_len source.now) }
        requires short { source_len source.now < 2 ^ 32 }
        ensures ok { OnOk result (SendsAnswers (reply self.now tag out.old.items out.new.items)
            outcome.now (given_by_source source.now (S.disk store.old) (S.failures store.old)
            (S.failures store.new))) }
        ensures reads { ReadsOnto (store_of (S.disk store.old) (S.failures store.old))
            (store_of (S.disk store.new) (S.failures store.new))
            (S.kept store.old) (S.kept store.new) out.old.items out.new.items result }
    {
        let count = self.send_data_in(tag, source, store, out)?;
        let head = response_head(self.numbers(), tag, outcome, count);
        append_response(&head, outcome.sense, out)?;
        Ok(())
    }
}

// What a command says.
fn order_said(command: &ScsiCommand) -> Order
    ensures { result ≡ order_said command.now }
{
    Order {
        cdb: command.cdb,
        lun: command.lun,
        read: command.read,
        write: command.write,
        expected: command.expected_data_transfer_length,
        deed: Deed::Write,
    }
}
