//! The session of a slot, with what it has still to take and to write.

ghost use Rattle.std.specs.Prelude.{◌≡◌, ◌≤◌, length, not, true, Some};
ghost use Rattle.iscsi_target.specs.Machine.{is_machine_closed};
ghost use Rattle.iscsi_target.specs.Crash.{CrashesNext};
ghost use Rattle.iscsi_target.specs.Advances.{store_of};
ghost use Rattle.iscsi_sessions.specs.Reinstatement.{is_served, session_of, takes_over};
ghost use Rattle.iscsi_sessions.specs.Slots.{opening_slot, phase_of, is_slot_idle, has_answer_room, may_read, may_take, must_sync, slot_with_read, with_sent, SlotFeedsNext, SlotFinishes};
ghost use Rattle.iscsi_sessions.specs.inner.Slots.{gathering};

use crate::read_buffer::ReadBuffer;
use iscsi_login::{Phase, Session as SessionType};
use iscsi_target::{Config, FIRST_STAT_SN, Target, TargetFault};
use scsi_disk::BlockStore;
use std::alloc::{AllocError, Global};
use std::marker::Model;
use std::mem;

/// How many bytes of answers wait at most: these are written before more are gathered.
const GATHERED: usize = 65_536;

/// A session, what was read of its stream and not taken, and the answers that are not written.
#[derive(Drop)]
pub struct Slot {
    target: Target,
    output: Vec<u8>,
    sent: usize,
    offered: bool,
    unfed: ReadBuffer,
    asks: bool,
}

impl Model for Slot {
    ghost use Rattle.std.specs.Prelude.{◌≡◌, ◌≤◌, drop, false, length};
    ghost use Rattle.iscsi_sessions.specs.Slots.{Slot};

    ghost Value = { Slot };

    ghost view = { λ s. record {
      connection = s.target;
      waiting = drop s.sent s.output.items;
      offered = s.offered;
      unfed = s.unfed;
      asks = s.asks;
    } };

    ghost invariant = { λ s. (s.sent ≤ length s.output.items) × (s.offered ≡ false → s.sent ≡ 0) };
}

impl Slot {
    /// A session in which nothing came. It takes no memory.
    pub fn new(alloc: Global, config: Config) -> Slot
        ensures { result ≡ opening_slot config }
    {
        Slot {
            target: Target::new(alloc, config, FIRST_STAT_SN),
            output: Vec::new(alloc),
            sent: 0,
            offered: false,
            unfed: ReadBuffer::none(alloc),
            asks: false,
        }
    }

    /// What the session is doing.
    pub fn phase(&self) -> Phase
        ensures { result ≡ phase_of self.now }
    {
        self.target.phase()
    }

    /// The initiator's name, as the login gave it; no byte before that.
    pub fn initiator_name(&self) -> &[u8]
        ensures { result.now ≡ self.now.connection.machine.session.initiator_name }
    {
        self.target.initiator_name()
    }

    /// The CmdSN that the next numbered request is to have.
    pub fn expected_command(&self) -> u32
        ensures { result ≡ self.now.connection.machine.session.exp_cmd_sn }
    {
        self.target.expected_command()
    }

    /// Whether the session goes on, all that was read was taken, and nothing waits.
    pub fn may_read(&self) -> bool
        ensures { result ≡ may_read self.now }
    {
        self.is_idle() && self.unfed.is_empty()
    }

    /// Whether the session goes on, something that was read was not taken, and there is room for
    /// more answers.
    pub fn may_take(&self) -> bool
        ensures { result ≡ may_take self.now }
    {
        self.has_room() && self.goes_on() && !self.unfed.is_empty()
    }

    /// Whether this session takes the place of another: both are normal sessions in full feature
    /// phase with one port of an initiator.
    pub fn takes_over(&self, older: &Slot) -> bool
        ensures { result ≡ takes_over (session_of self.now) (session_of older.now) }
    {
        self.is_served()
            && older.is_served()
            && self.target.initiator_name() == older.target.initiator_name()
            && self.target.isid() == older.target.isid()
    }

    /// Whether the session is a normal one in full feature phase.
    pub fn is_served(&self) -> bool
        ensures { result ≡ is_served (session_of self.now) }
    {
        matches!(self.target.phase(), Phase::Full)
            && matches!(self.target.session_type(), SessionType::Normal)
    }

    // Whether the session goes on, and nothing waits.
    fn is_idle(&self) -> bool
        ensures { result ≡ is_slot_idle self.now }
    {
        self.sent == self.output.len() && self.goes_on()
    }

    // Whether nothing waits, or little that was not offered to the peer.
    fn has_room(&self) -> bool
        ensures { result ≡ has_answer_room self.now }
    {
        let waiting = self.output.len() - self.sent;
        waiting == 0 || (!self.offered && waiting < GATHERED)
    }

    // Whether the session goes on.
    fn goes_on(&self) -> bool
        ensures { result ≡ not (is_machine_closed self.now.connection.machine) }
    {
        match self.target.phase() {
            Phase::Login | Phase::Full => true,
            Phase::Closed => false,
        }
    }

    /// Takes over what was read, with the memory that it is in.
    pub fn receive(&mut self, alloc: Global, piece: &mut ReadBuffer)
        requires may { may_read self.old ≡ true }
        ensures { self.new ≡ slot_with_read piece.old self.old }
    {
        self.unfed = mem::replace(piece, ReadBuffer::none(alloc));
    }

    /// Gives back the memory that it took over. What is not taken stays, in memory of the slot's own. The error
    /// is that there is none; then nothing changed.
    pub fn give_back(&mut self, alloc: Global, piece: &mut ReadBuffer) -> Result<(), AllocError>
        ensures { self.new ≡ self.old }
    {
        let rest = self.unfed.rest(alloc)?;
        *piece = mem::replace(&mut self.unfed, rest);
        Ok(())
    }

    /// The memory that it took over, once the session leaves.
    pub fn into_buffer(self) -> ReadBuffer {
        self.unfed
    }

    // Has answers gathered behind those that wait. What was written is dropped.
    fn gather(&mut self)
        requires room { has_answer_room self.old ≡ true }
        ensures { self.new ≡ gathering self.old }
    {
        if self.sent == self.output.len() {
            self.output.clear();
            self.sent = 0;
            self.asks = false;
        }
        self.offered = false;
    }

    /// Takes the next PDU of what was read, and keeps its answers behind those that wait.
    pub fn take<S: BlockStore>(&mut self, store: &mut S) -> Result<usize, TargetFault>
        requires may { may_take self.old ≡ true }
        ensures takes { SlotFeedsNext S.protected self.old
            (store_of (S.disk store.old) (S.failures store.old))
            result self.new (store_of (S.disk store.new) (S.failures store.new)) }
        ensures crash { CrashesNext S.protected self.old.connection
            self.old.unfed (S.disk store.old)
            (S.disk store.new) (S.kept store.old) (S.kept store.new) }
    {
        self.gather();
        match self.target.feed_asking(
            self.unfed.as_bytes(),
            store,
            &mut self.output,
            &mut self.asks,
        ) {
            Ok((taken, _)) => {
                self.unfed.take(taken);
                Ok(taken)
            }
            Err(fault) => {
                self.unfed.clear();
                Err(fault)
            }
        }
    }

    /// Whether what waits is offered to the peer only once the store is synced. It may do without where
    /// the disk has a write cache and the session goes on, unless it asks.
    pub fn must_sync(&self) -> bool
        ensures { result ≡ must_sync (Some self.now) }
    {
        !self.target.has_cache() || self.asks || !self.goes_on()
    }

    /// What is still to be written.
    pub fn waiting(&self) -> &[u8]
        ensures { result.now ≡ self.now.waiting }
    {
        &self.output[self.sent..]
    }

    /// It was offered to the peer, and `n` bytes of it were written.
    pub fn sent(&mut self, count: usize)
        requires few { count ≤ length self.old.waiting }
        ensures { self.new ≡ with_sent count self.old }
    {
        self.offered = true;
        self.sent += count;
    }

    /// The stream ended.
    pub fn finish(&mut self) -> Result<(), TargetFault>
        ensures finishes { SlotFinishes self.old result self.new }
    {
        self.target.finish()
    }
}
