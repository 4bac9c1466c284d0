//! The peer of a slot: its connection is read, its PDUs are taken, its answers are written. One file,
//! since these are the steps of one turn.

ghost use Rattle.std.specs.Prelude.{◌≡◌, ◌<◌, false, length, is_some, true};
ghost use Rattle.iscsi_target.specs.Advances.{store_of};
ghost use Rattle.iscsi_sessions.specs.Slots.{slot_at, slot_waiting, table_may_read, table_may_take};
ghost use Rattle.iscsi_event_loop.specs.declared.peer.Due.TheVariants as dues;
ghost use Rattle.iscsi_event_loop.specs.Running.{SlotTurns};
ghost use Rattle.iscsi_event_loop.specs.inner.Running.{SlotRuns, RunsIdleAt};

use crate::budget::Budget;
use crate::connection::{Connection, Moved};
use crate::manner::Manner;
use crate::tally::Tally;
use iscsi_login::Phase;
use iscsi_options::Limits;
use iscsi_serving::SessionEnd;
use iscsi_sessions::SessionTable;
use scsi_disk::BlockStore;
use std::alloc::{AllocError, Global};
use std::time::Instant;

/// How many reads, PDUs and writes a slot has in a turn at most.
const STEPS: usize = 64;

/// The peer of a slot.
#[derive(Drop)]
pub struct Peer {
    /// Its connection.
    pub connection: Connection,
    /// Why its session ends; the first reason stays, but where a sync fails.
    pub end: Option<SessionEnd>,
    /// What came of the session so far.
    pub tally: Tally,
}

// What a session is to do next.
#[derive(Clone, Copy)]
enum Due {
    // a PDU is taken
    Take,
    // what waits is written
    Write,
    // more is read
    Read,
    // nothing: the session is over
    End,
}

// A PDU is taken, if one is there and its answers may be gathered; else what waits is written; if nothing
// does, more is read. A session in which none of these may be done is closed, and its answers are written.
// Once a sync failed, all sessions are over.
fn due_at(table: &SessionTable, slot: usize) -> Due
    ensures take { result ≡ dues.Take → table_may_take table.now slot ≡ true }
    ensures write { result ≡ dues.Write → 0 < length (slot_waiting (slot_at table.now slot)) }
    ensures live { result ≡ dues.Write → table.now.lost ≡ false }
    ensures read { result ≡ dues.Read → table_may_read table.now slot ≡ true }
{
    if table.is_lost() {
        Due::End
    } else if table.may_take(slot) {
        Due::Take
    } else if !table.waiting(slot).is_empty() {
        Due::Write
    } else if table.may_read(slot) {
        Due::Read
    } else {
        Due::End
    }
}

// What a step leaves to do.
#[derive(Clone, Copy)]
enum Step {
    // perhaps another step
    Went,
    // nothing in this turn
    Rests,
    // nothing: the session is over
    Over,
}

impl Peer {
    /// A peer whose session begins.
    pub fn new(connection: Connection) -> Peer {
        Peer {
            connection,
            end: None,
            tally: Tally::new(),
        }
    }

    /// Whether a turn would do something.
    pub fn wants_turn(&self, table: &SessionTable, slot: usize) -> bool {
        match due_at(table, slot) {
            Due::Take | Due::End => true,
            Due::Write => self.connection.is_writable(),
            Due::Read => self.connection.is_readable(),
        }
    }

    /// A turn of its session: at most 64 reads, PDUs and writes, and no more once the budget is spent.
    /// Says whether the session is over; where that is for a
    /// fault, it is kept as its end.
    #[tactic(auto, using(crate::proofs::RunningLemmas::none_at, crate::proofs::RunningLemmas::spent_at))]
    pub fn turn<S: BlockStore>(
        &mut self,
        table: &mut SessionTable,
        store: &mut S,
        slot: usize,
        now: Instant,
        budget: Budget,
    ) -> bool
        // It takes as many PDUs at most as the budget says. It gives as many bytes at most in all
        // writes but the last one, which gives no more than what waited.
        ensures runs { SlotTurns S.protected slot budget
            table.old (store_of (S.disk store.old) (S.failures store.old))
            table.new (store_of (S.disk store.new) (S.failures store.new)) }
        ensures slots { length table.new.slots ≡ length table.old.slots }
    {
        let mut left = budget;
        for _ in 0..STEPS {
            if left.is_spent() {
                return false;
            }
            match self.step(table, store, slot, now, &mut left) {
                Step::Went => {}
                Step::Rests => return false,
                Step::Over => return true,
            }
        }
        false
    }

    /// Whether the time of its session is over, which is then kept as its end. It is never over where
    /// connections are taken in turn.
    pub fn is_late(
        &mut self,
        manner: &Manner,
        limits: &Limits,
        phase: Option<Phase>,
        now: Instant,
    ) -> bool {
        if manner.is_in_turn() {
            return false;
        }
        let accepted = self.connection.since_accepted(now).as_secs();
        let silent = self.connection.since_moved(now).as_secs();
        match SessionEnd::by_limits(limits, phase.unwrap_or(Phase::Closed), accepted, silent) {
            Some(end) => {
                self.end_by(end);
                true
            }
            None => false,
        }
    }

    /// Keeps why the session ends, unless there was a reason before.
    pub fn end_by(&mut self, end: SessionEnd) {
        self.end = Some(self.end.unwrap_or(end));
    }

    // Does what is due.
    #[tactic(auto, using(crate::proofs::RunningLemmas::none_at, crate::proofs::RunningLemmas::idle_at))]
    fn step<S: BlockStore>(
        &mut self,
        table: &mut SessionTable,
        store: &mut S,
        slot: usize,
        now: Instant,
        left: &mut Budget,
    ) -> Step
        requires some { 0 < left.old.pdus }
        ensures runs { SlotRuns S.protected slot left.old left.new
            table.old (store_of (S.disk store.old) (S.failures store.old))
            table.new (store_of (S.disk store.new) (S.failures store.new)) }
        ensures slots { length table.new.slots ≡ length table.old.slots }
    {
        match due_at(table, slot) {
            Due::Take => self.take(table, store, slot, left),
            Due::Write => self.write(table, store, slot, now, left),
            Due::Read => self.read(table, slot, now),
            Due::End => Step::Over,
        }
    }

    // Writes what the connection takes, once the store is settled for that.
    fn write<S: BlockStore>(
        &mut self,
        table: &mut SessionTable,
        store: &mut S,
        slot: usize,
        now: Instant,
        left: &mut Budget,
    ) -> Step
        requires some { 0 < length (slot_waiting (slot_at table.old slot)) }
        requires live { table.old.lost ≡ false }
        ensures runs { SlotRuns S.protected slot left.old left.new
            table.old (store_of (S.disk store.old) (S.failures store.old))
            table.new (store_of (S.disk store.new) (S.failures store.new)) }
        ensures slots { length table.new.slots ≡ length table.old.slots }
    {
        if !self.connection.is_writable() {
            table.sent(slot, 0);
            return Step::Rests;
        }
        match table.settle(slot, store) {
            Ok(()) => {}
            Err(_) => return self.lost(),
        }
        match self.connection.write(&table.offered(slot), now) {
            Moved::Bytes(count) => {
                table.sent(slot, count);
                left.give(count);
                Step::Went
            }
            Moved::Nothing => {
                table.sent(slot, 0);
                Step::Rests
            }
            Moved::End | Moved::Failed | Moved::NoMemory => self.over(SessionEnd::Write),
        }
    }

    // Takes a PDU. Where the login is completed the turn ends, so that an older session of the same
    // port can leave first.
    fn take<S: BlockStore>(
        &mut self,
        table: &mut SessionTable,
        store: &mut S,
        slot: usize,
        left: &mut Budget,
    ) -> Step
        requires may { table_may_take table.old slot ≡ true }
        requires some { 0 < left.old.pdus }
        ensures runs { SlotRuns S.protected slot left.old left.new
            table.old (store_of (S.disk store.old) (S.failures store.old))
            table.new (store_of (S.disk store.new) (S.failures store.new)) }
        ensures slots { length table.new.slots ≡ length table.old.slots }
    {
        let was = table.phase(slot);
        self.take_pdu(table, store, slot, left);
        self.note(table, slot, was);
        if was == table.phase(slot) {
            Step::Went
        } else {
            Step::Rests
        }
    }

    // Notes what a PDU led to, behind which the session was in this phase.
    fn note(&mut self, table: &SessionTable, slot: usize, was: Option<Phase>) {
        match (was, table.phase(slot)) {
            (_, Some(Phase::Full)) => {
                self.tally.expect(table.expected_command(slot));
                if !table.is_served(slot) {
                    self.tally.discovers();
                }
            }
            (Some(Phase::Login), Some(Phase::Closed)) => self.tally.refuse(table.waiting(slot)),
            _ => {}
        }
    }

    // Takes a PDU. A fault closes the session, and its last answers are still written.
    fn take_pdu<S: BlockStore>(
        &mut self,
        table: &mut SessionTable,
        store: &mut S,
        slot: usize,
        left: &mut Budget,
    )
        requires may { table_may_take table.old slot ≡ true }
        requires some { 0 < left.old.pdus }
        ensures runs { SlotRuns S.protected slot left.old left.new
            table.old (store_of (S.disk store.old) (S.failures store.old))
            table.new (store_of (S.disk store.new) (S.failures store.new)) }
        ensures slots { length table.new.slots ≡ length table.old.slots }
    {
        match table.take(slot, store) {
            Ok(count) => left.take(count),
            Err(fault) => {
                left.take(0);
                self.end_by(SessionEnd::of(fault));
            }
        }
    }

    // Reads what came.
    #[tactic(auto, using(crate::proofs::RunningLemmas::none_idle_at))]
    fn read(&mut self, table: &mut SessionTable, slot: usize, now: Instant) -> Step
        requires may { table_may_read table.old slot ≡ true }
        ensures runs { RunsIdleAt slot table.old table.new }
        ensures slots { length table.new.slots ≡ length table.old.slots }
    {
        if !self.connection.is_readable() {
            return Step::Rests;
        }
        match self.connection.read(table, slot, now) {
            Moved::Bytes(_) => Step::Went,
            Moved::Nothing => Step::Rests,
            Moved::End => self.finish(table, slot),
            Moved::Failed => self.over(SessionEnd::Read),
            Moved::NoMemory => self.over(SessionEnd::NoMemory),
        }
    }

    // The peer sends no more.
    fn finish(&mut self, table: &mut SessionTable, slot: usize) -> Step
        requires taken { is_some (slot_at table.old slot) ≡ true }
        ensures runs { RunsIdleAt slot table.old table.new }
        ensures slots { length table.new.slots ≡ length table.old.slots }
    {
        match table.finish(slot) {
            Ok(()) => Step::Over,
            Err(fault) => self.over(SessionEnd::of(fault)),
        }
    }

    fn over(&mut self, end: SessionEnd) -> Step {
        self.end_by(end);
        Step::Over
    }

    // What commands wrote may be lost. That ends the session whatever the reason before, since it
    // ends the others too.
    fn lost(&mut self) -> Step {
        self.end = Some(SessionEnd::Sync);
        Step::Over
    }
}

/// `n` places for peers.
pub fn no_peers(alloc: Global, count: usize) -> Result<Vec<Option<Peer>>, AllocError> {
    let mut peers = Vec::new(alloc);
    for _ in 0..count {
        peers.push(None)?;
    }
    Ok(peers)
}
