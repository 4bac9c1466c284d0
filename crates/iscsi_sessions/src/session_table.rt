//! The slots of several sessions over one store. One file, more than half of which is the contracts
//! of one type.

ghost use Rattle.std.specs.Prelude.{◌≡◌, ◌<◌, ◌≤◌, ℕ, List, false, length, option_map, is_none, is_some, true, None, Ok, Some, IfOk, IfSome, IfNone, OnOk, OnErr};
ghost use Rattle.std.specs.List.{position};
ghost use Rattle.std.specs.Io.KnownBytes.{Consumes};
ghost use Rattle.scsi_disk.specs.Disk.{StoreTellsFailures};
ghost use Rattle.scsi_disk.specs.Lasting.{LastsOnceSynced, SettledDisk, Within};
ghost use Rattle.iscsi_target.specs.Crash.{CrashesNext};
ghost use Rattle.iscsi_target.specs.Advances.{store_of};
ghost use Rattle.iscsi_sessions.specs.Slots.{expected_command_at, free_slots, initiator_at, opening_slot, phase_of, table_may_read, table_may_take, most_read, must_sync, slot_with_read, with_sent, slot_waiting, slot_at, with_slot, SlotChanges, SlotTakesPdu, SlotFinishes};
ghost use Rattle.iscsi_sessions.specs.Reinstatement.{is_served_at, takes_place_of};
ghost use Rattle.iscsi_sessions.specs.Turns.{Comes, Ends, Goes, SlotEventStep, HappensIn, SameMachines, Syncs, TakesTurn, machines};

use crate::offered::Offered;
use crate::read_buffer::ReadBuffer;
use crate::slot::Slot;
use iscsi_login::Phase;
use iscsi_target::{Config, TargetFault};
use scsi_disk::{BlockStore, StoreFault};
use std::alloc::{AllocError, Global};
use std::io::{self, Read};
use std::marker::Model;
use std::mem;

/// Several sessions at a time over one store, which each turn is given: a row of slots, each free
/// or with a session.
///
/// A slot is read only if all that was read before is taken and all answers are written. It takes PDU
/// after PDU of what was read, until all is taken or 65,536 bytes of answers wait (own rule). If the
/// answers that wait were offered to the peer, it takes no PDU before all of them are written (own
/// rule). So the answers to one read leave in one write, a peer that reads nothing is not read, and
/// beyond those bytes a slot keeps the answers to one PDU. Slots are numbered from 0; a place behind
/// the last one counts as free.
///
/// Nothing is written before the store is settled for it, and nothing happens any more once that failed.
///
/// All slots are read into one buffer, and take PDUs from there. What a slot has not taken when another one is
/// read goes to memory of its own.
#[derive(Drop)]
pub struct SessionTable {
    alloc: Global,
    slots: Vec<Option<Slot>>,
    // what reads go into; a slot may be lent it
    buffer: ReadBuffer,
    // the slot that is lent the buffer, if one is
    holder: Option<usize>,
    // the slot for which the store was synced last, if no session has done anything since
    settled: Option<usize>,
    // whether a sync failed
    is_lost: bool,
}

impl Model for SessionTable {
    ghost use Rattle.iscsi_sessions.specs.Slots.{SessionTable};

    ghost Value = { SessionTable };

    ghost view = { λ h. record { slots = h.slots.items; settled = h.settled; lost = h.is_lost } };
}

impl SessionTable {
    /// `n` slots, all free. The error is that memory ran out.
    pub fn new(alloc: Global, slots: usize) -> Result<SessionTable, AllocError>
        ensures new { IfOk result (λ table. table ≡ free_slots slots) }
    {
        let mut free = Vec::new(alloc);
        for _ in 0..slots {
            free.push(None)?;
        }
        Ok(SessionTable {
            alloc,
            slots: free,
            buffer: ReadBuffer::new(alloc)?,
            holder: None,
            settled: None,
            is_lost: false,
        })
    }

    /// How many slots there are.
    pub fn slots(&self) -> usize
        ensures { result ≡ length self.now.slots }
    {
        self.slots.len()
    }

    /// Gives the first free slot to a new session, whose first StatSN is 1, and returns its place;
    /// none where all are taken. It takes no memory.
    pub fn slot(&mut self, config: Config) -> Option<usize>
        ensures place { result ≡ position is_none self.old.slots }
        ensures filled { IfSome result (λ place.
            self.new ≡ with_slot self.old place (Some (opening_slot config))) }
        ensures full { IfNone result (self.new ≡ self.old) }
        ensures comes { IfSome result (λ place. HappensIn (Comes place config) self.old self.new) }
    {
        let Some(place) = self.first_free() else {
            return None;
        };
        self.slots[place] = Some(Slot::new(self.alloc, config));
        Some(place)
    }

    // The first free slot.
    fn first_free(&self) -> Option<usize>
        ensures { result ≡ position is_none self.now.slots }
    {
        self.slots.iter().position(|slot| slot.is_none())
    }

    /// Whether a session has the slot.
    pub fn is_taken(&self, slot: usize) -> bool
        ensures { result ≡ is_some (slot_at self.now slot) }
    {
        self.at(slot).is_some()
    }

    // The session of a slot.
    fn at(&self, slot: usize) -> Option<&Slot>
        ensures taken { IfSome result (λ taken. slot_at self.now slot ≡ Some taken.now) }
        ensures free { IfNone result (slot_at self.now slot ≡ None) }
    {
        if slot < self.slots() {
            self.slots[slot].as_ref()
        } else {
            None
        }
    }

    /// What the session of the slot is doing; none where the slot is free.
    pub fn phase(&self, slot: usize) -> Option<Phase>
        ensures { result ≡ option_map phase_of (slot_at self.now slot) }
    {
        match self.at(slot) {
            Some(taken) => Some(taken.phase()),
            None => None,
        }
    }

    /// The name of the initiator at the slot, as its login gave it; no byte before that, and where the
    /// slot is free.
    pub fn initiator_name(&self, slot: usize) -> &[u8]
        ensures { result.now ≡ initiator_at (slot_at self.now slot) }
    {
        match self.at(slot) {
            Some(taken) => taken.initiator_name(),
            None => &[],
        }
    }

    /// Whether the slot has a normal session whose login is completed (RFC 7143, section 6.3).
    pub fn is_served(&self, slot: usize) -> bool
        ensures { result ≡ is_served_at (slot_at self.now slot) }
    {
        match self.at(slot) {
            Some(taken) => taken.is_served(),
            None => false,
        }
    }

    /// The CmdSN that the next numbered request at the slot is to have (ExpCmdSN; RFC 7143, section
    /// 4.2.2.1). It is 0 before a login, once the session is closed, and if the slot is free.
    pub fn expected_command(&self, slot: usize) -> u32
        ensures { result ≡ expected_command_at (slot_at self.now slot) }
    {
        match self.at(slot) {
            Some(taken) => taken.expected_command(),
            None => 0,
        }
    }

    /// Whether a sync failed. What commands wrote may be lost then, and any answer that waits may tell
    /// of it. So nothing more is read, taken or written, at any slot.
    pub fn is_lost(&self) -> bool
        ensures { result ≡ self.now.lost }
    {
        self.is_lost
    }

    /// Whether `read` may be called: no sync failed, the slot's session goes on and has taken all that
    /// was read, and nothing of it waits to be written.
    pub fn may_read(&self, slot: usize) -> bool
        ensures { result ≡ table_may_read self.now slot }
    {
        match self.at(slot) {
            Some(taken) => !self.is_lost && taken.may_read(),
            None => false,
        }
    }

    /// Whether `take` may be called, which needs four things:
    /// - No sync failed.
    /// - The slot's session goes on.
    /// - The session has not taken all that was read.
    /// - Nothing waits to be written, or less than 65,536 bytes that were not offered to the peer.
    pub fn may_take(&self, slot: usize) -> bool
        ensures { result ≡ table_may_take self.now slot }
    {
        match self.at(slot) {
            Some(taken) => !self.is_lost && taken.may_take(),
            None => false,
        }
    }

    /// The place of an older session whose place this slot's session takes, or none if there is
    /// none. The initiator of the older session logged in once more with the same name and ISID, as
    /// after a restart, so the older session is to leave. Discovery sessions are left alone, which
    /// is own rule (RFC 7143, section 6.3.5).
    pub fn taken_over(&self, slot: usize) -> Option<usize>
        ensures some { IfSome result (λ place. takes_place_of self.now slot place ≡ true) }
        ensures none { IfNone result ((place : ℕ) → takes_place_of self.now slot place ≡ false) }
    {
        for place in 0..self.slots() {
            if self.takes_place_of(slot, place) {
                return Some(place);
            }
        }
        None
    }

    // Whether the session of a slot takes the place of that of another one.
    fn takes_place_of(&self, slot: usize, place: usize) -> bool
        ensures { result ≡ takes_place_of self.now slot place }
    {
        match (self.at(slot), self.at(place)) {
            (Some(newer), Some(older)) => place != slot && newer.takes_over(older),
            _ => false,
        }
    }

    /// Reads for a slot, once, at most 262,144 bytes. Says how many came, which the slot keeps. The error is the
    /// reader's, or that memory ran out; then nothing changed.
    pub fn read<R: Read>(&mut self, slot: usize, reader: &mut R) -> io::Result<usize>
        requires may { table_may_read self.old slot ≡ true }
        ensures some { IfOk result (λ count. 0 < count → (piece : List ℕ) × (length piece ≡ count)
            × Consumes (R.remaining reader.old) (R.remaining reader.new) piece
            × SlotChanges slot self.old self.new
            (λ before after. after ≡ slot_with_read piece before)) }
        ensures few { IfOk result (λ count. count ≤ most_read) }
        ensures none { result ≡ Ok 0 → self.new ≡ self.old }
        ensures err { OnErr result (self.new ≡ self.old) }
        ensures machines { SameMachines self.old self.new }
    {
        self.reclaim()?;
        let count = self.buffer.read(reader)?;
        if count == 0 {
            return Ok(0);
        }
        let Some(taken) = &mut self.slots[slot] else {
            unreachable!()
        };
        taken.receive(self.alloc, &mut self.buffer);
        self.holder = Some(slot);
        Ok(count)
    }

    // The slot that was read for last gives back the memory that it was lent.
    fn reclaim(&mut self) -> Result<(), AllocError>
        ensures same { self.new ≡ self.old }
    {
        match self.holder {
            Some(holder) if self.is_taken(holder) => self.reclaim_from(holder),
            _ => Ok(()),
        }
    }

    // A slot gives back the memory that it was lent.
    fn reclaim_from(&mut self, holder: usize) -> Result<(), AllocError>
        requires taken { is_some (slot_at self.old holder) ≡ true }
        ensures same { self.new ≡ self.old }
    {
        let Some(taken) = &mut self.slots[holder] else {
            unreachable!()
        };
        taken.give_back(self.alloc, &mut self.buffer)?;
        self.holder = None;
        Ok(())
    }

    /// One turn, over the store of all sessions. The session of a slot takes what was read up to
    /// the end of one PDU. Its answers wait to be written, behind the answers that wait already.
    /// Says how many bytes the session took. A fault closes this session alone: what was read is
    /// dropped, and what the fault leaves is as `Target::feed_next` says. No answer may be written
    /// before the store is settled once more.
    pub fn take<S: BlockStore>(&mut self, slot: usize, store: &mut S) -> Result<usize, TargetFault>
        requires may { table_may_take self.old slot ≡ true }
        ensures takes { SlotTakesPdu S.protected slot self.old
            (store_of (S.disk store.old) (S.failures store.old))
            result self.new (store_of (S.disk store.new) (S.failures store.new)) }
        ensures turn { TakesTurn S.protected slot self.old
            (store_of (S.disk store.old) (S.failures store.old))
            result self.new (store_of (S.disk store.new) (S.failures store.new)) }
        // Once the store is synced, a crash leaves the blocks that the answered commands led to, and no
        // others.
        ensures lasts { S.failures store.new ≡ 0
            → LastsOnceSynced (S.synced store.new) (S.disk store.new) (S.kept store.new) }
        // Come what may, a crash leaves each block as before, or as a command of the PDU does.
        ensures crash { IfSome (slot_at self.old slot)
            (λ taken. CrashesNext S.protected taken.connection
            taken.unfed (S.disk store.old) (S.disk store.new) (S.kept store.old) (S.kept store.new)) }
        ensures unsettled { self.new.settled ≡ None }
    {
        self.settled = None;
        let Some(fed) = &mut self.slots[slot] else {
            unreachable!()
        };
        fed.take(store)
    }

    /// What the slot's session has still to write.
    pub fn waiting(&self, slot: usize) -> &[u8]
        ensures { result.now ≡ slot_waiting (slot_at self.now slot) }
    {
        match self.at(slot) {
            Some(taken) => taken.waiting(),
            None => &[],
        }
    }

    /// Syncs the store for what waits at a slot: so no peer is told of a write that a crash could take
    /// back. The fault is that of the sync. Then what waits at any slot may tell of a write that is lost,
    /// and no slot reads, takes or offers anything again.
    ///
    /// Over a disk with a write cache the store is synced only where the slot asks for it: a command
    /// asks whose answer waits, a SYNCHRONIZE CACHE or one with the bit FUA, or the session is over.
    /// So a peer may be told of writes that a crash takes back, as its disk has told it, and is never
    /// told so of a SYNCHRONIZE CACHE (SBC-3, section 4.15).
    pub fn settle<S: BlockStore>(&mut self, slot: usize, store: &mut S) -> Result<(), StoreFault>
        requires live { self.old.lost ≡ false }
        ensures settled { OnOk result (self.new ≡ record self.old { settled = Some slot }) }
        ensures lost { OnErr result (self.new ≡ record self.old { settled = None; lost = true }) }
        // A crash leaves the blocks that the answered commands led to, and no others. Over a disk with
        // a write cache this is so where the slot asks for it.
        ensures lasts { must_sync (slot_at self.old slot) ≡ true → OnOk result
            (S.failures store.new ≡ 0 → SettledDisk (S.disk store.new) (S.kept store.new)) }
        ensures synced { must_sync (slot_at self.old slot) ≡ true
            → OnOk result (S.synced store.new ≡ true) }
        ensures disk { S.disk store.new ≡ S.disk store.old }
        ensures crash { Within (S.kept store.old) (S.kept store.new) }
        ensures tells { StoreTellsFailures (S.disk store.old).tells (S.failures store.old)
            (S.failures store.new)
            (S.untold store.old) (S.untold store.new) result }
        // Whatever comes of it, it is the event of a sync.
        ensures syncs { SlotEventStep S.protected (machines self.old)
            (store_of (S.disk store.old) (S.failures store.old)) (Syncs slot)
            (machines self.new) (store_of (S.disk store.new) (S.failures store.new)) }
    {
        self.settled = None;
        if self.must_sync(slot) {
            if let Err(fault) = store.sync() {
                self.is_lost = true;
                return Err(fault);
            }
        }
        self.settled = Some(slot);
        Ok(())
    }

    /// What the slot's session has still to write, once the store was settled for it.
    pub fn offered(&self, slot: usize) -> Offered<'_>
        requires settled { self.now.settled ≡ Some slot }
        ensures { result ≡ slot_waiting (slot_at self.now slot) }
    {
        Offered::new(self.waiting(slot))
    }

    // Whether what waits at a slot is offered only once the store is synced.
    fn must_sync(&self, slot: usize) -> bool
        ensures { result ≡ must_sync (slot_at self.now slot) }
    {
        match self.at(slot) {
            Some(taken) => taken.must_sync(),
            None => true,
        }
    }

    /// What waits was offered to the peer, and `n` bytes of it were written.
    pub fn sent(&mut self, slot: usize, count: usize)
        requires taken { is_some (slot_at self.old slot) ≡ true }
        requires few { count ≤ length (slot_waiting (slot_at self.old slot)) }
        ensures sent { SlotChanges slot self.old self.new
            (λ before after. after ≡ with_sent count before) }
        ensures machines { SameMachines self.old self.new }
    {
        let Some(taken) = &mut self.slots[slot] else {
            unreachable!()
        };
        taken.sent(count)
    }

    /// The stream of a slot ended. The fault is that of `Target::finish`; what waits to be written
    /// stays, and may be written once the store is settled for it.
    pub fn finish(&mut self, slot: usize) -> Result<(), TargetFault>
        requires taken { is_some (slot_at self.old slot) ≡ true }
        ensures finishes { SlotChanges slot self.old self.new
            (λ before after. SlotFinishes before result after) }
        ensures ends { HappensIn (Ends slot) self.old self.new }
        ensures unsettled { self.new.settled ≡ None }
    {
        self.settled = None;
        let Some(taken) = &mut self.slots[slot] else {
            unreachable!()
        };
        taken.finish()
    }

    /// The slot is free; what waited there is dropped.
    pub fn leave(&mut self, slot: usize)
        ensures free { self.new ≡ with_slot self.old slot None }
        ensures goes { HappensIn (Goes slot) self.old self.new }
    {
        if slot < self.slots() {
            let left = mem::replace(&mut self.slots[slot], None);
            self.recover(slot, left);
        }
    }

    // A slot was left; if it was lent the buffer, it gives that back.
    fn recover(&mut self, slot: usize, left: Option<Slot>)
        ensures same { self.new ≡ self.old }
    {
        if self.holder == Some(slot) {
            if let Some(left) = left {
                self.buffer = left.into_buffer();
            }
            self.holder = None;
        }
    }
}
