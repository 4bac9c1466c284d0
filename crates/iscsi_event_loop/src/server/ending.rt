//! How sessions end.

ghost use Rattle.std.specs.Prelude.{◌≡◌, length};
ghost use Rattle.iscsi_event_loop.specs.Running.{RunsIdle};

use super::Server;
use crate::manner::Failure;
use crate::session_line::{Name, SessionLine, TwoWriters};
use crate::system::now;
use crate::tally::{Ended, LoggedEnd};
use iscsi_login::Phase;
use iscsi_serving::SessionEnd;
use std::fmt::Display;

impl<'a> Server<'a> {
    // Ends the session of a slot, and all of them where a sync failed.
    #[tactic(auto, using(crate::proofs::RunningLemmas::then_idle))]
    pub(super) fn close(&mut self, rt: &HostRuntime, slot: usize, end: Option<SessionEnd>)
        ensures runs { RunsIdle self.old.room self.new.room }
        ensures slots { length self.new.room.table.slots ≡ length self.old.room.table.slots }
        ensures most { self.new.most ≡ self.old.most }
        ensures counted { self.new.counted ≡ self.old.counted }
    {
        self.dismiss(rt, slot, end);
        if end == Some(SessionEnd::Sync) {
            self.dismiss_all(rt);
        }
    }

    // Ends the connections that have not logged in.
    #[tactic(auto, using(crate::proofs::RunningLemmas::none_idle, crate::proofs::RunningLemmas::then_idle))]
    pub(super) fn dismiss_guests(&mut self, rt: &HostRuntime)
        ensures runs { RunsIdle self.old.room self.new.room }
        ensures slots { length self.new.room.table.slots ≡ length self.old.room.table.slots }
        ensures most { self.new.most ≡ self.old.most }
        ensures counted { self.new.counted ≡ self.old.counted }
    {
        for slot in 0..self.peers.len() {
            if self.table.phase(slot) == Some(Phase::Login) {
                self.dismiss(rt, slot, Some(SessionEnd::NoMoreLogins));
            }
        }
    }

    // Ends an older session whose place that of this slot takes, since its login is completed now.
    #[tactic(auto, using(crate::proofs::RunningLemmas::none_idle))]
    pub(super) fn end_older(&mut self, rt: &HostRuntime, slot: usize)
        ensures runs { RunsIdle self.old.room self.new.room }
        ensures slots { length self.new.room.table.slots ≡ length self.old.room.table.slots }
        ensures most { self.new.most ≡ self.old.most }
        ensures counted { self.new.counted ≡ self.old.counted }
    {
        if let Some(older) = self.table.taken_over(slot) {
            self.dismiss(rt, older, Some(SessionEnd::TakenOver));
        }
    }

    // Ends all sessions, where a sync failed: what waits to be written at a slot may tell of a write
    // that is lost.
    #[tactic(auto, using(crate::proofs::RunningLemmas::none_idle, crate::proofs::RunningLemmas::then_idle))]
    fn dismiss_all(&mut self, rt: &HostRuntime)
        ensures runs { RunsIdle self.old.room self.new.room }
        ensures slots { length self.new.room.table.slots ≡ length self.old.room.table.slots }
        ensures most { self.new.most ≡ self.old.most }
        ensures counted { self.new.counted ≡ self.old.counted }
    {
        for slot in 0..self.peers.len() {
            if let Some(Some(_)) = self.peers.get(slot) {
                self.dismiss(rt, slot, Some(SessionEnd::Sync));
            }
        }
    }

    // Tells that a login is completed, unless that is not to be told.
    pub(super) fn tell_login(&mut self, rt: &HostRuntime, slot: usize)
        ensures same { self.new ≡ self.old }
    {
        if self.options.quiet || self.manner.is_in_turn() {
            return;
        }
        if self.table.is_served(slot) {
            self.tell(rt, slot, "logged in");
        } else {
            self.tell(rt, slot, "logged in for discovery");
        }
    }

    // Tells at a login that the image has grown, if it has: the session has the blocks that it had before.
    pub(super) fn tell_growth(&mut self, rt: &HostRuntime, slot: usize)
        ensures same { self.new ≡ self.old }
    {
        if !self.table.is_served(slot) {
            return;
        }
        if let Some(grown) = self.watched.as_ref().and_then(|watched| watched.grown()) {
            self.tell(rt, slot, grown);
        }
    }

    // Tells that initiators of two names are logged in to a disk that can be written, if they are: each of them
    // may take the other's blocks for its own.
    pub(super) fn tell_other(&mut self, rt: &HostRuntime, slot: usize)
        ensures same { self.new ≡ self.old }
    {
        let is_written = match self.options.unit {
            Some(unit) => !unit.write_protected,
            None => false,
        };
        if is_written && self.table.is_served(slot) {
            if let Some(other) = self.other_name(slot) {
                self.tell_beside(rt, slot, other);
            }
        }
    }

    // A slot with a session of an initiator of another name.
    fn other_name(&self, slot: usize) -> Option<usize> {
        (0..self.table.slots()).find(|other| {
            self.table.is_served(*other)
                && self.table.initiator_name(*other) != self.table.initiator_name(slot)
        })
    }

    // Writes a line with what is told of the session of a slot.
    fn tell(&mut self, rt: &HostRuntime, slot: usize, told: impl Display + Drop)
        ensures same { self.new ≡ self.old }
    {
        let Some(Some(peer)) = self.peers.get(slot) else {
            return;
        };
        let Ok(now) = now(rt) else {
            return;
        };
        let line = SessionLine {
            number: self.numbers.get(slot).copied().unwrap_or(0),
            address: peer.connection.address(),
            initiator: self.table.initiator_name(slot),
            told,
        };
        let is_guest = !peer.tally.has_logged_in();
        self.lines.tell_of_peer(rt, now, is_guest, &line);
    }

    // Writes a line that the initiators of two slots may both write.
    fn tell_beside(&mut self, rt: &HostRuntime, slot: usize, other: usize)
        ensures same { self.new ≡ self.old }
    {
        let Ok(now) = now(rt) else {
            return;
        };
        let line = TwoWriters {
            first: Name(self.table.initiator_name(other)),
            second: Name(self.table.initiator_name(slot)),
        };
        self.lines.tell_of_peer(rt, now, false, &line);
    }

    // Tells why the session of a slot ended, if that is a fault, and of all ends unless they are not to be told.
    // A refused login is told in any case where not everybody may log in.
    fn tell_end(&mut self, rt: &HostRuntime, slot: usize, end: Option<SessionEnd>)
        ensures same { self.new ≡ self.old }
    {
        if self.manner.is_in_turn() {
            self.tell_fault(rt, end);
        } else if !self.options.quiet {
            if let Some(ended) = self.ended(rt, slot, end) {
                self.tell(rt, slot, ended);
            }
        } else if let Some(end) = end {
            self.tell(rt, slot, LoggedEnd::Fault(end));
        } else if let Some(refused) = self.refused(slot) {
            self.tell(rt, slot, refused);
        }
    }

    // Tells by a line alone why a session ended, where connections are taken in turn. Want of memory stops the
    // service, which tells it.
    fn tell_fault(&mut self, rt: &HostRuntime, end: Option<SessionEnd>)
        ensures same { self.new ≡ self.old }
    {
        match end {
            None => {}
            Some(SessionEnd::NoMemory) => self.manner.stop_by(Failure::NoMemory),
            Some(fault) => {
                let _ = eprintln!(rt; "{fault}");
            }
        }
    }

    // How the session of a slot ends, and what went over its connection. If the system doesn't tell the time, the
    // seconds are those up to the last byte.
    fn ended(&self, rt: &HostRuntime, slot: usize, end: Option<SessionEnd>) -> Option<Ended> {
        let peer = self.peers.get(slot)?.as_ref()?;
        let connection = &peer.connection;
        let now = now(rt).unwrap_or(connection.moved());
        Some(Ended {
            end: peer.tally.end(self.table.phase(slot), end),
            commands: peer.tally.commands(),
            received: connection.received(),
            sent: connection.sent(),
            seconds: connection.since_accepted(now).as_secs(),
        })
    }

    // What is told of the login of a slot, if it was refused and not everybody may log in.
    fn refused(&self, slot: usize) -> Option<LoggedEnd> {
        if self.access.is_open() {
            return None;
        }
        let (class, detail) = self.peers.get(slot)?.as_ref()?.tally.refused()?;
        Some(LoggedEnd::Refused(class, detail))
    }

    // Frees a slot, and tells why its session ended.
    pub(super) fn dismiss(&mut self, rt: &HostRuntime, slot: usize, end: Option<SessionEnd>)
        ensures runs { RunsIdle self.old.room self.new.room }
        ensures slots { length self.new.room.table.slots ≡ length self.old.room.table.slots }
        ensures most { self.new.most ≡ self.old.most }
        ensures counted { self.new.counted ≡ self.old.counted }
    {
        self.tell_end(rt, slot, end);
        self.free(slot);
        self.forget(slot);
    }

    // Frees a slot of the table.
    pub(super) fn free(&mut self, slot: usize)
        ensures runs { RunsIdle self.old.room self.new.room }
        ensures slots { length self.new.room.table.slots ≡ length self.old.room.table.slots }
        ensures most { self.new.most ≡ self.old.most }
        ensures counted { self.new.counted ≡ self.old.counted }
    {
        self.table.leave(slot);
    }

    // Forgets the peer of a slot, whose connection closes with that.
    fn forget(&mut self, slot: usize)
        ensures same { self.new ≡ self.old }
    {
        self.accepting.resume();
        if let Some(place) = self.peers.get_mut(slot) {
            *place = None;
        }
        if let Some(place) = self.numbers.get_mut(slot) {
            *place = 0;
        }
    }
}
