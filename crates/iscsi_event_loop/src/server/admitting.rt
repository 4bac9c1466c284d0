//! Who is accepted, and gets which slot.

ghost use Rattle.std.specs.Prelude.{◌≡◌, ◌≤◌, IfSome, false, length, true};
ghost use Rattle.iscsi_serving.specs.Access.{IsAdmitted};
ghost use Rattle.iscsi_event_loop.specs.Running.{RunsIdle};
ghost use Rattle.iscsi_event_loop.specs.Serving.{has_all};

use super::Server;
use crate::accepting::AcceptError;
use crate::configuration::{with_address, with_data_in, with_unit};
use crate::connection::Connection;
use crate::local_portal::portal_text;
use crate::manner::Failure;
use crate::numbers::next_number;
use crate::peer::Peer;
use crate::room::makes_room;
use crate::system::watch;
use iscsi_options::{PortalOption, Stop};
use iscsi_serving::{AccessFault, SessionEnd, configuration};
use iscsi_target::Config;
use mio::net::TcpStream;
use std::alloc::Global;
use std::io;
use std::net::SocketAddr;
use std::time::Instant;

/// What is told if the system has no room for a connection.
const NO_ROOM: &str = "accept failed: nobody is accepted until a seat is free or a second is over";

/// What is told if the system gives no random bytes for the challenge of a login.
const NO_RANDOM: &str = "no random bytes: the connection is closed";

// The result of accepting a connection.
#[derive(Clone, Copy, Debug, PartialEq, Eq)]
enum Accepted {
    // One was accepted, and another one may be.
    One,
    // The one that waited is gone, and another one may be accepted.
    Gone,
    // Nobody is to be accepted in this turn any more.
    Enough,
}

impl<'a> Server<'a> {
    // Whether a connection is to be accepted, if one waits.
    pub(super) fn may_admit(&self, now: Instant) -> bool
        ensures open { result ≡ true → has_all self.now.most self.now.counted ≡ false }
    {
        self.has_place() && self.accepting.is_due(now)
    }

    // Whether one more connection is to be accepted, and has a slot that is free or can be. No session makes
    // room where connections are taken in turn.
    pub(super) fn has_place(&self) -> bool
        ensures open { result ≡ true → has_all self.now.most self.now.counted ≡ false }
    {
        !self.has_all() && (self.has_free() || self.has_room())
    }

    // Whether a slot makes room.
    fn has_room(&self) -> bool {
        !self.manner.is_in_turn() && makes_room(&self.table, &self.arrivals).is_some()
    }

    // Whether a slot is free.
    fn has_free(&self) -> bool {
        self.peers.iter().any(|peer| peer.is_none())
    }

    // Accepts those who wait, as far as there are slots. If as many as there are slots, and one more,
    // are gone one after another, the error is one that lasts, and counts as a want of room, unless
    // connections are taken in turn.
    #[tactic(auto, using(crate::proofs::RunningLemmas::none_idle, crate::proofs::RunningLemmas::then_idle, crate::proofs::RunningLemmas::rises_on))]
    pub(super) fn admit(&mut self, rt: &HostRuntime, now: Instant)
        ensures runs { RunsIdle self.old.room self.new.room }
        ensures slots { length self.new.room.table.slots ≡ length self.old.room.table.slots }
        ensures most { self.new.most ≡ self.old.most }
        ensures counted { self.old.counted ≤ self.new.counted }
    {
        let mut are_gone = true;
        for _ in 0..=self.peers.len() {
            match self.accept(rt, now) {
                Accepted::One => are_gone = false,
                Accepted::Gone => {}
                Accepted::Enough => return,
            }
        }
        if are_gone && !self.manner.is_in_turn() {
            self.rest(rt, now);
        }
    }

    // Accepts one who waits, if there is a slot. Once all are taken nobody else is accepted in this
    // turn: so whoever came has a turn, to log in, before it may have to make room.
    #[tactic(auto, using(crate::proofs::RunningLemmas::none_idle, crate::proofs::RunningLemmas::then_idle))]
    fn accept(&mut self, rt: &HostRuntime, now: Instant) -> Accepted
        ensures runs { RunsIdle self.old.room self.new.room }
        ensures slots { length self.new.room.table.slots ≡ length self.old.room.table.slots }
        ensures most { self.new.most ≡ self.old.most }
        ensures counted { self.old.counted ≤ self.new.counted }
    {
        if !self.may_admit(now) {
            return Accepted::Enough;
        }
        let Some(listener) = &self.listener else {
            return Accepted::Enough;
        };
        match listener.accept() {
            Ok((stream, address)) => {
                self.make_room(rt);
                self.welcome(rt, stream, address, now);
                if self.has_free() {
                    Accepted::One
                } else {
                    Accepted::Enough
                }
            }
            Err(error) => self.pass_over(rt, &error, now),
        }
    }

    // Frees the slot that makes room, if there is one.
    #[tactic(auto, using(crate::proofs::RunningLemmas::none_idle))]
    fn make_room(&mut self, rt: &HostRuntime)
        ensures runs { RunsIdle self.old.room self.new.room }
        ensures slots { length self.new.room.table.slots ≡ length self.old.room.table.slots }
        ensures most { self.new.most ≡ self.old.most }
        ensures counted { self.new.counted ≡ self.old.counted }
    {
        if let Some(slot) = makes_room(&self.table, &self.arrivals) {
            self.dismiss(rt, slot, Some(SessionEnd::MadeRoom));
        }
    }

    // Does what an error of accept asks for.
    fn pass_over(&mut self, rt: &HostRuntime, error: &io::Error, now: Instant) -> Accepted
        ensures same { self.new ≡ self.old }
    {
        match AcceptError::of(error, &self.manner) {
            AcceptError::Nobody => {
                self.accepting.nobody();
                Accepted::Enough
            }
            AcceptError::Gone => Accepted::Gone,
            AcceptError::NoRoom => {
                self.rest(rt, now);
                Accepted::Enough
            }
        }
    }

    // Accepts nobody for a while, and tells it; or stops, where connections are taken in turn.
    fn rest(&mut self, rt: &HostRuntime, now: Instant)
        ensures same { self.new ≡ self.old }
    {
        if self.manner.is_in_turn() {
            self.manner.stop_by(Failure::Network);
        } else if self.accepting.rest(now) {
            self.lines.tell(rt, &NO_ROOM);
        }
    }

    // Gives a connection a slot, and a number that no other one has, which is the TSIH of its session.
    // One for which there is no memory, or no random bytes, or that the system does not watch, is closed. That
    // stops a service that takes connections in turn, which demands no random bytes.
    #[tactic(auto, using(crate::proofs::RunningLemmas::none_idle, crate::proofs::RunningLemmas::then_idle))]
    fn welcome(
        &mut self,
        rt: &HostRuntime,
        mut stream: TcpStream,
        address: SocketAddr,
        now: Instant,
    )
        ensures runs { RunsIdle self.old.room self.new.room }
        ensures slots { length self.new.room.table.slots ≡ length self.old.room.table.slots }
        ensures most { self.new.most ≡ self.old.most }
        ensures counted { self.old.counted ≤ self.new.counted }
    {
        self.accepting.accepted();
        self.accepted = self.accepted.saturating_add(1);
        self.count_connection();
        let Some(number) = next_number(self.last_number(), &self.numbers) else {
            return;
        };
        self.last_number = number;
        let Some(config) = self.configured(rt, number, &stream) else {
            return self.manner.stop_by(Failure::NoMemory);
        };
        let Some(slot) = self.slot(config) else {
            return self.manner.stop_by(Failure::NoMemory);
        };
        if !watch(&self.poll, &mut stream, slot, &self.manner) {
            self.free(slot);
            return self.manner.stop_by(Failure::NoMemory);
        }
        self.note(
            slot,
            number,
            Peer::new(Connection::new(stream, address, now)),
        );
    }

    // A connection was accepted, and is counted, if connections end the service.
    fn count_connection(&mut self)
        ensures same { self.new.room ≡ self.old.room }
        ensures most { self.new.most ≡ self.old.most }
        ensures counted { self.old.counted ≤ self.new.counted }
    {
        if let Some(Stop::Connections(_)) = self.options.stop {
            self.count();
        }
    }

    // The number behind which that of a new session comes. With the bare profile it gets the least one that is
    // free.
    fn last_number(&self) -> u16 {
        if self.options.unit.is_some() {
            self.last_number
        } else {
            0
        }
    }

    // The configuration of a connection of this number; none without memory or random bytes.
    fn configured(&mut self, rt: &HostRuntime, number: u16, stream: &TcpStream) -> Option<Config>
        ensures same { self.new ≡ self.old }
        ensures admitted { IfSome result (IsAdmitted self.old.room.door) }
    {
        let options = self.options;
        let alloc = rt.alloc();
        let config = configuration(alloc, options.name, number, options.preferences).ok()?;
        let config = self.with_portal(alloc, config, stream)?;
        let config = with_unit(config, options.name, self.serial, options.unit)?;
        let config = with_data_in(config, options.data_in)?;
        match self.access.demand(alloc, rt, config) {
            Ok(config) => Some(config),
            Err(AccessFault::NoMemory) => None,
            Err(AccessFault::NoRandom) => {
                self.lines.tell(rt, &NO_RANDOM);
                None
            }
        }
    }

    // The configuration with the address that initiators of a connection are to use, if they are told one;
    // none without memory.
    fn with_portal(&self, alloc: Global, config: Config, stream: &TcpStream) -> Option<Config> {
        match self.options.portal {
            PortalOption::Untold => Some(config),
            PortalOption::Other(address) => with_address(alloc, config, Some(address)).ok(),
            PortalOption::Local => {
                let local = stream.local_addr().ok().and_then(portal_text);
                let address = local.as_ref().map(|text| text.as_bytes());
                with_address(alloc, config, address).ok()
            }
        }
    }

    // Gives a new session the first free slot of the table.
    fn slot(&mut self, config: Config) -> Option<usize>
        requires admitted { IsAdmitted self.old.room.door config }
        ensures runs { RunsIdle self.old.room self.new.room }
        ensures slots { length self.new.room.table.slots ≡ length self.old.room.table.slots }
        ensures most { self.new.most ≡ self.old.most }
        ensures counted { self.new.counted ≡ self.old.counted }
    {
        self.table.slot(config)
    }

    // Notes the peer of a slot, with its number.
    fn note(&mut self, slot: usize, number: u16, peer: Peer)
        ensures same { self.new ≡ self.old }
    {
        if let Some(place) = self.peers.get_mut(slot) {
            *place = Some(peer);
        }
        if let Some(place) = self.numbers.get_mut(slot) {
            *place = number;
        }
        if let Some(place) = self.arrivals.get_mut(slot) {
            *place = self.accepted;
        }
    }
}
