//! The wait of a service, and for how long.

ghost use Rattle.std.specs.Prelude.{◌≡◌, IfErr};
ghost use Rattle.iscsi_serving.specs.Faults.{EndsService};

use super::Server;
use crate::system::LISTENER;
use iscsi_login::Phase;
use iscsi_options::sooner;
use iscsi_serving::ServeFault;
use std::time::{Duration, Instant};

/// How many turns of a lone session follow each other at most before it is seen who else is ready.
const MOST_UNASKED: u32 = 16;

impl<'a> Server<'a> {
    // Waits until there is something to do, and notes what the system tells.
    pub(super) fn wait(&mut self, now: Instant) -> Result<(), ServeFault>
        ensures same { self.new ≡ self.old }
        ensures ends { IfErr result EndsService }
    {
        let is_busy = self.is_busy(now);
        if is_busy && self.may_go_on() {
            self.unasked = self.unasked.saturating_add(1);
            return Ok(());
        }
        self.unasked = 0;
        let timeout = self.timeout(is_busy, now);
        if self.poll.poll(&mut self.events, timeout).is_err() {
            return Err(ServeFault::Network);
        }
        self.note_events();
        Ok(())
    }

    // For how long nothing is to be done if nothing comes; none: for ever.
    fn timeout(&self, is_busy: bool, now: Instant) -> Option<Duration> {
        if is_busy {
            return Some(Duration::ZERO);
        }
        let rest = sooner(self.rest_left(now), self.lines_left());
        if self.manner.is_in_turn() {
            rest
        } else {
            sooner(self.time_left(now), rest)
        }
    }

    // Notes what the system told.
    fn note_events(&mut self)
        ensures same { self.new ≡ self.old }
    {
        for event in self.events.iter() {
            if event.token() == LISTENER {
                self.accepting.ask();
            } else if let Some(Some(peer)) = self.peers.get_mut(event.token().0) {
                peer.connection.note(event);
            }
        }
    }

    // Whether turns may follow each other without a look at who else is ready: nobody else has a slot, and few
    // did so.
    fn may_go_on(&self) -> bool {
        self.unasked < MOST_UNASKED && self.peers.iter().filter(|peer| peer.is_some()).count() == 1
    }

    // Whether there is something to do of which the system will not tell again.
    fn is_busy(&self, now: Instant) -> bool {
        if self.may_admit(now) {
            return true;
        }
        for (slot, peer) in self.peers.iter().enumerate() {
            if let Some(peer) = peer {
                if peer.wants_turn(&self.table, slot) {
                    return true;
                }
            }
        }
        false
    }

    // How long until connections are accepted again; none: nobody is waited for.
    fn rest_left(&self, now: Instant) -> Option<Duration> {
        if self.has_place() {
            self.accepting.left(now)
        } else {
            None
        }
    }

    // How long until it is tried again to tell of lines that were lost or left out.
    fn lines_left(&self) -> Option<Duration> {
        if self.lines.has_more() {
            Some(Duration::from_secs(1))
        } else {
            None
        }
    }

    // How long until the time of a session is over; none: for ever.
    fn time_left(&self, now: Instant) -> Option<Duration> {
        let mut left = None;
        for (slot, peer) in self.peers.iter().enumerate() {
            if let Some(peer) = peer {
                let phase = self.table.phase(slot).unwrap_or(Phase::Closed);
                let accepted = peer.connection.since_accepted(now);
                let silent = peer.connection.since_moved(now);
                let limits = &self.options.limits;
                left = sooner(left, limits.time_left(phase, accepted, silent));
            }
        }
        left
    }
}
