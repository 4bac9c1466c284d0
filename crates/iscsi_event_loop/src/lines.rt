//! Lines on standard error that wait for nobody to read them.

use crate::pace::Pace;
use arrayvec::ArrayString;
use libc::net::{POLLOUT, poll};
use libc::types::pollfd;
use std::fmt::{Display, Write};
use std::io::Write as _;
use std::time::Instant;

/// The longest line, in bytes. A pipe that has room takes as many at once (PIPE_BUF of Linux).
const LONGEST_LINE: usize = 4096;

/// How many lines of peers are told in a second (own rule).
const OF_PEERS: u32 = 10;

/// How many of these are of peers that have not logged in, so that no stranger can fill a disk with lines (own
/// rule).
const OF_GUESTS: u32 = 1;

/// Lines on standard error. One that would have to wait for a reader is lost, and counted. Of lines of peers
/// so many a second are told, and the others are counted, too.
#[derive(Drop)]
pub struct Lines {
    lost: u64,
    peers: Pace,
    guests: Pace,
}

impl Lines {
    /// None was lost.
    pub fn new() -> Lines {
        Lines {
            lost: 0,
            peers: Pace::new(OF_PEERS),
            guests: Pace::new(OF_GUESTS),
        }
    }

    /// Whether lines were lost or left out of which nothing was told.
    pub fn has_more(&self) -> bool {
        self.has_lost() || self.peers.has_left_out() || self.guests.has_left_out()
    }

    // Whether lines were lost of which nothing was told.
    fn has_lost(&self) -> bool {
        self.lost > 0
    }

    /// Writes a line of the service itself, and before it how many were lost.
    pub fn tell<L: Display>(&mut self, rt: &HostRuntime, line: &L) {
        self.tell_for(rt, line, 1);
    }

    // Writes a line that stands for so many. If it is lost, so many are.
    fn tell_for<L: Display>(&mut self, rt: &HostRuntime, line: &L, lines: u64) {
        self.tell_loss(rt);
        if self.has_lost() || !written(rt, line) {
            self.lost = self.lost.saturating_add(lines);
        }
    }

    /// Writes a line of a peer, which may not have logged in, with how many of such lines were left out before;
    /// or leaves it out, if as many were told in this second as may be.
    pub fn tell_of_peer<L: Display>(
        &mut self,
        rt: &HostRuntime,
        now: Instant,
        is_guest: bool,
        line: &L,
    ) {
        if let Some(others) = self.allowed(now, is_guest) {
            self.tell_for(rt, &Counted { line, others }, others.saturating_add(1));
        }
    }

    // How many lines were left out before one of a peer; none: it is left out, too.
    fn allowed(&mut self, now: Instant, is_guest: bool) -> Option<u64> {
        let guests = if is_guest { self.guests.tell(now)? } else { 0 };
        match self.peers.tell(now) {
            Some(others) => Some(others.saturating_add(guests)),
            None => {
                self.peers.leave_out(guests);
                None
            }
        }
    }

    /// Writes how many lines were lost, if any were and it need not wait, and how many were left out, if one
    /// more may be told.
    pub fn tell_more(&mut self, rt: &HostRuntime, now: Instant) {
        self.tell_loss(rt);
        if let Some(lines) = self.guests.tell_left_out(now) {
            self.peers.leave_out(lines);
        }
        if let Some(lines) = self.peers.tell_left_out(now) {
            self.tell_for(rt, &LeftOut { lines }, lines);
        }
    }

    /// Writes how many lines were left out, if any were, however many were told in this second.
    pub fn tell_rest(&mut self, rt: &HostRuntime) {
        let guests = self.guests.take_left_out();
        let lines = self.peers.take_left_out().saturating_add(guests);
        if lines > 0 {
            self.tell_for(rt, &LeftOut { lines }, lines);
        }
    }

    // Writes how many lines were lost, if any were and it need not wait.
    fn tell_loss(&mut self, rt: &HostRuntime) {
        if self.has_lost() && written(rt, &Lost { lines: self.lost }) {
            self.lost = 0;
        }
    }
}

/// A line, and how many before it were left out.
#[derive(Clone, Copy)]
struct Counted<'a, L> {
    line: &'a L,
    others: u64,
}

impl<L: Display> Display for Counted<'_, L> {
    fn fmt<W: Write>(&self, f: &mut std::fmt::Formatter<W>) -> std::fmt::Result {
        write!(f, "{}", self.line)?;
        if self.others > 0 {
            write!(f, ", and {} more before", self.others)?;
        }
        Ok(())
    }
}

/// Tells how many lines were left out.
#[derive(Clone, Copy)]
struct LeftOut {
    lines: u64,
}

impl Display for LeftOut {
    fn fmt<W: Write>(&self, f: &mut std::fmt::Formatter<W>) -> std::fmt::Result {
        write!(f, "lines left out: {}", self.lines)
    }
}

/// Tells how many lines were lost.
#[derive(Clone, Copy)]
struct Lost {
    lines: u64,
}

impl Display for Lost {
    fn fmt<W: Write>(&self, f: &mut std::fmt::Formatter<W>) -> std::fmt::Result {
        write!(f, "lines lost: {}", self.lines)
    }
}

// Writes a line, unless it would have to wait. Says whether it did. A standard error that is closed, or
// that fails, takes all of them.
fn written<L: Display>(rt: &HostRuntime, line: &L) -> bool {
    let mut text = ArrayString::<LONGEST_LINE>::new();
    let _ = writeln!(text, "{line}");
    if !is_ready() {
        return false;
    }
    let _ = rt.stderr().write(text.as_bytes());
    true
}

// Whether a write to standard error is answered at once: it has room for a line, or fails.
fn is_ready() -> bool {
    let mut asked = [pollfd {
        fd: libc::STDERR_FILENO,
        events: POLLOUT,
        revents: 0,
    }];
    poll(&mut asked, 0) == 1
}
