//! The connection of a slot: what the system told of it, and when a byte went over it.

ghost use Rattle.std.specs.Prelude.{◌≡◌, length, true};
ghost use Rattle.iscsi_sessions.specs.Slots.{table_may_read};
ghost use Rattle.iscsi_event_loop.specs.declared.connection.Moved.TheVariants as moved;
ghost use Rattle.iscsi_event_loop.specs.inner.Running.{RunsIdleAt};
ghost use Rattle.iscsi_event_loop.specs.inner.Moving.{MovesAtMost};

use iscsi_sessions::{MOST_READ, Offered, SessionTable};
use mio::event::Event;
use mio::net::TcpStream;
use std::io::{self, ErrorKind, Write};
use std::net::SocketAddr;
use std::time::{Duration, Instant};

/// What a read or a write of a connection gave.
#[derive(Clone, Copy)]
pub enum Moved {
    /// `n` bytes went.
    Bytes(usize),
    /// None can go now.
    Nothing,
    /// None will ever go.
    End,
    /// It failed.
    Failed,
    /// There is no memory for it.
    NoMemory,
}

/// The connection of a slot. The system tells once that it is ready, and not again before a read or
/// a write was answered that it isn't: so this is noted.
#[derive(Drop)]
pub struct Connection {
    stream: TcpStream,
    address: SocketAddr,
    is_readable: bool,
    is_writable: bool,
    // the peer sends no more: no event comes for that again
    is_half_closed: bool,
    // urgent data came: a read stops at its mark, and more may be there behind it
    has_mark: bool,
    accepted: Instant,
    moved: Instant,
    // how many bytes were read, and written
    received: u64,
    sent: u64,
}

impl Connection {
    /// A connection from this address that was accepted at this time. It counts as ready until it is
    /// tried.
    pub fn new(stream: TcpStream, address: SocketAddr, now: Instant) -> Connection {
        Connection {
            stream,
            address,
            is_readable: true,
            is_writable: true,
            is_half_closed: false,
            has_mark: false,
            accepted: now,
            moved: now,
            received: 0,
            sent: 0,
        }
    }

    /// Notes what the system told.
    pub fn note(&mut self, event: &Event) {
        let is_broken = event.is_error();
        self.is_half_closed |= is_broken || event.is_read_closed();
        self.has_mark |= event.is_priority();
        self.is_readable |= event.is_readable() || self.is_half_closed;
        self.is_writable |= event.is_writable() || event.is_write_closed() || is_broken;
    }

    /// Whether a read may give something.
    pub fn is_readable(&self) -> bool {
        self.is_readable
    }

    /// Whether a write may take something.
    pub fn is_writable(&self) -> bool {
        self.is_writable
    }

    /// Reads for a slot what came, at this time.
    #[tactic(auto, using(crate::proofs::RunningLemmas::none_idle_at))]
    pub fn read(&mut self, table: &mut SessionTable, slot: usize, now: Instant) -> Moved
        requires may { table_may_read table.old slot ≡ true }
        ensures runs { RunsIdleAt slot table.old table.new }
        ensures slots { length table.new.slots ≡ length table.old.slots }
        ensures end { result ≡ moved.End → table.new ≡ table.old }
    {
        match table.read(slot, &mut self.stream) {
            Ok(0) => Moved::End,
            Ok(count) => {
                // A short read has emptied the socket, unless it stopped at a mark; only the peer's
                // end may follow without an event of its own.
                let is_emptied = count < MOST_READ && !self.has_mark;
                self.is_readable = self.is_half_closed || !is_emptied;
                self.moved = now;
                self.received = self.received.saturating_add(count as u64);
                Moved::Bytes(count)
            }
            Err(error) => {
                self.is_readable = error.kind() != ErrorKind::WouldBlock;
                unmoved(&error)
            }
        }
    }

    /// Writes what the socket takes, at this time. Only what a session table offered can leave.
    pub fn write(&mut self, offered: &Offered<'_>, now: Instant) -> Moved
        ensures bound { MovesAtMost (length offered.now) result }
    {
        let bytes = offered.as_bytes();
        match self.stream.write(bytes) {
            Ok(0) => Moved::End,
            Ok(count) => {
                // A short write has filled the socket, and the system tells when it has room again.
                self.is_writable = count == bytes.len();
                self.moved = now;
                self.sent = self.sent.saturating_add(count as u64);
                Moved::Bytes(count)
            }
            Err(error) => {
                self.is_writable = error.kind() != ErrorKind::WouldBlock;
                unmoved(&error)
            }
        }
    }

    /// Where its peer is.
    pub fn address(&self) -> SocketAddr {
        self.address
    }

    /// How many bytes were read.
    pub fn received(&self) -> u64 {
        self.received
    }

    /// How many bytes were written.
    pub fn sent(&self) -> u64 {
        self.sent
    }

    /// When a byte went over it last.
    pub fn moved(&self) -> Instant {
        self.moved
    }

    /// How long ago it was accepted.
    pub fn since_accepted(&self, now: Instant) -> Duration {
        now.duration_since(self.accepted)
    }

    /// How long ago a byte went over it.
    pub fn since_moved(&self, now: Instant) -> Duration {
        now.duration_since(self.moved)
    }
}

// What an error of a read or a write says. A call that a signal interrupted is tried again.
fn unmoved(error: &io::Error) -> Moved
    ensures bound { MovesAtMost 0 result }
{
    match error.kind() {
        ErrorKind::WouldBlock | ErrorKind::Interrupted => Moved::Nothing,
        ErrorKind::OutOfMemory => Moved::NoMemory,
        _ => Moved::Failed,
    }
}
