//! The other end of a connection.

ghost use Rattle.std.specs.Prelude.{◌≡◌, ◌≤◌, length, IfOk};

use crate::fault::Lost;
use std::io::{ErrorKind, Read, Write};
use std::net::TcpStream;
use std::time::{Duration, Instant};

/// The other end of a connection.
pub trait Peer: Drop {
    /// Begins a request, or the login: the time that one waits for the other end counts from now on.
    fn begin(&mut self) -> Result<(), Lost>;

    /// Begins a rest of this many nanoseconds: `receive` waits no longer than that in all, and returns
    /// `Late` then.
    fn rest(&mut self, nanoseconds: u64) -> Result<(), Lost>;

    /// How many nanoseconds passed since the connection was made.
    fn now(&mut self) -> Result<u64, Lost>;

    /// Sends all of the bytes.
    fn send(&mut self, bytes: &[u8]) -> Result<(), Lost>;

    /// Receives some bytes, and returns how many. Returns `Closed` if no more come.
    fn receive(&mut self, out: &mut [u8]) -> Result<usize, Lost>
        ensures within { IfOk result (λ n. n ≤ length out.new) }
        ensures length { length out.new ≡ length out.old };
}

/// A TCP connection to a target.
#[derive(Drop)]
pub struct Tcp<'a> {
    rt: &'a HostRuntime,
    stream: TcpStream,
    // how long a request may take
    wait: Duration,
    // how long one waits from `begun` on
    limit: Duration,
    begun: Instant,
    made: Instant,
}

impl<'a> Tcp<'a> {
    /// Connects to the target at a port of a host. The connection is lost once a request, or the login,
    /// has taken `seconds`, whatever the target sends or takes meanwhile.
    pub fn open(rt: &'a HostRuntime, host: &str, port: u16, seconds: u32) -> Result<Tcp<'a>, Lost> {
        let stream = TcpStream::connect(rt, (host, port))?;
        // A request is not to wait for the one before it to be acknowledged.
        stream.set_nodelay(true)?;
        let wait = Duration::from_secs(u64::from(seconds));
        let made = Instant::now(rt)?;
        Ok(Tcp {
            rt,
            stream,
            wait,
            limit: wait,
            begun: made,
            made,
        })
    }

    // How long one still waits. Returns `Late` if that time is over.
    fn time_left(&self) -> Result<Duration, Lost> {
        let taken = self.begun.elapsed(self.rt)?;
        match self.limit.checked_sub(taken) {
            Some(left) if !left.is_zero() => Ok(left),
            _ => Err(Lost::Late),
        }
    }

    // Sends some of the bytes, and returns how many. A send that a signal interrupts goes on.
    fn send_some(&mut self, bytes: &[u8]) -> Result<usize, Lost> {
        for _ in 0..u64::MAX {
            self.stream.set_write_timeout(Some(self.time_left()?))?;
            match (&self.stream).write(bytes) {
                Ok(count) => return Ok(count),
                Err(error) if error.kind() == ErrorKind::Interrupted => {}
                Err(error) => return Err(Lost::from(error)),
            }
        }
        Err(Lost::Failed)
    }
}

impl Peer for Tcp<'_> {
    fn begin(&mut self) -> Result<(), Lost> {
        self.limit = self.wait;
        self.begun = Instant::now(self.rt)?;
        Ok(())
    }

    fn rest(&mut self, nanoseconds: u64) -> Result<(), Lost> {
        self.limit = Duration::from_nanos(nanoseconds);
        self.begun = Instant::now(self.rt)?;
        Ok(())
    }

    fn now(&mut self) -> Result<u64, Lost> {
        let passed = self.made.elapsed(self.rt)?;
        Ok(u64::try_from(passed.as_nanos()).unwrap_or(u64::MAX))
    }

    fn send(&mut self, bytes: &[u8]) -> Result<(), Lost> {
        let mut rest = bytes;
        for _ in 0..u64::MAX {
            if rest.is_empty() {
                return Ok(());
            }
            let count = self.send_some(rest)?;
            rest = rest.get(count..).unwrap_or(&[]);
        }
        Err(Lost::Failed)
    }

    // A read that a signal interrupts goes on.
    fn receive(&mut self, out: &mut [u8]) -> Result<usize, Lost> {
        for _ in 0..u64::MAX {
            self.stream.set_read_timeout(Some(self.time_left()?))?;
            match (&self.stream).read(out) {
                Ok(0) => return Err(Lost::Closed),
                Ok(count) => return Ok(count),
                Err(error) if error.kind() == ErrorKind::Interrupted => {}
                Err(error) => return Err(Lost::from(error)),
            }
        }
        Err(Lost::Failed)
    }
}
