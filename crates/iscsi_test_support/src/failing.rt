//! Readers and writers that fail in mid-stream, and a writer that takes nothing.

use std::alloc::Global;
use std::io;
use std::io::{Read, Write};

/// A reader that gives these bytes in one read, as many as fit, and fails from then on.
#[derive(Drop)]
pub struct Broken<'a>(pub Option<&'a [u8]>);

impl Read for Broken<'_> {
    fn read(&mut self, buf: &mut [u8]) -> io::Result<usize> {
        let Some(rest) = self.0.take() else {
            return Err(io::Error::from(io::ErrorKind::Other));
        };
        let n = buf.len().min(rest.len());
        buf[..n].copy_from_slice(&rest[..n]);
        Ok(n)
    }
}

/// A writer that takes no byte.
#[derive(Drop)]
pub struct Full;

impl Write for Full {
    fn write(&mut self, _buf: &[u8]) -> io::Result<usize> {
        Ok(0)
    }

    fn flush(&mut self) -> io::Result<()> {
        Ok(())
    }
}

/// How many bytes a reader or a writer moves in a call, and after how many calls one fails.
#[derive(Clone, Copy)]
pub struct Steps {
    pub step: usize,
    pub before: Option<usize>,
}

/// All bytes in a call, of which none fails.
pub const SURE: Steps = Steps {
    step: usize::MAX,
    before: None,
};

impl Steps {
    /// So many bytes in a call, of which none fails.
    pub fn of(step: usize) -> Steps {
        Steps { step, before: None }
    }

    // Whether this call is the one that fails.
    fn fails(&mut self) -> bool {
        let Some(n) = self.before else {
            return false;
        };
        self.before = n.checked_sub(1);
        n == 0
    }
}

/// Gives the rest of a stream, and counts the calls that failed.
#[derive(Drop)]
pub struct Source<'a> {
    rest: &'a [u8],
    steps: Steps,
    pub failures: u64,
}

impl<'a> Source<'a> {
    pub fn new(rest: &'a [u8], steps: Steps) -> Source<'a> {
        Source {
            rest,
            steps,
            failures: 0,
        }
    }
}

impl Read for Source<'_> {
    fn read(&mut self, buf: &mut [u8]) -> io::Result<usize> {
        if self.steps.fails() {
            self.failures = self.failures.saturating_add(1);
            return Err(io::Error::from(io::ErrorKind::Other));
        }
        let n = buf.len().min(self.rest.len()).min(self.steps.step);
        buf[..n].copy_from_slice(&self.rest[..n]);
        self.rest = &self.rest[n..];
        Ok(n)
    }
}

/// Keeps what it takes, and counts the calls that failed.
#[derive(Drop)]
pub struct Sink {
    pub taken: Vec<u8>,
    steps: Steps,
    pub failures: u64,
}

impl Sink {
    pub fn new(alloc: Global, steps: Steps) -> Sink {
        Sink {
            taken: Vec::new(alloc),
            steps,
            failures: 0,
        }
    }
}

impl Write for Sink {
    fn write(&mut self, buf: &[u8]) -> io::Result<usize> {
        if self.steps.fails() {
            self.failures = self.failures.saturating_add(1);
            return Err(io::Error::from(io::ErrorKind::Other));
        }
        let n = buf.len().min(self.steps.step);
        self.taken.extend_from_slice(&buf[..n])?;
        Ok(n)
    }

    fn flush(&mut self) -> io::Result<()> {
        Ok(())
    }
}
