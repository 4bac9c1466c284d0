//! What was read of a stream and is not taken.

ghost use Rattle.std.specs.Prelude.{◌≡◌, ◌==◌, ◌≤◌, drop, length, IfOk, OnOk};
ghost use Rattle.std.specs.Io.KnownBytes.{Consumes};
ghost use Rattle.iscsi_sessions.specs.Slots.{most_read};

use std::alloc::{AllocError, Global};
use std::io::{self, Read};
use std::marker::Model;

/// The most bytes that are read at a time.
pub const MOST_READ: usize = 262_144;

/// What was read of a stream and is not taken, with the memory that it is in.
#[derive(Drop)]
pub struct ReadBuffer {
    bytes: Vec<u8>,
    // where that begins and ends which is not taken
    start: usize,
    end: usize,
}

impl Model for ReadBuffer {
    ghost use Rattle.std.specs.Prelude.{◌≤◌, List, ℕ, drop, length, take};
    ghost use Rattle.iscsi_sessions.specs.Slots.{most_read};

    ghost Value = { List ℕ };

    ghost view = { λ b. drop b.start (take b.end b.bytes.items) };

    ghost invariant = { λ b. (b.start ≤ b.end) × (b.end ≤ length b.bytes.items)
        × (length b.bytes.items ≤ most_read) };
}

impl ReadBuffer {
    /// Memory for 262,144 bytes, into which nothing was read.
    pub fn new(alloc: Global) -> Result<ReadBuffer, AllocError>
        ensures { IfOk result (λ buffer. length buffer ≡ 0) }
    {
        Ok(ReadBuffer {
            bytes: vec![in alloc; 0u8; MOST_READ]?,
            start: 0,
            end: 0,
        })
    }

    /// No memory.
    pub fn none(alloc: Global) -> ReadBuffer
        ensures { length result ≡ 0 }
    {
        ReadBuffer {
            bytes: Vec::new(alloc),
            start: 0,
            end: 0,
        }
    }

    /// Reads as many bytes as come at once and the memory takes, in place of what was read before. Says how many
    /// came.
    pub fn read<R: Read>(&mut self, reader: &mut R) -> io::Result<usize>
        ensures few { IfOk result (λ count. count ≤ most_read) }
        ensures count { IfOk result (λ count. length self.new ≡ count) }
        ensures bytes { OnOk result
            (Consumes (R.remaining reader.old) (R.remaining reader.new) self.new) }
    {
        self.start = 0;
        self.end = 0;
        self.end = reader.read(&mut self.bytes)?;
        Ok(self.end)
    }

    /// Whether all that was read is taken.
    pub fn is_empty(&self) -> bool
        ensures { result ≡ (length self.now == 0) }
    {
        self.start == self.end
    }

    /// What is not taken.
    pub fn as_bytes(&self) -> &[u8]
        ensures value { result.now ≡ self.now }
        ensures few { length result.now ≤ most_read }
    {
        &self.bytes[self.start..self.end]
    }

    /// `n` more bytes were taken.
    pub fn take(&mut self, count: usize)
        requires few { count ≤ length self.old }
        ensures { self.new ≡ drop count self.old }
    {
        self.start += count;
    }

    /// Nothing of what was read is to be taken.
    pub fn clear(&mut self)
        ensures { length self.new ≡ 0 }
    {
        self.start = self.end;
    }

    /// What is not taken, in memory of its own.
    pub fn rest(&self, alloc: Global) -> Result<ReadBuffer, AllocError>
        ensures { IfOk result (λ rest. rest ≡ self.now) }
    {
        let rest = self.as_bytes();
        let mut bytes = Vec::new(alloc);
        bytes.extend_from_slice(rest)?;
        Ok(ReadBuffer {
            bytes,
            start: 0,
            end: rest.len(),
        })
    }
}
