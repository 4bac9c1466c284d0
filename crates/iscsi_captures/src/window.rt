//! A file through a buffer of fixed length.

ghost use Rattle.std.specs.Prelude.{◌≡◌, ◌≤◌, ◌<◌, false, IfOk, vec_len};
ghost use Rattle.std.specs.Io.KnownBytes.{IsAtEnd};
ghost use Rattle.iscsi_captures.specs.Giving.{WasRead};

use std::alloc::{AllocError, Global};
use std::io::{self, ErrorKind, Read};

/// How long the buffer is: 4 MiB, of which a record takes a quarter at most.
const BUFFER: usize = 4_194_304;

/// Why no more is read.
#[derive(Clone, Copy)]
pub(crate) enum ReadFault {
    /// It is a directory.
    Directory,
    /// The read failed for another reason.
    Failed,
}

impl ReadFault {
    // Why a read failed.
    fn of(error: &io::Error) -> ReadFault {
        if error.kind() == ErrorKind::IsADirectory {
            return ReadFault::Directory;
        }
        ReadFault::Failed
    }
}

/// The part of a file that is at hand: the bytes from `from` to `to` of the buffer.
#[derive(Drop)]
pub(crate) struct Window {
    buffer: Vec<u8>,
    from: usize,
    to: usize,
    at: u64,
    ghost ordered: { from ≤ to },
    ghost within: { to ≤ buffer.len },
}

impl Window {
    /// Nothing is at hand. It takes the memory of the buffer.
    pub(crate) fn new(alloc: Global) -> Result<Window, AllocError> {
        let buffer = vec![in alloc; 0u8; BUFFER]?;
        Ok(Window {
            buffer,
            from: 0,
            to: 0,
            at: 0,
        })
    }

    /// The bytes that are at hand.
    pub(crate) fn bytes(&self) -> &[u8] {
        &self.buffer[self.from..self.to]
    }

    /// How many bytes of the file stand before them.
    pub(crate) fn at(&self) -> u64 {
        self.at
    }

    /// Gives up the first bytes, as many as there are, and says how many.
    pub(crate) fn give_up(&mut self, count: usize) -> usize
        ensures { result ≤ count }
    {
        let count = count.min(self.to - self.from);
        self.from += count;
        self.at = self.at.saturating_add(count as u64);
        count
    }

    /// Reads on until this many bytes are at hand. Returns `false` if the file has no more, and
    /// then all that it has are at hand. More than the buffer holds count as a read that failed.
    pub(crate) fn fill<R: Read>(&mut self, file: &mut R, needed: usize) -> Result<bool, ReadFault>
        ensures reads { WasRead (R.remaining file.old) (R.remaining file.new) }
        ensures end { IfOk result (λ more. more ≡ false → IsAtEnd (R.remaining file.new)) }
    {
        if self.to - self.from >= needed {
            return Ok(true);
        }
        self.move_front();
        for turn in 0..u64::MAX {
            if self.to >= needed {
                return Ok(true);
            }
            if self.to == self.buffer.len() {
                return Err(ReadFault::Failed);
            }
            if self.read(file)? == 0 {
                return Ok(false);
            }
        }
        Err(ReadFault::Failed)
    }

    /// Begins anew, before the first byte of another file. Nothing is at hand.
    pub(crate) fn restart(&mut self) {
        self.from = 0;
        self.to = 0;
        self.at = 0;
    }

    // Moves the bytes at hand to the front of the buffer.
    fn move_front(&mut self) {
        let from = self.from;
        let to = self.to;
        self.buffer.copy_within(from..to, 0);
        self.from = 0;
        self.to = to - from;
    }

    // Reads once, after the bytes at hand, and says how many came: none at the end of the file.
    fn read<R: Read>(&mut self, file: &mut R) -> Result<usize, ReadFault>
        requires room { self.old.to < vec_len self.old.buffer }
        ensures reads { WasRead (R.remaining file.old) (R.remaining file.new) }
        ensures end { IfOk result (λ n. n ≡ 0 → IsAtEnd (R.remaining file.new)) }
    {
        let to = self.to;
        match file.read(&mut self.buffer[to..]) {
            Ok(n) => {
                self.to = to + n;
                Ok(n)
            }
            Err(error) => Err(ReadFault::of(&error)),
        }
    }
}
