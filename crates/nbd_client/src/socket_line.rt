//! A connection of the system as a line.
//!
//! No contract says what a socket gives. So each call counts as one that may have done something
//! else than it said, and a crash of the server may leave anything.

ghost use Rattle.std.specs.Prelude.{◌≡◌, ◌<◌, ◌≤◌, [], OnOk};
ghost use Rattle.scsi_disk.specs.Disk.{most_blocks};
ghost use Rattle.nbd_client.specs.Sizes.{AreSizes};

use crate::fault::Lost;
use crate::handshake::{HandshakeFault, negotiate};
use crate::line::Line;
use crate::served::request_in;
use crate::sizes::RequestSizes;
use crate::timed::{Place, Timed};
use nbd_wire::{Command, DISCONNECT, LONGEST_NAME, SimpleReply, reply_bytes};
use std::io::{Read, Write};

/// A connection behind its handshake, over TCP or at a Unix socket. Where it is dropped, the server is told that
/// nothing more is asked, so that it takes the end for no fault.
pub struct SocketLine {
    stream: Timed,
    blocks: u64,
    sizes: RequestSizes,
    calls: u64,
    flushes: bool,
    write_zeroes: bool,
    // the reply to a FLUSH that no server was asked for
    answer: Option<[u8; 16]>,
    ghost some: { 0 < blocks },
    ghost few: { blocks ≤ most_blocks },
    ghost fit: { AreSizes sizes blocks },
}

impl SocketLine {
    /// Opens the export `name` of a server, to be written or to be read alone. The connection and its handshake
    /// may take so many seconds in all, and so may each request with its answer; behind that the connection is
    /// lost.
    pub fn open(
        rt: &HostRuntime,
        place: Place<'_>,
        name: &[u8],
        written: bool,
        seconds: u32,
    ) -> Result<SocketLine, HandshakeFault> {
        if name.len() > LONGEST_NAME {
            return Err(HandshakeFault::NoExport);
        }
        let stream = Timed::connect(rt, place, 1000 * seconds as u64)?;
        let opened = negotiate(rt.alloc(), &mut &stream, &mut &stream, name, written)?;
        Ok(SocketLine {
            stream,
            blocks: opened.blocks,
            sizes: opened.sizes,
            calls: 0,
            flushes: opened.flushes,
            write_zeroes: opened.write_zeroes,
            answer: None,
        })
    }

    /// Whether the server has WRITE_ZEROES.
    pub fn has_write_zeroes(&self) -> bool {
        self.write_zeroes
    }

    // Counts a call; after 2^64 of them there are none.
    fn count(&mut self) -> Result<(), Lost>
        ensures counted { OnOk result (self.old.calls < self.new.calls) }
        ensures kept { self.old.calls ≤ self.new.calls }
        ensures blocks { self.new.blocks ≡ self.old.blocks }
        ensures sizes { self.new.sizes ≡ self.old.sizes }
    {
        if self.calls == u64::MAX {
            return Err(Lost::Failed);
        }
        self.calls += 1;
        Ok(())
    }
}

impl Drop for SocketLine {
    fn drop(self) {
        let SocketLine {
            stream,
            blocks: _,
            sizes: _,
            calls: _,
            flushes: _,
            write_zeroes: _,
            answer: _,
        } = self;
        stream.write_last(&DISCONNECT);
    }
}

impl Line for SocketLine {
    ghost use Rattle.scsi_file.specs.HostFile.{unknown};
    ghost use Rattle.scsi_file.proofs.ZeroLemmas.{unknown_is};

    ghost disk = { λ s. unknown s.blocks };

    ghost kept = { λ s n c. Unit {0} };

    ghost pending = { λ _. [] };

    ghost untold = { λ s. s.calls };

    ghost sound = { λ s. unknown_is s.blocks s.some };

    ghost few = { λ s. s.few };

    ghost sizes = { λ s. s.sizes };

    ghost fit = { λ s. s.fit };

    ghost stays = { λ s n. tt };

    fn blocks(&self) -> u64 {
        self.blocks
    }

    fn sizes(&self) -> RequestSizes {
        self.sizes
    }

    fn send(&mut self, head: &[u8], bytes: &[u8]) -> Result<(), Lost> {
        self.count()?;
        let Some(request) = request_in(head) else {
            return Err(Lost::Failed);
        };
        // An export without FLUSH is read alone, so that there is nothing to flush.
        if request.command == Command::Flush && !self.flushes {
            self.answer = Some(reply_bytes(&SimpleReply {
                error: 0,
                cookie: request.cookie,
            }));
            return Ok(());
        }
        let sent = if request.command == Command::Write {
            bytes
        } else {
            &[]
        };
        self.stream.begin()?;
        self.stream.write_both(head, sent)?;
        Ok(())
    }

    fn receive(&mut self, out: &mut [u8]) -> Result<(), Lost> {
        self.count()?;
        if let Some(answer) = self.answer.take() {
            if out.len() != answer.len() {
                return Err(Lost::Failed);
            }
            out.copy_from_slice(&answer);
            return Ok(());
        }
        (&self.stream).read_exact(out)?;
        Ok(())
    }
}
