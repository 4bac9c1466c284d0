//! One direction of a connection of a capture without its digests, as a reader of its bytes.

ghost use Rattle.std.specs.Prelude.{◌≤◌, None, length};
ghost use Rattle.std.specs.Io.{ReadsAtMost};
ghost use Rattle.std.specs.Io.KnownBytes.{ReadConsumes};

use crate::captured::{Captured, End, Wanted};
use crate::digest_filter::{DigestFilter, WrongDigest};
use crate::fault::CapturesFault;
use std::alloc::{AllocError, Global};
use std::io::{self, ErrorKind, Read};

/// How many bytes of the direction are taken at once.
const PIECE: usize = 65_536;

/// The bytes of one direction of a connection without its digests. Behind the login those on which
/// both ends agreed in it are looked at, and left out. A wrong one is a fault. The last byte of the
/// part that it is for is not given, so no PDU with a wrong digest is whole.
#[derive(Drop)]
pub struct Undigested<'a, R: Read> {
    captured: Captured<'a, R>,
    filter: DigestFilter,
    piece: Vec<u8>,
    out: Vec<u8>,
    given: usize,
    fault: Option<CapturesFault>,
}

impl<'a, R: Read> Undigested<'a, R> {
    /// A direction of which nothing was read, of a recording of this number of files. It takes the
    /// memory of a file's buffer, and 64 KiB.
    pub fn new(
        alloc: Global,
        files: usize,
        source: &'a mut R,
        wanted: Wanted,
    ) -> Result<Undigested<'a, R>, AllocError> {
        Ok(Undigested {
            captured: Captured::of_files(alloc, files, source, wanted)?,
            filter: DigestFilter::new(alloc),
            piece: vec![in alloc; 0u8; PIECE]?,
            out: Vec::new(alloc),
            given: 0,
            fault: None,
        })
    }

    /// Why the direction was not read to its end.
    pub fn fault(&self) -> Option<CapturesFault> {
        self.fault.or(self.captured.fault())
    }

    /// Which direction it is.
    pub fn wanted(&self) -> Wanted {
        self.captured.wanted()
    }

    /// The number of the file, from 0, that a fault is told of.
    pub fn file_of(&self, fault: &CapturesFault) -> usize {
        self.captured.file_of(fault)
    }

    // Whether all that is to come is given as it is.
    fn is_plain(&self) -> bool {
        self.given >= self.out.len() && !self.filter.may_have_digests()
    }

    // Takes bytes until one is there to be given, or the direction ends or has a fault.
    fn advance(&mut self) -> io::Result<()> {
        for _ in 0..u64::MAX {
            if self.given < self.out.len() || self.fault.is_some() {
                return Ok(());
            }
            self.out.clear();
            self.given = 0;
            let count = self.captured.read(&mut self.piece)?;
            if count == 0 {
                return Ok(());
            }
            self.take(count);
        }
        Ok(())
    }

    // Takes the first bytes of the piece.
    fn take(&mut self, count: usize) {
        let other = self.captured.other();
        if other.is_lost() {
            self.fault = Some(CapturesFault::NoMemory);
            return;
        }
        self.filter.hears(other);
        let bytes = self.piece.get(..count).unwrap_or(&[]);
        match self.filter.take(bytes, &mut self.out) {
            Ok(None) => {}
            Ok(Some(wrong)) => self.fault = Some(self.digest(wrong)),
            Err(_) => self.fault = Some(CapturesFault::NoMemory),
        }
    }

    // That a digest is wrong, which ends in the last packet that was read.
    fn digest(&self, wrong: WrongDigest) -> CapturesFault {
        let wanted = self.captured.wanted();
        CapturesFault::Digest {
            connection: wanted.connection,
            end: wanted.end,
            part: wrong.part,
            offset: wrong.offset,
            packet: self.captured.packet(),
        }
    }

    // Gives bytes that are there, as many as there is room for, and says how many.
    fn give(&mut self, buf: &mut [u8]) -> usize
        ensures bound { result ≤ length buf.new }
    {
        let Some(rest) = self.out.get(self.given..) else {
            return 0;
        };
        let count = rest.len().min(buf.len());
        buf[..count].copy_from_slice(&rest[..count]);
        self.given += count;
        count
    }
}

impl<R: Read> Read for Undigested<'_, R> {
    fn read(&mut self, buf: &mut [u8]) -> io::Result<usize>
        ensures bound { ReadsAtMost result buf.new }
        ensures bytes { ReadConsumes None None result buf.new }
    {
        if self.fault.is_none() && self.is_plain() {
            return self.captured.read(buf);
        }
        self.advance()?;
        let count = self.give(buf);
        if count == 0 && self.fault.is_some() {
            return Err(ErrorKind::InvalidData.into());
        }
        Ok(count)
    }
}
