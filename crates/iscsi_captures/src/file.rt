//! A capture file of any length, packet by packet.

ghost use Rattle.std.specs.Prelude.{◌≡◌, ℕ, List, Option, false, IfOk, IfErr};
ghost use Rattle.std.specs.Io.KnownBytes.{IsAtEnd};
ghost use Rattle.iscsi_captures.specs.Giving.{IsEndOf, IsFileFault, IsSegmentOf, WasRead};

use crate::fault::CapturesFault;
use crate::window::{ReadFault, Window};
use capture_file::{Capture, CaptureFault, Packet, PacketFault, Segment, Step, segment_of};
use std::alloc::{AllocError, Global};
use std::io::Read;

/// A packet, and where it stands.
#[derive(Clone, Copy)]
pub struct Numbered<'a> {
    /// The packet.
    pub packet: Packet<'a>,
    /// Its number, from 1.
    pub number: u64,
    /// How many bytes of the file stand before its record or block.
    pub at: u64,
}

/// What a step over a file comes to.
#[derive(Clone, Copy)]
pub enum Stood<'a> {
    /// A packet.
    Packet(Numbered<'a>),
    /// Something else that the file has.
    Other,
    /// The end of the file, behind a whole record or block.
    End,
}

/// A capture file that is read from its beginning, through a buffer of 4 MiB. Nothing is read again,
/// so it may be the standard input. Or several files of one recording, of which each begins where the
/// one before ends: a read that gives nothing ends one. Numbers of packets go on over all of them.
#[derive(Drop)]
pub struct CaptureFile {
    alloc: Global,
    window: Window,
    capture: Capture,
    packets: u64,
    taken: usize,
    skip: u64,
    // where the block begins that is passed over
    skipped: u64,
    needed: usize,
    // how many files follow the one that is read
    following: usize,
    // how many packets were read at the end of each file before it
    ends: Vec<u64>,
}

/// How many bytes that are passed over are given up at once.
const SKIP: u64 = 1_048_576;

impl CaptureFile {
    /// A file of which nothing was read. It takes the memory of its buffer.
    pub fn new(alloc: Global) -> Result<CaptureFile, AllocError> {
        CaptureFile::of_files(alloc, 1)
    }

    /// This number of files, of which nothing was read. It takes the memory of its buffer, and later
    /// eight bytes for each file that has ended.
    pub fn of_files(alloc: Global, files: usize) -> Result<CaptureFile, AllocError> {
        Ok(CaptureFile {
            alloc,
            window: Window::new(alloc)?,
            capture: Capture::new(alloc),
            packets: 0,
            taken: 0,
            skip: 0,
            skipped: 0,
            needed: 1,
            following: files.saturating_sub(1),
            ends: Vec::new(alloc),
        })
    }

    /// The number of the file, from 0, that a fault is told of: the one that has the fault's packet.
    /// Of a fault without a packet it is the one that was read last.
    pub fn file_of(&self, fault: &CapturesFault) -> usize {
        let last = self.ends.len();
        match fault.packet() {
            Some(packet) => self
                .ends
                .iter()
                .position(|end| packet <= *end)
                .unwrap_or(last),
            None => last,
        }
    }

    /// How many packets were read.
    pub fn packets(&self) -> u64 {
        self.packets
    }

    /// Reads on to the next packet, or passes over something else.
    ///
    /// `Format`, `Length`, `Interface` and `NoMemory` come as in `Capture::step`, but `Gzip` in place
    /// of `Format` for a file that is compressed so. `Truncated` comes if the file ends within a
    /// record or block, with the place where that begins, and `Empty` if it has no byte. `Directory`
    /// comes if it is one, and `Read` if a read fails for another reason. `NoMemory` comes, too, where
    /// there is none to begin a further file. After a fault the same call
    /// may be made again, and nothing is said of what it returns.
    pub fn step<R: Read>(&mut self, file: &mut R) -> Result<Stood<'_>, CapturesFault>
        ensures reads { WasRead (R.remaining file.old) (R.remaining file.new) }
        ensures end { IfOk result (IsEndOf (R.remaining file.new)) }
        ensures fault { IfErr result (IsFileFault (R.remaining file.new)) }
    {
        if !self.read_on(file)? {
            return Ok(Stood::End);
        }
        self.stand()
    }

    /// Whether the bytes of the next step are at hand, so that it reads nothing.
    pub(crate) fn is_at_hand(&self) -> bool {
        self.window.bytes().len().saturating_sub(self.taken) >= self.needed
    }

    /// Reads on until the bytes of the next step are at hand, as often as that needs, and the last
    /// read may wait for long. Returns `false` if the last file has ended. The faults are `Empty`,
    /// `Truncated`, `Directory`, `Read` and `NoMemory`, as in `step`.
    pub(crate) fn read_on<R: Read>(&mut self, file: &mut R) -> Result<bool, CapturesFault>
        ensures reads { WasRead (R.remaining file.old) (R.remaining file.new) }
        ensures end { IfOk result (λ more. more ≡ false → IsAtEnd (R.remaining file.new)) }
        ensures fault { IfErr result (IsFileFault (R.remaining file.new)) }
    {
        self.give_up_taken();
        match self.window.fill(file, self.needed) {
            Err(ReadFault::Directory) => Err(CapturesFault::Directory),
            Err(ReadFault::Failed) => Err(CapturesFault::Read),
            Ok(true) => Ok(true),
            Ok(false) => match self.begun() {
                Some(at) => Err(CapturesFault::Truncated { at }),
                None if self.window.at() == 0 => Err(CapturesFault::Empty),
                None => Ok(self.begin_next()?),
            },
        }
    }

    // Begins the next file, if there is one, and says whether there is.
    fn begin_next(&mut self) -> Result<bool, AllocError> {
        if self.following == 0 {
            return Ok(false);
        }
        self.ends.push(self.packets)?;
        self.following = self.following.saturating_sub(1);
        self.window.restart();
        self.capture = Capture::new(self.alloc);
        self.needed = 1;
        Ok(true)
    }

    // Gives up the bytes of the last packet.
    fn give_up_taken(&mut self) {
        self.window.give_up(self.taken);
        self.taken = 0;
    }

    // Where the record or block begins of which a part was read; `None` if there is none.
    fn begun(&self) -> Option<u64> {
        if self.skip > 0 {
            return Some(self.skipped);
        }
        if self.window.bytes().is_empty() {
            return None;
        }
        Some(self.window.at())
    }

    // Whether the bytes at hand are the first of a file, and of gzip (RFC 1952).
    fn is_gzip(&self) -> bool {
        self.window.at() == 0 && self.window.bytes().starts_with(&[0x1f, 0x8b])
    }

    // Passes over bytes without a packet, as far as they are at hand.
    fn pass(&mut self) {
        let count = self.window.give_up(self.skip.min(SKIP) as usize);
        self.skip = self.skip.saturating_sub(count as u64);
        self.needed = 1;
    }

    /// What stands at the first byte at hand, or something else that is passed over. Nothing is
    /// read. The faults are the others of `step`.
    pub(crate) fn stand(&mut self) -> Result<Stood<'_>, CapturesFault>
        ensures on { (left : Option (List ℕ)) → IfOk result (IsEndOf left) }
        ensures fault { (left : Option (List ℕ)) → IfErr result (IsFileFault left) }
    {
        self.give_up_taken();
        if self.skip > 0 {
            self.pass();
            return Ok(Stood::Other);
        }
        let at = self.window.at();
        let is_gzip = self.is_gzip();
        self.needed = 1;
        match self.capture.step(self.window.bytes()) {
            Err(fault) => Err(file_fault(fault, at, is_gzip)),
            Ok(Step::More(needed)) => {
                self.needed = needed;
                Ok(Stood::Other)
            }
            Ok(Step::Skip(count)) => {
                self.skip = count as u64;
                self.skipped = at;
                Ok(Stood::Other)
            }
            Ok(Step::Packet(packet, count)) => {
                self.packets = self.packets.saturating_add(1);
                self.taken = count;
                Ok(Stood::Packet(Numbered {
                    packet,
                    number: self.packets,
                    at,
                }))
            }
        }
    }
}

// The fault of a file at this offset, which may begin as one of gzip.
fn file_fault(fault: CaptureFault, at: u64, is_gzip: bool) -> CapturesFault
    ensures { (left : Option (List ℕ)) → IsFileFault left result }
{
    match fault {
        CaptureFault::NoMemory => CapturesFault::NoMemory,
        CaptureFault::Format if is_gzip => CapturesFault::Gzip,
        CaptureFault::Format => CapturesFault::Format { at },
        CaptureFault::Length => CapturesFault::Length { at },
        CaptureFault::Interface => CapturesFault::Interface { at },
    }
}

impl<'a> Numbered<'a> {
    /// The TCP segment of the packet; `None` if it has none that a receiver takes. The faults are
    /// those of `segment_of`, with their place.
    pub fn segment(&self) -> Result<Option<Segment<'a>>, CapturesFault>
        ensures exact { IsSegmentOf self.now result }
    {
        let packet = self.number;
        let at = self.at;
        match segment_of(self.packet) {
            Ok(segment) => Ok(segment),
            Err(PacketFault::Link(link)) => Err(CapturesFault::Link { link, at, packet }),
            Err(PacketFault::Fragment) => Err(CapturesFault::Fragment { at, packet }),
            Err(PacketFault::Cut) => Err(CapturesFault::Cut { at, packet }),
        }
    }
}
