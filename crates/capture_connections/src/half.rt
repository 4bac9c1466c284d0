//! One direction of a connection, as far as it is followed.

ghost use Rattle.std.specs.Prelude.{◌≡◌, ◌<◌, ◌^◌, OnOk, IfErr, IsSome, IsTrue, ◌↔◌, length, None, Some};
ghost use Rattle.capture_connections.specs.Following.{HalfTakes, direction_given_up, direction_opened, stop_at_end, unheard, waiting_of};
ghost use Rattle.capture_connections.specs.declared.fault.ConnectionsFault.TheVariants.{NoMemory};

use crate::belonging::Start;
use crate::fault::ConnectionsFault;
use crate::heard::Heard;
use std::alloc::Global;
use tcp_streams::{Direction, SegmentFault};

/// How many bytes may wait in one direction, where each piece counts for its bytes and 64 more.
pub const WAITING: usize = 1_048_576;

/// Why a direction is not followed further. A packet is told by its number, from 1.
#[derive(Clone, Copy)]
pub enum Stop {
    /// The byte at this offset is missing; the packet is the first one that waits behind it.
    Gap(u64, u64),
    /// The packet has another value for the byte at this offset than one that waits.
    Conflict(u64, u64),
    /// The stream has more than 2^63 bytes.
    Long,
}

/// One direction of a connection.
#[derive(Drop)]
pub struct Half {
    /// Where its stream begins.
    pub start: Start,
    /// What was taken of it; nothing before it begins, nor once it is not followed further.
    pub direction: Option<Direction>,
    /// Why it is not followed further.
    pub stop: Option<Stop>,
    /// How many bytes of its stream are known.
    pub known: u64,
    /// The first byte of its stream, once it is known.
    pub first_byte: Option<u8>,
    /// How much waits behind a missing byte, by the count of `WAITING`; 0 where none is missing.
    pub waiting: u32,
    /// The packet of the first segment since nothing waited.
    pub waits_from: u64,
    /// The first packet of which bytes were not captured; 0: there was none.
    pub cut_in: u64,
}

impl Half {
    /// Nothing was heard. It takes no memory.
    pub(crate) fn new() -> Half
        ensures { result ≡ unheard }
    {
        Half {
            start: Start::Unknown,
            direction: None,
            stop: None,
            known: 0,
            first_byte: None,
            waiting: 0,
            waits_from: 0,
            cut_in: 0,
        }
    }

    /// Takes a segment of this direction. Appends the bytes of the stream that are known now and
    /// were not before. Returns `NoMemory` alone. After that do not use the direction.
    pub(crate) fn take(
        &mut self,
        alloc: Global,
        heard: &Heard<'_>,
        out: &mut Vec<u8>,
    ) -> Result<(), ConnectionsFault>
        requires { length heard.now.bytes.now < 2 ^ 32 }
        ensures taken { OnOk result (HalfTakes self.old heard.now self.new
            out.old.items out.new.items) }
        ensures fault { IfErr result (λ fault. fault ≡ NoMemory) }
    {
        self.start = self.start.after(heard.said);
        self.cut_in = cut_in(self.cut_in, heard);
        if heard.bytes.is_empty() || self.stop.is_some() {
            return Ok(());
        }
        let Some(mut direction) = self.open(alloc) else {
            return Ok(());
        };
        let before = out.len();
        match direction.feed(alloc, heard.said.first, heard.bytes, out) {
            Ok(()) => {
                self.note(&direction, heard, out, before);
                self.direction = Some(direction);
                Ok(())
            }
            Err(fault) => self.end(fault, heard.packet),
        }
    }

    // Takes out what was taken so far; where that is nothing, and the stream begins, it opens.
    fn open(&mut self, alloc: Global) -> Option<Direction>
        ensures opened { result ≡ direction_opened self.old.direction self.old.start }
        ensures taken { self.new ≡ record self.old { direction = None } }
    {
        match self.direction.take() {
            Some(direction) => Some(direction),
            None => match self.start {
                Start::Unknown => None,
                Start::Bytes(first) => Some(Direction::new(alloc, first, WAITING)),
                Start::Syn(first) => Some(Direction::new(alloc, first, WAITING)),
            },
        }
    }

    // What is noted of a segment that was taken.
    fn note(&mut self, direction: &Direction, heard: &Heard<'_>, out: &[u8], before: usize)
        ensures start { self.new.start ≡ self.old.start }
        ensures stop { self.new.stop ≡ self.old.stop }
        ensures waits { self.new.waiting ≡ waiting_of direction.now }
    {
        if self.known == 0 {
            self.first_byte = out.get(before).copied();
        }
        self.known = direction.count();
        if self.waiting == 0 {
            self.waits_from = heard.packet;
        }
        self.waiting = direction.held().min(WAITING) as u32;
    }

    // Follows the direction no further.
    fn end(&mut self, fault: SegmentFault, packet: u64) -> Result<(), ConnectionsFault>
        ensures start { self.new.start ≡ self.old.start }
        ensures stop { OnOk result (IsSome self.new.stop) }
        ensures none { OnOk result (self.new.direction ≡ None) }
        ensures waits { OnOk result (self.new.waiting ≡ 0) }
        ensures fault { IfErr result (λ fault. fault ≡ NoMemory) }
    {
        let since = if self.waiting == 0 {
            packet
        } else {
            self.waits_from
        };
        let stop = match fault {
            SegmentFault::NoMemory => return Err(ConnectionsFault::NoMemory),
            SegmentFault::Gap(at) => Stop::Gap(at, since),
            SegmentFault::Conflict(at) => Stop::Conflict(at, packet),
            SegmentFault::Long => Stop::Long,
        };
        self.stop_at(stop);
        Ok(())
    }

    // Keeps nothing but why.
    fn stop_at(&mut self, stop: Stop)
        ensures stopped { self.new
            ≡ record self.old { stop = Some stop; direction = None; waiting = 0 } }
    {
        self.stop = Some(stop);
        self.direction = None;
        self.waiting = 0;
    }

    /// Whether its first byte is that of a login request (RFC 7143, section 11.12).
    pub fn is_login(&self) -> bool
        ensures { IsTrue result ↔ (self.now.first_byte ≡ Some 67) }
    {
        self.first_byte == Some(0x43)
    }

    /// Follows the direction no further, since too much waits behind a missing byte.
    pub(crate) fn give_up(&mut self)
        ensures given_up { self.new ≡ direction_given_up self.old }
    {
        self.stop_at(Stop::Gap(self.known, self.waits_from));
    }

    /// Why the direction was not followed to its end, where the capture ends here.
    pub fn stopped(&self) -> Option<Stop>
        ensures { result ≡ stop_at_end self.now.stop self.now }
    {
        match self.stop {
            Some(stop) => Some(stop),
            None => {
                if self.waiting > 0 {
                    Some(Stop::Gap(self.known, self.waits_from))
                } else {
                    None
                }
            }
        }
    }
}

// The first packet of which bytes were not captured, after one more; 0: there was none.
fn cut_in(before: u64, heard: &Heard<'_>) -> u64 {
    if heard.is_cut && before == 0 {
        return heard.packet;
    }
    before
}
