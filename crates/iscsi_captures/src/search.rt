//! Where a PDU begins in bytes whose beginning is missing.

use crate::digests::Digests;
use crate::sum::Sum;
use iscsi_explain::Origin;
use iscsi_pdu::{HEADER_LEN, pad, read_head};
use std::alloc::{AllocError, Global};

/// How many headers in a row have to agree.
const IN_A_ROW: usize = 3;
/// How many bytes are kept while a PDU is looked for; past that the first half is let go.
const MOST_HELD: usize = 1_048_576;
/// The longest segment of a PDU that is looked for.
const LONGEST: u32 = 524_288;
/// How far numbers of one session lie apart.
const NEAR: u32 = 65_536;
/// How many places are kept of which is not known yet whether a PDU begins there.
const MOST_PLACES: usize = 4_096;

/// The numbers by which a header belongs to its session (RFC 7143, section 4.2.2), those that it has:
/// that of a command, and that of a status, as one end has them or awaits them.
#[derive(Clone, Copy)]
pub(crate) struct Numbers {
    command: Option<u32>,
    status: Option<u32>,
}

impl Numbers {
    // Whether all that are there are 0, as in data of which most is 0.
    fn are_zero(&self) -> bool {
        self.command.unwrap_or(0) == 0 && self.status.unwrap_or(0) == 0
    }
}

/// A place at which PDUs begin, and the digests that they have.
#[derive(Clone, Copy)]
pub(crate) struct Found {
    pub(crate) place: usize,
    pub(crate) digests: Digests,
    /// Whether segments may have a sum, too, which no segment has told yet.
    pub(crate) is_open: bool,
}

/// Whether a PDU begins at a place.
#[derive(Clone, Copy, PartialEq, Eq)]
enum Chance {
    Yes,
    No,
    /// Too few bytes are there.
    Open,
}

/// The bytes in which a PDU is looked for.
#[derive(Drop)]
pub(crate) struct Search {
    alloc: Global,
    held: Vec<u8>,
    // how many places were looked at
    seen: usize,
    // those of them that are open
    places: Vec<usize>,
}

impl Search {
    /// Nothing is held. It takes no memory.
    pub(crate) fn new(alloc: Global) -> Search {
        Search {
            alloc,
            held: Vec::new(alloc),
            seen: 0,
            places: Vec::new(alloc),
        }
    }

    /// The bytes that are held, from a place on.
    pub(crate) fn from(&self, place: usize) -> &[u8] {
        self.held.get(place..).unwrap_or(&[])
    }

    /// How many bytes are held.
    pub(crate) fn len(&self) -> usize {
        self.held.len()
    }

    /// Lets all bytes go.
    pub(crate) fn clear(&mut self) {
        self.held.clear();
        self.places.clear();
        self.seen = 0;
    }

    /// Takes more bytes.
    pub(crate) fn take(&mut self, bytes: &[u8]) -> Result<(), AllocError> {
        self.held.extend_from_slice(bytes)
    }

    /// Whether a login begins at the first byte that is held.
    pub(crate) fn begins_with_login(&self, origin: Origin) -> bool {
        let login = match origin {
            Origin::Initiator => 0x43,
            Origin::Target => 0x23,
        };
        match header_at(&self.held, 0) {
            Some(header) => header[0] == login && read_head(header).is_ok(),
            None => false,
        }
    }

    /// The first place found at which three headers in a row agree, and agree with the numbers of
    /// the other end, where those are known. They have the digests that are known, or any.
    pub(crate) fn find(
        &mut self,
        origin: Origin,
        other: Option<Numbers>,
        known: Option<Digests>,
    ) -> Result<Option<Found>, AllocError> {
        let places = std::mem::replace(&mut self.places, Vec::new(self.alloc));
        for place in places {
            let found = self.found(place, origin, other, known)?;
            if found.is_some() {
                return Ok(found);
            }
        }
        let end = self.held.len().saturating_sub(HEADER_LEN - 1);
        for place in self.seen..end {
            let found = self.found(place, origin, other, known)?;
            if found.is_some() {
                return Ok(found);
            }
        }
        self.seen = self.seen.max(end);
        Ok(None)
    }

    // The PDUs that begin at a place, if some do. A place that is open is kept.
    fn found(
        &mut self,
        place: usize,
        origin: Origin,
        other: Option<Numbers>,
        known: Option<Digests>,
    ) -> Result<Option<Found>, AllocError> {
        let mut is_open = false;
        if !may_begin(&self.held, place, origin) {
            return Ok(None);
        }
        for digests in Digests::ALL {
            if known.is_some() && known != Some(digests) {
                continue;
            }
            match chance_at(&self.held, place, origin, other, digests) {
                Chance::Yes => return Ok(Some(self.settled(place, origin, digests, known))),
                Chance::Open => is_open = true,
                Chance::No => {}
            }
        }
        if is_open && self.places.len() < MOST_PLACES {
            self.places.push(place)?;
        }
        Ok(None)
    }

    // PDUs with these digests at a place. If none of the three tells whether segments have a sum, that
    // is open.
    fn settled(
        &self,
        place: usize,
        origin: Origin,
        digests: Digests,
        known: Option<Digests>,
    ) -> Found {
        let alone = Digests {
            header: true,
            data: false,
        };
        let is_open = known.is_none()
            && digests.header
            && digests.data
            && chance_at(&self.held, place, origin, None, alone) == Chance::Yes;
        Found {
            place,
            digests: if is_open { alone } else { digests },
            is_open,
        }
    }

    /// Lets the first half of the bytes go, if too many are held, and says how many.
    pub(crate) fn shorten(&mut self) -> Result<usize, AllocError> {
        if self.held.len() <= MOST_HELD {
            return Ok(0);
        }
        let count = self.held.len() / 2;
        let mut held = Vec::new(self.alloc);
        held.extend_from_slice(self.from(count))?;
        let places = std::mem::replace(&mut self.places, Vec::new(self.alloc));
        for place in places {
            if let Some(place) = place.checked_sub(count) {
                self.places.push(place)?;
            }
        }
        self.held = held;
        self.seen = self.seen.saturating_sub(count);
        Ok(count)
    }
}

// Whether the bytes at a place can be a header of this end.
fn may_begin(held: &[u8], place: usize, origin: Origin) -> bool {
    match header_at(held, place) {
        Some(header) => is_of(header, origin),
        None => false,
    }
}

// Whether a PDU begins at a place, of one end's bytes.
fn chance_at(
    held: &[u8],
    place: usize,
    origin: Origin,
    other: Option<Numbers>,
    digests: Digests,
) -> Chance {
    let mut place = place;
    let mut before: Option<&[u8; 48]> = None;
    for _ in 0..IN_A_ROW {
        let Some(header) = header_at(held, place) else {
            return Chance::Open;
        };
        let Some((numbers, len)) = part_of(header, origin, digests) else {
            return Chance::No;
        };
        match sum_chance(held, place, header, digests) {
            Chance::Yes => {}
            chance => return chance,
        }
        if !is_near(Some(numbers), other) || !follows(before, header, origin) {
            return Chance::No;
        }
        before = Some(header);
        place = place.saturating_add(len);
    }
    Chance::Yes
}

// The bytes of a header at a place.
fn header_at(held: &[u8], place: usize) -> Option<&[u8; 48]> {
    held.get(place..)?.first_chunk()
}

// Whether the sum of a header is right, where it has one.
fn sum_chance(held: &[u8], place: usize, header: &[u8; 48], digests: Digests) -> Chance {
    if !digests.header {
        return Chance::Yes;
    }
    match held.get(place.saturating_add(HEADER_LEN)..) {
        Some([a, b, c, d, ..]) if [*a, *b, *c, *d] == Sum::of(header) => Chance::Yes,
        Some([_, _, _, _, ..]) => Chance::No,
        _ => Chance::Open,
    }
}

// What a header has for the search, if it is one of this end: its numbers, and the length of its PDU
// with these digests.
fn part_of(header: &[u8; 48], origin: Origin, digests: Digests) -> Option<(Numbers, usize)> {
    if !is_of(header, origin) {
        return None;
    }
    let Ok((_, len)) = read_head(header) else {
        return None;
    };
    if len > LONGEST {
        return None;
    }
    let numbers = numbers_of(header, origin);
    if numbers.are_zero() {
        return None;
    }
    let segment = (len as usize).saturating_add(pad(len) as usize);
    let sums = digests.len(segment);
    Some((
        numbers,
        segment.saturating_add(sums).saturating_add(HEADER_LEN),
    ))
}

// Whether the first four bytes can be those of a header of this end: reserved bits are 0, and those
// that are always set are (RFC 7143, section 11).
fn is_of(header: &[u8; 48], origin: Origin) -> bool {
    let opcode = header[0] & 0x3f;
    let is_origin = match origin {
        Origin::Initiator => header[0] < 0x80 && opcode < 0x20,
        Origin::Target => header[0] < 0x40 && opcode >= 0x20,
    };
    let (set, reserved) = flags_of(opcode);
    let flags = [header[1], header[2], header[3]];
    is_origin && flags[0] & set == set && are_zero(flags, reserved)
}

// Of the three bytes behind an opcode: the bits of the first one that are set, and those bits of
// each that are reserved.
fn flags_of(opcode: u8) -> (u8, [u8; 3]) {
    match opcode {
        0x00 | 0x20 | 0x31 | 0x32 => (0x80, [0x7f, 0xff, 0xff]),
        0x01 => (0, [0x18, 0xff, 0xff]),
        0x02 | 0x06 => (0x80, [0, 0xff, 0xff]),
        0x04 | 0x24 => (0, [0x3f, 0xff, 0xff]),
        0x05 => (0, [0x7f, 0xff, 0xff]),
        0x21 => (0x80, [0x61, 0, 0]),
        0x22 | 0x26 | 0x3f => (0x80, [0x7f, 0, 0xff]),
        0x25 => (0, [0x38, 0xff, 0]),
        _ => (0, [0x30, 0, 0]),
    }
}

// Whether the reserved bits of three bytes are 0.
fn are_zero(bytes: [u8; 3], reserved: [u8; 3]) -> bool {
    bytes[0] & reserved[0] == 0 && bytes[1] & reserved[1] == 0 && bytes[2] & reserved[2] == 0
}

// Whether one header can follow another one of the same end: it differs, and its numbers are as
// large, or a little larger.
fn follows(before: Option<&[u8; 48]>, header: &[u8; 48], origin: Origin) -> bool {
    let Some(before) = before else {
        return true;
    };
    let (old, new) = (numbers_of(before, origin), numbers_of(header, origin));
    *before != *header && goes_on(old.command, new.command) && goes_on(old.status, new.status)
}

// Whether a number is as large as one before, or a little larger, where both are there.
fn goes_on(old: Option<u32>, new: Option<u32>) -> bool {
    match (old, new) {
        (Some(old), Some(new)) => new.wrapping_sub(old) < NEAR,
        _ => true,
    }
}

// Whether the numbers of both ends lie near each other, as far as they are known.
fn is_near(mine: Option<Numbers>, yours: Option<Numbers>) -> bool {
    let (Some(mine), Some(yours)) = (mine, yours) else {
        return true;
    };
    are_near(mine.command, yours.command) && are_near(mine.status, yours.status)
}

// Whether two numbers lie near each other, where both are there.
fn are_near(mine: Option<u32>, yours: Option<u32>) -> bool {
    goes_on(mine, yours) || goes_on(yours, mine)
}

/// The numbers that a header of this end has.
pub(crate) fn numbers_of(header: &[u8; 48], origin: Origin) -> Numbers {
    let first = u32::from_be_bytes([header[24], header[25], header[26], header[27]]);
    let second = u32::from_be_bytes([header[28], header[29], header[30], header[31]]);
    let opcode = header[0] & 0x3f;
    match origin {
        Origin::Initiator => Numbers {
            command: if opcode == 0x05 { None } else { Some(first) },
            status: Some(second),
        },
        Origin::Target => Numbers {
            command: Some(second),
            status: if opcode == 0x25 && header[1] & 1 == 0 {
                None
            } else {
                Some(first)
            },
        },
    }
}
