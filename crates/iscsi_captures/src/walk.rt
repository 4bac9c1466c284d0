//! How far the PDU that is begun reaches, and whether its digests are right.

use crate::digests::Digests;
use crate::sum::Sum;
use iscsi_pdu::{HEADER_LEN, pad};

/// A part of a PDU.
#[derive(Clone, Copy, PartialEq, Eq)]
enum Part {
    Header,
    HeaderSum,
    Segment,
    SegmentSum,
    // the sum of a segment, or the first bytes of the next header
    Open,
}

/// Some bytes of one part of a PDU.
#[derive(Clone, Copy)]
pub(crate) struct Run {
    /// How many there are.
    pub(crate) len: usize,
    /// Whether they are no sum.
    pub(crate) is_plain: bool,
    /// Whether they end four bytes that were held, and turned out to begin a header.
    pub(crate) is_held: bool,
    /// Whether they end a sum that is not that of its part; `true` if that is the header.
    pub(crate) wrong: Option<bool>,
}

/// How many bytes of a PDU are to come, as bytes of a stream go by.
#[derive(Clone, Copy)]
pub(crate) struct Walk {
    header: [u8; 48],
    // the part that is next, and how many bytes of it are to come
    part: Part,
    left: usize,
    // how many bytes the segment has with its padding
    segment: usize,
    // whether a header was whole
    has_header: bool,
    // what PDUs have behind the login, and what the one that is begun has
    digests: Digests,
    bears: Digests,
    // whether it is not known yet if segments have a sum; the four bytes that tell
    is_open: bool,
    held: [u8; 4],
    // the sum of the part, whether all of its bytes are known, and how many of those four were right
    sum: Sum,
    is_known: bool,
    is_right: bool,
    // how many bytes went by, and how many of those are of sums
    gone: u64,
    sums: u64,
    // the same before the PDU that is begun
    begun: u64,
    before: u64,
}

impl Walk {
    /// Before a PDU. Whether segments have a sum is found out at the first one, if that is open.
    pub(crate) fn new(digests: Digests, is_open: bool) -> Walk {
        Walk {
            header: [0; 48],
            part: Part::Header,
            left: HEADER_LEN,
            segment: 0,
            has_header: false,
            digests,
            bears: Digests::NONE,
            is_open,
            held: [0; 4],
            sum: Sum::new(),
            is_known: true,
            is_right: true,
            gone: 0,
            sums: 0,
            begun: 0,
            before: 0,
        }
    }

    /// What PDUs have behind the login.
    pub(crate) fn digests(&self) -> Digests {
        self.digests
    }

    /// Both ends agreed on these.
    pub(crate) fn agree(&mut self, digests: Digests) {
        self.digests = digests;
    }

    /// Whether the last header is that of a login PDU.
    pub(crate) fn is_login(&self) -> bool {
        matches!(self.header[0] & 0x3f, 0x03 | 0x23)
    }

    /// Whether a header was whole, and the last one is not that of a login PDU.
    pub(crate) fn is_past_login(&self) -> bool {
        self.has_header && self.part != Part::Header && !self.is_login()
            || self.header().is_some() && !self.is_login()
    }

    /// Whether the bytes that are next are those of a segment.
    pub(crate) fn is_in_segment(&self) -> bool {
        self.part == Part::Segment
    }

    /// Whether the bytes that are next are those of a sum.
    pub(crate) fn is_at_sum(&self) -> bool {
        matches!(self.part, Part::HeaderSum | Part::SegmentSum)
    }

    /// The four bytes that were held.
    pub(crate) fn held(&self) -> [u8; 4] {
        self.held
    }

    /// Whether a PDU ends here.
    pub(crate) fn is_between(&self) -> bool {
        self.part == Part::Header && self.left == HEADER_LEN
    }

    /// How many bytes of the segment and its padding are to come, where a header is whole; else 0.
    pub(crate) fn segment_left(&self) -> usize {
        match self.part {
            Part::Header | Part::SegmentSum | Part::Open => 0,
            Part::HeaderSum => self.segment,
            Part::Segment => self.left,
        }
    }

    /// How many bytes of the PDU are to come, where a header is whole; else 0.
    pub(crate) fn left(&self) -> usize {
        let sum = if self.segment > 0 && self.bears.data {
            4
        } else {
            0
        };
        match self.part {
            Part::Header | Part::Open => 0,
            Part::HeaderSum => self.left.saturating_add(self.segment).saturating_add(sum),
            Part::Segment => self.left.saturating_add(sum),
            Part::SegmentSum => self.left,
        }
    }

    /// How many bytes of sums stand before the PDU that is begun, or that was the last one.
    pub(crate) fn sums_before(&self) -> u64 {
        self.before
    }

    /// Where the PDU begins that is begun, or that was the last one.
    pub(crate) fn begun(&self) -> u64 {
        self.begun
    }

    /// The last header, while none is begun.
    pub(crate) fn header(&self) -> Option<&[u8; 48]> {
        if self.has_header && self.is_between() {
            Some(&self.header)
        } else {
            None
        }
    }

    /// Goes over bytes.
    pub(crate) fn take(&mut self, bytes: &[u8]) {
        let mut rest = bytes;
        for _ in 0..bytes.len() {
            if rest.is_empty() {
                return;
            }
            let run = self.run(rest, true);
            rest = rest.get(run.len..).unwrap_or(&[]);
        }
    }

    /// Goes over the first of some bytes, as far as they are of one part. Where they are not known,
    /// its sum is not looked at.
    pub(crate) fn run(&mut self, bytes: &[u8], is_known: bool) -> Run {
        let len = self.left.min(bytes.len());
        let bytes = bytes.get(..len).unwrap_or(&[]);
        let is_plain = matches!(self.part, Part::Header | Part::Segment);
        self.is_known = self.is_known && is_known;
        match self.part {
            Part::Header => self.take_header(bytes),
            Part::Segment if self.bears.data || self.is_open => self.sum.take(bytes),
            Part::Segment => {}
            Part::Open => self.hold(bytes),
            Part::HeaderSum | Part::SegmentSum => self.take_sum(bytes),
        }
        self.left = self.left.saturating_sub(len);
        self.gone = self.gone.saturating_add(len as u64);
        let is_open = self.part == Part::Open;
        let wrong = if self.left == 0 {
            self.end_part()
        } else {
            None
        };
        let is_held = is_open && self.part == Part::Header && self.left < HEADER_LEN;
        Run {
            len,
            is_plain: is_plain || is_held,
            is_held,
            wrong,
        }
    }

    // Takes bytes of a header.
    fn take_header(&mut self, bytes: &[u8]) {
        if self.left == HEADER_LEN {
            self.before = self.sums;
            self.begun = self.gone;
        }
        let filled = HEADER_LEN.saturating_sub(self.left);
        if let Some(room) = self.header.get_mut(filled..) {
            let count = room.len().min(bytes.len());
            room[..count].copy_from_slice(&bytes[..count]);
        }
    }

    // Holds bytes of which it is not known what they are.
    fn hold(&mut self, bytes: &[u8]) {
        let filled = 4usize.saturating_sub(self.left);
        if let Some(room) = self.held.get_mut(filled..) {
            let count = room.len().min(bytes.len());
            room[..count].copy_from_slice(&bytes[..count]);
        }
    }

    // The four bytes are the sum of the segment, or else they begin the next header.
    fn end_open(&mut self) {
        self.is_open = false;
        if self.held == self.sum.bytes() {
            self.digests.data = true;
            self.sums = self.sums.saturating_add(4);
            self.begin(Part::Header, HEADER_LEN);
            return;
        }
        let held = self.held;
        self.begin(Part::Header, HEADER_LEN);
        self.gone = self.gone.saturating_sub(4);
        self.take_header(&held);
        self.gone = self.gone.saturating_add(4);
        self.left = HEADER_LEN - 4;
    }

    // Takes bytes of a sum.
    fn take_sum(&mut self, bytes: &[u8]) {
        let due = self.sum.bytes();
        let filled = 4usize.saturating_sub(self.left);
        for (place, byte) in bytes.iter().enumerate() {
            if due.get(filled.saturating_add(place)) != Some(byte) {
                self.is_right = false;
            }
        }
        self.sums = self.sums.saturating_add(bytes.len() as u64);
    }

    // A part is whole: the next one follows. Tells of a sum that is wrong.
    fn end_part(&mut self) -> Option<bool> {
        match self.part {
            Part::Header => {
                self.end_header();
                None
            }
            Part::HeaderSum => {
                let wrong = self.wrong(true);
                self.begin_segment();
                wrong
            }
            Part::Open => {
                self.end_open();
                None
            }
            Part::Segment => {
                if self.bears.data {
                    self.begin(Part::SegmentSum, 4);
                } else if self.is_open {
                    self.begin(Part::Open, 4);
                } else {
                    self.begin(Part::Header, HEADER_LEN);
                }
                None
            }
            Part::SegmentSum => {
                let wrong = self.wrong(false);
                self.begin(Part::Header, HEADER_LEN);
                wrong
            }
        }
    }

    // Whether a sum is wrong, and of which part.
    fn wrong(&mut self, is_header: bool) -> Option<bool> {
        let wrong = self.is_known && !self.is_right;
        self.is_right = true;
        self.is_known = true;
        self.sum = Sum::new();
        if wrong { Some(is_header) } else { None }
    }

    // A part begins.
    fn begin(&mut self, part: Part, left: usize) {
        self.part = part;
        self.left = left;
        if part == Part::Header {
            self.is_known = true;
        }
    }

    // The header is whole: its sum follows, or its segment.
    fn end_header(&mut self) {
        let len = u32::from_be_bytes([0, self.header[5], self.header[6], self.header[7]]);
        self.segment = (len as usize).saturating_add(pad(len) as usize);
        self.has_header = true;
        self.bears = if self.is_login() {
            Digests::NONE
        } else {
            self.digests
        };
        self.sum = Sum::new();
        if self.bears.header {
            let header = self.header;
            self.sum.take(&header);
            self.begin(Part::HeaderSum, 4);
        } else {
            self.is_known = true;
            self.begin_segment();
        }
    }

    // The segment follows, or the next PDU where there is none.
    fn begin_segment(&mut self) {
        if self.segment > 0 {
            self.begin(Part::Segment, self.segment);
        } else {
            self.begin(Part::Header, HEADER_LEN);
        }
    }
}
