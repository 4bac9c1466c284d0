//! PDUs out of a stream that comes in pieces.

ghost use Rattle.std.specs.Prelude.{◌≡◌, ◌≢◌, ◌≤◌, ◌<◌, ◌^◌, ◌+◌, ◌↔◌, [], false, true, length, IfOk, IfErr, OnErr, OnOk, ◌⊎◌, IfSome, IsSome, IsTrue, ℕ, List, take};
ghost use Rattle.iscsi_pdu.specs.Meaning.{IsHeader, Means, HeadFits};
ghost use Rattle.iscsi_pdu.specs.declared.head.Head.{Head};
ghost use Rattle.iscsi_stream.specs.Segment.{continues};
ghost use Rattle.iscsi_stream.specs.Framing.{opening_framing, is_ready, FramerTakes, FramerFeedFails, stopped, FinishFails, pdu_given_up};
ghost use Rattle.iscsi_stream.specs.Headers.{TakesHeader, skipped};

use crate::fault::StreamFault;
use crate::gathering::{Buffer, Stage, gather};
use crate::logins::Logins;
use iscsi_pdu::{HEADER_LEN, Head, Pdu, pad};
use std::alloc::Global;
use std::marker::Model;

/// Gathers the PDUs of a stream, one at a time, from pieces of any length. It has one buffer, which
/// is kept from PDU to PDU. A segment no longer than an earlier one asks for no memory, and a
/// longer one asks for its own length.
#[derive(Drop)]
pub struct Framer {
    limit: u32,
    place: u64,
    logins: Logins,
    header: [u8; 48],
    buffer: Buffer,
    stage: Stage,
    failed: bool,
}

impl Model for Framer {
    ghost use Rattle.std.specs.Prelude.{◌≡◌, ◌<◌, ◌^◌, [], false, if◌then◌else◌, IsTrue};
    ghost use Rattle.std.specs.Vec.{vec_capacity};
    ghost use Rattle.iscsi_stream.specs.Framing.{Framing};
    ghost use Rattle.iscsi_stream.specs.Gathering.{gathered};
    ghost use Rattle.iscsi_stream.specs.inner.Gathering.{HasSegmentRoom, FramerInv};

    ghost Value = { Framing };

    ghost view = { λ f. record {
      limit = f.limit;
      place = f.place;
      logins = f.logins;
      held = if f.failed then [] else gathered f.header f.buffer.segment.items f.stage;
      room = f.buffer.room;
      failed = f.failed;
    } };

    ghost invariant = { λ f. (f.limit < 2 ^ 24) × (f.failed ≡ false →
        FramerInv f.limit f.header f.buffer.segment.items f.buffer.room f.stage)
        × HasSegmentRoom f.limit (vec_capacity f.buffer.segment) f.buffer.room };
}

impl Framer {
    /// A framer at the beginning of a stream, for segments of at most `limit` bytes. It takes no
    /// memory.
    pub fn new(alloc: Global, limit: u32) -> Framer
        requires { limit < 2 ^ 24 }
        ensures { result ≡ opening_framing limit }
    {
        Framer {
            limit,
            place: 0,
            logins: Logins::new(),
            header: [0; 48],
            buffer: Buffer {
                segment: Vec::new(alloc),
                room: 0,
            },
            stage: Stage::Header(0),
            failed: false,
        }
    }

    /// Takes bytes of the piece until a PDU is ready, and says how many bytes it took. It takes all
    /// of them, or fewer if a PDU is ready then; it takes none while a PDU is ready already.
    ///
    /// With the last byte of a header it returns:
    /// - `Head` if the header is refused;
    /// - `OverLimit` if the segment of the header is longer than the limit;
    /// - `NoMemory` if that segment is longer than each before it and there is no memory for it.
    ///
    /// After a fault it returns `Failed`, and holds nothing.
    pub fn feed(&mut self, piece: &[u8]) -> Result<usize, StreamFault>
        ensures ok { IfOk result (λ n. FramerTakes self.old piece.now n self.new) }
        ensures err { IfErr result (FramerFeedFails self.old piece.now) }
        ensures stopped { OnErr result (self.new ≡ stopped self.old) }
        ensures bound { length self.new.held ≤ 48 + self.new.limit + 3 }
        ensures room { self.new.room ≤ self.new.limit }
    {
        if self.failed {
            return Err(StreamFault::Failed);
        }
        let result = gather(
            &mut self.header,
            &mut self.buffer,
            &mut self.stage,
            self.limit,
            self.place,
            piece,
        );
        if result.is_err() {
            self.failed = true;
        }
        result
    }

    /// Takes bytes of the piece up to the end of a header, and says how many it took: all of them,
    /// or as many as the header lacks. Where the header is whole it takes none. Its faults, and
    /// what they leave, are those of `feed` with the piece.
    pub fn feed_header(&mut self, piece: &[u8]) -> Result<usize, StreamFault>
        ensures ok { IfOk result (λ n. TakesHeader self.old piece.now n self.new) }
        ensures err { IfErr result (FramerFeedFails self.old piece.now) }
        ensures stopped { OnErr result (self.new ≡ stopped self.old) }
    {
        let lacking = HEADER_LEN.saturating_sub(self.held());
        self.feed(&piece[..piece.len().min(lacking)])
    }

    /// The head of the PDU that is begun, and the length of its segment, where the header is whole
    /// and no more of the PDU came. The segment may be empty, and the PDU ready.
    pub fn begun(&self) -> Option<(&Head, u32)>
        ensures begun { IsSome result ↔ ((self.now.failed ≡ false) × (length self.now.held ≡ 48)) }
        ensures header { IfSome result (λ begun. IsHeader self.now.held begun.0.now begun.1) }
        ensures fits { IfSome result (λ begun. HeadFits begun.0.now) }
        ensures within { IfSome result (λ begun. begun.1 ≤ self.now.limit) }
        ensures room { IfSome result (λ begun. begun.1 ≤ self.now.room) }
        ensures short { self.now.limit < 2 ^ 24 }
    {
        if self.failed {
            return None;
        }
        let Stage::Body { head, len, padded } = &self.stage else {
            return None;
        };
        if self.buffer.segment.len() > 0 || *padded > 0 {
            return None;
        }
        Some((head, *len))
    }

    /// Gives the PDU up that is begun, where the header is whole and no more of it came: its
    /// segment and padding are taken elsewhere, and the next byte is one of the next PDU. Else it
    /// does nothing.
    pub fn skip(&mut self)
        ensures skipped { (head : Head) (len : ℕ) → self.old.failed ≡ false
            → IsHeader self.old.held head len → self.new ≡ skipped self.old head len }
        ensures none { length self.old.held ≢ 48 → self.new ≡ self.old }
    {
        let Some((head, len)) = self.begun() else {
            return;
        };
        let logins = self.logins.after(head);
        let length = HEADER_LEN as u64 + u64::from(len) + u64::from(pad(len));
        self.place = self.place.saturating_add(length);
        self.logins = logins;
        self.stage = Stage::Header(0);
    }

    /// The header of the next PDU, where nothing is held, and that header lies whole at the beginning
    /// of the piece.
    #[inline(always)]
    pub(crate) fn next_header<'a>(&self, piece: &'a [u8]) -> Option<&'a [u8; 48]>
        ensures live { IsSome result → self.now.failed ≡ false }
        ensures empty { IsSome result → self.now.held ≡ [] }
        ensures whole { IsSome result → 48 ≤ length piece.now }
        ensures header { IfSome result (λ header. header.now ≡ take 48 piece.now) }
    {
        if self.failed || self.held() > 0 {
            return None;
        }
        piece.first_chunk()
    }

    /// Passes a PDU by, which has this head and no segment, where nothing is held.
    #[inline(always)]
    pub(crate) fn pass(&mut self, head: &Head)
        ensures { self.old.held ≡ [] → self.new ≡ skipped self.old head.now 0 }
    {
        self.logins = self.logins.after(head);
        self.place = self.place.saturating_add(HEADER_LEN as u64);
    }

    /// Whether a PDU with this head, which is the next one, continues another login PDU.
    pub(crate) fn continues(&self, head: &Head) -> bool
        ensures { result ≡ continues self.now.logins head.now }
    {
        self.logins.continues(head)
    }

    /// The PDU that is ready. Its segment lies in the framer's buffer.
    pub fn pdu(&self) -> Option<Pdu<'_>>
        ensures ready { IsSome result ↔ IsTrue (is_ready self.now) }
        ensures means { IfSome result (λ p. Means self.now.held p.head p.bytes.now) }
        ensures fits { IfSome result (λ p. HeadFits p.head) }
        ensures within { IfSome result (λ p. length p.bytes.now ≤ self.now.limit) }
        ensures short { self.now.limit < 2 ^ 24 }
    {
        match self.ready() {
            Some((head, bytes)) => Some(Pdu { head: *head, bytes }),
            None => None,
        }
    }

    /// The head and the segment of the PDU that is ready. A head has 80 bytes, so it is lent.
    pub(crate) fn ready(&self) -> Option<(&Head, &[u8])>
        ensures ready { IsSome result ↔ IsTrue (is_ready self.now) }
        ensures means { IfSome result (λ p. Means self.now.held p.0.now p.1.now) }
        ensures fits { IfSome result (λ p. HeadFits p.0.now) }
        ensures within { IfSome result (λ p. length p.1.now ≤ self.now.limit) }
        ensures short { self.now.limit < 2 ^ 24 }
    {
        if self.failed {
            return None;
        }
        let Stage::Body { head, len, padded } = &self.stage else {
            return None;
        };
        if self.buffer.segment.len() < *len as usize || *padded < pad(*len) {
            return None;
        }
        Some((head, &self.buffer.segment))
    }

    /// The number of stream bytes before the PDU that is ready or begun, or before the next one.
    pub fn place(&self) -> u64
        ensures { result ≡ self.now.place }
    {
        self.place
    }

    /// Whether the ready PDU continues another login PDU; `false` where none is ready.
    pub fn continued(&self) -> bool
        ensures ready { IsTrue result → IsTrue (is_ready self.now) }
        ensures value { (head : Head) (segment : List ℕ) → IsTrue (is_ready self.now)
            → Means self.now.held head segment → result ≡ continues self.now.logins head }
    {
        match self.ready() {
            Some((head, _)) => self.logins.continues(head),
            None => false,
        }
    }

    /// The number of stream bytes that are gathered and not given up; those of the padding count.
    pub fn held(&self) -> usize
        ensures value { result ≡ length self.now.held }
        ensures bound { result ≤ 48 + self.now.limit + 3 }
    {
        if self.failed {
            return 0;
        }
        match self.stage {
            Stage::Header(filled) => filled,
            Stage::Body { padded, .. } => HEADER_LEN + self.buffer.segment.len() + padded as usize,
        }
    }

    /// Gives the ready PDU up, and does nothing where none is ready.
    pub fn take(&mut self)
        ensures taken { (head : Head) (segment : List ℕ) → IsTrue (is_ready self.old)
            → Means self.old.held head segment → self.new ≡ pdu_given_up self.old head }
        ensures none { is_ready self.old ≡ false → self.new ≡ self.old }
    {
        let Some((head, _)) = self.ready() else {
            return;
        };
        let logins = self.logins.after(head);
        let held = self.held();
        self.place = self.place.saturating_add(held as u64);
        self.logins = logins;
        self.buffer.segment.clear();
        self.stage = Stage::Header(0);
    }

    /// Ends the stream. Returns `Truncated` where a PDU is begun and not whole, and `Failed` after
    /// a fault; a PDU that is ready is none.
    pub fn finish(&mut self) -> Result<(), StreamFault>
        ensures ok { OnOk result ((self.old.failed ≡ false)
            × ((self.old.held ≡ []) ⊎ IsTrue (is_ready self.old)) × (self.new ≡ self.old)) }
        ensures err { IfErr result (FinishFails self.old) }
        ensures stopped { OnErr result (self.new ≡ stopped self.old) }
    {
        if self.failed {
            return Err(StreamFault::Failed);
        }
        if self.held() > 0 && self.ready().is_none() {
            self.failed = true;
            return Err(StreamFault::Truncated(self.place));
        }
        Ok(())
    }
}
