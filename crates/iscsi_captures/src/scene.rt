//! A segment of a connection, and how its PDUs are written.

use crate::captured::End;
use crate::fault::CapturesFault;
use crate::file::Numbered;
use crate::moment::{is_precise, nanoseconds_of};
use crate::pdus::WrongDigest;
use crate::voice::Speaker;
use capture_connections::{Heard, Said};
use iscsi_explain::{Clock, Form, Manner, Origin, Stamp};

/// How PDUs are shown that are whole with a segment.
#[derive(Clone, Copy)]
pub(crate) struct Look {
    pub(crate) form: Form,
    pub(crate) clock: Clock,
}

/// A segment of a connection, and how PDUs are shown that are whole with it.
#[derive(Clone, Copy)]
pub(crate) struct Scene {
    pub(crate) form: Form,
    clock: Clock,
    pub(crate) number: usize,
    pub(crate) said: Said,
    /// How many of its bytes were not captured.
    pub(crate) missing: u32,
    /// Whether its connection is one that is asked for, or has the port of iSCSI.
    pub(crate) asked: bool,
    pub(crate) packet: u64,
    pub(crate) at: u64,
    pub(crate) nanoseconds: u64,
    pub(crate) precise: bool,
}

impl Scene {
    /// The segment of a packet, in a connection of this number.
    pub(crate) fn new(
        look: Look,
        number: usize,
        packet: &Numbered<'_>,
        heard: &Heard<'_>,
        missing: usize,
        asked: bool,
    ) -> Scene {
        let missing = if heard.is_cut { missing } else { 0 };
        Scene {
            form: look.form,
            clock: look.clock,
            number,
            said: heard.said,
            missing: missing.min(u32::MAX as usize) as u32,
            asked,
            packet: packet.number,
            at: packet.at,
            nanoseconds: nanoseconds_of(&packet.packet),
            precise: is_precise(&packet.packet),
        }
    }

    /// How PDUs are written that are whole with it.
    pub(crate) fn manner(&self, speaker: Speaker) -> Manner {
        Manner {
            form: self.form,
            stamp: Some(Stamp {
                connection: self.number,
                origin: speaker.origin,
                packet: self.packet,
                epoch: self.nanoseconds,
                nanoseconds: self.nanoseconds.saturating_sub(speaker.began),
                precise: self.precise,
                clock: self.clock,
                asked: None,
                since_request: None,
                from: 0,
                assumed: false,
                missing: 0,
            }),
        }
    }

    /// That bytes of it were not captured.
    pub(crate) fn cut(&self) -> CapturesFault {
        CapturesFault::Cut {
            at: self.at,
            packet: self.packet,
        }
    }

    /// That a PDU is assumed to begin at an offset.
    pub(crate) fn assumed(&self, origin: Origin, offset: u64) -> CapturesFault {
        CapturesFault::Assumed {
            connection: self.number,
            end: end_of(origin),
            offset,
            packet: self.packet,
        }
    }

    /// That a digest of the PDU at an offset is wrong.
    pub(crate) fn digest(&self, origin: Origin, wrong: WrongDigest) -> CapturesFault {
        CapturesFault::Digest {
            connection: self.number,
            end: end_of(origin),
            part: wrong.part,
            offset: wrong.offset,
            packet: self.packet,
        }
    }
}

// The end that has an origin.
fn end_of(origin: Origin) -> End {
    match origin {
        Origin::Initiator => End::Initiator,
        Origin::Target => End::Target,
    }
}
