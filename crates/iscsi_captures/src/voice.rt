//! One end of a connection, read past bytes that are missing. One file, since each step hands on the
//! same things.

use crate::captured::stop_fault;
use crate::digests::Offers;
use crate::fault::CapturesFault;
use crate::pdus::Reading;
use crate::scene::Scene;
use crate::search::Numbers;
use crate::told::Told;
use capture_connections::{Half, Start, Stop, WAITING};
use iscsi_explain::{Manner, Origin, Requests};
use iscsi_stream::ToolFault;
use std::alloc::Global;

/// A segment that waits for bytes before it, or of which bytes are missing.
#[derive(Drop)]
struct Kept {
    scene: Scene,
    bytes: Vec<u8>,
}

/// Who speaks, and when the connection began.
#[derive(Clone, Copy)]
pub(crate) struct Speaker {
    pub(crate) origin: Origin,
    pub(crate) began: u64,
    /// Whether the first byte that was captured may not be the first one of the direction.
    pub(crate) late: bool,
    /// Whether it was told that the connection begins before the capture.
    pub(crate) is_begun: bool,
    /// The numbers of the other end's last header.
    pub(crate) other: Option<Numbers>,
    /// What the other end said of digests.
    pub(crate) offers: Offers,
}

/// What one end said. It is followed by its direction as long as that has no gap. Behind one it is
/// followed by the segments that were kept since.
#[derive(Drop)]
pub(crate) struct Voice {
    alloc: Global,
    reading: Reading,
    /// Bytes that were not read yet.
    pub(crate) pending: Vec<u8>,
    kept: Vec<Kept>,
    // the number of the next byte, where it is followed by segments
    next: Option<u32>,
    // the last one of the segments that were read
    last: Option<Scene>,
    has_begun: bool,
    tells_cut: bool,
    is_told: bool,
    ended: bool,
}

impl Voice {
    /// Nothing was said. It takes no memory.
    pub(crate) fn new(alloc: Global) -> Voice {
        Voice {
            alloc,
            reading: Reading::new(alloc),
            pending: Vec::new(alloc),
            kept: Vec::new(alloc),
            next: None,
            last: None,
            has_begun: false,
            tells_cut: true,
            is_told: false,
            ended: false,
        }
    }

    /// The numbers of the last header.
    pub(crate) fn numbers(&self, origin: Origin) -> Option<Numbers> {
        self.reading.numbers(origin)
    }

    /// What the end said of digests.
    pub(crate) fn offers(&self) -> Offers {
        self.reading.offers()
    }

    /// Whether segments wait, or lack bytes.
    pub(crate) fn keeps(&self) -> bool {
        !self.kept.is_empty()
    }

    /// Keeps a segment, if bytes before it or of it are missing; lets those go that wait no more.
    pub(crate) fn keep(
        &mut self,
        scene: Scene,
        half: &Half,
        bytes: &[u8],
    ) -> Result<(), CapturesFault> {
        let waits = self.next.is_some() || half.waiting > 0 || half.stop.is_some();
        if !waits && scene.missing == 0 {
            self.kept.clear();
            return Ok(());
        }
        if self.ended || (bytes.is_empty() && scene.missing == 0) {
            return Ok(());
        }
        let mut kept = Vec::new(self.alloc);
        kept.extend_from_slice(bytes)?;
        Ok(self.kept.push(Kept { scene, bytes: kept })?)
    }

    /// Reads bytes of the direction, which a segment made known. Behind missing bytes it is followed
    /// by segments, and these bytes are none of it.
    pub(crate) fn say(
        &mut self,
        speaker: Speaker,
        scene: Scene,
        bytes: &[u8],
        requests: &mut Requests,
        told: &mut Told,
    ) -> Result<(), CapturesFault> {
        if self.next.is_some() {
            return Ok(());
        }
        self.tell(speaker, scene, bytes, requests, told)
    }

    // Reads the next bytes.
    fn tell(
        &mut self,
        speaker: Speaker,
        scene: Scene,
        bytes: &[u8],
        requests: &mut Requests,
        told: &mut Told,
    ) -> Result<(), CapturesFault> {
        if self.ended || bytes.is_empty() {
            return Ok(());
        }
        if !self.has_begun {
            self.has_begun = true;
            if speaker.late {
                self.reading.lose();
            }
        }
        let manner = scene.manner(speaker);
        self.reading.hears(speaker.offers);
        if !self.reading.is_searching() {
            let said = self.reading.read(manner, requests, bytes, &mut told.out);
            return self.tell_said(speaker, scene, said, told);
        }
        let Some(found) = self.reading.look(speaker.origin, speaker.other, bytes)? else {
            return Ok(());
        };
        if let Some(offset) = self.reading.assumed_from() {
            self.remark(speaker, scene, scene.assumed(speaker.origin, offset), told)?;
        }
        let said = self.reading.begin(manner, requests, found, &mut told.out);
        self.tell_said(speaker, scene, said, told)
    }

    // Tells why the stream goes no further. Behind a place that was assumed another one is looked for.
    fn tell_said(
        &mut self,
        speaker: Speaker,
        scene: Scene,
        said: Result<(), ToolFault>,
        told: &mut Told,
    ) -> Result<(), CapturesFault> {
        for wrong in self.reading.wrong_digests() {
            self.remark(speaker, scene, scene.digest(speaker.origin, wrong), told)?;
        }
        match said {
            Ok(()) => Ok(()),
            Err(ToolFault::Stream(fault)) => {
                let fault = self.reading.moved(fault);
                if self.reading.assumed_from().is_some() {
                    self.reading.lose();
                } else {
                    self.ended = true;
                }
                let connection = scene.number;
                let fault = CapturesFault::Stream { connection, fault };
                self.remark(speaker, scene, fault, told)
            }
            Err(_) => Err(CapturesFault::NoMemory),
        }
    }

    // Tells of a remark.
    fn remark(
        &mut self,
        speaker: Speaker,
        scene: Scene,
        fault: CapturesFault,
        told: &mut Told,
    ) -> Result<(), CapturesFault> {
        self.is_told = true;
        told.remark(self.alloc, scene, Some(speaker.origin), fault)
    }

    /// Follows the end past missing bytes, where its direction goes no further. At the end of the
    /// capture no segment waits any longer.
    pub(crate) fn follow(
        &mut self,
        speaker: Speaker,
        scene: Scene,
        half: &Half,
        at_end: bool,
        requests: &mut Requests,
        told: &mut Told,
    ) -> Result<(), CapturesFault> {
        if self.ended {
            return Ok(());
        }
        if self.next.is_none() && !self.leaves(speaker, scene, half, at_end, told)? {
            return Ok(());
        }
        let most = if at_end { 0 } else { WAITING };
        for _ in 0..self.kept.len() {
            self.advance(speaker, requests, told)?;
            if self.cost() <= most {
                return Ok(());
            }
            self.jump(speaker, requests, told)?;
        }
        self.advance(speaker, requests, told)
    }

    // Whether the end is followed by segments from now on: bytes are missing. A conflict ends it.
    fn leaves(
        &mut self,
        speaker: Speaker,
        scene: Scene,
        half: &Half,
        at_end: bool,
        told: &mut Told,
    ) -> Result<bool, CapturesFault> {
        let stop = if at_end { half.stopped() } else { half.stop };
        match stop {
            None if !self.lacks() => return Ok(false),
            None | Some(Stop::Gap(..)) => {}
            Some(stop) => {
                self.ended = true;
                self.remark(speaker, scene, stop_fault(scene.number, stop), told)?;
                return Ok(false);
            }
        }
        self.next = Some(self.next_of(half));
        Ok(true)
    }

    // Whether bytes of a segment that was kept are missing.
    fn lacks(&self) -> bool {
        self.kept.iter().any(|kept| kept.scene.missing > 0)
    }

    // The number of the byte behind those that the direction has.
    fn next_of(&self, half: &Half) -> u32 {
        match half.start {
            Start::Syn(first) | Start::Bytes(first) => first.wrapping_add(low(half.known)),
            Start::Unknown => match self.kept.first() {
                Some(kept) => kept.scene.said.first,
                None => 0,
            },
        }
    }

    // How much waits: of each segment its bytes and 64 more.
    fn cost(&self) -> usize {
        let mut cost: usize = 0;
        for kept in &self.kept {
            cost = cost.saturating_add(kept.bytes.len()).saturating_add(64);
        }
        cost
    }

    // Reads segments whose turn it is, until each that is left waits for missing bytes.
    fn advance(
        &mut self,
        speaker: Speaker,
        requests: &mut Requests,
        told: &mut Told,
    ) -> Result<(), CapturesFault> {
        for _ in 0..self.kept.len() {
            let Some(next) = self.next else {
                return Ok(());
            };
            let Some(k) = self.kept.iter().position(|kept| kept.is_due(next)) else {
                return Ok(());
            };
            let kept = self.kept.remove(k);
            self.read(speaker, next, &kept, requests, told)?;
        }
        Ok(())
    }

    // Reads a segment that begins at the next byte or before it.
    fn read(
        &mut self,
        speaker: Speaker,
        next: u32,
        kept: &Kept,
        requests: &mut Requests,
        told: &mut Told,
    ) -> Result<(), CapturesFault> {
        let old = next.wrapping_sub(kept.scene.said.first) as usize;
        let fresh = kept.bytes.get(old..).unwrap_or(&[]);
        let scene = self.later(kept.scene);
        let next = next.wrapping_add(low(fresh.len() as u64));
        self.next = Some(next);
        self.tell(speaker, scene, fresh, requests, told)?;
        let lost = kept.lost_from(next);
        if lost == 0 {
            return Ok(());
        }
        self.next = Some(next.wrapping_add(lost));
        if self.tells_cut && !self.ended {
            self.tells_cut = false;
            self.remark(speaker, scene, kept.scene.cut(), told)?;
        }
        self.skip(speaker, scene, lost, requests, told)
    }

    // The later one of a segment and those that were read: with it the PDUs are whole.
    fn later(&mut self, scene: Scene) -> Scene {
        let scene = match self.last {
            Some(last) if last.packet > scene.packet => last,
            _ => scene,
        };
        self.last = Some(scene);
        scene
    }

    // Passes over the bytes before the segment that is the next one of those that wait.
    fn jump(
        &mut self,
        speaker: Speaker,
        requests: &mut Requests,
        told: &mut Told,
    ) -> Result<(), CapturesFault> {
        let Some(next) = self.next else {
            return Ok(());
        };
        let Some(scene) = self.nearest(next) else {
            return Ok(());
        };
        let distance = scene.said.first.wrapping_sub(next);
        let gap = Stop::Gap(self.reading.at(), scene.packet);
        if !self.ended {
            self.remark(speaker, scene, stop_fault(scene.number, gap), told)?;
        }
        self.next = Some(scene.said.first);
        self.skip(speaker, scene, distance, requests, told)
    }

    // The segment that begins next behind a byte.
    fn nearest(&self, next: u32) -> Option<Scene> {
        let mut nearest: Option<Scene> = None;
        for kept in &self.kept {
            nearest = Some(nearer(next, nearest, kept.scene));
        }
        nearest
    }

    // Passes over bytes that are missing.
    fn skip(
        &mut self,
        speaker: Speaker,
        scene: Scene,
        count: u32,
        requests: &mut Requests,
        told: &mut Told,
    ) -> Result<(), CapturesFault> {
        if self.ended {
            return Ok(());
        }
        self.has_begun = true;
        let manner = scene.manner(speaker);
        let said = self.reading.skip(manner, requests, count, &mut told.out);
        self.tell_said(speaker, scene, said, told)
    }

    /// Ends the direction: tells of a PDU that is begun, and of a beginning that was not found.
    pub(crate) fn end(
        &mut self,
        speaker: Speaker,
        scene: Scene,
        told: &mut Told,
    ) -> Result<(), CapturesFault> {
        if self.ended {
            return Ok(());
        }
        self.ended = true;
        let connection = scene.number;
        if self.reading.is_searching() && !self.is_told && !speaker.is_begun {
            return self.remark(speaker, scene, CapturesFault::Begun { connection }, told);
        }
        match self.reading.finish() {
            Ok(()) => Ok(()),
            Err(fault) => {
                let fault = self.reading.moved(fault);
                let fault = CapturesFault::Stream { connection, fault };
                self.remark(speaker, scene, fault, told)
            }
        }
    }
}

// A number of bytes as sequence numbers count it, modulo 2^32.
fn low(count: u64) -> u32 {
    (count % 4_294_967_296) as u32
}

// That one of two segments which begins nearer behind a byte.
fn nearer(next: u32, first: Option<Scene>, second: Scene) -> Scene {
    match first {
        Some(first)
            if first.said.first.wrapping_sub(next) <= second.said.first.wrapping_sub(next) => {
            first
        }
        _ => second,
    }
}

impl Kept {
    // Whether it begins at the next byte or before it.
    fn is_due(&self, next: u32) -> bool {
        next.wrapping_sub(self.scene.said.first) < 0x8000_0000
    }

    // How many bytes of it are missing from the next byte on.
    fn lost_from(&self, next: u32) -> u32 {
        let end = self
            .scene
            .said
            .first
            .wrapping_add(low(self.bytes.len() as u64));
        let known = next.wrapping_sub(end);
        if known < 0x8000_0000 {
            self.scene.missing.saturating_sub(known)
        } else {
            0
        }
    }
}
