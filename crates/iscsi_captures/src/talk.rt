//! What both ends of a connection said, PDU by PDU.

use crate::beginning::{begins_before, starts_late};
use crate::captured::stop_fault;
use crate::fault::CapturesFault;
use crate::scene::Scene;
use crate::told::Told;
use crate::voice::{Speaker, Voice};
use capture_connections::{Connection, PORT, Side, Stop};
use iscsi_explain::{Origin, Requests};
use std::alloc::Global;

/// How many bytes of a target are kept until the initiator's first byte is known.
const MOST_PENDING: usize = 65_536;

/// Whether a connection is shown.
#[derive(Clone, Copy, PartialEq, Eq)]
pub(crate) enum Standing {
    /// The initiator's first byte is not known yet.
    Undecided,
    /// It is shown.
    Shown,
    /// It is not shown: it has no login, or is not asked for and begins before the capture.
    PassedOver,
}

/// What both ends of a connection said.
#[derive(Drop)]
pub(crate) struct Talk {
    alloc: Global,
    began: u64,
    standing: Standing,
    lower: Voice,
    upper: Voice,
    requests: Requests,
    // whether it was told that it begins before the capture
    is_begun: bool,
    // the last segment that it took
    last: Option<Scene>,
    // the first packet with bytes of either end that were kept; 0: there was none
    kept_from: u64,
}

impl Talk {
    /// A connection before its first packet. It takes no memory.
    pub(crate) fn new(alloc: Global, began: u64, standing: Standing) -> Talk {
        Talk {
            alloc,
            began,
            standing,
            lower: Voice::new(alloc),
            upper: Voice::new(alloc),
            requests: Requests::new(alloc),
            is_begun: false,
            last: None,
            kept_from: 0,
        }
    }

    /// Whether it is shown.
    pub(crate) fn is_shown(&self) -> bool {
        self.standing == Standing::Shown
    }

    /// Takes a segment with its bytes, and those of its direction that are known with it. Tells each
    /// PDU that is whole then, and each remark. Returns `NoMemory` alone; after that it is used no
    /// more.
    pub(crate) fn hear(
        &mut self,
        scene: Scene,
        connection: &Connection,
        bytes: &[u8],
        fresh: &[u8],
        told: &mut Told,
    ) -> Result<(), CapturesFault> {
        if self.standing == Standing::PassedOver {
            return Ok(());
        }
        self.last = Some(scene);
        if scene.said.some && !self.is_begun && begins_before(connection) {
            self.begin_late(scene, told)?;
        }
        let side = scene.said.side;
        self.voice(side).keep(scene, connection.half(side), bytes)?;
        if self.standing == Standing::Shown {
            let speaker = self.speaker(connection, side);
            self.say(speaker, scene, side, fresh, told)?;
            return self.follow(speaker, scene, connection, side, false, told);
        }
        self.wait(scene, side, fresh)?;
        self.decide(scene, connection, told)
    }

    // Tells that the connection begins before the capture, if it is asked for. Else it is passed over.
    fn begin_late(&mut self, scene: Scene, told: &mut Told) -> Result<(), CapturesFault> {
        self.is_begun = true;
        if !scene.asked {
            self.standing = Standing::PassedOver;
            return Ok(());
        }
        self.standing = Standing::Shown;
        let connection = scene.number;
        told.remark(self.alloc, scene, None, CapturesFault::Begun { connection })
    }

    // Keeps what an end said until it is known whether the connection is shown.
    fn wait(&mut self, scene: Scene, side: Side, fresh: &[u8]) -> Result<(), CapturesFault> {
        if self.standing == Standing::PassedOver {
            return Ok(());
        }
        if !fresh.is_empty() && self.kept_from == 0 {
            self.kept_from = scene.packet;
        }
        Ok(self.voice(side).pending.extend_from_slice(fresh)?)
    }

    // Decides by the initiator's first byte. Where it is missing, the connection is shown if it is
    // asked for; else too much of its target is no login either.
    fn decide(
        &mut self,
        scene: Scene,
        connection: &Connection,
        told: &mut Told,
    ) -> Result<(), CapturesFault> {
        if self.standing == Standing::PassedOver {
            return Ok(());
        }
        let half = connection.half(connection.initiator());
        let much = self.lower.pending.len().max(self.upper.pending.len()) > MOST_PENDING;
        if half.first_byte.is_none() && half.stop.is_none() && !much {
            return Ok(());
        }
        if half.is_login() || (half.first_byte.is_none() && scene.asked) {
            return self.catch_up(scene, connection, false, told);
        }
        self.standing = Standing::PassedOver;
        self.lower = Voice::new(self.alloc);
        self.upper = Voice::new(self.alloc);
        Ok(())
    }

    // Shows what was kept of both ends, the initiator first.
    fn catch_up(
        &mut self,
        scene: Scene,
        connection: &Connection,
        at_end: bool,
        told: &mut Told,
    ) -> Result<(), CapturesFault> {
        self.standing = Standing::Shown;
        let initiator = connection.initiator();
        for side in [initiator, initiator.other()] {
            let alloc = self.alloc;
            let pending = std::mem::replace(&mut self.voice(side).pending, Vec::new(alloc));
            let speaker = self.speaker(connection, side);
            self.say(speaker, scene, side, &pending, told)?;
            self.follow(speaker, scene, connection, side, at_end, told)?;
        }
        Ok(())
    }

    // What an end said.
    fn voice(&mut self, side: Side) -> &mut Voice {
        match side {
            Side::Lower => &mut self.lower,
            Side::Upper => &mut self.upper,
        }
    }

    // Who speaks at an end.
    fn speaker(&self, connection: &Connection, side: Side) -> Speaker {
        let (origin, other) = if side == connection.initiator() {
            (Origin::Initiator, Origin::Target)
        } else {
            (Origin::Target, Origin::Initiator)
        };
        let peer = match side {
            Side::Lower => &self.upper,
            Side::Upper => &self.lower,
        };
        Speaker {
            origin,
            began: self.began,
            late: starts_late(connection.half(side)),
            is_begun: self.is_begun,
            other: peer.numbers(other),
            offers: peer.offers(),
        }
    }

    // Tells what an end said.
    fn say(
        &mut self,
        speaker: Speaker,
        scene: Scene,
        side: Side,
        bytes: &[u8],
        told: &mut Told,
    ) -> Result<(), CapturesFault> {
        match side {
            Side::Lower => self
                .lower
                .say(speaker, scene, bytes, &mut self.requests, told),
            Side::Upper => self
                .upper
                .say(speaker, scene, bytes, &mut self.requests, told),
        }
    }

    // Follows an end past missing bytes.
    fn follow(
        &mut self,
        speaker: Speaker,
        scene: Scene,
        connection: &Connection,
        side: Side,
        at_end: bool,
        told: &mut Told,
    ) -> Result<(), CapturesFault> {
        let half = connection.half(side);
        match side {
            Side::Lower => self
                .lower
                .follow(speaker, scene, half, at_end, &mut self.requests, told),
            Side::Upper => self
                .upper
                .follow(speaker, scene, half, at_end, &mut self.requests, told),
        }
    }

    /// Tells what is due if the capture ends here: segments that wait for missing bytes, and what is
    /// wrong with each direction. Of a connection that is not decided this is why the initiator's
    /// first byte is missing, if it is asked for.
    pub(crate) fn end(
        &mut self,
        connection: &Connection,
        told: &mut Told,
    ) -> Result<(), CapturesFault> {
        let Some(scene) = self.last else {
            return Ok(());
        };
        if self.standing == Standing::Undecided && scene.asked {
            self.end_undecided(scene, connection, told)?;
        }
        if self.standing != Standing::Shown {
            return Ok(());
        }
        let initiator = connection.initiator();
        for side in [initiator, initiator.other()] {
            let speaker = self.speaker(connection, side);
            self.follow(speaker, scene, connection, side, true, told)?;
            self.voice(side).end(speaker, scene, told)?;
        }
        Ok(())
    }

    // Shows what the initiator said behind its missing first byte; if that is nothing, its byte is
    // told missing where its target spoke.
    fn end_undecided(
        &mut self,
        scene: Scene,
        connection: &Connection,
        told: &mut Told,
    ) -> Result<(), CapturesFault> {
        let initiator = connection.initiator();
        if self.voice(initiator).keeps() {
            return self.catch_up(scene, connection, true, told);
        }
        if self.kept_from == 0 {
            return Ok(());
        }
        let gap = stop_fault(scene.number, Stop::Gap(0, self.kept_from));
        told.remark(self.alloc, scene, Some(Origin::Initiator), gap)
    }
}

/// Whether one of the ends has the port of iSCSI.
pub(crate) fn has_port(connection: &Connection) -> bool {
    connection.ends.lower.port() == PORT || connection.ends.upper.port() == PORT
}
