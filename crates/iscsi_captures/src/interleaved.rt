//! Both directions of a capture's connections, in the order of the capture.

ghost use Rattle.std.specs.Prelude.{◌≡◌, [], OnOk};
ghost use Rattle.std.specs.Io.KnownBytes.{Appends};
ghost use Rattle.iscsi_captures.specs.Written.{WroteBytes};

use crate::fault::CapturesFault;
use crate::file::{CaptureFile, Numbered, Stood};
use crate::moment::nanoseconds_of;
use crate::passed::PassedOver;
use crate::scene::{Look, Scene};
use crate::talk::{Standing, Talk, has_port};
use crate::times::Times;
use crate::told::Told;
use capture_connections::{Connections, heard_of};
use capture_file::Segment;
use iscsi_explain::Form;
use iscsi_stream::write_fully;
use jiff::tz::TimeZone;
use std::alloc::{AllocError, Global};
use std::io::{Read, Write};

/// How many bytes are gathered before they are written.
const GATHERED: usize = 65_536;

/// What of a capture is shown, and how.
#[derive(Clone, Copy)]
pub struct Showing<'a> {
    /// The form of each PDU.
    pub form: Form,
    /// The number of the only connection that is shown.
    pub only: Option<usize>,
    /// What stands in a line for the time of its PDU.
    pub times: Times,
    /// The time zone of `Times::Local`.
    pub zone: &'a TimeZone<'a>,
    /// The names of the capture's files, as remarks have them.
    pub names: &'a [&'a str],
}

/// Reads a capture, which is all files of a `CaptureFile`, to its end. Writes each PDU of both
/// directions in a form, in the order in which they became whole. Without a number these are all connections that begin with a login request, and
/// those with port 3260 that begin before the capture.
///
/// Each fault of a direction is a remark, and the reading goes on: past missing bytes within a data
/// segment with the next PDU. Past others, and where the beginning is missing, it goes on where three
/// headers in a row agree, which is a remark, too (`Assumed`). What leaves the profile, and `Conflict`,
/// ends a direction where nothing was assumed. In the forms of JSON each remark is an object in its
/// place. Each is a line of `errors`, but the last one, which is returned at the end.
///
/// A connection whose beginning is missing has the remark `Begun`, if it is the one asked for or one
/// of its ends has port 3260. One with that port whose initiator's first byte is missing has the
/// remark of the initiator's direction: `Cut`, `Gap` or `Conflict`. A fault of the file comes after
/// what is due for all packets before it.
///
/// Packets that are fragments, lack headers or are of a link that is not read are passed over. If
/// there is no remark, why the first of them was is returned at the end: `Fragment`, `Cut` or `Link`.
/// Else `NoSession` comes if the capture has no connection to show, and `NoConnection` if it has none
/// with the number.
pub fn show_capture<R: Read, W: Write, E: Write>(
    alloc: Global,
    showing: Showing<'_>,
    file: &mut CaptureFile,
    source: &mut R,
    w: &mut W,
    errors: &mut E,
) -> Result<(), CapturesFault>
    ensures moves { WroteBytes (W.contents w.old) (W.contents w.new) }
{
    let mut stage = Stage::new(alloc, showing);
    let read = stage.read_all(file, source, w, errors);
    let ended = stage.end();
    let written = write_gathered(&mut stage.told.out, w);
    stage.tell(file, errors);
    stage.concluded(first_of(written, read), ended, file, errors)
}

/// The connections of a capture, as far as they are shown.
#[derive(Drop)]
struct Stage<'a> {
    alloc: Global,
    showing: Showing<'a>,
    connections: Connections,
    talks: Vec<Talk>,
    passed: PassedOver,
    // when the first packet was captured, in nanoseconds from 1970 on
    first: Option<u64>,
    // the last remark, which was not written yet
    fault: Option<CapturesFault>,
    fresh: Vec<u8>,
    told: Told,
}

impl<'a> Stage<'a> {
    fn new(alloc: Global, showing: Showing<'a>) -> Stage<'a> {
        Stage {
            alloc,
            showing,
            connections: Connections::new(alloc),
            talks: Vec::new(alloc),
            passed: PassedOver::new(),
            first: None,
            fault: None,
            fresh: Vec::new(alloc),
            told: Told::new(alloc),
        }
    }

    // Reads to the end of the file.
    #[tactic(auto, using(crate::proofs::Shown::wrote_none, crate::proofs::Shown::wrote_more))]
    fn read_all<R: Read, W: Write, E: Write>(
        &mut self,
        file: &mut CaptureFile,
        source: &mut R,
        w: &mut W,
        errors: &mut E,
    ) -> Result<(), CapturesFault>
        ensures moves { WroteBytes (W.contents w.old) (W.contents w.new) }
    {
        for turn in 0..u64::MAX {
            let more = self.step(file, source, w, errors)?;
            if !more {
                return Ok(());
            }
        }
        Ok(())
    }

    // One step of the file; says whether it goes on. What was gathered is written before more of
    // the file is read, and where it is much.
    fn step<R: Read, W: Write, E: Write>(
        &mut self,
        file: &mut CaptureFile,
        source: &mut R,
        w: &mut W,
        errors: &mut E,
    ) -> Result<bool, CapturesFault>
        ensures moves { WroteBytes (W.contents w.old) (W.contents w.new) }
    {
        if !file.is_at_hand() {
            write_gathered(&mut self.told.out, w)?;
            self.tell(file, errors);
            return self.read_on(file, source);
        }
        if let Stood::Packet(packet) = file.stand()? {
            self.hear(packet)?;
        }
        self.write_much(w)?;
        Ok(true)
    }

    // Writes what was gathered, if it is much.
    fn write_much<W: Write>(&mut self, w: &mut W) -> Result<(), CapturesFault>
        ensures moves { WroteBytes (W.contents w.old) (W.contents w.new) }
    {
        if self.told.out.len() < GATHERED {
            return Ok(());
        }
        let out = &mut self.told.out;
        write_gathered(out, w)
    }

    // Reads on in the file, which may wait for long: nothing that was gathered is unwritten. No
    // other function of a stage is given the reader but those that call this one. Says whether the
    // file goes on.
    fn read_on<R: Read>(
        &mut self,
        file: &mut CaptureFile,
        source: &mut R,
    ) -> Result<bool, CapturesFault>
        requires written { self.old.told.out.items ≡ [] }
    {
        file.read_on(source)
    }

    // Writes a line for each remark but the last. A failed write of one is not told.
    fn tell<E: Write>(&mut self, file: &CaptureFile, errors: &mut E)
        ensures kept { self.new.told.out ≡ self.old.told.out }
    {
        let remarks = std::mem::replace(&mut self.told.remarks, Vec::new(self.alloc));
        tell_lines(remarks, &mut self.fault, self.showing.names, file, errors);
    }

    // Takes a packet. One with no segment that is read is passed over.
    fn hear(&mut self, packet: Numbered<'_>) -> Result<(), CapturesFault> {
        if self.first.is_none() {
            self.first = Some(nanoseconds_of(&packet.packet));
        }
        match packet.segment() {
            Ok(Some(segment)) => self.hear_segment(&packet, &segment),
            Ok(None) => Ok(()),
            Err(reason) => {
                self.passed.note(reason);
                Ok(())
            }
        }
    }

    // Takes the segment of a packet.
    fn hear_segment(
        &mut self,
        packet: &Numbered<'_>,
        segment: &Segment<'_>,
    ) -> Result<(), CapturesFault> {
        let heard = heard_of(segment, packet.number);
        self.fresh.clear();
        let number = self.connections.take(heard, &mut self.fresh)?;
        self.connections.keep_within();
        self.meet(number, packet)?;
        let look = self.look(nanoseconds_of(&packet.packet));
        let Some(connection) = self.connections.list().get(number) else {
            return Ok(());
        };
        let asked = self.showing.only.is_some() || has_port(connection);
        let scene = Scene::new(look, number, packet, &heard, segment.missing, asked);
        match self.talks.get_mut(number) {
            Some(talk) => talk.hear(scene, connection, heard.bytes, &self.fresh, &mut self.told),
            None => Ok(()),
        }
    }

    // How PDUs are shown that are whole at a time, in nanoseconds from 1970 on.
    fn look(&self, now: u64) -> Look {
        let first = self.first.unwrap_or(now);
        Look {
            form: self.showing.form,
            clock: self.showing.times.clock(self.showing.zone, first, now),
        }
    }

    // Has a connection of this number, of which this is the first packet if there was none.
    fn meet(&mut self, number: usize, packet: &Numbered<'_>) -> Result<(), AllocError> {
        if number < self.talks.len() {
            return Ok(());
        }
        let standing = match self.showing.only {
            None => Standing::Undecided,
            Some(only) if only == number => Standing::Shown,
            Some(_) => Standing::PassedOver,
        };
        Ok(self.talks.push(Talk::new(self.alloc, nanoseconds_of(&packet.packet), standing))?)
    }

    // Tells what is due where the capture ends.
    fn end(&mut self) -> Result<(), CapturesFault> {
        let list = self.connections.list();
        for (number, talk) in self.talks.iter_mut().enumerate() {
            if let Some(connection) = list.get(number) {
                talk.end(connection, &mut self.told)?;
            }
        }
        Ok(())
    }

    // How the job ends, which is the fault of reading, or the last remark. A remark before a fault of
    // reading is written.
    fn concluded<E: Write>(
        &self,
        read: Result<(), CapturesFault>,
        ended: Result<(), CapturesFault>,
        file: &CaptureFile,
        errors: &mut E,
    ) -> Result<(), CapturesFault> {
        let Err(failed) = first_of(read, ended) else {
            return match self.fault.or(self.unshown()).or(self.passed.first()) {
                Some(fault) => Err(fault),
                None => Ok(()),
            };
        };
        if let Some(last) = self.fault {
            tell_line(&last, self.showing.names, file, errors);
        }
        Err(failed)
    }

    // Why there is nothing to show, if that is so: the capture has no connection that is asked for.
    // Why the first packet was passed over tells more.
    fn unshown(&self) -> Option<CapturesFault> {
        let missing = match self.showing.only {
            None if self.talks.iter().any(|talk| talk.is_shown()) => return None,
            None => CapturesFault::NoSession,
            Some(connection) if connection < self.talks.len() => return None,
            Some(connection) => CapturesFault::NoConnection { connection },
        };
        Some(self.passed.first().unwrap_or(missing))
    }
}

// Writes a line for each remark but the last, which is kept.
fn tell_lines<E: Write>(
    remarks: Vec<CapturesFault>,
    fault: &mut Option<CapturesFault>,
    names: &[&str],
    file: &CaptureFile,
    errors: &mut E,
) {
    for remark in remarks {
        if let Some(last) = fault.replace(remark) {
            tell_line(&last, names, file, errors);
        }
    }
}

// Writes the line of a remark, with the name of its file.
fn tell_line<E: Write>(remark: &CapturesFault, names: &[&str], file: &CaptureFile, errors: &mut E) {
    let name = match names.get(file.file_of(remark)) {
        Some(name) => *name,
        None => "",
    };
    let _ = writeln!(errors, "{name}: {remark}");
}

// The first fault of two.
fn first_of(
    first: Result<(), CapturesFault>,
    second: Result<(), CapturesFault>,
) -> Result<(), CapturesFault> {
    match first {
        Ok(()) => second,
        Err(fault) => Err(fault),
    }
}

// Writes what was gathered.
fn write_gathered<W: Write>(out: &mut Vec<u8>, w: &mut W) -> Result<(), CapturesFault>
    ensures moves { WroteBytes (W.contents w.old) (W.contents w.new) }
    ensures all { OnOk result (Appends (W.contents w.old) (W.contents w.new) out.old.items) }
    ensures none { OnOk result (out.new.items ≡ []) }
{
    if write_fully(w, out.as_slice()).is_err() {
        return Err(CapturesFault::Write);
    }
    out.clear();
    Ok(())
}
