//! One direction of a connection of a capture, as a reader of its bytes. One file, since it is one
//! type.
//!
//! `normalise` and `show` take a reader, so their contracts hold of a captured direction. They
//! write the canonical stream, or the lines, of the bytes that they read.

ghost use Rattle.std.specs.Prelude.{◌≡◌, ◌≤◌, ◌<◌, ◌^◌, ◌⊎◌, ℕ, List, [], Option, None, Some, true, false, min, drop, take, length, IfOk, IfErr, OnOk, OnErr, IsSome};
ghost use Rattle.std.specs.Io.{ReadsAtMost};
ghost use Rattle.std.specs.Io.KnownBytes.{IsAtEnd, ReadConsumes};
ghost use Rattle.capture_connections.specs.Following.{Table};
ghost use Rattle.capture_connections.specs.Sides.{is_side};
ghost use Rattle.iscsi_captures.specs.Giving.{AddsSome, FileHasEnded, IsFaultOf, IsWhole, DirectionReadsOn, WasRead, unread};
ghost use Rattle.iscsi_captures.specs.inner.Giving.{IfCut, IsDirectionFault};
ghost use Rattle.iscsi_captures.specs.Meant.{HearsWanted, IsMeant};
ghost use Rattle.iscsi_captures.specs.inner.Meant.{IsFor};
ghost use Rattle.capture_connections.specs.declared.ends.Side.{Side};

use crate::beginning::{answers_before, is_headless, sends_before};
use crate::digest_filter::DigestFilter;
use crate::fault::CapturesFault;
use crate::file::{CaptureFile, Numbered, Stood};
use crate::passed::PassedOver;
use capture_connections::{Connection, Connections, Half, Heard, Side, Stop, heard_of};
use std::alloc::{AllocError, Global};
use std::io::{self, ErrorKind, Read};
use std::marker::Model;

/// The end of a connection whose bytes are wanted.
#[derive(Clone, Copy, Debug, PartialEq, Eq)]
pub enum End {
    /// Who began the connection.
    Initiator,
    /// The other one.
    Target,
}

/// One direction of a connection.
#[derive(Clone, Copy, Debug, PartialEq, Eq)]
pub struct Wanted {
    /// The number of the connection, from 0.
    pub connection: usize,
    /// Who sent the bytes.
    pub end: End,
}

/// The bytes of one direction of a connection, out of a capture file that is read from its
/// beginning to its end.
#[derive(Drop)]
pub struct Captured<'a, R: Read> {
    source: &'a mut R,
    file: CaptureFile,
    connections: Connections,
    wanted: Wanted,
    passed: PassedOver,
    // what the other end says of digests
    other: DigestFilter,
    out: Vec<u8>,
    given: usize,
    ended: bool,
    fault: Option<CapturesFault>,
}

impl<'a, R: Read> Model for Captured<'a, R> {
    ghost use Rattle.std.specs.Prelude.{drop};
    ghost use Rattle.iscsi_captures.specs.Giving.{Listening};

    ghost Value = { Listening };

    ghost view = { λ c. record {
      connections = c.connections;
      wanted = c.wanted;
      known = drop c.given c.out.items;
      ended = c.ended;
      fault = c.fault;
      left = R.remaining c.source.now;
    } };
}

impl<'a, R: Read> Captured<'a, R> {
    /// A direction of which nothing was read. It takes the memory of a file's buffer.
    pub fn new(
        alloc: Global,
        source: &'a mut R,
        wanted: Wanted,
    ) -> Result<Captured<'a, R>, AllocError>
        ensures new { IfOk result (λ captured. captured ≡ unread wanted (R.remaining source.old)) }
    {
        Captured::of_files(alloc, 1, source, wanted)
    }

    /// The same of a recording of several files, of which each begins where the one before ends: a
    /// read that gives nothing ends one.
    pub fn of_files(
        alloc: Global,
        files: usize,
        source: &'a mut R,
        wanted: Wanted,
    ) -> Result<Captured<'a, R>, AllocError>
        ensures new { IfOk result (λ captured. captured ≡ unread wanted (R.remaining source.old)) }
    {
        Ok(Captured {
            source,
            file: CaptureFile::of_files(alloc, files)?,
            connections: Connections::new(alloc),
            wanted,
            passed: PassedOver::new(),
            other: DigestFilter::new(alloc),
            out: Vec::new(alloc),
            given: 0,
            ended: false,
            fault: None,
        })
    }

    /// Why the direction was not read to its end.
    pub fn fault(&self) -> Option<CapturesFault>
        ensures { result ≡ self.now.fault }
    {
        self.fault
    }

    /// The number of the file, from 0, that a fault is told of.
    pub fn file_of(&self, fault: &CapturesFault) -> usize {
        self.file.file_of(fault)
    }

    /// The number of the last packet that was read.
    pub(crate) fn packet(&self) -> u64 {
        self.file.packets()
    }

    /// What the other end said of digests so far.
    pub(crate) fn other(&self) -> &DigestFilter {
        &self.other
    }

    /// Which direction it is.
    pub fn wanted(&self) -> Wanted
        ensures { result ≡ self.now.wanted }
    {
        self.wanted
    }

    // Gives bytes that are known, as many as there is room for, and says how many.
    fn give(&mut self, buf: &mut [u8]) -> usize
        ensures count { result ≡ min (length self.old.known) (length buf.old) }
        ensures within { result ≤ length buf.new }
        ensures bytes { take result buf.new ≡ take result self.old.known }
        ensures rest { self.new ≡ record self.old { known = drop result self.old.known } }
    {
        let Some(rest) = self.out.get(self.given..) else {
            return 0;
        };
        let count = rest.len().min(buf.len());
        buf[..count].copy_from_slice(&rest[..count]);
        self.given += count;
        count
    }

    // Reads on if no byte is known, until one is or the direction ends. After 2^64 - 1 steps a read
    // counts as failed.
    fn advance(&mut self)
        ensures reads { DirectionReadsOn self.old self.new [] }
        ensures stops { (0 < length self.new.known) ⊎ ((self.new.ended ≡ true) ⊎ IsSome self.new.fault) }
    {
        if self.given < self.out.len() {
            return;
        }
        self.out.clear();
        self.given = 0;
        for turn in 0..u64::MAX {
            if self.ended || self.fault.is_some() || !self.out.is_empty() {
                return;
            }
            match step(
                &mut self.file,
                self.source,
                &mut self.connections,
                self.wanted,
                &mut self.passed,
                &mut self.other,
                &mut self.out,
            ) {
                Ok(more) => self.ended = !more,
                Err(fault) => self.fault = Some(fault),
            }
        }
        self.fault = Some(self.fault.unwrap_or(CapturesFault::Read));
    }
}

impl<R: Read> Read for Captured<'_, R> {
    fn read(&mut self, buf: &mut [u8]) -> io::Result<usize>
        ensures bound { ReadsAtMost result buf.new }
        ensures bytes { ReadConsumes None None result buf.new }
        ensures gives { IfOk result (λ n. DirectionReadsOn self.old self.new (take n buf.new)) }
        ensures ends { IfOk result (λ n. n ≡ 0 → 0 < length buf.old → FileHasEnded self.new) }
        ensures fails { OnErr result (DirectionReadsOn self.old self.new []
            × IsSome self.new.fault) }
    {
        self.advance();
        let count = self.give(buf);
        if count == 0 && self.fault.is_some() {
            return Err(ErrorKind::InvalidData.into());
        }
        Ok(count)
    }
}

// One step of the file; says whether it goes on. In `out` stays what the step adds to the direction
// that is wanted.
fn step<R: Read>(
    file: &mut CaptureFile,
    source: &mut R,
    connections: &mut Connections,
    wanted: Wanted,
    passed: &mut PassedOver,
    other: &mut DigestFilter,
    out: &mut Vec<u8>,
) -> Result<bool, CapturesFault>
    ensures reads { WasRead (R.remaining source.old) (R.remaining source.new) }
    ensures on { OnOk result (AddsSome wanted connections.old connections.new out.new.items) }
    ensures end { IfOk result (λ more. more ≡ false → (out.new.items ≡ [])
        × IsAtEnd (R.remaining source.new) × IsWhole connections.new wanted) }
    ensures err { OnErr result ((table : Table) × AddsSome wanted connections.old table out.new.items) }
    ensures fault { IfErr result (IsFaultOf wanted.connection (R.remaining source.new)) }
{
    out.clear();
    match file.step(source)? {
        Stood::Other => Ok(true),
        Stood::Packet(packet) => {
            hear(connections, packet, wanted, passed, other, out)?;
            Ok(true)
        }
        Stood::End => {
            at_end(connections, wanted, passed)?;
            Ok(false)
        }
    }
}

// Takes a packet, and leaves what it adds to the direction that is wanted. One with no segment that
// is read is passed over.
fn hear(
    connections: &mut Connections,
    packet: Numbered<'_>,
    wanted: Wanted,
    passed: &mut PassedOver,
    other: &mut DigestFilter,
    out: &mut Vec<u8>,
) -> Result<(), CapturesFault>
    ensures ok { OnOk result (AddsSome wanted connections.old connections.new out.new.items) }
    ensures err { OnErr result ((table : Table) × AddsSome wanted connections.old table out.new.items) }
    ensures fault { IfErr result (IsDirectionFault wanted.connection) }
{
    out.clear();
    let segment = match packet.segment() {
        Ok(Some(segment)) => segment,
        Ok(None) => return Ok(()),
        Err(reason) => {
            passed.note(reason);
            return Ok(());
        }
    };
    let heard = heard_of(&segment, packet.number);
    hear_segment(connections, &heard, packet.at, wanted, other, out)
}

// Takes a segment, and leaves in `out` what it adds to the direction that is wanted; nothing else
// stays there. After `Cut` that is left, too.
#[tactic(auto, using(crate::proofs::Hearing::heard_wanted, crate::proofs::Hearing::heard_other))]
fn hear_segment(
    connections: &mut Connections,
    heard: &Heard<'_>,
    at: u64,
    wanted: Wanted,
    other: &mut DigestFilter,
    out: &mut Vec<u8>,
) -> Result<(), CapturesFault>
    requires { length heard.now.bytes.now < 2 ^ 32 }
    ensures hears { OnOk result (HearsWanted connections.old heard.now wanted connections.new
        out.new.items) }
    ensures err { OnErr result ((table : Table) × AddsSome wanted connections.old table out.new.items) }
    ensures fault { IfErr result (IsDirectionFault wanted.connection) }
{
    out.clear();
    let number = match connections.take(*heard, out) {
        Ok(number) => number,
        Err(_) => {
            out.clear();
            return Err(CapturesFault::NoMemory);
        }
    };
    connections.keep_within();
    match is_wanted(connections.list(), number, heard, at, wanted) {
        Ok(true) => Ok(()),
        Ok(false) => {
            overhear(other, number == wanted.connection, out.as_slice());
            out.clear();
            Ok(())
        }
        Err(CapturesFault::Cut { at, packet }) => Err(CapturesFault::Cut { at, packet }),
        Err(fault) => {
            out.clear();
            Err(fault)
        }
    }
}

// Takes bytes for what the other end says of digests, if they are of the connection that is wanted.
fn overhear(other: &mut DigestFilter, is_wanted: bool, bytes: &[u8]) {
    if is_wanted {
        other.listen(bytes);
    }
}

// Whether the segment of the connection with this number is of the direction that is wanted, or why
// that is not followed further.
fn is_wanted(
    list: &[Connection],
    number: usize,
    heard: &Heard<'_>,
    at: u64,
    wanted: Wanted,
) -> Result<bool, CapturesFault>
    ensures is { IfOk result (λ is. IsFor list.now number heard.now wanted is) }
    ensures cut { IfErr result (λ fault. IfCut fault (IsFor list.now number heard.now wanted true)) }
    ensures fault { IfErr result (IsDirectionFault wanted.connection) }
{
    let Some(connection) = list.get(number) else {
        return Ok(false);
    };
    if number != wanted.connection {
        return Ok(false);
    }
    heard_of_wanted(connection, heard, at, wanted)
}

// Whether the segment is of the direction that is wanted, or why that is not followed further.
fn heard_of_wanted(
    connection: &Connection,
    heard: &Heard<'_>,
    at: u64,
    wanted: Wanted,
) -> Result<bool, CapturesFault>
    ensures is { IfOk result (λ is. (side : Side) × IsMeant connection.now wanted.end side
        × (is ≡ is_side side heard.now.said.side)) }
    ensures cut { IfErr result (λ fault. IfCut fault ((side : Side)
        × IsMeant connection.now wanted.end side × (true ≡ is_side side heard.now.said.side))) }
    ensures fault { IfErr result (IsDirectionFault wanted.connection) }
{
    let number = wanted.connection;
    if heard.said.some && is_headless(connection) {
        return Err(CapturesFault::Begun { connection: number });
    }
    let side = side_of(connection, wanted.end);
    if heard.said.side != side {
        return Ok(false);
    }
    let half = connection.half(side);
    if is_before(half, wanted.end) {
        return Err(CapturesFault::Begun { connection: number });
    }
    if let Some(stop) = half.stop {
        return Err(stop_fault(number, stop));
    }
    if heard.is_cut {
        let packet = heard.packet;
        return Err(CapturesFault::Cut { at, packet });
    }
    Ok(true)
}

// Whether bytes of this end came before the capture.
fn is_before(half: &Half, end: End) -> bool {
    match end {
        End::Initiator => sends_before(half),
        End::Target => answers_before(half),
    }
}

// The side of an end.
fn side_of(connection: &Connection, end: End) -> Side
    ensures { IsMeant connection.now end result }
{
    let initiator = connection.initiator();
    match end {
        End::Initiator => initiator,
        End::Target => initiator.other(),
    }
}

// What is wrong with the direction where the capture ends. Why the first packet was passed over tells
// more, if the capture has not the connection, or no byte of the direction is known.
fn at_end(
    connections: &Connections,
    wanted: Wanted,
    passed: &PassedOver,
) -> Result<(), CapturesFault>
    ensures whole { OnOk result (IsWhole connections.now wanted) }
    ensures fault { IfErr result (λ fault. (left : Option (List ℕ)) → IsAtEnd left
        → IsFaultOf wanted.connection left fault) }
{
    let connection = wanted.connection;
    let Some(found) = connections.list().get(connection) else {
        return Err(missing(passed, connection));
    };
    let half = found.half(side_of(found, wanted.end));
    match half.stopped() {
        Some(stop) => Err(stop_fault(connection, stop)),
        None => unless_hidden(half.known, passed, connection),
    }
}

// Why the capture has not the connection.
fn missing(passed: &PassedOver, connection: usize) -> CapturesFault
    ensures { (left : Option (List ℕ)) → IsAtEnd left → IsFaultOf connection left result }
{
    match passed.first() {
        Some(reason) => reason,
        None => CapturesFault::NoConnection { connection },
    }
}

// Why a direction of which no byte is known may have some: the first packet that was passed over.
fn unless_hidden(known: u64, passed: &PassedOver, connection: usize) -> Result<(), CapturesFault>
    ensures fault { IfErr result (λ fault. (left : Option (List ℕ)) → IsAtEnd left
        → IsFaultOf connection left fault) }
{
    match passed.first() {
        Some(reason) if known == 0 => Err(reason),
        _ => Ok(()),
    }
}

/// The fault of a direction that is not followed further.
pub(crate) fn stop_fault(connection: usize, stop: Stop) -> CapturesFault
    ensures of { IsDirectionFault connection result }
    ensures uncut { IfCut result ⊥ }
{
    match stop {
        Stop::Gap(offset, packet) => CapturesFault::Gap {
            connection,
            offset,
            packet,
        },
        Stop::Conflict(offset, packet) => CapturesFault::Conflict {
            connection,
            offset,
            packet,
        },
        Stop::Long => CapturesFault::Long { connection },
    }
}
