//! A line for each connection of a capture.

ghost use Rattle.std.specs.Prelude.{◌≡◌, ℕ, List, ◌++◌, Option, IfOk, IfErr, OnOk, OnErr, string_bytes};
ghost use Rattle.std.specs.Io.KnownBytes.{Appends, IsAtEnd};
ghost use Rattle.iscsi_captures.specs.Giving.{IsFileFault};
ghost use Rattle.iscsi_captures.specs.Listing.{AreLinesFrom, IsLineOf, ListPost};
ghost use Rattle.iscsi_captures.specs.inner.Listing.{TextGoesOn};
ghost use Rattle.iscsi_captures.specs.Written.{WroteLess};

use crate::beginning::lacks_syn;
use crate::fault::CapturesFault;
use crate::file::{CaptureFile, Numbered, Stood};
use crate::passed::PassedOver;
use capture_connections::{Connection, Connections, Half, Stop, heard_of};
use std::alloc::{AllocError, Global};
use std::io::{Read, Write};

/// Reads a capture, which is all files of a `CaptureFile`, to its end. Writes a line for each of its
/// connections, in the order of their first packets.
///
/// Packets that are fragments, lack headers or are of a link that is not read are passed over: they
/// show as gaps. Without any connection, why the first of them was is the fault. If the file has a
/// fault, the lines of the connections before it are written, and then the fault returned.
/// `NoMemory` comes before any line or after all of those, and `Write` if a write fails, after a part.
pub fn list_connections<R: Read, W: Write>(
    alloc: Global,
    file: &mut CaptureFile,
    source: &mut R,
    w: &mut W,
) -> Result<(), CapturesFault>
    ensures moves { (written : List ℕ)
        × Appends (W.contents w.old) (W.contents w.new) written }
    ensures lists { ListPost result (W.contents w.old) (W.contents w.new) }
    ensures end { OnOk result (IsAtEnd (R.remaining source.new)) }
{
    let mut connections = Connections::new(alloc);
    let read = read_all(alloc, file, source, &mut connections);
    let Ok(lines) = lines_of(alloc, connections.list()) else {
        return Err(CapturesFault::NoMemory);
    };
    match write_lines(w, lines.as_bytes()) {
        Ok(()) => read,
        Err(_) => Err(CapturesFault::Write),
    }
}

// A write failed, or took no byte.
#[derive(Drop)]
struct WriteFailed;

// Writes all of the lines. If a write fails, not all of them were written.
fn write_lines<W: Write>(w: &mut W, lines: &[u8]) -> Result<(), WriteFailed>
    ensures ok { OnOk result (Appends (W.contents w.old) (W.contents w.new) lines.now) }
    ensures err { OnErr result (WroteLess (W.contents w.old) (W.contents w.new) lines.now) }
{
    let mut rest = lines;
    while !rest.is_empty() {
        match w.write(rest) {
            Err(_) => return Err(WriteFailed),
            Ok(n) => {
                if n == 0 {
                    return Err(WriteFailed);
                }
                rest = &rest[n..];
            }
        }
    }
    Ok(())
}

// Reads a capture to its end. After 2^64 - 1 steps a read counts as failed.
fn read_all<R: Read>(
    alloc: Global,
    file: &mut CaptureFile,
    source: &mut R,
    connections: &mut Connections,
) -> Result<(), CapturesFault>
    ensures fault { IfErr result (IsFileFault (R.remaining source.new)) }
    ensures end { OnOk result (IsAtEnd (R.remaining source.new)) }
{
    let mut passed = PassedOver::new();
    let mut out = Vec::new(alloc);
    for _ in 0..u64::MAX {
        match file.step(source)? {
            Stood::Other => {}
            Stood::Packet(packet) => hear(connections, packet, &mut passed, &mut out)?,
            Stood::End => return at_end(connections, &passed),
        }
    }
    Err(CapturesFault::Read)
}

// Why a capture without a connection has none, if a packet was passed over.
fn at_end(connections: &Connections, passed: &PassedOver) -> Result<(), CapturesFault>
    ensures fault { (left : Option (List ℕ)) → IfErr result (IsFileFault left) }
{
    match passed.first() {
        Some(reason) if connections.list().is_empty() => Err(reason),
        _ => Ok(()),
    }
}

// Takes a packet, whose bytes are not wanted.
fn hear(
    connections: &mut Connections,
    packet: Numbered<'_>,
    passed: &mut PassedOver,
    out: &mut Vec<u8>,
) -> Result<(), CapturesFault>
    ensures fault { (left : Option (List ℕ)) → IfErr result (IsFileFault left) }
{
    match packet.segment() {
        Ok(Some(segment)) => {
            out.clear();
            connections.take(heard_of(&segment, packet.number), out)?;
            connections.keep_within();
            Ok(())
        }
        Ok(None) => Ok(()),
        Err(reason) => {
            passed.note(reason);
            Ok(())
        }
    }
}

// The lines of all connections.
fn lines_of(alloc: Global, list: &[Connection]) -> Result<String, AllocError>
    ensures { IfOk result (λ lines. AreLinesFrom 0 list.now (string_bytes lines)) }
{
    let mut lines = String::new(alloc);
    for k in 0..list.len() {
        write_line(&mut lines, k, &list[k])?;
    }
    Ok(lines)
}

// Appends the line of a connection: its number, the ends, how many bytes of each are known, and
// remarks.
#[tactic(auto, using(crate::proofs::Listed::line_made))]
fn write_line(line: &mut String, k: usize, connection: &Connection) -> Result<(), AllocError>
    ensures { OnOk result ((more : List ℕ) × IsLineOf k connection.now more
        × (string_bytes line.new ≡ string_bytes line.old ++ more)) }
{
    let side = connection.initiator();
    let initiator = connection.ends.at(side);
    let target = connection.ends.at(side.other());
    let sent = connection.half(side);
    let answered = connection.half(side.other());
    let first = sent.known;
    let second = answered.known;
    write!(line, "{k} {initiator} {target} {first} {second}")?;
    write_remarks(line, connection, sent, answered)?;
    writeln!(line)
}

// Appends what is to be remarked: a login, a beginning that is missing, and why a direction was not
// followed to its end.
fn write_remarks(
    line: &mut String,
    connection: &Connection,
    sent: &Half,
    answered: &Half,
) -> Result<(), AllocError>
    ensures { OnOk result (TextGoesOn (string_bytes line.old) (string_bytes line.new)) }
{
    write_word(line, "login", sent.is_login())?;
    write_word(line, "begun", lacks_syn(connection))?;
    write_gap(line, "initiator", sent)?;
    write_gap(line, "target", answered)?;
    write_conflict(line, "initiator", sent)?;
    write_conflict(line, "target", answered)?;
    write_cut(line, "initiator", sent)?;
    write_cut(line, "target", answered)
}

// Appends a word, if it is to be said.
fn write_word(line: &mut String, word: &str, is_said: bool) -> Result<(), AllocError>
    ensures { OnOk result (TextGoesOn (string_bytes line.old) (string_bytes line.new)) }
{
    if is_said {
        write!(line, " {word}")
    } else {
        Ok(())
    }
}

// Appends which byte of a direction is missing, unless its capture was cut.
fn write_gap(line: &mut String, end: &str, half: &Half) -> Result<(), AllocError>
    ensures { OnOk result (TextGoesOn (string_bytes line.old) (string_bytes line.new)) }
{
    match half.stopped() {
        Some(Stop::Gap(at, _)) if half.cut_in == 0 => write!(line, " gap {end} {at}"),
        _ => Ok(()),
    }
}

// Appends for which byte of a direction there are two values.
fn write_conflict(line: &mut String, end: &str, half: &Half) -> Result<(), AllocError>
    ensures { OnOk result (TextGoesOn (string_bytes line.old) (string_bytes line.new)) }
{
    match half.stopped() {
        Some(Stop::Conflict(at, _)) => write!(line, " conflict {end} {at}"),
        _ => Ok(()),
    }
}

// Appends how much of a direction is known, if not all of its bytes were captured.
fn write_cut(line: &mut String, end: &str, half: &Half) -> Result<(), AllocError>
    ensures { OnOk result (TextGoesOn (string_bytes line.old) (string_bytes line.new)) }
{
    if half.cut_in == 0 {
        return Ok(());
    }
    let known = half.known;
    write!(line, " cut {end} {known}")
}
