//! The line of a PDU as one JSON object (RFC 8259).

ghost use Rattle.std.specs.Prelude.{IfOk};
ghost use Rattle.iscsi_pdu.specs.Meaning.{HeadFits};
ghost use Rattle.iscsi_explain.specs.Forms.{IsObject};

use crate::meaning::{put_lun, put_meaning};
use crate::notes::all_notes;
use crate::remarks::Remark;
use crate::stamp::{Origin, Stamp, seconds};
use iscsi_pdu::Pdu;
use iscsi_stream::show_line;
use serde_json::{Map, Value};
use std::alloc::{AllocError, Global};
use std::num::nearest_u64_to_f64;

/// The object of a PDU: its place, its kind, and each field of its line by the line's name. A value
/// of up to four bytes is a number, and so is the number of a logical unit; `isid` and `cdb` are
/// the line's digits as a string, and so is a number of 2^53 or more. What scripts look for stands
/// beside them: commands, statuses, sense data and keys. A PDU of a capture has its connection, its
/// origin, its packet and its times, too. With notes they are an array of strings, `explain`.
pub(crate) fn object_of(
    alloc: Global,
    explained: bool,
    stamp: Option<Stamp>,
    place: u64,
    pdu: &Pdu<'_>,
) -> Result<Vec<u8>, AllocError>
    requires { HeadFits pdu.now.head }
    ensures object { IfOk result (λ bytes. IsObject bytes.items) }
{
    let mut map = Map::new(alloc);
    put_members(alloc, explained, stamp, place, pdu, &mut map)?;
    Value::Object(map).to_vec(alloc)
}

// Puts all that the object of a PDU has.
fn put_members(
    alloc: Global,
    explained: bool,
    stamp: Option<Stamp>,
    place: u64,
    pdu: &Pdu<'_>,
    map: &mut Map<String, Value>,
) -> Result<(), AllocError>
    requires { HeadFits pdu.now.head }
{
    put_line(alloc, place, pdu, map)?;
    put_meaning(alloc, stamp, pdu, map)?;
    if let Some(stamp) = stamp {
        put_stamp(alloc, &stamp, map)?;
        put_captured(alloc, &stamp, pdu.bytes.len(), map)?;
    }
    if explained {
        put_notes(alloc, stamp, pdu, map)
    } else {
        Ok(())
    }
}

// Puts what the line of a PDU says.
fn put_line(
    alloc: Global,
    place: u64,
    pdu: &Pdu<'_>,
    map: &mut Map<String, Value>,
) -> Result<(), AllocError>
    requires { HeadFits pdu.now.head }
{
    let mut line = Vec::new(alloc);
    show_line(place, pdu, &mut line)?;
    put_words(alloc, str::from_utf8(&line).unwrap_or(""), map)?;
    put_number(alloc, map, "place", place)
}

/// Puts a member.
pub(crate) fn put(
    alloc: Global,
    map: &mut Map<String, Value>,
    name: &str,
    value: Value,
) -> Result<(), AllocError> {
    let name = String::from_str(alloc, name)?;
    drop(map.insert(name, value)?);
    Ok(())
}

/// Puts a text.
pub(crate) fn put_text(
    alloc: Global,
    map: &mut Map<String, Value>,
    name: &str,
    text: &str,
) -> Result<(), AllocError> {
    let text = String::from_str(alloc, text)?;
    put(alloc, map, name, Value::String(text))
}

/// Puts a number that a reader keeps exactly, or its digits.
pub(crate) fn put_number(
    alloc: Global,
    map: &mut Map<String, Value>,
    name: &str,
    value: u64,
) -> Result<(), AllocError> {
    if value < 9_007_199_254_740_992 {
        return put(alloc, map, name, Value::from(value));
    }
    let digits = format!(in alloc; "{value}")?;
    put(alloc, map, name, Value::String(digits))
}

// Puts what the words of a line say behind its place: its kind, and then a name and a value each.
fn put_words(alloc: Global, line: &str, map: &mut Map<String, Value>) -> Result<(), AllocError> {
    let mut words = line.split_whitespace();
    let _place = words.next();
    put_text(alloc, map, "kind", words.next().unwrap_or(""))?;
    for word in words {
        put_field(alloc, word, map)?;
    }
    Ok(())
}

// Puts a field that a word of a line is: its name, `=`, and its digits.
fn put_field(alloc: Global, word: &str, map: &mut Map<String, Value>) -> Result<(), AllocError> {
    let (name, digits) = word.split_once('=').unwrap_or((word, ""));
    match name {
        "data" => put_number(alloc, map, name, value_of(digits.as_bytes(), 10)),
        "lun" => put_lun(alloc, value_of(digits.as_bytes(), 16), map),
        "isid" | "cdb" => put_text(alloc, map, name, digits),
        _ => put_number(alloc, map, name, value_of(digits.as_bytes(), 16)),
    }
}

// The number that lower hex digits or decimal ones spell.
fn value_of(digits: &[u8], base: u64) -> u64 {
    let mut value: u64 = 0;
    for digit in digits {
        let one = match *digit {
            b'0'..=b'9' => *digit - b'0',
            b'a'..=b'f' => *digit - b'a' + 10,
            _ => 0,
        };
        value = value.wrapping_mul(base).wrapping_add(one as u64);
    }
    value
}

// Puts how much of a segment was captured, if not all was, and that its place was assumed.
fn put_captured(
    alloc: Global,
    stamp: &Stamp,
    len: usize,
    map: &mut Map<String, Value>,
) -> Result<(), AllocError> {
    if stamp.missing > 0 {
        put_number(alloc, map, "captured", stamp.captured(len))?;
    }
    if stamp.assumed {
        return put(alloc, map, "assumed", Value::Bool(true));
    }
    Ok(())
}

// Puts which end sent what is told.
fn put_origin(
    alloc: Global,
    origin: Origin,
    map: &mut Map<String, Value>,
) -> Result<(), AllocError> {
    let origin = match origin {
        Origin::Initiator => "initiator",
        Origin::Target => "target",
    };
    put_text(alloc, map, "from", origin)
}

// Puts where and when the PDU was seen.
fn put_stamp(alloc: Global, stamp: &Stamp, map: &mut Map<String, Value>) -> Result<(), AllocError> {
    put_number(alloc, map, "connection", stamp.connection as u64)?;
    put_origin(alloc, stamp.origin, map)?;
    put_number(alloc, map, "packet", stamp.packet)?;
    let epoch = seconds(alloc, stamp.epoch, stamp.precise)?;
    put(alloc, map, "epoch", Value::String(epoch))?;
    put(
        alloc,
        map,
        "time",
        seconds_value(stamp.nanoseconds, stamp.precise),
    )?;
    match stamp.since_request {
        Some(since) => put(alloc, map, "after", seconds_value(since, stamp.precise)),
        None => Ok(()),
    }
}

// A time in seconds, as a number. Those of 9,007,199 seconds and more are rounded.
fn seconds_value(nanoseconds: u64, precise: bool) -> Value {
    if precise {
        return Value::from(nearest_u64_to_f64(nanoseconds) / 1_000_000_000.0);
    }
    Value::from(nearest_u64_to_f64(nanoseconds / 1_000) / 1_000_000.0)
}

// Puts the notes.
fn put_notes(
    alloc: Global,
    stamp: Option<Stamp>,
    pdu: &Pdu<'_>,
    map: &mut Map<String, Value>,
) -> Result<(), AllocError> {
    let notes = all_notes(alloc, stamp, pdu)?;
    let values = notes.into_iter().map(Value::String).collect(alloc)?;
    put(alloc, map, "explain", Value::Array(values))
}

/// The object of a remark: its kind, and what of it is known. `text` is its line.
pub(crate) fn remark_object(
    alloc: Global,
    remark: &Remark,
    text: &str,
) -> Result<Vec<u8>, AllocError>
    ensures object { IfOk result (λ bytes. IsObject bytes.items) }
{
    let mut map = Map::new(alloc);
    put_remark(alloc, remark, text, &mut map)?;
    Value::Object(map).to_vec(alloc)
}

// Puts what is known of a remark.
fn put_remark(
    alloc: Global,
    remark: &Remark,
    text: &str,
    map: &mut Map<String, Value>,
) -> Result<(), AllocError> {
    put_text(alloc, map, "kind", remark.kind)?;
    put_text(alloc, map, "text", text)?;
    put_some(alloc, map, "connection", remark.connection)?;
    put_some(alloc, map, "place", remark.place)?;
    put_some(alloc, map, "packet", remark.packet)?;
    match remark.origin {
        Some(origin) => put_origin(alloc, origin, map),
        None => Ok(()),
    }
}

// Puts a number that is known.
fn put_some(
    alloc: Global,
    map: &mut Map<String, Value>,
    name: &str,
    value: Option<u64>,
) -> Result<(), AllocError> {
    match value {
        Some(value) => put_number(alloc, map, name, value),
        None => Ok(()),
    }
}
