//! Calls of a framer one by one, as scripts.
//!
//! A line is a call and what it answers, in Rust's debugging form. `new 3` begins a framer with the limit
//! 3, and `feed 0 47` feeds bytes 0 to 47 of the stream. `segment` is what the ready PDU has, `ready` says
//! whether there is one, and `rest` counts the bytes of the stream past the framer's place.

use super::rows::{LOGIN_IN_THREE, MIXED_REQUESTS, NOP_OUT, lines_of};
use super::{came_of, split_at_mark};
use crate::asserts::{same, same_debug};
use iscsi_stream::{Framer, Logins};
use std::alloc::Global;
use std::process::Abort;

/// A header that no PDU has.
const UNKNOWN: &str =
    "> 10000000 00000000 00000000 00000000 00000000 00000000 00000000 00000000 00000000 00000000 00000000 00000000";

/// The limit is met with the 48th byte, and after a fault each call answers `Failed`.
const OVER_THE_LIMIT: &str = "new 2\n\
    feed 0 47 = Ok(47)\n\
    held = 47\n\
    feed 47 48 = Err(OverLimit(0))\n\
    held = 0\n\
    ready = false\n\
    feed 47 52 = Err(Failed)\n\
    finish = Err(Failed)";

/// Nothing more is taken while the PDU is ready, and the end may come; a second `take` has none to give up.
const UP_TO_THE_LIMIT: &str = "new 3\n\
    feed 0 52 = Ok(52)\n\
    held = 52\n\
    place = 0\n\
    segment = Some([97, 98, 99])\n\
    feed 0 52 = Ok(0)\n\
    finish = Ok(())\n\
    held = 52\n\
    take\n\
    held = 0\n\
    place = 52\n\
    ready = false\n\
    finish = Ok(())\n\
    take\n\
    place = 52";

/// Streams that end within the header, behind it, within the segment and within the padding.
const BEGUN_AND_NOT_WHOLE: &str = "new 3\n\
    feed 0 1 = Ok(1)\n\
    held = 1\n\
    ready = false\n\
    continued = false\n\
    take\n\
    held = 1\n\
    finish = Err(Truncated(0))\n\
    feed 0 52 = Err(Failed)\n\
    finish = Err(Failed)\n\
    new 3\n\
    feed 0 47 = Ok(47)\n\
    held = 47\n\
    ready = false\n\
    continued = false\n\
    take\n\
    held = 47\n\
    finish = Err(Truncated(0))\n\
    feed 0 52 = Err(Failed)\n\
    finish = Err(Failed)\n\
    new 3\n\
    feed 0 48 = Ok(48)\n\
    held = 48\n\
    ready = false\n\
    continued = false\n\
    take\n\
    held = 48\n\
    finish = Err(Truncated(0))\n\
    feed 0 52 = Err(Failed)\n\
    finish = Err(Failed)\n\
    new 3\n\
    feed 0 50 = Ok(50)\n\
    held = 50\n\
    ready = false\n\
    continued = false\n\
    take\n\
    held = 50\n\
    finish = Err(Truncated(0))\n\
    feed 0 52 = Err(Failed)\n\
    finish = Err(Failed)\n\
    new 3\n\
    feed 0 51 = Ok(51)\n\
    held = 51\n\
    ready = false\n\
    continued = false\n\
    take\n\
    held = 51\n\
    finish = Err(Truncated(0))\n\
    feed 0 52 = Err(Failed)\n\
    finish = Err(Failed)";

/// The second header is refused.
const AFTER_A_HEADER: &str = "new 8192\n\
    feed 0 52 = Ok(52)\n\
    take\n\
    feed 52 100 = Err(Head(UnknownOpcode, 52))\n\
    place = 52\n\
    feed 0 52 = Err(Failed)\n\
    feed 0 0 = Err(Failed)\n\
    finish = Err(Failed)\n\
    take\n\
    place = 52";

/// Each PDU but the first continues another.
const IN_THREE: &str = "new 8192\n\
    feed 0 256 = Ok(52)\n\
    ready = true\n\
    place = 0\n\
    continued = false\n\
    held = 52\n\
    take\n\
    continued = false\n\
    feed 52 256 = Ok(104)\n\
    ready = true\n\
    place = 52\n\
    continued = true\n\
    held = 104\n\
    take\n\
    continued = false\n\
    feed 156 256 = Ok(100)\n\
    ready = true\n\
    place = 156\n\
    continued = true\n\
    held = 100\n\
    take\n\
    continued = false\n\
    rest = 0\n\
    place = 256";

/// The fourth PDU continues the first.
const MIXED: &str = "new 8192\n\
    feed 0 336 = Ok(72)\n\
    ready = true\n\
    place = 0\n\
    continued = false\n\
    held = 72\n\
    take\n\
    continued = false\n\
    feed 72 336 = Ok(72)\n\
    ready = true\n\
    place = 72\n\
    continued = false\n\
    held = 72\n\
    take\n\
    continued = false\n\
    feed 144 336 = Ok(48)\n\
    ready = true\n\
    place = 144\n\
    continued = false\n\
    held = 48\n\
    take\n\
    continued = false\n\
    feed 192 336 = Ok(72)\n\
    ready = true\n\
    place = 192\n\
    continued = true\n\
    held = 72\n\
    take\n\
    continued = false\n\
    feed 264 336 = Ok(72)\n\
    ready = true\n\
    place = 264\n\
    continued = false\n\
    held = 72\n\
    take\n\
    continued = false\n\
    rest = 0\n\
    place = 336";

// A number of a script.
fn number_of(rt: &impl Abort, text: &str) -> u16 {
    text.parse::<u16>().expect(rt, text)
}

// Bytes of a stream, from the first number to the second.
fn piece_of<'a>(rt: &impl Abort, stream: &'a [u8], range: &str) -> &'a [u8] {
    let (start, end) = split_at_mark(rt, range, " ");
    let (start, end) = (number_of(rt, start), number_of(rt, end));
    let piece = stream.get(usize::from(start)..usize::from(end));
    piece.expect(rt, "past the end")
}

// The segment of the PDU that is ready, if there is one.
fn segment_in(framer: &Framer) -> Option<&[u8]> {
    let pdu = framer.pdu()?;
    Some(pdu.bytes)
}

// What a framer shows is what is due.
fn check_seen(
    rt: &impl Abort,
    alloc: Global,
    framer: &Framer,
    stream: &[u8],
    call: &str,
    want: &str,
) {
    let rest = (stream.len() as u64).saturating_sub(framer.place());
    match call {
        "held" => same_debug(rt, alloc, &framer.held(), want, &call),
        "place" => same_debug(rt, alloc, &framer.place(), want, &call),
        "rest" => same_debug(rt, alloc, &rest, want, &call),
        "ready" => same_debug(rt, alloc, &framer.pdu().is_some(), want, &call),
        "segment" => same_debug(rt, alloc, &segment_in(framer), want, &call),
        "continued" => same_debug(rt, alloc, &framer.continued(), want, &call),
        _ => panic!(rt; "no such call"),
    }
}

// A call answers what is due.
fn check_call(
    rt: &impl Abort,
    alloc: Global,
    framer: &mut Framer,
    stream: &[u8],
    call: &str,
    want: &str,
) {
    if let Some(range) = call.strip_prefix("feed ") {
        let fed = framer.feed(piece_of(rt, stream, range));
        same_debug(rt, alloc, &fed, want, &call);
        return;
    }
    match call {
        "finish" => same_debug(rt, alloc, &framer.finish(), want, &call),
        "take" => framer.take(),
        _ => check_seen(rt, alloc, framer, stream, call, want),
    }
}

// Goes through the calls of a script.
fn check(rt: &impl Abort, alloc: Global, stream: &[u8], script: &str) {
    let mut framer = Framer::new(alloc, 0);
    for line in script.lines() {
        let (call, want) = line.split_once(" = ").unwrap_or((line, ""));
        if let Some(limit) = call.strip_prefix("new ") {
            framer = Framer::new(alloc, u32::from(number_of(rt, limit)));
        } else {
            check_call(rt, alloc, &mut framer, stream, call, want);
        }
    }
}

#[test]
fn calls(rt: HostRuntime) {
    let mut stream = came_of(&rt, rt.alloc(), lines_of(&rt, NOP_OUT));
    let unknown = came_of(&rt, rt.alloc(), UNKNOWN);
    stream.extend_from_slice(&unknown).expect(&rt, "two PDUs");
    check(&rt, rt.alloc(), &stream, OVER_THE_LIMIT);
    check(&rt, rt.alloc(), &stream, UP_TO_THE_LIMIT);
    check(&rt, rt.alloc(), &stream, BEGUN_AND_NOT_WHOLE);
    check(&rt, rt.alloc(), &stream, AFTER_A_HEADER);
}

#[test]
fn pdus_that_continue_others(rt: HostRuntime) {
    let stream = came_of(&rt, rt.alloc(), lines_of(&rt, LOGIN_IN_THREE));
    check(&rt, rt.alloc(), &stream, IN_THREE);
    let stream = came_of(&rt, rt.alloc(), lines_of(&rt, MIXED_REQUESTS));
    check(&rt, rt.alloc(), &stream, MIXED);
}

// Which texts of a login go on.
fn logins(request: bool, response: bool) -> Logins {
    Logins { request, response }
}

// Which texts go on after the first login request of a stream.
fn check_logins(rt: &impl Abort, framer: &mut Framer, stream: &[u8]) {
    framer.feed(stream).expect(rt, "a login");
    let head = &framer.pdu().expect(rt, "not ready").head;
    let after = Logins::new().after(head);
    same(rt, &after, &logins(true, false), &"after a request");
    same(rt, &after.continues(head), &true, &"goes on");
    same(rt, &Logins::new().continues(head), &false, &"begins");
}

#[test]
fn logins_of_two_kinds(rt: HostRuntime) {
    same(&rt, &Logins::new(), &logins(false, false), &"at the start");
    // The head of the first login request goes on in the next.
    let stream = came_of(&rt, rt.alloc(), lines_of(&rt, LOGIN_IN_THREE));
    check_logins(&rt, &mut Framer::new(rt.alloc(), 8192), &stream);
}
