//! Sessions by example, in pieces of any length.
//!
//! A line with `T>` is a PDU that the target sends, and a line with `I>` is a PDU that the initiator
//! sends. A PDU is its header in hex, and what its segment has, without padding. The segment is
//! nothing, words of hex, `5a*512` for 512 bytes `5a`, a text behind an apostrophe, or `@` for the
//! standard text of the operational stage. In a text, `|` stands for a byte 00. A line with `#`
//! begins a session. A line with `!` is a call: `start`, `finish`, `outcome` or a request. A line
//! with `=` says what is answered by the call, or by the one that takes the PDUs that came since the
//! last answer. A line with `:` has bytes of an outcome, and one with `?` says in which phase and
//! stage the session is.

use super::breaches::BREACHES;
use super::logins::LOGINS;
use super::preludes::BURSTS;
use super::requests::REQUESTS;
use super::words::{answer_of, outcome_of, phase_of, place_of, submit_of};
use super::{Setup, feed_pieces, initiator_of, lines_before, request_of, setup_of};
use crate::asserts::same;
use iscsi_initiator::{Initiator, InitiatorFault};
use iscsi_login::{Answered, NegKey, Phase};
use iscsi_test_support::{SESSION, Turn, append_pdu};
use std::alloc::Global;
use std::process::Abort;

/// What is held before a login (RFC 7143, section 13).
const BEFORE: &[(NegKey, Answered)] = &[
    (NegKey::MaxBurstLength, Answered::Number(262_144)),
    (NegKey::InitialR2T, Answered::Flag(true)),
    (NegKey::ImmediateData, Answered::Flag(true)),
    (NegKey::HeaderDigest, Answered::NoneItem),
];

/// What is held after the login `BURSTS`.
const AFTER: &[(NegKey, Answered)] = &[
    (NegKey::MaxBurstLength, Answered::Number(1024)),
    (NegKey::FirstBurstLength, Answered::Number(1024)),
    (NegKey::InitialR2T, Answered::Flag(false)),
    (NegKey::ImmediateData, Answered::Flag(true)),
    (NegKey::DefaultTime2Retain, Answered::Number(20)),
    (NegKey::DataDigest, Answered::NoneItem),
];

// Hands in a request, and says in words what is answered.
fn submit(
    rt: &impl Abort,
    alloc: Global,
    initiator: &mut Initiator,
    call: &str,
    out: &mut Vec<u8>,
) -> String {
    let result = initiator.submit(request_of(rt, alloc, call), out);
    let request = request_of(rt, alloc, call);
    submit_of(alloc, &result, &request).expect(rt, "text")
}

// Calls the session, which has no request to hand in, and says in words what it answers.
fn answer_to_call(
    initiator: &mut Initiator,
    turn: &Turn,
    len: usize,
    out: &mut Vec<u8>,
) -> Result<&'static str, InitiatorFault> {
    match turn.call.as_str() {
        "start" => initiator.start(out)?,
        "finish" => initiator.finish()?,
        _ => return Ok(phase_of(feed_pieces(initiator, &turn.target, len, out)?)),
    }
    Ok("ok")
}

// Calls the session, and says in words what it answers. What it sends, and the bytes of an outcome,
// are appended.
fn answer_to(
    rt: &impl Abort,
    alloc: Global,
    initiator: &mut Initiator,
    turn: &Turn,
    len: usize,
    out: &mut Vec<u8>,
) -> String {
    match turn.call.as_str() {
        "outcome" => outcome_of(alloc, &initiator.outcome(), out).expect(rt, "text"),
        "" | "start" | "finish" => {
            let result = answer_to_call(initiator, turn, len, out);
            answer_of(alloc, &result).expect(rt, "text")
        }
        call => submit(rt, alloc, initiator, call, out),
    }
}

// Compares what a session answers, whose stream comes in pieces of this length.
fn check_answer(
    rt: &impl Abort,
    alloc: Global,
    name: &str,
    len: usize,
    initiator: &mut Initiator,
    turn: &Turn,
    want: &str,
) {
    let mut out = Vec::new(alloc);
    let answer = answer_to(rt, alloc, initiator, turn, len, &mut out);
    let row = (name, len, turn.call.as_str(), want);
    same(rt, &answer.as_str(), &want, &row);
    same(rt, &out, &turn.initiator, &row);
}

// Compares the phase and the stage of a session.
fn check_place(rt: &impl Abort, alloc: Global, name: &str, initiator: &Initiator, want: &str) {
    let place = place_of(alloc, initiator).expect(rt, "text");
    same(rt, &place.as_str(), &want, &name);
}

// Goes through the lines of a session, whose stream comes in pieces of this length.
fn check(
    rt: &impl Abort,
    alloc: Global,
    name: &str,
    len: usize,
    initiator: &mut Initiator,
    lines: &str,
) {
    let mut turn = Turn::new(alloc);
    for line in lines.lines() {
        let (mark, rest) = line.split_once(' ').unwrap_or((line, ""));
        match mark {
            "?" => check_place(rt, alloc, name, initiator, rest),
            "=" => {
                check_answer(rt, alloc, name, len, initiator, &turn, rest);
                turn = Turn::new(alloc);
            }
            _ => turn.take(mark, rest).expect(rt, line),
        }
    }
    same(rt, &turn.is_empty(), &true, &name);
}

// Goes through a session in pieces of each length. Its first line says how it is configured, what goes
// before, and its name.
fn check_dialogue(rt: &impl Abort, alloc: Global, dialogue: &str) {
    let (first, lines) = dialogue.split_once('\n').expect(rt, dialogue);
    let (setup, rest) = first.split_once(", ").expect(rt, first);
    let (before, name) = rest.split_once(": ").expect(rt, first);
    same(rt, &lines.is_empty(), &false, &name);
    for len in [1usize, 47, 48, 100_000] {
        let mut initiator = initiator_of(rt, alloc, setup_of(rt, setup));
        check(
            rt,
            alloc,
            name,
            len,
            &mut initiator,
            lines_before(rt, before),
        );
        check(rt, alloc, name, len, &mut initiator, lines);
    }
}

// Goes through sessions.
fn check_all(rt: &impl Abort, alloc: Global, dialogues: &str) {
    let dialogues = dialogues.strip_prefix("# ").expect(rt, "a dialogue");
    for dialogue in dialogues.split("\n# ") {
        check_dialogue(rt, alloc, dialogue);
    }
}

#[test]
fn logins(rt: HostRuntime) {
    check_all(&rt, rt.alloc(), LOGINS);
}

#[test]
fn requests(rt: HostRuntime) {
    check_all(&rt, rt.alloc(), REQUESTS);
}

#[test]
fn breaches(rt: HostRuntime) {
    check_all(&rt, rt.alloc(), BREACHES);
}

// Compares what is held: for some keys, and the longest segments of either end.
fn check_held(
    rt: &impl Abort,
    initiator: &Initiator,
    rows: &[(NegKey, Answered)],
    longest: (u32, u32),
) {
    let params = initiator.params();
    for (key, want) in rows {
        same(rt, &params.get(*key), want, key);
    }
    let held = (params.initiator_max_recv, params.target_max_recv);
    same(rt, &held, &longest, &"the longest segments");
}

/// Before the login the defaults stand.
#[test]
fn held_before_the_login(rt: HostRuntime) {
    let initiator = initiator_of(&rt, rt.alloc(), Setup::Short);
    check_held(&rt, &initiator, BEFORE, (512, 8192));
}

/// What is agreed is what the target answered.
#[test]
fn held_after_the_login(rt: HostRuntime) {
    let mut initiator = initiator_of(&rt, rt.alloc(), Setup::Standard);
    check(&rt, rt.alloc(), "login", 48, &mut initiator, BURSTS);
    check_held(&rt, &initiator, AFTER, (8192, 512));
}

// Does what a line asks of an initiator, whose last outcome was taken.
fn call(rt: &impl Abort, alloc: Global, initiator: &mut Initiator, call: &str, out: &mut Vec<u8>) {
    if call == "start" {
        initiator.start(out).expect(rt, call);
        return;
    }
    initiator.outcome();
    let fault = match initiator.submit(request_of(rt, alloc, call), out) {
        Ok(()) => None,
        Err(refused) => Some(refused.fault),
    };
    same(rt, &fault, &None, &call);
}

// Feeds the PDU of a line.
fn feed(rt: &impl Abort, alloc: Global, initiator: &mut Initiator, line: &str, out: &mut Vec<u8>) {
    let mut came = Vec::new(alloc);
    append_pdu(line, &mut came).expect(rt, line);
    initiator.feed(&came, out).expect(rt, line);
}

/// What a session sent, and what is due.
#[derive(Drop)]
struct Sent {
    out: Vec<u8>,
    want: Vec<u8>,
}

// A line of the session of both ends.
fn play_line(
    rt: &impl Abort,
    alloc: Global,
    initiator: &mut Initiator,
    line: &str,
    sent: &mut Sent,
) {
    let (mark, rest) = line.split_once(' ').expect(rt, "no mark");
    match mark {
        "!" => call(rt, alloc, initiator, rest, &mut sent.out),
        "I>" => append_pdu(rest, &mut sent.want).expect(rt, rest),
        "T>" => {
            same(rt, &sent.out, &sent.want, &line);
            feed(rt, alloc, initiator, rest, &mut sent.out);
        }
        _ => panic!(rt; "no such line"),
    }
}

// A session that sent nothing yet.
fn sent_nothing(alloc: Global) -> Sent {
    Sent {
        out: Vec::new(alloc),
        want: Vec::new(alloc),
    }
}

/// The initiator's part of the session of both ends, a PDU at a time.
#[test]
fn a_session_of_both_ends(rt: HostRuntime) {
    let mut initiator = initiator_of(&rt, rt.alloc(), Setup::Standard);
    let mut sent = sent_nothing(rt.alloc());
    for line in SESSION.lines() {
        play_line(&rt, rt.alloc(), &mut initiator, line, &mut sent);
    }
    same(&rt, &sent.out, &sent.want, &"all");
    same(&rt, &initiator.phase(), &Phase::Closed, &"all");
}
