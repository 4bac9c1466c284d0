//! An initiator by example.

use hex::FromHex;
use iscsi_initiator::{Config, Initiator, InitiatorFault, Request};
use iscsi_login::{Auth, ConfigFault, Offers, Phase, Preferences, Session, Stage};
use iscsi_test_support::segment_of;
use scsi_cdb::Bytes;
use std::alloc::Global;
use std::process::Abort;

mod breaches;
mod configs;
mod dialogues;
mod logins;
mod preludes;
mod requests;
mod words;

/// What differs from the initiator of the standard preferences, which logs in in two stages.
#[derive(Clone, Copy, PartialEq, Eq)]
enum Setup {
    Standard,
    /// It begins in the operational stage.
    Single,
    /// Login Requests of at most 64 bytes of text.
    Segments,
    /// It takes segments of at most 512 bytes.
    Short,
    Discovery,
    /// The names, the numbers and the one stage of the capture.
    Captured,
    /// The first CmdSN is the last one.
    Wrapping,
}

// The set-up that a dialogue names.
fn setup_of(rt: &impl Abort, name: &str) -> Setup {
    match name {
        "standard" => Setup::Standard,
        "single" => Setup::Single,
        "segments" => Setup::Segments,
        "short" => Setup::Short,
        "discovery" => Setup::Discovery,
        "captured" => Setup::Captured,
        "wrapping" => Setup::Wrapping,
        _ => panic!(rt; "no such set-up: {name}"),
    }
}

// The lines that go before.
fn lines_before(rt: &impl Abort, before: &str) -> &'static str {
    match before {
        "begun" => preludes::BEGUN,
        "logged in" => preludes::LOGIN,
        "bursts" => preludes::BURSTS,
        "asked" => preludes::ASKED,
        "immediate" => preludes::IMMEDIATE,
        "unsolicited" => preludes::UNSOLICITED,
        "shut" => preludes::SHUT,
        "wrapping" => preludes::WRAPPING,
        "short" => preludes::SHORT,
        "nothing" => "",
        _ => panic!(rt; "no such lines: {before}"),
    }
}

// The login of a normal session without a password.
fn standard_offers() -> Offers<'static> {
    Offers {
        initiator: b"iqn.2026-01.example:host",
        target: b"iqn.2026-01.example:disk",
        session: Session::Normal,
        auth: Auth::None,
        prefs: Preferences::standard(),
    }
}

// What the initiator of a dialogue offers.
fn offers_of(setup: Setup) -> Offers<'static> {
    let mut offers = standard_offers();
    match setup {
        Setup::Short => offers.prefs.max_recv = 512,
        Setup::Discovery => offers.session = Session::Discovery,
        Setup::Captured => {
            offers.initiator = b"iqn.2001-04.com.example:init";
            offers.target = b"iqn.2001-04.com.example:disk";
        }
        Setup::Standard | Setup::Single | Setup::Segments | Setup::Wrapping => {}
    }
    offers
}

// The ISID and the first CmdSN of a dialogue.
fn numbers_of(setup: Setup) -> ([u8; 6], u32) {
    if setup == Setup::Captured {
        return ([0x80, 0xb5, 0x4c, 0xcd, 0, 0], 0x4aaf_3723);
    }
    let first = if setup == Setup::Wrapping {
        0xffff_ffff
    } else {
        1
    };
    ([0x40, 0, 0, 1, 0, 0], first)
}

// The configuration of a dialogue.
fn config_of(alloc: Global, setup: Setup) -> Result<Config, ConfigFault> {
    let start = if setup == Setup::Single || setup == Setup::Captured {
        Stage::Operational
    } else {
        Stage::Security
    };
    let segment = if setup == Setup::Segments { 64 } else { 8192 };
    let (isid, first_cmd_sn) = numbers_of(setup);
    Config::new(alloc, offers_of(setup), start, isid, first_cmd_sn, segment)
}

// The initiator of a dialogue. It stands in a box: a function that owns it is then proved much sooner.
fn initiator_of(rt: &impl Abort, alloc: Global, setup: Setup) -> Box<Initiator> {
    let config = config_of(alloc, setup).expect(rt, "a configuration");
    Box::new(alloc, Initiator::new(alloc, config)).expect(rt, "an initiator")
}

// The data of a request.
fn data_of(rt: &impl Abort, alloc: Global, segment: &str) -> Bytes {
    Bytes::from_vec(segment_of(alloc, segment).expect(rt, segment))
}

// The request of a line.
fn request_of(rt: &impl Abort, alloc: Global, line: &str) -> Request {
    let (kind, rest) = line.split_once(' ').unwrap_or((line, ""));
    match kind {
        "ping" => Request::Ping {
            bytes: data_of(rt, alloc, rest),
        },
        "text" => Request::Text {
            bytes: data_of(rt, alloc, rest),
        },
        "in" => in_of(rt, rest),
        "out" => out_of(rt, alloc, rest),
        "logout" => Request::Logout,
        _ => panic!(rt; "no such request"),
    }
}

// The unit and the block that a command begins with, and what is left of its line.
fn head_of<'a>(rt: &impl Abort, line: &'a str) -> (u64, [u8; 16], &'a str) {
    let (unit, rest) = line.split_once(' ').expect(rt, "no unit");
    let (block, rest) = rest.split_once(' ').expect(rt, "no block");
    let lun = u64::from_str_radix(unit, 16).expect(rt, unit);
    let cdb = <[u8; 16]>::from_hex(block).expect(rt, block);
    (lun, cdb, rest)
}

// A command that reads: how many bytes are expected stands behind the block.
fn in_of(rt: &impl Abort, line: &str) -> Request {
    let (lun, cdb, expected) = head_of(rt, line);
    let expected = expected.parse::<u32>().expect(rt, expected);
    Request::In { lun, cdb, expected }
}

// A command that writes: the data stand behind the block.
fn out_of(rt: &impl Abort, alloc: Global, line: &str) -> Request {
    let (lun, cdb, data) = head_of(rt, line);
    let bytes = data_of(rt, alloc, data);
    Request::Out { lun, cdb, bytes }
}

// Feeds what comes in pieces of this length, and gives the last answer.
fn feed_pieces(
    initiator: &mut Initiator,
    stream: &[u8],
    len: usize,
    out: &mut Vec<u8>,
) -> Result<Phase, InitiatorFault> {
    if stream.is_empty() {
        return initiator.feed(stream, out);
    }
    let mut phase = initiator.phase();
    for piece in stream.chunks(len.max(1)) {
        phase = initiator.feed(piece, out)?;
        if phase == Phase::Closed {
            return Ok(phase);
        }
    }
    Ok(phase)
}
