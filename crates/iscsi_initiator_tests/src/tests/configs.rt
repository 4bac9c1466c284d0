//! What an initiator may be configured with.

use crate::asserts::same;
use iscsi_initiator::Config;
use iscsi_login::{Auth, ConfigFault, Offers, Preferences, Session, Stage};
use std::alloc::Global;
use std::process::Abort;

const ISID: [u8; 6] = [0x40, 0, 0, 1, 0, 0];

fn offers<'a>(initiator: &'a [u8], target: &'a [u8], max_recv: u32) -> Offers<'a> {
    let mut prefs = Preferences::standard();
    prefs.max_recv = max_recv;
    Offers {
        initiator,
        target,
        session: Session::Normal,
        auth: Auth::None,
        prefs,
    }
}

/// A configuration: what is told of it, the names, the longest segment that is taken, and the stage of
/// the first request. The longest segment of a login text and the fault of the configuration follow.
type Row = (
    &'static str,
    &'static [u8],
    &'static [u8],
    u32,
    Stage,
    u32,
    Option<ConfigFault>,
);

const HOST: &[u8] = b"iqn.2026-01.example:host";

const DISK: &[u8] = b"iqn.2026-01.example:disk";

const LONGEST: &[u8] = &[b'n'; 223];

const LONG: &[u8] = &[b'n'; 224];

const NAME: Option<ConfigFault> = Some(ConfigFault::BadName);

const RANGE: Option<ConfigFault> = Some(ConfigFault::OutOfRange);

const ROWS: &[Row] = &[
    (
        "as it is used",
        HOST,
        DISK,
        8192,
        Stage::Security,
        8192,
        None,
    ),
    (
        "the least segment",
        HOST,
        DISK,
        512,
        Stage::Operational,
        64,
        None,
    ),
    (
        "names of 223 bytes",
        LONGEST,
        LONGEST,
        8192,
        Stage::Security,
        64,
        None,
    ),
    (
        "a segment too short",
        HOST,
        DISK,
        8192,
        Stage::Security,
        63,
        RANGE,
    ),
    (
        "a segment too long",
        HOST,
        DISK,
        8192,
        Stage::Security,
        8193,
        RANGE,
    ),
    ("no login", HOST, DISK, 8192, Stage::Full, 8192, RANGE),
    (
        "a preference out of range",
        HOST,
        DISK,
        511,
        Stage::Security,
        8192,
        RANGE,
    ),
    ("no name", b"", DISK, 8192, Stage::Security, 8192, NAME),
    (
        "a blank in a name",
        HOST,
        b"a b",
        8192,
        Stage::Security,
        8192,
        NAME,
    ),
    (
        "a name too long",
        LONG,
        DISK,
        8192,
        Stage::Security,
        8192,
        NAME,
    ),
    ("both", b"", DISK, 511, Stage::Full, 63, NAME),
];

// Compares the fault of a configuration.
fn check_row(rt: &impl Abort, alloc: Global, row: &Row) {
    let (what, initiator, target, max_recv, start, segment, want) = *row;
    let offers = offers(initiator, target, max_recv);
    let config = Config::new(alloc, offers, start, ISID, 1, segment);
    same(rt, &config.err(), &want, &what);
}

#[test]
fn configurations(rt: HostRuntime) {
    for row in ROWS {
        check_row(&rt, rt.alloc(), row);
    }
}
