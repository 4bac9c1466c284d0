//! What a target may be configured with.

use crate::asserts::same;
use iscsi_login::{ConfigFault, Preferences};
use iscsi_target::Config;
use std::alloc::Global;
use std::process::Abort;

// The standard preferences with bursts of this length.
fn bursts(max_burst: u32) -> Preferences {
    let mut preferences = Preferences::standard();
    preferences.max_burst = max_burst;
    preferences
}

/// A configuration: what is told of it, the target's name, its TSIH, the longest burst, and its fault.
type Row = (&'static str, &'static [u8], u16, u32, Option<ConfigFault>);

const NAME: Option<ConfigFault> = Some(ConfigFault::BadName);

const RANGE: Option<ConfigFault> = Some(ConfigFault::OutOfRange);

const ROWS: &[Row] = &[
    ("no name", b"", 1, 262_144, NAME),
    ("a long name", &[b'a'; 223], 1, 262_144, None),
    ("one byte more", &[b'a'; 224], 1, 262_144, NAME),
    ("a blank", b"a b", 1, 262_144, NAME),
    ("past ASCII", b"a\x7f", 1, 262_144, NAME),
    ("no TSIH", b"a", 0, 262_144, RANGE),
    ("neither", b"", 0, 262_144, NAME),
    ("a short burst", b"a", 1, 511, RANGE),
];

// Compares the fault of a configuration.
fn check_row(rt: &impl Abort, alloc: Global, row: &Row) {
    let (what, target, tsih, max_burst, want) = *row;
    let config = Config::new(alloc, target, 1, tsih, bursts(max_burst));
    same(rt, &config.err(), &want, &what);
}

#[test]
fn configurations(rt: HostRuntime) {
    for row in ROWS {
        check_row(&rt, rt.alloc(), row);
    }
}
