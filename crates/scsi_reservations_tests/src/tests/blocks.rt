//! Blocks and parameter lists, and their refusals.

use crate::asserts::same;
use scsi_reservations::{Action, Ask, Kind, Refusal, Report};

fn block(first: &[u8]) -> [u8; 16] {
    let mut bytes = [0; 16];
    for (i, byte) in first.iter().enumerate().take(16) {
        bytes[i] = *byte;
    }
    bytes
}

/// A block of PERSISTENT RESERVE OUT, and its action.
const OUT: &[(&[u8], Result<Action, Refusal>)] = &[
    (b"\x5f\0\0\0\0\0\0\0\x18", Ok(Action::Register)),
    (b"\x5f\0\xff\0\0\0\0\0\x18", Ok(Action::Register)),
    (
        b"\x5f\x01\x05\0\0\0\0\0\x18",
        Ok(Action::Reserve(Kind::WriteExclusiveRegistrants)),
    ),
    (
        b"\x5f\x02\x01\0\0\0\0\0\x18",
        Ok(Action::Release(Kind::WriteExclusive)),
    ),
    (b"\x5f\x03\0\0\0\0\0\0\x18", Ok(Action::Clear)),
    (
        b"\x5f\x04\x08\0\0\0\0\0\x18",
        Ok(Action::Preempt(Kind::ExclusiveAccessAll)),
    ),
    (
        b"\x5f\x05\x06\0\0\0\0\0\x18",
        Ok(Action::PreemptAndAbort(Kind::ExclusiveAccessRegistrants)),
    ),
    (b"\x5f\xe6\0\0\0\0\0\0\x18", Ok(Action::RegisterAndIgnore)),
    (b"\x5f\x07\0\0\0\0\0\0\x18", Err(Refusal::InvalidField)),
    (b"\x5f\x1f\0\0\0\0\0\0\x18", Err(Refusal::InvalidField)),
    (b"\x5f\x01\x02\0\0\0\0\0\x18", Err(Refusal::InvalidField)),
    (b"\x5f\x01\x15\0\0\0\0\0\x18", Err(Refusal::InvalidField)),
    (b"\x5f\x04\x09\0\0\0\0\0\x18", Err(Refusal::InvalidField)),
    (b"\x5f\x07\0\0\0\0\0\0\x17", Err(Refusal::ListLength)),
    (b"\x5f\0\0\0\0\x01\0\0\x18", Err(Refusal::ListLength)),
];

#[test]
fn actions_of_blocks(rt: HostRuntime) {
    for row in OUT {
        same(&rt, &Action::read(&block(row.0)), &row.1, &row.0);
    }
}

/// An action, whether registrations can last, byte 20 of a list, and what it asks.
const LISTS: &[(Action, bool, u8, Result<bool, Refusal>)] = &[
    (Action::Register, false, 0x00, Ok(false)),
    (Action::Register, false, 0x04, Ok(false)),
    (Action::Register, true, 0x01, Ok(true)),
    (Action::RegisterAndIgnore, true, 0x05, Ok(true)),
    (
        Action::Register,
        false,
        0x01,
        Err(Refusal::InvalidParameter),
    ),
    (Action::Register, true, 0x08, Err(Refusal::InvalidParameter)),
    (
        Action::RegisterAndIgnore,
        false,
        0x08,
        Err(Refusal::InvalidParameter),
    ),
    (Action::Clear, false, 0x09, Ok(false)),
];

fn list(flags: u8) -> [u8; 24] {
    let mut bytes = [0; 24];
    bytes[7] = 0x0b;
    bytes[8] = 0x01;
    bytes[15] = 0x16;
    bytes[20] = flags;
    bytes
}

#[test]
fn lists_of_actions(rt: HostRuntime) {
    for row in LISTS {
        let due = row.3.map(|lasts| Ask {
            action: row.0,
            key: 0x0b,
            service_key: 0x0100_0000_0000_0016,
            lasts,
        });
        same(
            &rt,
            &row.0.with_list(row.1, &list(row.2)),
            &due,
            &(row.0, row.2),
        );
    }
    let short = Action::Clear.with_list(false, &list(0)[..23]);
    same(&rt, &short, &Err(Refusal::ListLength), &"23 bytes");
}

#[test]
fn reports_of_blocks(rt: HostRuntime) {
    let rows = [
        (0x00, Ok(Report::Keys)),
        (0x01, Ok(Report::Reservation)),
        (0x02, Ok(Report::Capabilities)),
        (0xe3, Ok(Report::FullStatus)),
        (0x04, Err(Refusal::InvalidField)),
    ];
    for row in rows {
        same(&rt, &Report::read(&block(&[0x5e, row.0])), &row.1, &row.0);
    }
}

#[test]
fn sense_codes(rt: HostRuntime) {
    let rows = [
        (Refusal::ListLength, (0x1a, 0x00)),
        (Refusal::InvalidField, (0x24, 0x00)),
        (Refusal::InvalidParameter, (0x26, 0x00)),
        (Refusal::InvalidRelease, (0x26, 0x04)),
        (Refusal::NoRoom, (0x55, 0x04)),
    ];
    for row in rows {
        same(&rt, &row.0.code(), &row.1, &row.0);
    }
}
