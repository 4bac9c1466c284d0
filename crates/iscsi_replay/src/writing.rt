//! Requests that may change a target.

ghost use Rattle.std.specs.Prelude.{◌≡◌};
ghost use Rattle.iscsi_replay.specs.Rules.{is_harmless, may_write};

use iscsi_job::{Asked, Item, Moves};

/// Operation codes that change neither a medium nor what others may do (SPC-4, SBC-3): TEST UNIT READY,
/// REQUEST SENSE, the READ family, INQUIRY, MODE SENSE, READ CAPACITY, VERIFY, SYNCHRONIZE CACHE, READ
/// DEFECT DATA, READ BUFFER, LOG SENSE, PERSISTENT RESERVE IN, SERVICE ACTION IN(16), REPORT LUNS and
/// MAINTENANCE IN.
const HARMLESS: &[u8] = &[
    0x00, 0x03, 0x08, 0x12, 0x1a, 0x25, 0x28, 0x2f, 0x35, 0x37, 0x3c, 0x4d, 0x5a, 0x5e, 0x88, 0x91,
    0x9e, 0xa0, 0xa3, 0xa8,
];

/// Whether doing the request again may change a target: it is a command that sends data, or one of an
/// operation code that is not known to be harmless.
pub fn writes(item: &Item) -> bool
    ensures value { result ≡ may_write item.now.asked }
{
    match item.asked {
        Asked::Command {
            moves: Moves::Out,
            ..
        } => true,
        Asked::Command { cdb, .. } => !is_harmless(cdb),
        Asked::Ping | Asked::Text | Asked::Logout | Asked::Task(_) => false,
    }
}

// Whether the command of a descriptor block is known to be harmless.
fn is_harmless(block: [u8; 16]) -> bool
    ensures { result ≡ is_harmless block }
{
    let bytes: &[u8] = &block;
    match bytes {
        [operation_code, ..] => HARMLESS.contains(operation_code),
        [] => false,
    }
}
