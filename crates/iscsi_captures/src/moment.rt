//! When packets were captured.

use capture_file::Packet;

/// When a packet was captured, in nanoseconds from 1970 on; 2^64 - 1 for a time behind the year 2554.
pub(crate) fn nanoseconds_of(packet: &Packet<'_>) -> u64 {
    match packet.second {
        0 => return 0,
        1_000_000 => return packet.time.saturating_mul(1_000),
        1_000_000_000 => return packet.time,
        _ => {}
    }
    let whole = packet.time / packet.second;
    let rest = packet.time % packet.second;
    let rest = rest as u128 * 1_000_000_000 / packet.second as u128;
    let all = whole as u128 * 1_000_000_000 + rest;
    if all > u64::MAX as u128 {
        u64::MAX
    } else {
        all as u64
    }
}

/// Whether a packet's time is told more exactly than in microseconds.
pub(crate) fn is_precise(packet: &Packet<'_>) -> bool {
    packet.second > 1_000_000
}
