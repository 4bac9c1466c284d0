//! What another program does with `capture_file`.

use capture_file::{Capture, CaptureFault, Step, segment_of};
use std::alloc::Global;

/// How many packets and how many TCP segments a capture in memory has, up to its end or to where it
/// is cut off.
pub fn counted(alloc: Global, file: &[u8]) -> Result<(u64, u64), CaptureFault> {
    let mut capture = Capture::new(alloc);
    let mut rest = file;
    let mut packets: u64 = 0;
    let mut segments: u64 = 0;
    for _ in 0..file.len() {
        let taken = match capture.step(rest)? {
            Step::More(_) => return Ok((packets, segments)),
            Step::Skip(count) => count as usize,
            Step::Packet(packet, count) => {
                packets = packets.saturating_add(1);
                if let Ok(Some(_)) = segment_of(packet) {
                    segments = segments.saturating_add(1);
                }
                count
            }
        };
        let Some(behind) = rest.get(taken..) else {
            return Ok((packets, segments));
        };
        rest = behind;
    }
    Ok((packets, segments))
}
