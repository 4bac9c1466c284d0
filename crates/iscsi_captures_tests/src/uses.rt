//! What another program does with `iscsi_captures`.

use iscsi_captures::{CapturesFault, End, Undigested, Wanted, show_captured};
use std::alloc::Global;
use std::io::{Read, Write};

/// Writes a line for each PDU that the initiator of a capture's first connection sent.
pub fn show_initiator<R: Read, W: Write>(
    alloc: Global,
    file: &mut R,
    output: &mut W,
) -> Result<(), CapturesFault> {
    let wanted = Wanted {
        connection: 0,
        end: End::Initiator,
    };
    let mut captured = Undigested::new(alloc, 1, file, wanted)?;
    show_captured(alloc, &mut captured, output)
}
