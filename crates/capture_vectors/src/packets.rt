//! The packets of a capture.

use crate::row::Row;
use iscsi_captures::{CaptureFile, CapturesFault, Stood};
use std::alloc::{AllocError, Global};

// How many packets there are, and the fault of the first that tells no segment.
#[derive(Clone, Copy)]
struct Packets {
    count: u64,
    fault: Option<CapturesFault>,
}

/// Whether a file has the packets and the fault of its row.
pub fn packets_are_so(alloc: Global, file: &[u8], row: Row<'_>) -> Result<bool, AllocError> {
    let Ok(Packets { count, fault }) = read(alloc, file) else {
        return Ok(false);
    };
    let count = format!(in alloc; "{count}")?;
    let fault = fault_word(alloc, fault)?;
    Ok(count.as_str() == row.end && fault.as_str() == row.stream)
}

// Reads a file to its end, of which each step passes over a byte at least.
fn read(alloc: Global, file: &[u8]) -> Result<Packets, CapturesFault> {
    let mut source = file;
    let mut capture = CaptureFile::new(alloc)?;
    let mut packets = Packets {
        count: 0,
        fault: None,
    };
    for _ in 0..=file.len() {
        match capture.step(&mut source)? {
            Stood::Other => {}
            Stood::End => break,
            Stood::Packet(packet) => {
                packets.count = packet.number;
                packets.fault = packets.fault.or(packet.segment().err());
            }
        }
    }
    Ok(packets)
}

// The word of a row for a fault, and the packet that has it.
fn fault_word(alloc: Global, fault: Option<CapturesFault>) -> Result<String, AllocError> {
    match fault {
        None => String::from_str(alloc, "-"),
        Some(CapturesFault::Fragment { packet, .. }) => format!(in alloc; "fragment:{packet}"),
        Some(CapturesFault::Cut { packet, .. }) => format!(in alloc; "cut:{packet}"),
        Some(fault) => format!(in alloc; "{fault}"),
    }
}
