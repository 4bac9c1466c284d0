//! Sense data and SCSI statuses by their words (SPC-4, section 4.5; SAM-5, section 5.3.1).

use std::alloc::{AllocError, Global};

/// The words of a SCSI status.
pub(crate) fn status_words(status: u8) -> &'static str {
    match status {
        0x00 => "GOOD",
        0x02 => "CHECK CONDITION",
        0x04 => "CONDITION MET",
        0x08 => "BUSY",
        0x18 => "RESERVATION CONFLICT",
        0x28 => "TASK SET FULL",
        0x30 => "ACA ACTIVE",
        0x40 => "TASK ABORTED",
        _ => "no status of SAM-5",
    }
}

// The words of a sense key.
fn key_words(key: u8) -> &'static str {
    match key {
        0x0 => "NO SENSE",
        0x1 => "RECOVERED ERROR",
        0x2 => "NOT READY",
        0x3 => "MEDIUM ERROR",
        0x4 => "HARDWARE ERROR",
        0x5 => "ILLEGAL REQUEST",
        0x6 => "UNIT ATTENTION",
        0x7 => "DATA PROTECT",
        0x8 => "BLANK CHECK",
        0x9 => "VENDOR SPECIFIC",
        0xa => "COPY ABORTED",
        0xb => "ABORTED COMMAND",
        0xd => "VOLUME OVERFLOW",
        0xe => "MISCOMPARE",
        0xf => "COMPLETED",
        _ => "reserved key",
    }
}

// The words of an additional sense code and its qualifier; none for those that disks seldom send.
fn code_words(code: u8, qualifier: u8) -> &'static str {
    match u16::from_be_bytes([code, qualifier]) {
        0x0000 => ", NO ADDITIONAL SENSE INFORMATION",
        0x0400 => ", LOGICAL UNIT NOT READY, CAUSE NOT REPORTABLE",
        0x0401 => ", LOGICAL UNIT IS IN PROCESS OF BECOMING READY",
        0x0402 => ", LOGICAL UNIT NOT READY, INITIALIZING COMMAND REQUIRED",
        0x0c00 => ", WRITE ERROR",
        0x1100 => ", UNRECOVERED READ ERROR",
        0x1a00 => ", PARAMETER LIST LENGTH ERROR",
        0x1d00 => ", MISCOMPARE DURING VERIFY OPERATION",
        0x2000 => ", INVALID COMMAND OPERATION CODE",
        0x2100 => ", LOGICAL BLOCK ADDRESS OUT OF RANGE",
        0x2400 => ", INVALID FIELD IN CDB",
        0x2500 => ", LOGICAL UNIT NOT SUPPORTED",
        0x2600 => ", INVALID FIELD IN PARAMETER LIST",
        0x2700 => ", WRITE PROTECTED",
        0x2800 => ", NOT READY TO READY CHANGE, MEDIUM MAY HAVE CHANGED",
        0x2900 => ", POWER ON, RESET, OR BUS DEVICE RESET OCCURRED",
        0x2a01 => ", MODE PARAMETERS CHANGED",
        0x2a09 => ", CAPACITY DATA HAS CHANGED",
        0x2c00 => ", COMMAND SEQUENCE ERROR",
        0x2f00 => ", COMMANDS CLEARED BY ANOTHER INITIATOR",
        0x3a00 => ", MEDIUM NOT PRESENT",
        0x3f0e => ", REPORTED LUNS DATA HAS CHANGED",
        0x4400 => ", INTERNAL TARGET FAILURE",
        0x4900 => ", INVALID MESSAGE ERROR",
        _ => "",
    }
}

/// The words of sense data in either format: the key, and the additional code with its qualifier in
/// hex. The data stand behind a length of two bytes, as a SCSI Response has them (RFC 7143, section
/// 11.4.7.2). None where there are no such data.
pub(crate) fn sense_words(alloc: Global, segment: &[u8]) -> Result<Option<String>, AllocError> {
    let Some((key, code, qualifier)) = sense_of(segment) else {
        return Ok(None);
    };
    let (first, second) = (key_words(key), code_words(code, qualifier));
    let words = format!(in alloc; "sense {first} {code:02x}/{qualifier:02x}{second}")?;
    Ok(Some(words))
}

/// The key of sense data, the additional code, and its qualifier.
pub(crate) fn sense_of(segment: &[u8]) -> Option<(u8, u8, u8)> {
    match segment.get(2).copied() {
        Some(0x70 | 0x71) if segment.len() >= 16 => {
            Some((segment[4] % 16, segment[14], segment[15]))
        }
        Some(0x72 | 0x73) if segment.len() >= 6 => {
            Some((segment[3] % 16, segment[4], segment[5]))
        }
        _ => None,
    }
}
