//! The lines and statuses of faults, and images. What command lines come to stands in rows of
//! `tool_rows`.

mod images;

use crate::asserts::same;
use iscsi_pdu::HeadFault;
use iscsi_stream::{StreamFault, ToolFault};
use iscsi_text::TextFault;
use iscsi_tool::status;
use std::alloc::Global;
use std::process::Abort;

/// A fault, its line and the exit status.
const FAULTS: &[(ToolFault, &str, u8)] = &[
    (ToolFault::NoMemory, "memory", 3),
    (
        ToolFault::Stream(StreamFault::Head(HeadFault::UnknownOpcode, 0)),
        "stream: unknown opcode at 0",
        1,
    ),
    (
        ToolFault::Stream(StreamFault::Head(HeadFault::Additional, 0)),
        "stream: additional header at 0",
        1,
    ),
    (
        ToolFault::Stream(StreamFault::Head(HeadFault::TooLong, 0)),
        "stream: login segment too long at 0",
        1,
    ),
    (
        ToolFault::Stream(StreamFault::Truncated(52)),
        "stream: truncated at 52",
        1,
    ),
    (
        ToolFault::Text(TextFault::NoEquals(4)),
        "text: no equals at 4",
        1,
    ),
    (ToolFault::TextTooLong, "text: over 16384 bytes", 1),
    (ToolFault::NotHex, "input: not hex", 1),
    (ToolFault::Protocol(3), "protocol: rule 3", 1),
    (ToolFault::Read, "read failed", 4),
    (ToolFault::Write, "write failed", 4),
];

// What is said of a fault.
fn check_line(rt: &impl Abort, alloc: Global, fault: &ToolFault, line: &str) {
    let said = format!(in alloc; "{fault}").expect(rt, line);
    same(rt, &said.as_str(), &line, &line);
}

#[test]
fn fault_lines_and_statuses(rt: HostRuntime) {
    for (fault, line, code) in FAULTS {
        check_line(&rt, rt.alloc(), fault, line);
        same(&rt, &status(fault), code, line);
    }
}
