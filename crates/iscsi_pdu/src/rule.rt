//! The rules of a session by their numbers, which both ends share, and the reasons of a
//! Reject (RFC 7143, section 11.17.1).

/// A kind of PDU, or a task tag, is not due in this phase.
pub const KIND_NOT_DUE: u8 = 1;
/// A segment is longer than its receiver declared.
pub const SEGMENT_TOO_LONG: u8 = 2;
/// Data, or a request for data, come out of order or past a burst.
pub const DATA_OUT_OF_ORDER: u8 = 3;
/// A text or its flags are at fault.
pub const TEXT_AT_FAULT: u8 = 4;
/// A logout is for another reason than to close.
pub const LOGOUT_REASON: u8 = 5;
/// StatSN is not the expected one.
pub const STATUS_OUT_OF_ORDER: u8 = 6;
/// The flags or the stage of a login answer are not those that are due.
pub const LOGIN_OUT_OF_TURN: u8 = 7;
/// A Reject came.
pub const REJECTED: u8 = 8;
/// A request's CmdSN is inside the window, and not the one that is due.
pub const COMMAND_OUT_OF_TURN: u8 = 9;

/// The reason of a Reject of a PDU that breaks a rule.
pub const PROTOCOL_ERROR: u8 = 0x04;
/// The reason of a Reject of an immediate PDU for which there is no room.
pub const TOO_MANY_IMMEDIATE: u8 = 0x06;
