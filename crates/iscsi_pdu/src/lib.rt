//! iSCSI PDUs (RFC 7143, section 11): the head, read from and written to the 48 bytes of a header;
//! padding; serial numbers.
#![tactic(auto)]

mod head;
pub mod laws;
mod pdu;
pub mod rule;
mod serial;

pub use head::{
    AsyncMessage, DataIn, DataOut, Head, HeadFault, LoginRequest, LoginResponse, LogoutRequest,
    LogoutResponse, NopIn, NopOut, ReadyToTransfer, Reject, ScsiCommand, ScsiResponse, TaskRequest,
    TaskResponse, TextRequest, TextResponse, put_head, read_bare_head, read_head, write_head,
};
pub use pdu::{Pdu, pad};
pub use serial::{Serial, Window};

/// How many bytes a header has (RFC 7143, section 11.2.1).
pub const HEADER_LEN: usize = 48;

/// The reserved tag, ffffffff: as an initiator task tag it names no task, as a target transfer tag
/// no transfer (RFC 7143, sections 11.2.1.8 and 11.7.4).
pub const RESERVED_TAG: u32 = 0xffff_ffff;

/// The longest data segment of a login PDU, in bytes: the default of MaxRecvDataSegmentLength,
/// which holds during login (RFC 7143, section 13.12).
pub const LOGIN_SEGMENT: u32 = 8192;
