//! Any head, and the header that it is read from and written to (RFC 7143, section 11.2). One file,
//! since it is tables of 17 kinds.

ghost use Rattle.std.specs.Prelude.{◌≡◌, ◌++◌, ◌<◌, ◌≤◌, ◌^◌, ℕ, false, Ok, Some, IfOk, IfSome, MatchOption};
ghost use Rattle.std.specs.Bool.{OnTrue};
ghost use Rattle.std.specs.Result.{result_err};
ghost use Rattle.scsi_cdb.specs.Layout.{RowsHold, AreFilled, HaveRoom, put_all, bits_at};
ghost use Rattle.iscsi_pdu.specs.declared.head.Head.{Head};
ghost use Rattle.iscsi_pdu.specs.Meaning.{opcode, rows, ones, blocks, header, is_login, is_opcode, head_fault, HeadFits, FitsBlock, HasBlock, ReadsBlock, IsHeader};

mod async_message;
mod data_in;
mod data_out;
mod login_request;
mod login_response;
mod logout_request;
mod logout_response;
mod nop_in;
mod nop_out;
mod ready_to_transfer;
mod reject;
mod scsi_command;
mod scsi_response;
mod task_request;
mod task_response;
mod text_request;
mod text_response;

pub use self::async_message::AsyncMessage;
pub use self::data_in::DataIn;
pub use self::data_out::DataOut;
pub use self::login_request::LoginRequest;
pub use self::login_response::LoginResponse;
pub use self::logout_request::LogoutRequest;
pub use self::logout_response::LogoutResponse;
pub use self::nop_in::NopIn;
pub use self::nop_out::NopOut;
pub use self::ready_to_transfer::ReadyToTransfer;
pub use self::reject::Reject;
pub use self::scsi_command::ScsiCommand;
pub use self::scsi_response::ScsiResponse;
pub use self::task_request::TaskRequest;
pub use self::task_response::TaskResponse;
pub use self::text_request::TextRequest;
pub use self::text_response::TextResponse;
use crate::{LOGIN_SEGMENT, RESERVED_TAG};
use scsi_cdb::layout::{bits, put_bit, put_number, put_u8, put_u24, put_u32, u8_at, u24_at};
use thiserror::Error;

/// What the header of a PDU means, by its kind: all but the length of the data segment.
///
/// A field with a condition is an `Option`, and has a value exactly where its condition holds. Bits
/// of no field are ignored on receipt, those that the standard wants to be 1 too (own rule).
#[derive(Clone, Copy, Debug, PartialEq, Eq)]
pub enum Head {
    /// Opcode 00 (section 11.18).
    NopOut(NopOut),
    /// Opcode 01 (section 11.3).
    ScsiCommand(ScsiCommand),
    /// Opcode 02 (section 11.5).
    TaskRequest(TaskRequest),
    /// Opcode 03 (section 11.12).
    LoginRequest(LoginRequest),
    /// Opcode 04 (section 11.10).
    TextRequest(TextRequest),
    /// Opcode 05 (section 11.7).
    DataOut(DataOut),
    /// Opcode 06 (section 11.14).
    LogoutRequest(LogoutRequest),
    /// Opcode 20 (section 11.19).
    NopIn(NopIn),
    /// Opcode 21 (section 11.4).
    ScsiResponse(ScsiResponse),
    /// Opcode 22 (section 11.6).
    TaskResponse(TaskResponse),
    /// Opcode 23 (section 11.13).
    LoginResponse(LoginResponse),
    /// Opcode 24 (section 11.11).
    TextResponse(TextResponse),
    /// Opcode 25 (section 11.7).
    DataIn(DataIn),
    /// Opcode 26 (section 11.15).
    LogoutResponse(LogoutResponse),
    /// Opcode 31 (section 11.8).
    ReadyToTransfer(ReadyToTransfer),
    /// Opcode 32 (section 11.9).
    AsyncMessage(AsyncMessage),
    /// Opcode 3f (section 11.17).
    Reject(Reject),
}

/// Why a header is refused. Where there are several reasons, the first in this order is given.
#[derive(Clone, Copy, Debug, Drop, Error, PartialEq, Eq)]
pub enum HeadFault {
    /// The opcode is none of the 17 (RFC 7143, section 11.2.1.2).
    #[error("unknown opcode")]
    UnknownOpcode,
    /// TotalAHSLength, byte 4, is not 0: no additional header segments are taken (own rule).
    #[error("additional header")]
    Additional,
    /// The data segment of a login PDU is over 8,192 bytes.
    #[error("login segment too long")]
    TooLong,
}

impl Head {
    /// The opcode of the kind.
    fn opcode(&self) -> u8
        ensures value { result ≡ opcode self.now }
        ensures small { result < 64 }
    {
        match self {
            Head::NopOut(_) => 0x00,
            Head::ScsiCommand(_) => 0x01,
            Head::TaskRequest(_) => 0x02,
            Head::LoginRequest(_) => 0x03,
            Head::TextRequest(_) => 0x04,
            Head::DataOut(_) => 0x05,
            Head::LogoutRequest(_) => 0x06,
            Head::NopIn(_) => 0x20,
            Head::ScsiResponse(_) => 0x21,
            Head::TaskResponse(_) => 0x22,
            Head::LoginResponse(_) => 0x23,
            Head::TextResponse(_) => 0x24,
            Head::DataIn(_) => 0x25,
            Head::LogoutResponse(_) => 0x26,
            Head::ReadyToTransfer(_) => 0x31,
            Head::AsyncMessage(_) => 0x32,
            Head::Reject(_) => 0x3f,
        }
    }

    /// The head of its kind, where the opcode is one.
    ///
    /// Each arm returns, and the call stays one, so that a head is written once, by its arm. If the
    /// arms meet, the compiler merges heads of 17 forms byte by byte.
    #[inline(never)]
    fn read(bytes: &[u8; 48]) -> Option<Head>
        ensures { MatchOption result (is_opcode (bits_at 0 63 bytes.now) ≡ false)
            (λ h. (opcode h ≡ bits_at 0 63 bytes.now) × RowsHold bytes.now (rows h)
            × HasBlock bytes.now h) }
    {
        match bits(bytes, 0, 0x3f) {
            0x00 => return Some(Head::NopOut(NopOut::read(bytes))),
            0x01 => return Some(Head::ScsiCommand(ScsiCommand::read(bytes))),
            0x02 => return Some(Head::TaskRequest(TaskRequest::read(bytes))),
            0x03 => return Some(Head::LoginRequest(LoginRequest::read(bytes))),
            0x04 => return Some(Head::TextRequest(TextRequest::read(bytes))),
            0x05 => return Some(Head::DataOut(DataOut::read(bytes))),
            0x06 => return Some(Head::LogoutRequest(LogoutRequest::read(bytes))),
            0x20 => return Some(Head::NopIn(NopIn::read(bytes))),
            0x21 => return Some(Head::ScsiResponse(ScsiResponse::read(bytes))),
            0x22 => return Some(Head::TaskResponse(TaskResponse::read(bytes))),
            0x23 => return Some(Head::LoginResponse(LoginResponse::read(bytes))),
            0x24 => return Some(Head::TextResponse(TextResponse::read(bytes))),
            0x25 => return Some(Head::DataIn(DataIn::read(bytes))),
            0x26 => return Some(Head::LogoutResponse(LogoutResponse::read(bytes))),
            0x31 => return Some(Head::ReadyToTransfer(ReadyToTransfer::read(bytes))),
            0x32 => return Some(Head::AsyncMessage(AsyncMessage::read(bytes))),
            0x3f => return Some(Head::Reject(Reject::read(bytes))),
            _ => None,
        }
    }

    /// Sets the free bits that are written 1.
    fn write_ones(&self, out: &mut [u8; 48])
        ensures { out.new ≡ put_all (ones self.now) out.old }
    {
        match self {
            Head::ScsiCommand(_)
            | Head::TextRequest(_)
            | Head::DataOut(_)
            | Head::LoginResponse(_)
            | Head::TextResponse(_)
            | Head::DataIn(_) => {}
            Head::LoginRequest(_) => put_bit(out, 0, 0x40, true),
            Head::AsyncMessage(_) | Head::Reject(_) => {
                put_bit(out, 1, 0x80, true);
                put_u32(out, 16, RESERVED_TAG);
            }
            _ => put_bit(out, 1, 0x80, true),
        }
    }

    /// Writes each field that there is.
    fn write_fields(&self, out: &mut [u8; 48])
        requires filled { AreFilled (rows self.now) }
        requires block { FitsBlock self.now }
        ensures written { out.new ≡ put_all (rows self.now ++ blocks self.now) out.old }
        ensures room { HaveRoom (rows self.now) }
        ensures block { ReadsBlock self.now }
    {
        match self {
            Head::NopOut(h) => h.write(out),
            Head::ScsiCommand(h) => h.write(out),
            Head::TaskRequest(h) => h.write(out),
            Head::LoginRequest(h) => h.write(out),
            Head::TextRequest(h) => h.write(out),
            Head::DataOut(h) => h.write(out),
            Head::LogoutRequest(h) => h.write(out),
            Head::NopIn(h) => h.write(out),
            Head::ScsiResponse(h) => h.write(out),
            Head::TaskResponse(h) => h.write(out),
            Head::LoginResponse(h) => h.write(out),
            Head::TextResponse(h) => h.write(out),
            Head::DataIn(h) => h.write(out),
            Head::LogoutResponse(h) => h.write(out),
            Head::ReadyToTransfer(h) => h.write(out),
            Head::AsyncMessage(h) => h.write(out),
            Head::Reject(h) => h.write(out),
        }
    }
}

/// The head of a header, and the length of the data segment behind it in bytes, without padding.
///
/// The header is refused exactly where it has no head, with the first reason of `HeadFault` that
/// applies.
pub fn read_head(bytes: &[u8; 48]) -> Result<(Head, u32), HeadFault>
    // What is read is the head that the field table gives, and it fits the table.
    ensures means { IfOk result (λ x. IsHeader bytes.now x.0 x.1) }
    ensures fits { IfOk result (λ x. HeadFits x.0) }
    ensures short { IfOk result (λ x. x.1 < 2 ^ 24) }
    // A header that has a head is read.
    ensures only { (h : Head) (len : ℕ) → IsHeader bytes.now h len → result ≡ Ok (h, len) }
    // Which fault it is.
    ensures fault { result_err result ≡ head_fault bytes.now }
{
    checked(bytes)
}

/// The head of a header that says no data segment, if it has one. A head has 80 bytes: it lies where it
/// was read, while `read_head` moves it beside the length.
#[inline(always)]
pub fn read_bare_head(bytes: &[u8; 48]) -> Option<Head>
    ensures means { IfSome result (λ h. IsHeader bytes.now h 0) }
    ensures fits { IfSome result (λ h. HeadFits h) }
    // A header that has a head and says no segment is read.
    ensures only { (h : Head) → IsHeader bytes.now h 0 → result ≡ Some h }
{
    if u8_at(bytes, 4) != 0 || u24_at(bytes, 5) != 0 {
        return None;
    }
    Head::read(bytes)
}

/// The head and length of a header that passes each check. It stands apart from `read_head`, whose other
/// clauses follow from these two.
fn checked(bytes: &[u8; 48]) -> Result<(Head, u32), HeadFault>
    ensures means { IfOk result (λ x. IsHeader bytes.now x.0 x.1) }
    ensures fault { result_err result ≡ head_fault bytes.now }
{
    let Some(head) = Head::read(bytes) else {
        return Err(HeadFault::UnknownOpcode);
    };
    if u8_at(bytes, 4) != 0 {
        return Err(HeadFault::Additional);
    }
    let len = u24_at(bytes, 5);
    let is_login = matches!(head.opcode(), 0x03 | 0x23);
    if is_login && len > LOGIN_SEGMENT {
        return Err(HeadFault::TooLong);
    }
    Ok((head, len))
}

/// The canonical header of a head, before a data segment of `len` bytes: bits of no field are 0,
/// but for those that the standard wants to be 1.
///
/// The head has to fit the table:
/// - Each number is within its mask.
/// - Each field with a condition is there exactly if its condition holds.
/// - An unknown descriptor block is one of no other record.
pub fn write_head(head: &Head, len: u32) -> [u8; 48]
    requires fits { HeadFits head.now }
    requires short { len < 2 ^ 24 }
    ensures canonical { result ≡ header head.now len }
    // It is read back, but for a login PDU of more than 8,192 bytes.
    ensures back { OnTrue (is_login (opcode head.now)) (len ≤ 8192) → IsHeader result head.now len }
{
    let mut out = [0; 48];
    put_head(head, len, &mut out);
    out
}

/// Writes the canonical header of a head over these bytes, before a data segment of `len` bytes: each row
/// of the tables after the other. The head has to fit the table, as for `write_head`.
#[tactic(auto, unfolding(crate::specs::Meaning::header))]
pub fn put_head(head: &Head, len: u32, out: &mut [u8; 48])
    requires fits { HeadFits head.now }
    requires short { len < 2 ^ 24 }
    ensures canonical { out.new ≡ header head.now len }
    ensures room { HaveRoom (rows head.now) }
    ensures block { ReadsBlock head.now }
{
    *out = [0; 48];
    head.write_ones(out);
    put_number(out, 0, 0x3f, head.opcode());
    put_u8(out, 4, 0);
    put_u24(out, 5, len);
    head.write_fields(out);
}
