//! Requests ("Request message").

ghost use Rattle.std.specs.Prelude.{◌≡◌};
ghost use Rattle.nbd_wire.specs.Transmission.{command_code, is_command, nbd_command, request_at, request_bytes};

use crate::numbers::{u16_in, u32_in, u64_in};
use thiserror::Error;

/// What a request asks for.
#[derive(Clone, Copy, Debug, PartialEq, Eq)]
pub enum Command {
    /// Bytes of the export (NBD_CMD_READ).
    Read,
    /// That bytes of it change (NBD_CMD_WRITE).
    Write,
    /// That all writes that were answered last (NBD_CMD_FLUSH).
    Flush,
    /// That bytes of it become 00, which takes no room if the server can do that (NBD_CMD_WRITE_ZEROES).
    WriteZeroes,
}

impl Command {
    /// The number of the command.
    pub fn code(self) -> u16
        ensures { result ≡ command_code self }
    {
        match self {
            Command::Read => 0,
            Command::Write => 1,
            Command::Flush => 3,
            Command::WriteZeroes => 6,
        }
    }
}

/// A request without flags, and without the bytes that follow that of a write.
#[derive(Clone, Copy, Debug, PartialEq, Eq)]
pub struct Request {
    /// What it asks for.
    pub command: Command,
    /// A number that its reply has again.
    pub cookie: u64,
    /// The first byte of the export that it is about; 0 for a flush.
    pub offset: u64,
    /// How many bytes it is about; 0 for a flush.
    pub length: u32,
}

/// The request that ends a connection, and has no answer: its command is 2 (NBD_CMD_DISC), and all else
/// behind the magic is 00.
pub const DISCONNECT: [u8; 28] = [
    0x25, 0x60, 0x95, 0x13, 0, 0, 0, 2, 0, 0, 0, 0, 0, 0, 0, 0, 0, 0, 0, 0, 0, 0, 0, 0, 0, 0, 0, 0,
];

/// The 28 bytes of a request.
#[tactic(auto, unfolding(crate::specs::Transmission::request_bytes))]
pub fn request_bytes(request: &Request) -> [u8; 28]
    ensures { result ≡ request_bytes request.now }
{
    let [a0, a1] = request.command.code().to_be_bytes();
    let [c0, c1, c2, c3, c4, c5, c6, c7] = request.cookie.to_be_bytes();
    let [o0, o1, o2, o3, o4, o5, o6, o7] = request.offset.to_be_bytes();
    let [n0, n1, n2, n3] = request.length.to_be_bytes();
    [
        0x25, 0x60, 0x95, 0x13, 0, 0, a0, a1, c0, c1, c2, c3, c4, c5, c6, c7, o0, o1, o2, o3, o4,
        o5, o6, o7, n0, n1, n2, n3,
    ]
}

/// Why bytes are none of these requests. Faults are found in this order.
#[derive(Clone, Copy, Debug, PartialEq, Eq, Error)]
pub enum RequestFault {
    /// They begin with another number.
    #[error("no request")]
    Magic(u32),
    /// They have a flag.
    #[error("flags {0}")]
    Flags(u16),
    /// They are of another command.
    #[error("command {0}")]
    Command(u16),
}

const MAGIC: u32 = 0x2560_9513;

/// Reads a request.
#[tactic(auto, unfolding(crate::specs::Transmission::request_at))]
pub fn read_request(bytes: &[u8; 28]) -> Result<Request, RequestFault>
    ensures { result ≡ request_at bytes.now }
{
    let magic = u32_in(bytes, 0);
    if magic != MAGIC {
        return Err(RequestFault::Magic(magic));
    }
    let flags = u16_in(bytes, 4);
    if flags != 0 {
        return Err(RequestFault::Flags(flags));
    }
    let code = u16_in(bytes, 6);
    if !is_command(code) {
        return Err(RequestFault::Command(code));
    }
    Ok(Request {
        command: command_of(code),
        cookie: u64_in(bytes, 8),
        offset: u64_in(bytes, 16),
        length: u32_in(bytes, 24),
    })
}

// Whether a number is that of a command.
#[tactic(auto, unfolding(crate::specs::Transmission::is_command))]
fn is_command(code: u16) -> bool
    ensures { result ≡ is_command code }
{
    code == 0 || code == 1 || code == 3 || code == 6
}

// The command of such a number.
#[tactic(auto, unfolding(crate::specs::Transmission::nbd_command))]
fn command_of(code: u16) -> Command
    ensures { result ≡ nbd_command code }
{
    match code {
        0 => Command::Read,
        1 => Command::Write,
        3 => Command::Flush,
        _ => Command::WriteZeroes,
    }
}
