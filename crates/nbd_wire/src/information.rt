//! What a server says of an export ("Information types").

ghost use Rattle.std.specs.Prelude.{◌≡◌};
ghost use Rattle.nbd_wire.specs.Handshake.{info_at};

use crate::numbers::{u16_in, u32_in, u64_in};
use thiserror::Error;

/// The size of an export, and what it can do.
#[derive(Clone, Copy, Debug, PartialEq, Eq)]
pub struct Export {
    /// Its size in bytes.
    pub size: u64,
    /// Its transmission flags: bit 0 says that the others mean something, bit 1 that it may be read
    /// alone, bit 2 that it has FLUSH, bit 6 that it has WRITE_ZEROES ("Transmission flags").
    pub flags: u16,
}

/// How many bytes the requests about an export may have.
#[derive(Clone, Copy, Debug, PartialEq, Eq)]
pub struct BlockSizes {
    /// The least; offsets and lengths are multiples of it.
    pub minimum: u32,
    /// The length that is fast.
    pub preferred: u32,
    /// The greatest.
    pub maximum: u32,
}

/// What an answer INFO says.
#[derive(Clone, Copy, Debug, PartialEq, Eq)]
pub enum Info {
    /// Size and flags (NBD_INFO_EXPORT).
    Export(Export),
    /// The lengths of requests (NBD_INFO_BLOCK_SIZE).
    BlockSizes(BlockSizes),
    /// Something of another kind, which a client may pass over.
    Other(u16),
}

/// Why the bytes of an answer INFO say nothing.
#[derive(Clone, Copy, Debug, PartialEq, Eq, Error)]
pub enum InfoFault {
    /// They are fewer than two.
    #[error("information without its kind")]
    NoKind,
    /// Their number is not that of their kind.
    #[error("information {kind} of {length} bytes")]
    Length { kind: u16, length: usize },
}

/// Reads the bytes of an answer INFO.
#[tactic(auto, unfolding(crate::specs::Handshake::info_at))]
pub fn read_info(bytes: &[u8]) -> Result<Info, InfoFault>
    ensures { result ≡ info_at bytes.now }
{
    let length = bytes.len();
    if length < 2 {
        return Err(InfoFault::NoKind);
    }
    let kind = u16_in(bytes, 0);
    if kind == 0 {
        if length != 12 {
            return Err(InfoFault::Length { kind, length });
        }
        return Ok(Info::Export(Export {
            size: u64_in(bytes, 2),
            flags: u16_in(bytes, 10),
        }));
    }
    if kind == 3 {
        if length != 14 {
            return Err(InfoFault::Length { kind, length });
        }
        return Ok(Info::BlockSizes(BlockSizes {
            minimum: u32_in(bytes, 2),
            preferred: u32_in(bytes, 6),
            maximum: u32_in(bytes, 10),
        }));
    }
    Ok(Info::Other(kind))
}
