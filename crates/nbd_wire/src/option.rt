//! The option GO, and the head of what is answered to an option ("Option haggling").

ghost use Rattle.std.specs.Prelude.{◌≡◌, ◌≤◌, ◌++◌, length, OnOk, OnErr};
ghost use Rattle.nbd_wire.specs.Handshake.{block_size_asked, go_bytes, go_head, option_head_at};

use crate::numbers::{u32_in, u64_in};
use std::alloc::AllocError;
use thiserror::Error;

/// Appends the option GO for an export of this name, with the question for the sizes of its blocks.
/// Where memory runs out `out` stays as it was.
pub fn write_go(name: &[u8], out: &mut Vec<u8>) -> Result<(), AllocError>
    requires short { length name.now ≤ 4096 }
    ensures ok { OnOk result (out.new.items ≡ out.old.items ++ go_bytes name.now) }
    ensures err { OnErr result (out.new.items ≡ out.old.items) }
{
    out.reserve(name.len() + 24)?;
    out.extend_from_slice(&go_head(name.len() as u32))?;
    out.extend_from_slice(name)?;
    out.extend_from_slice(&block_size_asked())?;
    Ok(())
}

// The bytes before the name of an export.
#[tactic(auto, unfolding(crate::specs::Handshake::go_head))]
fn go_head(length: u32) -> [u8; 20]
    requires { length ≤ 4096 }
    ensures { result ≡ go_head length }
{
    let [a0, a1, a2, a3] = (length + 8).to_be_bytes();
    let [b0, b1, b2, b3] = length.to_be_bytes();
    [
        0x49, 0x48, 0x41, 0x56, 0x45, 0x4f, 0x50, 0x54, 0, 0, 0, 7, a0, a1, a2, a3, b0, b1, b2, b3,
    ]
}

// The bytes behind the name.
#[tactic(auto, unfolding(crate::specs::Handshake::block_size_asked))]
fn block_size_asked() -> [u8; 4]
    ensures { result ≡ block_size_asked }
{
    [0, 1, 0, 3]
}

/// The first 20 bytes of an answer to an option.
#[derive(Clone, Copy, Debug, PartialEq, Eq)]
pub struct OptionHead {
    /// The option that is answered.
    pub option: u32,
    /// What is answered: 1 is ACK, 3 INFO, 2^31 and above an error.
    pub answer: u32,
    /// How many bytes follow.
    pub length: u32,
}

/// The first eight bytes of a message that is no answer to an option.
#[derive(Clone, Copy, Debug, PartialEq, Eq, Error)]
#[error("no answer to an option")]
pub struct OptionMagic {
    /// These bytes as a number.
    pub magic: u64,
}

const OPTION_MAGIC: u64 = 0x0003_e889_0455_65a9;

/// Reads the first 20 bytes of an answer to an option.
#[tactic(auto, unfolding(crate::specs::Handshake::option_head_at))]
pub fn read_option_head(bytes: &[u8; 20]) -> Result<OptionHead, OptionMagic>
    ensures { result ≡ option_head_at bytes.now }
{
    let magic = u64_in(bytes, 0);
    if magic != OPTION_MAGIC {
        return Err(OptionMagic { magic });
    }
    Ok(OptionHead {
        option: u32_in(bytes, 8),
        answer: u32_in(bytes, 12),
        length: u32_in(bytes, 16),
    })
}
