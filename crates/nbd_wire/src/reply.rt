//! Simple replies ("Simple reply message").

ghost use Rattle.std.specs.Prelude.{◌≡◌};
ghost use Rattle.nbd_wire.specs.Transmission.{reply_bytes, simple_reply_at};

use crate::numbers::{u32_in, u64_in};
use thiserror::Error;

/// A simple reply, without the bytes that follow that of a read.
#[derive(Clone, Copy, Debug, PartialEq, Eq)]
pub struct SimpleReply {
    /// 0 if the server did what was asked, else why it did not ("Error values").
    pub error: u32,
    /// That of the request.
    pub cookie: u64,
}

/// The first four bytes of a message that is no simple reply.
#[derive(Clone, Copy, Debug, PartialEq, Eq, Error)]
#[error("no simple reply")]
pub struct ReplyMagic {
    /// These bytes as a number.
    pub magic: u32,
}

const MAGIC: u32 = 0x6744_6698;

/// Reads a simple reply.
#[tactic(auto, unfolding(crate::specs::Transmission::simple_reply_at))]
pub fn read_simple_reply(bytes: &[u8; 16]) -> Result<SimpleReply, ReplyMagic>
    ensures { result ≡ simple_reply_at bytes.now }
{
    let magic = u32_in(bytes, 0);
    if magic != MAGIC {
        return Err(ReplyMagic { magic });
    }
    Ok(SimpleReply {
        error: u32_in(bytes, 4),
        cookie: u64_in(bytes, 8),
    })
}

/// The 16 bytes of a simple reply.
#[tactic(auto, unfolding(crate::specs::Transmission::reply_bytes))]
pub fn reply_bytes(reply: &SimpleReply) -> [u8; 16]
    ensures { result ≡ reply_bytes reply.now }
{
    let [e0, e1, e2, e3] = reply.error.to_be_bytes();
    let [c0, c1, c2, c3, c4, c5, c6, c7] = reply.cookie.to_be_bytes();
    [
        0x67, 0x44, 0x66, 0x98, e0, e1, e2, e3, c0, c1, c2, c3, c4, c5, c6, c7,
    ]
}
