//! What a server says first ("Fixed newstyle negotiation").

ghost use Rattle.std.specs.Prelude.{◌≡◌};
ghost use Rattle.nbd_wire.specs.Handshake.{greeting_at};

use crate::numbers::u64_in;
use thiserror::Error;

/// What a server of the fixed newstyle handshake says first.
#[derive(Clone, Copy, Debug, PartialEq, Eq)]
pub struct Greeting {
    /// It may leave out the 124 zeros behind an answer to EXPORT_NAME, which a client of GO does not
    /// ask.
    pub no_zeroes: bool,
}

/// Why GO cannot be asked of a server. Faults are found in this order.
#[derive(Clone, Copy, Debug, PartialEq, Eq, Error)]
pub enum GreetingFault {
    /// The greeting does not begin with NBDMAGIC.
    #[error("is no NBD server")]
    NoMagic,
    /// The server has the oldstyle handshake.
    #[error("has the oldstyle handshake")]
    OldStyle,
    /// The server has neither handshake, or the newstyle one that is not fixed.
    #[error("has no fixed newstyle handshake")]
    NotFixed,
}

const NBD_MAGIC: u64 = 0x4e42_444d_4147_4943;

const OLD_STYLE: u64 = 0x0000_4202_8186_1253;

const HAVE_OPTIONS: u64 = 0x4948_4156_454f_5054;

/// Reads what a server says first.
#[tactic(auto, unfolding(crate::specs::Handshake::greeting_at))]
pub fn read_greeting(bytes: &[u8; 18]) -> Result<Greeting, GreetingFault>
    ensures { result ≡ greeting_at bytes.now }
{
    let style = u64_in(bytes, 8);
    let flags = bytes[17];
    if u64_in(bytes, 0) != NBD_MAGIC {
        return Err(GreetingFault::NoMagic);
    }
    if style == OLD_STYLE {
        return Err(GreetingFault::OldStyle);
    }
    if style != HAVE_OPTIONS || flags & 1 == 0 {
        return Err(GreetingFault::NotFixed);
    }
    Ok(Greeting {
        no_zeroes: flags & 2 != 0,
    })
}
