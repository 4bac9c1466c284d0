//! A whole PDU: its head and the data of its segment, and its padding.

ghost use Rattle.std.specs.Prelude.{◌≡◌};
ghost use Rattle.iscsi_pdu.specs.Meaning.{padding};

use crate::Head;

/// A whole PDU, without the padding of its data segment (RFC 7143, section 11.1).
#[derive(Clone, Copy, Debug)]
pub struct Pdu<'a> {
    /// What the header means, but for the length of the data segment, which is that of `bytes`.
    pub head: Head,
    /// The bytes of the data segment, without padding.
    pub bytes: &'a [u8],
}

/// How many bytes of padding follow a data segment of `len` bytes: 0 to 3, up to a multiple of 4
/// (RFC 7143, section 11.1).
pub fn pad(len: u32) -> u32
    ensures { result ≡ padding len }
{
    (4 - len % 4) % 4
}
