//! Numbers in a message, whose highest byte comes first.

ghost use Rattle.std.specs.Prelude.{◌≡◌, ◌≤◌, ◌+◌, length};
ghost use Rattle.nbd_wire.specs.Numbers.{u16_of, u32_of, u64_of};

/// The number in the two bytes from an offset on.
pub(crate) fn u16_in(bytes: &[u8], at: usize) -> u16
    requires { at + 2 ≤ length bytes.now }
    ensures { result ≡ u16_of at bytes.now }
{
    let from = &bytes[at..];
    u16::from_be_bytes([from[0], from[1]])
}

/// The number in the four bytes from an offset on.
pub(crate) fn u32_in(bytes: &[u8], at: usize) -> u32
    requires { at + 4 ≤ length bytes.now }
    ensures { result ≡ u32_of at bytes.now }
{
    let from = &bytes[at..];
    u32::from_be_bytes([from[0], from[1], from[2], from[3]])
}

/// The number in the eight bytes from an offset on.
pub(crate) fn u64_in(bytes: &[u8], at: usize) -> u64
    requires { at + 8 ≤ length bytes.now }
    ensures { result ≡ u64_of at bytes.now }
{
    let from = &bytes[at..];
    u64::from_be_bytes([
        from[0], from[1], from[2], from[3], from[4], from[5], from[6], from[7],
    ])
}
