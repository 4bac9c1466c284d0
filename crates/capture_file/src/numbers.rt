//! Numbers in the order of their bytes.

ghost use Rattle.std.specs.Prelude.{◌≡◌, ◌+◌, ◌≤◌, length};
ghost use Rattle.capture_file.specs.Numbers.{ordered_number};

use byteorder::{BigEndian, ByteOrder, LittleEndian};

/// Which byte of a number comes first.
#[derive(Clone, Copy, Drop)]
pub enum Order {
    /// The lowest, which some call little-endian.
    Little,
    /// The highest, as on the network.
    Big,
}

/// The number in the two bytes from `at`.
pub(crate) fn u16_at(order: Order, bytes: &[u8], at: usize) -> u16
    requires { at + 2 ≤ length bytes.now }
    ensures { result ≡ ordered_number order 2 at bytes.now }
{
    match order {
        Order::Little => LittleEndian::read_u16(&bytes[at..]),
        Order::Big => BigEndian::read_u16(&bytes[at..]),
    }
}

/// The number in the four bytes from `at`.
pub(crate) fn u32_at(order: Order, bytes: &[u8], at: usize) -> u32
    requires { at + 4 ≤ length bytes.now }
    ensures { result ≡ ordered_number order 4 at bytes.now }
{
    match order {
        Order::Little => LittleEndian::read_u32(&bytes[at..]),
        Order::Big => BigEndian::read_u32(&bytes[at..]),
    }
}
