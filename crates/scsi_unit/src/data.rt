//! Data that a unit tells, which have 664 bytes at most.

ghost use Rattle.std.specs.Prelude.{◌≡◌, ◌+◌, ◌≤◌, ◌++◌, length, take};

use arrayvec::ArrayVec;

/// The most bytes that a command gives: REPORT SUPPORTED OPERATION CODES, of 33 commands with timeouts.
pub(crate) const LONGEST_DATA: usize = 664;

/// The data of a command.
pub(crate) type Data = ArrayVec<u8, LONGEST_DATA>;

/// These bytes as data.
pub(crate) fn data(bytes: &[u8]) -> Data
    requires { length bytes.now ≤ 664 }
    ensures { result.items ≡ bytes.now }
{
    let mut data = ArrayVec::new();
    let _ = data.try_extend_from_slice(bytes);
    data
}

/// Two parts as data, one behind the other.
pub(crate) fn joined(first: &[u8], second: &[u8]) -> Data
    requires { length first.now + length second.now ≤ 664 }
    ensures { result.items ≡ first.now ++ second.now }
{
    let mut joined = data(first);
    let _ = joined.try_extend_from_slice(second);
    joined
}

/// At most `n` bytes of the data.
pub(crate) fn cut(whole: &Data, most: usize) -> Data
    ensures { result.items ≡ take most whole.now.items }
{
    let bytes = whole.as_slice();
    data(&bytes[..most.min(bytes.len())])
}
