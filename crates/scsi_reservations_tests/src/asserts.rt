//! What tests assert. Where it isn't so, the row is told.

use std::fmt::Debug;
use std::process::Abort;

/// Asserts that a value is the one that is due, in a row of which this tells.
pub fn same<T: PartialEq + Debug>(rt: &impl Abort, value: &T, due: &T, row: &impl Debug) {
    assert!(rt; *value == *due, "{row:?}: {value:?} is not {due:?}");
}

/// Asserts that bytes are those that are due.
pub fn same_bytes(rt: &impl Abort, value: &[u8], due: &[u8], row: &impl Debug) {
    same(rt, &value, &due, row);
}
