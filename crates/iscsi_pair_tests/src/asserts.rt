//! What tests assert. Where it isn't so, the row is told.

use std::fmt::Debug;
use std::process::Abort;

/// Asserts that a value is the one that is due, in a row of which this tells.
pub fn same<T: PartialEq + Debug>(rt: &impl Abort, value: &T, due: &T, row: &impl Debug) {
    assert!(rt; *value == *due, "{row:?}: {value:?} is not {due:?}");
}
