//! Texts and numerals by example.

use std::fmt::Debug;
use std::process::Abort;

mod numeral;
mod text;

/// Asserts that a value is the one that is due, in a row of which this tells.
fn same<T: PartialEq + Debug>(rt: &impl Abort, value: &T, due: &T, row: &impl Debug) {
    assert!(rt; *value == *due, "{row:?}: {value:?} is not {due:?}");
}
