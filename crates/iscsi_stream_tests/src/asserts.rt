//! What tests assert. Where it isn't so, the row is told.

use std::alloc::Global;
use std::fmt::{Debug, Display};
use std::process::Abort;

/// Asserts that a value is the one that is due, in a row of which this tells.
pub fn same<T: PartialEq + Debug>(rt: &impl Abort, value: &T, due: &T, row: &impl Debug) {
    assert!(rt; *value == *due, "{row:?}: {value:?} is not {due:?}");
}

/// Asserts that bytes are those that are due.
pub fn same_bytes(rt: &impl Abort, value: &[u8], due: &[u8], row: &impl Debug) {
    same(rt, &value, &due, row);
}

/// Asserts that a value has this text.
pub fn same_text(
    rt: &impl Abort,
    alloc: Global,
    value: &impl Display,
    due: &str,
    row: &impl Debug,
) {
    let text = format!(in alloc; "{value}").expect(rt, "text");
    same(rt, &text.as_str(), &due, row);
}

/// Asserts that a value has this text in Rust's debugging form.
pub fn same_debug(rt: &impl Abort, alloc: Global, value: &impl Debug, due: &str, row: &impl Debug) {
    let text = format!(in alloc; "{value:?}").expect(rt, "text");
    same(rt, &text.as_str(), &due, row);
}
