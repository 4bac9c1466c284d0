//! What is told of a capture beside its PDUs.

ghost use Rattle.std.specs.Prelude.{◌≡◌, ◌++◌, OnOk, OnErr, ℕ, List};
ghost use Rattle.iscsi_explain.specs.Forms.{IsRemarkEntry};

use crate::form::Form;
use crate::objects::remark_object;
use crate::stamp::Origin;
use std::alloc::{AllocError, Global};

/// What is told of a capture where PDUs are missing, or their places assumed.
#[derive(Clone, Copy)]
pub struct Remark {
    /// What it is, in one word.
    pub kind: &'static str,
    /// The number of the connection, from 0.
    pub connection: Option<u64>,
    /// Which end's direction it is about.
    pub origin: Option<Origin>,
    /// The offset of a byte in that direction.
    pub place: Option<u64>,
    /// The number of a packet, from 1.
    pub packet: Option<u64>,
}

/// Appends what a form has in the place of a remark: an object with its text, or nothing in the forms
/// of lines. Returns `AllocError` if memory runs out, and leaves `out` as it was.
pub fn write_remark(
    alloc: Global,
    form: Form,
    remark: &Remark,
    text: &str,
    out: &mut Vec<u8>,
) -> Result<(), AllocError>
    ensures ok { OnOk result ((entry : List ℕ) × IsRemarkEntry form entry
        × (out.new.items ≡ out.old.items ++ entry)) }
    ensures err { OnErr result (out.new.items ≡ out.old.items) }
{
    match form {
        Form::Line | Form::Explained => out.extend_from_slice(&[]),
        Form::Json | Form::ExplainedJson => {
            let mut line = remark_object(alloc, remark, text)?;
            line.push(b'\n')?;
            out.extend_from_slice(&line)
        }
    }
}
