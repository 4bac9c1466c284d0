//! What another program does with `iscsi_explain`.

use iscsi_explain::{Form, show_in_form};
use iscsi_stream::ToolFault;
use std::alloc::Global;
use std::io::{Read, Write};

/// Writes the line of each PDU of a stream, with what it says in words under it.
pub fn explain_stream<R: Read, W: Write>(
    alloc: Global,
    stream: &mut R,
    output: &mut W,
) -> Result<(), ToolFault> {
    show_in_form(alloc, Form::Explained, stream, output)
}
