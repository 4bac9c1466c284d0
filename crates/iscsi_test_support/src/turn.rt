//! Turns of a dialogue.

use crate::line::{LineFault, append_pdu, segment_of};
use std::alloc::Global;

/// What stands before an answer of a dialogue.
///
/// A line with `!` is a call. One with `I>` is a PDU that the initiator sends, one with `T>` a PDU
/// that the target sends. One with `:` has bytes of an outcome, which go behind what the initiator
/// sends. One with `#` says how many blocks are written then.
#[derive(Debug, Drop)]
pub struct Turn {
    /// The call, or nothing.
    pub call: String,
    /// What the initiator sends, and the bytes of an outcome.
    pub initiator: Vec<u8>,
    /// What the target sends.
    pub target: Vec<u8>,
    /// How many blocks are written, where it is said.
    pub written: Option<u16>,
}

impl Turn {
    /// A turn of no line.
    pub fn new(alloc: Global) -> Turn {
        Turn {
            call: String::new(alloc),
            initiator: Vec::new(alloc),
            target: Vec::new(alloc),
            written: None,
        }
    }

    /// Takes a line by its mark.
    pub fn take(&mut self, mark: &str, rest: &str) -> Result<(), LineFault> {
        match mark {
            "!" => self.call.push_str(rest)?,
            "I>" => append_pdu(rest, &mut self.initiator)?,
            "T>" => append_pdu(rest, &mut self.target)?,
            ":" => {
                let bytes = segment_of(*self.initiator.allocator(), rest)?;
                self.initiator.extend_from_slice(&bytes)?;
            }
            "#" => self.written = Some(rest.parse::<u16>()?),
            _ => return Err(LineFault::NoSuchLine),
        }
        Ok(())
    }

    /// Whether it took no line: it has no call, no bytes, and no number of blocks.
    pub fn is_empty(&self) -> bool {
        self.call.is_empty()
            && self.initiator.is_empty()
            && self.target.is_empty()
            && self.written.is_none()
    }
}
