//! Why a stream is refused, and why a program that reads one stops.

ghost use Rattle.std.specs.Prelude.{◌≡◌};
ghost use Rattle.iscsi_stream.specs.declared.fault.StreamFault.TheVariants.{NoMemory};

use iscsi_pdu::HeadFault;
use iscsi_text::TextFault;
use std::alloc::AllocError;
use thiserror::Error;

/// Why a framer refuses its stream. A place is the number of stream bytes before the first byte of
/// the PDU, up to 2^64 - 1, where it stays.
#[derive(Clone, Copy, Debug, PartialEq, Eq, Error)]
pub enum StreamFault {
    /// There is no memory for the segment of the PDU whose header is whole.
    #[error("memory")]
    NoMemory,
    /// The header at this place is refused.
    #[error("stream: {0} at {1}")]
    Head(HeadFault, u64),
    /// The segment of the PDU at this place is longer than the framer's limit.
    #[error("stream: over limit at {0}")]
    OverLimit(u64),
    /// The stream ends within the PDU at this place.
    #[error("stream: truncated at {0}")]
    Truncated(u64),
    /// A fault was returned before.
    #[error("stream: failed before")]
    Failed,
}

impl From<AllocError> for StreamFault {
    ghost from_gives = { λ _ e. e ≡ NoMemory };

    fn from(_e: AllocError) -> StreamFault {
        StreamFault::NoMemory
    }
}

/// A read failed, or there were 16,777,216 of them.
#[derive(Clone, Copy, Debug, PartialEq, Eq, Error)]
#[error("read failed")]
pub struct ReadFault;

/// Why a run over a stream stops.
#[derive(Clone, Copy, Debug, PartialEq, Eq, Error)]
pub enum ToolFault {
    /// Memory ran out.
    #[error("memory")]
    NoMemory,
    /// The stream is refused; the fault is never `NoMemory`.
    #[error(transparent)]
    Stream(StreamFault),
    /// The text is refused; the fault is never `NoMemory`.
    #[error("text: {0}")]
    Text(TextFault),
    /// The text is over its limit.
    #[error("text: over 16384 bytes")]
    TextTooLong,
    /// A read failed, or there were 16,777,216 of them.
    #[error("read failed")]
    Read,
    /// A write failed, or took no byte.
    #[error("write failed")]
    Write,
    /// The input is not hex text, or is over its limit. No function of this crate returns it.
    #[error("input: not hex")]
    NotHex,
    /// The initiator broke the rule of this number (own rule: `docs/FORMATS.md` has the rules). No
    /// function of this crate returns it.
    #[error("protocol: rule {0}")]
    Protocol(u8),
}

impl From<AllocError> for ToolFault {
    ghost use Rattle.std.specs.Prelude.{◌≡◌};
    ghost use Rattle.iscsi_stream.specs.declared.fault.ToolFault.TheVariants as tool;

    ghost from_gives = { λ _ e. e ≡ tool.NoMemory };

    fn from(_e: AllocError) -> ToolFault {
        ToolFault::NoMemory
    }
}

impl From<StreamFault> for ToolFault {
    ghost use Rattle.std.specs.Prelude.{◌≡◌};
    ghost use Rattle.iscsi_stream.specs.Faults.{tool_fault};

    ghost from_gives = { λ fault e. e ≡ tool_fault fault };

    fn from(fault: StreamFault) -> ToolFault {
        match fault {
            StreamFault::NoMemory => ToolFault::NoMemory,
            _ => ToolFault::Stream(fault),
        }
    }
}

impl From<ReadFault> for ToolFault {
    ghost use Rattle.std.specs.Prelude.{◌≡◌};
    ghost use Rattle.iscsi_stream.specs.declared.fault.ToolFault.TheVariants as tool;

    ghost from_gives = { λ _ e. e ≡ tool.Read };

    fn from(_fault: ReadFault) -> ToolFault {
        ToolFault::Read
    }
}
