//! Why a text is no job.

ghost use Rattle.std.specs.Prelude.{◌≡◌};
ghost use Rattle.iscsi_job_text.specs.declared.fault.LineFault.TheVariants as line;
ghost use Rattle.iscsi_job_text.specs.declared.fault.TextFault.TheVariants as text;
ghost use Rattle.iscsi_job_text.specs.declared.fault.WriteFault.TheVariants as writing;

use std::alloc::{AllocError, AllocFailed};
use std::fmt::{self, Debug, Display, Formatter, Write};
use thiserror::Error;

/// Why a line of a job is refused (own rules).
#[derive(Clone, Copy, PartialEq, Eq)]
pub enum LineReason {
    /// Its first word is that of no request.
    Request,
    /// The logical unit is neither a number below 256 nor 16 hex digits.
    Unit,
    /// The descriptor block is not 1 to 16 bytes of hex.
    Block,
    /// A command says neither `none`, `in` nor `out`.
    Direction,
    /// A number is missing, is no decimal number or is too large.
    Number,
    /// Bytes are missing, or are no hex digits in pairs.
    Hex,
    /// An outcome stands under no request, is the second one there, or is that of another kind of
    /// request.
    Stray,
    /// An outcome is none that is known.
    Outcome,
    /// More words stand there than the line takes.
    Words,
    /// The line is not UTF-8.
    Utf8,
    /// The first line names a form that is not read.
    Form,
}

impl Display for LineReason {
    fn fmt<W: Write>(&self, f: &mut Formatter<W>) -> fmt::Result {
        let text = match self {
            LineReason::Request => "no request",
            LineReason::Unit => "no logical unit",
            LineReason::Block => "no descriptor block",
            LineReason::Direction => "no direction",
            LineReason::Number => "no number",
            LineReason::Hex => "no hex",
            LineReason::Stray => "outcome of no request",
            LineReason::Outcome => "no outcome",
            LineReason::Words => "too many words",
            LineReason::Utf8 => "not UTF-8",
            LineReason::Form => "unknown form",
        };
        f.write_str(text)
    }
}

/// Why a text is no job.
#[derive(Clone, Copy, Error)]
pub enum TextFault {
    /// Memory ran out.
    #[error("memory")]
    NoMemory,
    /// A read failed.
    #[error("read failed")]
    Read,
    /// The line with this number, from 1, has more than 1,073,741,824 bytes.
    #[error("line {0}: over 1073741824 bytes")]
    TooLong(u64),
    /// A line is refused.
    #[error("line {line}: {reason}")]
    Line {
        /// Its number, from 1.
        line: u64,
        /// Why.
        reason: LineReason,
    },
}

impl Debug for TextFault {
    fn fmt<W: Write>(&self, f: &mut Formatter<W>) -> fmt::Result {
        write!(f, "TextFault({self})")
    }
}

impl From<AllocError> for TextFault {
    ghost from_gives = { λ _ fault. fault ≡ text.NoMemory };

    fn from(_error: AllocError) -> TextFault {
        TextFault::NoMemory
    }
}

/// Why a request is not written.
#[derive(Clone, Copy, Error)]
pub enum WriteFault {
    /// Memory ran out.
    #[error("memory")]
    NoMemory,
    /// No text has it.
    #[error("no text has the request")]
    Unsaid,
}

impl Debug for WriteFault {
    fn fmt<W: Write>(&self, f: &mut Formatter<W>) -> fmt::Result {
        write!(f, "WriteFault({self})")
    }
}

impl From<AllocError> for WriteFault {
    ghost from_gives = { λ _ fault. fault ≡ writing.NoMemory };

    fn from(_error: AllocError) -> WriteFault {
        WriteFault::NoMemory
    }
}

/// Why a line is not taken.
#[derive(Clone, Copy)]
pub(crate) enum LineFault {
    /// Memory ran out.
    NoMemory,
    /// It is refused.
    Refused(LineReason),
}

impl LineFault {
    /// The fault of a text in which the line with this number has this fault.
    pub(crate) fn at(self, line: u64) -> TextFault {
        match self {
            LineFault::NoMemory => TextFault::NoMemory,
            LineFault::Refused(reason) => TextFault::Line { line, reason },
        }
    }
}

impl From<LineReason> for LineFault {
    ghost from_gives = { λ reason fault. fault ≡ line.Refused reason };

    fn from(reason: LineReason) -> LineFault {
        LineFault::Refused(reason)
    }
}

impl From<AllocError> for LineFault {
    ghost from_gives = { λ _ fault. fault ≡ line.NoMemory };

    fn from(_error: AllocError) -> LineFault {
        LineFault::NoMemory
    }
}

impl<T: Drop> From<AllocFailed<T>> for LineFault {
    ghost from_gives = { λ _ fault. fault ≡ line.NoMemory };

    fn from(_error: AllocFailed<T>) -> LineFault {
        LineFault::NoMemory
    }
}
