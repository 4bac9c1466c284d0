//! Two captures to compare.

ghost use Rattle.std.specs.Prelude.{◌≡◌};
ghost use Rattle.iscsi_captures.specs.Faults.{captures_exit_status};

use iscsi_captures::{CapturesFault, Wanted};
use iscsi_compare::Which;
use iscsi_comparison::Sameness;

/// The name of a capture that comes from the standard input of the process.
pub const STDIN: &str = "-";

/// Two captures to compare. At most one of them comes from the standard input of the process.
#[derive(Clone, Copy, Debug)]
pub struct CaptureComparison<'a> {
    /// The file of the first capture; `-` is the standard input of the process.
    pub first: &'a str,
    /// The file of the second capture; none and `-` are the standard input of the process.
    pub second: Option<&'a str>,
    /// What makes the two directions the same.
    pub sameness: Sameness,
    /// The direction of the first capture.
    pub wanted: Wanted,
    /// The direction of the second one.
    pub other: Wanted,
}

/// Why a comparison of two captures stops: a fault, and of which capture it is; none for memory and
/// a write that failed.
#[derive(Clone, Copy, Debug)]
pub struct CaptureComparisonFault {
    /// The capture.
    pub which: Option<Which>,
    /// The fault.
    pub fault: CapturesFault,
}

impl CaptureComparisonFault {
    /// The exit status that says the fault.
    pub fn status(&self) -> u8
        ensures { result ≡ captures_exit_status self.now.fault }
    {
        self.fault.status()
    }
}

impl CaptureComparison<'_> {
    /// The name of the input in the line of a fault; none if the fault is of no input.
    pub fn blamed(&self, fault: CaptureComparisonFault) -> Option<&str> {
        match fault.which {
            Some(Which::First) => Some(named(self.first)),
            Some(Which::Second) => Some(named(self.second.unwrap_or(STDIN))),
            None => None,
        }
    }
}

/// The name of a capture in the line of a fault.
pub fn named(file: &str) -> &str {
    if file == STDIN {
        "standard input"
    } else {
        file
    }
}
