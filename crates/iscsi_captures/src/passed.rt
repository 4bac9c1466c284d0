//! Packets that are passed over, since no segment of them is read.

ghost use Rattle.std.specs.Prelude.{ℕ, List, Option, IfSome};
ghost use Rattle.iscsi_captures.specs.Giving.{IsFileFault};

use crate::fault::CapturesFault;

/// The packets that were passed over so far: fragments of IP packets with TCP, packets of links that
/// are not read, and packets whose headers were not captured.
#[derive(Clone, Copy)]
pub(crate) struct PassedOver {
    first: Option<CapturesFault>,
}

impl PassedOver {
    /// None was.
    pub(crate) fn new() -> PassedOver {
        PassedOver { first: None }
    }

    /// One more was, for this reason.
    pub(crate) fn note(&mut self, reason: CapturesFault) {
        self.first = self.first.or(Some(reason));
    }

    /// Why the first one was, if any was.
    pub(crate) fn first(&self) -> Option<CapturesFault>
        ensures { IfSome result (λ reason. (left : Option (List ℕ)) → IsFileFault left reason) }
    {
        match self.first {
            Some(CapturesFault::Link { link, at, packet }) => {
                Some(CapturesFault::Link { link, at, packet })
            }
            Some(CapturesFault::Fragment { at, packet }) => {
                Some(CapturesFault::Fragment { at, packet })
            }
            Some(CapturesFault::Cut { at, packet }) => Some(CapturesFault::Cut { at, packet }),
            _ => None,
        }
    }
}
