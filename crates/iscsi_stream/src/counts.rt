//! How much a run moved.

ghost use Rattle.std.specs.Prelude.{◌≡◌};

/// What a run read and wrote.
#[derive(Clone, Copy, Debug, PartialEq, Eq)]
pub struct Counts {
    /// The whole PDUs.
    pub pdus: u64,
    /// The bytes that were read.
    pub bytes_in: u64,
    /// The bytes that were written.
    pub bytes_out: u64,
}

impl Counts {
    /// Nothing moved yet.
    pub(crate) fn new() -> Counts
        ensures { result ≡ record { pdus = 0; bytes_in = 0; bytes_out = 0 } }
    {
        Counts {
            pdus: 0,
            bytes_in: 0,
            bytes_out: 0,
        }
    }
}
