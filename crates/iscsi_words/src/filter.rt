//! What a filter does.

/// What a filter does with a stream.
#[derive(Clone, Copy, Debug)]
pub enum Work {
    /// Writes a line for each PDU.
    Show,
    /// Writes the canonical stream.
    Normalise,
    /// Writes the canonical text of one text.
    Text,
    /// Writes the answers of a target whose disk has `n` blocks of 512 bytes, 1 to 2^40.
    Answer(u64),
}

/// A filter, and whether its input is hex text and its bytes are written as a line of hex.
#[derive(Clone, Copy, Debug)]
pub struct Filter {
    /// What it does.
    pub work: Work,
    /// Whether streams are hex text; the lines of `Show` are text in any case.
    pub hex: bool,
}
