//! What is said of two streams.

/// What is said of two streams that are read in step.
#[derive(Clone, Copy, Debug, PartialEq, Eq)]
pub enum Verdict {
    /// Both are in the profile, and have the same meaning.
    Same,
    /// The PDUs at these places are the first that differ in meaning, or one stream ends there. A
    /// place is the number of stream bytes before it.
    Differ {
        /// The place in the first stream.
        place: u64,
        /// The place in the second stream.
        other_place: u64,
    },
}
