//! Runs over readers and writers of which a call may fail.

use iscsi_stream::{Counts, ToolFault, normalise, show};
use iscsi_test_support::{Sink, Source, Steps};
use std::alloc::Global;

/// How a run ended, what was written, and how many calls failed.
#[derive(Drop)]
pub struct Outcome {
    pub result: Result<Counts, ToolFault>,
    pub sink: Sink,
    pub failures: u64,
}

/// Shows or normalises a stream.
pub fn run_with(
    alloc: Global,
    is_shown: bool,
    stream: &[u8],
    reads: Steps,
    writes: Steps,
) -> Outcome {
    let mut source = Source::new(stream, reads);
    let mut sink = Sink::new(alloc, writes);
    let result = if is_shown {
        show(alloc, &mut source, &mut sink)
    } else {
        normalise(alloc, &mut source, &mut sink)
    };
    Outcome {
        result,
        failures: source.failures.saturating_add(sink.failures),
        sink,
    }
}
