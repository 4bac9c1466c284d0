//! What a recording holds. It stands apart, since its ghost field may name no definition of recordings.

ghost use Rattle.std.specs.Prelude.{◌<◌, ◌+◌, ◌^◌, length};

use crate::recording::Noted;
use iscsi_tasks::Tasks;
use std::alloc::Global;
use std::collections::VecDeque;

/// The requests of a recorded session, in the order of the initiator's stream. Those that have an
/// outcome can be taken out at the front, so that not all are held at once.
#[derive(Drop)]
pub struct Recording {
    pub(crate) alloc: Global,
    // how many requests were taken out
    pub(crate) given: usize,
    pub(crate) noted: VecDeque<Noted>,
    pub(crate) tasks: Tasks,
    ghost within: { given + length noted.items < 2 ^ 64 },
}
