//! What was found of an order when it was planned.

use crate::reading::BlockRange;
use arrayvec::ArrayVec;
use scsi_cdb::Sense;

/// What was found of an order on a disk: its plan is read off it, and the order is executed from it.
#[derive(Drop)]
pub struct Found {
    /// How many blocks the disk has.
    pub blocks: u64,
    /// What the order comes to there.
    pub work: Work,
}

/// What an order comes to.
#[derive(Drop)]
pub enum Work {
    /// It is refused for this reason.
    Refuse(Sense),
    /// It writes these blocks.
    Write(BlockRange),
    /// It reads these blocks.
    Read(BlockRange),
    /// It gives these data, or none, and needs no block.
    Tell(ArrayVec<u8, 36>),
}
