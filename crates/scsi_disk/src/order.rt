//! Orders to a disk, what they lead to, and what they give.

use crate::deed::Deed;
use scsi_cdb::{Bytes, Cdb, Residual, Sense};

/// A command with what its initiator says of the transfer.
#[derive(Clone, Copy, Debug, PartialEq, Eq)]
pub struct Order {
    /// The command.
    pub cdb: Cdb,
    /// The logical unit, in the eight bytes of its number (LUN). Only unit 0 is there (own rule).
    pub lun: u64,
    /// The initiator expects data (bit R).
    pub read: bool,
    /// The initiator sends data (bit W).
    pub write: bool,
    /// The expected data transfer length, in bytes.
    pub expected: u32,
    /// What the command does with the data that it takes. Of a command that takes none it is not looked
    /// at.
    pub deed: Deed,
}

/// What an order leads to. The order and the number of blocks alone decide it.
#[derive(Clone, Copy, Debug, PartialEq, Eq)]
pub enum Plan {
    /// It is refused for this reason.
    Refuse(Sense),
    /// It takes `n` bytes, and does what it is for with them.
    Take(u32),
    /// It gives `n` bytes, and changes no block.
    Give(u32),
}

/// What an order gave.
#[derive(Debug, Drop)]
pub struct Outcome {
    /// The status byte: 00, GOOD, or 02, CHECK CONDITION.
    pub status: u8,
    /// Why it failed, with CHECK CONDITION, and None with GOOD.
    pub sense: Option<Sense>,
    /// The data for the initiator.
    pub bytes: Bytes,
    /// How the bytes that the command has differ from those that the initiator expects.
    pub residual: Residual,
}
