//! READ and WRITE (SBC-3).

ghost use Rattle.std.specs.Prelude.{◌≡◌, ◌+◌, nat_lt};
ghost use Rattle.scsi_cdb.specs.declared.cdb.Cdb.TheVariants.{Read10, Read16};
ghost use Rattle.scsi_disk.specs.Plan.{named_transfer};

use crate::reading::BlockRange;
use scsi_cdb::{Transfer10, Transfer16};

/// The blocks that a command names, with its options.
#[derive(Clone, Copy)]
pub(crate) struct Transfer {
    /// The first block.
    pub first: u64,
    /// How many blocks.
    pub count: u32,
    /// Byte 1 of the descriptor block.
    pub options: u8,
}

/// No blocks.
pub(crate) const NO_BLOCKS: Transfer = Transfer {
    first: 0,
    count: 0,
    options: 0,
};

impl Transfer {
    /// It ends past `n` blocks, also where its end is not below 2^64.
    pub(crate) fn ends_past(&self, blocks: u64) -> bool
        ensures { result ≡ nat_lt blocks (self.now.first + self.now.count) }
    {
        self.range().ends_past(blocks)
    }

    /// The blocks alone.
    pub(crate) fn range(&self) -> BlockRange
        ensures first { result.first ≡ self.now.first }
        ensures count { result.count ≡ self.now.count }
    {
        BlockRange {
            first: self.first,
            count: self.count,
        }
    }
}

/// The blocks of a READ(10) or a WRITE(10).
pub(super) fn named10(named: &Transfer10) -> Transfer
    ensures { result ≡ named_transfer (Read10 named.now) }
{
    Transfer {
        first: u64::from(named.logical_block_address),
        count: u32::from(named.blocks),
        options: named.options,
    }
}

/// The blocks of a READ(16) or a WRITE(16).
pub(super) fn named16(named: &Transfer16) -> Transfer
    ensures { result ≡ named_transfer (Read16 named.now) }
{
    Transfer {
        first: named.logical_block_address,
        count: named.blocks,
        options: named.options,
    }
}
