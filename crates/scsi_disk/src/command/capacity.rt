//! READ CAPACITY (SBC-3, sections 5.15 and 5.16).

ghost use Rattle.std.specs.Prelude.{◌≡◌, take};
ghost use Rattle.scsi_cdb.specs.ParameterData.{capacity10_of, capacity16_of};

use super::at_most;
use arrayvec::ArrayVec;
use scsi_cdb::{capacity10, capacity16};

/// The data of a READ CAPACITY(10), where this is the last block.
pub(super) fn told10(last: u64) -> ArrayVec<u8, 36>
    ensures { result.items ≡ capacity10_of last }
{
    at_most(&capacity10(last), 8)
}

/// The data of a READ CAPACITY(16), where this is the last block.
pub(super) fn told16(last: u64, allocation_length: u32) -> ArrayVec<u8, 36>
    ensures { result.items ≡ take allocation_length (capacity16_of last) }
{
    at_most(&capacity16(last), allocation_length as usize)
}
