//! What commands do with the data that they take (SBC-3).

ghost use Rattle.std.specs.Prelude.{◌≡◌, ◌*◌, ◌≤◌, length as size, take as front, drop};
ghost use Rattle.scsi_disk.specs.Deed.{compares, first_other, is_twofold, taken_by, unmap_range, unmap_refusal, unmap_ranges, writes};

use crate::reading::BlockRange;
use scsi_cdb::Sense;
use scsi_cdb::layout::{u16_at, u32_at, u64_at};

/// What a command does with the data that it takes. Of a command that takes none it is not looked at.
#[derive(Clone, Copy, Debug, PartialEq, Eq)]
pub enum Deed {
    /// They are those of its blocks (WRITE).
    Write,
    /// They are those of one block, which go to each of its blocks (WRITE SAME).
    Same,
    /// They are held against its blocks, and none changes (VERIFY with BYTCHK).
    Verify,
    /// They are those of its block twice. The first are held against what is there, and the others are
    /// written where these are alike (COMPARE AND WRITE, of one block at most).
    Compare,
    /// They are a list of so many bytes, which names the blocks that become 00 (UNMAP).
    Unmap(u16),
}

/// The bytes in front of the ranges of an UNMAP (SBC-3, section 5.28).
const UNMAP_HEAD: usize = 8;

/// The bytes of a range.
const UNMAP_RANGE: usize = 16;

/// The most blocks of one UNMAP (own rule).
pub const LONGEST_UNMAP: u32 = 8192;

impl Deed {
    /// How many bytes a command of `n` blocks takes.
    pub(crate) fn taken(self, count: u32) -> u32
        requires few { count ≤ 8192 }
        ensures { result ≡ taken_by self count }
    {
        match self {
            Deed::Write | Deed::Verify => 512 * count,
            Deed::Same => 512,
            Deed::Compare => 1024 * count,
            Deed::Unmap(length) => u32::from(length),
        }
    }

    /// It may change a block.
    pub fn writes(self) -> bool
        ensures { result ≡ writes self }
    {
        !matches!(self, Deed::Verify)
    }

    /// It takes the data of a block twice.
    pub(crate) fn is_twofold(self) -> bool
        ensures { result ≡ is_twofold self }
    {
        matches!(self, Deed::Compare)
    }

    /// It holds data against blocks.
    pub(crate) fn compares(self) -> bool
        ensures { result ≡ compares self }
    {
        matches!(self, Deed::Verify | Deed::Compare)
    }
}

/// How many ranges of an UNMAP's list came whole.
fn unmap_ranges(list: &[u8]) -> usize
    ensures { result ≡ unmap_ranges list.now }
{
    if list.len() < UNMAP_HEAD {
        return 0;
    }
    usize::from(u16_at(list, 2)).min(list.len() - UNMAP_HEAD) / UNMAP_RANGE
}

/// The range of an UNMAP's list, where it has one, and no blocks of another list.
pub(crate) fn unmap_range(list: &[u8]) -> BlockRange
    ensures { result ≡ unmap_range list.now }
{
    if unmap_ranges(list) != 1 {
        return BlockRange { first: 0, count: 0 };
    }
    BlockRange {
        first: u64_at(list, 8),
        count: u32_at(list, 16),
    }
}

/// Why an UNMAP with this list gives back no block, on a disk of `n`: the list is cut in its head, it has
/// several ranges, its range is too long, or ends past the last block. The sense of each is that of SBC-3;
/// one range of 8,192 blocks is an own rule, which a page tells.
pub(crate) fn unmap_refusal(list: &[u8], blocks: u64) -> Option<Sense>
    ensures { result ≡ unmap_refusal blocks list.now }
{
    if !list.is_empty() && list.len() < UNMAP_HEAD {
        return Some(Sense::ParameterLength);
    }
    let range = unmap_range(list);
    if unmap_ranges(list) > 1 || range.count > LONGEST_UNMAP {
        return Some(Sense::InvalidParameter);
    }
    if range.ends_past(blocks) {
        return Some(Sense::OutOfRange);
    }
    None
}

/// The place of the first byte of some that is another one than that of the others; `None` where all are
/// alike, as far as there are both.
pub(crate) fn first_other(due: &[u8], found: &[u8]) -> Option<u32>
    requires { size due.now ≤ 4294967295 }
    ensures { result ≡ first_other 0 due.now found.now }
{
    for place in 0..due.len().min(found.len()) {
        if due[place] != found[place] {
            return Some(place as u32);
        }
    }
    None
}
