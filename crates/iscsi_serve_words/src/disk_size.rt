//! The words for the size of a disk: `--size`, in bytes, and `--blocks`.

ghost use Rattle.std.specs.Prelude.{◌<◌, ◌≤◌, IfOk, IfSome};
ghost use Rattle.scsi_disk.specs.Disk.{most_blocks};

use crate::word::{Word, WordKind};
use clap::ArgMatches;
use iscsi_options::number_of;
use scsi_disk::MOST_BLOCKS;

/// The bytes of a block.
const BLOCK: u64 = 512;

const KIB: u64 = 1 << 10;

const MIB: u64 = 1 << 20;

const GIB: u64 = 1 << 30;

const TIB: u64 = 1 << 40;

pub(crate) const BAD_BLOCKS: &str =
    "is no number of blocks: '--blocks <N>' takes a number from 1 to 1099511627776";

pub(crate) const BAD_SIZE: &str =
    "is no disk size: '--size <SIZE>' takes bytes, or a number with K, M, G or T, such as 32M; a \
    multiple of 512, at most 512T";

pub(crate) const TWO_SIZES: &str =
    "'--size <SIZE>' cannot be used with '--blocks <N>': each is the disk size";

pub(crate) const NO_SIZE: &str =
    "the disk size is missing: use '--size <SIZE>', such as '--size 32M', or '--blocks <N>'";

/// The words for the size of a disk.
pub const SIZE: &[Word] = &[
    Word {
        name: "size",
        kind: WordKind::Value("SIZE"),
        beside: None,
        help: "Disk size in bytes, or with K, M, G or T (powers of 1024), such as 32M",
    },
    Word {
        name: "blocks",
        kind: WordKind::Value("N"),
        beside: None,
        help: "Disk size in blocks of 512 bytes, 1 to 1099511627776",
    },
];

/// Why words give no disk size.
#[derive(Clone, Copy)]
pub enum SizeFault<'a> {
    /// The value of `--blocks` is no number of blocks.
    Blocks(&'a str),
    /// The value of `--size` is no size.
    Size(&'a str),
    /// Both words are there.
    Both,
    /// Neither word is there.
    Neither,
}

/// The number of blocks that the words give, if one of them is there.
pub fn said_blocks<'a>(asked: &ArgMatches<'a>) -> Result<Option<u64>, SizeFault<'a>>
    ensures range { IfOk result (λ said. IfSome said (λ n. (0 < n) × (n ≤ most_blocks))) }
{
    match (asked.get_str("blocks"), asked.get_str("size")) {
        (None, None) => Ok(None),
        (Some(_), Some(_)) => Err(SizeFault::Both),
        (Some(digits), None) => match blocks_of(digits) {
            Some(blocks) => Ok(Some(blocks)),
            None => Err(SizeFault::Blocks(digits)),
        },
        (None, Some(size)) => match size_of(size) {
            Some(blocks) => Ok(Some(blocks)),
            None => Err(SizeFault::Size(size)),
        },
    }
}

/// The number of blocks, where one of the words has to be there.
pub fn needed_blocks<'a>(asked: &ArgMatches<'a>) -> Result<u64, SizeFault<'a>>
    ensures range { IfOk result (λ n. (0 < n) × (n ≤ most_blocks)) }
{
    match said_blocks(asked) {
        Ok(Some(blocks)) => Ok(blocks),
        Ok(None) => Err(SizeFault::Neither),
        Err(fault) => Err(fault),
    }
}

// The number of blocks that digits spell, from 1 to 2^40.
fn blocks_of(digits: &str) -> Option<u64>
    ensures range { IfSome result (λ n. (0 < n) × (n ≤ most_blocks)) }
{
    in_range(number_of(digits, MOST_BLOCKS)?)
}

// The number of blocks, from 1 to 2^40, that a size in bytes makes without a rest.
fn size_of(size: &str) -> Option<u64>
    ensures range { IfSome result (λ n. (0 < n) × (n ≤ most_blocks)) }
{
    let (digits, unit) = unit_of(size);
    let bytes = number_of(digits, u64::MAX)?.checked_mul(unit)?;
    if bytes % BLOCK != 0 {
        return None;
    }
    in_range(bytes / BLOCK)
}

// A number of blocks, if a disk may have that many.
fn in_range(blocks: u64) -> Option<u64>
    ensures range { IfSome result (λ n. (0 < n) × (n ≤ most_blocks)) }
{
    if 0 < blocks && blocks <= MOST_BLOCKS {
        Some(blocks)
    } else {
        None
    }
}

// The digits of a size, and the bytes of its unit; a size without a unit is in bytes.
fn unit_of(size: &str) -> (&str, u64) {
    if let Some(digits) = size.strip_suffix('K') {
        (digits, KIB)
    } else if let Some(digits) = size.strip_suffix('M') {
        (digits, MIB)
    } else if let Some(digits) = size.strip_suffix('G') {
        (digits, GIB)
    } else if let Some(digits) = size.strip_suffix('T') {
        (digits, TIB)
    } else {
        (size, 1)
    }
}
