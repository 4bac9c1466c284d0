//! Which exports keep blocks.

ghost use Rattle.std.specs.Prelude.{◌≡◌, ◌<◌, ◌≤◌, IfOk};
ghost use Rattle.scsi_disk.specs.Disk.{most_blocks};
ghost use Rattle.nbd_client.specs.Judging.{export_judged, has_flag};
ghost use Rattle.nbd_client.specs.Sizes.{AreSizes};

use crate::medium::LONGEST_REQUEST;
use crate::sizes::RequestSizes;
use nbd_wire::{BlockSizes, Export};
use scsi_disk::MOST_BLOCKS;
use thiserror::Error;

/// Why no blocks are kept on an export. Faults are found in this order.
#[derive(Clone, Copy, Debug, PartialEq, Eq, Error)]
pub enum ExportFault {
    /// It may be read alone.
    #[error("may not be written")]
    ReadOnly,
    /// It has no FLUSH, so that nothing is known to last.
    #[error("has no flush")]
    NoFlush,
    /// It has no byte.
    #[error("is empty")]
    Empty,
    /// It has no whole number of blocks of 512 bytes, or of 4,096 where the least request has more than 512.
    #[error("is not whole blocks")]
    NotWhole,
    /// It has more than 2^40 blocks.
    #[error("is too large")]
    TooLarge,
    /// The least request has more than 512 bytes, and it is to be written. To write a block, one would have to
    /// read what is around it first.
    #[error("has blocks of more than 512 bytes, so that a write would have to read first")]
    NoBlock,
    /// The least request has more than 4,096 bytes.
    #[error("has blocks of more than 4096 bytes")]
    WideBlock,
    /// The greatest request has fewer than 4,096 bytes.
    #[error("takes no requests of 4096 bytes")]
    Small,
}

/// What is known of an export on which blocks are kept.
#[derive(Clone, Copy, Debug, PartialEq, Eq)]
pub struct Opened {
    /// How many blocks it has, 1 to 2^40.
    pub blocks: u64,
    /// What requests it takes.
    pub sizes: RequestSizes,
    /// It has FLUSH.
    pub flushes: bool,
    /// It has WRITE_ZEROES.
    pub write_zeroes: bool,
}

/// The flags of an export mean something ("Transmission flags").
const HAS_FLAGS: u16 = 1;

/// It may be read alone.
const READ_ONLY: u16 = 2;

/// It has FLUSH.
const SEND_FLUSH: u16 = 4;

/// It has WRITE_ZEROES.
const SEND_WRITE_ZEROES: u16 = 64;

/// What is known of an export on which blocks are kept. Of one that is to be written they last, so that it
/// needs FLUSH.
#[tactic(auto, unfolding(crate::specs::Judging::export_judged))]
pub fn judge(written: bool, export: Export, sizes: BlockSizes) -> Result<Opened, ExportFault>
    ensures exact { result ≡ export_judged written export sizes }
    ensures some { IfOk result (λ opened. 0 < opened.blocks) }
    ensures few { IfOk result (λ opened. opened.blocks ≤ most_blocks) }
    ensures sizes { IfOk result (λ opened. AreSizes opened.sizes opened.blocks) }
{
    if written && has_flag(READ_ONLY, export) {
        return Err(ExportFault::ReadOnly);
    }
    let flushes = has_flag(SEND_FLUSH, export);
    if written && !flushes {
        return Err(ExportFault::NoFlush);
    }
    if export.size == 0 {
        return Err(ExportFault::Empty);
    }
    if export.size % 512 != 0 {
        return Err(ExportFault::NotWhole);
    }
    let blocks = export.size / 512;
    if blocks > MOST_BLOCKS {
        return Err(ExportFault::TooLarge);
    }
    let wide = sizes.minimum > 512;
    if written && wide {
        return Err(ExportFault::NoBlock);
    }
    if sizes.minimum > 4096 {
        return Err(ExportFault::WideBlock);
    }
    if wide && export.size % 4096 != 0 {
        return Err(ExportFault::NotWhole);
    }
    if sizes.maximum < 4096 {
        return Err(ExportFault::Small);
    }
    let most = sizes.maximum.min(LONGEST_REQUEST);
    Ok(Opened {
        blocks,
        sizes: RequestSizes {
            longest: most - most % 4096,
            wide,
        },
        flushes,
        write_zeroes: has_flag(SEND_WRITE_ZEROES, export),
    })
}

// Whether an export has this flag.
#[tactic(auto, unfolding(crate::specs::Judging::has_flag))]
fn has_flag(flag: u16, export: Export) -> bool
    ensures { result ≡ has_flag flag export }
{
    export.flags & HAS_FLAGS != 0 && export.flags & flag != 0
}
