//! What orders mean to a unit: other spellings, and commands that take data for something else than a
//! WRITE (SBC-3).

ghost use Rattle.std.specs.Prelude.{◌≡◌, Some, option_map};
ghost use Rattle.scsi_cdb.specs.Layout.{number_at};
ghost use Rattle.scsi_unit.specs.Deeds.{anchors, block_taken, checks_bytes, compared16, meant, same_taken, taken_for, verify10, verify12, verify16, verify_options};
ghost use Rattle.scsi_unit.specs.Spellings.{spelled};
ghost use Rattle.scsi_unit.specs.WriteSame.{if_plain, is_plain, same_blocks};

use crate::spellings::{naming, spelled_block};
use crate::unit::LogicalUnit;
use scsi_cdb::layout::{bit, bits, u8_at, u16_at, u32_at, u64_at};
use scsi_cdb::{Cdb, Transfer16};
use scsi_disk::{Deed, Order};

/// The operation codes (SBC-3).
pub(crate) const VERIFY10: u8 = 0x2f;

const WRITE_SAME10: u8 = 0x41;

pub(crate) const UNMAP: u8 = 0x42;

const COMPARE_AND_WRITE: u8 = 0x89;

pub(crate) const VERIFY16: u8 = 0x8f;

const WRITE_SAME16: u8 = 0x93;

pub(crate) const VERIFY12: u8 = 0xaf;

/// The bits VRPROTECT of a VERIFY.
const PROTECTION: u8 = 0xe0;

/// What a thin unit does not do in a WRITE SAME: protection (WRPROTECT), an anchor (ANCHOR), block numbers
/// in the data (PBDATA and LBDATA), and blocks with no data (NDOB).
const NOT_TAKEN: u8 = 0xf7;

impl LogicalUnit {
    /// What an order means to the unit (SBC-3). READ(6), WRITE(6), READ(12) and WRITE(12) mean a READ(16) or
    /// a WRITE(16). WRITE AND VERIFY(10), (12) and (16) mean a WRITE(16) with the bit FUA: it lasts before it
    /// is answered, and isn't read again. SYNCHRONIZE CACHE(16), and a START STOP UNIT after which the power
    /// may be cut, mean a SYNCHRONIZE CACHE(10) of all blocks.
    ///
    /// COMPARE AND WRITE, and a VERIFY(10), (12) or (16) that is sent bytes, mean a WRITE(16) with another
    /// `Deed`; so do an UNMAP and a WRITE SAME(10) or (16) to a thin unit. With the bit UNMAP a WRITE SAME is
    /// the same, since blocks that are given back read as zeros. An UNMAP that asks for an anchor, and a WRITE
    /// SAME that names no block, or asks for protection, for an anchor, for block numbers in the data or to
    /// send no data, stays as it is, and `outcome` refuses it. Any other order stays as it is, too.
    pub fn meant(&self, order: Order) -> Order
        ensures { result ≡ meant (Some self.now) order }
    {
        let Some((named, deed)) = self.taken_for(&order.cdb) else {
            return Order {
                cdb: self.spelled(order.cdb),
                ..order
            };
        };
        Order {
            cdb: Cdb::Write16(named),
            deed,
            ..order
        }
    }

    // What a command means to the unit, but for one that takes data for something else than a WRITE.
    fn spelled(&self, cdb: Cdb) -> Cdb
        ensures { result ≡ spelled (Some self.now) cdb }
    {
        match cdb {
            Cdb::Unknown(block) => spelled_block(&block),
            _ => cdb,
        }
    }

    // The WRITE that a command is taken for, and what it does with its data.
    fn taken_for(&self, cdb: &Cdb) -> Option<(Transfer16, Deed)>
        ensures { result ≡ taken_for (Some self.now) cdb.now }
    {
        match cdb {
            Cdb::Unknown(block) => block_taken(self.is_thin(), block),
            _ => None,
        }
    }
}

// What a block is taken for by a unit that is thin or not.
#[tactic(auto, unfolding(crate::specs::Deeds::block_taken))]
fn block_taken(thin: bool, block: &[u8; 16]) -> Option<(Transfer16, Deed)>
    ensures { result ≡ block_taken thin (number_at 0 0 block.now) block.now }
{
    match u8_at(block, 0) {
        COMPARE_AND_WRITE => Some((compared16(block), Deed::Compare)),
        VERIFY10 if checks_bytes(block) => Some((verify10(block), Deed::Verify)),
        VERIFY12 if checks_bytes(block) => Some((verify12(block), Deed::Verify)),
        VERIFY16 if checks_bytes(block) => Some((verify16(block), Deed::Verify)),
        _ if !thin => None,
        UNMAP if !anchors(block) => Some((naming(0, 0, 0), Deed::Unmap(u16_at(block, 7)))),
        _ => plain_same(block),
    }
}

// The blocks of a COMPARE AND WRITE.
fn compared16(block: &[u8; 16]) -> Transfer16
    ensures { result ≡ compared16 block.now }
{
    naming(
        u8_at(block, 1),
        u64_at(block, 2),
        u32::from(u8_at(block, 13)),
    )
}

// A VERIFY is sent bytes, one for each of its blocks.
fn checks_bytes(block: &[u8; 16]) -> bool
    ensures { result ≡ checks_bytes block.now }
{
    bits(block, 1, 0x06) == 0x01
}

// The bits VRPROTECT of a VERIFY.
fn verify_options(block: &[u8; 16]) -> u8
    ensures { result ≡ verify_options block.now }
{
    u8_at(block, 1) & PROTECTION
}

// The blocks of a VERIFY(10).
fn verify10(block: &[u8; 16]) -> Transfer16
    ensures { result ≡ verify10 block.now }
{
    let first = u64::from(u32_at(block, 2));
    naming(verify_options(block), first, u32::from(u16_at(block, 7)))
}

// The blocks of a VERIFY(12).
fn verify12(block: &[u8; 16]) -> Transfer16
    ensures { result ≡ verify12 block.now }
{
    let first = u64::from(u32_at(block, 2));
    naming(verify_options(block), first, u32_at(block, 6))
}

// The blocks of a VERIFY(16).
fn verify16(block: &[u8; 16]) -> Transfer16
    ensures { result ≡ verify16 block.now }
{
    naming(verify_options(block), u64_at(block, 2), u32_at(block, 10))
}

// An UNMAP asks for an anchor.
fn anchors(block: &[u8; 16]) -> bool
    ensures { result ≡ anchors block.now }
{
    bit(block, 1, 0x01)
}

/// The blocks that a WRITE SAME names, by its block; none of another command.
pub(crate) fn same_blocks(block: &[u8; 16]) -> Option<Transfer16>
    ensures { result ≡ same_blocks block.now }
{
    let options = u8_at(block, 1);
    match u8_at(block, 0) {
        WRITE_SAME10 => Some(naming(
            options,
            u64::from(u32_at(block, 2)),
            u32::from(u16_at(block, 7)),
        )),
        WRITE_SAME16 => Some(naming(options, u64_at(block, 2), u32_at(block, 10))),
        _ => None,
    }
}

// What a plain WRITE SAME is taken for; none of another command.
fn plain_same(block: &[u8; 16]) -> Option<(Transfer16, Deed)>
    ensures { result ≡ option_map same_taken (if_plain (same_blocks block.now)) }
{
    match same_blocks(block) {
        Some(named) if is_plain(&named) => Some((
            naming(0, named.logical_block_address, named.blocks),
            Deed::Same,
        )),
        _ => None,
    }
}

// A WRITE SAME that the unit takes.
fn is_plain(named: &Transfer16) -> bool
    ensures { result ≡ is_plain named.now }
{
    named.options & NOT_TAKEN == 0 && named.blocks > 0
}
