//! READs, WRITEs and flushes in other spellings, as the commands that a unit takes them for (SBC-3).

ghost use Rattle.std.specs.Prelude.{◌≡◌};
ghost use Rattle.scsi_cdb.specs.Layout.{number_at};
ghost use Rattle.scsi_unit.specs.Spellings.{lasting_options, loads, naming, spelled_block, stops, transfer12, transfer6, verified10, verified16};

use scsi_cdb::layout::{bit, bits, u8_at, u16_at, u32_at, u64_at};
use scsi_cdb::{Cdb, Synchronize10, Transfer16};

/// The operation codes (SBC-3).
const READ6: u8 = 0x08;

const WRITE6: u8 = 0x0a;

const START_STOP_UNIT: u8 = 0x1b;

const WRITE_AND_VERIFY10: u8 = 0x2e;

const WRITE_AND_VERIFY16: u8 = 0x8e;

const SYNCHRONIZE_CACHE16: u8 = 0x91;

const READ12: u8 = 0xa8;

const WRITE12: u8 = 0xaa;

const WRITE_AND_VERIFY12: u8 = 0xae;

/// The bits of WRPROTECT of a WRITE AND VERIFY.
const PROTECTION: u8 = 0xe0;

/// The bit FUA of a WRITE.
const FUA: u8 = 0x08;

/// A flush of all blocks.
const ALL_FLUSHED: Cdb = Cdb::SyncCache10(Synchronize10 {
    options: 0,
    logical_block_address: 0,
    group_number: 0,
    blocks: 0,
    control: 0,
});

/// What a block means to a unit, which has no record of its own in the table: the command that it spells
/// in another way, or itself.
#[tactic(auto, unfolding(crate::specs::Spellings::spelled_block))]
pub(crate) fn spelled_block(block: &[u8; 16]) -> Cdb
    ensures { result ≡ spelled_block (number_at 0 0 block.now) block.now }
{
    match u8_at(block, 0) {
        READ6 => Cdb::Read16(transfer6(block)),
        WRITE6 => Cdb::Write16(transfer6(block)),
        READ12 => Cdb::Read16(transfer12(u8_at(block, 1), block)),
        WRITE12 => Cdb::Write16(transfer12(u8_at(block, 1), block)),
        WRITE_AND_VERIFY10 => Cdb::Write16(verified10(block)),
        WRITE_AND_VERIFY12 => Cdb::Write16(transfer12(lasting_options(block), block)),
        WRITE_AND_VERIFY16 => Cdb::Write16(verified16(block)),
        SYNCHRONIZE_CACHE16 => ALL_FLUSHED,
        START_STOP_UNIT if stops(block) => ALL_FLUSHED,
        _ => Cdb::Unknown(*block),
    }
}

// The blocks of a READ(6) or a WRITE(6).
fn transfer6(block: &[u8; 16]) -> Transfer16
    ensures { result ≡ transfer6 block.now }
{
    let first = 65536 * u64::from(bits(block, 1, 0x1f)) + u64::from(u16_at(block, 2));
    let count = match u8_at(block, 4) {
        0 => 256,
        count => u32::from(count),
    };
    naming(0, first, count)
}

// The blocks of a command of 12 bytes, with these options.
fn transfer12(options: u8, block: &[u8; 16]) -> Transfer16
    ensures { result ≡ transfer12 options block.now }
{
    naming(options, u64::from(u32_at(block, 2)), u32_at(block, 6))
}

// The options of a WRITE AND VERIFY: it asks for protection or not, and lasts before it is answered.
fn lasting_options(block: &[u8; 16]) -> u8
    ensures { result ≡ lasting_options block.now }
{
    (u8_at(block, 1) & PROTECTION) + FUA
}

// The blocks of a WRITE AND VERIFY(10).
fn verified10(block: &[u8; 16]) -> Transfer16
    ensures { result ≡ verified10 block.now }
{
    let first = u64::from(u32_at(block, 2));
    naming(lasting_options(block), first, u32::from(u16_at(block, 7)))
}

// The blocks of a WRITE AND VERIFY(16).
fn verified16(block: &[u8; 16]) -> Transfer16
    ensures { result ≡ verified16 block.now }
{
    naming(lasting_options(block), u64_at(block, 2), u32_at(block, 10))
}

/// Whether a START STOP UNIT asks to load or to eject a medium.
pub(crate) fn loads(block: &[u8; 16]) -> bool
    ensures { result ≡ loads block.now }
{
    bit(block, 4, 0x02)
}

// Whether it asks for a state in which the power may be cut.
fn stops(block: &[u8; 16]) -> bool
    ensures { result ≡ stops block.now }
{
    !loads(block) && (!bit(block, 4, 0x01) || bit(block, 4, 0xf0))
}

/// The blocks that a command names, and byte 1 of its block.
pub(crate) fn naming(options: u8, first: u64, count: u32) -> Transfer16
    ensures { result ≡ naming options first count }
{
    Transfer16 {
        options,
        logical_block_address: first,
        blocks: count,
        group_number: 0,
        control: 0,
    }
}
