//! What a unit answers of itself.

ghost use Rattle.std.specs.Prelude.{◌≡◌, ◌+◌, ◌≤◌, IfOk, IfSome, length, nat_lt, option_map};
ghost use Rattle.scsi_disk.specs.Plan.{first_reason};
ghost use Rattle.scsi_cdb.specs.Layout.{number_at};
ghost use Rattle.scsi_unit.specs.Telling.{asks_commands, all_mapped, asks_mapping, block_reaches, capacity_told, data_told, is_for_any_unit, no_sense, reaches, requested_sense, told_refusals, unit_block_data, unit_outcome, unit_sense, verify_data};

use crate::data::{Data, cut, data, joined};
use crate::deeds::{UNMAP, VERIFY10, VERIFY12, VERIFY16, same_blocks};
use crate::pages::thin_capacity;
use crate::spellings::loads;
use crate::supported::commands_told;
use crate::unit::LogicalUnit;
use scsi_cdb::layout::{bit, bits, u8_at, u16_at, u32_at, u64_at};
use scsi_cdb::{Cdb, Sense};
use scsi_disk::{Order, Outcome};
use std::alloc::{AllocError, Global};

/// The codes of commands that have no record of their own among the descriptor blocks (SPC-4 and SBC-3).
const REQUEST_SENSE: u8 = 0x03;

const MODE_SENSE6: u8 = 0x1a;

const MODE_SENSE10: u8 = 0x5a;

const START_STOP_UNIT: u8 = 0x1b;

const PREFETCH10: u8 = 0x34;

const PREFETCH16: u8 = 0x90;

/// SERVICE ACTION IN(16), of which READ CAPACITY(16) is another service action.
const SERVICE_ACTION_IN: u8 = 0x9e;

const GET_LBA_STATUS: u8 = 0x12;

/// The bits VRPROTECT and BYTCHK of a VERIFY.
const VERIFY_OPTIONS: u8 = 0xe6;

/// MAINTENANCE IN, of which a unit has one service action, REPORT SUPPORTED OPERATION CODES.
const MAINTENANCE_IN: u8 = 0xa3;

const SUPPORTED_OPERATION_CODES: u8 = 0x0c;

impl LogicalUnit {
    /// What the unit answers of itself to an order, as `meant` gives it, or `None` where another command is
    /// ordered.
    ///
    /// It answers INQUIRY, REQUEST SENSE, MODE SENSE(6) and (10), START STOP UNIT, PREFETCH(10) and (16), a
    /// VERIFY(10), (12) or (16) that is sent no bytes, and REPORT SUPPORTED OPERATION CODES, and neither reads
    /// nor changes a block. A thin unit, of this number of blocks, also answers READ CAPACITY(16) and GET LBA
    /// STATUS, and an UNMAP and a WRITE SAME that `meant` leaves. It refuses an order for the first of these
    /// reasons that applies:
    /// 1. `NoUnit`: its unit is not 0. An INQUIRY for the standard data and a REQUEST SENSE are answered for
    ///    any unit, and give that there is none.
    /// 2. `InvalidField`: it sends data.
    /// 3. `OutOfRange`: it is a PREFETCH, a VERIFY or a GET LBA STATUS whose blocks end past the last one.
    /// 4. `InvalidField`: it asks for a page or an option that there is not, asks to load a medium, or is an
    ///    UNMAP or a WRITE SAME.
    ///
    /// Else it gives its data, cut at the allocation length and at what the initiator expects. The
    /// order of the reasons and the sense of each are own rules. The only error is that memory ran out.
    pub fn outcome(
        &self,
        alloc: Global,
        order: &Order,
        blocks: u64,
    ) -> Result<Option<Outcome>, AllocError>
        ensures told { IfOk result (λ outcome. outcome ≡ unit_outcome self.now blocks order.now) }
        ensures few { IfOk result (λ outcome. IfSome outcome (λ told. length told.bytes ≤ 664)) }
    {
        let Some(told) = self.data_told(order.lun == 0, blocks, &order.cdb) else {
            return Ok(None);
        };
        let outcome = match (refusal(order, blocks), told) {
            (Some(sense), _) => Outcome::check_condition(alloc, order, sense),
            (None, None) => Outcome::check_condition(alloc, order, Sense::InvalidField),
            (None, Some(data)) => Outcome::given(alloc, order, data.as_slice())?,
        };
        Ok(Some(outcome))
    }

    // The data of a command that the unit answers of itself.
    fn data_told(&self, present: bool, blocks: u64, cdb: &Cdb) -> Option<Option<Data>>
        ensures { option_map (option_map (λ bytes. bytes.items)) result
            ≡ data_told self.now present blocks cdb.now }
    {
        match cdb {
            Cdb::Inquiry {
                evpd,
                page,
                allocation_length,
                ..
            } => {
                let Some(data) = self.inquiry(present, *evpd, *page) else {
                    return Some(None);
                };
                Some(Some(cut(&data, usize::from(*allocation_length))))
            }
            Cdb::Capacity16 {
                allocation_length,
                ..
            } => self.capacity_told(blocks, *allocation_length),
            Cdb::Unknown(block) => self.block_data(present, blocks, block),
            _ => None,
        }
    }

    // The data of READ CAPACITY(16), of a thin unit.
    fn capacity_told(&self, blocks: u64, allocation_length: u32) -> Option<Option<Data>>
        ensures { option_map (option_map (λ bytes. bytes.items)) result
            ≡ capacity_told self.now blocks allocation_length }
    {
        if !self.is_thin() {
            return None;
        }
        Some(Some(cut(&thin_capacity(blocks), allocation_length as usize)))
    }

    // The data of a command by its block.
    #[tactic(auto, unfolding(crate::specs::Telling::unit_block_data))]
    fn block_data(&self, present: bool, blocks: u64, block: &[u8; 16]) -> Option<Option<Data>>
        ensures { option_map (option_map (λ bytes. bytes.items)) result
            ≡ unit_block_data self.now present blocks (number_at 0 0 block.now) block.now }
    {
        match u8_at(block, 0) {
            REQUEST_SENSE => {
                let sense = requested_sense(present, bit(block, 1, 0x01));
                Some(Some(cut(&sense, usize::from(u8_at(block, 4)))))
            }
            MODE_SENSE6 => {
                let Some(pages) = self.mode_pages(block) else {
                    return Some(None);
                };
                let whole = self.behind_short_header(pages.as_slice());
                Some(Some(cut(&whole, usize::from(u8_at(block, 4)))))
            }
            MODE_SENSE10 => {
                let Some(pages) = self.mode_pages(block) else {
                    return Some(None);
                };
                let whole = self.behind_long_header(pages.as_slice());
                Some(Some(cut(&whole, usize::from(u16_at(block, 7)))))
            }
            START_STOP_UNIT if loads(block) => Some(None),
            START_STOP_UNIT | PREFETCH10 | PREFETCH16 => Some(Some(Data::new())),
            VERIFY10 | VERIFY12 | VERIFY16 => Some(verify_data(block)),
            _ if asks_commands(block) => {
                let Some(whole) = commands_told(self.is_thin(), block) else {
                    return Some(None);
                };
                Some(Some(cut(&whole, u32_at(block, 6) as usize)))
            }
            _ if !self.is_thin() => None,
            _ if asks_mapping(block) => {
                let whole = all_mapped(blocks, u64_at(block, 2));
                Some(Some(cut(&whole, u32_at(block, 10) as usize)))
            }
            UNMAP => Some(None),
            _ if same_blocks(block).is_some() => Some(None),
            _ => None,
        }
    }
}

// The data of a VERIFY that is sent no bytes.
fn verify_data(block: &[u8; 16]) -> Option<Data>
    ensures { option_map (λ bytes. bytes.items) result ≡ verify_data block.now }
{
    if u8_at(block, 1) & VERIFY_OPTIONS == 0 {
        Some(Data::new())
    } else {
        None
    }
}

// Whether a block is one of GET LBA STATUS.
fn asks_mapping(block: &[u8; 16]) -> bool
    ensures { result ≡ asks_mapping block.now }
{
    u8_at(block, 0) == SERVICE_ACTION_IN && bits(block, 1, 0x1f) == GET_LBA_STATUS
}

// The data of GET LBA STATUS from a block on, of a unit of so many.
fn all_mapped(blocks: u64, first: u64) -> Data
    ensures { result.items ≡ all_mapped blocks first }
{
    let count = blocks.saturating_sub(first).min(u64::from(u32::MAX)) as u32;
    let range = joined(&first.to_be_bytes(), &count.to_be_bytes());
    let behind = joined(range.as_slice(), &[0; 4]);
    joined(&[0, 0, 0, 0x14, 0, 0, 0, 0], behind.as_slice())
}

// Whether a block is one of REPORT SUPPORTED OPERATION CODES.
fn asks_commands(block: &[u8; 16]) -> bool
    ensures { result ≡ asks_commands block.now }
{
    u8_at(block, 0) == MAINTENANCE_IN && bits(block, 1, 0x1f) == SUPPORTED_OPERATION_CODES
}

// The data of REQUEST SENSE, where the unit is there or not.
fn requested_sense(present: bool, descriptor: bool) -> Data
    ensures { result.items ≡ requested_sense present descriptor }
{
    if present {
        no_sense(descriptor)
    } else {
        unit_sense(descriptor)
    }
}

// LOGICAL UNIT NOT SUPPORTED, in descriptor format or in fixed format.
fn unit_sense(descriptor: bool) -> Data
    ensures { result.items ≡ unit_sense descriptor }
{
    if descriptor {
        data(b"\x72\x05\x25\0\0\0\0\0")
    } else {
        data(&Sense::NoUnit.bytes())
    }
}

// NO SENSE, in descriptor format or in fixed format.
fn no_sense(descriptor: bool) -> Data
    ensures { result.items ≡ no_sense descriptor }
{
    if descriptor {
        data(b"\x72\0\0\0\0\0\0\0")
    } else {
        data(b"\x70\0\0\0\0\0\0\x0a\0\0\0\0\0\0\0\0\0\0")
    }
}

// The first reason to refuse a command that a unit of so many blocks answers of itself, but for want of a
// page.
fn refusal(order: &Order, blocks: u64) -> Option<Sense>
    ensures { result ≡ first_reason (told_refusals blocks order.now) }
{
    if order.lun != 0 && !is_for_any_unit(&order.cdb) {
        return Some(Sense::NoUnit);
    }
    if order.write {
        return Some(Sense::InvalidField);
    }
    if reaches_past(&order.cdb, blocks) {
        return Some(Sense::OutOfRange);
    }
    None
}

// Whether a command is answered for any unit.
fn is_for_any_unit(cdb: &Cdb) -> bool
    ensures { result ≡ is_for_any_unit cdb.now }
{
    match cdb {
        Cdb::Inquiry { evpd, .. } => !*evpd,
        Cdb::Unknown(block) => u8_at(block, 0) == REQUEST_SENSE,
        _ => false,
    }
}

// Whether the blocks that a command names end past `n` of them.
fn reaches_past(cdb: &Cdb, blocks: u64) -> bool
    ensures { result ≡ nat_lt blocks (reaches cdb.now) }
{
    match cdb {
        Cdb::Unknown(block) => block_reaches_past(block, blocks),
        _ => false,
    }
}

// The same by the block of a PREFETCH, a VERIFY or a GET LBA STATUS.
fn block_reaches_past(block: &[u8; 16], blocks: u64) -> bool
    ensures { result ≡ nat_lt blocks (block_reaches (number_at 0 0 block.now) block.now) }
{
    match u8_at(block, 0) {
        PREFETCH10 | VERIFY10 => {
            blocks < u64::from(u32_at(block, 2)) + u64::from(u16_at(block, 7))
        }
        PREFETCH16 | VERIFY16 => ends_past(u64_at(block, 2), u32_at(block, 10), blocks),
        VERIFY12 => blocks < u64::from(u32_at(block, 2)) + u64::from(u32_at(block, 6)),
        _ if asks_mapping(block) => ends_past(u64_at(block, 2), 1, blocks),
        _ => false,
    }
}

// Whether blocks end past `n` of them, also where their end is not below 2^64.
fn ends_past(first: u64, count: u32, blocks: u64) -> bool
    ensures { result ≡ nat_lt blocks (first + count) }
{
    match first.checked_add(u64::from(count)) {
        Some(end) => blocks < end,
        None => true,
    }
}
