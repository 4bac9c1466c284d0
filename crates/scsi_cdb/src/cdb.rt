//! Descriptor blocks and their records. One file, so that a record's fields, reading and writing
//! stand beside those of the others.

ghost use Rattle.std.specs.Prelude.{◌≡◌, ◌↔◌, ◌<◌, ◌∷◌, [], replicate};
ghost use Rattle.scsi_cdb.specs.declared.cdb.Cdb.{Cdb};
ghost use Rattle.scsi_cdb.specs.declared.cdb.Cdb.TheVariants as records;
ghost use Rattle.scsi_cdb.specs.Layout.{always, RowsHold, AreFilled, HaveRoom, put_all, number_at};
ghost use Rattle.scsi_cdb.specs.Layout.Row.{bytes};
ghost use Rattle.scsi_cdb.specs.Blocks.{CdbFits, IsRecord, canonical, code_row, record_of, transfer10, transfer16, synchronize10, cdb_rows};

use crate::layout::{
    bit, bits, put_bit, put_number, put_raw, put_u8, put_u16, put_u32, put_u64, u8_at, u16_at,
    u32_at, u64_at,
};

/// What a READ(10) or a WRITE(10) asks for (SBC-3, READ (10) and WRITE (10) commands).
#[derive(Clone, Copy, Debug, PartialEq, Eq)]
pub struct Transfer10 {
    /// Byte 1 as it is: the bits e0 are RDPROTECT or WRPROTECT, the others are not acted on.
    pub options: u8,
    /// The first block.
    pub logical_block_address: u32,
    /// 0 to 31. It is not acted on.
    pub group_number: u8,
    /// TRANSFER LENGTH, a number of blocks. 0 is no block.
    pub blocks: u16,
    /// It is kept and not acted on.
    pub control: u8,
}

/// What a READ(16) or a WRITE(16) asks for (SBC-3, READ (16) and WRITE (16) commands).
#[derive(Clone, Copy, Debug, PartialEq, Eq)]
pub struct Transfer16 {
    /// Byte 1 as it is: the bits e0 are RDPROTECT or WRPROTECT, the others are not acted on.
    pub options: u8,
    /// The first block.
    pub logical_block_address: u64,
    /// TRANSFER LENGTH, a number of blocks. 0 is no block.
    pub blocks: u32,
    /// 0 to 31. It is not acted on.
    pub group_number: u8,
    /// It is kept and not acted on.
    pub control: u8,
}

/// What a SYNCHRONIZE CACHE(10) asks for (SBC-3, SYNCHRONIZE CACHE (10) command).
#[derive(Clone, Copy, Debug, PartialEq, Eq)]
pub struct Synchronize10 {
    /// The bits SYNC_NV and IMMED of byte 1, 0 to 3. They are not acted on.
    pub options: u8,
    /// The first block.
    pub logical_block_address: u32,
    /// 0 to 31. It is not acted on.
    pub group_number: u8,
    /// NUMBER OF LOGICAL BLOCKS. 0 is all blocks up to the last one.
    pub blocks: u16,
    /// It is kept and not acted on.
    pub control: u8,
}

/// A command to a logical unit, as its command descriptor block (CDB) has it.
///
/// Reserved bits are not checked, and are written 0 (own rule). The control byte is kept and not
/// acted on.
#[derive(Clone, Copy, Debug, PartialEq, Eq)]
pub enum Cdb {
    /// TEST UNIT READY, code 00 (SPC-4).
    TestUnitReady {
        control: u8,
    },
    /// INQUIRY, code 12 (SPC-4, section 6.6).
    Inquiry {
        /// A page of vital product data is asked for, and not the standard data.
        evpd: bool,
        /// Which page, by its code.
        page: u8,
        /// The most bytes that the initiator takes.
        allocation_length: u16,
        control: u8,
    },
    /// READ CAPACITY(10), code 25 (SBC-3, section 5.15).
    Capacity10 {
        control: u8,
    },
    /// READ(10), code 28 (SBC-3).
    Read10(Transfer10),
    /// WRITE(10), code 2a (SBC-3).
    Write10(Transfer10),
    /// SYNCHRONIZE CACHE(10), code 35 (SBC-3).
    SyncCache10(Synchronize10),
    /// READ(16), code 88 (SBC-3).
    Read16(Transfer16),
    /// WRITE(16), code 8a (SBC-3).
    Write16(Transfer16),
    /// READ CAPACITY(16), code 9e with service action 10 (SBC-3, section 5.16).
    Capacity16 {
        /// The most bytes that the initiator takes.
        allocation_length: u32,
        control: u8,
    },
    /// REPORT LUNS, code a0 (SPC-4, section 6.33).
    ReportLuns {
        /// SELECT REPORT: which kinds of unit are asked for.
        select: u8,
        /// The most bytes that the initiator takes.
        allocation_length: u32,
        control: u8,
    },
    /// A block of no other kind, all its 16 bytes as they are.
    Unknown([u8; 16]),
}

impl Transfer10 {
    fn read(block: &[u8; 16]) -> Transfer10
        ensures { RowsHold block.now (transfer10 result) }
    {
        Transfer10 {
            options: u8_at(block, 1),
            logical_block_address: u32_at(block, 2),
            group_number: bits(block, 6, 0x1f),
            blocks: u16_at(block, 7),
            control: u8_at(block, 9),
        }
    }

    /// The block of that operation code, with each free bit 0.
    fn block(&self, operation_code: u8) -> [u8; 16]
        requires { AreFilled (transfer10 self.now) }
        ensures room { HaveRoom (code_row operation_code ∷ transfer10 self.now) }
        ensures written { result
            ≡ put_all (code_row operation_code ∷ transfer10 self.now) (replicate 16 0) }
    {
        let mut out = [0; 16];
        put_u8(&mut out, 0, operation_code);
        put_u8(&mut out, 1, self.options);
        put_u32(&mut out, 2, self.logical_block_address);
        put_number(&mut out, 6, 0x1f, self.group_number);
        put_u16(&mut out, 7, self.blocks);
        put_u8(&mut out, 9, self.control);
        out
    }
}

impl Transfer16 {
    fn read(block: &[u8; 16]) -> Transfer16
        ensures { RowsHold block.now (transfer16 result) }
    {
        Transfer16 {
            options: u8_at(block, 1),
            logical_block_address: u64_at(block, 2),
            blocks: u32_at(block, 10),
            group_number: bits(block, 14, 0x1f),
            control: u8_at(block, 15),
        }
    }

    /// The block of that operation code, with each free bit 0.
    fn block(&self, operation_code: u8) -> [u8; 16]
        requires { AreFilled (transfer16 self.now) }
        ensures room { HaveRoom (code_row operation_code ∷ transfer16 self.now) }
        ensures written { result
            ≡ put_all (code_row operation_code ∷ transfer16 self.now) (replicate 16 0) }
    {
        let mut out = [0; 16];
        put_u8(&mut out, 0, operation_code);
        put_u8(&mut out, 1, self.options);
        put_u64(&mut out, 2, self.logical_block_address);
        put_u32(&mut out, 10, self.blocks);
        put_number(&mut out, 14, 0x1f, self.group_number);
        put_u8(&mut out, 15, self.control);
        out
    }
}

impl Synchronize10 {
    fn read(block: &[u8; 16]) -> Synchronize10
        ensures { RowsHold block.now (synchronize10 result) }
    {
        Synchronize10 {
            options: bits(block, 1, 0x06),
            logical_block_address: u32_at(block, 2),
            group_number: bits(block, 6, 0x1f),
            blocks: u16_at(block, 7),
            control: u8_at(block, 9),
        }
    }

    /// The block of that operation code, with each free bit 0.
    fn block(&self, operation_code: u8) -> [u8; 16]
        requires { AreFilled (synchronize10 self.now) }
        ensures room { HaveRoom (code_row operation_code ∷ synchronize10 self.now) }
        ensures written { result
            ≡ put_all (code_row operation_code ∷ synchronize10 self.now) (replicate 16 0) }
    {
        let mut out = [0; 16];
        put_u8(&mut out, 0, operation_code);
        put_number(&mut out, 1, 0x06, self.options);
        put_u32(&mut out, 2, self.logical_block_address);
        put_number(&mut out, 6, 0x1f, self.group_number);
        put_u16(&mut out, 7, self.blocks);
        put_u8(&mut out, 9, self.control);
        out
    }
}

impl Cdb {
    /// The one record of a block.
    pub fn read(block: &[u8; 16]) -> Cdb
        ensures value { result ≡ record_of block.now }
        // The table of descriptor blocks gives this record for the block, and no other.
        ensures means { IsRecord block.now result }
        ensures only { (c : Cdb) → IsRecord block.now c → result ≡ c }
        ensures fits { CdbFits result }
    {
        Cdb::record_of(block)
    }

    /// `read` with the one fact from which its others follow: so these are proved once, and not in each arm.
    #[tactic(auto, using(crate::proofs::RecordLemmas::is_unknown))]
    fn record_of(block: &[u8; 16]) -> Cdb
        ensures { IsRecord block.now result }
    {
        match u8_at(block, 0) {
            0x00 => Cdb::TestUnitReady {
                control: u8_at(block, 5),
            },
            0x12 => Cdb::Inquiry {
                evpd: bit(block, 1, 0x01),
                page: u8_at(block, 2),
                allocation_length: u16_at(block, 3),
                control: u8_at(block, 5),
            },
            0x25 => Cdb::Capacity10 {
                control: u8_at(block, 9),
            },
            0x28 => Cdb::Read10(Transfer10::read(block)),
            0x2a => Cdb::Write10(Transfer10::read(block)),
            0x35 => Cdb::SyncCache10(Synchronize10::read(block)),
            0x88 => Cdb::Read16(Transfer16::read(block)),
            0x8a => Cdb::Write16(Transfer16::read(block)),
            0x9e => Cdb::read_service(block),
            0xa0 => Cdb::ReportLuns {
                select: u8_at(block, 2),
                allocation_length: u32_at(block, 6),
                control: u8_at(block, 11),
            },
            _ => Cdb::Unknown(*block),
        }
    }

    /// The record of a block of code 9e, whose service action decides.
    #[tactic(auto, using(crate::proofs::RecordLemmas::is_unknown))]
    fn read_service(block: &[u8; 16]) -> Cdb
        requires { number_at 0 0 block.now ≡ 0x9e }
        ensures { IsRecord block.now result }
    {
        if bits(block, 1, 0x1f) == 0x10 {
            Cdb::Capacity16 {
                allocation_length: u32_at(block, 10),
                control: u8_at(block, 15),
            }
        } else {
            Cdb::Unknown(*block)
        }
    }

    /// The one block of a record in which each free bit is 0.
    ///
    /// The record has to fit the table. That is, a group number is at most 31, and the options of a
    /// SYNCHRONIZE CACHE are at most 3. An `Unknown` has a block of no other record.
    pub fn write(&self) -> [u8; 16]
        requires { CdbFits self.now }
        ensures canonical { result ≡ canonical self.now }
        // The block has this record, and no other.
        ensures back { (c : Cdb) → IsRecord result c ↔ (c ≡ self.now) }
    {
        self.canonical()
    }

    /// `write` with the facts from which its last clause follows: so that is proved once, and not in each arm.
    fn canonical(&self) -> [u8; 16]
        requires { CdbFits self.now }
        ensures written { result ≡ canonical self.now }
        ensures room { HaveRoom (cdb_rows self.now) }
    {
        match self {
            Cdb::TestUnitReady { control } => control_block(0x00, 5, *control),
            Cdb::Inquiry {
                evpd,
                page,
                allocation_length,
                control,
            } => inquiry_block(*evpd, *page, *allocation_length, *control),
            Cdb::Capacity10 { control } => control_block(0x25, 9, *control),
            Cdb::Read10(transfer) => transfer.block(0x28),
            Cdb::Write10(transfer) => transfer.block(0x2a),
            Cdb::SyncCache10(synchronize) => synchronize.block(0x35),
            Cdb::Read16(transfer) => transfer.block(0x88),
            Cdb::Write16(transfer) => transfer.block(0x8a),
            Cdb::Capacity16 {
                allocation_length,
                control,
            } => capacity16_block(*allocation_length, *control),
            Cdb::ReportLuns {
                select,
                allocation_length,
                control,
            } => report_luns_block(*select, *allocation_length, *control),
            Cdb::Unknown(block) => unknown_block(block),
        }
    }
}

/// The block of a command whose one field is the control byte.
fn control_block(operation_code: u8, at: usize, control: u8) -> [u8; 16]
    requires { at < 16 }
    ensures room { HaveRoom (code_row operation_code ∷ bytes at at (always control) ∷ []) }
    ensures written { result
        ≡ put_all (code_row operation_code ∷ bytes at at (always control) ∷ []) (replicate 16 0) }
{
    let mut out = [0; 16];
    put_u8(&mut out, 0, operation_code);
    put_u8(&mut out, at, control);
    out
}

fn inquiry_block(evpd: bool, page: u8, allocation_length: u16, control: u8) -> [u8; 16]
    ensures room { HaveRoom (cdb_rows (records.Inquiry evpd page allocation_length control)) }
    ensures written { result ≡ canonical (records.Inquiry evpd page allocation_length control) }
{
    let mut out = [0; 16];
    put_u8(&mut out, 0, 0x12);
    put_bit(&mut out, 1, 0x01, evpd);
    put_u8(&mut out, 2, page);
    put_u16(&mut out, 3, allocation_length);
    put_u8(&mut out, 5, control);
    out
}

fn capacity16_block(allocation_length: u32, control: u8) -> [u8; 16]
    ensures room { HaveRoom (cdb_rows (records.Capacity16 allocation_length control)) }
    ensures written { result ≡ canonical (records.Capacity16 allocation_length control) }
{
    let mut out = [0; 16];
    put_u8(&mut out, 0, 0x9e);
    put_number(&mut out, 1, 0x1f, 0x10);
    put_u32(&mut out, 10, allocation_length);
    put_u8(&mut out, 15, control);
    out
}

fn report_luns_block(select: u8, allocation_length: u32, control: u8) -> [u8; 16]
    ensures room { HaveRoom (cdb_rows (records.ReportLuns select allocation_length control)) }
    ensures written { result ≡ canonical (records.ReportLuns select allocation_length control) }
{
    let mut out = [0; 16];
    put_u8(&mut out, 0, 0xa0);
    put_u8(&mut out, 2, select);
    put_u32(&mut out, 6, allocation_length);
    put_u8(&mut out, 11, control);
    out
}

fn unknown_block(block: &[u8; 16]) -> [u8; 16]
    ensures room { HaveRoom (cdb_rows (records.Unknown block.now)) }
    ensures written { result ≡ canonical (records.Unknown block.now) }
{
    let mut out = [0; 16];
    put_raw(&mut out, 0, block);
    out
}
