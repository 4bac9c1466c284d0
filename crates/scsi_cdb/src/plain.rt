//! Commands in which each field that says nothing of blocks or lengths is 0 (SPC-4 and SBC-3).

ghost use Rattle.std.specs.Prelude.{◌≡◌, false};
ghost use Rattle.scsi_cdb.specs.declared.cdb.Cdb.TheVariants as cdb;
ghost use Rattle.scsi_cdb.specs.Blocks.{CdbFits};
ghost use Rattle.scsi_cdb.specs.Plain.{flush, long_transfer, reading, plain_transfer, writing};

use crate::cdb::{Cdb, Synchronize10, Transfer10, Transfer16};

/// The first block for which a READ(10) or WRITE(10) has no room (SBC-3).
const FIRST_LONG_ADDRESS: u64 = 4_294_967_296;

impl Cdb {
    /// A READ of blocks from this one on: READ(10), or READ(16) where that has no room for the first.
    pub fn reading(logical_block_address: u64, blocks: u16) -> Cdb
        ensures block { result ≡ reading logical_block_address blocks }
        ensures fits { CdbFits result }
    {
        if logical_block_address < FIRST_LONG_ADDRESS {
            Cdb::Read10(transfer(logical_block_address as u32, blocks))
        } else {
            Cdb::Read16(long_transfer(logical_block_address, blocks))
        }
    }

    /// A WRITE of blocks from this one on: WRITE(10), or WRITE(16) where that has no room for the
    /// first.
    pub fn writing(logical_block_address: u64, blocks: u16) -> Cdb
        ensures block { result ≡ writing logical_block_address blocks }
        ensures fits { CdbFits result }
    {
        if logical_block_address < FIRST_LONG_ADDRESS {
            Cdb::Write10(transfer(logical_block_address as u32, blocks))
        } else {
            Cdb::Write16(long_transfer(logical_block_address, blocks))
        }
    }

    /// A SYNCHRONIZE CACHE(10) of blocks from this one on; 0 of them are all up to the last one.
    pub fn flush(logical_block_address: u32, blocks: u16) -> Cdb
        ensures block { result ≡ flush logical_block_address blocks }
        ensures fits { CdbFits result }
    {
        Cdb::SyncCache10(Synchronize10 {
            options: 0,
            logical_block_address,
            group_number: 0,
            blocks,
            control: 0,
        })
    }

    /// An INQUIRY for the standard data, of at most this many bytes.
    pub fn standard_inquiry(allocation_length: u16) -> Cdb
        ensures block { result ≡ cdb.Inquiry false 0 allocation_length 0 }
        ensures fits { CdbFits result }
    {
        Cdb::Inquiry {
            evpd: false,
            page: 0,
            allocation_length,
            control: 0,
        }
    }

    /// A READ CAPACITY(16) for at most this many bytes.
    pub fn long_capacity(allocation_length: u32) -> Cdb
        ensures block { result ≡ cdb.Capacity16 allocation_length 0 }
        ensures fits { CdbFits result }
    {
        Cdb::Capacity16 {
            allocation_length,
            control: 0,
        }
    }

    /// A REPORT LUNS for the list of code 00, of at most this many bytes.
    pub fn unit_list(allocation_length: u32) -> Cdb
        ensures block { result ≡ cdb.ReportLuns 0 allocation_length 0 }
        ensures fits { CdbFits result }
    {
        Cdb::ReportLuns {
            select: 0,
            allocation_length,
            control: 0,
        }
    }
}

fn transfer(logical_block_address: u32, blocks: u16) -> Transfer10
    ensures { result ≡ plain_transfer logical_block_address blocks }
{
    Transfer10 {
        options: 0,
        logical_block_address,
        group_number: 0,
        blocks,
        control: 0,
    }
}

fn long_transfer(logical_block_address: u64, blocks: u16) -> Transfer16
    ensures { result ≡ long_transfer logical_block_address blocks }
{
    Transfer16 {
        options: 0,
        logical_block_address,
        blocks: u32::from(blocks),
        group_number: 0,
        control: 0,
    }
}
