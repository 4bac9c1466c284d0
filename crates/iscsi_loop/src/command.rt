//! The commands of a script, and the requests that they are.

ghost use Rattle.std.specs.Prelude.{◌≡◌, IfOk};
ghost use Rattle.scsi_cdb.specs.Blocks.{CdbFits};
ghost use Rattle.iscsi_loop.specs.Commands.{command_request, is_logout, data_in_request, write_request};
ghost use Rattle.iscsi_loop.specs.inner.Commands.{HasNumbers};

use iscsi_initiator::Request;
use scsi_cdb::{Bytes, Cdb};
use std::alloc::{AllocError, Global};

/// A command of a script.
#[derive(Drop)]
pub enum Command {
    /// TEST UNIT READY of a unit.
    TestUnitReady {
        /// The unit's number.
        unit: u8,
    },
    /// INQUIRY of a unit, for its standard data.
    Inquiry {
        /// The unit's number.
        unit: u8,
        /// The most bytes that are given.
        allocation_length: u16,
    },
    /// READ CAPACITY(10) of unit 0.
    Capacity,
    /// READ CAPACITY(16) of unit 0.
    Capacity16,
    /// REPORT LUNS, for the list of code 00 with room for one unit.
    Luns,
    /// READ(10) of unit 0, or READ(16) where that has no room for the first block.
    Read {
        /// The first block.
        logical_block_address: u64,
        /// How many blocks of 512 bytes.
        blocks: u16,
    },
    /// WRITE(10) of unit 0, or WRITE(16) where that has no room for the first block.
    Write {
        /// The first block.
        logical_block_address: u64,
        /// How many blocks of 512 bytes.
        blocks: u16,
        /// Each byte of each block.
        byte: u8,
    },
    /// SYNCHRONIZE CACHE(10) of unit 0.
    Sync {
        /// The first block.
        logical_block_address: u32,
        /// How many blocks of 512 bytes; 0 is all up to the last one.
        blocks: u16,
    },
    /// A NOP-Out that is answered.
    Ping(Bytes),
    /// The end of the session.
    Logout,
}

impl Command {
    /// Whether it ends the session.
    pub fn is_logout(&self) -> bool
        ensures { result ≡ is_logout self.now }
    {
        matches!(self, Command::Logout)
    }

    /// What an initiator is asked for: the command's descriptor block, and as many bytes as it can
    /// give (SPC-4 and SBC-3). The unit's number is byte 1 of the LUN (SAM-5, section 4.7).
    pub fn into_request(self, alloc: Global) -> Result<Request, AllocError>
        ensures request { IfOk result (λ request. request ≡ command_request self) }
        ensures numbers { HasNumbers self }
    {
        match self {
            Command::TestUnitReady { unit } => {
                Ok(data_in_request(unit, Cdb::TestUnitReady { control: 0 }, 0))
            }
            Command::Inquiry {
                unit,
                allocation_length,
            } => Ok(data_in_request(
                unit,
                Cdb::standard_inquiry(allocation_length),
                u32::from(allocation_length),
            )),
            Command::Capacity => Ok(data_in_request(0, Cdb::Capacity10 { control: 0 }, 8)),
            Command::Capacity16 => Ok(data_in_request(0, Cdb::long_capacity(32), 32)),
            Command::Luns => Ok(data_in_request(0, Cdb::unit_list(16), 16)),
            Command::Read {
                logical_block_address,
                blocks,
            } => Ok(data_in_request(
                0,
                Cdb::reading(logical_block_address, blocks),
                512 * u32::from(blocks),
            )),
            Command::Write {
                logical_block_address,
                blocks,
                byte,
            } => written(alloc, logical_block_address, blocks, byte),
            Command::Sync {
                logical_block_address,
                blocks,
            } => Ok(data_in_request(0, Cdb::flush(logical_block_address, blocks), 0)),
            Command::Ping(bytes) => Ok(Request::Ping { bytes }),
            Command::Logout => Ok(Request::Logout),
        }
    }
}

// A command that may return `n` bytes.
fn data_in_request(unit: u8, cdb: Cdb, expected: u32) -> Request
    requires { CdbFits cdb }
    ensures { result ≡ data_in_request unit cdb expected }
{
    Request::In {
        lun: u64::from(unit) << 48,
        cdb: cdb.write(),
        expected,
    }
}

// A command that takes blocks of one byte.
fn written(
    alloc: Global,
    logical_block_address: u64,
    blocks: u16,
    byte: u8,
) -> Result<Request, AllocError>
    ensures { IfOk result (λ request. request ≡ write_request logical_block_address blocks byte) }
{
    let bytes = vec![in alloc; byte; 512 * usize::from(blocks)]?;
    Ok(Request::Out {
        lun: 0,
        cdb: Cdb::writing(logical_block_address, blocks).write(),
        bytes: Bytes::from_vec(bytes),
    })
}
