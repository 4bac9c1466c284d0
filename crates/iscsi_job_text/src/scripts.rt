//! The lines of `loop`'s scripts: what each asks.

ghost use Rattle.std.specs.Prelude.{◌≡◌, ◌≤◌, None, IfOk, IfErr, OnErr};
ghost use Rattle.scsi_cdb.specs.Blocks.{CdbFits};
ghost use Rattle.iscsi_job_text.specs.Requests.{without_data, script_unit_ready, script_inquiry, script_read, script_sync, script_write, script_write_of, script_data_in};
ghost use Rattle.iscsi_job_text.specs.Faults.{RefusesOnly};

use crate::fault::{LineFault, LineReason};
use crate::words::Words;
use iscsi_job::{Asked, Moves};
use scsi_cdb::Cdb;
use std::alloc::Global;

// The names of requests.
const TUR: &[u8] = b"tur";

const INQUIRY: &[u8] = b"inquiry";

const CAPACITY: &[u8] = b"capacity";

const CAPACITY_16: &[u8] = b"capacity16";

const LUNS: &[u8] = b"luns";

const READ: &[u8] = b"read";

const SYNC: &[u8] = b"sync";

const LOGOUT: &[u8] = b"logout";

const TASK: &[u8] = b"task";

/// The most blocks of one transfer.
const LONGEST_TRANSFER: u64 = 8192;

/// What a request with this name asks, which sends no bytes.
pub(crate) fn without_data(name: &[u8], words: &mut Words<'_>) -> Result<Asked, LineReason>
    ensures reads { IfOk result (λ found.
        without_data name.now words.old ≡ Some (found, words.new)) }
    ensures refuses { OnErr result (without_data name.now words.old ≡ None) }
{
    if name == TUR {
        test_unit_ready(words)
    } else if name == INQUIRY {
        inquiry(words)
    } else if name == CAPACITY {
        Ok(data_in(0, Cdb::Capacity10 { control: 0 }, 8))
    } else if name == CAPACITY_16 {
        Ok(data_in(0, Cdb::long_capacity(32), 32))
    } else if name == LUNS {
        Ok(data_in(0, Cdb::unit_list(16), 16))
    } else if name == READ {
        read(words)
    } else if name == SYNC {
        sync(words)
    } else if name == LOGOUT {
        Ok(Asked::Logout)
    } else if name == TASK {
        Ok(Asked::Task(words.byte()?))
    } else {
        Err(LineReason::Request)
    }
}

fn test_unit_ready(words: &mut Words<'_>) -> Result<Asked, LineReason>
    ensures reads { IfOk result (λ found. script_unit_ready words.old ≡ Some (found, words.new)) }
    ensures refuses { OnErr result (script_unit_ready words.old ≡ None) }
{
    let unit = words.number(255)? as u8;
    Ok(data_in(unit, Cdb::TestUnitReady { control: 0 }, 0))
}

fn inquiry(words: &mut Words<'_>) -> Result<Asked, LineReason>
    ensures reads { IfOk result (λ found. script_inquiry words.old ≡ Some (found, words.new)) }
    ensures refuses { OnErr result (script_inquiry words.old ≡ None) }
{
    let unit = words.number(255)? as u8;
    let length = words.number(65_535)? as u16;
    Ok(data_in(unit, Cdb::standard_inquiry(length), u32::from(length)))
}

fn read(words: &mut Words<'_>) -> Result<Asked, LineReason>
    ensures reads { IfOk result (λ found. script_read words.old ≡ Some (found, words.new)) }
    ensures refuses { OnErr result (script_read words.old ≡ None) }
{
    let address = words.number(u64::MAX)?;
    let blocks = words.number(LONGEST_TRANSFER)? as u16;
    Ok(data_in(0, Cdb::reading(address, blocks), 512 * u32::from(blocks)))
}

fn sync(words: &mut Words<'_>) -> Result<Asked, LineReason>
    ensures reads { IfOk result (λ found. script_sync words.old ≡ Some (found, words.new)) }
    ensures refuses { OnErr result (script_sync words.old ≡ None) }
{
    let address = words.number(u64::from(u32::MAX))? as u32;
    let blocks = words.number(65_535)? as u16;
    Ok(data_in(0, Cdb::flush(address, blocks), 0))
}

/// A write of blocks whose bytes are all the same, and these bytes.
pub(crate) fn blocks_of_one_byte(
    alloc: Global,
    words: &mut Words<'_>,
) -> Result<(Asked, Vec<u8>), LineFault>
    ensures reads { IfOk result (λ found.
        script_write words.old ≡ Some ((found.0, found.1.items), words.new)) }
    ensures refuses { IfErr result (RefusesOnly (script_write words.old)) }
{
    let address = words.number(u64::MAX)?;
    let blocks = words.number(LONGEST_TRANSFER)? as u16;
    let byte = words.byte()?;
    let asked = write_of(address, blocks);
    Ok((asked, vec![in alloc; byte; 512 * usize::from(blocks)]?))
}

fn write_of(address: u64, blocks: u16) -> Asked
    requires { blocks ≤ 8192 }
    ensures { result ≡ script_write_of address blocks }
{
    Asked::Command {
        lun: 0,
        cdb: Cdb::writing(address, blocks).write(),
        moves: if blocks > 0 {
            Moves::Out
        } else {
            Moves::Nothing
        },
        expected: 512 * u32::from(blocks),
    }
}

// A command that may return bytes.
fn data_in(unit: u8, cdb: Cdb, expected: u32) -> Asked
    requires { CdbFits cdb }
    ensures { result ≡ script_data_in unit cdb expected }
{
    Asked::Command {
        lun: u64::from(unit) << 48,
        cdb: cdb.write(),
        moves: if expected > 0 {
            Moves::In
        } else {
            Moves::Nothing
        },
        expected,
    }
}
