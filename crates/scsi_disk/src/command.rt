//! What a command names of the disk and tells of it. Each command, or family of commands, has a file;
//! here is an arm for it.

ghost use Rattle.std.specs.Prelude.{◌≡◌, ◌≤◌, ◌||◌, None, Some, is_some, [], length, option_map, take};
ghost use Rattle.scsi_disk.specs.Plan.{named_transfer, synchronized, is_write, is_read, parameter_data};
ghost use Rattle.scsi_disk.specs.inner.Found.{named_blocks};

mod capacity;
mod inquiry;
mod report_luns;
mod synchronize;
mod transfer;

use crate::order::Order;
use arrayvec::ArrayVec;
use scsi_cdb::Cdb;
pub(crate) use transfer::{NO_BLOCKS, Transfer};

/// What a command names and tells.
#[derive(Drop)]
pub(crate) struct Command {
    /// The blocks of a READ or a WRITE.
    pub transfer: Option<Transfer>,
    /// The blocks of a SYNCHRONIZE CACHE.
    pub flushed: Option<Transfer>,
    /// The data that a command other than a READ gives, or None for a page or a report that there is
    /// not.
    pub told: Option<ArrayVec<u8, 36>>,
}

impl Command {
    /// What the command of an order names and tells, on a disk of `n` blocks.
    pub(crate) fn of(order: &Order, blocks: u64) -> Command
        ensures transfer { named_blocks result.transfer ≡ named_transfer order.now.cdb }
        ensures kind { is_some result.transfer ≡ (is_read order.now.cdb || is_write order.now.cdb) }
        ensures flushed { named_blocks result.flushed ≡ synchronized order.now.cdb }
        ensures told { option_map (λ v. v.items) result.told ≡ parameter_data order.now blocks }
    {
        let last = blocks.saturating_sub(1);
        match order.cdb {
            Cdb::TestUnitReady { .. } | Cdb::Unknown(_) => Command::telling(Some(ArrayVec::new())),
            Cdb::Inquiry {
                evpd: true,
                page,
                allocation_length,
                ..
            } => Command::telling(inquiry::told_page(page, allocation_length)),
            Cdb::Inquiry {
                evpd: false,
                page,
                allocation_length,
                ..
            } => {
                Command::telling(inquiry::told_standard(order.lun == 0, page, allocation_length))
            }
            Cdb::Capacity10 { .. } => Command::telling(Some(capacity::told10(last))),
            Cdb::Capacity16 {
                allocation_length,
                ..
            } => { Command::telling(Some(capacity::told16(last, allocation_length))) }
            Cdb::ReportLuns {
                select,
                allocation_length,
                ..
            } => Command::telling(report_luns::told(select, allocation_length)),
            Cdb::Read10(named) | Cdb::Write10(named) => {
                Command::moving(transfer::named10(&named))
            }
            Cdb::Read16(named) | Cdb::Write16(named) => {
                Command::moving(transfer::named16(&named))
            }
            Cdb::SyncCache10(named) => Command {
                transfer: None,
                flushed: Some(synchronize::named(&named)),
                told: Some(ArrayVec::new()),
            },
        }
    }

    /// It tells these data and names no blocks.
    fn telling(told: Option<ArrayVec<u8, 36>>) -> Command
        ensures transfer { result.transfer ≡ None }
        ensures flushed { result.flushed ≡ None }
        ensures told { result.told ≡ told }
    {
        Command {
            transfer: None,
            flushed: None,
            told,
        }
    }

    /// It reads or writes these blocks.
    fn moving(transfer: Transfer) -> Command
        ensures transfer { result.transfer ≡ Some transfer }
        ensures flushed { result.flushed ≡ None }
        ensures told { option_map (λ v. v.items) result.told ≡ Some [] }
    {
        Command {
            transfer: Some(transfer),
            flushed: None,
            told: Some(ArrayVec::new()),
        }
    }
}

/// At most `n` bytes of these, as a short list.
fn at_most(bytes: &[u8], most: usize) -> ArrayVec<u8, 36>
    requires { length bytes.now ≤ 36 }
    ensures { result.items ≡ take most bytes.now }
{
    let mut list = ArrayVec::new();
    let _ = list.try_extend_from_slice(&bytes[..most.min(bytes.len())]);
    list
}
