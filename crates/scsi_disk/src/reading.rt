//! READs of whole blocks, whose data a caller takes from the store itself.

ghost use Rattle.std.specs.Prelude.{◌≡◌, ◌+◌, nat_lt, [], IfOk, IsOk, IsSome};
ghost use Rattle.scsi_disk.specs.Plan.{plan_of, wanted_length};
ghost use Rattle.scsi_disk.specs.Found.{IsFound};
ghost use Rattle.scsi_disk.specs.Effect.{good_outcome, check_condition};
ghost use Rattle.scsi_disk.specs.Reading.{whole_blocks};
ghost use Rattle.scsi_cdb.specs.declared.sense.Sense.TheVariants.{ReadError};

use crate::found::{Found, Work};
use crate::order::{Order, Outcome};
use crate::planning::expected_length;
use crate::store::StoreFault;
use scsi_cdb::Sense;
use std::alloc::{AllocError, Global};

/// Blocks that lie one behind the other.
#[derive(Clone, Copy, Debug, PartialEq, Eq)]
pub struct BlockRange {
    /// The first of them.
    pub first: u64,
    /// How many there are.
    pub count: u32,
}

impl BlockRange {
    /// It ends past `n` blocks, also where its end is not below 2^64.
    pub(crate) fn ends_past(&self, blocks: u64) -> bool
        ensures { result ≡ nat_lt blocks (self.now.first + self.now.count) }
    {
        match self.first.checked_add(u64::from(self.count)) {
            Some(end) => blocks < end,
            None => true,
        }
    }
}

impl Found {
    /// The blocks that the order of which it was found gives, where it is a READ that gives whole
    /// ones. A caller may read them by `BlockStore::read_onto`, in as many parts as it likes, and
    /// answer by `read_outcome` or `failed_read` in place of `execute_found`.
    pub fn whole_blocks(&self, order: &Order) -> Option<BlockRange>
        requires { IsFound order.now self.now }
        ensures { result ≡ whole_blocks order.now (plan_of order.now self.now.blocks) }
    {
        let Work::Read(range) = &self.work else {
            return None;
        };
        let length = (512 * range.count).min(expected_length(order));
        if length % 512 != 0 {
            return None;
        }
        Some(BlockRange {
            first: range.first,
            count: length / 512,
        })
    }

    /// The outcome of the order of which it was found, a READ whose blocks were read: GOOD. Its data,
    /// which the caller has, are left out.
    pub fn read_outcome(&self, alloc: Global, order: &Order) -> Outcome
        requires found { IsFound order.now self.now }
        requires gives { IsSome (whole_blocks order.now (plan_of order.now self.now.blocks)) }
        ensures { result ≡ good_outcome order.now (wanted_length order.now self.now.blocks) [] }
    {
        let wanted = match &self.work {
            Work::Read(range) => 512 * range.count,
            Work::Refuse(_) | Work::Write(_) | Work::Tell(_) => 0,
        };
        Outcome::good(order, wanted, Vec::new(alloc))
    }
}

/// The outcome of a READ whose blocks could not be read for this fault: CHECK CONDITION with
/// `ReadError`, or an error where memory ran out.
pub fn failed_read(alloc: Global, order: &Order, fault: StoreFault) -> Result<Outcome, AllocError>
    ensures ok { IfOk result (λ outcome. (fault ≡ StoreFault.Device)
        × (outcome ≡ check_condition order.now ReadError)) }
    ensures device { fault ≡ StoreFault.Device → IsOk result }
{
    match fault {
        StoreFault::NoMemory => Err(AllocError),
        StoreFault::Device => Ok(Outcome::check_condition(alloc, order, Sense::ReadError)),
    }
}
