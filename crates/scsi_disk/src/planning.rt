//! What an order leads to, before a block is touched (SPC-4 and SBC-3).

ghost use Rattle.std.specs.Prelude.{◌≡◌, ◌*◌, ◌-◌, ◌<◌, ◌≤◌, ◌||◌, ◌&&◌, is_none, is_some, option_map, None};
ghost use Rattle.scsi_disk.specs.Plan.{named_transfer, synchronized, taken_length, is_write, is_read, is_unknown, is_standard_inquiry, parameter_data, first_refusal, expected_length, plan_of};
ghost use Rattle.scsi_disk.specs.Found.{IsFound};
ghost use Rattle.scsi_disk.specs.inner.Found.{named_blocks};

use crate::command::{Command, NO_BLOCKS};
use crate::found::{Found, Work};
use crate::order::{Order, Plan};
use arrayvec::ArrayVec;
use scsi_cdb::{Cdb, Sense};

/// The most blocks of one READ or WRITE (own rule).
pub const LONGEST_TRANSFER: u32 = 8192;

/// RDPROTECT or WRPROTECT, in the options of a READ or WRITE (SBC-3).
const PROTECTION: u8 = 0xe0;

/// WRITE(10) or WRITE(16).
pub(crate) fn is_write(cdb: &Cdb) -> bool
    ensures { result ≡ is_write cdb.now }
{
    matches!(cdb, Cdb::Write10(_) | Cdb::Write16(_))
}

impl Order {
    /// It is a WRITE, which alone takes data.
    pub fn is_write(&self) -> bool
        ensures { result ≡ is_write self.now.cdb }
    {
        is_write(&self.cdb)
    }
}

/// A block of no known command.
fn is_unknown(cdb: &Cdb) -> bool
    ensures { result ≡ is_unknown cdb.now }
{
    matches!(cdb, Cdb::Unknown(_))
}

/// An INQUIRY for the standard data.
fn is_standard_inquiry(cdb: &Cdb) -> bool
    ensures { result ≡ is_standard_inquiry cdb.now }
{
    matches!(cdb, Cdb::Inquiry { evpd: false, .. })
}

/// The first reason to refuse an order whose command names and tells this, in the order of the list of
/// reasons.
fn refusal(order: &Order, command: &Command, blocks: u64) -> Option<Sense>
    requires transfer { named_blocks command.now.transfer ≡ named_transfer order.now.cdb }
    requires flushed { named_blocks command.now.flushed ≡ synchronized order.now.cdb }
    requires told { option_map (λ v. v.items) command.now.told ≡ parameter_data order.now blocks }
    ensures { result ≡ first_refusal order.now blocks }
{
    let cdb = &order.cdb;
    if is_unknown(cdb) {
        return Some(Sense::InvalidCode);
    }
    if order.lun != 0 && !is_standard_inquiry(cdb) {
        return Some(Sense::NoUnit);
    }
    if order.write && (order.read || !is_write(cdb)) {
        return Some(Sense::InvalidField);
    }
    // A command that names no blocks has no reason of these.
    let transfer = command.transfer.unwrap_or(NO_BLOCKS);
    if transfer.options & PROTECTION != 0
        || command.told.is_none()
        || transfer.count > LONGEST_TRANSFER
        || order.deed.is_twofold() && transfer.count > 1
    {
        return Some(Sense::InvalidField);
    }
    if transfer.ends_past(blocks) {
        return Some(Sense::OutOfRange);
    }
    if is_write(cdb)
        && (order.expected != order.deed.taken(transfer.count)
            || !order.write && order.expected > 0)
    {
        return Some(Sense::InvalidField);
    }
    if command.flushed.unwrap_or(NO_BLOCKS).ends_past(blocks) {
        return Some(Sense::OutOfRange);
    }
    None
}

/// What the initiator expects, which a residual is counted from: nothing, where it names no
/// direction, or only data that the command does not take.
pub(crate) fn expected_length(order: &Order) -> u32
    ensures { result ≡ expected_length order.now }
{
    let takes = order.write && (is_write(&order.cdb) || is_unknown(&order.cdb));
    if order.read || takes {
        order.expected
    } else {
        0
    }
}

impl Found {
    /// What is found of an order, on a disk of `n` blocks.
    pub fn of(order: &Order, blocks: u64) -> Found
        ensures is { IsFound order.now result }
        ensures blocks { result.blocks ≡ blocks }
    {
        let command = Command::of(order, blocks);
        match refusal(order, &command, blocks) {
            Some(sense) => Found {
                blocks,
                work: Work::Refuse(sense),
            },
            None => Found::unrefused(order, command, blocks),
        }
    }

    /// The same by the plan of the order, where that is made.
    pub(crate) fn by_plan(order: &Order, planned: Plan, blocks: u64) -> Found
        requires planned { planned ≡ plan_of order.now blocks }
        ensures is { IsFound order.now result }
        ensures blocks { result.blocks ≡ blocks }
    {
        match planned {
            Plan::Refuse(sense) => Found {
                blocks,
                work: Work::Refuse(sense),
            },
            Plan::Take(_) | Plan::Give(_) => {
                Found::unrefused(order, Command::of(order, blocks), blocks)
            }
        }
    }

    /// What is found of an order that is not refused, by what its command names and tells.
    #[tactic(auto, using(crate::proofs::PlanLemmas::unrefused))]
    fn unrefused(order: &Order, command: Command, blocks: u64) -> Found
        requires transfer { named_blocks command.transfer ≡ named_transfer order.now.cdb }
        requires kind { is_some command.transfer ≡ (is_read order.now.cdb || is_write order.now.cdb) }
        requires told { option_map (λ v. v.items) command.told ≡ parameter_data order.now blocks }
        requires unrefused { first_refusal order.now blocks ≡ None }
        ensures is { IsFound order.now result }
        ensures blocks { result.blocks ≡ blocks }
    {
        let work = match command.transfer {
            Some(transfer) if is_write(&order.cdb) => Work::Write(transfer.range()),
            Some(transfer) => Work::Read(transfer.range()),
            None => match command.told {
                Some(told) => Work::Tell(told),
                None => Work::Tell(ArrayVec::new()),
            },
        };
        Found { blocks, work }
    }

    /// Finds anew, where it is not of a disk of `n` blocks.
    pub fn renew(&mut self, order: &Order, blocks: u64)
        requires { IsFound order.now self.old }
        ensures is { IsFound order.now self.new }
        ensures blocks { self.new.blocks ≡ blocks }
    {
        if self.blocks != blocks {
            *self = Found::of(order, blocks);
        }
    }

    /// The plan of the order of which it was found.
    pub fn plan(&self, order: &Order) -> Plan
        requires is { IsFound order.now self.now }
        ensures { result ≡ plan_of order.now self.now.blocks }
    {
        match &self.work {
            Work::Refuse(sense) => Plan::Refuse(*sense),
            Work::Write(range) => Plan::Take(order.deed.taken(range.count)),
            Work::Read(range) => Plan::Give((512 * range.count).min(expected_length(order))),
            Work::Tell(data) => Plan::Give((data.len() as u32).min(expected_length(order))),
        }
    }
}

/// What an order leads to, on a disk of `n` blocks.
///
/// It is refused for the first of these reasons that applies:
/// 1. `InvalidCode`: its command is unknown.
/// 2. `NoUnit`: its unit is not 0. An INQUIRY for the standard data is answered for any unit.
/// 3. `InvalidField`: it has data both ways, or sends data to a command that is no WRITE.
/// 4. `InvalidField`: it asks for protection, or for a page or a report that there is not.
/// 5. `InvalidField`: it is over 8,192 blocks, or over one whose data come twice.
/// 6. `OutOfRange`: its blocks end past the last one, also those of a SYNCHRONIZE CACHE, to which
///    the limit of 8,192 blocks does not apply. No blocks at the end are in range.
/// 7. `InvalidField`: it is a WRITE whose expected length is not what it takes, or that takes data and
///    sends none. How much it takes its `Deed` says.
///
/// Else a WRITE takes that, and another command gives the lesser of what it has and what the initiator
/// expects. The commands are those of SPC-4 and SBC-3; the order of the
/// reasons, the sense of each and the limit of 8,192 blocks are own rules.
pub fn plan(order: &Order, blocks: u64) -> Plan
    ensures { result ≡ plan_of order.now blocks }
{
    Found::of(order, blocks).plan(order)
}
