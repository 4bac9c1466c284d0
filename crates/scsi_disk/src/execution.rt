//! What an order does to a store, and its answer. One file, half of which is contracts.

ghost use Rattle.std.specs.Prelude.{◌≡◌, ◌+◌, ◌*◌, ◌/◌, ◌<◌, ◌≤◌, ◌^◌, ◌&&◌, length as size, min, true, false, None, [], take as front, OnOk, OnErr, IfOk, IsOk, IsErr, IsErrOf};
ghost use Rattle.std.specs.List.{repeat};
ghost use Rattle.scsi_disk.specs.Disk.{StoreTellsFailures, IsOldOrNew, blocks_from, zero_block};
ghost use Rattle.scsi_disk.specs.Lasting.{CrashAddsDisk, LastsOnceSynced, Within};
ghost use Rattle.scsi_disk.specs.Plan.{is_read, taken_length, expected_length, plan_of};
ghost use Rattle.scsi_disk.specs.Found.{IsFound, NamesFewBlocks, plan_by_work};
ghost use Rattle.scsi_disk.specs.declared.found.Work.TheVariants.{Read};
ghost use Rattle.scsi_disk.specs.Deed.{compares, first_other, miscompare, writes};
ghost use Rattle.scsi_disk.specs.Effect.{IsSupplied, IsSuppliedBy, OrderExecuted, deed_failure, disk_aimed, disk_done, residual_of, good_outcome, data_given, check_condition, HasOtherData, outcome_by};
ghost use Rattle.scsi_disk.specs.inner.Taken.{IsTakenBy, IsUndone, IsVerified};

use crate::deed::{Deed, first_other, unmap_range, unmap_refusal};
use crate::found::{Found, Work};
use crate::order::{Order, Outcome, Plan};
use crate::planning::expected_length;
use crate::reading::BlockRange;
use crate::store::{BlockStore, StoreFault};
use scsi_cdb::{Bytes, Residual, Sense};
use std::alloc::{AllocError, Global};

/// The status of a command that was done (SPC-4).
const GOOD: u8 = 0x00;

/// The status of a command that failed, for the reason that its sense data give (SPC-4).
const CHECK_CONDITION: u8 = 0x02;

/// How the bytes that a command has differ from those that were expected.
fn residual(wanted: u32, expected: u32) -> Residual
    ensures { result ≡ residual_of wanted expected }
{
    if wanted < expected {
        Residual::Under(expected - wanted)
    } else if expected < wanted {
        Residual::Over(wanted - expected)
    } else {
        Residual::Exact
    }
}

impl Outcome {
    /// GOOD, for a command that has `wanted` bytes for its initiator, of which these go to it. How
    /// they differ from what the initiator expects is the residual (own rule).
    pub fn good(order: &Order, wanted: u32, bytes: Vec<u8>) -> Outcome
        ensures { result ≡ good_outcome order.now wanted bytes.items }
    {
        Outcome {
            status: GOOD,
            sense: None,
            bytes: Bytes::from_vec(bytes),
            residual: residual(wanted, expected_length(order)),
        }
    }

    /// GOOD, for a command that gives data of its own and no blocks: they are cut at what the
    /// initiator expects. The only error is that memory ran out.
    pub fn given(alloc: Global, order: &Order, bytes: &[u8]) -> Result<Outcome, AllocError>
        requires { size bytes.now < 2 ^ 32 }
        ensures given { IfOk result (λ outcome. outcome ≡ data_given order.now bytes.now) }
        ensures few { IfOk result (λ outcome. size outcome.bytes ≤ size bytes.now) }
    {
        let wanted = bytes.len() as u32;
        let length = wanted.min(expected_length(order)) as usize;
        let given = Vec::from_slice(alloc, &bytes[..length])?;
        Ok(Outcome::good(order, wanted, given))
    }

    /// CHECK CONDITION for this reason: no data, so that all that was expected is missing.
    pub fn check_condition(alloc: Global, order: &Order, sense: Sense) -> Outcome
        ensures { result ≡ check_condition order.now sense }
    {
        Outcome {
            status: CHECK_CONDITION,
            sense: Some(sense),
            bytes: Bytes::from_vec(Vec::new(alloc)),
            residual: residual(0, expected_length(order)),
        }
    }
}

/// The first bytes of the blocks from `first` on.
fn read_front<S: BlockStore>(
    alloc: Global,
    store: &mut S,
    first: u64,
    length: u32,
) -> Result<Vec<u8>, StoreFault>
    requires { first + (length + 511) / 512 ≤ (S.disk store.old).count }
    ensures ok { IfOk result (λ v. S.failures store.new ≡ S.failures store.old → v.items
        ≡ front length (blocks_from (S.disk store.old) first ((length + 511) / 512))) }
    ensures size { IfOk result (λ v. size v.items ≡ length) }
    ensures disk { S.disk store.new ≡ S.disk store.old }
    ensures kept { Within (S.kept store.old) (S.kept store.new) }
    ensures lasts { S.failures store.new ≡ S.failures store.old
        → LastsOnceSynced (S.synced store.old) (S.disk store.old) (S.kept store.old)
        → LastsOnceSynced (S.synced store.new) (S.disk store.new) (S.kept store.new) }
    ensures tells { StoreTellsFailures (S.disk store.old).tells (S.failures store.old)
        (S.failures store.new)
        (S.untold store.old) (S.untold store.new) result }
{
    let mut bytes = Vec::new(alloc);
    store.read_onto(first, length.div_ceil(512), &mut bytes)?;
    bytes.truncate(length as usize);
    Ok(bytes)
}

/// Gives the data of a READ of these blocks.
fn give<S: BlockStore>(
    alloc: Global,
    order: &Order,
    range: BlockRange,
    store: &mut S,
) -> Result<Outcome, StoreFault>
    requires reads { is_read order.now.cdb ≡ true }
    requires names { NamesFewBlocks order.now (S.disk store.old).count range }
    ensures ok { IfOk result (λ outcome. S.failures store.new ≡ S.failures store.old
        → outcome ≡ outcome_by (plan_by_work order.now (Read range)) (S.disk store.old) order.now []) }
    ensures untold { IfOk result (HasOtherData (S.disk store.old) order.now
        (min (512 * range.count) (expected_length order.now))) }
    ensures disk { S.disk store.new ≡ S.disk store.old }
    ensures kept { Within (S.kept store.old) (S.kept store.new) }
    ensures lasts { S.failures store.new ≡ S.failures store.old
        → LastsOnceSynced (S.synced store.old) (S.disk store.old) (S.kept store.old)
        → LastsOnceSynced (S.synced store.new) (S.disk store.new) (S.kept store.new) }
    ensures tells { StoreTellsFailures (S.disk store.old).tells (S.failures store.old)
        (S.failures store.new)
        (S.untold store.old) (S.untold store.new) result }
{
    let wanted = 512 * range.count;
    let length = wanted.min(expected_length(order));
    let bytes = read_front(alloc, store, range.first, length)?;
    Ok(Outcome::good(order, wanted, bytes))
}

/// Holds data against these blocks: the place of the first byte that is another one, if there is one.
fn compared<S: BlockStore>(
    alloc: Global,
    due: &[u8],
    range: BlockRange,
    store: &mut S,
) -> Result<Option<u32>, StoreFault>
    requires inside { range.first + range.count ≤ (S.disk store.old).count }
    requires few { range.count ≤ 8192 }
    requires whole { size due.now ≡ 512 * range.count }
    ensures ok { IfOk result (λ place. S.failures store.new ≡ S.failures store.old → place
        ≡ first_other 0 due.now (blocks_from (S.disk store.old) range.first range.count)) }
    ensures disk { S.disk store.new ≡ S.disk store.old }
    ensures kept { Within (S.kept store.old) (S.kept store.new) }
    ensures lasts { S.failures store.new ≡ S.failures store.old
        → LastsOnceSynced (S.synced store.old) (S.disk store.old) (S.kept store.old)
        → LastsOnceSynced (S.synced store.new) (S.disk store.new) (S.kept store.new) }
    ensures tells { StoreTellsFailures (S.disk store.old).tells (S.failures store.old)
        (S.failures store.new)
        (S.untold store.old) (S.untold store.new) result }
{
    let mut found = Vec::new(alloc);
    store.read_onto(range.first, range.count, &mut found)?;
    Ok(first_other(due, &found))
}

/// Holds data against these blocks: the outcome of a command that fails by it, or `None` where all bytes
/// are alike. The only error is that memory ran out.
fn verified<S: BlockStore>(
    alloc: Global,
    order: &Order,
    due: &[u8],
    range: BlockRange,
    store: &mut S,
) -> Result<Option<Outcome>, AllocError>
    requires inside { range.first + range.count ≤ (S.disk store.old).count }
    requires few { range.count ≤ 8192 }
    requires whole { size due.now ≡ 512 * range.count }
    ensures ok { IfOk result (λ given. IsVerified (S.disk store.old).tells order.now
        (miscompare due.now (blocks_from (S.disk store.old) range.first range.count))
        (S.failures store.old) (S.failures store.new) given) }
    ensures err { OnErr result (S.failures store.new ≡ S.failures store.old) }
    ensures disk { S.disk store.new ≡ S.disk store.old }
    ensures kept { Within (S.kept store.old) (S.kept store.new) }
    ensures lasts { S.failures store.new ≡ S.failures store.old
        → LastsOnceSynced (S.synced store.old) (S.disk store.old) (S.kept store.old)
        → LastsOnceSynced (S.synced store.new) (S.disk store.new) (S.kept store.new) }
{
    match compared(alloc, due, range, store) {
        Ok(None) => Ok(None),
        Ok(Some(place)) => {
            let sense = Sense::Miscompare(place);
            Ok(Some(Outcome::check_condition(alloc, order, sense)))
        }
        Err(StoreFault::NoMemory) => Err(AllocError),
        Err(StoreFault::Device) => {
            Ok(Some(Outcome::check_condition(alloc, order, Sense::ReadError)))
        }
    }
}

/// The outcome of a command that takes data and fails with these, before it writes a block; `None` where
/// it goes on. The only error is that memory ran out.
fn undone<S: BlockStore>(
    alloc: Global,
    order: &Order,
    bytes: &[u8],
    range: BlockRange,
    store: &mut S,
) -> Result<Option<Outcome>, AllocError>
    requires names { NamesFewBlocks order.now (S.disk store.old).count range }
    requires supplied { size bytes.now ≡ taken_length order.now }
    ensures ok { IfOk result (λ given. IsUndone (S.disk store.old).tells order.now
        (deed_failure (S.disk store.old) order.now bytes.now)
        (S.failures store.old) (S.failures store.new) given) }
    ensures err { OnErr result (S.failures store.new ≡ S.failures store.old) }
    ensures disk { S.disk store.new ≡ S.disk store.old }
    ensures kept { Within (S.kept store.old) (S.kept store.new) }
    ensures lasts { S.failures store.new ≡ S.failures store.old
        → LastsOnceSynced (S.synced store.old) (S.disk store.old) (S.kept store.old)
        → LastsOnceSynced (S.synced store.new) (S.disk store.new) (S.kept store.new) }
{
    match order.deed {
        Deed::Write | Deed::Same => Ok(None),
        Deed::Verify => verified(alloc, order, bytes, range, store),
        Deed::Compare => {
            let due = &bytes[..512 * range.count as usize];
            verified(alloc, order, due, range, store)
        }
        Deed::Unmap(_) => {
            let refused = unmap_refusal(bytes, store.blocks());
            Ok(refused.map(|sense| Outcome::check_condition(alloc, order, sense)))
        }
    }
}

/// Writes what a command that takes data leaves in its blocks, where it isn't undone.
fn write_data<S: BlockStore>(
    alloc: Global,
    order: &Order,
    bytes: &[u8],
    range: BlockRange,
    store: &mut S,
) -> Result<(), StoreFault>
    requires names { NamesFewBlocks order.now (S.disk store.old).count range }
    requires supplied { size bytes.now ≡ taken_length order.now }
    requires goes_on { compares order.now.deed ≡ false
        → deed_failure (S.disk store.old) order.now bytes.now ≡ None }
    ensures written { OnOk result (S.failures store.new ≡ S.failures store.old
        → S.disk store.new ≡ disk_done (S.disk store.old) order.now bytes.now) }
    ensures lasts { S.failures store.new ≡ S.failures store.old
        → LastsOnceSynced (S.synced store.old) (S.disk store.old) (S.kept store.old)
        → LastsOnceSynced (S.synced store.new) (S.disk store.new) (S.kept store.new) }
    ensures count { (S.disk store.new).count ≡ (S.disk store.old).count }
    ensures no_memory { IsErrOf result StoreFault.NoMemory
        → (S.disk store.new ≡ S.disk store.old) × Within (S.kept store.old) (S.kept store.new) }
    ensures each { IsOldOrNew (S.disk store.old)
        (disk_done (S.disk store.old) order.now bytes.now) (S.disk store.new) }
    ensures kept { CrashAddsDisk (disk_done (S.disk store.old) order.now bytes.now)
        (S.kept store.old) (S.kept store.new) }
    ensures tells { StoreTellsFailures (S.disk store.old).tells (S.failures store.old)
        (S.failures store.new)
        (S.untold store.old) (S.untold store.new) result }
{
    match order.deed {
        Deed::Write => store.write(range.first, bytes),
        Deed::Same => {
            let all = repeated(alloc, bytes, range.count)?;
            store.write(range.first, &all)
        }
        Deed::Verify => Ok(()),
        Deed::Compare => store.write(range.first, &bytes[512 * range.count as usize..]),
        Deed::Unmap(_) => {
            let range = unmap_range(bytes);
            let all = zeros(alloc, range.count)?;
            store.write(range.first, &all)
        }
    }
}

/// Does what a command that takes data is for. The only error is that memory ran out; then no block has
/// changed.
fn take<S: BlockStore>(
    alloc: Global,
    order: &Order,
    bytes: &[u8],
    range: BlockRange,
    store: &mut S,
) -> Result<Outcome, AllocError>
    requires names { NamesFewBlocks order.now (S.disk store.old).count range }
    requires supplied { size bytes.now ≡ taken_length order.now }
    ensures ok { IfOk result (λ outcome. IsTakenBy (S.failures store.old) (S.failures store.new)
        (S.disk store.old) order.now bytes.now
        (record { disk = S.disk store.new; outcome = outcome })) }
    ensures count { (S.disk store.new).count ≡ (S.disk store.old).count }
    ensures lasts { S.failures store.new ≡ S.failures store.old
        → LastsOnceSynced (S.synced store.old) (S.disk store.old) (S.kept store.old)
        → LastsOnceSynced (S.synced store.new) (S.disk store.new) (S.kept store.new) }
    ensures crash { CrashAddsDisk (disk_done (S.disk store.old) order.now bytes.now)
        (S.kept store.old) (S.kept store.new) }
    ensures err { OnErr result (S.disk store.new ≡ S.disk store.old) }
    // A failure that isn't told may come before it, while blocks are compared.
    ensures err_failures { OnErr result (compares order.now.deed ≡ false
        → S.failures store.new ≡ S.failures store.old) }
    ensures err_rises { OnErr result (S.failures store.old ≤ S.failures store.new) }
{
    if let Some(outcome) = undone(alloc, order, bytes, range, store)? {
        return Ok(outcome);
    }
    let length = order.deed.taken(range.count);
    let good = Outcome::good(order, length, Vec::new(alloc));
    match write_data(alloc, order, bytes, range, store) {
        Ok(()) => Ok(good),
        Err(StoreFault::NoMemory) => Err(AllocError),
        Err(StoreFault::Device) => Ok(Outcome::check_condition(alloc, order, Sense::WriteError)),
    }
}

/// The bytes of a block `n` times, at most 4 MiB of them.
fn repeated(alloc: Global, block: &[u8], count: u32) -> Result<Vec<u8>, AllocError>
    requires short { size block.now ≡ 512 }
    requires few { count ≤ 8192 }
    ensures items { IfOk result (λ v. v.items ≡ repeat count block.now) }
    ensures size { IfOk result (λ v. size v.items ≡ 512 * count) }
{
    let mut all = Vec::with_capacity(alloc, 512 * count as usize)?;
    for _ in 0..count {
        all.extend_from_slice(block)?;
    }
    Ok(all)
}

/// Blocks of 00, at most 4 MiB of them.
fn zeros(alloc: Global, count: u32) -> Result<Vec<u8>, AllocError>
    requires few { count ≤ 8192 }
    ensures items { IfOk result (λ v. v.items ≡ repeat count zero_block) }
    ensures size { IfOk result (λ v. size v.items ≡ 512 * count) }
{
    repeated(alloc, &[0; 512], count)
}

/// What a command answers, where its store answered so.
fn settled(
    alloc: Global,
    order: &Order,
    answer: Result<Outcome, StoreFault>,
    sense: Sense,
) -> Result<Outcome, AllocError>
    ensures ok { IfOk answer (λ outcome. result ≡ Ok outcome) }
    ensures device { IsErrOf answer StoreFault.Device
        → IfOk result (λ outcome. outcome ≡ check_condition order.now sense) }
    ensures device_ok { IsErrOf answer StoreFault.Device → IsOk result }
    ensures no_memory { IsErrOf answer StoreFault.NoMemory → IsErr result }
{
    match answer {
        Ok(outcome) => Ok(outcome),
        Err(StoreFault::NoMemory) => Err(AllocError),
        Err(StoreFault::Device) => Ok(Outcome::check_condition(alloc, order, sense)),
    }
}

/// The store refuses what the command of an order may write.
fn is_refused<S: BlockStore>(order: &Order, store: &S) -> bool
    ensures { result ≡ (writes order.now.deed && S.protected) }
{
    order.deed.writes() && store.is_protected()
}

/// Executes an order on a store.
///
/// Where the plan takes bytes, as many bytes are given; of another order they are not looked at.
/// A store that refuses writes is not asked for one: the outcome is CHECK CONDITION with
/// `WriteProtected`.
/// Where the device of the store does not fail, blocks and outcome are the effect of the order.
/// Where it fails, the outcome is CHECK CONDITION with `ReadError` or `WriteError`; then each block
/// of a WRITE is old or new, and no other has changed. Over a store that cannot tell each failure
/// the outcome may then be GOOD, after a READ with any bytes. An error says that memory ran out, and
/// no block has changed.
///
/// If a crash would have left the blocks and nothing else, it still does if no failure was counted.
/// That is so over a store that syncs no writes; over another store it is so once that store is
/// synced. A crash meanwhile leaves each block as it was or as the order leaves it.
///
/// The data of a READ or WRITE are copied once. Status and sense are those of SPC-4, the residual
/// is an own rule: what the command has is held against what the initiator expects.
pub fn execute<S: BlockStore>(
    alloc: Global,
    order: &Order,
    bytes: &[u8],
    store: &mut S,
) -> Result<Outcome, AllocError>
    requires { IsSupplied (S.disk store.old).count order.now bytes.now }
    // It has the order's effect, or that of a failure where one was counted.
    ensures ok { IfOk result (λ outcome. OrderExecuted S.protected (S.failures store.old)
        (S.failures store.new)
        (S.disk store.old) order.now bytes.now
        (record { disk = S.disk store.new; outcome = outcome })) }
    ensures count { (S.disk store.new).count ≡ (S.disk store.old).count }
    // Where no failure was counted, what is synced lasts.
    ensures lasts { S.failures store.new ≡ S.failures store.old
        → LastsOnceSynced (S.synced store.old) (S.disk store.old) (S.kept store.old)
        → LastsOnceSynced (S.synced store.new) (S.disk store.new) (S.kept store.new) }
    // Whatever comes of it, a crash leaves each block old or new.
    ensures crash { CrashAddsDisk (disk_aimed S.protected (S.disk store.old) order.now bytes.now)
        (S.kept store.old) (S.kept store.new) }
    // Memory ran out.
    ensures err { OnErr result (S.disk store.new ≡ S.disk store.old) }
    // A failure that isn't told may come before it, while blocks are compared.
    ensures err_failures { OnErr result (compares order.now.deed ≡ false
        → S.failures store.new ≡ S.failures store.old) }
    ensures err_rises { OnErr result (S.failures store.old ≤ S.failures store.new) }
{
    let found = Found::of(order, store.blocks());
    execute_found(alloc, order, &found, bytes, store)
}

/// Executes an order on a store by its plan, for a caller that made the plan. What it does, and
/// what comes of a failure, is as with `execute`.
pub fn execute_planned<S: BlockStore>(
    alloc: Global,
    order: &Order,
    planned: Plan,
    bytes: &[u8],
    store: &mut S,
) -> Result<Outcome, AllocError>
    requires planned { planned ≡ plan_of order.now (S.disk store.old).count }
    requires supplied { IsSuppliedBy planned bytes.now }
    ensures ok { IfOk result (λ outcome. OrderExecuted S.protected (S.failures store.old)
        (S.failures store.new)
        (S.disk store.old) order.now bytes.now
        (record { disk = S.disk store.new; outcome = outcome })) }
    ensures count { (S.disk store.new).count ≡ (S.disk store.old).count }
    ensures lasts { S.failures store.new ≡ S.failures store.old
        → LastsOnceSynced (S.synced store.old) (S.disk store.old) (S.kept store.old)
        → LastsOnceSynced (S.synced store.new) (S.disk store.new) (S.kept store.new) }
    ensures crash { CrashAddsDisk (disk_aimed S.protected (S.disk store.old) order.now bytes.now)
        (S.kept store.old) (S.kept store.new) }
    ensures err { OnErr result (S.disk store.new ≡ S.disk store.old) }
    // A failure that isn't told may come before it, while blocks are compared.
    ensures err_failures { OnErr result (compares order.now.deed ≡ false
        → S.failures store.new ≡ S.failures store.old) }
    ensures err_rises { OnErr result (S.failures store.old ≤ S.failures store.new) }
{
    let found = Found::by_plan(order, planned, store.blocks());
    execute_found(alloc, order, &found, bytes, store)
}

/// Executes an order from what was found of it, on a store of as many blocks. What it does, and what
/// comes of a failure, is as with `execute`.
pub fn execute_found<S: BlockStore>(
    alloc: Global,
    order: &Order,
    found: &Found,
    bytes: &[u8],
    store: &mut S,
) -> Result<Outcome, AllocError>
    requires found { IsFound order.now found.now }
    requires blocks { found.now.blocks ≡ (S.disk store.old).count }
    requires supplied { IsSupplied (S.disk store.old).count order.now bytes.now }
    ensures ok { IfOk result (λ outcome. OrderExecuted S.protected (S.failures store.old)
        (S.failures store.new)
        (S.disk store.old) order.now bytes.now
        (record { disk = S.disk store.new; outcome = outcome })) }
    ensures count { (S.disk store.new).count ≡ (S.disk store.old).count }
    ensures lasts { S.failures store.new ≡ S.failures store.old
        → LastsOnceSynced (S.synced store.old) (S.disk store.old) (S.kept store.old)
        → LastsOnceSynced (S.synced store.new) (S.disk store.new) (S.kept store.new) }
    ensures crash { CrashAddsDisk (disk_aimed S.protected (S.disk store.old) order.now bytes.now)
        (S.kept store.old) (S.kept store.new) }
    ensures err { OnErr result (S.disk store.new ≡ S.disk store.old) }
    // A failure that isn't told may come before it, while blocks are compared.
    ensures err_failures { OnErr result (compares order.now.deed ≡ false
        → S.failures store.new ≡ S.failures store.old) }
    ensures err_rises { OnErr result (S.failures store.old ≤ S.failures store.new) }
{
    match &found.work {
        Work::Refuse(sense) => Ok(Outcome::check_condition(alloc, order, *sense)),
        Work::Tell(data) => Outcome::given(alloc, order, data.as_slice()),
        Work::Read(range) => {
            let answer = give(alloc, order, *range, store);
            settled(alloc, order, answer, Sense::ReadError)
        }
        Work::Write(range) => {
            if is_refused(order, store) {
                return Ok(Outcome::check_condition(alloc, order, Sense::WriteProtected));
            }
            take(alloc, order, bytes, *range, store)
        }
    }
}
