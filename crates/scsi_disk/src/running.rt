//! Orders one after another.

ghost use Rattle.std.specs.Prelude.{◌≡◌, IfOk, OnErr};
ghost use Rattle.scsi_disk.specs.Lasting.{LastsOnceSynced};
ghost use Rattle.scsi_disk.specs.Runs.{AreSupplied, OrdersRun, RunsSome};

use crate::execution::execute;
use crate::order::{Order, Outcome};
use crate::store::BlockStore;
use scsi_cdb::Bytes;
use std::alloc::{AllocError, Global};

/// Executes orders in turn, each with its bytes, and gives the outcome of each.
///
/// Each order has the bytes that it takes. An order at which the device of the store fails has its
/// outcome too, and those behind it are executed. If the device does not fail, outcomes and blocks
/// are those of the orders' effects one after another, whichever store it is (the law
/// `run_without_failures`). Then, once the store is synced, a crash leaves these blocks, if at
/// first it would have left the blocks as they were and nothing else. An error says that memory ran
/// out; then some first orders are done, and no others.
pub fn run_orders<S: BlockStore>(
    alloc: Global,
    orders: &[(Order, Bytes)],
    store: &mut S,
) -> Result<Vec<Outcome>, AllocError>
    requires { AreSupplied (S.disk store.old).count orders.now }
    // Each was executed once, in turn.
    ensures ok { IfOk result (λ told. OrdersRun S.protected (S.failures store.old)
        (S.disk store.old) orders.now
        (S.failures store.new) (S.disk store.new) told.items) }
    // Where no failure was counted, what is synced lasts.
    ensures lasts { S.failures store.new ≡ S.failures store.old
        → LastsOnceSynced (S.synced store.old) (S.disk store.old) (S.kept store.old)
        → LastsOnceSynced (S.synced store.new) (S.disk store.new) (S.kept store.new) }
    // Memory ran out: so were some first orders.
    ensures err { OnErr result (RunsSome S.protected (S.failures store.old)
        (S.disk store.old) orders.now
        (S.failures store.new) (S.disk store.new)) }
{
    let mut told = Vec::new(alloc);
    for (order, bytes) in orders {
        let outcome = execute(alloc, order, bytes.as_slice(), store)?;
        told.push(outcome)?;
    }
    Ok(told)
}
