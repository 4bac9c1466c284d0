//! Laws of orders: functions with no work, whose contracts are of the definitions alone.

ghost use Rattle.std.specs.Prelude.{Bool, true, ◌≡◌, ℕ, ◌≤◌, List};
ghost use Rattle.scsi_disk.specs.declared.order.Outcome.{Outcome};
ghost use Rattle.scsi_disk.specs.declared.order.Order.{Order};
ghost use Rattle.scsi_disk.specs.Disk.{Disk};
ghost use Rattle.scsi_disk.specs.Effect.{Effect, OrderExecuted};
ghost use Rattle.scsi_disk.specs.Runs.{Supplied, OrdersRun, disk_after, outcomes};

/// Over a run of orders the count of failures does not fall. Where it stayed, outcomes and disk are
/// the fold of the orders' effects.
pub fn run_without_failures()
    ensures rises { (protected : Bool) (before after : ℕ) (disk last : Disk)
        (orders : List Supplied)
        (told : List Outcome) → OrdersRun protected before disk orders after last told
        → before ≤ after }
    ensures outcomes { (protected : Bool) (count : ℕ) (disk last : Disk) (orders : List Supplied)
        (told : List Outcome) → OrdersRun protected count disk orders count last told
        → told ≡ outcomes protected orders disk }
    ensures disk { (protected : Bool) (count : ℕ) (disk last : Disk) (orders : List Supplied)
        (told : List Outcome) → OrdersRun protected count disk orders count last told
        → last ≡ disk_after protected orders disk }
{}

/// A store that refuses writes keeps its blocks, whatever the orders, also where its device fails.
pub fn protected_keeps()
    ensures order { (before after : ℕ) (disk : Disk) (order : Order) (bytes : List ℕ)
        (left : Effect) → OrderExecuted true before after disk order bytes left → left.disk ≡ disk }
    ensures run { (before after : ℕ) (disk last : Disk) (orders : List Supplied)
        (told : List Outcome) → OrdersRun true before disk orders after last told → last ≡ disk }
{}
