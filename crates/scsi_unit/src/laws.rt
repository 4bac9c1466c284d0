//! Laws of a unit: functions with no work, whose contracts are of the definitions alone.

ghost use Rattle.std.specs.Prelude.{Bool, true, false, ◌≡◌, ◌≢◌, ℕ, List, Some, length};
ghost use Rattle.scsi_cdb.specs.Blocks.{record_of};
ghost use Rattle.scsi_cdb.specs.declared.sense.Sense.TheVariants.{InvalidCode};
ghost use Rattle.scsi_disk.specs.Disk.{Disk};
ghost use Rattle.scsi_disk.specs.declared.order.Order.{Order};
ghost use Rattle.scsi_unit.specs.LogicalUnit.{LogicalUnit};
ghost use Rattle.scsi_unit.specs.Laws.{answered};
ghost use Rattle.scsi_unit.specs.Supported.{is_supported};

/// The list of commands that REPORT SUPPORTED OPERATION CODES gives is true: an order whose block is of a
/// command of the list is never refused as unknown (5/20/00), and one of another command always is.
pub fn supported_is_true()
    ensures listed { (unit : LogicalUnit) (protected : Bool) (disk : Disk) (order : Order)
        (block bytes : List ℕ) → length block ≡ 16 → order.cdb ≡ record_of block
        → is_supported unit.thin block ≡ true
        → (answered unit protected disk order bytes).sense ≢ Some InvalidCode }
    ensures unlisted { (unit : LogicalUnit) (protected : Bool) (disk : Disk) (order : Order)
        (block bytes : List ℕ) → length block ≡ 16 → order.cdb ≡ record_of block
        → is_supported unit.thin block ≡ false
        → (answered unit protected disk order bytes).sense ≡ Some InvalidCode }
{}
