//! SYNCHRONIZE CACHE (SBC-3).

ghost use Rattle.std.specs.Prelude.{◌≡◌};
ghost use Rattle.scsi_cdb.specs.declared.cdb.Cdb.TheVariants.{SyncCache10};
ghost use Rattle.scsi_disk.specs.Plan.{synchronized};

use super::Transfer;
use scsi_cdb::Synchronize10;

/// The blocks that a SYNCHRONIZE CACHE(10) names; no blocks are those up to the last one.
pub(super) fn named(named: &Synchronize10) -> Transfer
    ensures { result ≡ synchronized (SyncCache10 named.now) }
{
    Transfer {
        first: u64::from(named.logical_block_address),
        count: u32::from(named.blocks),
        options: named.options,
    }
}
