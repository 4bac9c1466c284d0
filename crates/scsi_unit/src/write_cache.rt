//! What a write cache has to make last, and when (SBC-3, section 4.15).

ghost use Rattle.std.specs.Prelude.{◌≡◌};
ghost use Rattle.scsi_unit.specs.WriteCache.{asks_to_last};

use scsi_cdb::Cdb;

/// The bit FUA of a READ or a WRITE.
const FUA: u8 = 0x08;

/// Whether a command asks that what was written lasts before it is answered: a SYNCHRONIZE CACHE, or
/// a READ or a WRITE with the bit FUA. A unit without a write cache makes each write last, whether a
/// command asks for it or not.
pub fn asks_to_last(cdb: &Cdb) -> bool
    ensures { result ≡ asks_to_last cdb.now }
{
    match cdb {
        Cdb::SyncCache10(_) => true,
        Cdb::Read10(transfer) | Cdb::Write10(transfer) => transfer.options & FUA != 0,
        Cdb::Read16(transfer) | Cdb::Write16(transfer) => transfer.options & FUA != 0,
        _ => false,
    }
}
