//! What another program does with `iscsi_sessions`.

ghost use Rattle.std.specs.Prelude.{◌≡◌, ◌==◌, ℕ, false, length, not};
ghost use Rattle.iscsi_sessions.specs.Slots.{slot_at, slot_waiting};

use iscsi_sessions::SessionTable;
use scsi_disk::BlockStore;

/// Gives a slot its turn, if it may take one, over the store of all sessions. Says whether
/// something is to be written then. Every other slot stays as it was.
pub fn turn<S: BlockStore>(table: &mut SessionTable, slot: usize, store: &mut S) -> bool
    ensures waits { result ≡ not (length (slot_waiting (slot_at table.new slot)) == 0) }
    ensures others { (place : ℕ) → (slot == place) ≡ false
        → slot_at table.new place ≡ slot_at table.old place }
{
    if table.may_take(slot) {
        let _ = table.take(slot, store);
    }
    !table.waiting(slot).is_empty()
}
