//! What another program does with `iscsi_event_loop`.

ghost use Rattle.std.specs.Prelude.{◌≡◌, List, false};
ghost use Rattle.scsi_disk.specs.Disk.{disk_of};
ghost use Rattle.scsi_file.specs.CrashMemory.{memory_bytes};
ghost use Rattle.scsi_file.specs.FileStore.{failed_by, store_medium};
ghost use Rattle.iscsi_target.specs.Advances.{store_of};
ghost use Rattle.iscsi_sessions.specs.Blocks.{ExactExecutionsLead};
ghost use Rattle.iscsi_sessions.specs.Turns.{SlotEvent, executed_in};
ghost use Rattle.iscsi_serving.specs.Access.{open_door};
ghost use Rattle.iscsi_event_loop.specs.Running.{Served};
ghost use Rattle.iscsi_options.specs.Options.{IsService};

use iscsi_event_loop::laws::one_disk_of_all;
use iscsi_event_loop::{Options, serve_at_once};
use iscsi_serving::EVERYBODY;
use scsi_disk::BlockStore;
use scsi_file::{CrashMemory, FileStore};

/// Serves some sessions at a time, and says whether that ended well. Where the store counted no
/// failure, its blocks are exactly those that the executed commands, of whichever session, leave one
/// after another.
pub fn serve<S: BlockStore>(rt: &HostRuntime, options: Options<'_>, store: &mut S) -> bool
    requires service { IsService options }
    ensures blocks { (s : Served S.protected options.entry.at_once open_door
        (store_of (S.disk store.old) (S.failures store.old))
        (store_of (S.disk store.new) (S.failures store.new)))
        × (S.failures store.new ≡ S.failures store.old
        → ExactExecutionsLead S.protected (S.disk store.old) (executed_in s.events)
        (S.disk store.new)) }
{
    one_disk_of_all();
    serve_at_once(rt, options, b"DISK0001", EVERYBODY, store).is_ok()
}

/// The same over a medium that hides no failure. As long as none of its calls failed, its bytes are those that
/// the executed commands leave one after another.
pub fn serve_medium(
    rt: &HostRuntime,
    options: Options<'_>,
    store: &mut FileStore<CrashMemory>,
) -> bool
    requires service { IsService options }
    ensures bytes { failed_by store.new ≡ failed_by store.old → (es : List SlotEvent)
        × ExactExecutionsLead false (disk_of (memory_bytes (store_medium store.old)))
        (executed_in es) (disk_of (memory_bytes (store_medium store.new))) }
{
    serve(rt, options, store)
}
