//! Data-Outs that are taken as they come (RFC 7143, section 11.7).

ghost use Rattle.std.specs.Prelude.{◌≡◌, ◌<◌, ◌≤◌, [], length, insert, IfNone, IfSome, OnSome, IsTrue};
ghost use Rattle.iscsi_login.specs.Held.{first_burst};
ghost use Rattle.iscsi_target.specs.declared.tasks.Task.TheVariants.{Data};
ghost use Rattle.iscsi_target.specs.inner.Arrival.{IsDataOutDue, IsTaken, TakesData};
ghost use Rattle.iscsi_target.specs.Crash.{CrashLeavesBlocks, commands_of};
ghost use Rattle.iscsi_target.specs.Advances.{store_of};
ghost use Rattle.iscsi_target.specs.inner.Inside.{AreInPlace, TasksPost, moment};

use super::Machine;
use crate::incoming::Incoming;
use crate::open_write::OpenWrite;
use iscsi_login::Phase;
use iscsi_pdu::DataOut;
use scsi_disk::BlockStore;
use std::alloc::AllocError;

impl Machine {
    /// Takes the write out that takes a Data-Out with `n` bytes, if it is due.
    pub fn expect_data(&mut self, head: &DataOut, len: u32) -> Option<Incoming>
        ensures none { IfNone result (self.new ≡ self.old) }
        ensures session { self.new.session ≡ self.old.session }
        ensures takes { OnSome result (TakesData self.old.session len) }
        ensures due { IfSome result (IsDataOutDue (first_burst self.old.session.held)) }
        ensures taken { IfSome result (IsTaken self.old.tasks self.new.tasks) }
        ensures head { IfSome result (λ a. a.head ≡ head.now) }
        ensures len { IfSome result (λ a. a.len ≡ len) }
        ensures segment { IfSome result (λ a. a.segment ≡ []) }
        ensures padded { IfSome result (λ a. a.padded ≡ 0) }
    {
        if !self.takes_data(len) {
            return None;
        }
        let (place, write) = self.tasks.take_write(head.initiator_task_tag)?;
        if !write.is_due(self.first_burst(), head, len) {
            self.tasks.put_write(place, write);
            return None;
        }
        Some(Incoming::new(place, write, *head, len))
    }

    // Whether a Data-Out with `n` bytes may come.
    fn takes_data(&self, len: u32) -> bool
        ensures { IsTrue result → TakesData self.now.session len }
    {
        matches!(self.session.phase(), Phase::Full)
            && self.is_normal()
            && !self.is_too_long(len as usize)
    }

    /// Puts a write back where it stood, and does tasks in their turn. Returns the rule that is
    /// broken, if one is.
    pub fn resume<S: BlockStore>(
        &mut self,
        place: usize,
        write: OpenWrite,
        store: &mut S,
        out: &mut Vec<u8>,
    ) -> Result<Option<u8>, AllocError>
        requires place { place ≤ length self.old.tasks }
        requires room { length self.old.tasks < 9 }
        requires in_place { AreInPlace (insert self.old.tasks place (Data write)) }
        ensures works { TasksPost S.protected result
            (moment (record self.old { tasks = insert self.old.tasks place (Data write) })
            (store_of (S.disk store.old) (S.failures store.old)) out.old.items)
            (moment self.new (store_of (S.disk store.new) (S.failures store.new)) out.new.items) }
        ensures crash { CrashLeavesBlocks S.protected
            (commands_of (insert self.old.tasks place (Data write)))
            (S.disk store.old) (S.disk store.new) (S.kept store.old) (S.kept store.new) }
    {
        self.tasks.put_write(place, write);
        self.run_queue(store, out)
    }
}
