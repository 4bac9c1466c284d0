//! READs of whole blocks, whose data go from the store to behind the heads of their Data-In with no
//! buffer in between (RFC 7143, sections 11.4 and 11.7).

ghost use Rattle.std.specs.Prelude.{◌≡◌, ◌<◌, ◌^◌, [], Some, OnOk, OnErr, IfSome};
ghost use Rattle.scsi_disk.specs.Disk.{IsDisk};
ghost use Rattle.scsi_disk.specs.Plan.{plan_of};
ghost use Rattle.scsi_disk.specs.Found.{IsFound};
ghost use Rattle.scsi_disk.specs.Reading.{whole_blocks};
ghost use Rattle.iscsi_target.specs.Execution.{execute};
ghost use Rattle.iscsi_target.specs.Crash.{CrashLeavesBlocks};
ghost use Rattle.iscsi_target.specs.Advances.{store_of};
ghost use Rattle.iscsi_target.specs.inner.Inside.{TaskPost, moment};
ghost use Rattle.iscsi_target.specs.inner.Reads.{AnswersRead, IsStoreRead, TakesBlocks, reply};

use super::Machine;
use super::source::Source;
use crate::scsi_response::{append_response, response_head};
use scsi_disk::{BlockRange, BlockStore, Found, Order, failed_read};
use std::alloc::AllocError;

impl Machine {
    // The blocks that an order gives by its plan, where it is a READ of whole ones, and they can be
    // sent in parts of whole ones.
    pub(super) fn blocks_to_send(&self, order: &Order, found: &Found) -> Option<BlockRange>
        requires { IsFound order.now found.now }
        ensures takes { IfSome result (λ range. TakesBlocks self.now.session) }
        ensures whole { IfSome result (λ range.
            whole_blocks order.now (plan_of order.now found.now.blocks) ≡ Some range) }
    {
        if self.max_segment() % 512 != 0 || self.max_burst() % 512 != 0 {
            return None;
        }
        found.whole_blocks(order)
    }

    // Executes a READ of whole blocks: its data go out, and its response.
    pub(super) fn execute_read<S: BlockStore>(
        &mut self,
        tag: u32,
        order: &Order,
        found: &Found,
        range: BlockRange,
        store: &mut S,
        out: &mut Vec<u8>,
    ) -> Result<Option<u8>, AllocError>
        requires disk { IsDisk (S.disk store.old) }
        requires few { (S.disk store.old).count < 2 ^ 64 }
        requires takes { TakesBlocks self.old.session }
        requires found { IsFound order.now found.now }
        requires blocks { found.now.blocks ≡ (S.disk store.old).count }
        requires whole { whole_blocks order.now (plan_of order.now (S.disk store.old).count)
            ≡ Some range }
        ensures handles { TaskPost S.protected
            (λ device. execute device self.old (S.disk store.old) tag order.now []) result
            (moment self.old (store_of (S.disk store.old) (S.failures store.old)) out.old.items)
            (moment self.new (store_of (S.disk store.new) (S.failures store.new)) out.new.items) }
        ensures crash { CrashLeavesBlocks S.protected []
            (S.disk store.old) (S.disk store.new) (S.kept store.old) (S.kept store.new) }
    {
        self.send_read(tag, order, found, range, store, out)?;
        self.advance_stat_sn();
        Ok(None)
    }

    // The data of a READ and its response, or that it failed.
    fn send_read<S: BlockStore>(
        &self,
        tag: u32,
        order: &Order,
        found: &Found,
        range: BlockRange,
        store: &mut S,
        out: &mut Vec<u8>,
    ) -> Result<(), AllocError>
        requires disk { IsDisk (S.disk store.old) }
        requires few { (S.disk store.old).count < 2 ^ 64 }
        requires takes { TakesBlocks self.now.session }
        requires found { IsFound order.now found.now }
        requires blocks { found.now.blocks ≡ (S.disk store.old).count }
        requires whole { whole_blocks order.now (plan_of order.now (S.disk store.old).count)
            ≡ Some range }
        ensures ok { OnOk result (AnswersRead S.protected
            (reply self.now tag out.old.items out.new.items) order.now
            (store_of (S.disk store.old) (S.failures store.old))
            (store_of (S.disk store.new) (S.failures store.new))) }
        ensures err { OnErr result (out.new.items ≡ out.old.items) }
        ensures read { IsStoreRead (store_of (S.disk store.old) (S.failures store.old))
            (store_of (S.disk store.new) (S.failures store.new))
            (S.kept store.old) (S.kept store.new) }
    {
        let start = out.len();
        let outcome = found.read_outcome(*out.allocator(), order);
        let source = Source::Blocks(range);
        let Err(fault) = self.append_answers(tag, &outcome, &source, store, out) else {
            return Ok(());
        };
        out.truncate(start);
        let outcome = failed_read(*out.allocator(), order, fault)?;
        let head = response_head(self.numbers(), tag, &outcome, 0);
        append_response(&head, outcome.sense, out)
    }
}
