//! What is known of the numbers that two runs of one job choose differently.

ghost use Rattle.std.specs.Prelude.{◌≡◌, IfOk, OnOk};
ghost use Rattle.iscsi_pdu.specs.Meaning.{HeadFits};
ghost use Rattle.iscsi_stream.specs.Stream.{message};
ghost use Rattle.iscsi_compare.specs.SameJob.{Renumbering, renumbered, renumbered_message};
ghost use Rattle.iscsi_compare.specs.inner.SameJobLearning.{LearnsAnswer};
ghost use Rattle.iscsi_compare.specs.inner.SameJobNumbers.{renamed};
ghost use Rattle.iscsi_compare.specs.inner.SameJobJudge.{AllowsRenumbering, IsSoundRenaming, LearnsNext};

use crate::same_job::heads::is_same_head;
use crate::same_job::names::Names;
use crate::same_job::numbers::Numbers;
use crate::same_job::segments::is_same_segment;
use crate::same_job::steps::{step_if, step_some};
use iscsi_pdu::{Head, Pdu, RESERVED_TAG};
use iscsi_stream::Framer;
use std::alloc::{AllocError, Global};

/// What two runs of one job number differently, as far as their PDUs have said it. These are names
/// of the one run with those of the other, and how many steps their serial numbers are apart.
///
/// It grows with the number of distinct tags, ISIDs and TSIHs, and takes a time for each PDU that
/// grows with the logarithm of that number.
#[derive(Drop)]
pub(crate) struct Renaming {
    pub(crate) tasks: Names<u32>,
    pub(crate) transfers: Names<u32>,
    pub(crate) isids: Names<[u8; 6]>,
    pub(crate) tsihs: Names<u16>,
    pub(crate) commands: Option<u32>,
    pub(crate) statuses: Option<u32>,
}

impl Renaming {
    /// Nothing is known but the names that stand for themselves. Returns `AllocError` where memory
    /// runs out.
    pub(crate) fn new(alloc: Global) -> Result<Renaming, AllocError>
        ensures sound { IfOk result IsSoundRenaming }
        ensures all { IfOk result (λ known. (r : Renumbering) → AllowsRenumbering known r) }
    {
        Ok(Renaming {
            tasks: Names::fixed(alloc, RESERVED_TAG)?,
            transfers: Names::fixed(alloc, RESERVED_TAG)?,
            isids: Names::new(alloc),
            tsihs: Names::fixed(alloc, 0)?,
            commands: None,
            statuses: None,
        })
    }

    /// Whether some renumbering that agrees with all that is known gives what stands next in the
    /// second stream from what stands next in the first. Then a PDU is ready in both streams, or
    /// none in either. If there is such a renumbering, it learns which. Returns `AllocError` if
    /// memory runs out; what is known is then of no use.
    pub(crate) fn accepts_next(
        &mut self,
        alloc: Global,
        first: &Framer,
        second: &Framer,
    ) -> Result<bool, AllocError>
        requires sound { IsSoundRenaming self.old }
        ensures sound { OnOk result (IsSoundRenaming self.new) }
        ensures learns { IfOk result (LearnsNext self.old self.new first.now second.now) }
    {
        match (first.pdu(), second.pdu()) {
            (Some(mine), Some(other)) => {
                self.accepts(alloc, &mine, first.continued(), &other, second.continued())
            }
            (None, None) => Ok(true),
            (Some(_), None) => Ok(false),
            (None, Some(_)) => Ok(false),
        }
    }

    /// The same of two PDUs, each of which continues another login PDU or does not.
    fn accepts(
        &mut self,
        alloc: Global,
        mine: &Pdu<'_>,
        mine_continues: bool,
        other: &Pdu<'_>,
        other_continues: bool,
    ) -> Result<bool, AllocError>
        requires sound { IsSoundRenaming self.old }
        requires mine { HeadFits mine.now.head }
        requires other { HeadFits other.now.head }
        ensures sound { OnOk result (IsSoundRenaming self.new) }
        ensures learns { IfOk result (LearnsAnswer (AllowsRenumbering self.old)
            (AllowsRenumbering self.new)
            (λ r. renumbered_message r (message mine_continues mine.now.head mine.now.bytes.now)
            ≡ message other_continues other.now.head other.now.bytes.now)) }
    {
        if !is_same_segment(alloc, mine, mine_continues, other, other_continues)? {
            return Ok(false);
        }
        self.accepts_head(&mine.head, &other.head)
    }

    // The same of two heads.
    fn accepts_head(&mut self, mine: &Head, other: &Head) -> Result<bool, AllocError>
        requires sound { IsSoundRenaming self.old }
        requires mine { HeadFits mine.now }
        requires other { HeadFits other.now }
        ensures sound { OnOk result (IsSoundRenaming self.new) }
        ensures learns { IfOk result (LearnsAnswer (AllowsRenumbering self.old)
            (AllowsRenumbering self.new)
            (λ r. renumbered r mine.now ≡ other.now)) }
    {
        let others = Numbers::of(other);
        if !self.learn(&Numbers::of(mine), &others)? {
            return Ok(false);
        }
        Ok(is_same_head(&others.within(mine), other))
    }

    // The same of the numbers of two heads.
    fn learn(&mut self, mine: &Numbers, other: &Numbers) -> Result<bool, AllocError>
        requires sound { IsSoundRenaming self.old }
        ensures sound { OnOk result (IsSoundRenaming self.new) }
        ensures learns { IfOk result (LearnsAnswer (AllowsRenumbering self.old)
            (AllowsRenumbering self.new)
            (λ r. renamed r mine.now ≡ other.now)) }
    {
        let task = self.tasks.join(mine.task, other.task)?;
        let referenced_task = self
            .tasks
            .join(mine.referenced_task, other.referenced_task)?;
        let transfer = self.transfers.join(mine.transfer, other.transfer)?;
        let isid = self.isids.join_some(mine.isid, other.isid)?;
        let tsih = self.tsihs.join(mine.tsih, other.tsih)?;
        let command = step_some(&mut self.commands, mine.command, other.command);
        let last_command = step_some(&mut self.commands, mine.last_command, other.last_command);
        let referenced_command = step_if(
            mine.referenced_task != RESERVED_TAG,
            &mut self.commands,
            mine.referenced_command,
            other.referenced_command,
        );
        let status = step_some(&mut self.statuses, mine.status, other.status);
        let names = task & referenced_task & transfer & isid & tsih;
        Ok(names & command & last_command & referenced_command & status)
    }
}
