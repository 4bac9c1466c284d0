//! The tasks of a session, in the order in which they are handled (RFC 7143, section 4.2.2.1).

ghost use Rattle.std.specs.Prelude.{◌≡◌, ◌⊎◌, ◌<◌, ◌≤◌, ◌++◌, ◌∷◌, None, Some, [], true, length, insert, IfNone, IfSome, OnSome};
ghost use Rattle.std.specs.List.{list_any};
ghost use Rattle.iscsi_target.specs.Asking.{asks_task};
ghost use Rattle.iscsi_target.specs.Write.{Write};
ghost use Rattle.iscsi_target.specs.State.{takes_place, waiting_tasks};
ghost use Rattle.iscsi_target.specs.Transfer.{joined_write};
ghost use Rattle.iscsi_target.specs.State.{joined_task};
ghost use Rattle.iscsi_target.specs.Machine.{is_tag_of, write_of, with_write, task_tag, is_same_tag};
ghost use Rattle.iscsi_target.specs.inner.Machine.{is_write_with};
ghost use Rattle.iscsi_target.specs.declared.tasks.Task.TheVariants.{Data};
ghost use Rattle.iscsi_target.specs.inner.Inside.{AreInPlace, IsWriteAt};
ghost use Rattle.iscsi_target.specs.Queue.{TakePlaces};

use crate::open_write::OpenWrite;
use crate::queued_request::QueuedRequest;
use arrayvec::ArrayVec;
use scsi_disk::Order;
use scsi_unit::asks_to_last;
use std::alloc::Global;
use std::default::MadeWith;
use std::marker::Model;

/// A request that was accepted and is not handled, by what is left to do.
#[derive(Drop)]
pub enum Task {
    /// A command that takes no data.
    Command {
        /// Its tag.
        initiator_task_tag: u32,
        /// What it orders of the disk.
        order: Order,
    },
    /// A write, which takes its data as they come.
    Data(OpenWrite),
    /// A request that is no command.
    Request(QueuedRequest),
}

impl Task {
    // Whether it takes a place of the window.
    fn takes_place(&self) -> bool
        ensures { result ≡ takes_place self.now }
    {
        match self {
            Task::Command { .. } | Task::Request(_) => true,
            Task::Data(write) => !write.immediate,
        }
    }

    // Whether it has this tag.
    fn has_tag(&self, tag: u32) -> bool
        ensures { result ≡ is_same_tag (task_tag self.now) (Some tag) }
    {
        match self {
            Task::Command {
                initiator_task_tag,
                ..
            } => *initiator_task_tag == tag,
            Task::Data(write) => write.initiator_task_tag == tag,
            Task::Request(kept) => kept.initiator_task_tag() == Some(tag),
        }
    }

    // Whether its command asks that what was written lasts before it is answered.
    fn asks(&self) -> bool
        ensures { result ≡ asks_task self.now }
    {
        match self {
            Task::Command { order, .. } => asks_to_last(&order.cdb),
            Task::Data(write) => asks_to_last(&write.order.cdb),
            Task::Request(_) => false,
        }
    }

    // Whether it is a write with this tag.
    fn is_write(&self, tag: u32) -> bool
        ensures { result ≡ is_write_with tag self.now }
    {
        match self {
            Task::Command { .. } | Task::Request(_) => false,
            Task::Data(write) => write.initiator_task_tag == tag,
        }
    }
}

impl MadeWith<Global> for Task {
    fn made_with(alloc: Global) -> Task {
        Task::Request(QueuedRequest::blank(alloc))
    }
}

/// The tasks: at most eight that take a place of the window, and an immediate one, which can only be
/// the first. Its contracts see the list.
#[derive(Drop)]
pub struct Tasks {
    list: ArrayVec<Task, 9, Global>,
}

impl Model for Tasks {
    ghost use Rattle.std.specs.Prelude.{List};
    ghost use Rattle.iscsi_target.specs.declared.tasks.Task.{Task};
    ghost use Rattle.iscsi_target.specs.inner.Inside.{AreInPlace};

    ghost Value = { List Task };

    ghost view = { λ t. t.list.items };

    ghost invariant = { λ t. AreInPlace t.list.items };
}

impl Tasks {
    /// None. It takes no memory.
    pub fn new(alloc: Global) -> Tasks
        ensures { result ≡ [] }
    {
        Tasks {
            list: ArrayVec::new_in(alloc),
        }
    }

    /// How many there are.
    pub fn len(&self) -> usize
        ensures value { result ≡ length self.now }
        ensures most { result ≤ 9 }
        ensures in_place { AreInPlace self.now }
    {
        self.list.len()
    }

    /// How many take a place of the window.
    pub fn waiting(&self) -> u32
        ensures value { result ≡ waiting_tasks self.now }
        ensures most { result ≤ 9 }
    {
        let waiting = self
            .list
            .as_slice()
            .iter()
            .filter(|task| task.takes_place());
        waiting.count() as u32
    }

    /// Whether one has this tag.
    pub fn has_tag(&self, tag: u32) -> bool
        ensures { result ≡ is_tag_of self.now (Some tag) }
    {
        self.list.as_slice().iter().any(|task| task.has_tag(tag))
    }

    /// Whether the command of one asks that what was written lasts before it is answered.
    pub fn asks(&self) -> bool
        ensures { result ≡ list_any asks_task self.now }
    {
        self.list.as_slice().iter().any(|task| task.asks())
    }
}

impl Tasks {
    /// Takes the write with this tag out, if there is one, and returns its place.
    pub fn take_write(&mut self, tag: u32) -> Option<(usize, OpenWrite)>
        ensures none { IfNone result (write_of self.old tag ≡ None) }
        ensures kept { IfNone result (self.new ≡ self.old) }
        ensures some { IfSome result (λ x. write_of self.old tag ≡ Some x.1) }
        ensures place { IfSome result (λ x. x.0 ≤ length self.new) }
        ensures room { OnSome result (length self.new < 9) }
        ensures back { IfSome result (λ x. (v : Write) → v.initiator_task_tag ≡ tag
            → insert self.new x.0 (Data v) ≡ with_write v self.old) }
        ensures in_place { IfSome result (λ x. (v : Write) → v.immediate ≡ x.1.immediate
            → joined_write v ≡ v → AreInPlace (insert self.new x.0 (Data v))) }
    {
        // Opens the invariant: there are nine at most.
        let _len = self.list.len();
        let place = self.place_of(tag)?;
        match self.list.remove(place) {
            Task::Data(write) => Some((place, write)),
            Task::Command { .. } | Task::Request(_) => unreachable!(),
        }
    }

    // Where the write with this tag stands, if there is one.
    fn place_of(&self, tag: u32) -> Option<usize>
        ensures none { IfNone result (write_of self.now tag ≡ None) }
        ensures some { IfSome result (IsWriteAt tag self.now) }
    {
        let mut place = 0;
        while place < self.list.len() {
            if self.list.as_slice()[place].is_write(tag) {
                return Some(place);
            }
            place += 1;
        }
        None
    }

    /// Puts a write where it stood.
    pub fn put_write(&mut self, place: usize, write: OpenWrite)
        requires place { place ≤ length self.old }
        requires room { length self.old < 9 }
        requires in_place { AreInPlace (insert self.old place (Data write)) }
        ensures { self.new ≡ insert self.old place (Data write) }
    {
        self.list.insert(place, Task::Data(write));
    }

    /// The first task, which is one no more.
    pub fn take_first(&mut self) -> Option<Task>
        ensures none { IfNone result (self.old ≡ []) }
        ensures kept { IfNone result (self.new ≡ self.old) }
        ensures some { IfSome result (λ task. self.old ≡ task ∷ self.new) }
        ensures places { OnSome result (TakePlaces self.new) }
        ensures room { OnSome result (length self.new < 9) }
    {
        if self.list.len() == 0 {
            return None;
        }
        Some(self.list.remove(0))
    }

    /// A write before the others, which each take a place of the window.
    pub fn push_first(&mut self, write: OpenWrite)
        requires places { TakePlaces self.old }
        requires room { length self.old < 9 }
        ensures { self.new ≡ Data write ∷ self.old }
    {
        self.list.insert(0, Task::Data(write));
    }

    /// A task behind the others, which takes a place of the window where there are others.
    pub fn push(&mut self, task: Task)
        requires place { self.old ≡ [] ⊎ (takes_place task ≡ true) }
        requires joined { joined_task task ≡ task }
        requires room { length self.old < 9 }
        ensures { self.new ≡ self.old ++ task ∷ [] }
    {
        self.list.push(task);
    }

    /// Leaves none.
    pub fn clear(&mut self)
        ensures { self.new ≡ [] }
    {
        self.list.clear();
    }
}
