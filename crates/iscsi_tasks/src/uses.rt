//! The uses of one tag.

ghost use Rattle.std.specs.Prelude.{◌≡◌, ◌++◌, ◌∷◌, [], true, false, MatchOption, OnOk, OnErr};
ghost use Rattle.iscsi_pdu.specs.Serial.{is_before};
ghost use Rattle.iscsi_tasks.specs.Uses.{latest_from, uses_at, uses_from};

use iscsi_pdu::Serial;
use std::alloc::{AllocError, Global};
use std::collections::VecDeque;
use std::marker::Model;

/// A use of a tag: the request that was sent with it.
#[derive(Clone, Copy)]
pub struct Use {
    /// The index of the request among those of the session.
    pub request: usize,
    /// ExpStatSN of its PDU: the initiator had received each answer before this number when it sent it.
    pub known: Serial,
}

/// The uses of a tag, in order, from the one on that was answered last.
#[derive(Drop)]
pub(crate) struct Uses {
    current: Use,
    later: VecDeque<Use>,
}

impl Uses {
    /// The first use of a tag. It takes no memory.
    pub(crate) fn of(alloc: Global, first: Use) -> Uses
        ensures current { result.current ≡ first }
        ensures later { result.later.items ≡ [] }
    {
        Uses {
            current: first,
            later: VecDeque::new(alloc),
        }
    }

    /// Appends a use. If memory runs out, they are as they were.
    pub(crate) fn push(&mut self, last: Use) -> Result<(), AllocError>
        ensures current { self.new.current ≡ self.old.current }
        ensures ok { OnOk result (self.new.later.items ≡ self.old.later.items ++ last ∷ []) }
        ensures err { OnErr result (self.new.later.items ≡ self.old.later.items) }
    {
        self.later.push_back(last)?;
        Ok(())
    }

    /// The last use.
    pub(crate) fn latest(&self) -> Use
        ensures value { result ≡ latest_from self.now.current self.now.later.items }
    {
        match self.later.back() {
            Some(last) => *last,
            None => self.current,
        }
    }

    /// The current use.
    pub(crate) fn current(&self) -> Use
        ensures value { result ≡ self.now.current }
    {
        self.current
    }

    /// Gives up the current use for the next one, and says whether there is a next one.
    pub(crate) fn pass_on(&mut self) -> bool
        ensures moved { result ≡ true
            → self.old.later.items ≡ self.new.current ∷ self.new.later.items }
        ensures last { result ≡ false → self.old.later.items ≡ [] }
    {
        match self.later.pop_front() {
            Some(next) => {
                self.current = next;
                true
            }
            None => false,
        }
    }

    /// Moves on to the use that an answer at this StatSN belongs to.
    pub(crate) fn settle(&mut self, at: Option<Serial>)
        ensures moved { self.new.current ∷ self.new.later.items
            ≡ uses_at at (self.old.current ∷ self.old.later.items) }
    {
        match at {
            Some(at) => self.move_on(at),
            None => {}
        }
    }

    // Moves on to the use that an answer with this StatSN belongs to.
    fn move_on(&mut self, at: Serial)
        ensures moved { self.new.current ∷ self.new.later.items
            ≡ uses_from at self.old.current self.old.later.items }
    {
        while let Some(next) = self.take_next(at) {
            self.current = next;
        }
    }

    // Takes the next use out, if an answer with this StatSN was not known to it.
    fn take_next(&mut self, at: Serial) -> Option<Use>
        ensures current { self.new.current ≡ self.old.current }
        ensures taken { MatchOption result
            ((self.new.later.items ≡ self.old.later.items)
            × (uses_from at self.old.current self.old.later.items
            ≡ self.old.current ∷ self.old.later.items))
            (λ next. (self.old.later.items ≡ next ∷ self.new.later.items)
            × (is_before at next.known ≡ false)) }
    {
        let next = *self.later.front()?;
        if at.before(next.known) {
            return None;
        }
        self.later.pop_front()
    }
}
