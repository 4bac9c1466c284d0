//! The uses of all tags of a session.

ghost use Rattle.std.specs.Prelude.{◌≡◌, ◌++◌, ◌==◌, ◌∷◌, [], ℕ, if◌then◌else◌, None, OnOk, OnErr};
ghost use Rattle.iscsi_tasks.specs.Numbering.{next_after, stands_at};
ghost use Rattle.iscsi_tasks.specs.Tasks.{answered_request, first_request, is_known_at, latest_request, next_of, uses_after, uses_of};
ghost use Rattle.iscsi_tasks.specs.Uses.{uses_at, uses_without};

use crate::numbering::{answered_tag, next_after, stands_at};
use crate::uses::{Use, Uses};
use iscsi_pdu::{Head, Serial};
use std::alloc::{AllocError, Global};
use std::collections::HashMap;

/// The uses of all tags of a session, as far as they may still be answered, and the next StatSN.
#[derive(Drop)]
pub struct Tasks {
    alloc: Global,
    uses: HashMap<u32, Uses>,
    next: Option<Serial>,
}

impl Tasks {
    /// A session of which nothing was heard. It takes no memory.
    pub fn new(alloc: Global) -> Tasks
        ensures uses { (tag : ℕ) → uses_of result tag ≡ [] }
        ensures next { next_of result ≡ None }
    {
        Tasks {
            alloc,
            uses: HashMap::new(alloc),
            next: None,
        }
    }

    /// Notes that the initiator uses a tag from now on. If memory runs out, nothing is noted.
    pub fn begin(&mut self, tag: u32, begun: Use) -> Result<(), AllocError>
        ensures ok { OnOk result ((t : ℕ) → uses_of self.new t ≡ (if t == tag
            then uses_of self.old t ++ begun ∷ [] else uses_of self.old t)) }
        ensures err { OnErr result ((t : ℕ) → uses_of self.new t ≡ uses_of self.old t) }
        ensures next { next_of self.new ≡ next_of self.old }
    {
        if let Some(uses) = self.uses.get_mut(&tag) {
            return uses.push(begun);
        }
        self.uses.insert(tag, Uses::of(self.alloc, begun))?;
        Ok(())
    }

    /// The request that used a tag last: further data of the initiator under the tag belong to it.
    pub fn latest(&self, tag: u32) -> Option<usize>
        ensures value { result ≡ latest_request (uses_of self.now tag) }
    {
        match self.uses.get(&tag) {
            Some(uses) => Some(uses.latest().request),
            None => None,
        }
    }

    /// Hears a PDU of the target, and returns the request that it belongs to, if there is one.
    pub fn hear(&mut self, head: &Head) -> Option<usize>
        ensures value { result ≡ answered_request self.old head.now }
        ensures uses { (tag : ℕ) → uses_of self.new tag ≡ uses_after self.old head.now tag }
        ensures next { next_of self.new ≡ next_after (next_of self.old) head.now }
    {
        let at = stands_at(self.next, head);
        self.next = next_after(self.next, head);
        match answered_tag(head) {
            Some(tag) => self.answer(tag, at),
            None => None,
        }
    }

    /// Whether the initiator had received a PDU of the target, which was not heard yet, when it sent one
    /// with this ExpStatSN.
    pub fn is_known(&self, head: &Head, known: Serial) -> bool
        ensures value { result ≡ is_known_at known (stands_at (next_of self.now) head.now) }
    {
        match stands_at(self.next, head) {
            Some(at) => at.before(known),
            None => true,
        }
    }

    /// Forgets the use of a tag by a request, if an answer to the tag would belong to that one now. No
    /// later answer belongs to it then.
    pub fn forget(&mut self, tag: u32, request: usize)
        ensures uses { (t : ℕ) → uses_of self.new t ≡ (if t == tag
            then uses_without request (uses_of self.old t) else uses_of self.old t) }
        ensures next { next_of self.new ≡ next_of self.old }
    {
        let Some(uses) = self.uses.get_mut(&tag) else {
            return;
        };
        if uses.current().request != request || uses.pass_on() {
            return;
        }
        self.uses.remove(&tag);
    }

    // Moves a tag on to the use that an answer at this StatSN belongs to, and returns its request.
    fn answer(&mut self, tag: u32, at: Option<Serial>) -> Option<usize>
        ensures value { result ≡ first_request (uses_at at (uses_of self.old tag)) }
        ensures uses { (t : ℕ) → uses_of self.new t ≡ (if t == tag
            then uses_at at (uses_of self.old t) else uses_of self.old t) }
        ensures next { next_of self.new ≡ next_of self.old }
    {
        let uses = self.uses.get_mut(&tag)?;
        uses.settle(at);
        Some(uses.current().request)
    }
}
