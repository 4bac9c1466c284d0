//! The requests of a session, PDU by PDU of both its ends.

ghost use Rattle.std.specs.Prelude.{◌≡◌, ◌≤◌, ◌-◌, ◌+◌, ◌^◌, ◌<◌, ℕ, [], IfOk, None, Some, OnErr, OnOk, length, option_map, slice_get};
ghost use Rattle.iscsi_pdu.specs.Meaning.{HeadFits};
ghost use Rattle.iscsi_tasks.specs.Numbering.{acknowledged};
ghost use Rattle.iscsi_tasks.specs.Tasks.{is_known_at, next_of, uses_of};
ghost use Rattle.iscsi_tasks.specs.Numbering.{stands_at};
ghost use Rattle.iscsi_job.specs.Recordings.{AnswerStep, AsksKnown, AskStep, GivesData, GivesFront, noted_given, recorded, slot};

use crate::answers;
use crate::fault::{JobFault, Reason};
use crate::item::{Asked, Item};
use crate::requests::{Heard, give, note, said_by};
use crate::state::Recording;
use iscsi_pdu::{Head, Serial};
use iscsi_tasks::{Tasks, Use, acknowledged};
use std::alloc::{AllocError, Global};
use std::collections::VecDeque;
use std::marker::Model;

/// Where a PDU of the initiator stands, and when it was sent.
#[derive(Clone, Copy)]
pub struct At {
    /// The number of the initiator's bytes before it.
    pub place: u64,
    /// Its number, from 1.
    pub pdu: u64,
    /// When it was sent, in nanoseconds; 0 where that is not known.
    pub now: u64,
}

/// A request of a recording, with its tag.
#[derive(Drop)]
pub struct Noted {
    /// Its initiator task tag (RFC 7143, section 11.2.1.8).
    pub tag: u32,
    /// The number of the initiator's bytes before its PDU.
    pub place: u64,
    /// The number of its PDU, from 1.
    pub pdu: u64,
    /// The request, and what came of it so far.
    pub item: Item,
    /// When it was sent, in nanoseconds; 0 where that is not known.
    pub sent: u64,
    /// When the last PDU that answers it came; 0 where none did, or that is not known.
    pub answered: u64,
}

impl Model for Noted {
    ghost use Rattle.iscsi_job.specs.Jobs.{NotedRequest as NotedItem};

    ghost Value = { NotedItem };

    ghost view = { λ n. record { tag = n.tag; place = n.place; pdu = n.pdu; item = n.item } };
}

impl Recording {
    /// A recording of which nothing was heard. It takes no memory.
    pub fn new(alloc: Global) -> Recording
        ensures given { (recorded result).given ≡ 0 }
        ensures noted { (recorded result).noted ≡ [] }
        ensures uses { (tag : ℕ) → uses_of (recorded result).tasks tag ≡ [] }
        ensures next { next_of (recorded result).tasks ≡ None }
    {
        Recording {
            alloc,
            given: 0,
            noted: VecDeque::new(alloc),
            tasks: Tasks::new(alloc),
        }
    }

    /// How many requests are held.
    pub fn held(&self) -> usize
        ensures { result ≡ length (recorded self.now).noted }
    {
        self.noted.len()
    }

    /// The first request that is held, with what came of it so far.
    pub fn front(&self) -> Option<&Noted>
        ensures { option_map (λ noted. noted.now) result ≡ slice_get (recorded self.now).noted 0 }
    {
        self.noted.front()
    }

    /// Takes the first request that is held out. No later PDU says anything of it.
    pub fn take_front(&mut self) -> Option<Noted>
        ensures gives { GivesFront (recorded self.old) result (recorded self.new) }
    {
        let noted = self.noted.pop_front()?;
        self.tasks.forget(noted.tag, self.given);
        self.given += 1;
        Some(noted)
    }

    /// Whether the initiator had received a PDU of the target, which was not heard yet, when it sent one
    /// with this ExpStatSN.
    pub fn is_known(&self, head: &Head, known: Serial) -> bool
        ensures value { result
            ≡ is_known_at known (stands_at (next_of (recorded self.now).tasks) head.now) }
    {
        self.tasks.is_known(head, known)
    }

    /// Hears a PDU of the initiator: notes what it asks, or says why it has no place in a job. After a
    /// fault the requests are as they were.
    pub fn ask(&mut self, at: At, head: &Head, bytes: &[u8]) -> Result<Option<Reason>, JobFault>
        requires fits { HeadFits head.now }
        ensures step { IfOk result (λ refusal.
            AskStep (recorded self.old) at head.now bytes.now refusal (recorded self.new)) }
        ensures err { OnErr result ((recorded self.new).noted ≡ (recorded self.old).noted) }
    {
        match said_by(head, bytes) {
            Heard::Asks(tag, asked) => self.begin(at, tag, asked, head, bytes),
            Heard::Gives(tag, offset) => Ok(self.pass_on(tag, offset, bytes)?),
            Heard::Nothing => Ok(None),
            Heard::Refuses(reason) => Ok(Some(reason)),
        }
    }

    // Notes a request, and that it uses its tag from now on.
    fn begin(
        &mut self,
        at: At,
        tag: u32,
        asked: Asked,
        head: &Head,
        bytes: &[u8],
    ) -> Result<Option<Reason>, JobFault>
        ensures step { IfOk result (λ refusal. AsksKnown (acknowledged head.now) (recorded self.old) at
            tag asked bytes.now refusal (recorded self.new)) }
        ensures err { OnErr result ((recorded self.new).noted ≡ (recorded self.old).noted) }
    {
        let Some(known) = acknowledged(head) else {
            return Ok(Some(Reason::Kind));
        };
        let request = self.given + self.noted.len();
        if request == usize::MAX {
            return Err(JobFault::NoMemory);
        }
        self.tasks.begin(tag, Use { request, known })?;
        note(self.alloc, &mut self.noted, at, tag, asked, bytes)?;
        Ok(None)
    }

    // Gives bytes to the last request with a tag.
    fn pass_on(&mut self, tag: u32, offset: u32, bytes: &[u8]) -> Result<Option<Reason>, AllocError>
        ensures step { IfOk result (λ refusal.
            GivesData (recorded self.old) tag offset bytes.now refusal (recorded self.new)) }
        ensures err { OnErr result ((recorded self.new).noted ≡ (recorded self.old).noted) }
    {
        let latest = slot(self.given, self.tasks.latest(tag));
        give_to(&mut self.noted, latest, offset, bytes)
    }

    /// Hears a PDU of the target that came at this time: notes what it answers, or says why it has no
    /// place in a job. If memory runs out, nothing is noted of it.
    pub fn answer(
        &mut self,
        now: u64,
        head: &Head,
        bytes: &[u8],
    ) -> Result<Option<Reason>, AllocError>
        ensures step { IfOk result (λ refusal.
            AnswerStep (recorded self.old) head.now bytes.now refusal (recorded self.new)) }
        ensures err { OnErr result ((recorded self.new).noted ≡ (recorded self.old).noted) }
    {
        answers::take(
            self.given,
            &mut self.noted,
            &mut self.tasks,
            now,
            head,
            bytes,
        )
    }
}

// Which of the requests that are held one is, if it was not taken out.
pub(crate) fn slot(given: usize, request: Option<usize>) -> Option<usize>
    ensures value { result ≡ slot given request }
{
    match request {
        Some(request) if request >= given => Some(request - given),
        _ => None,
    }
}

// Gives bytes to the request with an index.
fn give_to(
    noted: &mut VecDeque<Noted>,
    index: Option<usize>,
    offset: u32,
    bytes: &[u8],
) -> Result<Option<Reason>, AllocError>
    ensures refusal { IfOk result (λ refusal.
        refusal ≡ (noted_given noted.old.items index offset bytes.now).refusal) }
    ensures noted { OnOk result (noted.new.items
        ≡ (noted_given noted.old.items index offset bytes.now).noted) }
    ensures err { OnErr result (noted.new.items ≡ noted.old.items) }
{
    let Some(index) = index else {
        return Ok(Some(Reason::Unasked));
    };
    let Some(found) = noted.get_mut(index) else {
        return Ok(Some(Reason::Unasked));
    };
    give(&mut found.item, offset, bytes)
}
