//! A recorded session, byte by byte of both its ends.

use crate::fault::{JobFault, Reason, Which};
use crate::recording::{At, Noted};
use crate::state::Recording;
use iscsi_pdu::{Head, Serial};
use iscsi_stream::{Framer, LONGEST_SEGMENT, StreamFault};
use iscsi_tasks::{acknowledged, answered_tag};
use std::alloc::{AllocError, Global};
use std::collections::VecDeque;

/// How many requests may be held behind one without an outcome: that one is unanswered then (own rule).
pub const MOST_HELD: usize = 1_048_576;
/// How many bytes of data may be held with them (own rule).
pub const MOST_DATA: usize = 1_073_741_824;

/// The stream of an end: its framer, how many PDUs it had, and whether more comes.
#[derive(Drop)]
struct Ear {
    which: Which,
    framer: Framer,
    pdus: u64,
    is_over: bool,
    fault: Option<JobFault>,
}

/// A PDU of the target that its initiator is not known to have received.
#[derive(Drop)]
struct Held {
    head: Head,
    bytes: Vec<u8>,
    place: u64,
    pdu: u64,
    now: u64,
}

/// Task management that was asked for: what it gives up, once it is done.
#[derive(Clone, Copy)]
struct GivingUp {
    // its own tag
    tag: u32,
    // the tag of the one task that it gives up; none where it gives up all
    referenced: Option<u32>,
    // how many requests were noted before it
    before: usize,
}

/// ABORT TASK (RFC 7143, section 11.5.1).
const ABORT_TASK: u8 = 1;
/// CLEAR ACA and TASK REASSIGN, which give no task up.
const OTHERS: [u8; 2] = [3, 8];
/// How many requests without an outcome are remembered, to pass over answers that come too late.
const MOST_LATE: usize = 1024;

/// A recorded session that is heard as it goes, in pieces of any length. The requests that have an outcome
/// can be taken out meanwhile.
///
/// A PDU of the target is heard once the initiator is known to have received it, or has ended. So it makes
/// no difference which end's bytes come first.
#[derive(Drop)]
pub struct Recorder {
    alloc: Global,
    recording: Recording,
    initiator: Ear,
    target: Ear,
    held: VecDeque<Held>,
    // the last ExpStatSN of the initiator
    known: Option<Serial>,
    // how many bytes of data the requests have that were not taken out
    data: usize,
    // how many requests were noted, and how many were taken out
    asked: usize,
    taken: usize,
    // task management without an answer
    open: Vec<GivingUp>,
    // task management that is done
    done: Vec<GivingUp>,
    // the tags of the last requests that were taken out without an outcome
    late: VecDeque<u32>,
}

impl Recorder {
    /// A session of which nothing was heard. It takes no memory.
    pub fn new(alloc: Global) -> Recorder {
        Recorder {
            alloc,
            recording: Recording::new(alloc),
            initiator: Ear::new(alloc, Which::Initiator),
            target: Ear::new(alloc, Which::Target),
            held: VecDeque::new(alloc),
            known: None,
            data: 0,
            asked: 0,
            taken: 0,
            open: Vec::new(alloc),
            done: Vec::new(alloc),
            late: VecDeque::new(alloc),
        }
    }

    /// Takes bytes of an end, which came at this time in nanoseconds. What follows a PDU that has no place
    /// in a job is passed over. Returns `NoMemory` alone; nothing is said of the session after that.
    pub fn hear(&mut self, which: Which, now: u64, bytes: &[u8]) -> Result<(), JobFault> {
        let mut rest = bytes;
        for _ in 0..u64::MAX {
            let Some(count) = self.ear(which).feed(rest)? else {
                return Ok(());
            };
            rest = rest.get(count..).unwrap_or(&[]);
            if !self.take(which, now)? && rest.is_empty() {
                return Ok(());
            }
        }
        Ok(())
    }

    /// No more bytes of an end come: its stream ends here, or for this reason.
    pub fn end(&mut self, which: Which, fault: Option<JobFault>) -> Result<(), JobFault> {
        self.ear(which).end(fault);
        self.hear_held()
    }

    /// Why the stream of an end has no job from some PDU on.
    pub fn fault(&self, which: Which) -> Option<JobFault> {
        match which {
            Which::Initiator => self.initiator.fault,
            Which::Target => self.target.fault,
        }
    }

    /// The end whose bytes are wanted next; `None` if both have ended.
    pub fn wants(&self) -> Option<Which> {
        match (self.initiator.is_over, self.target.is_over) {
            (true, true) => None,
            (true, false) => Some(Which::Target),
            (false, true) => Some(Which::Initiator),
            (false, false) if self.held.is_empty() => Some(Which::Target),
            (false, false) => Some(Which::Initiator),
        }
    }

    /// Takes the next request out, in the order of the initiator's stream, if it has its outcome, or will
    /// have none: task management gave it up, the target has ended, or 1,048,576 requests or 1 GiB of data
    /// are held with it.
    pub fn take_next(&mut self) -> Option<Noted> {
        let front = self.recording.front()?;
        let is_full = self.recording.held() > MOST_HELD || self.data > MOST_DATA;
        let tag = front.tag;
        let is_answered = front.item.ended.is_some();
        if !is_answered && !self.is_over() && !is_full && !self.is_given_up(tag) {
            return None;
        }
        let noted = self.recording.take_front()?;
        self.taken = self.taken.saturating_add(1);
        let taken = self.taken;
        self.done.retain(|done| done.before > taken);
        if !is_answered {
            self.remember(tag);
        }
        let data = noted
            .item
            .sent
            .len()
            .saturating_add(noted.item.received.len());
        self.data = if self.recording.held() == 0 {
            0
        } else {
            self.data.saturating_sub(data)
        };
        Some(noted)
    }

    // Whether task management that is done gave the first request up, which has this tag. No answer to it
    // comes after that (RFC 7143, section 11.5.1).
    fn is_given_up(&self, tag: u32) -> bool {
        let taken = self.taken;
        self.done.iter().any(|done| {
            done.before > taken && (done.referenced.is_none() || done.referenced == Some(tag))
        })
    }

    // Remembers the tag of a request without an outcome. If memory runs out, it is not remembered.
    fn remember(&mut self, tag: u32) {
        if self.late.len() >= MOST_LATE {
            self.late.pop_front();
        }
        let _ = self.late.push_back(tag);
    }

    // Notes what a PDU of the initiator gives up, if it is of task management.
    fn note_giving_up(&mut self, head: &Head) -> Result<(), AllocError> {
        let Head::TaskRequest(head) = head else {
            return Ok(());
        };
        if OTHERS.contains(&head.function) {
            return Ok(());
        }
        let is_one = head.function == ABORT_TASK;
        self.open.push(GivingUp {
            tag: head.initiator_task_tag,
            referenced: is_one.then_some(head.referenced_task_tag),
            before: self.asked,
        })?;
        Ok(())
    }

    // Notes that task management is done, if a PDU of the target says so.
    fn note_given_up(&mut self, head: &Head) -> Result<(), AllocError> {
        let Head::TaskResponse(head) = head else {
            return Ok(());
        };
        let tag = head.initiator_task_tag;
        let Some(index) = self.open.iter().position(|open| open.tag == tag) else {
            return Ok(());
        };
        let given_up = self.open.remove(index);
        if head.response == 0 {
            self.done.push(given_up)?;
        }
        Ok(())
    }

    // Whether a PDU of the target answers a request that was taken out without an outcome.
    fn is_late(&self, head: &Head) -> bool {
        match answered_tag(head) {
            Some(tag) => self.late.iter().any(|late| *late == tag),
            None => false,
        }
    }

    // Whether no more answers come.
    fn is_over(&self) -> bool {
        self.target.is_over && self.held.is_empty()
    }

    fn ear(&mut self, which: Which) -> &mut Ear {
        match which {
            Which::Initiator => &mut self.initiator,
            Which::Target => &mut self.target,
        }
    }

    // Takes the PDU of an end that is ready, and says whether one was.
    fn take(&mut self, which: Which, now: u64) -> Result<bool, JobFault> {
        match which {
            Which::Initiator => self.take_request(now),
            Which::Target => self.take_answer(now),
        }
    }

    // Hears the PDU of the initiator that is ready, and those of the target that it acknowledges.
    fn take_request(&mut self, now: u64) -> Result<bool, JobFault> {
        let at = At {
            place: self.initiator.framer.place(),
            pdu: self.initiator.pdus.saturating_add(1),
            now,
        };
        let Some(pdu) = self.initiator.framer.pdu() else {
            return Ok(false);
        };
        let head = pdu.head;
        let reason = if at.pdu == 1 && !matches!(head, Head::LoginRequest(_)) {
            Some(Reason::Late)
        } else {
            self.data = self.data.saturating_add(pdu.bytes.len());
            self.recording.ask(at, &pdu.head, pdu.bytes)?
        };
        self.initiator.go_on();
        self.note_giving_up(&head)?;
        self.asked = self.taken.saturating_add(self.recording.held());
        match reason {
            Some(reason) => self.initiator.refuse(reason, at.place, at.pdu),
            None => self.known = acknowledged(&head),
        }
        self.hear_held()?;
        Ok(true)
    }

    // Keeps the PDU of the target that is ready, and hears those that are acknowledged.
    fn take_answer(&mut self, now: u64) -> Result<bool, JobFault> {
        let place = self.target.framer.place();
        let number = self.target.pdus.saturating_add(1);
        let Some(pdu) = self.target.framer.pdu() else {
            return Ok(false);
        };
        let bytes = pdu.bytes.to_vec(self.alloc)?;
        self.held.push_back(Held {
            head: pdu.head,
            bytes,
            place,
            pdu: number,
            now,
        })?;
        self.target.go_on();
        self.hear_held()?;
        Ok(true)
    }

    // Hears the PDUs of the target that the initiator is known to have received; all of them if it has
    // ended.
    fn hear_held(&mut self) -> Result<(), JobFault> {
        for _ in 0..u64::MAX {
            let Some(held) = self.next_held() else {
                return Ok(());
            };
            self.hear_answer(&held)?;
        }
        Ok(())
    }

    // Takes the next PDU of the target out that may be heard.
    fn next_held(&mut self) -> Option<Held> {
        let front = self.held.front()?;
        let is_known = match self.known {
            Some(known) => self.recording.is_known(&front.head, known),
            None => false,
        };
        if is_known || self.initiator.is_over {
            self.held.pop_front()
        } else {
            None
        }
    }

    // Hears a PDU of the target. Behind a fault none is heard.
    fn hear_answer(&mut self, held: &Held) -> Result<(), JobFault> {
        if self.target.fault.is_some() {
            return Ok(());
        }
        let reason = if held.pdu == 1 && !matches!(held.head, Head::LoginResponse(_)) {
            Some(Reason::Late)
        } else {
            self.data = self.data.saturating_add(held.bytes.len());
            self.note_given_up(&held.head)?;
            self.recording.answer(held.now, &held.head, &held.bytes)?
        };
        match reason {
            None => {}
            // Answers to requests that were not read are passed over.
            Some(Reason::Unasked) if self.initiator.fault.is_some() || self.is_late(&held.head) =>
                {}
            Some(reason) => self.target.refuse(reason, held.place, held.pdu),
        }
        Ok(())
    }
}

impl Ear {
    fn new(alloc: Global, which: Which) -> Ear {
        Ear {
            which,
            framer: Framer::new(alloc, LONGEST_SEGMENT),
            pdus: 0,
            is_over: false,
            fault: None,
        }
    }

    // Has the framer take bytes up to the end of a PDU, and says how many; nothing of a stream that is
    // over.
    fn feed(&mut self, bytes: &[u8]) -> Result<Option<usize>, JobFault> {
        if self.is_over {
            return Ok(None);
        }
        match self.framer.feed(bytes) {
            Ok(count) => Ok(Some(count)),
            Err(StreamFault::NoMemory) => Err(JobFault::NoMemory),
            Err(fault) => {
                self.stop(JobFault::Stream(self.which, fault));
                Ok(None)
            }
        }
    }

    // Gives the PDU up that was ready.
    fn go_on(&mut self) {
        self.framer.take();
        self.pdus = self.pdus.saturating_add(1);
    }

    // The stream ends, or stops for this reason.
    fn end(&mut self, fault: Option<JobFault>) {
        if self.is_over {
            return;
        }
        self.is_over = true;
        self.fault = match (fault, self.framer.finish()) {
            (Some(fault), _) => Some(fault),
            (None, Err(fault)) => Some(JobFault::of_stream(self.which, fault)),
            (None, Ok(())) => None,
        };
    }

    fn stop(&mut self, fault: JobFault) {
        self.is_over = true;
        self.fault = Some(fault);
    }

    // A PDU has no place in a job.
    fn refuse(&mut self, reason: Reason, place: u64, pdu: u64) {
        self.stop(JobFault::Refused {
            which: self.which,
            reason,
            place,
            pdu,
        });
    }
}
