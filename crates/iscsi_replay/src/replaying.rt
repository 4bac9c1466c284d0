//! A job, done again request by request. One file, since its steps share one state.

use crate::comparing::{additional_sense, are_same, is_good, is_unit_attention};
use crate::delays::Delays;
use crate::fault::ReplayFault;
use crate::ignoring::Ignored;
use crate::kinds::{Kinds, kind_of};
use crate::live::Live;
use crate::peer::Peer;
use iscsi_initiator::{Done, Request};
use iscsi_job::{Asked, Item, Outcome, outcome_of};
use iscsi_job_text::{Time, write_outcome_from, write_request};
use iscsi_stream::write_fully;
use std::alloc::{AllocError, Global};
use std::io::Write;

/// How a job is done again.
#[derive(Clone, Copy)]
pub struct Plan {
    /// The commands whose data may differ.
    pub ignored: Ignored,
    /// Whether one goes on behind a difference.
    pub all: bool,
    /// The logical unit of each command; none: that which was recorded.
    pub unit: Option<u8>,
    /// How many unit attentions of the live target may be passed over.
    pub attentions: u32,
    /// Whether a request is not sent earlier than it was in the recording, counted from the first one.
    pub timing: bool,
}

/// How many requests were done, of how many the outcome differs, and how many were passed over.
#[derive(Clone, Copy)]
pub struct Tally {
    /// Requests that were done.
    pub done: u64,
    /// Of these, those with an outcome that differs from the recorded one.
    pub differ: u64,
    /// Requests that an initiator can't be asked for: task management, writes that lack data, and commands
    /// that move data and expect none. They are not done again.
    pub passed: u64,
    /// Unit attentions that were passed over: the command was done again behind each.
    pub attentions: u64,
}

/// A job that is done again request by request, and what came of it so far.
#[derive(Drop)]
pub struct Replaying {
    alloc: Global,
    plan: Plan,
    tally: Tally,
    // the number of the last request, from 1
    number: u64,
    // whether the first command that a unit attention may answer is still to come
    is_due: bool,
    // when the first request with a time was sent, now and in the recording
    began: Option<(u64, u64)>,
    kinds: Kinds,
    recorded: Delays,
    live: Delays,
}

// A request of a job.
#[derive(Clone, Copy)]
struct Step<'a> {
    alloc: Global,
    // Its number, from 1.
    number: u64,
    item: &'a Item,
    plan: &'a Plan,
    // Whether it is the first command that a unit attention may answer.
    is_first: bool,
}

// What doing a request again showed.
#[derive(Drop)]
enum Shown {
    // It was not done.
    Nothing,
    // A unit attention came in place of its outcome.
    Attention,
    // Nothing that differs, in this many nanoseconds.
    Same(u64),
    // Another outcome than the recorded one, of this kind, in this many nanoseconds.
    Other(String, u64),
}

// How an outcome is judged.
#[derive(Clone, Copy, PartialEq, Eq)]
enum Judged {
    Attention,
    Same,
    Other,
}

impl Replaying {
    /// Logs in, for a job that is done again so.
    pub fn begin<P: Peer>(
        alloc: Global,
        plan: Plan,
        live: &mut Live<P>,
    ) -> Result<Replaying, ReplayFault> {
        if let Err(fault) = live.log_in() {
            return Err(ReplayFault::login(fault));
        }
        Ok(Replaying {
            alloc,
            plan,
            tally: Tally {
                done: 0,
                differ: 0,
                passed: 0,
                attentions: 0,
            },
            number: 0,
            is_due: true,
            began: None,
            kinds: Kinds::new(alloc),
            recorded: Delays::new(alloc)?,
            live: Delays::new(alloc)?,
        })
    }

    /// Does the next request of the job, and says whether one goes on. Lines on differences go to `w`, and
    /// what is told beside them to `errors`.
    ///
    /// Without `all` it stops behind the first request whose outcome differs. As many unit attentions as the
    /// plan says are passed over where none was recorded: each is told, and the command is done again. If the
    /// recorded first command met one, and the live one is done with status GOOD, that is told, too, and is
    /// no difference: of its data nothing was recorded. Neither is one that the live command meets with
    /// another sense. What an initiator can't be asked for is told and passed over.
    pub fn redo<P: Peer, W: Write, E: Write>(
        &mut self,
        live: &mut Live<P>,
        item: &Item,
        time: Option<Time>,
        w: &mut W,
        errors: &mut E,
    ) -> Result<bool, ReplayFault> {
        self.number = self.number.saturating_add(1);
        if let (true, Some(time)) = (self.plan.timing, time) {
            self.wait(live, time)?;
        }
        let is_first = self.is_due && may_meet_attention(item);
        self.is_due = self.is_due && !is_first;
        let most = u64::from(self.plan.attentions);
        for _ in 0..=most {
            let passes = self.tally.attentions < most;
            let step = Step {
                alloc: self.alloc,
                number: self.number,
                item,
                plan: &self.plan,
                is_first,
            };
            let shown = step.attempt(live, w, errors, passes)?;
            if self.count(shown, time)? {
                break;
            }
        }
        Ok(self.tally.differ == 0 || self.plan.all)
    }

    /// How many requests were done, and what came of them.
    pub fn tally(&self) -> Tally {
        self.tally
    }

    /// Ends the session, if the job did not. What comes of that is no part of the job.
    pub fn end<P: Peer>(&self, live: &mut Live<P>) {
        if live.is_open() {
            let _ = live.perform(Request::Logout);
        }
    }

    /// Appends a summary: how many requests differ, and how many were passed over; how often each kind of
    /// difference came; the median and the 99th percentile of the times that requests took, in the recording
    /// if the job has times, and now.
    pub fn write_summary(&self, text: &mut String) -> Result<(), AllocError> {
        let Tally {
            done,
            differ,
            passed,
            ..
        } = self.tally;
        writeln!(text, "{differ} of {done} differ, {passed} passed over")?;
        self.kinds.write(text)?;
        write_delays("recorded", &self.recorded, text)?;
        write_delays("now", &self.live, text)
    }

    // Waits until as much time has passed since the first request as in the recording.
    fn wait<P: Peer>(&mut self, live: &mut Live<P>, time: Time) -> Result<(), ReplayFault> {
        let number = self.number;
        let now = match live.now() {
            Ok(now) => now,
            Err(fault) => return Err(fault.at(number)),
        };
        let Some((began, first)) = self.began else {
            self.began = Some((now, time.sent));
            return Ok(());
        };
        let due = began.saturating_add(time.sent.saturating_sub(first));
        if due <= now {
            return Ok(());
        }
        match live.rest(due - now) {
            Ok(()) => Ok(()),
            Err(fault) => Err(fault.at(number)),
        }
    }

    // Counts what a request showed, and says whether it is over with it.
    fn count(&mut self, shown: Shown, time: Option<Time>) -> Result<bool, AllocError> {
        match shown {
            Shown::Nothing => self.tally.passed = self.tally.passed.saturating_add(1),
            Shown::Attention => {
                self.tally.attentions = self.tally.attentions.saturating_add(1);
                return Ok(false);
            }
            Shown::Same(took) => self.count_done(took, time),
            Shown::Other(kind, took) => {
                self.count_done(took, time);
                self.tally.differ = self.tally.differ.saturating_add(1);
                self.kinds.add(kind)?;
            }
        }
        Ok(true)
    }

    // Counts a request that was done.
    fn count_done(&mut self, took: u64, time: Option<Time>) {
        self.tally.done = self.tally.done.saturating_add(1);
        self.live.add(took);
        if let Some(
            Time {
                took: Some(recorded),
                ..
            },
        ) = time
        {
            self.recorded.add(recorded);
        }
    }
}

// Appends the line of the times that requests took, in milliseconds; nothing if there is none.
fn write_delays(name: &str, delays: &Delays, text: &mut String) -> Result<(), AllocError> {
    let (Some(median), Some(most)) = (delays.percentile(50), delays.percentile(99)) else {
        return Ok(());
    };
    write!(text, "{name}: median ")?;
    write_milliseconds(median, text)?;
    text.push_str(", 99th percentile ")?;
    write_milliseconds(most, text)?;
    text.push_str("\n")
}

// Appends a time in milliseconds, to the microsecond.
fn write_milliseconds(nanoseconds: u64, text: &mut String) -> Result<(), AllocError> {
    let microseconds = nanoseconds / 1000;
    let (whole, part) = (microseconds / 1000, microseconds % 1000);
    write!(text, "{whole}.{part:03} ms")
}

// Whether the request is a command that a unit attention may answer: all but INQUIRY, REPORT LUNS and
// REQUEST SENSE (SAM-5, section 5.14).
fn may_meet_attention(item: &Item) -> bool {
    match item.asked {
        Asked::Command { cdb, .. } => !matches!(cdb[0], 0x03 | 0x12 | 0xa0),
        Asked::Ping | Asked::Text | Asked::Logout | Asked::Task(_) => false,
    }
}

impl Step<'_> {
    // Does the request once. `passes` says whether a unit attention is passed over, not compared.
    fn attempt<P: Peer, W: Write, E: Write>(
        &self,
        live: &mut Live<P>,
        w: &mut W,
        errors: &mut E,
        passes: bool,
    ) -> Result<Shown, ReplayFault> {
        let began = self.now(live)?;
        let Some(done) = self.perform(live)? else {
            self.tell(self.passed_over(), errors);
            return Ok(Shown::Nothing);
        };
        let took = self.now(live)?.saturating_sub(began);
        self.show(outcome_of(&done), took, w, errors, passes)
    }

    // How many nanoseconds passed since the connection was made.
    fn now<P: Peer>(&self, live: &mut Live<P>) -> Result<u64, ReplayFault> {
        match live.now() {
            Ok(now) => Ok(now),
            Err(fault) => Err(fault.at(self.number)),
        }
    }

    // Why the request is not done again.
    fn passed_over(&self) -> &'static str {
        if self.item.lacks_data() {
            "not all data of the write, passed over"
        } else if self.item.moves_no_bytes() {
            "a command that moves data and expects none, passed over"
        } else {
            "task management, passed over"
        }
    }

    // Does the request once; nothing of one that is passed over.
    fn perform<P: Peer>(&self, live: &mut Live<P>) -> Result<Option<Done>, ReplayFault> {
        let Some(mut request) = self.item.request(self.alloc)? else {
            return Ok(None);
        };
        if let Some(unit) = self.plan.unit {
            lead_to(&mut request, unit);
        }
        match live.perform(request) {
            Ok(done) => Ok(Some(done)),
            Err(fault) => Err(fault.at(self.number)),
        }
    }

    // What an outcome shows that took this long. The lines of one that differs are written.
    fn show<W: Write, E: Write>(
        &self,
        live: Outcome<'_>,
        took: u64,
        w: &mut W,
        errors: &mut E,
        passes: bool,
    ) -> Result<Shown, ReplayFault> {
        match self.judged(live, errors, passes) {
            Judged::Attention => Ok(Shown::Attention),
            Judged::Same => Ok(Shown::Same(took)),
            Judged::Other => {
                self.write_lines(live, w)?;
                Ok(Shown::Other(self.kind(live)?, took))
            }
        }
    }

    // The kind of an outcome that differs.
    fn kind(&self, live: Outcome<'_>) -> Result<String, AllocError> {
        match self.item.outcome() {
            Some(recorded) => kind_of(self.alloc, self.item, recorded, live),
            None => Ok(String::new(self.alloc)),
        }
    }

    // What an outcome shows, with what is told of it. If nothing was recorded, nothing differs.
    fn judged<E: Write>(&self, live: Outcome<'_>, errors: &mut E, passes: bool) -> Judged {
        let Some(recorded) = self.item.outcome() else {
            return self.unrecorded(live, errors, passes);
        };
        if is_unit_attention(recorded) {
            if self.is_first {
                self.beside_attention(recorded, live, errors)
            } else {
                self.compared(recorded, live)
            }
        } else if passes && is_unit_attention(live) {
            self.pass_over(live, errors)
        } else {
            self.compared(recorded, live)
        }
    }

    // What an outcome shows of which nothing was recorded.
    fn unrecorded<E: Write>(&self, live: Outcome<'_>, errors: &mut E, passes: bool) -> Judged {
        if passes && is_unit_attention(live) {
            self.pass_over(live, errors)
        } else {
            Judged::Same
        }
    }

    // Tells which unit attention is passed over. If that fails, nothing changes.
    fn pass_over<E: Write>(&self, live: Outcome<'_>, errors: &mut E) -> Judged {
        let number = self.number;
        let (code, qualifier) = additional_sense(live.sense);
        let _ = writeln!(
            errors,
            "request {number}: unit attention {code:02x}/{qualifier:02x}, passed over"
        );
        Judged::Attention
    }

    // What an outcome shows where a unit attention was recorded in front. A command that was done in
    // its place counts as the same, and so does a unit attention of another sense. Both are told.
    fn beside_attention<E: Write>(
        &self,
        recorded: Outcome<'_>,
        live: Outcome<'_>,
        errors: &mut E,
    ) -> Judged {
        let judged = self.compared(recorded, live);
        if judged == Judged::Same {
            return judged;
        }
        if is_good(live) {
            self.tell(
                "the recorded unit attention did not come; the command was done (data not compared)",
                errors,
            );
            Judged::Same
        } else if is_unit_attention(live) {
            self.tell("unit attention, as recorded (sense differs)", errors);
            Judged::Same
        } else {
            judged
        }
    }

    // What an outcome shows beside the recorded one.
    fn compared(&self, recorded: Outcome<'_>, live: Outcome<'_>) -> Judged {
        if are_same(recorded, live, self.ignores_data()) {
            Judged::Same
        } else {
            Judged::Other
        }
    }

    // Tells something of the request. If that fails, nothing changes.
    fn tell<E: Write>(&self, text: &str, errors: &mut E) {
        let number = self.number;
        let _ = writeln!(errors, "request {number}: {text}");
    }

    // Whether the data of the request are left out.
    fn ignores_data(&self) -> bool {
        let item = self.item;
        match item.asked {
            Asked::Command { cdb, .. } => self.plan.ignored.has(cdb[0]),
            Asked::Ping | Asked::Text | Asked::Logout | Asked::Task(_) => false,
        }
    }

    // Writes the lines of the request.
    fn write_lines<W: Write>(&self, live: Outcome<'_>, w: &mut W) -> Result<(), ReplayFault> {
        let mut text = String::new(self.alloc);
        self.write_difference(live, &mut text)?;
        match write_fully(w, text.as_bytes()) {
            Ok(()) => Ok(()),
            Err(_) => Err(ReplayFault::Write),
        }
    }

    fn write_difference(&self, live: Outcome<'_>, text: &mut String) -> Result<(), AllocError> {
        let alloc = self.alloc;
        let number = self.number;
        write!(text, "request {number}: ")?;
        write_request(alloc, self.item, text)?;
        text.push_str("\n")?;
        let from = match self.item.outcome() {
            Some(recorded) => parting(recorded.data, live.data),
            None => 0,
        };
        write_outcome_from(alloc, "was", self.item.outcome(), from, text)?;
        write_outcome_from(alloc, "now", Some(live), from, text)
    }
}

// Has a command go to the logical unit with this number.
fn lead_to(request: &mut Request, unit: u8) {
    let unit = u64::from(unit) << 48;
    match request {
        Request::In { lun, .. } => *lun = unit,
        Request::Out { lun, .. } => *lun = unit,
        Request::Ping { .. } | Request::Text { .. } | Request::Logout => {}
    }
}

// The index from which on two lists of bytes differ.
fn parting(one: &[u8], other: &[u8]) -> usize {
    one.iter().zip(other).take_while(|(a, b)| a == b).count()
}
