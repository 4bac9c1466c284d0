//! Jobs that are done again at a target whose bytes are known. One file, since they share that target.

use crate::asserts::{same, same_bytes};
use crate::tests::texts::read_all;
use iscsi_job::{Ended, Outcome};
use iscsi_job_text::{Entry, Time};
use iscsi_replay::{
    Account, Ignored, Live, Lost, Peer, Plan, ReplayFault, Replaying, are_same, is_unit_attention,
    writes,
};
use iscsi_test_support::{SESSION, marked};
use scsi_cdb::Residual;
use std::alloc::Global;
use std::process::Abort;

/// A target that says what it says, whatever comes.
#[derive(Drop)]
pub(crate) struct Told {
    pub(crate) bytes: Vec<u8>,
    pub(crate) from: usize,
    // How often it still takes what is sent.
    pub(crate) takes: u32,
    pub(crate) now: u64,
    pub(crate) rests: bool,
}

impl Peer for Told {
    fn begin(&mut self) -> Result<(), Lost> {
        Ok(())
    }

    // It says nothing meanwhile.
    fn rest(&mut self, nanoseconds: u64) -> Result<(), Lost> {
        self.now = self.now.saturating_add(nanoseconds);
        self.rests = true;
        Ok(())
    }

    // Each look at the clock is 1 ms later.
    fn now(&mut self) -> Result<u64, Lost> {
        self.now = self.now.saturating_add(1_000_000);
        Ok(self.now)
    }

    fn send(&mut self, _bytes: &[u8]) -> Result<(), Lost> {
        self.takes = self.takes.checked_sub(1).ok_or(Lost::Late)?;
        Ok(())
    }

    // One PDU's header at a time, so that answers come behind their requests.
    fn receive(&mut self, out: &mut [u8]) -> Result<usize, Lost> {
        if self.rests {
            self.rests = false;
            return Err(Lost::Late);
        }
        let Some(rest) = self.bytes.get(self.from..) else {
            return Err(Lost::Failed);
        };
        let length = match rest {
            [_, _, _, _, _, high, middle, low, ..] => {
                let length = u32::from_be_bytes([0, *high, *middle, *low]) as usize;
                48 + length.div_ceil(4).saturating_mul(4)
            }
            _ => return Err(Lost::Closed),
        };
        let count = length.min(rest.len()).min(out.len());
        out[..count].copy_from_slice(&rest[..count]);
        self.from = self.from.saturating_add(count);
        Ok(count)
    }
}

/// The job of the session, but for its data.
const JOB: &str =
    "ping 616263\n was ping 616263\nwrite 0 4 5a\n was good\nread 3 1\n was good data 44*512\nlogout\n was closed\n";

// A text in which `44*512` stands for 512 bytes 44.
fn spelled(rt: &impl Abort, alloc: Global, text: &str) -> Vec<u8> {
    let mut out = Vec::new(alloc);
    let Some((front, rest)) = text.split_once("44*512") else {
        out.extend_from_slice(text.as_bytes()).expect(rt, "text");
        return out;
    };
    out.extend_from_slice(front.as_bytes()).expect(rt, "text");
    for _ in 0..512 {
        out.extend_from_slice(b"44").expect(rt, "digits");
    }
    out.extend_from_slice(rest.as_bytes()).expect(rt, "text");
    out
}

fn items_of(rt: &impl Abort, alloc: Global, text: &str) -> Vec<Entry> {
    let text = spelled(rt, alloc, text);
    read_all(alloc, &text).expect(rt, "a job")
}

/// A job, what of the target's bytes is another, and what is written and told.
struct Row {
    name: &'static str,
    job: &'static str,
    was: &'static str,
    is: &'static str,
    all: bool,
    written: &'static str,
    told: &'static str,
}

const ROWS: &[Row] = &[
    Row {
        name: "as recorded",
        job: JOB,
        was: "",
        is: "",
        all: false,
        written: "",
        told: "",
    },
    Row {
        name: "another status of the write",
        job: JOB,
        was: "T> 21800000 00000000 00000000 00000000 00000002",
        is: "T> 21800008 00000000 00000000 00000000 00000002",
        all: false,
        written: "request 2: write 0 4 5a\n  was good\n  now status 08\n",
        told: "",
    },
    Row {
        name: "other data of the read, and one goes on",
        job: JOB,
        was: "0000000b 00000000 00000000 00000000 44*512",
        is: "0000000b 00000000 00000000 00000000 44*510 45*2",
        all: true,
        written: "request 3: read 3 1\n  was good data of 512 bytes, from 510: 4444\n  now good data of 512 bytes, from 510: 4545\n",
        told: "",
    },
    Row {
        name: "nothing was recorded",
        job: "ping 616263\nwrite 0 4 5a\nread 3 1\nlogout\n",
        was: "",
        is: "",
        all: false,
        written: "",
        told: "",
    },
    Row {
        name: "the answer to the ping is another",
        job: "ping 616263\n was ping 616264\n",
        was: "",
        is: "",
        all: false,
        written: "request 1: ping 616263\n  was ping 616264\n  now ping 616263\n",
        told: "",
    },
    Row {
        name: "a unit attention that does not come, and task management",
        job: "ping 616263\n was ping 616263\ntask 01\n was done 00\nwrite 0 4 5a\n was status 02 sense 70000600\n",
        was: "",
        is: "",
        all: false,
        written: "",
        told: "request 2: task management, passed over\nrequest 3: the recorded unit attention did not come; the command was done (data not compared)\n",
    },
    Row {
        name: "a write of which not all data were recorded",
        job: "ping 616263\n was ping 616263\ncommand 0 2a out 5a of 8\n was status 02\nwrite 0 4 5a\n was good\n",
        was: "",
        is: "",
        all: false,
        written: "",
        told: "request 2: not all data of the write, passed over\n",
    },
    Row {
        name: "another status in place of a unit attention",
        job: "ping 616263\n was ping 616263\nwrite 0 4 5a\n was status 02 sense 70000600\n",
        was: "T> 21800000 00000000 00000000 00000000 00000002",
        is: "T> 21800008 00000000 00000000 00000000 00000002",
        all: false,
        written: "request 2: write 0 4 5a\n  was status 02 sense 70000600\n  now status 08\n",
        told: "",
    },
    Row {
        name: "a unit attention with other sense bytes",
        job: "ping 616263\n was ping 616263\nwrite 0 4 5a\n was status 02 sense 70000600\n",
        was: "T> 21800000 00000000 00000000 00000000 00000002 00000000 00000004 00000003 0000000a 00000000 00000000 00000000",
        is: "T> 21800002 00000006 00000000 00000000 00000002 00000000 00000004 00000003 0000000a 00000000 00000000 00000000 0004 f0000600 0000",
        all: false,
        written: "",
        told: "request 2: unit attention, as recorded (sense differs)\n",
    },
    Row {
        name: "another sense key in place of a unit attention",
        job: "ping 616263\n was ping 616263\nwrite 0 4 5a\n was status 02 sense 70000600\n",
        was: "T> 21800000 00000000 00000000 00000000 00000002 00000000 00000004 00000003 0000000a 00000000 00000000 00000000",
        is: "T> 21800002 00000006 00000000 00000000 00000002 00000000 00000004 00000003 0000000a 00000000 00000000 00000000 0004 f0000500 0000",
        all: false,
        written: "request 2: write 0 4 5a\n  was status 02 sense 70000600\n  now status 02 sense f0000500\n",
        told: "",
    },
    Row {
        name: "a unit attention of a later command that does not come",
        job: "ping 616263\n was ping 616263\nwrite 0 4 5a\n was good\nread 3 1\n was status 02 sense 70000600\n",
        was: "",
        is: "",
        all: false,
        written: "request 3: read 3 1\n  was status 02 sense 70000600\n  now good data of 512 bytes, from 0: 44444444444444444444444444444444\n",
        told: "",
    },
];

const ACCOUNT: Account<'static> = Account {
    initiator: b"iqn.2026-01.example:host",
    target: b"iqn.2026-01.example:disk",
    isid: [0x80, 1, 2, 3, 0, 0],
};

/// The bytes of the target in the session, in which `was` is another text.
pub(crate) fn answers(rt: &impl Abort, alloc: Global, was: &str, is: &str) -> Vec<u8> {
    if was.is_empty() {
        return marked(alloc, SESSION, "T> ").expect(rt, "lines of the target");
    }
    let dialogue = SESSION.replace(alloc, was, is).expect(rt, "a dialogue");
    marked(alloc, dialogue.as_str(), "T> ").expect(rt, "lines of the target")
}

/// What is written and told of a job.
#[derive(Drop)]
pub(crate) struct Output {
    pub(crate) written: Vec<u8>,
    pub(crate) told: Vec<u8>,
}

/// Does a job again at a target.
pub(crate) fn replayed(
    alloc: Global,
    items: &[Entry],
    peer: Told,
    all: bool,
    output: &mut Output,
) -> Result<Replaying, ReplayFault> {
    let plan = Plan {
        ignored: Ignored::NONE,
        all,
        unit: None,
        attentions: 1,
        timing: false,
    };
    replayed_so(alloc, items, peer, plan, output)
}

// Does a job again at a target, by a plan.
fn replayed_so(
    alloc: Global,
    items: &[Entry],
    peer: Told,
    plan: Plan,
    output: &mut Output,
) -> Result<Replaying, ReplayFault> {
    let Ok(mut live) = Live::new(alloc, ACCOUNT, peer) else {
        return Err(ReplayFault::NoMemory);
    };
    let mut replaying = Replaying::begin(alloc, plan, &mut live)?;
    for entry in items {
        let (w, errors) = (&mut output.written, &mut output.told);
        if !replaying.redo(&mut live, &entry.item, entry.time, w, errors)? {
            break;
        }
    }
    replaying.end(&mut live);
    Ok(replaying)
}

fn check_row(rt: &impl Abort, alloc: Global, row: &Row) {
    let peer = Told {
        bytes: answers(rt, alloc, row.was, row.is),
        from: 0,
        takes: u32::MAX,
        now: 0,
        rests: false,
    };
    let items = items_of(rt, alloc, row.job);
    let mut output = Output {
        written: Vec::new(alloc),
        told: Vec::new(alloc),
    };
    replayed(alloc, &items, peer, row.all, &mut output).expect(rt, row.name);
    same_bytes(rt, &output.written, row.written.as_bytes(), &row.name);
    same_bytes(rt, &output.told, row.told.as_bytes(), &row.name);
}

#[test]
fn jobs_that_are_done_again(rt: HostRuntime) {
    for row in ROWS {
        check_row(&rt, rt.alloc(), row);
    }
}

/// What a target answers behind the login of the session: a unit attention to each of the first two
/// commands, GOOD, a unit attention in descriptor format, and GOOD.
const ATTENTIVE: &str = "\
    T> 21800002 00000014 00000000 00000000 00000001 00000000 00000003 00000002 00000009 00000000 00000000 00000000 0012 70000600 0000000a 00000000 29000000 0000\n\
    T> 21800002 00000014 00000000 00000000 00000002 00000000 00000004 00000003 0000000a 00000000 00000000 00000000 0012 f0000600 0000000a 00000000 2a010000 0000\n\
    T> 21800000 00000000 00000000 00000000 00000003 00000000 00000005 00000004 0000000b 00000000 00000000 00000000\n\
    T> 21800002 0000000a 00000000 00000000 00000004 00000000 00000006 00000005 0000000c 00000000 00000000 00000000 0008 72063f0e 00000000\n\
    T> 21800000 00000000 00000000 00000000 00000005 00000000 00000007 00000006 0000000d 00000000 00000000 00000000\n";

/// A recorded and a live outcome, whether data are left out, and whether they are the same: how the
/// command ended, its sense and its data.
struct Pair {
    recorded: (u8, &'static [u8], &'static [u8]),
    live: (u8, &'static [u8], &'static [u8]),
    ignores_data: bool,
    due: bool,
}

const PAIRS: &[Pair] = &[
    Pair {
        recorded: (0, &[], &[1]),
        live: (0, &[], &[1]),
        ignores_data: false,
        due: true,
    },
    Pair {
        recorded: (0, &[], &[1]),
        live: (0, &[], &[2]),
        ignores_data: false,
        due: false,
    },
    Pair {
        recorded: (0, &[], &[1]),
        live: (0, &[], &[2, 3]),
        ignores_data: true,
        due: true,
    },
    Pair {
        recorded: (2, &[0x70, 0, 5], &[1]),
        live: (2, &[0x70, 0, 5], &[2]),
        ignores_data: false,
        due: true,
    },
    Pair {
        recorded: (2, &[0x70, 0, 5], &[1]),
        live: (2, &[0x70, 0, 4], &[1]),
        ignores_data: true,
        due: false,
    },
    Pair {
        recorded: (8, &[], &[1]),
        live: (8, &[], &[2]),
        ignores_data: false,
        due: true,
    },
];

fn outcome_so<'a>(of: &(u8, &'a [u8], &'a [u8])) -> Outcome<'a> {
    let (status, sense, data) = *of;
    Outcome {
        ended: Ended::Command {
            response: 0,
            status,
            residual: Residual::Exact,
        },
        sense,
        data,
    }
}

#[test]
fn outcomes_that_are_the_same(rt: HostRuntime) {
    for pair in PAIRS {
        let said = are_same(
            outcome_so(&pair.recorded),
            outcome_so(&pair.live),
            pair.ignores_data,
        );
        same(&rt, &said, &pair.due, &pair.live.1);
    }
}

/// How many unit attentions are passed over, what is written and told then, and how many were.
struct AttentionRow {
    attentions: u32,
    written: &'static str,
    told: &'static str,
    passed: u64,
}

const ATTENTIVE_ROWS: &[AttentionRow] = &[
    AttentionRow {
        attentions: 0,
        written: "request 1: tur 0\n  was good\n  now status 02 sense 700006000000000a00000000290000000000\n",
        told: "",
        passed: 0,
    },
    AttentionRow {
        attentions: 1,
        written: "request 1: tur 0\n  was good\n  now status 02 sense f00006000000000a000000002a0100000000\n",
        told: "request 1: unit attention 29/00, passed over\n",
        passed: 1,
    },
    AttentionRow {
        attentions: 2,
        written: "request 2: tur 0\n  was good\n  now status 02 sense 72063f0e00000000\n",
        told: "request 1: unit attention 29/00, passed over\nrequest 1: unit attention 2a/01, passed over\n",
        passed: 2,
    },
    AttentionRow {
        attentions: 9,
        written: "",
        told: "request 1: unit attention 29/00, passed over\nrequest 1: unit attention 2a/01, passed over\nrequest 2: unit attention 3f/0e, passed over\n",
        passed: 3,
    },
];

// The bytes of that target.
fn attentive(rt: &impl Abort, alloc: Global) -> Vec<u8> {
    let (login, _) = SESSION.split_once("! ping").expect(rt, "a login");
    let dialogue = format!(in alloc; "{login}{ATTENTIVE}").expect(rt, "a dialogue");
    marked(alloc, dialogue.as_str(), "T> ").expect(rt, "lines of the target")
}

fn check_attentions(rt: &impl Abort, alloc: Global, row: &AttentionRow) {
    let peer = Told {
        bytes: attentive(rt, alloc),
        from: 0,
        takes: u32::MAX,
        now: 0,
        rests: false,
    };
    let items = items_of(rt, alloc, "tur 0\n was good\ntur 0\n was good\n");
    let mut output = Output {
        written: Vec::new(alloc),
        told: Vec::new(alloc),
    };
    let plan = Plan {
        ignored: Ignored::NONE,
        all: false,
        unit: None,
        attentions: row.attentions,
        timing: false,
    };
    let replaying = replayed_so(alloc, &items, peer, plan, &mut output).expect(rt, "a replay");
    same_bytes(rt, &output.written, row.written.as_bytes(), &row.attentions);
    same_bytes(rt, &output.told, row.told.as_bytes(), &row.attentions);
    same(
        rt,
        &replaying.tally().attentions,
        &row.passed,
        &row.attentions,
    );
}

#[test]
fn unit_attentions_that_are_passed_over(rt: HostRuntime) {
    for row in ATTENTIVE_ROWS {
        check_attentions(&rt, rt.alloc(), row);
    }
}

/// A target that is lost: how many of its bytes come, what of them is another, how often it takes what
/// is sent, and the line of the fault.
struct LostRow {
    bytes: usize,
    was: &'static str,
    is: &'static str,
    takes: u32,
    due: &'static str,
}

// The answers of the login have 88 and 328 bytes, that of the ping 52, and the R2T 48.
const LOST: &[LostRow] = &[
    LostRow {
        bytes: 0,
        was: "",
        is: "",
        takes: 9,
        due: "login: the target closed the connection at 0",
    },
    LostRow {
        bytes: 50,
        was: "",
        is: "",
        takes: 9,
        due: "login: the target closed the connection at 50",
    },
    LostRow {
        bytes: 416,
        was: "",
        is: "",
        takes: 9,
        due: "request 1: the target closed the connection at 416",
    },
    LostRow {
        bytes: 500,
        was: "",
        is: "",
        takes: 9,
        due: "request 2: the target closed the connection at 500",
    },
    LostRow {
        bytes: 9999,
        was: "",
        is: "",
        takes: 0,
        due: "login: the target does not answer at 0",
    },
    LostRow {
        bytes: 9999,
        was: "",
        is: "",
        takes: 3,
        due: "request 2: the target does not answer at 468",
    },
    LostRow {
        bytes: 9999,
        was: "@answer",
        is: "23000000 00000000 40000001 00000000 00000000 00000000 00000001 00000001 00000008 02030000 00000000 00000000",
        takes: 9,
        due: "login: login refused: 0203 (before byte 48 of the target)",
    },
];

fn check_lost(rt: &impl Abort, alloc: Global, row: &LostRow) {
    let mut bytes = answers(rt, alloc, row.was, row.is);
    bytes.truncate(row.bytes);
    let peer = Told {
        bytes,
        from: 0,
        takes: row.takes,
        now: 0,
        rests: false,
    };
    let items = items_of(rt, alloc, JOB);
    let mut output = Output {
        written: Vec::new(alloc),
        told: Vec::new(alloc),
    };
    let line = match replayed(alloc, &items, peer, false, &mut output) {
        Ok(_replaying) => String::new(alloc),
        Err(fault) => format!(in alloc; "{fault}").expect(rt, "a line"),
    };
    same(rt, &line.as_str(), &row.due, &row.due);
    same_bytes(rt, &output.written, b"", &row.due);
}

#[test]
fn targets_that_are_lost(rt: HostRuntime) {
    for row in LOST {
        check_lost(&rt, rt.alloc(), row);
    }
}

/// Jobs, and the number of their first request that writes.
const WRITES: &[(&str, Option<usize>)] = &[
    ("tur 0\nread 0 1\nsync 0 0\nping 00\nlogout\n", None),
    ("tur 0\nwrite 0 1 00\n", Some(1)),
    ("command 0 2a none\n", Some(0)),
    ("tur 0\ncommand 0 5f out 00\n", Some(1)),
    ("command 0 420000 none\n", Some(0)),
    ("command 0 93 none\n", Some(0)),
    ("tur 0\ncommand 0 1b none\n", Some(1)),
    ("command 0 16 none\n", Some(0)),
    ("command 0 56 none\n", Some(0)),
    ("command 0 1e00000001 none\n", Some(0)),
    ("command 0 34 none\n", Some(0)),
    ("command 0 90 none\n", Some(0)),
    ("command 0 c0 in 4\n", Some(0)),
    (
        "inquiry 0 36\nluns\ncapacity\ncapacity16\nread 4294967296 1\n",
        None,
    ),
    (
        "command 0 03 in 18\ncommand 0 08 in 512\ncommand 0 1a in 4\ncommand 0 2f none\n",
        None,
    ),
    (
        "command 0 37 in 8\ncommand 0 3c in 8\ncommand 0 4d in 8\ncommand 0 5a in 8\n",
        None,
    ),
    (
        "command 0 5e in 8\ncommand 0 91 none\ncommand 0 a3 in 8\ncommand 0 a8 in 512\n",
        None,
    ),
];

#[test]
fn jobs_that_write(rt: HostRuntime) {
    for (text, due) in WRITES {
        let items = items_of(&rt, rt.alloc(), text);
        let first = items.iter().position(|entry| writes(&entry.item));
        same(&rt, &first, due, text);
    }
}

/// A status, sense data, and whether they are a unit attention: those of tgt and istgt, in descriptor
/// format, another key, another status, and sense that is too short.
const ATTENTIONS: &[(u8, &[u8], bool)] = &[
    (
        2,
        &[0x70, 0, 6, 0, 0, 0, 0, 10, 0, 0, 0, 0, 0x29, 0, 0, 0, 0, 0],
        true,
    ),
    (
        2,
        &[0xf0, 0, 6, 0, 0, 0, 0, 10, 0, 0, 0, 0, 0x29, 0, 0, 0, 0, 0],
        true,
    ),
    (2, &[0x72, 6, 0x29, 0], true),
    (2, &[0x70, 0, 5, 0], false),
    (2, &[0x72, 5, 6, 0], false),
    (8, &[0x70, 0, 6, 0], false),
    (2, &[0x70, 6], false),
];

#[test]
fn unit_attentions(rt: HostRuntime) {
    for (status, sense, due) in ATTENTIONS {
        let ended = Ended::Command {
            response: 0,
            status: *status,
            residual: Residual::Exact,
        };
        let outcome = Outcome {
            ended,
            sense,
            data: &[],
        };
        same(&rt, &is_unit_attention(outcome), due, sense);
    }
}

/// A job with times: the ping was sent at 5 s and took 2 ms, the write was sent at 7 s and took 4 ms.
const TIMED: &str = "ping 616263\n time 5000000000 took 2000000\n was ping 616263\n\
    write 0 4 5a\n time 7000000000 took 4000000\n was status 08\n";

/// What is told of it: the clock goes 1 ms on between a request and its outcome. The times are the least of
/// their classes: 244 * 2^13, 244 * 2^14 and 244 * 2^12 ns.
const SUMMARY: &str = "1 of 2 differ, 0 passed over\n\
    1 times WRITE(10): status 08, now good\n\
    recorded: median 1.998 ms, 99th percentile 3.997 ms\n\
    now: median 0.999 ms, 99th percentile 0.999 ms\n";

#[test]
fn a_job_with_times(rt: HostRuntime) {
    let items = items_of(&rt, rt.alloc(), TIMED);
    let sent: Option<Time> = items.first().and_then(|entry| entry.time);
    let due = Some(Time {
        sent: 5_000_000_000,
        took: Some(2_000_000),
    });
    same(&rt, &(sent == due), &true, &"time");
    let peer = Told {
        bytes: answers(&rt, rt.alloc(), "", ""),
        from: 0,
        takes: u32::MAX,
        now: 0,
        rests: false,
    };
    let mut output = Output {
        written: Vec::new(rt.alloc()),
        told: Vec::new(rt.alloc()),
    };
    let plan = Plan {
        ignored: Ignored::NONE,
        all: true,
        unit: None,
        attentions: 0,
        timing: true,
    };
    let replaying = replayed_so(rt.alloc(), &items, peer, plan, &mut output).expect(
        &rt, "a replay",
    );
    let mut text = String::new(rt.alloc());
    replaying.write_summary(&mut text).expect(&rt, "a summary");
    same(&rt, &text.as_str(), &SUMMARY, &"summary");
}
