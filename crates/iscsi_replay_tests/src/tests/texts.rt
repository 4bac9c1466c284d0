//! Texts of jobs: those of sessions, those that are read and written again, and those that are
//! refused.

use crate::asserts::same;
use crate::tests::recordings::{First, recorded};
use iscsi_job::{Asked, Item};
use iscsi_job_text::{Entry, JobReader, TextFault, WriteFault, write_entry};
use std::alloc::Global;
use std::process::Abort;

/// A session with each kind of request; a tag is used twice, and the last request has no answer.
const DIALOGUE: &str = "I> @login\n\
    T> @answer\n\
    I> 01810000 00000000 00000000 00000000 00000010 00000000 00000001 00000001 00000000 00000000 00000000 00000000\n\
    T> 21800002 00000014 00000000 00000000 00000010 00000000 00000001 00000002 00000008 00000000 00000000 00000000 0012 70000600 0000000a 00000000 29000000 0000\n\
    I> 01c10000 00000000 00000000 00000000 00000011 00000008 00000002 00000002 28000000 00000000 01000000 00000000\n\
    T> 25000000 00000004 00000000 00000000 00000011 ffffffff 00000000 00000003 00000009 00000000 00000000 00000000 5a*4\n\
    T> 25830000 00000002 00000000 00000000 00000011 ffffffff 00000002 00000003 00000009 00000001 00000004 00000002 5b*2\n\
    I> 01210000 00000100 00000000 00000000 00000012 00000200 00000003 00000003 2a000000 00010000 01000000 00000000 5a*256\n\
    I> 05800000 00000100 00000000 00000000 00000012 ffffffff 00000000 00000003 00000000 00000000 00000100 00000000 5a*256\n\
    T> 21800000 00000000 00000000 00000000 00000012 00000000 00000003 00000004 0000000a 00000000 00000000 00000000\n\
    I> 40800000 00000002 00000000 00000000 00000013 ffffffff 00000004 00000004 00000000 00000000 00000000 00000000 6162\n\
    T> 20800000 00000002 00000000 00000000 00000013 ffffffff 00000004 00000004 0000000a 00000000 00000000 00000000 6162\n\
    T> 20800000 00000000 00000000 00000000 ffffffff 00000077 00000005 00000004 0000000a 00000000 00000000 00000000\n\
    I> 40800000 00000000 00000000 00000000 ffffffff 00000077 00000004 00000005 00000000 00000000 00000000 00000000\n\
    I> 42810000 00000000 00000000 00000000 00000014 00000010 00000004 00000005 00000000 00000000 00000000 00000000\n\
    T> 22800000 00000000 00000000 00000000 00000014 00000000 00000005 00000004 0000000a 00000000 00000000 00000000\n\
    I> 01810000 00000000 00010000 00000000 00000010 00000000 00000004 00000006 00000000 00000000 00000000 00000000\n\
    T> 21800008 00000000 00000000 00000000 00000010 00000000 00000006 00000005 0000000b 00000000 00000000 00000000\n\
    I> 04800000 0000000f 00000000 00000000 00000015 ffffffff 00000005 00000007 00000000 00000000 00000000 00000000 'SendTargets=All\n\
    T> 24800000 00000000 00000000 00000000 00000015 ffffffff 00000007 00000006 0000000c 00000000 00000000 00000000\n\
    I> 01c10000 00000000 40010000 00000000 00000016 00000200 00000006 00000008 28000000 00000000 01000000 00000000\n\
    T> 21840100 00000000 00000000 00000000 00000016 00000000 00000008 00000007 0000000d 00000000 00000000 00000200\n\
    I> 06800000 00000000 00000000 00000000 00000017 00000000 00000007 00000009 00000000 00000000 00000000 00000000\n\
    T> 26800000 00000000 00000000 00000000 00000017 00000000 00000009 00000008 0000000e 00000000 00000000 00000000\n\
    I> 01810000 00000000 00000000 00000000 00000018 00000000 00000008 0000000a 00000000 00000000 00000000 00000000";

/// Its job.
const JOB: &str = "tur 0\n  was status 02 sense 700006000000000a00000000290000000000\n\
    command 0 28000000000000000100 in 8\n  was good under 2 data 5a5a5a5a5b5b\n\
    write 1 1 5a\n  was good\n\
    ping 6162\n  was ping 6162\n\
    task 01\n  was done 00\n\
    tur 1\n  was status 08\n\
    text 53656e64546172676574733d416c6c\n  was text\n\
    command 4001000000000000 28000000000000000100 in 512\n  was response 01 over 512\n\
    logout\n  was closed\n\
    tur 0\n  was unanswered\n";

/// The text of a recorded session.
pub(crate) fn text_of(rt: &impl Abort, alloc: Global, dialogue: &str, first: First) -> String {
    let (requests, said) = recorded(rt, alloc, dialogue, first);
    said.expect(rt, "a job");
    let mut text = String::new(alloc);
    for noted in requests {
        let entry = Entry {
            item: noted.item,
            sent: None,
            received: None,
            time: None,
        };
        write_entry(alloc, &entry, &mut text).expect(rt, "lines");
    }
    text
}

/// The requests of a text.
pub(crate) fn read_all(alloc: Global, mut text: &[u8]) -> Result<Vec<Entry>, TextFault> {
    let mut reader = JobReader::new(alloc);
    let mut all = Vec::new(alloc);
    for _ in 0..u64::MAX {
        let Some(entry) = reader.next(&mut text)? else {
            break;
        };
        if all.push(entry).is_err() {
            return Err(TextFault::NoMemory);
        }
    }
    Ok(all)
}

#[test]
fn the_job_of_a_session(rt: HostRuntime) {
    let text = text_of(&rt, rt.alloc(), DIALOGUE, First::Both(7));
    same(&rt, &text.as_str(), &JOB, &"job");
}

// The text of the job that a text is.
fn written_again(rt: &impl Abort, alloc: Global, text: &str) -> String {
    let mut again = String::new(alloc);
    for entry in read_all(alloc, text.as_bytes()).expect(rt, "a job").iter() {
        write_entry(alloc, entry, &mut again).expect(rt, "lines");
    }
    again
}

/// Texts that are written as they are read: each line of a script, and edges.
const KEPT: &[&str] = &[
    JOB,
    "inquiry 255 65535\n  was good\n",
    "capacity\n  was good data 000007ff00000200\n",
    "capacity16\n  was unanswered\n",
    "luns\n  was unanswered\n",
    "read 18446744073709551615 8192\n  was unanswered\n",
    "read 4294967295 1\n  was unanswered\n",
    "write 4294967296 1 00\n  was unanswered\n",
    "sync 4294967295 65535\n  was good\n",
    "ping\n  was ping\n",
    "text\n  was text 6100\n",
    "task ff\n  was unanswered\n",
    "tur 255\n  was response 01 status 02 sense 70 over 4294967295 data 00\n",
    "command 0 88000000000000000000000000010000 in 512\n  was unanswered\n",
    "command 0 2a000000000000000100 out\n  was unanswered\n",
    "command 0 28000000000000000000 in 0\n  was good over 512\n",
    "tur 0\n  time 0 took 18446744073709551615\n  was good\n",
    "tur 0\n  time 5\n  was unanswered\n",
    "command 0 2a000000000000000200 out at 0 1024 000102030405060708090a0b0c0d0e0f101112131415161718191a1b1c1d1e1f\n  was good\n",
    "read 0 2\n  was good data at 18446744073709551615 1024 000102030405060708090a0b0c0d0e0f101112131415161718191a1b1c1d1e1f\n",
    "command 0 2a000000000000000100 out of 4294967295\n  was unanswered\n",
    "command 0 2a000000000000000100 out 5a5b of 3\n  was status 02\n",
    "command 0 12008000ff0000000000000000000001 in 4294967295\n  was unanswered\n",
];

fn check_kept(rt: &impl Abort, alloc: Global, text: &str) {
    same(rt, &written_again(rt, alloc, text).as_str(), &text, &"kept");
}

#[test]
fn texts_that_are_kept(rt: HostRuntime) {
    for text in KEPT {
        check_kept(&rt, rt.alloc(), text);
    }
}

/// Texts that mean others: comments, blanks, short blocks and upper case.
const MEANT: &[(&str, &str)] = &[
    ("", ""),
    (
        "job 2\n# TEST UNIT READY\ntur 0\r\n\twas good\n",
        "tur 0\n  was good\n",
    ),
    ("job  2 # the form\n", ""),
    ("# all of it\n\n   # nothing\n", ""),
    (
        "tur 0 # ready?\n\twas   good # yes\n",
        "tur 0\n  was good\n",
    ),
    ("tur 0", "tur 0\n  was unanswered\n"),
    ("tur 0\n was none\n", "tur 0\n  was unanswered\n"),
    ("command 7 000000000000 none\n", "tur 7\n  was unanswered\n"),
    (
        "command 000000000000002a 00 none\n",
        "command 000000000000002a 000000000000 none\n  was unanswered\n",
    ),
    (
        "command 1 1A in 4\n was good data ABCD\n",
        "command 1 1a0000000000 in 4\n  was good data abcd\n",
    ),
    (
        "command 0 2a000000000000000100 out 5a5a\n",
        "command 0 2a000000000000000100 out 5a5a\n  was unanswered\n",
    ),
];

fn check_meant(rt: &impl Abort, alloc: Global, text: &str, due: &str) {
    same(rt, &written_again(rt, alloc, text).as_str(), &due, &text);
}

#[test]
fn texts_that_mean_others(rt: HostRuntime) {
    for (text, due) in MEANT {
        check_meant(&rt, rt.alloc(), text, due);
    }
}

/// Texts that are none, and the line of their fault.
const REFUSED: &[(&str, &str)] = &[
    ("tur", "line 1: no number"),
    ("job 3\n", "line 1: unknown form"),
    ("job\n", "line 1: no number"),
    ("tur 0\njob 2\n", "line 2: no request"),
    ("tur 0\n time\n", "line 2: no number"),
    ("tur 0\n time 0 1\n", "line 2: too many words"),
    (
        "tur 0\n was good\n time 0\n",
        "line 3: outcome of no request",
    ),
    ("ping at 0 1 00\n", "line 1: no hex"),
    ("ping at 0\n", "line 1: no number"),
    ("tur 256", "line 1: no number"),
    ("tur +1", "line 1: no number"),
    ("tur 0 0", "line 1: too many words"),
    ("# one\nturn 0\n", "line 2: no request"),
    ("tur 0\nread 18446744073709551616 1", "line 2: no number"),
    ("read 0 8193", "line 1: no number"),
    ("write 0 1 5", "line 1: no hex"),
    ("write 0 1 +5", "line 1: no hex"),
    ("write 0 1", "line 1: no hex"),
    ("sync 4294967296 0", "line 1: no number"),
    ("capacity 0", "line 1: too many words"),
    ("ping 616", "line 1: no hex"),
    ("command 256 00 none", "line 1: no logical unit"),
    (
        "command 000000000000000g 00 none",
        "line 1: no logical unit",
    ),
    ("command 0 0 none", "line 1: no descriptor block"),
    (
        "command 0 0000000000000000000000000000000000 none",
        "line 1: no descriptor block",
    ),
    ("command 0 0g none", "line 1: no descriptor block"),
    ("command 0 12", "line 1: no direction"),
    ("command 0 12 both 4", "line 1: no direction"),
    ("command 0 12 in", "line 1: no number"),
    ("command 0 12 in 4294967296", "line 1: no number"),
    ("command 0 2a out 5", "line 1: no hex"),
    ("command 0 2a out 5a of 1", "line 1: no number"),
    ("command 0 2a out of", "line 1: no number"),
    ("command 0 2a out 5a for 2", "line 1: too many words"),
    ("command 0 12 none 4", "line 1: too many words"),
    ("task 1", "line 1: no hex"),
    (" was good", "line 1: outcome of no request"),
    (
        "tur 0\n was none\n was good\n",
        "line 3: outcome of no request",
    ),
    ("tur 0\n was closed\n", "line 2: no outcome"),
    ("logout\n was good\n", "line 2: outcome of no request"),
    ("ping\n was text\n", "line 2: outcome of no request"),
    ("tur 0\n is good\n", "line 2: no outcome"),
    ("tur 0\n was well\n", "line 2: no outcome"),
    ("tur 0\n was\n", "line 2: no outcome"),
    ("tur 0\n was good data\n", "line 2: no hex"),
    (
        "tur 0\n was good data 00 sense 00\n",
        "line 2: too many words",
    ),
    ("tur 0\n was status 2\n", "line 2: no hex"),
    ("tur 0\n was good under x\n", "line 2: no number"),
    ("tur 0\n was none 0\n", "line 2: too many words"),
];

fn check_refused(rt: &impl Abort, alloc: Global, text: &str, due: &str) {
    let line = match read_all(alloc, text.as_bytes()) {
        Ok(_) => String::new(alloc),
        Err(fault) => format!(in alloc; "{fault}").expect(rt, "a line"),
    };
    same(rt, &line.as_str(), &due, &text);
}

#[test]
fn texts_that_are_refused(rt: HostRuntime) {
    for (text, due) in REFUSED {
        check_refused(&rt, rt.alloc(), text, due);
    }
}

// A request that asks this, with a byte that is sent.
fn sends_a_byte(rt: &impl Abort, alloc: Global, asked: Asked) -> Entry {
    Entry {
        item: Item {
            asked,
            sent: Vec::from_array(alloc, [0x5a]).expect(rt, "a byte"),
            ended: None,
            sense: Vec::new(alloc),
            received: Vec::new(alloc),
        },
        sent: None,
        received: None,
        time: None,
    }
}

#[test]
fn requests_that_no_text_has(rt: HostRuntime) {
    for asked in [Asked::Logout, Asked::Task(1)] {
        let mut text = String::new(rt.alloc());
        let entry = sends_a_byte(&rt, rt.alloc(), asked);
        let said = write_entry(rt.alloc(), &entry, &mut text);
        same(
            &rt,
            &matches!(said, Err(WriteFault::Unsaid)),
            &true,
            &"refused",
        );
        same(&rt, &text.as_str(), &"", &"text");
    }
}
