//! Memory that is refused, for `rt try --test --fail-alloc`: nothing but its want may come in place of
//! a job, of its text or of what its replay finds.

use crate::asserts::{same, same_bytes};
use crate::tests::live::{Output, Told, answers, replayed};
use crate::tests::texts::read_all;
use iscsi_job_text::{Entry, TextFault, WriteFault, write_entry};
use std::alloc::Global;
use std::process::Abort;

/// A job of each kind of request, with data.
const TEXT: &str = "write 0 1 5a\n  was status 02 sense 700005\n\
    command 1 1a0000000000 in 4\n  was good under 1 data 00ff00\n\
    ping 616263\n  was ping 616263\n\
    text 6100\n  was text 6200\n\
    task 01\n  was done 00\n\
    logout\n  was closed\n";

// The job of the text, read once more where memory ran out.
fn read_at_last(rt: &impl Abort, alloc: Global) -> Vec<Entry> {
    match read_all(alloc, TEXT.as_bytes()) {
        Ok(items) => items,
        Err(fault) => {
            same(rt, &matches!(fault, TextFault::NoMemory), &true, &"fault");
            read_all(alloc, TEXT.as_bytes()).expect(rt, "once more")
        }
    }
}

// Appends the lines of a request, once more where memory ran out.
fn write_at_last(rt: &impl Abort, alloc: Global, entry: &Entry, text: &mut String) {
    let mut lines = String::new(alloc);
    if let Err(fault) = write_entry(alloc, entry, &mut lines) {
        same(rt, &matches!(fault, WriteFault::NoMemory), &true, &"fault");
        lines = String::new(alloc);
        write_entry(alloc, entry, &mut lines).expect(rt, "once more");
    }
    if text.push_str(lines.as_str()).is_err() {
        text.push_str(lines.as_str()).expect(rt, "once more");
    }
}

#[test]
fn refused_memory_changes_no_job(rt: HostRuntime) {
    let mut text = String::new(rt.alloc());
    for entry in read_at_last(&rt, rt.alloc()).iter() {
        write_at_last(&rt, rt.alloc(), entry, &mut text);
    }
    same(&rt, &text.as_str(), &TEXT, &"text");
}

/// A job of the worked session, of which the write had another status.
const OTHER: &str = "ping 616263\n was ping 616263\nwrite 0 4 5a\n was status 08\n";

/// What its replay writes.
const DIFFERS: &str = "request 2: write 0 4 5a\n  was status 08\n  now good\n";

#[test]
fn refused_memory_hides_no_difference(rt: HostRuntime) {
    let items = read_all(rt.alloc(), OTHER.as_bytes()).expect(&rt, "a job");
    let peer = Told {
        bytes: answers(&rt, rt.alloc(), "", ""),
        from: 0,
        takes: u32::MAX,
        now: 0,
        rests: false,
    };
    // Room for what is written, so that no memory is asked for it.
    let mut output = Output {
        written: vec![in rt.alloc(); 0; 4096].expect(&rt, "room"),
        told: Vec::new(rt.alloc()),
    };
    output.written.clear();
    match replayed(rt.alloc(), &items, peer, false, &mut output) {
        Ok(_) => same_bytes(&rt, &output.written, DIFFERS.as_bytes(), &"lines"),
        Err(fault) => {
            same(&rt, &fault.status(), &3, &"status");
            same_bytes(&rt, &output.written, b"", &"lines");
        }
    }
}
