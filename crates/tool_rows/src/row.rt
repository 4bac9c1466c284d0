//! A row: a command line, what it is given, and what is due.

use crate::parts::said_by;
use crate::told::{Told, told_of};
use std::io;

/// The words with which a line of a row can begin, behind the first one.
const MARKS: &[&str] = &[
    "given ", "out ", "lists ", "says ", "begins ", "ends ", "has ", "status ",
];

/// Whether a block of lines is a row: all but one of comments.
pub fn is_row(block: &str) -> bool {
    !block.starts_with('#')
}

/// Whether a row is so: what is written and the exit status are those that it says, and what is told is
/// all that it says, or begins so, ends so, or has that within lines of 100 characters at most. The
/// program of `serve` alone has to say the same of its words.
pub fn is_so(rt: &HostRuntime, block: &str) -> io::Result<bool> {
    let (line, rest) = block.split_once('\n').unwrap_or((block, ""));
    let (kind, words) = line.split_once(' ').unwrap_or((line, ""));
    if !are_known(rest) {
        return Ok(false);
    }
    if kind == "words" && words.starts_with("serve") {
        return Ok(is_held(rt, "serving", words, rest)? && is_held(rt, kind, words, rest)?);
    }
    is_held(rt, kind, words, rest)
}

// Whether what comes of words of this kind is as the rest of the row says.
fn is_held(rt: &HostRuntime, kind: &str, words: &str, rest: &str) -> io::Result<bool> {
    let given = said_by(rt, rest, "given ")?;
    let told = told_of(rt, kind, words, &given)?;
    Ok(has_status(&told, rest) && is_written(rt, &told, rest)? && is_told(rt, &told, rest)?)
}

// Whether each line begins with one of the words.
fn are_known(rest: &str) -> bool {
    for line in rest.lines() {
        if !is_known(line) {
            return false;
        }
    }
    true
}

fn is_known(line: &str) -> bool {
    for mark in MARKS {
        if line.starts_with(*mark) {
            return true;
        }
    }
    false
}

// Whether the exit status is the one that is due: 0 where none is said.
fn has_status(told: &Told, rest: &str) -> bool {
    for line in rest.lines() {
        if let Some(due) = line.strip_prefix("status ") {
            return u8::from_str_radix(due, 10) == Ok(told.status);
        }
    }
    told.status == 0
}

fn is_written(rt: &HostRuntime, told: &Told, rest: &str) -> io::Result<bool> {
    if rest.contains("\nlists ") {
        let lines = str::from_utf8(&told.out).unwrap_or("");
        return Ok(are_listed(lines, rest));
    }
    let due = said_by(rt, rest, "out ")?;
    Ok(told.out.as_slice() == due.as_slice())
}

// Whether there is a line for each one of the row that lists words, and has those words behind its
// place.
fn are_listed(lines: &str, rest: &str) -> bool {
    let mut lines = lines.lines();
    for due in rest.lines() {
        if let Some(due) = due.strip_prefix("lists ") {
            if !is_listed(lines.next().unwrap_or(""), due) {
                return false;
            }
        }
    }
    lines.next().is_none()
}

// Whether a line has these words, the first of them behind its place and the last one at its end.
fn is_listed(line: &str, due: &str) -> bool {
    let mut words = line.split(' ').skip(1);
    for word in due.split(' ') {
        if !words.any(|it| it == word) {
            return false;
        }
    }
    words.next().is_none()
}

fn is_told(rt: &HostRuntime, told: &Told, rest: &str) -> io::Result<bool> {
    let text = told.text.as_slice();
    let front = said_by(rt, rest, "begins ")?;
    let end = said_by(rt, rest, "ends ")?;
    let within = said_by(rt, rest, "has ")?;
    if front.is_empty() && end.is_empty() && within.is_empty() {
        let due = said_by(rt, rest, "says ")?;
        return Ok(text == due.as_slice());
    }
    Ok(text.starts_with(&front) && text.ends_with(&end) && has_within(text, &within))
}

// Whether a text has another one, and only lines of 100 characters at most; any text has an empty one.
fn has_within(text: &[u8], due: &[u8]) -> bool {
    match (str::from_utf8(text), str::from_utf8(due)) {
        (Ok(text), Ok(due)) => due.is_empty() || text.contains(due) && is_narrow(text),
        _ => false,
    }
}

fn is_narrow(text: &str) -> bool {
    for line in text.lines() {
        if line.chars().count() > 100 {
            return false;
        }
    }
    true
}
