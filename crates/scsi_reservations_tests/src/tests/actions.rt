//! What each action leads to.

use super::{acts, ask, port, two_ports};
use crate::asserts::same;
use scsi_reservations::{Access, Action, Kind, Refusal, Report, Reservations, Verdict};
use std::alloc::Global;
use std::process::Abort;

/// What is held by port 1 before (0: nothing); the port that asks, what, its key and the service key, in
/// hex; the verdict; the keys behind it; the type that is held behind it, and the key that is told for it.
const ROWS: &str = "
0 1 register b c     good     16,c  0 0
0 1 register 0 c     conflict b,16  0 0
0 1 register b 0     good     16    0 0
0 3 register 0 21    good     b,16,21 0 0
0 3 register 0 0     good     b,16  0 0
0 3 register b 21    conflict b,16  0 0
0 1 ignore 5 c       good     16,c  0 0
0 3 ignore 5 21      good     b,16,21 0 0
0 3 ignore 5 0       good     b,16  0 0
0 1 reserve1 b 0     good     b,16  1 b
0 1 reserve7 b 0     good     b,16  7 0
0 1 reserve1 16 0    conflict b,16  0 0
0 3 reserve1 0 0     conflict b,16  0 0
0 2 release1 16 0    good     b,16  0 0
0 3 release1 0 0     conflict b,16  0 0
0 2 clear 16 0       good     -     0 0
0 3 clear 0 0        conflict b,16  0 0
0 1 preempt5 b 16    good     b     0 0
0 1 preempt5 b b     good     16    0 0
0 1 preempt5 b 0     26/00    b,16  0 0
0 1 preempt5 b 99    conflict b,16  0 0
0 3 preempt5 0 b     conflict b,16  0 0
0 1 abort5 b 16      good     b     0 0
1 1 register b c     good     16,c  1 c
1 1 register b 0     good     16    0 0
1 2 register 16 0    good     b     1 b
1 1 reserve1 b 0     good     b,16  1 b
1 1 reserve3 b 0     conflict b,16  1 b
1 2 reserve1 16 0    conflict b,16  1 b
1 3 reserve1 0 0     conflict b,16  1 b
1 1 release1 b 0     good     b,16  0 0
1 1 release5 b 0     26/04    b,16  1 b
1 2 release1 16 0    good     b,16  1 b
1 3 release1 0 0     conflict b,16  1 b
1 2 clear 16 0       good     -     0 0
1 2 preempt3 16 b    good     16    3 16
1 2 abort3 16 b      good     16    3 16
1 1 preempt5 b 16    good     b     1 b
1 1 preempt5 b b     good     b,16  5 b
1 2 preempt5 16 0    26/00    b,16  1 b
1 2 preempt5 16 99   conflict b,16  1 b
1 3 preempt5 0 b     conflict b,16  1 b
5 1 register b 0     good     16    0 0
5 2 reserve5 16 0    conflict b,16  5 b
5 2 preempt5 16 b    good     16    5 16
7 1 register b 0     good     16    7 0
7 2 reserve7 16 0    good     b,16  7 0
7 2 reserve8 16 0    conflict b,16  7 0
7 2 release7 16 0    good     b,16  0 0
7 2 release8 16 0    26/04    b,16  7 0
7 2 clear 16 0       good     -     0 0
7 2 preempt5 16 0    good     16    5 16
7 2 preempt5 16 b    good     16    7 0
7 2 preempt5 16 99   conflict b,16  7 0
7 3 preempt5 0 0     conflict b,16  7 0
";

fn number(rt: &impl Abort, digits: &str) -> u64 {
    u64::from_str_radix(digits, 16).expect(rt, "hex digits")
}

fn kind(rt: &impl Abort, word: &str) -> Option<Kind> {
    let digit = word.as_bytes().last().expect(rt, "a type");
    Kind::of_code(digit.wrapping_sub(b'0'))
}

fn action(rt: &impl Abort, word: &str) -> Action {
    match word {
        "register" => Action::Register,
        "ignore" => Action::RegisterAndIgnore,
        "clear" => Action::Clear,
        _ => {
            let kind = kind(rt, word).expect(rt, "a type");
            match word.as_bytes().get(2) {
                Some(b's') => Action::Reserve(kind),
                Some(b'l') => Action::Release(kind),
                Some(b'e') => Action::Preempt(kind),
                _ => Action::PreemptAndAbort(kind),
            }
        }
    }
}

fn verdict(rt: &impl Abort, word: &str) -> Verdict {
    match word {
        "good" => Verdict::Good,
        "conflict" => Verdict::Conflict,
        "26/00" => Verdict::Refused(Refusal::InvalidParameter),
        "26/04" => Verdict::Refused(Refusal::InvalidRelease),
        _ => {
            same(rt, &"a verdict", &word, &"row");
            Verdict::Good
        }
    }
}

// Looks at the keys, and at the type that is held and the key told for it.
fn look(rt: &impl Abort, alloc: Global, left: &Reservations, due: (&str, &str, &str), row: &str) {
    let keys = left.data(alloc, Report::Keys, false).expect(rt, "memory");
    let mut at = 8;
    if due.0 != "-" {
        for key in due.0.split(',') {
            same(rt, &u64_in(rt, keys.as_slice(), at), &number(rt, key), &row);
            at = at.saturating_add(8);
        }
    }
    same(rt, &keys.len(), &at, &row);
    let held = left
        .data(alloc, Report::Reservation, false)
        .expect(rt, "memory");
    let bytes = held.as_slice();
    if due.1 == "0" {
        same(rt, &bytes.len(), &8, &row);
    } else {
        same(
            rt,
            &u64::from(*bytes.get(21).expect(rt, "a type")),
            &number(rt, due.1),
            &row,
        );
        same(rt, &u64_in(rt, bytes, 8), &number(rt, due.2), &row);
    }
}

fn u64_in(rt: &impl Abort, bytes: &[u8], at: usize) -> u64 {
    let part = bytes
        .get(at..at.saturating_add(8))
        .expect(rt, "eight bytes");
    part.iter().fold(0u64, |number, byte| {
        number.wrapping_mul(256).wrapping_add(u64::from(*byte))
    })
}

fn check_row(rt: &impl Abort, alloc: Global, row: &str) {
    let mut words = [""; 9];
    for (i, word) in row.split_whitespace().enumerate().take(9) {
        words[i] = word;
    }
    let mut reservations = two_ports(rt, alloc, kind(rt, words[0]));
    let asked = ask(
        action(rt, words[2]),
        number(rt, words[3]),
        number(rt, words[4]),
    );
    let by = words[1]
        .as_bytes()
        .first()
        .expect(rt, "a port")
        .wrapping_sub(b'0');
    let came = acts(rt, alloc, &mut reservations, by, &asked);
    same(rt, &came, &verdict(rt, words[5]), &row);
    look(
        rt,
        alloc,
        &reservations,
        (words[6], words[7], words[8]),
        row,
    );
}

#[test]
fn each_action_in_each_state(rt: HostRuntime) {
    for row in ROWS.lines() {
        if !row.is_empty() {
            check_row(&rt, rt.alloc(), row);
        }
    }
}

/// A type, and what it lets ports 1, 2 and 3 do: `r` is a read, `w` a change. Port 1 holds it, and port 3
/// is not registered.
const PASSES: &[(Kind, [&str; 3])] = &[
    (Kind::WriteExclusive, ["rw", "r", "r"]),
    (Kind::ExclusiveAccess, ["rw", "", ""]),
    (Kind::WriteExclusiveRegistrants, ["rw", "rw", "r"]),
    (Kind::ExclusiveAccessRegistrants, ["rw", "rw", ""]),
    (Kind::WriteExclusiveAll, ["rw", "rw", "r"]),
    (Kind::ExclusiveAccessAll, ["rw", "rw", ""]),
];

fn check_passes(rt: &impl Abort, alloc: Global, row: &(Kind, [&str; 3])) {
    let reservations = two_ports(rt, alloc, Some(row.0));
    for number in 1..4u8 {
        let by = port(rt, alloc, number);
        let due = row.1[usize::from(number) - 1];
        let passes = [Access::Free, Access::Reads, Access::Changes].map(|access| reservations.may(
            &by, access,
        ));
        same(
            rt,
            &passes,
            &[true, due.contains('r'), due.contains('w')],
            &(row.0, number),
        );
    }
}

#[test]
fn who_may_read_and_change(rt: HostRuntime) {
    for row in PASSES {
        check_passes(&rt, rt.alloc(), row);
    }
}

#[test]
fn a_sixty_fifth_port_is_refused(rt: HostRuntime) {
    let mut reservations = Reservations::new(rt.alloc());
    for number in 1..65u8 {
        let came = acts(
            &rt,
            rt.alloc(),
            &mut reservations,
            number,
            &ask(Action::Register, 0, 7),
        );
        same(&rt, &came, &Verdict::Good, &number);
    }
    let refused = Verdict::Refused(Refusal::NoRoom);
    let came = acts(
        &rt,
        rt.alloc(),
        &mut reservations,
        65,
        &ask(Action::Register, 0, 7),
    );
    same(&rt, &came, &refused, &"65");
    let changed = acts(
        &rt,
        rt.alloc(),
        &mut reservations,
        64,
        &ask(Action::Register, 7, 8),
    );
    same(
        &rt,
        &changed,
        &Verdict::Good,
        &"the key of one that is there",
    );
}
