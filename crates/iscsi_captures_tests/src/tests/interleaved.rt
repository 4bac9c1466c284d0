//! Both directions of captures, in the order of the capture.

use super::captures::{
    BARE, BEGUN, CONFLICT, CUT, ELSEWHERE, FRAGMENT, GAP, HEADLESS, HOLE, JUMPED, LATE, LINK, LOST,
    MIDSTREAM, MIDWAY, NOTHING, REUSED, SILENT, SNAPPED, STRANGE, SUMS, SUMS_ALONE, SUMS_LATE,
    SUMS_MIDSTREAM, UNANSWERED, WHOLE,
};
use super::{bytes_of, ends_so};
use crate::asserts::same_bytes;
use iscsi_captures::{CaptureFile, Showing, Times, show_capture};
use iscsi_explain::Form;
use jiff::tz::TimeZone;
use std::alloc::Global;
use std::process::Abort;

/// The login request, whose line follows the time of the packet that completes it.
pub const LOGIN_LINE: &str =
    "0 Login-Request t=0 c=0 csg=1 vmax=00 vmin=00 isid=400001370000 tsih=0000 \
    itt=00000001 cid=0000 cmdsn=00000001 expstatsn=00000000 data=0\n";

/// The line of the login response, by the fields of RFC 7143, section 11.13.
const ANSWER_LINE: &str = "0 Login-Response t=0 c=0 csg=1 vmax=00 vactive=00 isid=400001370000 \
    tsih=0001 itt=00000001 statsn=00000001 expcmdsn=00000002 maxcmdsn=00000009 class=00 detail=00 data=0\n";

/// The line of the ping, behind its time.
pub const PING_LINE: &str =
    "0 NOP-Out i=1 itt=00000001 ttt=ffffffff cmdsn=00000005 expstatsn=00000002 data=0\n";

/// The first bytes of a file of gzip (RFC 1952, section 2.3).
const GZIP: &str = "1f8b08000000000000030300000000000000000000000000";

/// A capture, the connection that is asked for, the parts of what is written, and the fault.
const ROWS: &[(&str, Option<usize>, &[&str], &str)] = &[
    (
        WHOLE,
        None,
        &["0 0.000002 > ", LOGIN_LINE, "0 0.000003 < ", PING_LINE],
        "",
    ),
    (
        WHOLE,
        Some(0),
        &["0 0.000002 > ", LOGIN_LINE, "0 0.000003 < ", PING_LINE],
        "",
    ),
    (WHOLE, Some(1), &[], "no connection 1"),
    (LATE, None, &["0 0.000002 > ", LOGIN_LINE], ""),
    (
        GAP,
        None,
        &["0 0.000001 > ", LOGIN_LINE],
        "connection 0: gap at 48 (packet 3)",
    ),
    (REUSED, None, &["0 0.000002 > ", LOGIN_LINE], ""),
    (REUSED, Some(1), &["1 0.000001 > ", PING_LINE], ""),
    (BEGUN, None, &["0 0.000000 > ", LOGIN_LINE], ""),
    (
        HEADLESS,
        None,
        &["0 0.000000 > ", LOGIN_LINE, "0 0.000002 < ", ANSWER_LINE],
        "",
    ),
    (
        MIDWAY,
        None,
        &["0 0.000000 < ", ANSWER_LINE, "0 0.000002 > ", LOGIN_LINE],
        "capture: connection 0 begins before the capture",
    ),
    (
        UNANSWERED,
        None,
        &["0 0.000001 > ", LOGIN_LINE],
        "capture: connection 0 begins before the capture",
    ),
    (
        STRANGE,
        None,
        &["0 0.000002 > ", LOGIN_LINE],
        "capture: fragment at 80 (packet 2)",
    ),
    ("", None, &[], "capture: empty"),
    (GZIP, None, &[], "capture: compressed with gzip"),
    (NOTHING, None, &[], "capture: no iSCSI connection"),
    (NOTHING, Some(0), &[], "no connection 0"),
    (LOST, None, &[], "connection 0: gap at 0 (packet 2)"),
    (LOST, Some(0), &[], "connection 0: gap at 0 (packet 2)"),
    (ELSEWHERE, None, &[], "capture: no iSCSI connection"),
    (SILENT, None, &[], "connection 0: gap at 0 (packet 3)"),
    (
        CONFLICT,
        None,
        &[],
        "connection 0: conflict at 12 (packet 3)",
    ),
    (BARE, None, &[], "capture: cut at 80 (packet 2)"),
    (BARE, Some(0), &[], "capture: cut at 80 (packet 2)"),
    (CUT, None, &[], "capture: cut at 80 (packet 2)"),
    (FRAGMENT, None, &[], "capture: fragment at 80 (packet 2)"),
    (LINK, None, &[], "capture: link type 147 at 24 (packet 1)"),
];

/// Captures that are not whole: a capture, a form, the parts of what is written, the lines of remarks
/// before the last one, and that one.
const BROKEN: &[(&str, Form, &[&str], &str, &str)] = &[
    (
        MIDSTREAM,
        Form::Line,
        &[
            "0 0.000000 >? 20 NOP-Out i=1 itt=00000001 ttt=ffffffff cmdsn=00000005 expstatsn=00000002 data=0\n",
            "0 0.000000 >? 68 NOP-Out i=1 itt=00000002 ttt=ffffffff cmdsn=00000006 expstatsn=00000002 data=0\n",
            "0 0.000000 >? 116 NOP-Out i=1 itt=00000003 ttt=ffffffff cmdsn=00000007 expstatsn=00000002 data=0\n",
        ],
        "a: capture: connection 0 begins before the capture\n",
        "connection 0: initiator assumed from byte 20 (packet 1)",
    ),
    (
        HOLE,
        Form::Line,
        &[
            "0 0.000002 > ",
            LOGIN_LINE,
            "0 0.000003 > 48 NOP-Out i=1 itt=00000001 ttt=ffffffff cmdsn=00000005 expstatsn=00000002 data=12 captured=8\n",
            "0 0.000003 > 108 NOP-Out i=1 itt=00000002 ttt=ffffffff cmdsn=00000006 expstatsn=00000002 data=0\n",
        ],
        "",
        "connection 0: gap at 100 (packet 4)",
    ),
    (
        SNAPPED,
        Form::Line,
        &[
            "0 0.000002 > ",
            LOGIN_LINE,
            "0 0.000003 > 48 NOP-Out i=1 itt=00000001 ttt=ffffffff cmdsn=00000005 expstatsn=00000002 data=12 captured=5\n",
            "0 0.000004 > 108 NOP-Out i=1 itt=00000002 ttt=ffffffff cmdsn=00000006 expstatsn=00000002 data=0\n",
        ],
        "",
        "capture: cut at 240 (packet 4)",
    ),
    (
        SUMS,
        Form::Line,
        &[
            "0 0.000002 > 0 Login-Request t=1 c=0 csg=1 nsg=3 vmax=00 vmin=00 isid=400001370000 tsih=0000 itt=00000001 cid=0000 cmdsn=00000001 expstatsn=00000000 data=48\n",
            "0 0.000003 < 0 Login-Response t=1 c=0 csg=1 nsg=3 vmax=00 vactive=00 isid=400001370000 tsih=0001 itt=00000001 statsn=00000001 expcmdsn=00000002 maxcmdsn=00000009 class=00 detail=00 data=38\n",
            "0 0.000004 > 96 NOP-Out i=1 itt=00000001 ttt=ffffffff cmdsn=00000005 expstatsn=00000002 data=3\n",
            "0 0.000004 > 156 NOP-Out i=1 itt=00000002 ttt=ffffffff cmdsn=00000006 expstatsn=00000002 data=0\n",
            "0 0.000005 > 208 NOP-Out i=1 itt=00000003 ttt=ffffffff cmdsn=00000007 expstatsn=00000002 data=4\n",
            "0 0.000006 > 268 NOP-Out i=1 itt=00000004 ttt=ffffffff cmdsn=00000008 expstatsn=00000002 data=5\n",
            "0 0.000006 > 332 NOP-Out i=1 itt=00000005 ttt=ffffffff cmdsn=00000009 expstatsn=00000002 data=0\n",
        ],
        "a: connection 0: wrong header digest from initiator at 208 (packet 6)\n",
        "connection 0: wrong data digest from initiator at 268 (packet 7)",
    ),
    (
        SUMS_MIDSTREAM,
        Form::Line,
        &[
            "0 0.000000 >? 40 NOP-Out i=1 itt=00000002 ttt=ffffffff cmdsn=00000006 expstatsn=00000002 data=8\n",
            "0 0.000000 >? 104 NOP-Out i=1 itt=00000003 ttt=ffffffff cmdsn=00000007 expstatsn=00000002 data=0\n",
            "0 0.000000 >? 156 NOP-Out i=1 itt=00000004 ttt=ffffffff cmdsn=00000008 expstatsn=00000002 data=1\n",
            "0 0.000000 >? 216 NOP-Out i=1 itt=00000005 ttt=ffffffff cmdsn=00000009 expstatsn=00000002 data=0\n",
        ],
        "a: capture: connection 0 begins before the capture\n",
        "connection 0: initiator assumed from byte 40 (packet 1)",
    ),
    (
        SUMS_LATE,
        Form::Line,
        &[
            "0 0.000000 >? 40 NOP-Out i=1 itt=00000002 ttt=ffffffff cmdsn=00000006 expstatsn=00000002 data=0\n",
            "0 0.000000 >? 92 NOP-Out i=1 itt=00000003 ttt=ffffffff cmdsn=00000007 expstatsn=00000002 data=0\n",
            "0 0.000000 >? 144 NOP-Out i=1 itt=00000004 ttt=ffffffff cmdsn=00000008 expstatsn=00000002 data=2\n",
            "0 0.000001 >? 204 NOP-Out i=1 itt=00000005 ttt=ffffffff cmdsn=00000009 expstatsn=00000002 data=0\n",
        ],
        "a: capture: connection 0 begins before the capture\n",
        "connection 0: initiator assumed from byte 40 (packet 1)",
    ),
    (
        SUMS_ALONE,
        Form::Line,
        &[
            "0 0.000000 >? 36 NOP-Out i=1 itt=00000002 ttt=ffffffff cmdsn=00000006 expstatsn=00000002 data=0\n",
            "0 0.000000 >? 88 NOP-Out i=1 itt=00000003 ttt=ffffffff cmdsn=00000007 expstatsn=00000002 data=0\n",
            "0 0.000000 >? 140 NOP-Out i=1 itt=00000004 ttt=ffffffff cmdsn=00000008 expstatsn=00000002 data=2\n",
            "0 0.000001 >? 196 NOP-Out i=1 itt=00000005 ttt=ffffffff cmdsn=00000009 expstatsn=00000002 data=0\n",
        ],
        "a: capture: connection 0 begins before the capture\n",
        "connection 0: initiator assumed from byte 36 (packet 1)",
    ),
    (
        JUMPED,
        Form::Json,
        &[
            "{\"c\":0,\"cid\":0,\"cmdsn\":1,\"connection\":0,\"csg\":1,\"data\":0,\"epoch\":\"1.000002\",\"expstatsn\":0,\"from\":\"initiator\",\"isid\":\"400001370000\",\"itt\":1,\"keys\":{},\"kind\":\"Login-Request\",\"packet\":3,\"place\":0,\"t\":0,\"time\":2e-6,\"tsih\":0,\"vmax\":0,\"vmin\":0}\n",
            "{\"connection\":0,\"from\":\"initiator\",\"kind\":\"gap\",\"packet\":4,\"place\":60,\"text\":\"connection 0: gap at 60 (packet 4)\"}\n",
            "{\"connection\":0,\"from\":\"initiator\",\"kind\":\"assumed\",\"packet\":4,\"place\":96,\"text\":\"connection 0: initiator assumed from byte 96 (packet 4)\"}\n",
            "{\"assumed\":true,\"cmdsn\":6,\"connection\":0,\"data\":0,\"epoch\":\"1.000003\",\"expstatsn\":2,\"from\":\"initiator\",\"i\":1,\"itt\":2,\"kind\":\"NOP-Out\",\"packet\":4,\"place\":96,\"time\":3e-6,\"ttt\":4294967295}\n",
            "{\"assumed\":true,\"cmdsn\":7,\"connection\":0,\"data\":0,\"epoch\":\"1.000003\",\"expstatsn\":2,\"from\":\"initiator\",\"i\":1,\"itt\":3,\"kind\":\"NOP-Out\",\"packet\":4,\"place\":144,\"time\":3e-6,\"ttt\":4294967295}\n",
            "{\"assumed\":true,\"cmdsn\":8,\"connection\":0,\"data\":0,\"epoch\":\"1.000003\",\"expstatsn\":2,\"from\":\"initiator\",\"i\":1,\"itt\":4,\"kind\":\"NOP-Out\",\"packet\":4,\"place\":192,\"time\":3e-6,\"ttt\":4294967295}\n",
        ],
        "a: connection 0: gap at 60 (packet 4)\n",
        "connection 0: initiator assumed from byte 96 (packet 4)",
    ),
];

/// How a capture is shown, if not with other times.
pub fn plainly<'a>(form: Form, only: Option<usize>, zone: &'a TimeZone<'a>) -> Showing<'a> {
    Showing {
        form,
        only,
        times: Times::Connection,
        zone,
        names: &["a"],
    }
}

// What is written of a capture in a form, the lines of remarks, and why it ends.
fn is_shown(
    rt: &impl Abort,
    alloc: Global,
    showing: Showing<'_>,
    capture: &str,
    due: &[&str],
    told: (&str, &str),
) {
    let (remarks, fault) = told;
    let file = bytes_of(rt, alloc, capture);
    let mut source = file.as_slice();
    let mut out = Vec::new(alloc);
    let mut lines = Vec::new(alloc);
    let mut files = CaptureFile::new(alloc).expect(rt, "memory");
    let result = show_capture(
        alloc,
        showing,
        &mut files,
        &mut source,
        &mut out,
        &mut lines,
    );
    let mut all = String::new(alloc);
    for part in due {
        all.push_str(part).expect(rt, "memory");
    }
    same_bytes(rt, &out, all.as_bytes(), &fault);
    same_bytes(rt, &lines, remarks.as_bytes(), &fault);
    ends_so(rt, alloc, result, fault, &due);
}

#[test]
fn both_directions_have_their_lines(rt: HostRuntime) {
    for (capture, only, due, fault) in ROWS {
        is_shown(
            &rt,
            rt.alloc(),
            plainly(Form::Line, *only, &TimeZone::UTC),
            capture,
            due,
            ("", fault),
        );
    }
}

#[test]
fn what_is_missing_is_told_and_passed(rt: HostRuntime) {
    for (capture, form, due, remarks, fault) in BROKEN {
        is_shown(
            &rt,
            rt.alloc(),
            plainly(*form, None, &TimeZone::UTC),
            capture,
            due,
            (remarks, fault),
        );
    }
}

#[test]
fn notes_stand_under_the_lines(rt: HostRuntime) {
    let due = [
        "0 0.000002 > ",
        LOGIN_LINE,
        "    stage operational negotiation\n",
        "0 0.000003 < ",
        PING_LINE,
    ];
    is_shown(
        &rt,
        rt.alloc(),
        plainly(Form::Explained, None, &TimeZone::UTC),
        WHOLE,
        &due,
        ("", ""),
    );
}

/// What stands for times, and what is written then before the two lines.
const TIMES: &[(Times, &str, &str)] = &[
    (Times::Relative, "0 3 0.000002 > ", "0 4 0.000003 < "),
    (
        Times::Utc,
        "0 3 1970-01-01T00:00:01.000002Z > ",
        "0 4 1970-01-01T00:00:01.000003Z < ",
    ),
    (
        Times::Local,
        "0 3 1969-12-31T20:30:01.000002-03:30 > ",
        "0 4 1969-12-31T20:30:01.000003-03:30 < ",
    ),
];

#[test]
fn times_lead_back_to_the_capture(rt: HostRuntime) {
    let zone = TimeZone::posix("NST3:30").expect(&rt, "a zone");
    for (times, first, second) in TIMES {
        let showing = Showing {
            times: *times,
            ..plainly(Form::Line, None, &zone)
        };
        let due = [*first, LOGIN_LINE, *second, PING_LINE];
        is_shown(&rt, rt.alloc(), showing, WHOLE, &due, ("", ""));
    }
}
