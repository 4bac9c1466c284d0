//! Streams in each form. Their words are those of RFC 7143, SPC-4 and SBC-3, read by hand.

use super::bytes_of;
use crate::asserts::{same, same_bytes, same_text};
use crate::explain_uses::explain_stream;
use iscsi_explain::{Form, show_in_form};
use std::alloc::Global;
use std::process::Abort;

/// The name of a row, a stream in hex, and its notes; a line stands before them, which is not
/// compared.
const NOTES: &[(&str, &str, &str)] = &[
    (
        "READ(10)",
        "01c00000 00000000 0001000000000000 00000002 00001000 00000003 00000004 \
         2800000004d2000008 00 000000000000",
        "    READ(10) lba=1234 blocks=8\n",
    ),
    (
        "WRITE(16)",
        "01a00000 00000000 0001000000000000 00000002 00001000 00000003 00000004 \
         8a000000000100000000000000100000",
        "    WRITE(16) lba=4294967296 blocks=16\n",
    ),
    (
        "READ(6) of 256 blocks",
        "01c00000 00000000 0000000000000000 00000002 00001000 00000003 00000004 \
         08010203000000000000000000000000",
        "    READ(6) lba=66051 blocks=256\n",
    ),
    (
        "a page of vital product data",
        "01c00000 00000000 0000000000000000 00000002 000000ff 00000003 00000004 \
         12018300ff0000000000000000000000",
        "    INQUIRY page=83\n",
    ),
    (
        "a page of mode parameters",
        "01c00000 00000000 0000000000000000 00000002 000000ff 00000003 00000004 \
         1a008800ff0000000000000000000000",
        "    MODE SENSE(6) page=08\n",
    ),
    (
        "the status of blocks",
        "01c00000 00000000 0000000000000000 00000002 00000020 00000003 00000004 \
         9e120000000000000000000000200000",
        "    GET LBA STATUS\n",
    ),
    (
        "an unknown command",
        "01800000 00000000 0000000000000000 00000002 00000000 00000003 00000004 \
         c1000000000000000000000000000000",
        "    operation code c1\n",
    ),
    (
        "sense data",
        "21800002 00000014 0000000000000000 00000002 00000000 00000005 00000006 00000007 \
         00000000 00000000 00000000 0012 700005000000000a00000000 2100 00000000",
        "    status CHECK CONDITION\n    sense ILLEGAL REQUEST 21/00, LOGICAL BLOCK ADDRESS OUT OF RANGE\n",
    ),
    (
        "sense data by descriptors",
        "21800002 0000000a 0000000000000000 00000002 00000000 00000005 00000006 00000007 \
         00000000 00000000 00000000 0008 72062900 00000000 0000",
        "    status CHECK CONDITION\n    sense UNIT ATTENTION 29/00, POWER ON, RESET, OR BUS DEVICE RESET OCCURRED\n",
    ),
    (
        "a status with data",
        "25810000 00000000 0000000000000000 00000002 ffffffff 00000005 00000006 00000007 \
         00000000 00000000 00000000",
        "    status GOOD\n",
    ),
    (
        "keys of a login",
        "43870000 00000016 800000000001 0000 00000000 00000000 00000000 00000001 \
         0000000000000000 0000000000000000 413d31 00 423d790a5c 00 433d 00 000000 443d22 00 20 00 0000",
        "    stage operational negotiation, next full feature phase\n    A=1\n    B=y\\x0a\\x5c\n    C=\n    D=\"\n     \n",
    ),
    (
        "a login that is refused",
        "23040000 00000000 800000000001 0000 00000000 00000000 00000000 00000001 00000001 \
         0203 0000 00000000 00000000",
        "    status target not found\n    stage operational negotiation\n",
    ),
    (
        "a task is aborted",
        "02810000 00000000 0000000000000000 00000002 00000001 00000003 00000004 00000002 00000000 \
         0000000000000000",
        "    function ABORT TASK\n",
    ),
    (
        "an answer to that",
        "22800100 00000000 0000000000000000 00000002 00000000 00000003 00000004 00000002 00000000 \
         0000000000000000",
        "    response task does not exist\n",
    ),
    (
        "a logout",
        "46810000 00000000 0000000000000000 00000002 00010000 00000003 00000004 0000000000000000 \
         0000000000000000",
        "    reason close the connection\n",
    ),
    (
        "an answer to that",
        "26800000 00000000 0000000000000000 00000002 00000000 00000003 00000004 00000002 00000000 \
         00020000 00000000",
        "    response connection or session closed\n",
    ),
    (
        "an event",
        "32800000 00000000 0000000000000000 ffffffff 00000000 00000003 00000004 00000002 01000000 \
         0003 0000 00000000",
        "    event target requests logout\n",
    ),
    (
        "a reject",
        "3f800400 00000000 0000000000000000 ffffffff 00000000 00000003 00000004 00000002 00000000 \
         0000000000000000",
        "    reason protocol error\n",
    ),
    (
        "a ping has no notes",
        "40800000 00000000 0000000000000000 00000001 ffffffff 00000005 00000002 0000000000000000 \
         0000000000000000",
        "",
    ),
];

/// A stream in hex, a form, and its objects.
const OBJECTS: &[(&str, Form, &str)] = &[
    (
        "40800000 00000003 0000000000000000 00000001 ffffffff 00000005 00000012 0000000000000000 \
         0000000000000000 61626300",
        Form::Json,
        "{\"cmdsn\":5,\"data\":3,\"expstatsn\":18,\"i\":1,\"itt\":1,\"kind\":\"NOP-Out\",\"place\":0,\
         \"ttt\":4294967295}\n",
    ),
    (
        "01c00000 00000000 0001000000000000 00000002 00001000 00000003 00000004 \
         2800000004d200000800000000000000",
        Form::ExplainedJson,
        "{\"attr\":0,\"blocks\":8,\"cdb\":\"2800000004d200000800000000000000\",\"cmdsn\":3,\
         \"command\":\"READ(10)\",\"data\":0,\"edtl\":4096,\
         \"explain\":[\"READ(10) lba=1234 blocks=8\"],\"expstatsn\":4,\"f\":1,\"i\":0,\"itt\":2,\
         \"kind\":\"SCSI-Command\",\"lba\":1234,\"lun\":1,\"place\":0,\"r\":1,\"w\":0}\n",
    ),
    // A unit of two levels has no number, and a block of 2^53 none that readers keep.
    (
        "01c00000 00000000 4123000100000000 00000002 00001000 00000003 00000004 \
         88000020000000000000000000010000",
        Form::Json,
        "{\"attr\":0,\"blocks\":1,\"cdb\":\"88000020000000000000000000010000\",\"cmdsn\":3,\
         \"command\":\"READ(16)\",\"data\":0,\"edtl\":4096,\"expstatsn\":4,\"f\":1,\"i\":0,\"itt\":2,\
         \"kind\":\"SCSI-Command\",\"lba\":\"9007199254740992\",\"lun\":\"4123000100000000\",\
         \"place\":0,\"r\":1,\"w\":0}\n",
    ),
    // Flat space addressing, and a page.
    (
        "01c00000 00000000 4123000000000000 00000002 000000ff 00000003 00000004 \
         12018300ff0000000000000000000000",
        Form::Json,
        "{\"attr\":0,\"cdb\":\"12018300ff0000000000000000000000\",\"cmdsn\":3,\
         \"command\":\"INQUIRY\",\"data\":0,\"edtl\":255,\"expstatsn\":4,\"f\":1,\"i\":0,\"itt\":2,\
         \"kind\":\"SCSI-Command\",\"lun\":291,\"page\":131,\"place\":0,\"r\":1,\"w\":0}\n",
    ),
    (
        "21800002 00000014 0000000000000000 00000002 00000000 00000005 00000006 00000007 \
         00000000 00000000 00000000 0012 700005000000000a00000000 2101 00000000",
        Form::Json,
        "{\"asc\":33,\"ascq\":1,\"bo\":0,\"bu\":0,\"data\":20,\"expcmdsn\":6,\"expdatasn\":0,\"itt\":2,\
         \"kind\":\"SCSI-Response\",\"maxcmdsn\":7,\"o\":0,\"place\":0,\"response\":0,\"sense_key\":5,\
         \"statsn\":5,\"status\":2,\"status_name\":\"CHECK CONDITION\",\"u\":0}\n",
    ),
    (
        "43870000 00000016 800000000001 0000 00000000 00000000 00000000 00000001 \
         0000000000000000 0000000000000000 413d31 00 423d790a5c 00 433d 00 000000 443d22 00 20 00 0000",
        Form::Json,
        "{\"c\":0,\"cid\":0,\"cmdsn\":0,\"csg\":1,\"data\":22,\"expstatsn\":1,\"isid\":\"800000000001\",\
         \"itt\":0,\"keys\":{\"A\":\"1\",\"B\":\"y\\\\x0a\\\\x5c\",\"C\":\"\",\"D\":\"\\\"\"},\
         \"kind\":\"Login-Request\",\"nsg\":3,\"place\":0,\"t\":1,\"tsih\":0,\"vmax\":0,\"vmin\":0}\n",
    ),
];

// Under the line of the row's PDU stand its notes.
fn is_noted(rt: &impl Abort, alloc: Global, name: &str, stream: &str, notes: &str) {
    let bytes = bytes_of(rt, alloc, stream);
    let mut source = bytes.as_slice();
    let mut out = Vec::new(alloc);
    explain_stream(alloc, &mut source, &mut out).expect(rt, name);
    let text = str::from_utf8(&out).unwrap_or("");
    let (_, under) = text.split_once('\n').expect(rt, name);
    same(rt, &under, &notes, &name);
}

#[test]
fn notes_stand_under_lines(rt: HostRuntime) {
    for (name, stream, notes) in NOTES {
        is_noted(&rt, rt.alloc(), name, stream, notes);
    }
}

// The row's PDU is written as its object.
fn is_object(rt: &impl Abort, alloc: Global, stream: &str, form: Form, due: &str) {
    let bytes = bytes_of(rt, alloc, stream);
    let mut source = bytes.as_slice();
    let mut out = Vec::new(alloc);
    show_in_form(alloc, form, &mut source, &mut out).expect(rt, due);
    same_bytes(rt, &out, due.as_bytes(), &due);
}

#[test]
fn objects_have_the_fields_of_lines(rt: HostRuntime) {
    for (stream, form, due) in OBJECTS {
        is_object(&rt, rt.alloc(), stream, *form, due);
    }
}

#[test]
fn a_stream_that_is_cut_is_told(rt: HostRuntime) {
    let mut source: &[u8] = b"\x40\x80";
    let mut out = Vec::new(rt.alloc());
    let ended = explain_stream(rt.alloc(), &mut source, &mut out);
    let fault = ended.err().expect(&rt, "a fault");
    same_text(&rt, rt.alloc(), &fault, "stream: truncated at 0", &"cut");
    same_bytes(&rt, &out, b"", &"cut");
}
