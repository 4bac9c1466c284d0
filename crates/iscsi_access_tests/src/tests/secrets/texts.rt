//! Texts by example: whom they let in, and which line is the first that is wrong. One file, since it
//! is one table.

use crate::asserts::same;
use iscsi_access::{Progress, Said, Verdict};
use iscsi_chap::{Algorithm, Response};
use iscsi_secrets::{Secrets, SecretsFault, SecretsRemark};
use iscsi_text::Text;
use std::alloc::Global;
use std::process::Abort;

const CHALLENGE: [u8; 16] = [0, 1, 2, 3, 4, 5, 6, 7, 8, 9, 10, 11, 12, 13, 14, 15];

const TEXT: &[u8] = b"# who may log in\n\
    user alice secretsecret12\n\
    \n\
    \tuser  carol\tthirdsecret56   iqn.2026-01.example:host # at home\r\n\
    target bob othersecret34 #and who answers\n\
    user user target567890\n\
    user dora 0x000102030405060708090a0b0c0d0e0f\n\
    user emil 0b/////////////////////w==";

struct Row {
    name: &'static str,
    initiator: &'static [u8],
    text: &'static [u8],
    passes: bool,
}

/// Responses with the identifier 7, by the `hashlib` of Python, and whether they pass.
const RESPONSES: &[Row] = &[
    Row {
        name: "alice",
        initiator: b"iqn.2026-01.example:other",
        text: b"CHAP_N=alice\0CHAP_R=0xd2ad9b553183668fa064205c85779b04\0",
        passes: true,
    },
    Row {
        name: "alice under another name",
        initiator: b"iqn.2026-01.example:host",
        text: b"CHAP_N=alice\0CHAP_R=0xd2ad9b553183668fa064205c85779b04\0",
        passes: true,
    },
    Row {
        name: "carol at home",
        initiator: b"iqn.2026-01.example:host",
        text: b"CHAP_N=carol\0CHAP_R=0xaf045550ee06b7c03b5f594915cca305\0",
        passes: true,
    },
    Row {
        name: "carol elsewhere",
        initiator: b"iqn.2026-01.example:other",
        text: b"CHAP_N=carol\0CHAP_R=0xaf045550ee06b7c03b5f594915cca305\0",
        passes: false,
    },
    Row {
        name: "a user of that name",
        initiator: b"iqn.2026-01.example:other",
        text: b"CHAP_N=user\0CHAP_R=0x3148f43ac07ec93b1520a0e2bdb37220\0",
        passes: true,
    },
    Row {
        name: "a secret in hex",
        initiator: b"iqn.2026-01.example:other",
        text: b"CHAP_N=dora\0CHAP_R=0xd46c3a23f0339f879bb0761781740ff2\0",
        passes: true,
    },
    Row {
        name: "a secret in base64",
        initiator: b"iqn.2026-01.example:other",
        text: b"CHAP_N=emil\0CHAP_R=0x5c5ba4920ba97ed57bbbb63a423b1d4a\0",
        passes: true,
    },
    Row {
        name: "the target",
        initiator: b"iqn.2026-01.example:other",
        text: b"CHAP_N=bob\0CHAP_R=0x21c48e0daba39c6dfcabaea9df8ac8cb\0",
        passes: false,
    },
    Row {
        name: "another secret",
        initiator: b"iqn.2026-01.example:other",
        text: b"CHAP_N=alice\0CHAP_R=0xaf045550ee06b7c03b5f594915cca305\0",
        passes: false,
    },
];

fn check_response(rt: &impl Abort, alloc: Global, secrets: &Secrets, row: &Row) {
    let chap = secrets.demand(alloc, 7, CHALLENGE).expect(rt, "memory");
    let text = Text::read(alloc, row.text).expect(rt, "a text");
    let verdict = chap
        .judge(
            alloc,
            Progress::Challenged(Algorithm::Md5),
            row.initiator,
            &text,
        )
        .expect(rt, "memory");
    let passes = verdict != Verdict::Refused;
    same(rt, &passes, &row.passes, &row.name);
}

#[test]
fn users_of_a_text_pass(rt: HostRuntime) {
    let Ok(secrets) = Secrets::read(rt.alloc(), TEXT) else {
        panic!(rt; "refused");
    };
    for row in RESPONSES {
        check_response(&rt, rt.alloc(), &secrets, row);
    }
}

/// The response of alice, with a challenge for the target, and the target's response to it.
const MUTUAL: &[u8] =
    b"CHAP_N=alice\0CHAP_R=0xd2ad9b553183668fa064205c85779b04\0CHAP_I=9\0CHAP_C=0x4142\0";

const PROOF: [u8; 16] = [
    0x6d, 0x90, 0x6f, 0x84, 0x3a, 0xec, 0x99, 0xff, 0xfb, 0x18, 0x36, 0x04, 0xee, 0xb0, 0x53, 0x93,
];

#[test]
fn the_target_answers_as_its_line_says(rt: HostRuntime) {
    let Ok(secrets) = Secrets::read(rt.alloc(), TEXT) else {
        panic!(rt; "refused");
    };
    let chap = secrets
        .demand(rt.alloc(), 7, CHALLENGE)
        .expect(&rt, "memory");
    let text = Text::read(rt.alloc(), MUTUAL).expect(&rt, "a text");
    let verdict = chap
        .judge(rt.alloc(), Progress::Challenged(Algorithm::Md5), b"", &text)
        .expect(&rt, "memory");
    let due = Verdict::Goes {
        progress: Progress::Passed,
        said: Said::Response(Response::Md5(PROOF)),
    };
    same(&rt, &verdict, &due, &"mutual");
}

/// A text, and its fault.
const FAULTS: &[(&str, &[u8], Option<SecretsFault>)] = &[
    ("nothing", b"", None),
    ("blank lines", b"\n \t\r\n\n", None),
    ("a comment alone", b"# user", None),
    (
        "another word",
        b"users alice secretsecret12",
        Some(SecretsFault::BadLine(1)),
    ),
    (
        "a capital letter",
        b"User alice secretsecret12",
        Some(SecretsFault::BadLine(1)),
    ),
    (
        "no secret",
        b"user alice secretsecret12\nuser carol",
        Some(SecretsFault::BadLine(2)),
    ),
    (
        "a word too many",
        b"user alice secretsecret12 iqn.a b\n",
        Some(SecretsFault::BadLine(1)),
    ),
    (
        "a target that is bound",
        b"\n\ntarget bob othersecret34 iqn.a",
        Some(SecretsFault::BadLine(3)),
    ),
    (
        "a secret of 11 bytes",
        b"user alice secretsecre",
        Some(SecretsFault::BadSecret(1)),
    ),
    (
        "a comment behind a blank",
        b"user alice secretsecret12 #35",
        None,
    ),
    (
        "a comment behind a tab",
        b"\t# user\nuser alice secretsecret12\t#",
        None,
    ),
    (
        "a number sign in a secret",
        b"user alice secret#secret12",
        Some(SecretsFault::NumberSign(1)),
    ),
    (
        "a number sign behind a secret",
        b"user alice secretsecret12\ntarget bob othersecret34# bob",
        Some(SecretsFault::NumberSign(2)),
    ),
    (
        "a number sign in a line of no form",
        b"us#er",
        Some(SecretsFault::NumberSign(1)),
    ),
    (
        "a secret of 12 bytes in hex",
        b"user alice 0x000102030405060708090a0B",
        None,
    ),
    (
        "a secret of 11 bytes in hex",
        b"user alice 0x000102030405060708090a",
        Some(SecretsFault::BadSecret(1)),
    ),
    (
        "a secret of 11 bytes in 14 letters",
        b"user alice 0bAAECAwQFBgcICQo=",
        Some(SecretsFault::BadSecret(1)),
    ),
    (
        "a secret that is no hex",
        b"\nuser alice 0xsecretsecret12",
        Some(SecretsFault::BadBinary(2)),
    ),
    (
        "a secret in base64 without its padding",
        b"user alice 0BAAECAwQFBgcICQoLDA",
        Some(SecretsFault::BadBinary(1)),
    ),
    (
        "a target's secret that is a user's, in hex",
        b"user alice secretsecret12\ntarget bob 0x7365637265747365637265743132",
        Some(SecretsFault::SameSecret(2)),
    ),
    (
        "a short secret of the target",
        b"# bob\ntarget bob short",
        Some(SecretsFault::BadSecret(2)),
    ),
    (
        "a byte 0 in a name",
        b"user alice secretsecret12\ntarget bo\0b othersecret34",
        Some(SecretsFault::BadName(2)),
    ),
    (
        "a delete in a name, and a short secret",
        b"user al\x7fice short",
        Some(SecretsFault::BadName(1)),
    ),
    (
        "a name with bytes of UTF-8",
        b"user al\xc3\xafce secretsecret12",
        None,
    ),
    (
        "a name twice",
        b"user alice secretsecret12\nuser alice thirdsecret56",
        Some(SecretsFault::SameName(2)),
    ),
    (
        "the target's name",
        b"target alice othersecret34\nuser alice secretsecret12",
        Some(SecretsFault::SameName(2)),
    ),
    (
        "a user's name",
        b"user alice secretsecret12\ntarget alice othersecret34",
        Some(SecretsFault::SameName(2)),
    ),
    (
        "the target's secret",
        b"target bob secretsecret12\n\nuser alice secretsecret12",
        Some(SecretsFault::SameSecret(3)),
    ),
    (
        "a user's secret",
        b"user alice secretsecret12\ntarget bob secretsecret12",
        Some(SecretsFault::SameSecret(2)),
    ),
    (
        "one secret of two users",
        b"user alice secretsecret12\nuser carol secretsecret12",
        None,
    ),
    (
        "two targets",
        b"target bob othersecret34\ntarget eve fourthsecret\n",
        Some(SecretsFault::SecondTarget(2)),
    ),
    (
        "two wrong lines",
        b"user alice secretsecret12\nuser carol short\nuser",
        Some(SecretsFault::BadSecret(2)),
    ),
];

#[test]
fn the_first_wrong_line_is_told(rt: HostRuntime) {
    for (name, text, due) in FAULTS {
        let fault = Secrets::read(rt.alloc(), text).err();
        same(&rt, &fault, due, name);
    }
}

/// A text that is taken, and what is told of it.
const REMARKS: &[(&str, &[u8], &[SecretsRemark])] = &[
    ("nothing", b"", &[]),
    (
        "two secrets",
        b"user alice secretsecret12\nuser carol thirdsecret56",
        &[],
    ),
    (
        "one secret of two users",
        b"user alice secretsecret12\n\nuser carol secretsecret12",
        &[SecretsRemark::SharedSecret(3)],
    ),
    (
        "the same in hex",
        b"user alice secretsecret12\nuser carol 0X7365637265747365637265743132",
        &[SecretsRemark::SharedSecret(2)],
    ),
    (
        "capital letters",
        b"user Alice secretsecret12 iqn.2026-01.example:host\n\
            user carol thirdsecret56 iqn.2026-01.Example:host",
        &[SecretsRemark::Capital(2)],
    ),
    (
        "both in one line",
        b"user alice secretsecret12\nuser carol secretsecret12 iqn.2026-01.example:Host",
        &[SecretsRemark::Capital(2), SecretsRemark::SharedSecret(2)],
    ),
];

#[test]
fn what_may_be_a_mistake_is_told(rt: HostRuntime) {
    for (name, text, due) in REMARKS {
        let Ok(secrets) = Secrets::read(rt.alloc(), text) else {
            panic!(rt; "refused");
        };
        same(&rt, &secrets.remarks(), due, name);
    }
}

#[test]
fn a_text_of_a_target_alone_has_no_users(rt: HostRuntime) {
    let alone = Secrets::read(rt.alloc(), b"target bob othersecret34").ok();
    same(
        &rt,
        &alone.map(|s| s.has_users()),
        &Some(false),
        &"bob alone",
    );
    let user = Secrets::read(rt.alloc(), b"user alice secretsecret12").ok();
    same(&rt, &user.map(|s| s.has_users()), &Some(true), &"alice");
}

// The lines of so many users, whose names are all `a`s.
fn users(rt: &impl Abort, alloc: Global, count: usize) -> Vec<u8> {
    let mut text = Vec::new(alloc);
    for n in 0..count {
        let name = vec![in alloc; b'a'; n + 1].expect(rt, "a name");
        text.extend_from_slice(b"user ").expect(rt, "a text");
        text.extend_from_slice(&name).expect(rt, "a text");
        text.extend_from_slice(b" secretsecret12\n")
            .expect(rt, "a text");
    }
    text
}

#[test]
fn sixty_four_users_are_the_most(rt: HostRuntime) {
    let most = users(&rt, rt.alloc(), 64);
    same(&rt, &Secrets::read(rt.alloc(), &most).err(), &None, &"64");
    let more = users(&rt, rt.alloc(), 65);
    let fault = Secrets::read(rt.alloc(), &more).err();
    same(&rt, &fault, &Some(SecretsFault::TooManyUsers(65)), &"65");
}

// The fault of a user whose name has so many bytes.
fn fault_of_name(rt: &impl Abort, alloc: Global, length: usize) -> Option<SecretsFault> {
    let mut text = Vec::new(alloc);
    let name = vec![in alloc; b'a'; length].expect(rt, "a name");
    text.extend_from_slice(b"user ").expect(rt, "a text");
    text.extend_from_slice(&name).expect(rt, "a text");
    text.extend_from_slice(b" secretsecret12")
        .expect(rt, "a text");
    Secrets::read(alloc, &text).err()
}

#[test]
fn a_name_has_at_most_255_bytes(rt: HostRuntime) {
    same(&rt, &fault_of_name(&rt, rt.alloc(), 255), &None, &"255");
    let fault = fault_of_name(&rt, rt.alloc(), 256);
    same(&rt, &fault, &Some(SecretsFault::BadName(1)), &"256");
}

#[test]
fn a_text_has_at_most_65536_bytes(rt: HostRuntime) {
    let most = vec![in rt.alloc(); b'#'; 65_536].expect(&rt, "a text");
    same(
        &rt,
        &Secrets::read(rt.alloc(), &most).err(),
        &None,
        &"the most",
    );
    let more = vec![in rt.alloc(); b'#'; 65_537].expect(&rt, "a text");
    let fault = Secrets::read(rt.alloc(), &more).err();
    same(&rt, &fault, &Some(SecretsFault::TooLong), &"one more");
}

/// A fault, and what is printed of it.
const PRINTED: &[(SecretsFault, &str)] = &[
    (
        SecretsFault::Exposed,
        "may be used by others than its owner",
    ),
    (SecretsFault::TooLong, "has more than 65536 bytes"),
    (
        SecretsFault::BadName(2),
        "line 2: a name has at most 255 bytes, and no control character",
    ),
    (
        SecretsFault::BadSecret(3),
        "line 3: a secret has 12 to 255 bytes",
    ),
    (
        SecretsFault::BadBinary(4),
        "line 4: behind 0x a secret is hex digits, behind 0b base64",
    ),
    (
        SecretsFault::NumberSign(5),
        "line 5: a '#' inside a word; a comment begins at the start or behind a blank",
    ),
    (
        SecretsFault::BadLine(10),
        "line 10: this is neither 'user NAME SECRET [IQN]' nor 'target NAME SECRET'",
    ),
];

fn check_printed(rt: &impl Abort, alloc: Global, fault: SecretsFault, due: &str) {
    let text = format!(in alloc; "{fault}").expect(rt, "a text");
    same(rt, &text.as_str(), &due, &fault);
}

#[test]
fn faults_are_printed_without_the_text(rt: HostRuntime) {
    for (fault, due) in PRINTED {
        check_printed(&rt, rt.alloc(), *fault, due);
    }
}
