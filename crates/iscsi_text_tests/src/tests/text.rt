//! Texts by example. The file is long for its rows.

use super::same;
use iscsi_text::{Text, TextFault, Value, read_text, split_at_byte, value_in};
use std::alloc::Global;
use std::process::Abort;

const KEY_OF_63: &[u8] = b"aaaaaaaaaaaaaaaaaaaaaaaaaaaaaaaaaaaaaaaaaaaaaaaaaaaaaaaaaaaaaaa=1\0";

const KEY_OF_64: &[u8] = b"aaaaaaaaaaaaaaaaaaaaaaaaaaaaaaaaaaaaaaaaaaaaaaaaaaaaaaaaaaaaaaaa=1\0";

// 26 keys, as they come in a text.
const ASCENDING: &[u8] =
    b"A=\0B=\0C=\0D=\0E=\0F=\0G=\0H=\0I=\0J=\0K=\0L=\0M=\0N=\0O=\0P=\0Q=\0R=\0S=\0T=\0U=\0V=\0\
      W=\0X=\0Y=\0Z=\0";

const DESCENDING: &[u8] =
    b"Z=\0Y=\0X=\0W=\0V=\0U=\0T=\0S=\0R=\0Q=\0P=\0O=\0N=\0M=\0L=\0K=\0J=\0I=\0H=\0G=\0F=\0E=\0\
      D=\0C=\0B=\0A=\0";

// The same in disorder, with addresses among them, and in order.
const MIXED: &[u8] =
    b"M=\0N=\0L=\0TargetAddress=c\0O=\0K=\0P=\0J=\0Q=\0I=\0R=\0H=\0S=\0TargetAddress=a\0G=\0\
      T=\0F=\0U=\0E=\0V=\0D=\0W=\0C=\0TargetAddress=b\0X=\0B=\0Y=\0A=\0Z=\0";

const SORTED: &[u8] =
    b"A=\0B=\0C=\0D=\0E=\0F=\0G=\0H=\0I=\0J=\0K=\0L=\0M=\0N=\0O=\0P=\0Q=\0R=\0S=\0T=\0\
      TargetAddress=c\0TargetAddress=a\0TargetAddress=b\0U=\0V=\0W=\0X=\0Y=\0Z=\0";

// A text, and the canonical text of its map.
const CANONICAL: &[(&str, &[u8], &[u8])] = &[
    ("nothing", b"", b""),
    ("spare bytes alone", b"\0\0\0", b""),
    (
        "a spare byte, a hexadecimal numeral and keys out of order",
        b"MaxBurstLength=0X0040000\0\0InitialR2T=Yes\0",
        b"InitialR2T=Yes\0MaxBurstLength=262144\0",
    ),
    (
        "a plain value stays, and addresses keep their order",
        b"TargetAddress=b\0A=0x05\0TargetAddress=a\0",
        b"A=0x05\0TargetAddress=b\0TargetAddress=a\0",
    ),
    ("zero", b"MaxBurstLength=0\0", b"MaxBurstLength=0\0"),
    (
        "zero in hexadecimal",
        b"MaxBurstLength=0x0\0",
        b"MaxBurstLength=0\0",
    ),
    (
        "a decimal",
        b"MaxBurstLength=16777215\0",
        b"MaxBurstLength=16777215\0",
    ),
    (
        "the same in hexadecimal",
        b"MaxBurstLength=0xffffff\0",
        b"MaxBurstLength=16777215\0",
    ),
    (
        "the last decimal",
        b"MaxBurstLength=999999999999\0",
        b"MaxBurstLength=999999999999\0",
    ),
    (
        "the first hexadecimal",
        b"MaxBurstLength=1000000000000\0",
        b"MaxBurstLength=0xe8d4a51000\0",
    ),
    (
        "the largest number",
        b"MaxBurstLength=0xFFFFFFFFFFFFFFFF\0",
        b"MaxBurstLength=0xffffffffffffffff\0",
    ),
    (
        "2^64 is odd",
        b"MaxBurstLength=18446744073709551616\0",
        b"MaxBurstLength=18446744073709551616\0",
    ),
    (
        "a leading zero is odd",
        b"MaxBurstLength=007\0",
        b"MaxBurstLength=007\0",
    ),
    ("0x is odd", b"MaxBurstLength=0x\0", b"MaxBurstLength=0x\0"),
    (
        "the value goes on behind the first =",
        b"A==b=\0",
        b"A==b=\0",
    ),
    ("a key of 63 letters", KEY_OF_63, KEY_OF_63),
    ("many keys that ascend", ASCENDING, ASCENDING),
    ("many keys that descend", DESCENDING, ASCENDING),
    ("many keys in disorder, and addresses", MIXED, SORTED),
    (
        "addresses among keys that descend",
        b"TargetAddress=b\0C=3\0TargetAddress=a\0B=2\0TargetAddress=c\0A=1\0",
        b"A=1\0B=2\0C=3\0TargetAddress=b\0TargetAddress=a\0TargetAddress=c\0",
    ),
];

// A text where memory is not refused.
fn text_of<'a>(rt: &impl Abort, alloc: Global, bytes: &'a [u8]) -> Text<'a> {
    Text::read(alloc, bytes).expect(rt, "a text")
}

// The canonical text of a row, and its length before it is written.
fn check_canonical(rt: &impl Abort, alloc: Global, name: &str, bytes: &[u8], want: &[u8]) {
    let text = text_of(rt, alloc, bytes);
    same(rt, &text.canonical_len(), &want.len(), &name);
    let mut out = Vec::new(alloc);
    text.write(&mut out).expect(rt, name);
    same(rt, &out.as_slice(), &want, &name);
}

#[test]
fn canonical_texts_are_written(rt: HostRuntime) {
    for (name, bytes, want) in CANONICAL {
        check_canonical(&rt, rt.alloc(), name, bytes, want);
    }
}

#[test]
fn many_spare_bytes_are_nothing(rt: HostRuntime) {
    let text = text_of(&rt, rt.alloc(), &[0; 16_384]);
    same(&rt, &text.len(), &0, &"spare bytes");
}

// A text, its first fault, and what is printed of it.
const FAULTS: &[(&[u8], TextFault, &str)] = &[
    (b"A=1", TextFault::Unterminated(0), "unterminated at 0"),
    (b"A=1\0B\0", TextFault::NoEquals(4), "no equals at 4"),
    (b"A=1\0B", TextFault::Unterminated(4), "unterminated at 4"),
    (b"9A=1\0", TextFault::BadKey(0), "bad key at 0"),
    (b"=1\0", TextFault::BadKey(0), "bad key at 0"),
    (KEY_OF_64, TextFault::BadKey(0), "bad key at 0"),
    (
        b"InitialR2T=Yes\0InitialR2T=No\0",
        TextFault::Repeated(15),
        "repeated key at 15",
    ),
    // Keys that descend, of which one stands again far behind, before an entry without `=`.
    (
        b"C=1\0B=2\0A=3\0TargetAddress=b\0TargetAddress=a\0C=4\0D\0",
        TextFault::Repeated(44),
        "repeated key at 44",
    ),
    // The first that is repeated, though another is less.
    (
        b"B=1\0A=2\0B=3\0A=4\0",
        TextFault::Repeated(8),
        "repeated key at 8",
    ),
    // What is wrong before a key is repeated.
    (
        b"B=1\0A=2\0C\0B=3\0",
        TextFault::NoEquals(8),
        "no equals at 8",
    ),
];

fn check_line(rt: &impl Abort, alloc: Global, fault: TextFault, line: &str) {
    let text = format!(in alloc; "{fault}").expect(rt, "text");
    same(rt, &text.as_str(), &line, &fault);
}

fn check_fault(rt: &impl Abort, alloc: Global, bytes: &[u8], want: TextFault, line: &str) {
    let fault = Text::read(alloc, bytes).err();
    same(rt, &fault, &Some(want), &line);
    check_line(rt, alloc, want, line);
}

#[test]
fn first_faults_are_answered(rt: HostRuntime) {
    for (bytes, want, line) in FAULTS {
        check_fault(&rt, rt.alloc(), bytes, *want, line);
    }
    check_line(&rt, rt.alloc(), TextFault::NoMemory, "memory");
}

const TYPED: &[u8] = b"TargetAddress=b\0MaxBurstLength=0x10\0TargetAddress=a\0ImmediateData=No\0\
      InitialR2T=no\0AuthMethod=CHAP,None\0DataDigest=CRC32C,,None\0X-test=Yes\0";

// Its pairs.
const PAIRS: &[(&str, Value<'static>)] = &[
    ("AuthMethod", Value::Items(b"CHAP,None")),
    ("DataDigest", Value::Odd(b"CRC32C,,None")),
    ("ImmediateData", Value::Boolean(false)),
    ("InitialR2T", Value::Odd(b"no")),
    ("MaxBurstLength", Value::Number(16)),
    ("TargetAddress", Value::Plain(b"b")),
    ("TargetAddress", Value::Plain(b"a")),
    ("X-test", Value::Plain(b"Yes")),
];

fn check_pair(rt: &impl Abort, text: &Text, n: usize, want: Option<(&[u8], Value)>) {
    same(rt, &text.pair(n), &want, &n);
}

#[test]
fn values_have_their_keys_types(rt: HostRuntime) {
    let text = text_of(&rt, rt.alloc(), TYPED);
    same(&rt, &text.len(), &8, &"length");
    same(&rt, &text.pairs().len(), &8, &"pairs");
    for (n, (key, value)) in PAIRS.iter().enumerate() {
        check_pair(&rt, &text, n, Some((key.as_bytes(), *value)));
    }
    check_pair(&rt, &text, 8, None);
}

// A key, which of its values, and the value.
const VALUES: &[(&str, usize, Option<Value<'static>>)] = &[
    ("MaxBurstLength", 0, Some(Value::Number(16))),
    ("MaxBurstLength", 1, None),
    ("TargetAddress", 1, Some(Value::Plain(b"a"))),
    ("TargetAddress", 2, None),
    ("X-other", 0, None),
];

fn check_value(rt: &impl Abort, text: &Text, key: &str, place: usize, want: &Option<Value>) {
    same(rt, &text.get(key.as_bytes(), place), want, &key);
    let found = value_in(text.pairs(), key.as_bytes(), place);
    same(rt, &found, want, &key);
}

#[test]
fn values_are_got_by_key_and_place(rt: HostRuntime) {
    let text = text_of(&rt, rt.alloc(), TYPED);
    for (key, place, want) in VALUES {
        check_value(&rt, &text, key, *place, want);
    }
}

// Reads the text again where memory ran out: only that may come in place of the text.
fn read_twice<'a>(rt: &impl Abort, alloc: Global, bytes: &'a [u8], name: &str) -> Text<'a> {
    match Text::read(alloc, bytes) {
        Ok(text) => text,
        Err(fault) => {
            same(rt, &fault, &TextFault::NoMemory, &name);
            Text::read(alloc, bytes).expect(rt, "memory is there again")
        }
    }
}

// Writes the text again where memory ran out: that leaves `out` as it was.
fn write_twice(rt: &impl Abort, alloc: Global, text: &Text, name: &str) -> Vec<u8> {
    let mut out = Vec::new(alloc);
    if text.write(&mut out).is_err() {
        same(rt, &out.len(), &0, &name);
        text.write(&mut out).expect(rt, name);
    }
    out
}

fn check_twice(rt: &impl Abort, alloc: Global, name: &str, bytes: &[u8], want: &[u8]) {
    let text = read_twice(rt, alloc, bytes, name);
    let out = write_twice(rt, alloc, &text, name);
    same(rt, &out.as_slice(), &want, &name);
}

// What `rt try --test --fail-alloc N` is for. What is refused answers that memory is out and leaves
// `out` as it was. The next call writes what ample memory gives.
#[test]
fn refused_memory_changes_no_answer(rt: HostRuntime) {
    for (name, bytes, want) in CANONICAL {
        check_twice(&rt, rt.alloc(), name, bytes, want);
    }
}

// Bytes, and how many pairs they have where they are a text.
const READ: &[(&[u8], Option<usize>)] = &[
    (b"", Some(0)),
    (b"A=1\0B=2\0", Some(2)),
    (b"A=1", None),
    (b"A\0", None),
];

fn check_read(rt: &impl Abort, alloc: Global, bytes: &[u8], pairs: Option<usize>) {
    let count = match read_text(alloc, bytes).expect(rt, "memory") {
        Some(text) => Some(text.len()),
        None => None,
    };
    same(rt, &count, &pairs, &bytes);
}

#[test]
fn bytes_are_a_text_or_none(rt: HostRuntime) {
    for (bytes, pairs) in READ {
        check_read(&rt, rt.alloc(), bytes, *pairs);
    }
}

#[test]
fn bytes_split_at_the_first_byte_sought(rt: HostRuntime) {
    let parts = split_at_byte(b"key=a=b", b'=');
    same(&rt, &parts, &Some((&b"key"[..], &b"a=b"[..])), &"a pair");
    same(&rt, &split_at_byte(b"key", b'='), &None, &"no byte sought");
}
