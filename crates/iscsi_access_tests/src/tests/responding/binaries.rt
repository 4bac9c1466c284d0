//! Large binary values by example.

use crate::asserts::same;
use iscsi_chap::{read_binary, write_binary};
use std::alloc::Global;
use std::process::Abort;

/// A value, and the bytes that it writes.
const VALUES: &[(&str, &[u8], Option<&[u8]>)] = &[
    ("hex", b"0x0123abcd", Some(b"\x01\x23\xab\xcd")),
    ("capital letters", b"0X0123ABCD", Some(b"\x01\x23\xab\xcd")),
    ("an odd digit", b"0xf", Some(b"\x0f")),
    ("three digits", b"0x123", Some(b"\x01\x23")),
    ("leading zeros", b"0x0000", Some(b"\0\0")),
    ("no digit", b"0x", None),
    ("a letter that is no digit", b"0x0g", None),
    ("no 0x", b"0123", None),
    ("base64", b"0bAbCd7w==", Some(b"\x01\xb0\x9d\xef")),
    ("base64 with a capital", b"0BAAEC", Some(b"\0\x01\x02")),
    (
        "a challenge in base64",
        b"0b4e/FqBXMO42JmCj49kdYNQ==",
        Some(b"\xe1\xef\xc5\xa8\x15\xcc\x3b\x8d\x89\x98\x28\xf8\xf6\x47\x58\x35"),
    ),
    ("no padding", b"0bAbCd7w", None),
    ("bits behind the last byte", b"0bAbCd7x==", None),
    ("no base64", b"0b", None),
    ("a decimal", b"12", None),
    ("one byte", b"0", None),
    ("nothing", b"", None),
];

fn check_value(rt: &impl Abort, alloc: Global, name: &str, text: &[u8], want: Option<&[u8]>) {
    let read = read_binary(alloc, text).expect(rt, "memory");
    let bytes = match &read {
        Some(bytes) => Some(bytes.as_slice()),
        None => None,
    };
    same(rt, &bytes, &want, &name);
}

#[test]
fn values_are_read(rt: HostRuntime) {
    for (name, text, want) in VALUES {
        check_value(&rt, rt.alloc(), name, text, *want);
    }
}

#[test]
fn bytes_are_written_in_hex(rt: HostRuntime) {
    let mut out = Vec::new(rt.alloc());
    out.extend_from_slice(b"CHAP_C=").expect(&rt, "memory");
    write_binary(b"\x00\x0f\xf0\xff", &mut out).expect(&rt, "memory");
    same(
        &rt,
        &out.as_slice(),
        &b"CHAP_C=0x000ff0ff".as_slice(),
        &"hex",
    );
}
