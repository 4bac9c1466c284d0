//! Responses by example, their bytes in hex.

use crate::asserts::{same, same_bytes};
use iscsi_chap::{Algorithm, Response, is_equal};
use std::alloc::Global;
use std::process::Abort;

const ALICE: &[u8] = b"secretsecret12";

const BOB: &[u8] = b"othersecret34";

struct Row {
    name: &'static str,
    identifier: u8,
    secret: &'static [u8],
    challenge: &'static [u8],
    response: &'static [u8],
}

/// Responses that libiscsi 1.19, open-iscsi 2.1.8 and tgt 1.0.85 gave each other, and libiscsi to a
/// challenge of 16 bytes.
const RECORDED: &[Row] = &[
    Row {
        name: "libiscsi to tgt",
        identifier: 1,
        secret: ALICE,
        challenge: b"5952ea735148462993041a9dd714ad0820778169b2b714381d9c1374abee506f\
            c79835be07500873c6d5ed43ad9d2bc453f6",
        response: b"9e615afaadb6128697c61780b0feccda",
    },
    Row {
        name: "tgt to libiscsi",
        identifier: 1,
        secret: BOB,
        challenge: b"b254389bcc9c941bc51239598e5a37dec942d75a46aee26748fd78f94059cbf2",
        response: b"ffbeca50e4521fa2ede15dbc45129898",
    },
    Row {
        name: "open-iscsi to tgt",
        identifier: 4,
        secret: ALICE,
        challenge: b"73320589d846cb392df0a7f75985366a02fc690d2593fa644e6a3a773c180e76\
            aafd1ee7231043c4510a5fb7ff606ccf8d44",
        response: b"3ced1949fc1cd4f0b803602d686b337e",
    },
    Row {
        name: "tgt to open-iscsi",
        identifier: 87,
        secret: BOB,
        challenge: b"28839e2c675a3f45d77491b4b790712a",
        response: b"22e3558429312d079310ba17ec6a5f9a",
    },
    Row {
        name: "libiscsi to 16 bytes",
        identifier: 125,
        secret: ALICE,
        challenge: b"509e3194d6f3990641caa49b8621027a",
        response: b"41de0ce28e8c359410ed23b8814ef099",
    },
];

/// Responses by MD5 of another program, the `hashlib` of Python, at lengths where a block begins.
const COMPUTED: &[Row] = &[
    Row {
        name: "an identifier alone",
        identifier: 0,
        secret: b"",
        challenge: b"",
        response: b"93b885adfe0da089cdf634904fd59f71",
    },
    Row {
        name: "55 bytes, the most in one block",
        identifier: 255,
        secret: ALICE,
        challenge: b"000102030405060708090a0b0c0d0e0f101112131415161718191a1b1c1d1e1f\
            2021222324252627",
        response: b"cdc80c1e42a6dc142bfb4dfe3639d23a",
    },
    Row {
        name: "56 bytes",
        identifier: 1,
        secret: ALICE,
        challenge: b"000102030405060708090a0b0c0d0e0f101112131415161718191a1b1c1d1e1f\
            202122232425262728",
        response: b"e38c96513e8d6290dacc1d9bef71e53c",
    },
    Row {
        name: "64 bytes",
        identifier: 7,
        secret: BOB,
        challenge: b"000102030405060708090a0b0c0d0e0f101112131415161718191a1b1c1d1e1f\
            202122232425262728292a2b2c2d2e2f3031",
        response: b"65231c489402d2c0e064796ebdd355e9",
    },
    Row {
        name: "a secret of 255 bytes",
        identifier: 128,
        secret: &[b's'; 255],
        challenge: b"00000000000000000000000000000000",
        response: b"58a115d6e10e492d46f33cc38d548fc7",
    },
];

/// The same by SHA-256.
const COMPUTED_SHA_256: &[Row] = &[
    Row {
        name: "an identifier alone",
        identifier: 0,
        secret: b"",
        challenge: b"",
        response: b"6e340b9cffb37a989ca544e6bb780a2c78901d3fb33738768511a30617afa01d",
    },
    Row {
        name: "55 bytes, the most in one block",
        identifier: 255,
        secret: ALICE,
        challenge: b"000102030405060708090a0b0c0d0e0f101112131415161718191a1b1c1d1e1f\
            2021222324252627",
        response: b"4a78bd779e88a97d9b60ed3a06720eedf60eff5df1a03af86428c4d8e59ee3e2",
    },
    Row {
        name: "56 bytes",
        identifier: 1,
        secret: ALICE,
        challenge: b"000102030405060708090a0b0c0d0e0f101112131415161718191a1b1c1d1e1f\
            202122232425262728",
        response: b"3094ab0c3ca7d7733cc5a4bd2e7a5d0a3955ca8bc22deda422b07d3e69d8cc4e",
    },
    Row {
        name: "64 bytes",
        identifier: 7,
        secret: BOB,
        challenge: b"000102030405060708090a0b0c0d0e0f101112131415161718191a1b1c1d1e1f\
            202122232425262728292a2b2c2d2e2f3031",
        response: b"dcbe71e2f0a4c8221ad90c020e912a86e6dbc2626f4afe8b84265adc34f20b95",
    },
    Row {
        name: "a secret of 255 bytes",
        identifier: 128,
        secret: &[b's'; 255],
        challenge: b"00000000000000000000000000000000",
        response: b"6d447d76e7ec91b436d2e1170bdf07f792fc83844ab48b3b80f1beab95e79006",
    },
];

fn check_row(rt: &impl Abort, alloc: Global, algorithm: Algorithm, row: &Row) {
    let challenge = hex::decode(alloc, row.challenge).expect(rt, "a challenge");
    let due = hex::decode(alloc, row.response).expect(rt, "a response");
    let given = Response::to_challenge(algorithm, row.identifier, row.secret, &challenge);
    same_bytes(rt, given.as_bytes(), &due, &row.name);
}

#[test]
fn real_responses_are_given(rt: HostRuntime) {
    for row in RECORDED {
        check_row(&rt, rt.alloc(), Algorithm::Md5, row);
    }
}

#[test]
fn responses_of_each_length_are_given(rt: HostRuntime) {
    for row in COMPUTED {
        check_row(&rt, rt.alloc(), Algorithm::Md5, row);
    }
    for row in COMPUTED_SHA_256 {
        check_row(&rt, rt.alloc(), Algorithm::Sha256, row);
    }
}

#[test]
fn a_long_challenge_is_answered(rt: HostRuntime) {
    let due = hex::decode(rt.alloc(), b"ada11d91ef511dd8b2a879f4bb4795a5").expect(
        &rt,
        "a response",
    );
    let given = Response::to_challenge(Algorithm::Md5, 200, b"0123456789ab", &[0xff; 1024]);
    same_bytes(&rt, given.as_bytes(), &due, &"1,024 bytes");
}

/// Two texts, and whether they are the same.
const PAIRS: &[(&str, &[u8], &[u8], bool)] = &[
    ("nothing", b"", b"", true),
    ("the same", b"0123456789abcdef", b"0123456789abcdef", true),
    (
        "the first byte",
        b"X123456789abcdef",
        b"0123456789abcdef",
        false,
    ),
    (
        "the last byte",
        b"0123456789abcdeX",
        b"0123456789abcdef",
        false,
    ),
    ("one bit", b"\x80", b"\x00", false),
    (
        "differences that add up to 256",
        b"\x01\xff",
        b"\x00\x00",
        false,
    ),
    ("a prefix", b"0123456789abcde", b"0123456789abcdef", false),
    (
        "one byte more",
        b"0123456789abcdef0",
        b"0123456789abcdef",
        false,
    ),
];

#[test]
fn equal_bytes_alone_are_equal(rt: HostRuntime) {
    for (name, a, b, want) in PAIRS {
        same(&rt, &is_equal(a, b), want, name);
    }
}
