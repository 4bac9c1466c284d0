//! Texts that libiscsi 1.19 and open-iscsi 2.1.8 sent, others like them, and what they lead to. One
//! file, since it is one table.

use super::{HOST, demand};
use crate::asserts::same;
use iscsi_access::{Progress, Said, Verdict};
use iscsi_chap::{Algorithm, Response};
use iscsi_text::Text;
use std::alloc::Global;
use std::process::Abort;

/// The identifier and the challenge of a login.
struct Asked {
    identifier: u8,
    challenge: [u8; 16],
}

const LIBISCSI: Asked = Asked {
    identifier: 220,
    challenge: [
        0xb4, 0x77, 0xb7, 0x98, 0x4d, 0x88, 0xb5, 0xc7, 0x20, 0x20, 0x5c, 0xdc, 0x5d, 0x27, 0x0e,
        0xbb,
    ],
};

const LINUX: Asked = Asked {
    identifier: 202,
    challenge: [
        0x7c, 0x0b, 0x77, 0x4c, 0x99, 0x92, 0x75, 0x76, 0xac, 0x72, 0xc3, 0x61, 0x79, 0xa6, 0xae,
        0xc4,
    ],
};

const ANY: &[u8] = b"iqn.2026-01.example:linux";

const CHOSEN: Verdict = Verdict::Goes {
    progress: Progress::Chosen,
    said: Said::Method,
};

const MD5_ASKED: Progress = Progress::Challenged(Algorithm::Md5);

const SHA_256_ASKED: Progress = Progress::Challenged(Algorithm::Sha256);

const MD5_CHOSEN: Verdict = Verdict::Goes {
    progress: MD5_ASKED,
    said: Said::Challenge(Algorithm::Md5),
};

const SHA_256_CHOSEN: Verdict = Verdict::Goes {
    progress: SHA_256_ASKED,
    said: Said::Challenge(Algorithm::Sha256),
};

const PASSED: Verdict = Verdict::Goes {
    progress: Progress::Passed,
    said: Said::Nothing,
};

/// The target's response to open-iscsi's challenge.
const PROVED: Verdict = Verdict::Goes {
    progress: Progress::Passed,
    said: Said::Response(Response::Md5([
        0x99, 0xe7, 0xe8, 0x7e, 0x19, 0x15, 0x69, 0x01, 0x0c, 0x25, 0xa0, 0xa9, 0xac, 0xfc, 0x08,
        0xad,
    ])),
};

/// The same by SHA-256, of the `hashlib` of Python.
const PROVED_BY_SHA_256: Verdict = Verdict::Goes {
    progress: Progress::Passed,
    said: Said::Response(Response::Sha256([
        0xd9, 0x56, 0xba, 0x26, 0x01, 0x04, 0x9a, 0xe9, 0x76, 0x6d, 0x09, 0x7d, 0x83, 0x34, 0x70,
        0xd1, 0xab, 0x2b, 0x6d, 0x7d, 0x1d, 0x7c, 0xd0, 0x70, 0xbe, 0x33, 0xc0, 0x1a, 0x7c, 0xd1,
        0x85, 0x6b,
    ])),
};

struct Row {
    name: &'static str,
    asked: Asked,
    initiator: &'static [u8],
    before: Progress,
    text: &'static [u8],
    verdict: Verdict,
}

/// Texts that go on.
const GOOD: &[Row] = &[
    Row {
        name: "libiscsi offers CHAP",
        asked: LIBISCSI,
        initiator: ANY,
        before: Progress::Unasked,
        text: b"InitiatorName=iqn.2007-10.com.github:sahlberg:libiscsi:iscsi-inq\0TargetName=iqn.202\
            6-01.example:disk\0SessionType=Normal\0AuthMethod=CHAP,None\0",
        verdict: CHOSEN,
    },
    Row {
        name: "it names the algorithm",
        asked: LIBISCSI,
        initiator: ANY,
        before: Progress::Chosen,
        text: b"CHAP_A=5\0",
        verdict: MD5_CHOSEN,
    },
    Row {
        name: "it gives a response",
        asked: LIBISCSI,
        initiator: ANY,
        before: MD5_ASKED,
        text: b"CHAP_N=alice\0CHAP_R=0x2B31938B00C8C7F2B703B8745F81B468\0",
        verdict: PASSED,
    },
    Row {
        name: "in small letters",
        asked: LIBISCSI,
        initiator: ANY,
        before: MD5_ASKED,
        text: b"CHAP_N=alice\0CHAP_R=0x2b31938b00c8c7f2b703b8745f81b468\0",
        verdict: PASSED,
    },
    Row {
        name: "in base64",
        asked: LIBISCSI,
        initiator: ANY,
        before: MD5_ASKED,
        text: b"CHAP_N=alice\0CHAP_R=0bKzGTiwDIx/K3A7h0X4G0aA==\0",
        verdict: PASSED,
    },
    Row {
        name: "in the other order",
        asked: LIBISCSI,
        initiator: ANY,
        before: MD5_ASKED,
        text: b"CHAP_R=0x2B31938B00C8C7F2B703B8745F81B468\0CHAP_N=alice\0",
        verdict: PASSED,
    },
    Row {
        name: "open-iscsi challenges the target",
        asked: LINUX,
        initiator: ANY,
        before: MD5_ASKED,
        text: b"CHAP_N=alice\0CHAP_R=0xa935ed68b259367dd34a508d363b48f4\0CHAP_I=36\0CHAP_C=0x65560cc\
            a6fa39d685bc47d70e606ce7a\0",
        verdict: PROVED,
    },
    Row {
        name: "CHAP behind None",
        asked: LIBISCSI,
        initiator: ANY,
        before: Progress::Unasked,
        text: b"AuthMethod=None,CHAP\0",
        verdict: CHOSEN,
    },
    Row {
        name: "SHA-256 before MD5",
        asked: LIBISCSI,
        initiator: ANY,
        before: Progress::Chosen,
        text: b"CHAP_A=7,6,5\0",
        verdict: SHA_256_CHOSEN,
    },
    Row {
        name: "MD5 before SHA-256",
        asked: LIBISCSI,
        initiator: ANY,
        before: Progress::Chosen,
        text: b"CHAP_A=5,7\0",
        verdict: MD5_CHOSEN,
    },
    Row {
        name: "SHA-256 behind two that are unknown",
        asked: LIBISCSI,
        initiator: ANY,
        before: Progress::Chosen,
        text: b"CHAP_A=8,6,7,5\0",
        verdict: SHA_256_CHOSEN,
    },
    Row {
        name: "a response by SHA-256",
        asked: LIBISCSI,
        initiator: ANY,
        before: SHA_256_ASKED,
        text: b"CHAP_N=alice\0CHAP_R=0xe6dd66f08597b906db2641de30febc39997bd1195f23c20cd2d75b050b\
            77552c\0",
        verdict: PASSED,
    },
    Row {
        name: "the same in base64",
        asked: LIBISCSI,
        initiator: ANY,
        before: SHA_256_ASKED,
        text: b"CHAP_N=alice\0CHAP_R=0b5t1m8IWXuQbbJkHeMP68OZl70RlfI8IM0tdbBQt3VSw=\0",
        verdict: PASSED,
    },
    Row {
        name: "the target is challenged by SHA-256",
        asked: LINUX,
        initiator: ANY,
        before: SHA_256_ASKED,
        text: b"CHAP_N=alice\0CHAP_R=0x74fc75882db27afa738c95b34a4b14729903a10adcd88d4285a67e7dd2\
            a1311e\0CHAP_I=36\0CHAP_C=0x65560cca6fa39d685bc47d70e606ce7a\0",
        verdict: PROVED_BY_SHA_256,
    },
    Row {
        name: "a name of its own",
        asked: LIBISCSI,
        initiator: HOST,
        before: MD5_ASKED,
        text: b"CHAP_N=carol\0CHAP_R=0x3fc2387d763a88ddea99191a17261f6e\0",
        verdict: PASSED,
    },
    Row {
        name: "other keys behind the exchange",
        asked: LIBISCSI,
        initiator: ANY,
        before: Progress::Passed,
        text: b"HeaderDigest=None\0",
        verdict: PASSED,
    },
];

/// Texts that are refused.
const BAD: &[Row] = &[
    Row {
        name: "no CHAP",
        asked: LIBISCSI,
        initiator: ANY,
        before: Progress::Unasked,
        text: b"AuthMethod=None\0InitiatorName=a\0",
        verdict: Verdict::Refused,
    },
    Row {
        name: "no method",
        asked: LIBISCSI,
        initiator: ANY,
        before: Progress::Unasked,
        text: b"InitiatorName=a\0",
        verdict: Verdict::Refused,
    },
    Row {
        name: "a method that begins so",
        asked: LIBISCSI,
        initiator: ANY,
        before: Progress::Unasked,
        text: b"AuthMethod=CHAPS\0",
        verdict: Verdict::Refused,
    },
    Row {
        name: "the algorithm before the method",
        asked: LIBISCSI,
        initiator: ANY,
        before: Progress::Unasked,
        text: b"AuthMethod=CHAP\0CHAP_A=5\0",
        verdict: Verdict::Refused,
    },
    Row {
        name: "neither MD5 nor SHA-256",
        asked: LIBISCSI,
        initiator: ANY,
        before: Progress::Chosen,
        text: b"CHAP_A=6,8,57\0",
        verdict: Verdict::Refused,
    },
    Row {
        name: "a response by MD5 where SHA-256 was chosen",
        asked: LIBISCSI,
        initiator: ANY,
        before: SHA_256_ASKED,
        text: b"CHAP_N=alice\0CHAP_R=0x2B31938B00C8C7F2B703B8745F81B468\0",
        verdict: Verdict::Refused,
    },
    Row {
        name: "a response by SHA-256 where MD5 was chosen",
        asked: LIBISCSI,
        initiator: ANY,
        before: MD5_ASKED,
        text: b"CHAP_N=alice\0CHAP_R=0xe6dd66f08597b906db2641de30febc39997bd1195f23c20cd2d75b050b\
            77552c\0",
        verdict: Verdict::Refused,
    },
    Row {
        name: "the method twice",
        asked: LIBISCSI,
        initiator: ANY,
        before: Progress::Chosen,
        text: b"AuthMethod=CHAP\0CHAP_A=5\0",
        verdict: Verdict::Refused,
    },
    Row {
        name: "a response before its challenge",
        asked: LIBISCSI,
        initiator: ANY,
        before: Progress::Chosen,
        text: b"CHAP_N=alice\0CHAP_R=0x2B31938B00C8C7F2B703B8745F81B468\0",
        verdict: Verdict::Refused,
    },
    Row {
        name: "another name",
        asked: LIBISCSI,
        initiator: ANY,
        before: MD5_ASKED,
        text: b"CHAP_N=alicf\0CHAP_R=0x2B31938B00C8C7F2B703B8745F81B468\0",
        verdict: Verdict::Refused,
    },
    Row {
        name: "no name",
        asked: LIBISCSI,
        initiator: ANY,
        before: MD5_ASKED,
        text: b"CHAP_R=0x2B31938B00C8C7F2B703B8745F81B468\0",
        verdict: Verdict::Refused,
    },
    Row {
        name: "no response",
        asked: LIBISCSI,
        initiator: ANY,
        before: MD5_ASKED,
        text: b"CHAP_N=alice\0",
        verdict: Verdict::Refused,
    },
    Row {
        name: "the last digit",
        asked: LIBISCSI,
        initiator: ANY,
        before: MD5_ASKED,
        text: b"CHAP_N=alice\0CHAP_R=0x2B31938B00C8C7F2B703B8745F81B469\0",
        verdict: Verdict::Refused,
    },
    Row {
        name: "a byte too few",
        asked: LIBISCSI,
        initiator: ANY,
        before: MD5_ASKED,
        text: b"CHAP_N=alice\0CHAP_R=0x2B31938B00C8C7F2B703B8745F81B4\0",
        verdict: Verdict::Refused,
    },
    Row {
        name: "a byte too many",
        asked: LIBISCSI,
        initiator: ANY,
        before: MD5_ASKED,
        text: b"CHAP_N=alice\0CHAP_R=0x2B31938B00C8C7F2B703B8745F81B46800\0",
        verdict: Verdict::Refused,
    },
    Row {
        name: "another login of the same account",
        asked: LINUX,
        initiator: ANY,
        before: MD5_ASKED,
        text: b"CHAP_N=alice\0CHAP_R=0x2B31938B00C8C7F2B703B8745F81B468\0",
        verdict: Verdict::Refused,
    },
    Row {
        name: "an algorithm once more",
        asked: LIBISCSI,
        initiator: ANY,
        before: MD5_ASKED,
        text: b"CHAP_N=alice\0CHAP_R=0x2B31938B00C8C7F2B703B8745F81B468\0CHAP_A=5\0",
        verdict: Verdict::Refused,
    },
    Row {
        name: "a name of another",
        asked: LIBISCSI,
        initiator: ANY,
        before: MD5_ASKED,
        text: b"CHAP_N=carol\0CHAP_R=0x3fc2387d763a88ddea99191a17261f6e\0",
        verdict: Verdict::Refused,
    },
    Row {
        name: "the target's own account",
        asked: LIBISCSI,
        initiator: ANY,
        before: MD5_ASKED,
        text: b"CHAP_N=bob\0CHAP_R=0xa50d6985c2ebce20830a7272224847b8\0",
        verdict: Verdict::Refused,
    },
    Row {
        name: "a reflected challenge",
        asked: LINUX,
        initiator: ANY,
        before: MD5_ASKED,
        text: b"CHAP_N=alice\0CHAP_R=0xa935ed68b259367dd34a508d363b48f4\0CHAP_I=36\0CHAP_C=0x7c0b774\
            c99927576ac72c36179a6aec4\0",
        verdict: Verdict::Refused,
    },
    Row {
        name: "the same in base64",
        asked: LINUX,
        initiator: ANY,
        before: MD5_ASKED,
        text: b"CHAP_N=alice\0CHAP_R=0xa935ed68b259367dd34a508d363b48f4\0CHAP_I=36\0CHAP_C=0bfAt3TJm\
            SdXascsNheaauxA==\0",
        verdict: Verdict::Refused,
    },
    Row {
        name: "a challenge without identifier",
        asked: LINUX,
        initiator: ANY,
        before: MD5_ASKED,
        text: b"CHAP_N=alice\0CHAP_R=0xa935ed68b259367dd34a508d363b48f4\0CHAP_C=0x65560cca6fa39d685b\
            c47d70e606ce7a\0",
        verdict: Verdict::Refused,
    },
    Row {
        name: "an identifier without challenge",
        asked: LINUX,
        initiator: ANY,
        before: MD5_ASKED,
        text: b"CHAP_N=alice\0CHAP_R=0xa935ed68b259367dd34a508d363b48f4\0CHAP_I=36\0",
        verdict: Verdict::Refused,
    },
    Row {
        name: "an identifier of two bytes",
        asked: LINUX,
        initiator: ANY,
        before: MD5_ASKED,
        text: b"CHAP_N=alice\0CHAP_R=0xa935ed68b259367dd34a508d363b48f4\0CHAP_I=256\0CHAP_C=0x65560c\
            ca6fa39d685bc47d70e606ce7a\0",
        verdict: Verdict::Refused,
    },
    Row {
        name: "a response once more",
        asked: LIBISCSI,
        initiator: ANY,
        before: Progress::Passed,
        text: b"CHAP_N=alice\0CHAP_R=0x2B31938B00C8C7F2B703B8745F81B468\0",
        verdict: Verdict::Refused,
    },
    Row {
        name: "the method once more",
        asked: LIBISCSI,
        initiator: ANY,
        before: Progress::Passed,
        text: b"AuthMethod=None\0",
        verdict: Verdict::Refused,
    },
];

fn check_row(rt: &impl Abort, alloc: Global, row: &Row) {
    let chap = demand(rt, alloc, row.asked.identifier, &row.asked.challenge);
    let text = Text::read(alloc, row.text).expect(rt, "a text");
    let verdict = chap
        .judge(alloc, row.before, row.initiator, &text)
        .expect(rt, "memory");
    same(rt, &verdict, &row.verdict, &row.name);
}

#[test]
fn right_texts_go_on(rt: HostRuntime) {
    for row in GOOD {
        check_row(&rt, rt.alloc(), row);
    }
}

#[test]
fn wrong_texts_are_refused(rt: HostRuntime) {
    for row in BAD {
        check_row(&rt, rt.alloc(), row);
    }
}
