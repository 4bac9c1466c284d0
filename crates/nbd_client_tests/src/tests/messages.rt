//! Messages as the protocol's document draws them.

use super::bytes_of;
use crate::asserts::same;
use nbd_wire::{
    BlockSizes, Command, Export, Greeting, GreetingFault, Info, InfoFault, OptionHead, OptionMagic,
    ReplyMagic, Request, RequestFault, SimpleReply, read_greeting, read_info, read_option_head,
    read_request, read_simple_reply, reply_bytes, request_bytes, write_go,
};
use std::process::Abort;

/// What a server says first, and what that is.
const GREETINGS: &[(&str, Result<Greeting, GreetingFault>)] = &[
    (
        "4e42444d41474943 49484156454f5054 0001",
        Ok(Greeting { no_zeroes: false }),
    ),
    (
        "4e42444d41474943 49484156454f5054 0003",
        Ok(Greeting { no_zeroes: true }),
    ),
    (
        "4e42444d41474943 49484156454f5054 0002",
        Err(GreetingFault::NotFixed),
    ),
    (
        "4e42444d41474943 49484156454f5055 0001",
        Err(GreetingFault::NotFixed),
    ),
    (
        "4e42444d41474943 0000420281861253 0001",
        Err(GreetingFault::OldStyle),
    ),
    (
        "4e42444d41474944 49484156454f5054 0001",
        Err(GreetingFault::NoMagic),
    ),
    (
        "485454502f312e31 2034303020426164 2052",
        Err(GreetingFault::NoMagic),
    ),
];

#[test]
fn a_greeting_is_read(rt: HostRuntime) {
    for (text, due) in GREETINGS {
        let mut bytes = [0; 18];
        copy(&rt, &bytes_of(&rt, rt.alloc(), text), &mut bytes);
        same(&rt, &read_greeting(&bytes), due, text);
    }
}

// Copies all bytes.
fn copy(rt: &impl Abort, from: &[u8], to: &mut [u8]) {
    if from.len() != to.len() {
        panic!(rt; "a row of another length");
    }
    to.copy_from_slice(from);
}

/// The name of an export, and the option GO for it.
const OPTIONS: &[(&str, &str)] = &[
    ("", "49484156454f5054 00000007 00000008 00000000 0001 0003"),
    (
        "disk",
        "49484156454f5054 00000007 0000000c 00000004 6469736b 0001 0003",
    ),
];

#[test]
fn go_is_written(rt: HostRuntime) {
    for (name, text) in OPTIONS {
        let mut out = Vec::new(rt.alloc());
        let written = if name.len() <= 4096 {
            write_go(name.as_bytes(), &mut out).is_ok()
        } else {
            false
        };
        same(&rt, &written, &true, name);
        same(&rt, &out, &bytes_of(&rt, rt.alloc(), text), name);
    }
}

/// The head of an answer to an option.
const HEADS: &[(&str, Result<OptionHead, OptionMagic>)] = &[
    (
        "0003e889045565a9 00000007 00000003 0000000c",
        Ok(OptionHead {
            option: 7,
            answer: 3,
            length: 12,
        }),
    ),
    (
        "0003e889045565a9 00000007 80000006 ffffffff",
        Ok(OptionHead {
            option: 7,
            answer: 0x8000_0006,
            length: u32::MAX,
        }),
    ),
    (
        "0003e889045565aa 00000007 00000001 00000000",
        Err(OptionMagic {
            magic: 0x0003_e889_0455_65aa,
        }),
    ),
];

#[test]
fn the_head_of_an_answer_is_read(rt: HostRuntime) {
    for (text, due) in HEADS {
        let mut bytes = [0; 20];
        copy(&rt, &bytes_of(&rt, rt.alloc(), text), &mut bytes);
        same(&rt, &read_option_head(&bytes), due, text);
    }
}

/// What follows an answer INFO.
const INFOS: &[(&str, Result<Info, InfoFault>)] = &[
    (
        "0000 0000000001000000 0d6d",
        Ok(Info::Export(Export {
            size: 16_777_216,
            flags: 0x0d6d,
        })),
    ),
    (
        "0003 00000001 00001000 02000000",
        Ok(Info::BlockSizes(BlockSizes {
            minimum: 1,
            preferred: 4096,
            maximum: 33_554_432,
        })),
    ),
    ("0001 6469736b", Ok(Info::Other(1))),
    ("ffff", Ok(Info::Other(65_535))),
    ("", Err(InfoFault::NoKind)),
    ("00", Err(InfoFault::NoKind)),
    (
        "0000 0000000001000000 0d",
        Err(InfoFault::Length {
            kind: 0,
            length: 11,
        }),
    ),
    (
        "0003 00000001 00001000 02000000 00",
        Err(InfoFault::Length {
            kind: 3,
            length: 15,
        }),
    ),
];

#[test]
fn information_is_read(rt: HostRuntime) {
    for (text, due) in INFOS {
        let bytes = bytes_of(&rt, rt.alloc(), text);
        same(&rt, &read_info(&bytes), due, text);
    }
}

/// Requests, and their bytes.
const REQUESTS: &[(&str, Request)] = &[
    (
        "25609513 0000 0000 0000000000000001 0000000000000400 00000200",
        Request {
            command: Command::Read,
            cookie: 1,
            offset: 1024,
            length: 512,
        },
    ),
    (
        "25609513 0000 0001 0123456789abcdef 0002000000000000 02000000",
        Request {
            command: Command::Write,
            cookie: 0x0123_4567_89ab_cdef,
            offset: 562_949_953_421_312,
            length: 33_554_432,
        },
    ),
    (
        "25609513 0000 0003 ffffffffffffffff 0000000000000000 00000000",
        Request {
            command: Command::Flush,
            cookie: u64::MAX,
            offset: 0,
            length: 0,
        },
    ),
    (
        "25609513 0000 0006 0000000000000002 0000000000000200 00400000",
        Request {
            command: Command::WriteZeroes,
            cookie: 2,
            offset: 512,
            length: 4_194_304,
        },
    ),
];

#[test]
fn a_request_is_written_and_read(rt: HostRuntime) {
    for (text, request) in REQUESTS {
        let mut bytes = [0; 28];
        copy(&rt, &bytes_of(&rt, rt.alloc(), text), &mut bytes);
        same(&rt, &request_bytes(request), &bytes, text);
        same(&rt, &read_request(&bytes), &Ok(*request), text);
    }
}

/// Requests that a client of these does not send.
const OTHERS: &[(&str, RequestFault)] = &[
    (
        "25609514 0000 0000 0000000000000001 0000000000000400 00000200",
        RequestFault::Magic(0x2560_9514),
    ),
    (
        "25609513 0001 0001 0000000000000001 0000000000000400 00000200",
        RequestFault::Flags(1),
    ),
    (
        "25609513 0000 0002 0000000000000001 0000000000000000 00000000",
        RequestFault::Command(2),
    ),
    (
        "25609513 0000 0004 0000000000000001 0000000000000400 00000200",
        RequestFault::Command(4),
    ),
    (
        "25609513 0000 0007 0000000000000001 0000000000000400 00000200",
        RequestFault::Command(7),
    ),
];

#[test]
fn another_request_is_refused(rt: HostRuntime) {
    for (text, fault) in OTHERS {
        let mut bytes = [0; 28];
        copy(&rt, &bytes_of(&rt, rt.alloc(), text), &mut bytes);
        same(&rt, &read_request(&bytes), &Err(*fault), text);
    }
}

/// Simple replies.
const REPLIES: &[(&str, SimpleReply)] = &[
    (
        "67446698 00000000 0000000000000001",
        SimpleReply {
            error: 0,
            cookie: 1,
        },
    ),
    (
        "67446698 0000006c fedcba9876543210",
        SimpleReply {
            error: 108,
            cookie: 0xfedc_ba98_7654_3210,
        },
    ),
];

#[test]
fn a_reply_is_written_and_read(rt: HostRuntime) {
    for (text, reply) in REPLIES {
        let mut bytes = [0; 16];
        copy(&rt, &bytes_of(&rt, rt.alloc(), text), &mut bytes);
        same(&rt, &reply_bytes(reply), &bytes, text);
        same(&rt, &read_simple_reply(&bytes), &Ok(*reply), text);
    }
}

#[test]
fn a_structured_reply_is_refused(rt: HostRuntime) {
    let mut bytes = [0; 16];
    let text = "668e33ef 0001 0000 0000000000000001";
    copy(&rt, &bytes_of(&rt, rt.alloc(), text), &mut bytes);
    let fault = ReplyMagic { magic: 0x668e_33ef };
    same(&rt, &read_simple_reply(&bytes), &Err(fault), &text);
}
