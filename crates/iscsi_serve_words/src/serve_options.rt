//! The command `serve` with its options, and how its words are refused.

ghost use Rattle.std.specs.Prelude.{◌≡◌};
ghost use Rattle.iscsi_serve_words.specs.Rows.{serve_shape, shape_of_row};

use crate::command_row::CommandRow;
use crate::disk_size::SIZE;
use crate::examples;
use crate::word::{Word, WordKind};

// What the disk is kept in, behind its size.
pub(crate) const DISK: &[Word] = &[
    Word {
        name: "file",
        kind: WordKind::Value("F"),
        beside: None,
        help: "Keep the disk in F, a raw image file or a block device (default memory)",
    },
    Word {
        name: "create",
        kind: WordKind::Flag,
        beside: Some("file"),
        help: "Create F, filled with zeros; F must not exist yet",
    },
    Word {
        name: "nbd",
        kind: WordKind::Value("SERVER"),
        beside: None,
        help: "Keep the disk on an NBD server, HOST:PORT/EXPORT",
    },
    Word {
        name: "read-only",
        kind: WordKind::Flag,
        beside: None,
        help: "Refuse each write; several services may then share an image",
    },
];

// What the disk tells of itself, and what it may take.
pub(crate) const UNIT: &[Word] = &[
    Word {
        name: "serial",
        kind: WordKind::Value("S"),
        beside: None,
        help: "Serial number of the disk (default one by its name and where it is kept)",
    },
    Word {
        name: "thin",
        kind: WordKind::Flag,
        beside: None,
        help: "Take UNMAP and WRITE SAME (always so with a disk in memory)",
    },
    Word {
        name: "write-back",
        kind: WordKind::Flag,
        beside: None,
        help: "Make writes last when a host flushes, not one by one",
    },
    Word {
        name: "memory",
        kind: WordKind::Value("BYTES"),
        beside: None,
        help: "Memory limit of a disk in memory, from 32768 bytes on (default its size)",
    },
];

// Where and to whom it is served, and until when.
pub(crate) const SERVICE: &[Word] = &[
    Word {
        name: "port",
        kind: WordKind::Value("P"),
        beside: None,
        help: "TCP port to listen on; 0 lets the system choose one (default 3260)",
    },
    Word {
        name: "listen",
        kind: WordKind::Value("ADDR"),
        beside: None,
        help: "IPv4 or IPv6 address to listen on (default 127.0.0.1)",
    },
    Word {
        name: "portal",
        kind: WordKind::Value("HOST:PORT"),
        beside: None,
        help: "Address that discovery tells (default that by which the host came)",
    },
    Word {
        name: "name",
        kind: WordKind::Value("IQN"),
        beside: None,
        help: "Name of the target (default iqn.2026-01.example:disk)",
    },
    Word {
        name: "initiator",
        kind: WordKind::Values("IQN"),
        beside: None,
        help: "Let in only the initiator of this name; may be repeated, up to 64 times",
    },
    Word {
        name: "chap",
        kind: WordKind::Value("FILE"),
        beside: None,
        help: "Let in only who knows a secret of FILE, which others can't read (CHAP)",
    },
    Word {
        name: "at-once",
        kind: WordKind::Value("k"),
        beside: None,
        help: "Serve up to k sessions at a time, 1 to 64 (default 16)",
    },
    Word {
        name: "sessions",
        kind: WordKind::Value("n"),
        beside: None,
        help: "Stop after n connections (default never)",
    },
    Word {
        name: "logins",
        kind: WordKind::Value("n"),
        beside: None,
        help: "Stop after n completed logins (default never)",
    },
    Word {
        name: "idle",
        kind: WordKind::Value("S"),
        beside: None,
        help: "End a session after S seconds without a byte, 1 to 65535 (default never)",
    },
    Word {
        name: "login-within",
        kind: WordKind::Value("S"),
        beside: None,
        help: "End a connection without a login after S seconds; 0: never (default 30)",
    },
    Word {
        name: "print-port",
        kind: WordKind::Flag,
        beside: None,
        help: "Print the port on a second line, after 'listening'",
    },
    Word {
        name: "quiet",
        kind: WordKind::Flag,
        beside: None,
        help: "Tell no login and no end on standard error, but faults",
    },
];

// How long segments and bursts are, and that all of this is as the bare profile has it.
pub(crate) const LENGTHS: &[Word] = &[
    Word {
        name: "segment",
        kind: WordKind::Value("N"),
        beside: None,
        help: "Longest segment to the target, 512 to 1048576 bytes (default 262144)",
    },
    Word {
        name: "burst",
        kind: WordKind::Value("N"),
        beside: None,
        help: "MaxBurstLength: bytes for one request, 512 to 1048576 (default 262144)",
    },
    Word {
        name: "first-burst",
        kind: WordKind::Value("N"),
        beside: None,
        help: "FirstBurstLength: unsolicited bytes, 512 to the burst (default 65536)",
    },
    Word {
        name: "data-in",
        kind: WordKind::Value("N"),
        beside: None,
        help: "Longest segment to a host, a multiple of 512 bytes (default 131072)",
    },
    Word {
        name: "plain",
        kind: WordKind::Flag,
        beside: None,
        help: "Serve the bare profile, to test an initiator against it",
    },
];

const SERVE: &CommandRow = &CommandRow {
    name: "serve",
    bin_name: "lanthovur serve",
    about: "Serve a disk to iSCSI initiators, from memory, an image or an NBD server",
    usage: Some(
        "lanthovur serve [OPTIONS] (--size <SIZE> | --blocks <N> | --file <F> | --nbd <SERVER>)",
    ),
    examples: Some(examples::SERVE),
    words: &[SIZE, DISK, UNIT, SERVICE, LENGTHS],
};

/// The words of `serve`, with their help. It is a call, since a function that names this table is dear to
/// prove.
#[tactic(auto, unfolding(crate::specs::Rows::serve_words))]
pub fn serve_row() -> &'static CommandRow
    ensures words { shape_of_row result.now ≡ serve_shape }
{
    SERVE
}
