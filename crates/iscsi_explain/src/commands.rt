//! SCSI commands by their names, and what they are for (SPC-4, SBC-3).

use scsi_cdb::{Cdb, Transfer10, Transfer16};
use std::alloc::{AllocError, Global};

// The name of an operation code, for commands whose block has no logical block address here.
fn plain_name(code: u8) -> Option<&'static str> {
    let name = match code {
        0x00 => "TEST UNIT READY",
        0x03 => "REQUEST SENSE",
        0x04 => "FORMAT UNIT",
        0x12 => "INQUIRY",
        0x15 => "MODE SELECT(6)",
        0x16 => "RESERVE(6)",
        0x17 => "RELEASE(6)",
        0x1b => "START STOP UNIT",
        0x1d => "SEND DIAGNOSTIC",
        0x1e => "PREVENT ALLOW MEDIUM REMOVAL",
        0x25 => "READ CAPACITY(10)",
        0x37 => "READ DEFECT DATA(10)",
        0x3b => "WRITE BUFFER",
        0x3c => "READ BUFFER(10)",
        0x42 => "UNMAP",
        0x4d => "LOG SENSE",
        0x55 => "MODE SELECT(10)",
        0x5e => "PERSISTENT RESERVE IN",
        0x5f => "PERSISTENT RESERVE OUT",
        0x83 => "EXTENDED COPY",
        0x84 => "RECEIVE COPY RESULTS",
        0x9e => "SERVICE ACTION IN(16)",
        0xa0 => "REPORT LUNS",
        0xa3 => "MAINTENANCE IN",
        0xa4 => "MAINTENANCE OUT",
        _ => return None,
    };
    Some(name)
}

// The name of an operation code whose block has an address and a number of blocks.
fn name_of_transfer(code: u8) -> Option<&'static str> {
    let name = match code {
        0x28 => "READ(10)",
        0x2a => "WRITE(10)",
        0x2e => "WRITE AND VERIFY(10)",
        0x2f => "VERIFY(10)",
        0x34 => "PRE-FETCH(10)",
        0x35 => "SYNCHRONIZE CACHE(10)",
        0x41 => "WRITE SAME(10)",
        0x88 => "READ(16)",
        0x8a => "WRITE(16)",
        0x8b => "ORWRITE(16)",
        0x8e => "WRITE AND VERIFY(16)",
        0x8f => "VERIFY(16)",
        0x90 => "PRE-FETCH(16)",
        0x91 => "SYNCHRONIZE CACHE(16)",
        0x93 => "WRITE SAME(16)",
        0xa8 => "READ(12)",
        0xaa => "WRITE(12)",
        0xae => "WRITE AND VERIFY(12)",
        0xaf => "VERIFY(12)",
        _ => return None,
    };
    Some(name)
}

/// What a command asks for, as far as people look it up.
#[derive(Clone, Copy)]
pub(crate) struct Asking {
    // the name, if the operation code has one here
    name: Option<&'static str>,
    code: u8,
    /// The first block and the number of blocks, where it has these.
    pub(crate) extent: Option<(u64, u64)>,
    /// The page of vital product data or of mode parameters, where one is asked for.
    pub(crate) page: Option<u8>,
}

impl Asking {
    // A command without an address.
    fn plain(name: &'static str) -> Asking {
        Asking {
            name: Some(name),
            code: 0,
            extent: None,
            page: None,
        }
    }

    // A command with its first block and its number of blocks.
    fn of_blocks(name: &'static str, lba: u64, blocks: u64) -> Asking {
        Asking {
            extent: Some((lba, blocks)),
            ..Asking::plain(name)
        }
    }

    // A command for a page.
    fn of_page(name: &'static str, page: u8) -> Asking {
        Asking {
            page: Some(page),
            ..Asking::plain(name)
        }
    }

    // The same of a READ(10) or a WRITE(10).
    fn short(name: &'static str, at: &Transfer10) -> Asking {
        Asking::of_blocks(name, at.logical_block_address as u64, at.blocks as u64)
    }

    // The same of a READ(16) or a WRITE(16).
    fn long(name: &'static str, at: &Transfer16) -> Asking {
        Asking::of_blocks(name, at.logical_block_address, at.blocks as u64)
    }

    /// What a command asks for.
    pub(crate) fn of(cdb: &Cdb) -> Asking {
        match cdb {
            Cdb::Inquiry {
                evpd: true,
                page,
                ..
            } => Asking::of_page("INQUIRY", *page),
            Cdb::Read10(at) => Asking::short("READ(10)", at),
            Cdb::Write10(at) => Asking::short("WRITE(10)", at),
            Cdb::Read16(at) => Asking::long("READ(16)", at),
            Cdb::Write16(at) => Asking::long("WRITE(16)", at),
            Cdb::SyncCache10(at) => {
                let (lba, blocks) = (at.logical_block_address, at.blocks);
                Asking::of_blocks("SYNCHRONIZE CACHE(10)", lba as u64, blocks as u64)
            }
            Cdb::Capacity16 { .. } => Asking::plain("READ CAPACITY(16)"),
            Cdb::TestUnitReady { .. } => Asking::plain("TEST UNIT READY"),
            Cdb::Inquiry { .. } => Asking::plain("INQUIRY"),
            Cdb::Capacity10 { .. } => Asking::plain("READ CAPACITY(10)"),
            Cdb::ReportLuns { .. } => Asking::plain("REPORT LUNS"),
            Cdb::Unknown(block) => Asking::of_block(block),
        }
    }

    // What a command asks for that this program reads as bytes alone.
    fn of_block(block: &[u8; 16]) -> Asking {
        let code = block[0];
        if let Some(name) = name_of_transfer(code) {
            let (lba, blocks) = extent_of(block);
            return Asking::of_blocks(name, lba, blocks);
        }
        match code {
            0x08 => Asking::of_short_block("READ(6)", block),
            0x0a => Asking::of_short_block("WRITE(6)", block),
            0x1a => Asking::of_page("MODE SENSE(6)", block[2] % 0x40),
            0x5a => Asking::of_page("MODE SENSE(10)", block[2] % 0x40),
            0x89 => Asking::of_blocks(
                "COMPARE AND WRITE",
                number_of(&block[2..10]),
                block[13] as u64,
            ),
            0x9e if block[1] % 0x20 == 0x12 => Asking::plain("GET LBA STATUS"),
            _ => Asking {
                name: plain_name(code),
                code,
                extent: None,
                page: None,
            },
        }
    }

    // READ(6) and WRITE(6): an address of 21 bits, and a number of blocks of which 0 means 256.
    fn of_short_block(name: &'static str, block: &[u8; 16]) -> Asking {
        let lba = number_of(&block[1..4]) % 0x20_0000;
        let blocks = if block[4] == 0 { 256 } else { block[4] as u64 };
        Asking::of_blocks(name, lba, blocks)
    }

    /// Its name, or its operation code in hex.
    pub(crate) fn command(&self, alloc: Global) -> Result<String, AllocError> {
        let code = self.code;
        match self.name {
            Some(name) => String::from_str(alloc, name),
            None => format!(in alloc; "operation code {code:02x}"),
        }
    }

    /// Its name, and the first block and the number of blocks where it has these, in decimal, or
    /// its page in hex.
    pub(crate) fn words(&self, alloc: Global) -> Result<String, AllocError> {
        let command = self.command(alloc)?;
        match (self.extent, self.page) {
            (Some((lba, blocks)), _) => format!(in alloc; "{command} lba={lba} blocks={blocks}"),
            (None, Some(page)) => format!(in alloc; "{command} page={page:02x}"),
            (None, None) => Ok(command),
        }
    }
}

// The number that bytes are, the highest first.
fn number_of(bytes: &[u8]) -> u64 {
    let mut number: u64 = 0;
    for byte in bytes {
        number = number.wrapping_mul(256).wrapping_add(*byte as u64);
    }
    number
}

// The first block and the number of blocks. The first three bits of the code tell how long the
// block is, and so where these stand.
fn extent_of(block: &[u8; 16]) -> (u64, u64) {
    match block[0] / 0x20 {
        4 => (number_of(&block[2..10]), number_of(&block[10..14])),
        5 => (number_of(&block[2..6]), number_of(&block[6..10])),
        _ => (number_of(&block[2..6]), number_of(&block[7..9])),
    }
}
