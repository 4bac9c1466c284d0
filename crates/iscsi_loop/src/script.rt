//! Scripts: one command a line. One file: the script, its lines, their words and numbers.

ghost use Rattle.std.specs.Prelude.{◌≡◌, ◌≤◌, ◌<◌, ◌∷◌, ℕ, List, length, codes, false, IfOk, IfErr, IfSome, option_map};
ghost use Rattle.std.specs.Str.{bytes_eq};
ghost use Rattle.std.specs.Io.KnownBytes.{Consumes, IsAtEnd};
ghost use Rattle.iscsi_loop.specs.Script.{parted, decimal_number, byte_of, test_unit_ready, inquiry_command, read, write, sync, ping_command, alone, command_of_words, meaning, script_lines, longest_script};
ghost use Rattle.iscsi_loop.specs.Script.{AreCommands, IsTooLongAt, IsScript, ScriptFails};
ghost use Rattle.iscsi_loop.specs.inner.Script.{LinesFail, IsCommandInRange, AreCommandsInRange};

use crate::command::Command;
use hex::{FromHex, FromHexError};
use iscsi_serving::ServeFault;
use iscsi_stream::{ToolFault, read_within};
use iscsi_text::split_at_byte;
use scsi_cdb::Bytes;
use scsi_disk::LONGEST_TRANSFER;
use std::alloc::{AllocError, Global};
use std::io::Read;

/// The longest script, in bytes.
const LONGEST_SCRIPT: usize = 1_048_576;
/// The longest ping, in bytes.
const LONGEST_PING: usize = 8192;

// The names of the commands.
const TEST_UNIT_READY: &[u8] = b"tur";

const INQUIRY: &[u8] = b"inquiry";

const CAPACITY: &[u8] = b"capacity";

const CAPACITY_16: &[u8] = b"capacity16";

const LUNS: &[u8] = b"luns";

const READ: &[u8] = b"read";

const WRITE: &[u8] = b"write";

const SYNC: &[u8] = b"sync";

const PING: &[u8] = b"ping";

const LOGOUT: &[u8] = b"logout";

/// Reads a script to its end and returns its commands.
///
/// A line is `tur U`, `inquiry U A`, `capacity`, `capacity16`, `luns`, `read LBA N`, `write LBA N
/// BB`, `sync LBA N`, `ping HEX` or `logout`. Its words are parted by one blank.
/// - U, A, LBA and N are decimal numbers: U is below 256, A below 65536, LBA below 2^64, and N, in
///   blocks, at most 8192.
/// - In a `sync` LBA is below 2^32 and N below 65536.
/// - BB is two hex digits, and HEX is 1 to 8192 bytes of hex. Returns `Script` with the first line,
///   counted from 1, that is none of these. If the script has more than 1,048,576 bytes, the line
///   is that of the first byte too many. `Read` comes where a read fails or 16,777,216 of them did
///   not reach the end, and `NoMemory` where memory runs out.
pub fn read_script<R: Read>(alloc: Global, r: &mut R) -> Result<Vec<Command>, ServeFault>
    ensures ok { IfOk result (λ commands. (script : List ℕ)
        × Consumes (R.remaining r.old) (R.remaining r.new) script × IsAtEnd (R.remaining r.new)
        × IsScript script commands.items) }
    ensures ranges { IfOk result (λ commands. AreCommandsInRange commands.items) }
    ensures err { IfErr result (λ fault. (script : List ℕ)
        × Consumes (R.remaining r.old) (R.remaining r.new) script × ScriptFails fault script) }
{
    let script = read_lines(alloc, r)?;
    commands(alloc, &script)
}

// The bytes of a script that is not too long.
fn read_lines<R: Read>(alloc: Global, r: &mut R) -> Result<Vec<u8>, ServeFault>
    ensures ok { IfOk result (λ script.
        Consumes (R.remaining r.old) (R.remaining r.new) script.items
        × IsAtEnd (R.remaining r.new) × (length script.items ≤ longest_script)) }
    ensures err { IfErr result (λ fault. (script : List ℕ)
        × Consumes (R.remaining r.old) (R.remaining r.new) script × ScriptFails fault script) }
{
    let script = match read_within(alloc, r, LONGEST_SCRIPT) {
        Ok(script) => script,
        Err(ToolFault::NoMemory) => return Err(ServeFault::NoMemory),
        // Nothing else is returned.
        Err(_) => return Err(ServeFault::Read),
    };
    if script.len() > LONGEST_SCRIPT {
        return Err(ServeFault::Script(too_long_at(&script)));
    }
    Ok(script)
}

// The number of the line that has the first byte too many.
fn too_long_at(script: &[u8]) -> u64
    requires { longest_script < length script.now }
    ensures { IsTooLongAt script.now result }
{
    let front = &script[..LONGEST_SCRIPT];
    front.iter().filter(|b| **b == b'\n').count() as u64 + 1
}

// The commands of the lines.
#[tactic(auto, using(crate::proofs::ScriptLemmas::commands_more, crate::proofs::ScriptLemmas::commands_stop, crate::proofs::ScriptLemmas::commands_end))]
fn commands(alloc: Global, script: &[u8]) -> Result<Vec<Command>, ServeFault>
    ensures ok { IfOk result (λ commands. AreCommands script.now commands.items) }
    ensures ranges { IfOk result (λ commands. AreCommandsInRange commands.items) }
    ensures err { IfErr result (λ fault. LinesFail fault script.now) }
{
    let mut commands = Vec::new(alloc);
    let mut rest = script;
    while !rest.is_empty() {
        let (line, more) = first_line(rest);
        let Some(command) = command_of(alloc, line)? else {
            return Err(ServeFault::Script(commands.len() as u64 + 1));
        };
        if commands.push(command).is_err() {
            return Err(ServeFault::NoMemory);
        }
        rest = more;
    }
    Ok(commands)
}

// The first line without its end, and what is behind it.
#[tactic(auto, using(crate::proofs::ScriptLemmas::lines_split, crate::proofs::ScriptLemmas::lines_last, crate::proofs::ScriptLemmas::shorter))]
fn first_line(script: &[u8]) -> (&[u8], &[u8])
    requires { 0 < length script.now }
    ensures lines { script_lines script.now ≡ result.0.now ∷ script_lines result.1.now }
    ensures shorter { length result.1.now < length script.now }
{
    match split_at_byte(script, b'\n') {
        Some(parts) => parts,
        None => (script, &[]),
    }
}

// What stands before the first such byte, and what behind it, if there is one.
#[tactic(auto, using(crate::proofs::ScriptLemmas::found_front, crate::proofs::ScriptLemmas::found_behind, crate::proofs::ScriptLemmas::lacking_front, crate::proofs::ScriptLemmas::lacking_behind))]
fn parted(bytes: &[u8], byte: u8) -> (&[u8], Option<&[u8]>)
    ensures front { result.0.now ≡ (parted byte bytes.now).0 }
    ensures behind { option_map (λ rest. rest.now) result.1 ≡ (parted byte bytes.now).1 }
{
    match split_at_byte(bytes, byte) {
        Some((front, behind)) => (front, Some(behind)),
        None => (bytes, None),
    }
}

// The command that a line means.
fn command_of(alloc: Global, line: &[u8]) -> Result<Option<Command>, AllocError>
    ensures means { IfOk result (λ command. command ≡ meaning line.now) }
    ensures range { IfOk result (λ command. IfSome command IsCommandInRange) }
{
    let (name, words) = parted(line, b' ');
    let Some(words) = words else {
        return Ok(alone(name));
    };
    if name == PING {
        return ping(alloc, words);
    }
    Ok(followed(name, words))
}

// A command of one word.
fn alone(name: &[u8]) -> Option<Command>
    ensures means { result ≡ alone name.now }
    ensures range { IfSome result IsCommandInRange }
{
    if name == CAPACITY {
        return Some(Command::Capacity);
    }
    if name == CAPACITY_16 {
        return Some(Command::Capacity16);
    }
    if name == LUNS {
        return Some(Command::Luns);
    }
    if name == LOGOUT {
        return Some(Command::Logout);
    }
    None
}

// A command of several words, but for a ping.
fn followed(name: &[u8], words: &[u8]) -> Option<Command>
    requires { bytes_eq name.now (codes "ping") ≡ false }
    ensures means { result ≡ command_of_words name.now words.now }
    ensures range { IfSome result IsCommandInRange }
{
    if name == TEST_UNIT_READY {
        return test_unit_ready(words);
    }
    if name == INQUIRY {
        return inquiry(words);
    }
    if name == READ {
        return read(words);
    }
    if name == WRITE {
        return write(words);
    }
    if name == SYNC {
        return sync(words);
    }
    None
}

fn test_unit_ready(words: &[u8]) -> Option<Command>
    ensures means { result ≡ test_unit_ready words.now }
    ensures range { IfSome result IsCommandInRange }
{
    let unit = number(words, 255)? as u8;
    Some(Command::TestUnitReady { unit })
}

fn inquiry(words: &[u8]) -> Option<Command>
    ensures means { result ≡ inquiry_command words.now }
    ensures range { IfSome result IsCommandInRange }
{
    let (unit, others) = parted(words, b' ');
    let unit = number(unit, 255)? as u8;
    let allocation_length = number(others?, 65535)? as u16;
    Some(Command::Inquiry {
        unit,
        allocation_length,
    })
}

fn read(words: &[u8]) -> Option<Command>
    ensures means { result ≡ read words.now }
    ensures range { IfSome result IsCommandInRange }
{
    let (first, others) = parted(words, b' ');
    let logical_block_address = number(first, u64::MAX)?;
    let blocks = number(others?, u64::from(LONGEST_TRANSFER))? as u16;
    Some(Command::Read {
        logical_block_address,
        blocks,
    })
}

fn write(words: &[u8]) -> Option<Command>
    ensures means { result ≡ write words.now }
    ensures range { IfSome result IsCommandInRange }
{
    let (first, others) = parted(words, b' ');
    let logical_block_address = number(first, u64::MAX)?;
    let (blocks, last) = parted(others?, b' ');
    let blocks = number(blocks, u64::from(LONGEST_TRANSFER))? as u16;
    let byte = byte_of(last?)?;
    Some(Command::Write {
        logical_block_address,
        blocks,
        byte,
    })
}

fn sync(words: &[u8]) -> Option<Command>
    ensures means { result ≡ sync words.now }
    ensures range { IfSome result IsCommandInRange }
{
    let (first, others) = parted(words, b' ');
    let logical_block_address = number(first, u64::from(u32::MAX))? as u32;
    let blocks = number(others?, 65535)? as u16;
    Some(Command::Sync {
        logical_block_address,
        blocks,
    })
}

// A ping, whose bytes are taken into memory.
fn ping(alloc: Global, digits: &[u8]) -> Result<Option<Command>, AllocError>
    ensures means { IfOk result (λ command. command ≡ ping_command digits.now) }
    ensures range { IfOk result (λ command. IfSome command IsCommandInRange) }
{
    match hex::decode(alloc, digits) {
        Ok(bytes) if !bytes.is_empty() && bytes.len() <= LONGEST_PING => {
            Ok(Some(Command::Ping(Bytes::from_vec(bytes))))
        }
        Ok(_) => Ok(None),
        Err(FromHexError::OutOfMemory) => Err(AllocError),
        Err(_) => Ok(None),
    }
}

// The byte that two hex digits mean.
fn byte_of(digits: &[u8]) -> Option<u8>
    ensures { result ≡ byte_of digits.now }
{
    let bytes = <[u8; 1]>::from_hex(digits).ok()?;
    Some(bytes[0])
}

// The number that decimal digits make, leading zeros among them, if it is at most this.
#[tactic(auto, using(crate::proofs::ScriptLemmas::number_more, crate::proofs::ScriptLemmas::number_no_digit, crate::proofs::ScriptLemmas::number_too_large))]
fn number(digits: &[u8], most: u64) -> Option<u64>
    ensures number { result ≡ decimal_number most digits.now }
    ensures most { IfSome result (λ n. n ≤ most) }
{
    if digits.is_empty() {
        return None;
    }
    let mut number: u64 = 0;
    for digit in digits {
        if !digit.is_ascii_digit() {
            return None;
        }
        let Some(tenfold) = number.checked_mul(10) else {
            return None;
        };
        let Some(longer) = tenfold.checked_add(u64::from(*digit - b'0')) else {
            return None;
        };
        if longer > most {
            return None;
        }
        number = longer;
    }
    Some(number)
}
