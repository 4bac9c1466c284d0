//! The commands that a unit takes, as it tells of them (SPC-4, section 6.35). The table is laid out as
//! data, one command in each line.

ghost use Rattle.std.specs.Prelude.{◌≡◌, ◌≤◌, Some, length, option_map, take};
ghost use Rattle.std.specs.List.{find, flat_map, list_any};
ghost use Rattle.scsi_unit.specs.Supported.{all_commands, asked_command, commands_told, descriptor, descriptor_flags, has_action, has_actions, has_no_action, no_timeouts, one_command, support, supported};

use crate::data::{Data, data, joined};
use scsi_cdb::layout::{bit, bits, u8_at, u16_at};

/// A command that a unit takes.
#[derive(Clone, Copy)]
pub(crate) struct SupportedCommand {
    /// Its operation code.
    pub code: u8,
    /// Its service action, if the code has some.
    pub service_action: Option<u8>,
    /// How many bytes its descriptor block has.
    pub length: u8,
    /// The code and the service action at their places, and else 1 for each bit that is looked at.
    pub usage: [u8; 16],
}

/// How many commands a unit takes that is not thin.
const PLAIN_COMMANDS: usize = 29;

// A row for each command: its code, its service action, the length of its block, and what is looked at.
macro_rules! commands {
    ($($code:literal, $action:expr, $length:literal, $usage:literal;)*) => {
        [$(SupportedCommand { code: $code, service_action: $action, length: $length, usage: *$usage },)*]
    };
}

/// Each command of a thin unit; another one takes all but the last four.
const COMMANDS: [SupportedCommand; 33] = commands! {
    0x00, None, 6, b"\0\0\0\0\0\0\0\0\0\0\0\0\0\0\0\0"; // TEST UNIT READY
    0x03, None, 6, b"\x03\x01\0\0\xff\0\0\0\0\0\0\0\0\0\0\0"; // REQUEST SENSE
    0x08, None, 6, b"\x08\x1f\xff\xff\xff\0\0\0\0\0\0\0\0\0\0\0"; // READ(6)
    0x0a, None, 6, b"\x0a\x1f\xff\xff\xff\0\0\0\0\0\0\0\0\0\0\0"; // WRITE(6)
    0x12, None, 6, b"\x12\x01\xff\xff\xff\0\0\0\0\0\0\0\0\0\0\0"; // INQUIRY
    0x1a, None, 6, b"\x1a\0\xff\xff\xff\0\0\0\0\0\0\0\0\0\0\0"; // MODE SENSE(6)
    0x1b, None, 6, b"\x1b\0\0\0\xf3\0\0\0\0\0\0\0\0\0\0\0"; // START STOP UNIT
    0x25, None, 10, b"\x25\0\0\0\0\0\0\0\0\0\0\0\0\0\0\0"; // READ CAPACITY(10)
    0x28, None, 10, b"\x28\xf8\xff\xff\xff\xff\0\xff\xff\0\0\0\0\0\0\0"; // READ(10)
    0x2a, None, 10, b"\x2a\xf8\xff\xff\xff\xff\0\xff\xff\0\0\0\0\0\0\0"; // WRITE(10)
    0x2e, None, 10, b"\x2e\xf0\xff\xff\xff\xff\0\xff\xff\0\0\0\0\0\0\0"; // WRITE AND VERIFY(10)
    0x2f, None, 10, b"\x2f\xf6\xff\xff\xff\xff\0\xff\xff\0\0\0\0\0\0\0"; // VERIFY(10)
    0x34, None, 10, b"\x34\0\xff\xff\xff\xff\0\xff\xff\0\0\0\0\0\0\0"; // PREFETCH(10)
    0x35, None, 10, b"\x35\0\xff\xff\xff\xff\0\xff\xff\0\0\0\0\0\0\0"; // SYNCHRONIZE CACHE(10)
    0x5a, None, 10, b"\x5a\0\xff\xff\0\0\0\xff\xff\0\0\0\0\0\0\0"; // MODE SENSE(10)
    0x88, None, 16, b"\x88\xf8\xff\xff\xff\xff\xff\xff\xff\xff\xff\xff\xff\xff\0\0"; // READ(16)
    0x89, None, 16, b"\x89\xf8\xff\xff\xff\xff\xff\xff\xff\xff\0\0\0\xff\0\0"; // COMPARE AND WRITE
    0x8a, None, 16, b"\x8a\xf8\xff\xff\xff\xff\xff\xff\xff\xff\xff\xff\xff\xff\0\0"; // WRITE(16)
    0x8e, None, 16, b"\x8e\xf0\xff\xff\xff\xff\xff\xff\xff\xff\xff\xff\xff\xff\0\0"; // WRITE AND VERIFY(16)
    0x8f, None, 16, b"\x8f\xf6\xff\xff\xff\xff\xff\xff\xff\xff\xff\xff\xff\xff\0\0"; // VERIFY(16)
    0x90, None, 16, b"\x90\0\xff\xff\xff\xff\xff\xff\xff\xff\xff\xff\xff\xff\0\0"; // PREFETCH(16)
    0x91, None, 16, b"\x91\0\0\0\0\0\0\0\0\0\0\0\0\0\0\0"; // SYNCHRONIZE CACHE(16)
    0x9e, Some(0x10), 16, b"\x9e\x10\0\0\0\0\0\0\0\0\xff\xff\xff\xff\0\0"; // READ CAPACITY(16)
    0xa0, None, 12, b"\xa0\0\xff\0\0\0\xff\xff\xff\xff\0\0\0\0\0\0"; // REPORT LUNS
    0xa3, Some(0x0c), 12, b"\xa3\x0c\x87\xff\xff\xff\xff\xff\xff\xff\0\0\0\0\0\0"; // REPORT SUPPORTED OPERATION CODES
    0xa8, None, 12, b"\xa8\xf8\xff\xff\xff\xff\xff\xff\xff\xff\0\0\0\0\0\0"; // READ(12)
    0xaa, None, 12, b"\xaa\xf8\xff\xff\xff\xff\xff\xff\xff\xff\0\0\0\0\0\0"; // WRITE(12)
    0xae, None, 12, b"\xae\xf0\xff\xff\xff\xff\xff\xff\xff\xff\0\0\0\0\0\0"; // WRITE AND VERIFY(12)
    0xaf, None, 12, b"\xaf\xf6\xff\xff\xff\xff\xff\xff\xff\xff\0\0\0\0\0\0"; // VERIFY(12)
    0x41, None, 10, b"\x41\xff\xff\xff\xff\xff\0\xff\xff\0\0\0\0\0\0\0"; // WRITE SAME(10)
    0x42, None, 10, b"\x42\x01\0\0\0\0\0\xff\xff\0\0\0\0\0\0\0"; // UNMAP
    0x93, None, 16, b"\x93\xff\xff\xff\xff\xff\xff\xff\xff\xff\xff\xff\xff\xff\0\0"; // WRITE SAME(16)
    0x9e, Some(0x12), 16, b"\x9e\x12\xff\xff\xff\xff\xff\xff\xff\xff\xff\xff\xff\xff\0\0"; // GET LBA STATUS
};

/// A descriptor of timeouts that names none.
const NO_TIMEOUTS: &[u8; 12] = b"\0\x0a\0\0\0\0\0\0\0\0\0\0";

/// What is told of a command that is not there.
const NOT_THERE: &[u8; 4] = b"\0\x01\0\0";

/// The data of REPORT SUPPORTED OPERATION CODES, of a unit that is thin or not; `None` for an option that
/// there is not, or that doesn't fit the code.
pub(crate) fn commands_told(thin: bool, block: &[u8; 16]) -> Option<Data>
    ensures { option_map (λ bytes. bytes.items) result ≡ commands_told thin block.now }
{
    let timeouts = bit(block, 2, 0x80);
    let option = bits(block, 2, 0x07);
    let rows = supported(thin);
    if option == 0 {
        return Some(all_commands(timeouts, rows));
    }
    let asked = asked_command(option, u8_at(block, 3), u16_at(block, 4), rows)?;
    Some(one_command(timeouts, asked))
}

// The commands that a unit takes, which is thin or not.
fn supported(thin: bool) -> &'static [SupportedCommand]
    ensures rows { result.now ≡ supported thin }
    ensures few { length result.now ≤ 33 }
{
    if thin {
        &COMMANDS
    } else {
        &COMMANDS[..PLAIN_COMMANDS]
    }
}

// All commands, behind the length of their descriptors.
fn all_commands(timeouts: bool, rows: &[SupportedCommand]) -> Data
    requires { length rows.now ≤ 33 }
    ensures { result.items ≡ all_commands timeouts rows.now }
{
    let all = descriptors(timeouts, rows);
    joined(&(all.len() as u32).to_be_bytes(), all.as_slice())
}

// The descriptors of these commands.
fn descriptors(timeouts: bool, rows: &[SupportedCommand]) -> Data
    requires { length rows.now ≤ 33 }
    ensures all { result.items ≡ flat_map (descriptor timeouts) rows.now }
    ensures few { length result.items ≤ 660 }
{
    let mut all = Data::new();
    for row in rows {
        let _ = all.try_extend_from_slice(descriptor(timeouts, row).as_slice());
    }
    all
}

// The descriptor of a command, with one of timeouts or without.
fn descriptor(timeouts: bool, row: &SupportedCommand) -> Data
    ensures bytes { result.items ≡ descriptor timeouts row.now }
    ensures few { length result.items ≤ 20 }
{
    let flags = descriptor_flags(timeouts, row);
    let action = row.service_action.unwrap_or(0);
    let head = [row.code, 0, 0, action, 0, flags, 0, row.length];
    joined(&head, no_timeouts(timeouts))
}

// The flags of the descriptor of a command.
fn descriptor_flags(timeouts: bool, row: &SupportedCommand) -> u8
    ensures { result ≡ descriptor_flags timeouts row.now }
{
    let ctdp = if timeouts { 0x02 } else { 0x00 };
    if row.service_action.is_some() {
        ctdp + 0x01
    } else {
        ctdp
    }
}

// A descriptor of timeouts, if it is asked for.
fn no_timeouts(timeouts: bool) -> &'static [u8]
    ensures bytes { result.now ≡ no_timeouts timeouts }
    ensures few { length result.now ≤ 12 }
{
    if timeouts { NO_TIMEOUTS } else { b"" }
}

// What is told of one command, if it is there.
fn one_command(timeouts: bool, asked: Option<&SupportedCommand>) -> Data
    ensures { result.items ≡ one_command timeouts (option_map (λ row. row.now) asked.entry) }
{
    match asked {
        None => data(NOT_THERE),
        Some(row) => there(timeouts, row),
    }
}

// What is told of a command that is there.
fn there(timeouts: bool, row: &SupportedCommand) -> Data
    ensures { result.items ≡ one_command timeouts (Some row.now) }
{
    let behind = joined(usage(row).as_slice(), no_timeouts(timeouts));
    joined(&[0, support(timeouts), 0, row.length], behind.as_slice())
}

// Which bits of a command are looked at, in the bytes of its block.
fn usage(row: &SupportedCommand) -> Data
    ensures bytes { result.items ≡ take row.now.length row.now.usage }
    ensures few { length result.items ≤ 16 }
{
    let usage = row.usage.as_slice();
    data(&usage[..usize::from(row.length).min(usage.len())])
}

// That a command is there, and whether timeouts follow.
fn support(timeouts: bool) -> u8
    ensures { result ≡ support timeouts }
{
    if timeouts { 0x83 } else { 0x03 }
}

// The command that is asked for by its option, its code and its service action.
fn asked_command(
    option: u8,
    code: u8,
    action: u16,
    rows: &[SupportedCommand],
) -> Option<Option<&SupportedCommand>>
    ensures { option_map (option_map (λ row. row.now)) result
        ≡ asked_command option code action rows.now }
{
    match option {
        1 => {
            if is_acting(rows, code) {
                return None;
            }
            Some(command_of(rows, code, 0))
        }
        2 => {
            if is_plain(rows, code) {
                return None;
            }
            Some(command_of(rows, code, action))
        }
        3 => Some(command_of(rows, code, action)),
        _ => None,
    }
}

// Whether one of these commands has this code, with service actions.
fn is_acting(rows: &[SupportedCommand], code: u8) -> bool
    ensures { result ≡ list_any (has_actions code) rows.now }
{
    rows.iter().any(|row| has_actions(row, code))
}

// Whether one of these commands has this code, without service actions.
fn is_plain(rows: &[SupportedCommand], code: u8) -> bool
    ensures { result ≡ list_any (has_no_action code) rows.now }
{
    rows.iter().any(|row| has_no_action(row, code))
}

// The first of these commands with this code and this service action, if there is one.
fn command_of(rows: &[SupportedCommand], code: u8, action: u16) -> Option<&SupportedCommand>
    ensures { option_map (λ row. row.now) result ≡ find (has_action code action) rows.now }
{
    rows.iter().find(|row| has_action(row, code, action))
}

// Whether a command has this code, with service actions.
fn has_actions(row: &SupportedCommand, code: u8) -> bool
    ensures { result ≡ has_actions code row.now }
{
    row.code == code && row.service_action.is_some()
}

// Whether a command has this code, without service actions.
fn has_no_action(row: &SupportedCommand, code: u8) -> bool
    ensures { result ≡ has_no_action code row.now }
{
    row.code == code && row.service_action.is_none()
}

// Whether a command has this code and this service action, which is 0 for a code without any.
fn has_action(row: &SupportedCommand, code: u8, action: u16) -> bool
    ensures { result ≡ has_action code action row.now }
{
    row.code == code && u16::from(row.service_action.unwrap_or(0)) == action
}
