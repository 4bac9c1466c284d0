//! The words of `serve`. One file, since it has a reader for each word.

ghost use Rattle.std.specs.Prelude.{◌≡◌, ◌<◌, ◌≤◌, IfOk, IfSome, codes, map, option_map};
ghost use Rattle.clap.specs.Words.{first_of, subcommand_of, subcommand_rows_of};
ghost use Rattle.iscsi_login.specs.Name.{IsName};
ghost use Rattle.scsi_unit.specs.LogicalUnit.{IsSerial};
ghost use Rattle.iscsi_options.specs.Options.{AreLimits, IsMemory, IsPortalOption};
ghost use Rattle.iscsi_serve_words.specs.Rows.{IsCommand, serve_program, serve_rows};
ghost use Rattle.iscsi_serve_words.specs.Said.{IsListen, Listens, SaysJob, SaysServe, rows_in, said_names};
ghost use Rattle.iscsi_serve_words.specs.Services.{CanServe, IsServeJob};
ghost use Rattle.iscsi_serve_words.specs.declared.serve_words.Service.TheVariants as service;

use crate::command_line::{LineFault, bare_command, no_command, usage};
use crate::portal_address::is_address;
use crate::said::{value_of, values_of};
use crate::serve_disk::{memory_of, read_only_of, serial_of, storage_of, unit_of};
use crate::serve_lengths::{data_in_of, preferences_of};
use crate::serve_options::{DISK, LENGTHS, SERVICE, UNIT, serve_row};
use crate::storage::Storage;
use crate::word::{Word, WordKind};
use clap::{ArgMatches, Command};
use iscsi_login::{Preferences, is_name};
use iscsi_options::{
    AT_ONCE, LOGIN_WITHIN, Limits, MOST_AT_ONCE, Options, PortalOption, Stop, number_of,
};
use std::alloc::{AllocError, Global};
use std::convert::AsStr;
use std::net::{IpAddr, Ipv4Addr};

/// How a disk is served.
#[derive(Clone, Copy, Debug)]
pub enum Service<'a> {
    /// To one connection after another, with no limit of time, and as the bare profile has it.
    InTurn(Options<'a>),
    /// In several sessions at a time.
    AtOnce(Options<'a>),
}

/// What the words of `serve` ask for.
#[derive(Clone, Copy, Debug)]
pub struct ServeJob<'a> {
    /// What the disk is kept in.
    pub storage: Storage<'a>,
    /// How it is served.
    pub service: Service<'a>,
    /// The serial number that the disk is given, 1 to 16 bytes of `!` to `~`; none: one of its own.
    pub serial: Option<&'a [u8]>,
    /// How many bytes the blocks of a disk in memory take at most; none: as many as it has.
    pub memory: Option<u64>,
    /// No block changes: each write is refused.
    pub read_only: bool,
    /// The file of the secrets of which a login has to show one (CHAP), if it has to.
    pub secrets: Option<&'a str>,
}

/// The most names of initiators that may be listed (own rule).
pub const MOST_INITIATORS: usize = 64;

/// The target's name, if none is asked for.
const NAME: &str = "iqn.2026-01.example:disk";

/// The port, if none is asked for: that of iSCSI.
const PORT: u16 = 3260;

const BAD_PORT: &str = "is no port: '--port <P>' takes a number from 0 to 65535 (default 3260)";

const BAD_SESSIONS: &str =
    "is no number of connections: '--sessions <n>' takes a number from 0 to 65535";

const BAD_LOGINS: &str = "is no number of logins: '--logins <n>' takes a number from 0 to 65535";

const TWO_STOPS: &str = "'--logins <n>' cannot be used with '--sessions <n>'";

const BAD_AT_ONCE: &str = "is no number of sessions: '--at-once <k>' takes a number from 1 to 64";

const BAD_LISTEN: &str =
    "is no address: '--listen <ADDR>' takes an IPv4 or IPv6 address (default 127.0.0.1)";

const BAD_NAME: &str = "is no name: '--name <IQN>' takes 1 to 223 bytes, each from '!' to '~'";

const BAD_PORTAL: &str =
    "is no portal: '--portal <HOST:PORT>' takes a host or an address, IPv6 in brackets, and a port \
    from 1 to 65535, such as 192.0.2.7:3260";

const BAD_INITIATOR: &str =
    "is no name: '--initiator <IQN>' takes 1 to 223 bytes, each from '!' to '~'";

const MANY_INITIATORS: &str = "is one name too many: '--initiator <IQN>' may stand 64 times";

const BAD_IDLE: &str = "is no number of seconds: '--idle <S>' takes a number from 1 to 65535";

const BAD_LOGIN: &str =
    "is no number of seconds: '--login-within <S>' takes a number from 0 to 65535 (default 30)";

const UNNAMED: &str =
    "'--listen <ADDR>' beyond this machine needs '--name <IQN>' or '--serial <S>' for a disk that lasts: \
    two hosts with one path would tell one serial number, and initiators would take their disks for one";

// What the bare profile has no room for.
const NOT_PLAIN: &[&str] = &[
    "serial",
    "portal",
    "segment",
    "burst",
    "first-burst",
    "data-in",
];

/// The service that a command line asks for whose first word is `serve`. Words that are none, and those
/// that ask for help, return `Usage` with the text to print; `NoMemory` comes if memory ran out.
#[tactic(auto, using(crate::proofs::RowLemmas::says_words))]
pub fn read_serve_words<'a, S: AsStr>(
    alloc: Global,
    words: &'a [S],
) -> Result<ServeJob<'a>, LineFault>
    // Each number is in its range.
    ensures range { IfOk result IsServeJob }
    // Who may come, where, and what may change is as the words say.
    ensures says { IfOk result (SaysJob (map S.text words.entry.now)) }
{
    let matches = matches_of(alloc, words)?;
    match entered(&matches) {
        Some(asked) => service_of(alloc, asked),
        None => Err(no_command(alloc)),
    }
}

/// The names of the initiators that may log in, of a command line whose first word is `serve`; an empty
/// list lets in everybody. Words that `read_serve_words` refuses are refused in the same way.
#[tactic(auto, using(crate::proofs::RowLemmas::lists_words))]
pub fn read_initiators<'a, S: AsStr>(
    alloc: Global,
    words: &'a [S],
) -> Result<Vec<&'a [u8]>, LineFault>
    ensures names { IfOk result (λ names. map (λ name. name.now) names.items
        ≡ said_names (serve_rows (map S.text words.entry.now))) }
{
    let matches = matches_of(alloc, words)?;
    match entered(&matches) {
        Some(asked) => initiators_of(alloc, asked),
        None => Err(no_command(alloc)),
    }
}

// What clap read behind the word of a command.
fn entered<'b, 'a>(matches: &'b ArgMatches<'a>) -> Option<&'b ArgMatches<'a>>
    ensures rows { option_map (λ asked. rows_in asked.now) result
        ≡ option_map (λ entered. entered.1) (subcommand_rows_of matches.now) }
{
    match matches.subcommand() {
        Some((_, asked)) => Some(asked),
        None => None,
    }
}

// What clap makes of the words of a command line whose first word is `serve`.
fn matches_of<'a, S: AsStr>(alloc: Global, words: &'a [S]) -> Result<ArgMatches<'a>, LineFault>
    ensures rows { IfOk result (λ matches. subcommand_rows_of matches
        ≡ subcommand_of serve_program (map S.text words.entry.now)) }
{
    let command = with_serve(alloc)?;
    match command.try_get_matches_from(words) {
        Ok(matches) => Ok(matches),
        Err(error) => Err(usage(alloc, error)),
    }
}

// The names of the initiators that may log in. Each is a name, and there are 64 of them at most.
fn initiators_of<'a>(alloc: Global, asked: &ArgMatches<'a>) -> Result<Vec<&'a [u8]>, LineFault>
    ensures names { IfOk result (λ names. map (λ name. name.now) names.items
        ≡ said_names (rows_in asked.now)) }
{
    let mut initiators = Vec::new(alloc);
    let Some(names) = values_of(asked, "initiator") else {
        return Ok(initiators);
    };
    for name in names {
        if !is_name(name.as_bytes()) {
            return Err(serve_row().bad_value(alloc, name, BAD_INITIATOR));
        }
        if initiators.len() == MOST_INITIATORS {
            return Err(serve_row().bad_value(alloc, name, MANY_INITIATORS));
        }
        initiators.push(name.as_bytes())?;
    }
    Ok(initiators)
}

// The program whose only command is `serve`.
#[tactic(auto, using(crate::proofs::RowLemmas::adds_command))]
fn with_serve<'a>(alloc: Global) -> Result<Command<'a>, AllocError>
    ensures words { IfOk result (IsCommand serve_program) }
{
    let serve = serve_row().declared(alloc)?;
    let command = bare_command(alloc)?.subcommand(serve)?;
    Ok(command)
}

/// The service that the words of `serve` ask for, without the names of initiators, which
/// `read_initiators` gives. `Usage` comes for a value that is none, and for words that do not go
/// together; `NoMemory` if memory ran out.
pub fn service_of<'a>(alloc: Global, asked: &ArgMatches<'a>) -> Result<ServeJob<'a>, LineFault>
    ensures range { IfOk result IsServeJob }
    ensures says { IfOk result (SaysServe (rows_in asked.now)) }
{
    let storage = storage_of(alloc, asked)?;
    let read_only = read_only_of(alloc, asked)?;
    let serial = serial_of(alloc, asked)?;
    let memory = memory_of(alloc, asked)?;
    initiators_of(alloc, asked)?;
    let service = if is_required_form(asked) {
        Service::InTurn(in_turn(alloc, asked)?)
    } else {
        Service::AtOnce(options_of(alloc, asked)?)
    };
    Ok(ServeJob {
        storage,
        service,
        serial,
        memory,
        read_only,
        secrets: value_of(asked, "chap"),
    })
}

// Whether no other words are there than those of the required form: `--blocks`, `--port` and
// `--sessions`.
fn is_required_form(asked: &ArgMatches<'_>) -> bool {
    asked.get_str("blocks").is_some()
        && !has_other(asked, DISK)
        && !has_other(asked, UNIT)
        && !has_other(asked, SERVICE)
        && !has_other(asked, LENGTHS)
}

// Whether one of these words is there that the required form does not have.
fn has_other(asked: &ArgMatches<'_>, words: &[Word]) -> bool {
    words.iter().any(|word| !matches!(word.name, "port" | "sessions") && is_there(asked, word))
}

// Whether a word is there.
fn is_there(asked: &ArgMatches<'_>, word: &Word) -> bool {
    match word.kind {
        WordKind::Flag => asked.get_flag(word.name),
        WordKind::Values(_) => asked.get_strs(word.name).is_some(),
        _ => asked.get_str(word.name).is_some(),
    }
}

// The options of a service of one connection after another: those of the bare profile on 127.0.0.1.
fn in_turn<'a>(alloc: Global, asked: &ArgMatches<'a>) -> Result<Options<'a>, LineFault>
    ensures range { IfOk result (λ options. CanServe (service.InTurn options)) }
    ensures says { IfOk result (λ options. Listens (rows_in asked.now) (service.InTurn options)) }
{
    let name = name_of(alloc, asked)?;
    Ok(Options {
        listen: IpAddr::V4(Ipv4Addr::LOCALHOST),
        port: port_of(alloc, asked)?,
        stop: stop_of(alloc, asked)?,
        at_once: 1,
        name,
        portal: PortalOption::Untold,
        unit: None,
        limits: Limits {
            idle: None,
            login_within: None,
        },
        preferences: Preferences::standard(),
        data_in: None,
        print_port: false,
        quiet: true,
    })
}

// The options of a service of several sessions at a time.
fn options_of<'a>(alloc: Global, asked: &ArgMatches<'a>) -> Result<Options<'a>, LineFault>
    ensures range { IfOk result (λ options. CanServe (service.AtOnce options)) }
    ensures says { IfOk result (λ options. Listens (rows_in asked.now) (service.AtOnce options)) }
{
    allow_plain(alloc, asked)?;
    let listen = listen_of(alloc, asked)?;
    let name = name_of(alloc, asked)?;
    let at_once = at_once_of(alloc, asked)?;
    let portal = portal_of(alloc, asked)?;
    let limits = limits_of(alloc, asked)?;
    let preferences = preferences_of(alloc, asked)?;
    Ok(Options {
        listen,
        port: port_of(alloc, asked)?,
        stop: stop_of(alloc, asked)?,
        at_once,
        name,
        portal,
        unit: unit_of(alloc, asked)?,
        limits,
        preferences,
        data_in: data_in_of(alloc, asked)?,
        print_port: asked.get_flag("print-port"),
        quiet: asked.get_flag("quiet"),
    })
}

// Refuses the bare profile beside words for which it has no room.
fn allow_plain(alloc: Global, asked: &ArgMatches<'_>) -> Result<(), LineFault> {
    if !asked.get_flag("plain") {
        return Ok(());
    }
    if let Some(name) = NOT_PLAIN.iter().find(|name| asked.get_str(name).is_some()) {
        return Err(not_plain(alloc, name));
    }
    for name in ["thin", "write-back"] {
        if asked.get_flag(name) {
            return Err(not_plain(alloc, name));
        }
    }
    Ok(())
}

// The usage error for a word that does not go with the bare profile.
fn not_plain(alloc: Global, name: &str) -> LineFault {
    match format!(in alloc; "'--plain' cannot be used with '--{name}'") {
        Ok(text) => serve_row().refusal(alloc, text.as_str()),
        Err(_) => LineFault::NoMemory,
    }
}

// The port: the one that is said, or else that of iSCSI.
fn port_of(alloc: Global, asked: &ArgMatches<'_>) -> Result<u16, LineFault> {
    Ok(number_said(alloc, asked, "port", BAD_PORT)?.unwrap_or(PORT))
}

// The number, up to 65535, that a word has, if it stands there.
fn number_said(
    alloc: Global,
    asked: &ArgMatches<'_>,
    name: &str,
    text: &str,
) -> Result<Option<u16>, LineFault> {
    let Some(digits) = asked.get_str(name) else {
        return Ok(None);
    };
    match short_number_of(digits) {
        Some(number) => Ok(Some(number)),
        None => Err(serve_row().bad_value(alloc, digits, text)),
    }
}

// After what the service ends, if that is said.
fn stop_of(alloc: Global, asked: &ArgMatches<'_>) -> Result<Option<Stop>, LineFault> {
    let connections = number_said(alloc, asked, "sessions", BAD_SESSIONS)?;
    let logins = number_said(alloc, asked, "logins", BAD_LOGINS)?;
    match (connections, logins) {
        (Some(_), Some(_)) => Err(serve_row().refusal(alloc, TWO_STOPS)),
        (Some(count), None) => Ok(Some(Stop::Connections(count))),
        (None, Some(count)) => Ok(Some(Stop::Logins(count))),
        (None, None) => Ok(None),
    }
}

// The address to listen at. A disk that lasts, and that other machines can reach, has a name or a serial
// number of its own.
#[tactic(auto, using(crate::proofs::RowLemmas::listens))]
fn listen_of(alloc: Global, asked: &ArgMatches<'_>) -> Result<IpAddr, LineFault>
    ensures says { IfOk result (IsListen (first_of (codes "listen") (rows_in asked.now))) }
{
    let Some(text) = value_of(asked, "listen") else {
        return Ok(IpAddr::V4(Ipv4Addr::LOCALHOST));
    };
    let Ok(address) = text.parse::<IpAddr>() else {
        return Err(serve_row().bad_value(alloc, text, BAD_LISTEN));
    };
    let lasts = asked.get_str("file").is_some() || asked.get_str("nbd").is_some();
    let is_named = asked.get_str("name").is_some() || asked.get_str("serial").is_some();
    if lasts && !is_named && !address.is_loopback() && !asked.get_flag("plain") {
        return Err(serve_row().refusal(alloc, UNNAMED));
    }
    Ok(address)
}

// The target's name.
fn name_of<'a>(alloc: Global, asked: &ArgMatches<'a>) -> Result<&'a [u8], LineFault>
    ensures name { IfOk result (λ name. IsName name.now) }
{
    let name = asked.get_str("name").unwrap_or(NAME);
    if !is_name(name.as_bytes()) {
        return Err(serve_row().bad_value(alloc, name, BAD_NAME));
    }
    Ok(name.as_bytes())
}

// The address of the portal that initiators are to use: the one that is said, or else that by which they
// came; none with the bare profile.
fn portal_of<'a>(alloc: Global, asked: &ArgMatches<'a>) -> Result<PortalOption<'a>, LineFault>
    ensures portal { IfOk result IsPortalOption }
{
    let Some(address) = asked.get_str("portal") else {
        return Ok(if asked.get_flag("plain") {
            PortalOption::Untold
        } else {
            PortalOption::Local
        });
    };
    if !is_address(address) {
        return Err(serve_row().bad_value(alloc, address, BAD_PORTAL));
    }
    Ok(PortalOption::Other(address.as_bytes()))
}

// What ends a session or a connection without a login.
fn limits_of(alloc: Global, asked: &ArgMatches<'_>) -> Result<Limits, LineFault>
    ensures some { IfOk result AreLimits }
{
    let idle = match number_said(alloc, asked, "idle", BAD_IDLE)? {
        Some(0) => return Err(serve_row().bad_value(alloc, "0", BAD_IDLE)),
        idle => idle,
    };
    let login_within = match number_said(alloc, asked, "login-within", BAD_LOGIN)? {
        Some(0) => None,
        Some(seconds) => Some(seconds),
        None => Some(LOGIN_WITHIN),
    };
    Ok(Limits { idle, login_within })
}

// The number of sessions at a time, 1 to 64.
fn at_once_of(alloc: Global, asked: &ArgMatches<'_>) -> Result<u16, LineFault>
    ensures range { IfOk result (λ n. (0 < n) × (n ≤ 64)) }
{
    let Some(digits) = asked.get_str("at-once") else {
        return Ok(AT_ONCE);
    };
    match short_number_of(digits) {
        Some(count) if 0 < count && count <= MOST_AT_ONCE => Ok(count),
        _ => Err(serve_row().bad_value(alloc, digits, BAD_AT_ONCE)),
    }
}

// The number that digits spell, up to 65535.
pub(crate) fn short_number_of(digits: &str) -> Option<u16> {
    u16::try_from(number_of(digits, u64::from(u16::MAX))?).ok()
}
