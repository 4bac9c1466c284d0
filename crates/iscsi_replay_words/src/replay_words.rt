//! The words of `replay`.

use crate::words::{Refusal, text_of};
use hex::FromHex;
use iscsi_job_text::number_of;
use iscsi_login::is_name;
use iscsi_replay::{Ignored, Plan};
use std::convert::AsStr;

/// The port of a target, if none is said (RFC 7143, section 2.2).
const PORT: u16 = 3260;
/// How many unit attentions are passed over, if no other number is said: many targets have one for the
/// first command of a session (SAM-5, section 5.14).
const ATTENTIONS: u32 = 1;
/// How many seconds a request may take, if no other number is said (own rule).
const SECONDS: u32 = 30;

const TARGET: &str = "iqn.2026-01.example:disk";

const INITIATOR: &str = "iqn.2026-01.example:host";

/// What is done again, where and how.
#[derive(Clone, Copy)]
pub(crate) struct Replay<'a> {
    /// The file of the job.
    pub(crate) file: &'a str,
    /// The word that names the target's address.
    pub(crate) to: &'a str,
    /// The host of the target: a name or an IP address.
    pub(crate) host: &'a str,
    /// Its port.
    pub(crate) port: u16,
    /// The target's name.
    pub(crate) name: &'a str,
    /// The initiator's name.
    pub(crate) initiator: &'a str,
    /// ISID; a random one if none is said.
    pub(crate) isid: Option<[u8; 6]>,
    /// How the job is done again.
    pub(crate) plan: Plan,
    /// The file of data.
    pub(crate) data: Option<&'a str>,
    /// Whether the job may write.
    pub(crate) writes: bool,
    /// The longest time for a request, in seconds, at least 1.
    pub(crate) seconds: u32,
}

// The words that were read so far.
#[derive(Clone, Copy)]
struct Said<'a> {
    file: Option<&'a str>,
    to: Option<&'a str>,
    name: &'a str,
    initiator: &'a str,
    isid: Option<[u8; 6]>,
    plan: Plan,
    data: Option<&'a str>,
    writes: bool,
    seconds: u32,
}

/// What the words behind `replay` ask for.
pub(crate) fn replay_of<'a, S: AsStr>(words: &'a [S]) -> Result<Replay<'a>, Refusal<'a>> {
    let mut said = nothing_said();
    let mut words = words.iter();
    while let Some(word) = words.next() {
        let word = word.as_str();
        if takes_value(word) {
            said.take_option(word, text_of(words.next()))?;
        } else {
            said.take(word)?;
        }
    }
    said.replay()
}

// What is asked for where no option stands.
fn nothing_said<'a>() -> Said<'a> {
    Said {
        file: None,
        to: None,
        name: TARGET,
        initiator: INITIATOR,
        isid: None,
        plan: Plan {
            ignored: Ignored::NONE,
            all: false,
            unit: None,
            attentions: ATTENTIONS,
            timing: false,
        },
        data: None,
        writes: false,
        seconds: SECONDS,
    }
}

fn takes_value(option: &str) -> bool {
    matches!(
        option,
        "--to"
            | "--name"
            | "--initiator-name"
            | "--isid"
            | "--data"
            | "--lun"
            | "--attentions"
            | "--ignore"
            | "--wait"
    )
}

impl<'a> Said<'a> {
    // Takes a word that is no option with a value.
    fn take(&mut self, word: &'a str) -> Result<(), Refusal<'a>> {
        match word {
            "-h" | "--help" => return Err(Refusal::Help),
            "--all" => self.plan.all = true,
            "--timing" => self.plan.timing = true,
            "--writes" => self.writes = true,
            _ => return self.take_file(word),
        }
        Ok(())
    }

    // Takes the name of the job's file.
    fn take_file(&mut self, word: &'a str) -> Result<(), Refusal<'a>> {
        if self.file.is_some() || (word.starts_with('-') && word != "-") {
            return Err(Refusal::Wrong("unexpected argument", word));
        }
        self.file = Some(word);
        Ok(())
    }

    // Takes an option and its value, if one stands behind it.
    fn take_option(&mut self, option: &'a str, value: Option<&'a str>) -> Result<(), Refusal<'a>> {
        let Some(value) = value else {
            return Err(Refusal::Wrong("a value is missing behind", option));
        };
        if self.takes(option, value) {
            Ok(())
        } else {
            Err(Refusal::Value(option, value))
        }
    }

    // Takes the value of an option, and says whether it is one.
    fn takes(&mut self, option: &str, value: &'a str) -> bool {
        match option {
            "--to" => {
                self.to = Some(value);
                true
            }
            "--name" => {
                self.name = value;
                is_name(value.as_bytes())
            }
            "--initiator-name" => {
                self.initiator = value;
                is_name(value.as_bytes())
            }
            "--isid" => {
                self.isid = <[u8; 6]>::from_hex(value).ok();
                self.isid.is_some()
            }
            "--data" => {
                self.data = Some(value);
                true
            }
            "--ignore" => ignore(&mut self.plan.ignored, value),
            "--lun" => {
                self.plan.unit = unit_of(value);
                self.plan.unit.is_some()
            }
            "--attentions" => self.takes_attentions(value),
            _ => {
                self.seconds = seconds_of(value);
                self.seconds > 0
            }
        }
    }

    // Takes a number of unit attentions, and says whether it is one.
    fn takes_attentions(&mut self, value: &str) -> bool {
        let Some(number) = number_of(value, 65_535) else {
            return false;
        };
        self.plan.attentions = number as u32;
        true
    }

    // What the words ask for, once all are read.
    fn replay(&self) -> Result<Replay<'a>, Refusal<'a>> {
        let (Some(file), Some(to)) = (self.file, self.to) else {
            return Err(Refusal::Missing("'--to <ADDR:PORT>' and the file of a job are needed"));
        };
        let Some((host, port)) = server_of(to) else {
            return Err(Refusal::Wrong("no address:", to));
        };
        Ok(Replay {
            file,
            to,
            host,
            port,
            name: self.name,
            initiator: self.initiator,
            isid: self.isid,
            plan: self.plan,
            data: self.data,
            writes: self.writes,
            seconds: self.seconds,
        })
    }
}

// Lets the data of commands differ: of all, of those of a name, or of those of an operation code. Says
// whether the word names some.
fn ignore(ignored: &mut Ignored, name: &str) -> bool {
    match name {
        "data" => ignored.data = true,
        "inquiry" => ignored.codes[0x12] = true,
        "report-luns" => ignored.codes[0xa0] = true,
        "mode-sense" => {
            ignored.codes[0x1a] = true;
            ignored.codes[0x5a] = true;
        }
        digits => match code_of(digits) {
            Some(code) => ignored.codes[usize::from(code)] = true,
            None => return false,
        },
    }
    true
}

// The operation code that two hex digits mean.
fn code_of(digits: &str) -> Option<u8> {
    let bytes = <[u8; 1]>::from_hex(digits).ok()?;
    Some(bytes[0])
}

// The host and the port of a target; an IPv6 address stands in brackets.
fn server_of(server: &str) -> Option<(&str, u16)> {
    let (host, digits) = match server.strip_prefix('[') {
        Some(rest) => bracketed(rest)?,
        None => parted(server),
    };
    let port = port_of(digits)?;
    (!host.is_empty()).then_some((host, port))
}

// An address before its bracket, and the digits of the port behind that, if some are to stand there.
fn bracketed(rest: &str) -> Option<(&str, Option<&str>)> {
    let (host, behind) = rest.split_once(']')?;
    if behind.is_empty() {
        return Some((host, None));
    }
    Some((host, Some(behind.strip_prefix(':')?)))
}

// A host, and the digits of the port behind its colon, if there is one.
fn parted(server: &str) -> (&str, Option<&str>) {
    match server.split_once(':') {
        Some((host, digits)) => (host, Some(digits)),
        None => (server, None),
    }
}

// The port that digits spell, 1 to 65535; that of a target if none are said.
fn port_of(digits: Option<&str>) -> Option<u16> {
    let Some(digits) = digits else {
        return Some(PORT);
    };
    let port = u16::try_from(number_of(digits, 65_535)?).ok()?;
    (port > 0).then_some(port)
}

// The number of seconds that digits spell; 0 where they spell none up to 65535.
fn seconds_of(digits: &str) -> u32 {
    match number_of(digits, 65_535) {
        Some(seconds) => seconds as u32,
        None => 0,
    }
}

// The number of a logical unit.
fn unit_of(digits: &str) -> Option<u8> {
    u8::try_from(number_of(digits, 255)?).ok()
}
