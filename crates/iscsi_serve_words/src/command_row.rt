//! Commands, as rows of a table.

ghost use Rattle.std.specs.Prelude.{[], IfOk};
ghost use Rattle.iscsi_serve_words.specs.Rows.{IsCommand, IsReadAs, bare_row, shape_of_row};

use crate::command_line::{LineFault, refusal_by};
use crate::disk_size::{BAD_BLOCKS, BAD_SIZE, NO_SIZE, SizeFault, TWO_SIZES};
use crate::word::{Word, with_words};
use clap::Command;
use std::alloc::{AllocError, Global};

/// A command, with its words and what its help says.
pub struct CommandRow {
    /// Its name.
    pub name: &'static str,
    /// Its name behind that of the program.
    pub bin_name: &'static str,
    /// What it does, in a line.
    pub about: &'static str,
    /// How it is used, where clap would not say it so.
    pub usage: Option<&'static str>,
    /// What stands below its words.
    pub examples: Option<&'static str>,
    /// Its words, list behind list.
    pub words: &'static [&'static [Word]],
}

impl CommandRow {
    /// The command as clap declares it. The error is want of memory.
    #[tactic(auto, using(crate::proofs::RowLemmas::no_words, crate::proofs::RowLemmas::all_lists))]
    pub fn declared<'a>(&self, alloc: Global) -> Result<Command<'a>, AllocError>
        ensures words { IfOk result (IsCommand (record { top = shape_of_row self.now; subs = [] })) }
    {
        let mut command = self.without_words(alloc)?;
        for words in self.words {
            command = with_words(alloc, command, words)?;
        }
        Ok(command)
    }

    // The command, without its words.
    fn without_words<'a>(&self, alloc: Global) -> Result<Command<'a>, AllocError>
        ensures bare { IfOk result (IsCommand (record { top = bare_row self.now; subs = [] })) }
    {
        let command = Command::new(alloc, self.name)
            .about(self.about)
            .disable_version_flag(true)
            .bin_name(self.bin_name)?;
        let command = with_usage(command, self.usage);
        Ok(with_examples(command, self.examples))
    }

    /// The usage error for words of the command that do not go together.
    pub fn refusal(&self, alloc: Global, text: &str) -> LineFault {
        match self.declared(alloc) {
            Ok(program) => refusal_by(alloc, program, text),
            Err(_) => LineFault::NoMemory,
        }
    }

    /// The usage error for a word whose value is wrong: the text says what it is not, and what was
    /// meant.
    pub fn bad_value(&self, alloc: Global, value: &str, text: &str) -> LineFault {
        match format!(in alloc; "'{value}' {text}") {
            Ok(text) => self.refusal(alloc, text.as_str()),
            Err(_) => LineFault::NoMemory,
        }
    }

    /// The usage error for words that give no disk size.
    pub fn bad_size(&self, alloc: Global, fault: SizeFault<'_>) -> LineFault {
        match fault {
            SizeFault::Blocks(value) => self.bad_value(alloc, value, BAD_BLOCKS),
            SizeFault::Size(value) => self.bad_value(alloc, value, BAD_SIZE),
            SizeFault::Both => self.refusal(alloc, TWO_SIZES),
            SizeFault::Neither => self.refusal(alloc, NO_SIZE),
        }
    }
}

// A command that is used so, where clap would not say it so.
fn with_usage<'a>(command: Command<'a>, usage: Option<&'static str>) -> Command<'a>
    ensures read { IsReadAs command.entry result }
{
    match usage {
        Some(usage) => command.override_usage(usage),
        None => command,
    }
}

// A command with a text below its words, if there is one.
fn with_examples<'a>(command: Command<'a>, examples: Option<&'static str>) -> Command<'a>
    ensures read { IsReadAs command.entry result }
{
    match examples {
        Some(text) => command.after_help(text),
        None => command,
    }
}
