//! The words that a command takes, as rows of a table.

ghost use Rattle.std.specs.Prelude.{◌≡◌, [], ◌∷◌, IfOk, Some, true, map};
ghost use Rattle.clap.specs.Words.{rule_of};
ghost use Rattle.clap.specs.declared.builder.action.ArgAction.TheVariants.{Set};
ghost use Rattle.iscsi_serve_words.specs.Rows.{AddsRules, IsWord, rule_of_kind, rule_of_word};

use clap::{Arg, ArgAction, Command};
use std::alloc::{AllocError, Global};

/// A word that a command takes.
#[derive(Clone, Copy)]
pub struct Word {
    /// Its name, without dashes.
    pub name: &'static str,
    /// What it is like.
    pub kind: WordKind,
    /// The name of the word without which it is refused, if there is one.
    pub beside: Option<&'static str>,
    /// Its line of help.
    pub help: &'static str,
}

/// What a word is like.
#[derive(Clone, Copy)]
pub enum WordKind {
    /// It is there or not.
    Flag,
    /// It has a value, which is called so.
    Value(&'static str),
    /// It has a value, and has to be there.
    NeededValue(&'static str),
    /// It has a value, and may be there several times.
    Values(&'static str),
    /// It is the name of a file, without a word before it.
    File,
    /// It is the name of a file, and has to be there.
    NeededFile,
}

impl Word {
    // The word as clap declares it. The error is want of memory.
    fn declared<'a>(&self, alloc: Global) -> Result<Arg<'a>, AllocError>
        ensures word { IfOk result (IsWord (rule_of_word self.now)) }
    {
        let word = self.alone(alloc);
        match self.beside {
            Some(name) => word.requires_arg(name),
            None => Ok(word),
        }
    }

    // The word, whatever stands beside it.
    fn alone<'a>(&self, alloc: Global) -> Arg<'a>
        ensures word { IsWord (record (rule_of_kind self.now.name.now self.now.kind) { is_free = true }) result }
    {
        let word = Arg::new(alloc, self.name).help(self.help);
        match self.kind {
            WordKind::Flag => word.long(self.name).action(ArgAction::SetTrue),
            WordKind::Value(value) => valued(word, self.name, value),
            WordKind::NeededValue(value) => valued(word, self.name, value).required(true),
            WordKind::Values(value) => valued(word, self.name, value).action(ArgAction::Append),
            WordKind::File => word.action(ArgAction::Set),
            WordKind::NeededFile => word.action(ArgAction::Set).required(true),
        }
    }
}

// A word with a value of this name.
fn valued<'a>(word: Arg<'a>, name: &'static str, value: &'static str) -> Arg<'a>
    ensures rule { rule_of result ≡ record (rule_of word.entry) {
      long = Some name.now;
      value_names = 1;
      action = Some Set;
    } }
    ensures own { result.global ≡ word.entry.global }
{
    word.long(name).value_name(value).action(ArgAction::Set)
}

/// A command with these words, in their order. The error is want of memory.
#[tactic(auto, using(crate::proofs::RowLemmas::no_words))]
pub(crate) fn with_words<'a>(
    alloc: Global,
    command: Command<'a>,
    words: &[Word],
) -> Result<Command<'a>, AllocError>
    ensures words { IfOk result (AddsRules (map rule_of_word words.now) command.entry) }
{
    let mut command = command;
    for word in words {
        command = with_word(alloc, command, word)?;
    }
    Ok(command)
}

// A command with one more word.
#[tactic(auto, using(crate::proofs::RowLemmas::adds_word))]
fn with_word<'a>(
    alloc: Global,
    command: Command<'a>,
    word: &Word,
) -> Result<Command<'a>, AllocError>
    ensures word { IfOk result (AddsRules (rule_of_word word.now ∷ []) command.entry) }
{
    let word = word.declared(alloc)?;
    let command = command.arg(word)?;
    Ok(command)
}
