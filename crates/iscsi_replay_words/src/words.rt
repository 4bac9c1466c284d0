//! How words are read, and why they are refused.

use crate::ending::Ending;
use std::alloc::{AllocError, Global};
use std::convert::AsStr;

/// Why words ask for nothing that is done.
#[derive(Clone, Copy)]
pub(crate) enum Refusal<'a> {
    /// They ask for help.
    Help,
    /// Memory ran out.
    NoMemory,
    /// Something is missing: this.
    Missing(&'static str),
    /// Something is wrong with a word: what, and the word.
    Wrong(&'static str, &'a str),
    /// An option does not take the value: the option, and the value.
    Value(&'a str, &'a str),
}

impl Refusal<'_> {
    /// How the words behind this one end, which has this page of help.
    pub(crate) fn ending(self, alloc: Global, job: &str, page: &'static str) -> Ending {
        match self {
            Refusal::Help => Ending::Help(page),
            Refusal::NoMemory => Ending::NoMemory,
            Refusal::Missing(_) | Refusal::Wrong(_, _) | Refusal::Value(_, _) => {
                Ending::told(2, self.usage(alloc, job))
            }
        }
    }

    // What is wrong, and where help stands.
    fn usage(self, alloc: Global, job: &str) -> Result<String, AllocError> {
        let mut text = String::new(alloc);
        self.write(&mut text)?;
        write!(
            text,
            "\n\nFor more information, try 'lanthovur {job} --help'.\n"
        )?;
        Ok(text)
    }

    // Appends what is wrong.
    fn write(self, text: &mut String) -> Result<(), AllocError> {
        match self {
            Refusal::Help | Refusal::NoMemory => Ok(()),
            Refusal::Missing(what) => write!(text, "error: {what}"),
            Refusal::Wrong(what, word) => write!(text, "error: {what} '{word}'"),
            Refusal::Value(option, value) => {
                write!(text, "error: no value of '{option}': '{value}'")
            }
        }
    }
}

/// The text of a word, if there is one.
pub(crate) fn text_of<'a, S: AsStr>(word: Option<&'a S>) -> Option<&'a str> {
    match word {
        Some(word) => Some(word.as_str()),
        None => None,
    }
}
