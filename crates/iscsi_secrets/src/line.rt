//! The words of a line.

ghost use Rattle.std.specs.Prelude.{◌≡◌, IfOk, map};
ghost use Rattle.std.specs.Prelude.{◌==◌};
ghost use Rattle.std.specs.List.{list_any};
ghost use Rattle.iscsi_secrets.specs.Secrets.{begins_comment, has_number_sign, is_blank, secrets_lines, words_of};

use std::alloc::{AllocError, Global};

/// The lines of a text, which line feeds part. The error is want of memory.
pub fn lines_of(alloc: Global, text: &[u8]) -> Result<Vec<&[u8]>, AllocError>
    ensures lines { IfOk result (λ lines. map (λ line. line.now) lines.items
        ≡ secrets_lines text.now) }
{
    text.split(|b| *b == b'\n').collect(alloc)
}

/// The words of a line before its comment, which begins at the first word with a `#` at its head. The
/// error is want of memory.
pub fn words_of(alloc: Global, line: &[u8]) -> Result<Vec<&[u8]>, AllocError>
    ensures words { IfOk result (λ words. map (λ word. word.now) words.items
        ≡ words_of line.now) }
{
    line.split(|b| is_blank(*b))
        .filter(|word| !word.is_empty())
        .take_while(|word| !begins_comment(word))
        .collect(alloc)
}

/// Whether one of the words has a `#` in it.
#[tactic(auto, using(crate::proofs::LineLemmas::any_mapped))]
pub fn has_number_sign(words: &[&[u8]]) -> bool
    ensures sign { result ≡ has_number_sign (map (λ word. word.now) words.now) }
{
    one_holds_number_sign(words)
}

// Whether one of the words has a `#` in it.
fn one_holds_number_sign(words: &[&[u8]]) -> bool
    ensures { result ≡ list_any (λ word. list_any (λ b. b == 35) word.now) words.now }
{
    for word in words {
        if holds_number_sign(word) {
            return true;
        }
    }
    false
}

// Whether a word has a `#` in it.
fn holds_number_sign(word: &[u8]) -> bool
    ensures { result ≡ list_any (λ b. b == 35) word.now }
{
    for b in word {
        if *b == b'#' {
            return true;
        }
    }
    false
}

// Whether a comment begins with this word.
fn begins_comment(word: &[u8]) -> bool
    ensures { result ≡ begins_comment word.now }
{
    match word {
        [b'#', ..] => true,
        _ => false,
    }
}

// Whether a byte parts words.
fn is_blank(b: u8) -> bool
    ensures { result ≡ is_blank b }
{
    b == b' ' || b == b'\t' || b == b'\r'
}
