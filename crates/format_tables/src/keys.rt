//! The text keys, section 8 of the page.

use crate::Counts;
use crate::row::{between, cell, decimal, is_row, quoted};
use iscsi_login::{Answered, NegKey, Range, Rule, Session};
use iscsi_text::{KeyKind, key_kind};
use std::io;

/// The first bytes of the table's heading.
const HEADING: &str = "| Key |";

/// Holds each row of section 8 against the code, and the number of keys that it names.
pub fn hold_keys(rt: &HostRuntime, section: &str, counts: &mut Counts) -> io::Result<()> {
    for row in section.lines() {
        let is_key = row.starts_with("| ") && !row.starts_with(HEADING);
        if is_key && !hold_row(row, &mut counts.keys) {
            counts.note(rt, row)?;
        }
    }
    let known = decimal(between(section, "These ", " keys are known").unwrap_or(""));
    if known != u32::try_from(counts.keys).ok() {
        counts.note(rt, "section 8 names another number of keys")?;
    }
    Ok(())
}

// Whether a row of one key or two is as in the code; counts its keys.
fn hold_row(row: &str, keys: &mut usize) -> bool {
    let names = cell(row, 1);
    let has_star = names.ends_with(" *");
    let names = names.strip_suffix(" *").unwrap_or(names);
    let mut is_so = is_row(row);
    for name in names.split(", ") {
        let at = *keys;
        *keys = at.saturating_add(1);
        is_so = is_so && hold_key(quoted(name).as_bytes(), at, has_star, row);
    }
    is_so
}

// Whether the row has what the code has for the key, which stands at this place of the table.
fn hold_key(name: &[u8], at: usize, has_star: bool, row: &str) -> bool {
    let key = NegKey::ALL.get(at).copied();
    let is_so = match key {
        Some(key) => is_negotiated(key, has_star, row),
        None => !has_star && is_declared(cell(row, 3)),
    };
    is_so
        && key_kind(name).is_some()
        && key_kind(name) == kind_of(cell(row, 2))
        && NegKey::named(name) == key
}

// Of a key that no rule settles: what its row says is not held against the code.
fn is_declared(rule: &str) -> bool {
    rule.starts_with("declared") || rule.starts_with("answered ")
}

fn is_negotiated(key: NegKey, has_star: bool, row: &str) -> bool {
    let default = key.default_value();
    Some(key.rule()) == rule_of(cell(row, 3), cell(row, 4))
        && Some(default) == default_of(cell(row, 5))
        && key.is_irrelevant(Session::Discovery) == has_star
}

fn kind_of(word: &str) -> Option<KeyKind> {
    match word {
        "Number" => Some(KeyKind::Number),
        "Boolean" => Some(KeyKind::Boolean),
        "Items" => Some(KeyKind::Items),
        "Plain" => Some(KeyKind::Plain),
        _ => None,
    }
}

fn rule_of(rule: &str, range: &str) -> Option<Rule> {
    if !range.is_empty() {
        let range = range_of(range)?;
        return match rule {
            "minimum" => Some(Rule::Minimum(range)),
            "maximum" => Some(Rule::Maximum(range)),
            _ => None,
        };
    }
    match rule {
        "OR" => Some(Rule::Or),
        "AND" => Some(Rule::And),
        "first common item" => Some(Rule::NoneItem),
        _ => None,
    }
}

fn range_of(text: &str) -> Option<Range> {
    let (low, high) = text.split_once("..")?;
    let low = decimal(low)?;
    let high = decimal(high)?;
    Some(Range { low, high })
}

fn default_of(text: &str) -> Option<Answered> {
    match text {
        "Yes" => Some(Answered::Flag(true)),
        "No" => Some(Answered::Flag(false)),
        "None" | "None (own rule)" => Some(Answered::NoneItem),
        _ => Some(Answered::Number(decimal(text)?)),
    }
}
