//! Holds tables of docs/FORMATS.md against the code: the kinds of PDU (section 3), what a disk with a
//! serial number tells of itself (section 5), and the text keys (section 8).
#![tactic(auto)]

mod field;
mod keys;
mod kinds;
mod row;
mod unit;

use crate::keys::hold_keys;
use crate::kinds::hold_kinds;
use crate::row::between;
use crate::unit::hold_unit;
use std::process::ExitCode;
use std::{fs, io};

/// What was held against the code, and how many parts of it are not so.
#[derive(Clone, Copy)]
pub struct Counts {
    kinds: usize,
    fields: usize,
    pages: usize,
    keys: usize,
    not_so: usize,
}

impl Counts {
    /// Prints a row that is not as in the code.
    fn note(&mut self, rt: &HostRuntime, row: &str) -> io::Result<()> {
        self.not_so = self.not_so.saturating_add(1);
        rt.println(row)
    }
}

/// Prints each row that is not as in the code, and a line of counts. The status is 1 where there is
/// such a row.
fn main(rt: HostRuntime) -> io::Result<ExitCode> {
    let page = fs::read_to_string(&rt, "FORMATS.md")?;
    let mut counts = Counts {
        kinds: 0,
        fields: 0,
        pages: 0,
        keys: 0,
        not_so: 0,
    };
    hold_page(&rt, page.as_str(), &mut counts)?;
    let not_so = counts.not_so;
    print_counts(&rt, counts)?;
    Ok(ExitCode::from(if not_so == 0 { 0 } else { 1 }))
}

fn hold_page(rt: &HostRuntime, page: &str, counts: &mut Counts) -> io::Result<()> {
    let kinds = between(page, "\n## 3. The kinds of PDU\n", "\n## ").unwrap_or("");
    hold_kinds(rt, kinds, counts)?;
    let unit = between(page, "\n### A disk that tells more of itself\n", "\n## ").unwrap_or("");
    hold_unit(rt, unit, counts)?;
    let keys = between(page, "\n## 8. Text keys\n", "\n## ").unwrap_or("");
    hold_keys(rt, keys, counts)
}

fn print_counts(rt: &HostRuntime, counts: Counts) -> io::Result<()> {
    let Counts {
        kinds,
        fields,
        pages,
        keys,
        not_so,
    } = counts;
    println!(rt;
        "{kinds} kinds, {fields} fields, {pages} pages of a disk, {keys} keys: {not_so} not as in the code"
    )
}
