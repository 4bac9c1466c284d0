//! Parts of the text of the page.

/// What stands between the first `before` and the next `after`.
pub fn between<'a>(text: &'a str, before: &str, after: &str) -> Option<&'a str> {
    let (_, rest) = text.split_once(before)?;
    let (part, _) = rest.split_once(after)?;
    Some(part)
}

/// Whether a line is a row of five cells.
pub fn is_row(line: &str) -> bool {
    line.split('|').count() == 7
}

/// A cell of a row, counted from 1, without the blanks around it; nothing where there is none.
pub fn cell(row: &str, at: usize) -> &str {
    let text = row.split('|').nth(at).unwrap_or("");
    text.trim()
}

/// What stands in a cell between backquotes; nothing where there are none.
pub fn quoted(cell: &str) -> &str {
    let rest = cell.strip_prefix('`').unwrap_or("");
    rest.strip_suffix('`').unwrap_or("")
}

/// The number that is written so in decimal.
pub fn decimal(text: &str) -> Option<u32> {
    u32::from_str_radix(text, 10).ok()
}

/// The number that is written so in hex.
pub fn hex(text: &str) -> Option<u32> {
    u32::from_str_radix(text, 16).ok()
}
