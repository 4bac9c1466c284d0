//! Rows of the list of what captures determine.

/// What a file, or one direction of a connection, has to give, as text.
#[derive(Clone, Copy)]
pub struct Row<'a> {
    /// The capture.
    pub file: &'a str,
    /// The connection, or `-` in the row of a whole file.
    pub connection: &'a str,
    /// `initiator` or `target`; of a whole file how many packets it has.
    pub end: &'a str,
    /// How many bytes are determined; of a whole file how many connections it has.
    pub count: &'a str,
    /// The file that begins with these bytes; of a whole file its first packet without a segment.
    pub stream: &'a str,
    /// The remark on the direction.
    pub remark: &'a str,
}

/// The row that a line is; none where it is a comment, or has other words than six.
pub fn row_of(line: &str) -> Option<Row<'_>> {
    if line.starts_with("#") {
        return None;
    }
    let mut words = line.split_whitespace();
    let file = words.next()?;
    let connection = words.next()?;
    let end = words.next()?;
    let count = words.next()?;
    let stream = words.next()?;
    let remark = words.next()?;
    Some(Row {
        file,
        connection,
        end,
        count,
        stream,
        remark,
    })
}
