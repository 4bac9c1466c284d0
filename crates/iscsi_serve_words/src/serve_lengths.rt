//! What the words of `serve` say of segments and bursts.

ghost use Rattle.std.specs.Prelude.{◌<◌, ◌≤◌, IfOk, IfSome};
ghost use Rattle.iscsi_options.specs.Options.{AreOffered, longest_asked};

use crate::command_line::LineFault;
use crate::serve_options::serve_row;
use clap::ArgMatches;
use iscsi_login::Preferences;
use iscsi_options::{DATA_IN, LONGEST_ASKED, SEGMENT, SHORTEST_ASKED, number_of};
use std::alloc::Global;

const BAD_SEGMENT: &str =
    "is no number of bytes: '--segment <N>' takes a number from 512 to 1048576";

const BAD_BURST: &str = "is no number of bytes: '--burst <N>' takes a number from 512 to 1048576";

const BAD_FIRST_BURST: &str =
    "is no number of bytes: '--first-burst <N>' takes a number from 512 to 1048576, and at most \
    that of '--burst'";

const BAD_DATA_IN: &str =
    "is no number of bytes: '--data-in <N>' takes a multiple of 512 from 512 to 1048576";

// How many bytes a Data-In has at most; with the bare profile as many as the initiator takes.
pub(crate) fn data_in_of(alloc: Global, asked: &ArgMatches<'_>) -> Result<Option<u32>, LineFault> {
    if asked.get_flag("plain") {
        return Ok(None);
    }
    let said = length_of(alloc, asked, "data-in", BAD_DATA_IN)?;
    let bytes = said.unwrap_or(DATA_IN);
    if bytes % SHORTEST_ASKED != 0 {
        let digits = asked.get_str("data-in").unwrap_or("");
        return Err(serve_row().bad_value(alloc, digits, BAD_DATA_IN));
    }
    Ok(Some(bytes))
}

// What the target prefers: the standard preferences, with long segments to it, or the lengths that are
// asked for; with the bare profile the standard ones.
pub(crate) fn preferences_of(
    alloc: Global,
    asked: &ArgMatches<'_>,
) -> Result<Preferences, LineFault>
    ensures offered { IfOk result AreOffered }
{
    let standard = Preferences::standard();
    if asked.get_flag("plain") {
        return Ok(standard);
    }
    let segment = length_of(alloc, asked, "segment", BAD_SEGMENT)?.unwrap_or(SEGMENT);
    let burst = length_of(alloc, asked, "burst", BAD_BURST)?.unwrap_or(standard.max_burst);
    let first = match length_of(alloc, asked, "first-burst", BAD_FIRST_BURST)? {
        Some(first) => first,
        None => standard.first_burst.min(burst),
    };
    if burst < first {
        let digits = asked.get_str("first-burst").unwrap_or("");
        return Err(serve_row().bad_value(alloc, digits, BAD_FIRST_BURST));
    }
    Ok(Preferences {
        max_burst: burst,
        first_burst: first,
        max_recv: segment,
        ..standard
    })
}

// The number of bytes, 512 to 1048576, that a word has, if it stands there.
fn length_of(
    alloc: Global,
    asked: &ArgMatches<'_>,
    name: &str,
    text: &str,
) -> Result<Option<u32>, LineFault>
    ensures range { IfOk result
        (λ length. IfSome length (λ n. (512 ≤ n) × (n ≤ longest_asked))) }
{
    let Some(digits) = asked.get_str(name) else {
        return Ok(None);
    };
    match bytes_of(digits) {
        Some(length) => Ok(Some(length)),
        None => Err(serve_row().bad_value(alloc, digits, text)),
    }
}

// The number of bytes that digits spell, from 512 to 1048576.
fn bytes_of(digits: &str) -> Option<u32>
    ensures range { IfSome result (λ n. (512 ≤ n) × (n ≤ longest_asked)) }
{
    match u32::try_from(number_of(digits, u64::from(LONGEST_ASKED))?) {
        Ok(n) if SHORTEST_ASKED <= n && n <= LONGEST_ASKED => Some(n),
        _ => None,
    }
}
