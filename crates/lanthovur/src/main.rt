//! The command `lanthovur`: shows, normalises, compares and answers iSCSI byte streams, serves a
//! disk, runs both ends of a session, and does recorded sessions again.
#![tactic(auto)]

use iscsi_replay_words::{PROGRAM, run_recorded};
use iscsi_serve_words::read_command_line;
use iscsi_tool::run_read;
use std::io::Write;
use std::process::ExitCode;

fn main(rt: HostRuntime) -> ExitCode {
    let words = read_command_line(&rt);
    let mut output = rt.stdout();
    let mut errors = rt.stderr();
    let mut asks_for_all = false;
    if let Ok(words) = &words {
        if let Some(status) = run_recorded(&rt, words.as_slice(), &mut output, &mut errors) {
            return ExitCode::from(status);
        }
        asks_for_all =
            matches!(words.as_slice(), [word] if matches!(word.as_str(), "-h" | "--help" | "help"));
    }
    let status = run_read(&rt, &words, &mut rt.stdin(), &mut output, &mut errors);
    if asks_for_all && status == 0 {
        let _ = output.write_all(PROGRAM.as_bytes());
    }
    ExitCode::from(status)
}
