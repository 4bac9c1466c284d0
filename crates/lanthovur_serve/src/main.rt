//! The command `lanthovur` as far as `serve` alone: it stands on fewer libraries, so that it is proved sooner.
#![tactic(auto)]

use iscsi_disk_service::run_serve_program;
use std::process::ExitCode;

fn main(rt: HostRuntime) -> ExitCode {
    run_serve_program(&rt)
}
