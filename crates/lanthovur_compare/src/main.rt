//! The command `lanthovur` as far as `compare` of two streams alone: it stands on fewer libraries, so that it is proved sooner.
#![tactic(auto)]

use iscsi_comparison::run_comparison_program;
use std::process::ExitCode;

fn main(rt: HostRuntime) -> ExitCode {
    run_comparison_program(&rt)
}
