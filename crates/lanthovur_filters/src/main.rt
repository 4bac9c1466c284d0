//! The command `lanthovur` as far as `show` and `normalise` of a stream alone: it stands on fewer libraries, so that it is proved sooner.
#![tactic(auto)]

use iscsi_filters::run_filter_program;
use std::process::ExitCode;

fn main(rt: HostRuntime) -> ExitCode {
    run_filter_program(&rt)
}
