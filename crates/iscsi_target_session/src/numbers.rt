//! The serial numbers that an answer carries.

/// The serial numbers that an answer carries.
#[derive(Clone, Copy, Debug, PartialEq, Eq)]
pub struct Numbers {
    /// The StatSN of the answer.
    pub stat_sn: u32,
    /// The CmdSN that is due next.
    pub exp_cmd_sn: u32,
    /// The last CmdSN that is taken.
    pub max_cmd_sn: u32,
}
