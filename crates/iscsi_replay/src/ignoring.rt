//! Commands whose data may differ between targets.

ghost use Rattle.std.specs.Prelude.{◌≡◌};
ghost use Rattle.iscsi_replay.specs.Rules.{ignores};

/// Commands whose data and residual count are left out of a comparison.
#[derive(Clone, Copy)]
pub struct Ignored {
    /// Those of all commands.
    pub data: bool,
    /// Those of the commands of some operation codes, by the code.
    pub codes: [bool; 256],
}

impl Ignored {
    /// Leaves nothing out.
    pub const NONE: Ignored = Ignored {
        data: false,
        codes: [false; 256],
    };

    /// Whether the data of a command with this operation code are left out.
    pub fn has(&self, operation_code: u8) -> bool
        ensures value { result ≡ ignores self.now operation_code }
    {
        self.data || self.codes[usize::from(operation_code)]
    }
}
