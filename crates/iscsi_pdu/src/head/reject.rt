//! The header of a Reject (RFC 7143, section 11.17).

ghost use Rattle.std.specs.Prelude.{◌≡◌};
ghost use Rattle.scsi_cdb.specs.Layout.{RowsHold, AreFilled, HaveRoom, put_all};
ghost use Rattle.iscsi_pdu.specs.Fields.{reject};

use scsi_cdb::layout::{put_u8, put_u32, u8_at, u32_at};

/// A Reject, opcode 3f, with the refused header in its segment (RFC 7143, section 11.17).
///
/// Its DataSN has no meaning at error recovery level 0 (own rule).
#[derive(Clone, Copy, Debug, PartialEq, Eq)]
pub struct Reject {
    /// Why the PDU was refused.
    pub reason: u8,
    /// StatSN of this PDU.
    pub stat_sn: u32,
    /// ExpCmdSN: the next CmdSN that the target expects.
    pub exp_cmd_sn: u32,
    /// MaxCmdSN: the last CmdSN that the target takes.
    pub max_cmd_sn: u32,
}

impl Reject {
    pub(crate) fn read(bytes: &[u8; 48]) -> Reject
        ensures { RowsHold bytes.now (reject result) }
    {
        Reject {
            reason: u8_at(bytes, 2),
            stat_sn: u32_at(bytes, 24),
            exp_cmd_sn: u32_at(bytes, 28),
            max_cmd_sn: u32_at(bytes, 32),
        }
    }

    pub(crate) fn write(&self, out: &mut [u8; 48])
        requires { AreFilled (reject self.now) }
        ensures written { out.new ≡ put_all (reject self.now) out.old }
        ensures room { HaveRoom (reject self.now) }
    {
        put_u8(out, 2, self.reason);
        put_u32(out, 24, self.stat_sn);
        put_u32(out, 28, self.exp_cmd_sn);
        put_u32(out, 32, self.max_cmd_sn);
    }
}
