//! A PDU that came.

use iscsi_pdu::Pdu;
use std::marker::Model;

/// A PDU that came, and whether it continues another login PDU. Its contracts see its message.
#[derive(Drop)]
pub struct Received<'a> {
    /// The PDU.
    pub pdu: Pdu<'a>,
    /// Whether it continues another login PDU.
    pub continued: bool,
}

impl<'a> Model for Received<'a> {
    ghost use Rattle.std.specs.Prelude.{◌<◌, ◌^◌, length};
    ghost use Rattle.iscsi_pdu.specs.Meaning.{HeadFits};
    ghost use Rattle.iscsi_stream.specs.Stream.{Message, message};

    ghost Value = { Message };

    ghost view = { λ r. message r.continued r.pdu.head r.pdu.bytes.now };

    ghost invariant = { λ r. HeadFits r.pdu.head × (length r.pdu.bytes.now < 2 ^ 24) };
}
