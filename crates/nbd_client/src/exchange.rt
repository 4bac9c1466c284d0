//! A request and the head of its reply.

ghost use Rattle.std.specs.Prelude.{◌≡◌, length, IfOk, ◌++◌};
ghost use Rattle.nbd_client.specs.Serving.{ServerReply, AreRequestBytes, MayDo, UntoldRises};
ghost use Rattle.nbd_wire.specs.Transmission.{request_bytes};

use crate::fault::Lost;
use crate::line::Line;
use nbd_wire::{Request, request_bytes};

/// Sends a request and reads the 16 bytes that answer it.
pub(crate) fn exchange<L: Line>(
    line: &mut L,
    request: &Request,
    lba: u64,
    bytes: &[u8],
) -> Result<[u8; 16], Lost>
    requires asked { AreRequestBytes request.now lba (L.Line.disk line.old).count (L.Line.sizes line.old)
        (request_bytes request.now) bytes.now }
    ensures may { MayDo request.now.command lba bytes.now (L.Line.disk line.old)
        (L.Line.kept line.old) (L.Line.disk line.new) (L.Line.kept line.new) }
    ensures answers { IfOk result (λ head. L.Line.untold line.new ≡ L.Line.untold line.old
        → ServerReply request.now lba bytes.now (L.Line.disk line.old) (L.Line.disk line.new)
        (L.Line.kept line.new) (head ++ L.Line.pending line.new)) }
    ensures sizes { L.Line.sizes line.new ≡ L.Line.sizes line.old }
    ensures long { IfOk result (λ head. length head ≡ 16) }
    ensures untold { UntoldRises (L.Line.disk line.old).tells (L.Line.untold line.old)
        (L.Line.untold line.new) }
{
    line.send(&request_bytes(request), bytes)?;
    let mut head = [0; 16];
    line.receive(&mut head)?;
    Ok(head)
}
