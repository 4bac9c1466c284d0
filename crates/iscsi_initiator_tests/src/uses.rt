//! What another program does with `iscsi_initiator`.

ghost use Rattle.std.specs.Prelude.{◌≡◌, Ok, Err, IfOk, IfErr};
ghost use Rattle.iscsi_login.specs.declared.phase.Phase.{Phase};
ghost use Rattle.iscsi_initiator.specs.Calls.{InitiatorConnection, InitiatorFeedPost, after_taking};

use iscsi_initiator::{Done, Initiator, InitiatorFault};

/// Takes what came over a connection, appends what it leads to, and gives the outcome of the last
/// request once it is there.
pub fn outcome_of(
    initiator: &mut Initiator,
    came: &[u8],
    out: &mut Vec<u8>,
) -> Result<Option<Done>, InitiatorFault>
    ensures fed { IfOk result (λ done. (phase : Phase) × (fed : InitiatorConnection)
        × InitiatorFeedPost (Ok phase) initiator.old came.now fed out.old.items out.new.items
        × (done ≡ fed.machine.done) × (initiator.new ≡ after_taking fed)) }
    ensures fault { IfErr result (λ fault. InitiatorFeedPost (Err fault) initiator.old came.now
        initiator.new
        out.old.items out.new.items) }
{
    initiator.feed(came, out)?;
    Ok(initiator.outcome())
}
