//! Laws of the initiator's machine: functions with no work, whose contracts are of the definitions
//! alone.

ghost use Rattle.std.specs.Prelude.{◌≡◌, ◌≢◌, ◌<◌, ℕ, false, Err, List, Option, Result, length};
ghost use Rattle.scsi_cdb.specs.Blocks.{IsRecord, record_of};
ghost use Rattle.iscsi_stream.specs.Stream.{Message};
ghost use Rattle.iscsi_stream.specs.Framing.{HasTaken};
ghost use Rattle.iscsi_login.specs.declared.phase.Phase.{Phase};
ghost use Rattle.iscsi_initiator.specs.declared.fault.InitiatorFault.{InitiatorFault};
ghost use Rattle.iscsi_initiator.specs.declared.fault.InitiatorFault.TheVariants as faults;
ghost use Rattle.iscsi_initiator.specs.declared.request.Refused.{Refused};
ghost use Rattle.iscsi_initiator.specs.declared.request.Request.{Request};
ghost use Rattle.iscsi_initiator.specs.Calls.{InitiatorsAlike, CalledAlike, InitiatorConnection, InitiatorFeedPost, HadMemory, InitiatorSubmitPost};
ghost use Rattle.iscsi_initiator.specs.State.{InitiatorSettings, InitiatorSession, is_session_closed};
ghost use Rattle.iscsi_initiator.specs.Full.{sequence};
ghost use Rattle.iscsi_initiator.specs.Configured.{IsStart};
ghost use Rattle.iscsi_initiator.specs.Laws.{HeldStays, IsSequence, OutcomesInOrder, ReadsTile};

/// Once the login is completed, what is agreed never changes, whatever comes, is handed in or fails
/// later (RFC 7143, section 6.3).
pub fn held_stays()
    ensures stays { (settings : InitiatorSettings) → IsStart settings.start → HeldStays settings }
{}

/// What a write sends in one sequence are its bytes, one piece behind the other from the sequence's
/// offset on (RFC 7143, section 11.7).
pub fn sequences()
    ensures tiles { (m : InitiatorSession) (lun : Option ℕ) (target_transfer_tag offset : ℕ)
        (bytes : List ℕ) → 0 < m.held.target_max_recv →
        IsSequence offset bytes (sequence m lun target_transfer_tag offset bytes) }
{}

/// The k-th outcome is one of the k-th accepted request's kind, and at most one request has none yet,
/// over every list of events.
pub fn outcomes_in_order()
    ensures order { (settings : InitiatorSettings) → OutcomesInOrder settings }
{}

/// The Data-In of a read tile its data, and are the data of its outcome (RFC 7143, section 11.7).
pub fn reads_tile()
    ensures tiles { ReadsTile }
{}

/// The record that is sent for a descriptor block is the one that the block means (SPC-4 and
/// SBC-3).
pub fn record_of_a_block()
    ensures record_is { (block : List ℕ) → length block ≡ 16 → IsRecord block (record_of block) }
{}

/// A call has one outcome. If memory is there, what a piece or a request leads to is the same each
/// time, also if the piece breaks off within a PDU.
pub fn one_outcome()
    ensures feed { (stream piece output written rewritten : List ℕ) (ms : List Message)
        (old same a b : InitiatorConnection) (result other : Result Phase InitiatorFault)
        → (is_session_closed old.machine ≡ false → HasTaken stream ms old.framing)
        → InitiatorsAlike old same
        → InitiatorFeedPost result old piece a output written → result ≢ Err faults.NoMemory
        → InitiatorFeedPost other same piece b output rewritten → other ≢ Err faults.NoMemory
        → CalledAlike result other a b written rewritten }
    ensures submit { (request : Request) (output written rewritten : List ℕ)
        (old same a b : InitiatorConnection) (result other : Result (Unit {0}) Refused)
        → InitiatorsAlike old same
        → InitiatorSubmitPost result old request a output written → HadMemory result
        → InitiatorSubmitPost other same request b output rewritten → HadMemory other
        → CalledAlike result other a b written rewritten }
{}
