//! A target's session over a stream (RFC 7143, sections 6 and 11). One file, more than half of which
//! is the contracts.

ghost use Rattle.std.specs.Prelude.{◌≡◌, ◌≢◌, ◌⊎◌, ◌≤◌, ◌<◌, ℕ, List, [], true, false, length, take, Ok, Err, IfOk, IfErr, OnOk};
ghost use Rattle.std.specs.Io.KnownBytes.{Appends, Consumes};
ghost use Rattle.scsi_disk.specs.Lasting.{LastsOnceSynced, Within};
ghost use Rattle.iscsi_pdu.specs.Meaning.{AreBytes};
ghost use Rattle.iscsi_login.specs.Negotiation.{ArePreferencesInRange};
ghost use Rattle.iscsi_login.specs.Stage.{is_closed_phase};
ghost use Rattle.iscsi_target.specs.Machine.{is_machine_closed};
ghost use Rattle.iscsi_target.specs.Crash.{CrashesFed};
ghost use Rattle.iscsi_target.specs.Feed.{opening_target};
ghost use Rattle.iscsi_target.specs.Advances.{store_of};
ghost use Rattle.iscsi_serving.specs.Executed.{HasExecuted};
ghost use Rattle.iscsi_serve.specs.Session.{target_settings, SyncedAdvances, EndsCut, EndsWell, ServesAllPdus, ServesStream, WroteBefore, around};
ghost use Rattle.iscsi_serve.specs.inner.SessionSteps.{ServiceGoesOn, BytesCloseSession, SessionFaultLeaves, HoldsBack, LeftLast, StoreSynced, service};

use crate::session_fault::SessionFault;
use iscsi_login::{Phase, Preferences};
use iscsi_stream::{PIECE, Reads, write_fully};
use iscsi_target::{Config, FIRST_STAT_SN, Target};
use scsi_disk::BlockStore;
use std::alloc::{AllocError, Global};
use std::io::{Read, Write};

/// The name of the target of the programs.
pub const TARGET_NAME: &[u8] = b"iqn.2026-01.example:disk";
/// The TSIH of a session that has logged in.
const TSIH: u16 = 1;
/// How many bytes of answers may wait while the PDUs of a read are answered.
const MOST_WAITING: usize = 65_536;

/// What the target of the programs is configured with: its name, portal group 1, TSIH 1, and the
/// standard preferences of `iscsi_login`. The only error is that memory ran out.
pub fn configuration(alloc: Global) -> Result<Config, AllocError>
    ensures settings { IfOk result (λ config. config ≡ target_settings) }
{
    iscsi_serving::configuration(alloc, TARGET_NAME, TSIH, Preferences::standard())
}

/// Runs the session of a target with a store over a stream. It takes what a reader returns, in
/// reads of at most 4,096 bytes. It writes the answers as soon as more than 65,536 bytes of them
/// wait, and at the end of each read. Before answers are written the store is synced, once for all
/// of them. It stops where the session is closed, by a logout or a refused login, and where the
/// stream ends.
///
/// If the store counted no failure, it has written the answers to all PDUs of what was read, and
/// the store has the blocks that they leave. If memory ran out, these are the answers to some first
/// PDUs, whole, and to some first tasks of the next one. Behind a failed sync or write it is a
/// front of these, and behind a failed sync no answer that waited for it. Returns:
/// - `Ok` if the stream ends behind a PDU, or the session was closed and no rule broken;
/// - `Target` with the rule that the last PDU broke, after the answers that were due;
/// - `Target` with a fault and its place, if what follows the PDUs is refused, or is a PDU that is
///   not whole at the end of the stream;
/// - `Read` if a read fails or 16,777,216 of them did not reach the end, and none of these faults
///   came before;
/// - `Sync` if a sync of the store fails;
/// - `Write` if a write fails or takes no byte;
/// - `NoMemory` if memory runs out.
///
/// The session is that of RFC 7143, sections 6 and 11; how it is read and written is own rule.
pub fn serve_stream<S: BlockStore, R: Read, W: Write>(
    alloc: Global,
    config: Config,
    store: &mut S,
    r: &mut R,
    w: &mut W,
) -> Result<(), SessionFault>
    // Come what may, a crash leaves each block as before, or as a command of a PDU of what was read
    // leaves it.
    ensures serves { ServesStream S.protected config result
        (around (R.remaining r.old) (W.contents w.old)
        (store_of (S.disk store.old) (S.failures store.old)) (S.kept store.old))
        (around (R.remaining r.new) (W.contents w.new)
        (store_of (S.disk store.new) (S.failures store.new)) (S.kept store.new)) }
    // What was written and what is stored are what the PDUs before the first fault lead to: a function
    // of the settings, the blocks and their meanings alone.
    ensures answered { S.failures store.new ≡ S.failures store.old
        → OnOk result ((read : List ℕ) × (written : List ℕ)
        × Consumes (R.remaining r.old) (R.remaining r.new) read
        × Appends (W.contents w.old) (W.contents w.new) written
        × ServesAllPdus S.protected config (S.disk store.old) read (S.disk store.new) written) }
    // Whatever comes of it, the blocks are those that commands left.
    ensures blocks { HasExecuted S.protected (S.disk store.old) (S.disk store.new) }
    // A crash leaves these blocks, and no others, once they are synced.
    ensures lasts { S.failures store.new ≡ 0
        → LastsOnceSynced (S.synced store.new) (S.disk store.new) (S.kept store.new) }
    // They are, whatever comes of it but a sync that failed.
    ensures synced { S.synced store.old ≡ true → result ≢ Err SessionFault.Sync
        → S.synced store.new ≡ true }
    // Where one failed, the last answers that were written left a store that was synced.
    ensures unsent { result ≡ Err SessionFault.Sync → S.synced store.old ≡ true
        → (then : S) × (S.synced then ≡ true) × WroteBefore S.protected config
        (around (R.remaining r.old) (W.contents w.old)
        (store_of (S.disk store.old) (S.failures store.old)) (S.kept store.old))
        (store_of (S.disk then) (S.failures then)) (S.kept then)
        (around (R.remaining r.new) (W.contents w.new)
        (store_of (S.disk store.new) (S.failures store.new)) (S.kept store.new)) }
    ensures end { S.failures store.new ≡ S.failures store.old → OnOk result
        (EndsWell S.protected config (S.disk store.old) (R.remaining r.old) (R.remaining r.new)) }
    // A PDU is called cut where the reader has told its end.
    ensures cut { EndsCut result (R.remaining r.new) }
{
    let mut buffer = [0u8; PIECE];
    serve_reads(alloc, config, store, r, w, &mut buffer)
}

// Runs a session as `serve_stream` does, in reads of at most as many bytes as the buffer has.
pub(crate) fn serve_reads<S: BlockStore, R: Read, W: Write>(
    alloc: Global,
    config: Config,
    store: &mut S,
    r: &mut R,
    w: &mut W,
    buffer: &mut [u8],
) -> Result<(), SessionFault>
    requires some { 0 < length buffer.old }
    requires range { ArePreferencesInRange config.preferences }
    ensures serves { ServesStream S.protected config result
        (around (R.remaining r.old) (W.contents w.old)
        (store_of (S.disk store.old) (S.failures store.old)) (S.kept store.old))
        (around (R.remaining r.new) (W.contents w.new)
        (store_of (S.disk store.new) (S.failures store.new)) (S.kept store.new)) }
    ensures blocks { HasExecuted S.protected (S.disk store.old) (S.disk store.new) }
    ensures lasts { S.failures store.new ≡ 0
        → LastsOnceSynced (S.synced store.new) (S.disk store.new) (S.kept store.new) }
    ensures synced { S.synced store.old ≡ true → result ≢ Err SessionFault.Sync
        → S.synced store.new ≡ true }
    ensures unsent { result ≡ Err SessionFault.Sync → S.synced store.old ≡ true
        → (then : S) × (S.synced then ≡ true) × WroteBefore S.protected config
        (around (R.remaining r.old) (W.contents w.old)
        (store_of (S.disk store.old) (S.failures store.old)) (S.kept store.old))
        (store_of (S.disk then) (S.failures then)) (S.kept then)
        (around (R.remaining r.new) (W.contents w.new)
        (store_of (S.disk store.new) (S.failures store.new)) (S.kept store.new)) }
    ensures end { S.failures store.new ≡ S.failures store.old → OnOk result
        (EndsWell S.protected config (S.disk store.old) (R.remaining r.old) (R.remaining r.new)) }
    ensures cut { EndsCut result (R.remaining r.new) }
{
    let mut target = Target::new(alloc, config, FIRST_STAT_SN);
    serve_pieces(&mut target, store, r, w, buffer, &mut Vec::new(alloc))
}

// Runs the session of a target to which nothing came. It is lent the target, so that none of its ways out has to
// take one apart.
fn serve_pieces<S: BlockStore, R: Read, W: Write>(
    target: &mut Target,
    store: &mut S,
    r: &mut R,
    w: &mut W,
    buffer: &mut [u8],
    out: &mut Vec<u8>,
) -> Result<(), SessionFault>
    requires some { 0 < length buffer.old }
    requires opening { target.old ≡ opening_target target.old.machine.session.settings 1 }
    requires range { ArePreferencesInRange target.old.machine.session.settings.preferences }
    ensures serves { ServesStream S.protected target.old.machine.session.settings result
        (around (R.remaining r.old) (W.contents w.old)
        (store_of (S.disk store.old) (S.failures store.old)) (S.kept store.old))
        (around (R.remaining r.new) (W.contents w.new)
        (store_of (S.disk store.new) (S.failures store.new)) (S.kept store.new)) }
    ensures blocks { HasExecuted S.protected (S.disk store.old) (S.disk store.new) }
    ensures lasts { S.failures store.new ≡ 0
        → LastsOnceSynced (S.synced store.new) (S.disk store.new) (S.kept store.new) }
    ensures synced { S.synced store.old ≡ true → result ≢ Err SessionFault.Sync
        → S.synced store.new ≡ true }
    ensures unsent { result ≡ Err SessionFault.Sync → S.synced store.old ≡ true
        → (then : S) × (S.synced then ≡ true) × WroteBefore S.protected target.old.machine.session.settings
        (around (R.remaining r.old) (W.contents w.old)
        (store_of (S.disk store.old) (S.failures store.old)) (S.kept store.old))
        (store_of (S.disk then) (S.failures then)) (S.kept then)
        (around (R.remaining r.new) (W.contents w.new)
        (store_of (S.disk store.new) (S.failures store.new)) (S.kept store.new)) }
    ensures end { S.failures store.new ≡ S.failures store.old → OnOk result
        (EndsWell S.protected target.old.machine.session.settings (S.disk store.old) (R.remaining r.old) (R.remaining r.new)) }
    ensures cut { EndsCut result (R.remaining r.new) }
{
    let mut reads = Reads::new();
    while let Some(n) = reads.next(r, buffer)? {
        if serve_piece(target, &buffer[..n], store, out, w)? {
            return Ok(());
        }
    }
    match target.finish() {
        Ok(()) => Ok(()),
        Err(fault) => Err(SessionFault::from(fault)),
    }
}

// Answers the PDUs of a piece, and writes their answers. Says whether the session is over.
fn serve_piece<S: BlockStore, W: Write>(
    target: &mut Target,
    piece: &[u8],
    store: &mut S,
    out: &mut Vec<u8>,
    w: &mut W,
) -> Result<bool, SessionFault>
    requires live { is_machine_closed target.old.machine ≡ false }
    ensures open { result ≡ Ok false → is_machine_closed target.new.machine ≡ false }
    ensures goes { OnOk result (ServiceGoesOn S.protected
        (service target.old (store_of (S.disk store.old) (S.failures store.old)) (W.contents w.old) [])
        piece.now
        (service target.new (store_of (S.disk store.new) (S.failures store.new)) (W.contents w.new) [])) }
    ensures closes { result ≡ Ok true → BytesCloseSession S.protected
        (service target.old (store_of (S.disk store.old) (S.failures store.old)) (W.contents w.old) [])
        piece.now (store_of (S.disk store.new) (S.failures store.new)) }
    ensures err { IfErr result (λ fault. SessionFaultLeaves S.protected
        (service target.old (store_of (S.disk store.old) (S.failures store.old)) (W.contents w.old) [])
        piece.now fault
        (service target.new (store_of (S.disk store.new) (S.failures store.new)) (W.contents w.new) [])) }
    ensures advances { result ≡ Ok false → SyncedAdvances S.protected target.old
        (store_of (S.disk store.old) (S.failures store.old)) piece.now target.new
        (store_of (S.disk store.new) (S.failures store.new)) }
    ensures crash { (S.failures store.old ≤ S.failures store.new)
        × CrashesFed S.protected target.old
        (store_of (S.disk store.old) (S.failures store.old)) piece.now
        (store_of (S.disk store.new) (S.failures store.new)) (S.kept store.old) (S.kept store.new) }
    ensures synced { result ≢ Err SessionFault.Sync → S.synced store.new ≡ true }
    ensures unsent { result ≡ Err SessionFault.Sync → S.synced store.old ≡ true
        → (then : S) × (S.synced then ≡ true) × LeftLast S.protected
        (service target.old (store_of (S.disk store.old) (S.failures store.old)) (W.contents w.old) [])
        piece.now (store_of (S.disk then) (S.failures then)) (S.kept then)
        (service target.new (store_of (S.disk store.new) (S.failures store.new)) (W.contents w.new) [])
        (S.kept store.new) }
{
    out.clear();
    let mut rest = piece;
    while !rest.is_empty() {
        let (taken, phase) = serve_next(target, rest, store, out, w)?;
        rest = &rest[taken..];
        if is_over(phase) {
            write_out(store, out, w)?;
            return Ok(true);
        }
    }
    write_out(store, out, w)?;
    Ok(false)
}

// Answers the next PDU of a piece. The answers that wait are written where they are too many, and
// where the session ends by a fault.
fn serve_next<S: BlockStore, W: Write>(
    target: &mut Target,
    piece: &[u8],
    store: &mut S,
    out: &mut Vec<u8>,
    w: &mut W,
) -> Result<(usize, Phase), SessionFault>
    requires live { is_machine_closed target.old.machine ≡ false }
    ensures open { IfOk result (λ done. is_closed_phase done.1 ≡ false
        → is_machine_closed target.new.machine ≡ false) }
    ensures bound { IfOk result (λ done. (done.0 ≤ length piece.now)
        × (0 < length piece.now → 0 < done.0)) }
    ensures goes { IfOk result (λ done. ServiceGoesOn S.protected
        (service target.old (store_of (S.disk store.old) (S.failures store.old)) (W.contents w.old) out.old.items)
        (take done.0 piece.now)
        (service target.new (store_of (S.disk store.new) (S.failures store.new)) (W.contents w.new) out.new.items)) }
    ensures closes { IfOk result (λ done. is_closed_phase done.1 ≡ true
        → (is_machine_closed target.new.machine ≡ true) × BytesCloseSession S.protected
        (service target.old (store_of (S.disk store.old) (S.failures store.old)) (W.contents w.old) out.old.items)
        (take done.0 piece.now) (store_of (S.disk store.new) (S.failures store.new))) }
    ensures err { IfErr result (λ fault. SessionFaultLeaves S.protected
        (service target.old (store_of (S.disk store.old) (S.failures store.old)) (W.contents w.old) out.old.items)
        piece.now fault
        (service target.new (store_of (S.disk store.new) (S.failures store.new)) (W.contents w.new) [])) }
    ensures advances { IfOk result (λ done. is_closed_phase done.1 ≡ false
        → SyncedAdvances S.protected target.old
        (store_of (S.disk store.old) (S.failures store.old)) (take done.0 piece.now) target.new
        (store_of (S.disk store.new) (S.failures store.new))) }
    ensures crash { (S.failures store.old ≤ S.failures store.new)
        × CrashesFed S.protected target.old
        (store_of (S.disk store.old) (S.failures store.old)) piece.now
        (store_of (S.disk store.new) (S.failures store.new)) (S.kept store.old) (S.kept store.new) }
    ensures synced { IfErr result (λ fault. fault ≢ SessionFault.Sync
        → S.synced store.new ≡ true) }
    ensures unsent { IfErr result (λ fault. fault ≡ SessionFault.Sync
        → W.contents w.new ≡ W.contents w.old) }
    ensures sent { OnOk result ((W.contents w.new ≡ W.contents w.old)
        ⊎ ((out.new.items ≡ []) × (S.synced store.new ≡ true))) }
{
    match target.feed_next(piece, store, out) {
        Ok(done) => {
            if out.len() > MOST_WAITING {
                write_out(store, out, w)?;
            }
            Ok(done)
        }
        Err(fault) => {
            write_out(store, out, w)?;
            Err(SessionFault::from(fault))
        }
    }
}

// Syncs the store, and then writes the answers that wait: none leaves before what it says lasts.
fn write_out<S: BlockStore, W: Write>(
    store: &mut S,
    out: &mut Vec<u8>,
    w: &mut W,
) -> Result<(), SessionFault>
    ensures bytes { AreBytes out.old.items }
    ensures ok { OnOk result (Appends (W.contents w.old) (W.contents w.new) out.old.items) }
    ensures none { OnOk result (out.new.items ≡ []) }
    ensures err { IfErr result (λ fault.
        HoldsBack fault (W.contents w.old) (W.contents w.new) out.old.items) }
    ensures synced { result ≢ Err SessionFault.Sync → S.synced store.new ≡ true }
    ensures store { StoreSynced (store_of (S.disk store.old) (S.failures store.old))
        (store_of (S.disk store.new) (S.failures store.new)) }
    ensures kept { Within (S.kept store.old) (S.kept store.new) }
{
    if let Err(_) = store.sync() {
        return Err(SessionFault::Sync);
    }
    if let Err(_) = write_fully(w, out) {
        return Err(SessionFault::Write);
    }
    out.clear();
    Ok(())
}

// Whether a session is closed.
fn is_over(phase: Phase) -> bool
    ensures { result ≡ is_closed_phase phase }
{
    match phase {
        Phase::Closed => true,
        Phase::Login | Phase::Full => false,
    }
}
