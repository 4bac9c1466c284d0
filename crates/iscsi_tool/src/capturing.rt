//! The jobs over capture files, as they run.

ghost use Rattle.std.specs.Prelude.{◌≡◌, ◌<◌, ◌≤◌, ℕ, List, Err, IsOk};
ghost use Rattle.std.specs.Io.KnownBytes.{Appends};
ghost use Rattle.scsi_disk.specs.Disk.{most_blocks};
ghost use Rattle.iscsi_stream.specs.declared.fault.ToolFault.TheVariants as tool;
ghost use Rattle.iscsi_words.specs.Jobs.{CanWork};
ghost use Rattle.iscsi_tool.specs.Captures.{AnswersCaptured, NormalisesCaptured, ShowsCaptured, TellsCaptured, WritesCapture};
ghost use Rattle.iscsi_tool.specs.inner.Capturing.{not_opened, not_read};

use crate::answering::answer;
use crate::local_zone::LocalZone;
use iscsi_captures::{
    CaptureFile, CapturesFault, End, Recording, Showing, Undigested, Wanted, list_connections,
    normalise_captured, show_capture, show_captured, tell_captured,
};
use iscsi_explain::Form;
use iscsi_stream::ToolFault;
use iscsi_words::{CaptureJob, CaptureWork, named};
use std::alloc::{AllocError, Global};
use std::io::{ErrorKind, Read, Write};

/// Runs a job over the files of a capture, and leaves the number of the one that a fault is told of. A
/// file that cannot be opened is absent, not permitted, or one that cannot be read.
pub(crate) fn run_capture<W: Write>(
    rt: &HostRuntime,
    job: CaptureJob<'_>,
    names: &[&str],
    told: &mut usize,
    w: &mut W,
) -> Result<(), CapturesFault>
    requires work { CanWork job.work }
    ensures writes { (written : List ℕ) × Appends (W.contents w.old) (W.contents w.new) written
        × WritesCapture job.entry.work result written }
{
    let mut input = match Recording::open(rt, names) {
        Ok(input) => input,
        Err(unopened) => {
            *told = unopened.file;
            return Err(unopened.fault);
        }
    };
    capture_from(rt, job, names, told, &mut input, w)
}

/// Why a file is not opened, by the kind of the system's error.
pub(crate) fn not_opened(kind: ErrorKind) -> CapturesFault
    ensures { result ≡ not_opened kind }
{
    match kind {
        ErrorKind::NotFound => CapturesFault::Absent,
        ErrorKind::PermissionDenied => CapturesFault::NotPermitted,
        _ => CapturesFault::Read,
    }
}

/// Why a read of a direction failed: the fault of the direction, or it was read as often as it may be.
pub(crate) fn not_read(fault: Option<CapturesFault>, connection: usize) -> CapturesFault
    ensures { result ≡ not_read fault connection }
{
    fault.unwrap_or(CapturesFault::Reads { connection })
}

// Runs a job over the capture that a reader gives.
#[tactic(auto, using(crate::proofs::RunningLemmas::writes_nothing, crate::proofs::RunningLemmas::wrote_none))]
fn capture_from<R: Read, W: Write>(
    rt: &HostRuntime,
    job: CaptureJob<'_>,
    names: &[&str],
    told: &mut usize,
    source: &mut R,
    w: &mut W,
) -> Result<(), CapturesFault>
    requires work { CanWork job.work }
    ensures writes { (written : List ℕ) × Appends (W.contents w.old) (W.contents w.new) written
        × WritesCapture job.entry.work result written }
{
    let alloc = rt.alloc();
    match job.work {
        CaptureWork::List => list_from(alloc, names.len(), told, source, w),
        CaptureWork::ShowAll { form, only, times } => {
            let Ok(names) = told_names(alloc, names) else {
                return Err(CapturesFault::NoMemory);
            };
            let local = LocalZone::read(rt, times);
            let zone = local.zone();
            let showing = Showing {
                form,
                only,
                times,
                zone: &zone,
                names: names.as_slice(),
            };
            show_all_from(rt, showing, told, source, w)
        }
        work => direction_from(alloc, work, names.len(), told, source, w),
    }
}

// The names of files in the lines of remarks.
fn told_names<'a>(alloc: Global, names: &[&'a str]) -> Result<Vec<&'a str>, AllocError> {
    let mut told = Vec::new(alloc);
    for name in names {
        told.push(named(name))?;
    }
    Ok(told)
}

// The lines of the connections of several files.
fn list_from<R: Read, W: Write>(
    alloc: Global,
    files: usize,
    told: &mut usize,
    source: &mut R,
    w: &mut W,
) -> Result<(), CapturesFault>
    ensures writes { (written : List ℕ) × Appends (W.contents w.old) (W.contents w.new) written }
{
    let Ok(mut file) = CaptureFile::of_files(alloc, files) else {
        return Err(CapturesFault::NoMemory);
    };
    let said = list_connections(alloc, &mut file, source, w);
    if let Err(fault) = &said {
        *told = file.file_of(fault);
    }
    said
}

// The PDUs of all connections that are shown.
fn show_all_from<R: Read, W: Write>(
    rt: &HostRuntime,
    showing: Showing<'_>,
    told: &mut usize,
    source: &mut R,
    w: &mut W,
) -> Result<(), CapturesFault>
    ensures writes { (written : List ℕ) × Appends (W.contents w.old) (W.contents w.new) written }
{
    let alloc = rt.alloc();
    let Ok(mut file) = CaptureFile::of_files(alloc, showing.names.len()) else {
        return Err(CapturesFault::NoMemory);
    };
    let said = show_capture(alloc, showing, &mut file, source, w, &mut rt.stderr());
    if let Err(fault) = &said {
        *told = file.file_of(fault);
    }
    said
}

// A job over one direction of several files.
#[tactic(auto, using(crate::proofs::RunningLemmas::writes_nothing, crate::proofs::RunningLemmas::wrote_none))]
fn direction_from<R: Read, W: Write>(
    alloc: Global,
    work: CaptureWork,
    files: usize,
    told: &mut usize,
    source: &mut R,
    w: &mut W,
) -> Result<(), CapturesFault>
    requires work { CanWork work }
    ensures writes { (written : List ℕ) × Appends (W.contents w.old) (W.contents w.new) written
        × WritesCapture work result written }
{
    let Ok(mut direction) = Undigested::new(alloc, files, source, wanted_of(work)) else {
        return Err(CapturesFault::NoMemory);
    };
    let said = run_direction(alloc, work, &mut direction, w);
    if let Err(fault) = &said {
        *told = direction.file_of(fault);
    }
    said
}

// The direction that a job reads.
fn wanted_of(work: CaptureWork) -> Wanted {
    match work {
        CaptureWork::Show(wanted) | CaptureWork::Tell(wanted, _) | CaptureWork::Normalise(wanted) =>
            wanted,
        CaptureWork::Answer { connection, .. } => Wanted {
            connection,
            end: End::Initiator,
        },
        CaptureWork::List | CaptureWork::ShowAll { .. } => Wanted {
            connection: 0,
            end: End::Initiator,
        },
    }
}

// Runs a job over a direction. One over all of a capture does nothing.
#[tactic(auto, using(crate::proofs::RunningLemmas::writes_nothing, crate::proofs::RunningLemmas::wrote_none))]
fn run_direction<R: Read, W: Write>(
    alloc: Global,
    work: CaptureWork,
    direction: &mut Undigested<'_, R>,
    w: &mut W,
) -> Result<(), CapturesFault>
    requires work { CanWork work }
    ensures writes { (written : List ℕ) × Appends (W.contents w.old) (W.contents w.new) written
        × WritesCapture work result written }
{
    match work {
        CaptureWork::Show(_) => show_from(alloc, direction, w),
        CaptureWork::Tell(_, form) => tell_from(alloc, direction, form, w),
        CaptureWork::Normalise(_) => normalise_from(alloc, direction, w),
        CaptureWork::Answer { connection, blocks } => {
            answer_from(alloc, direction, connection, blocks, w)
        }
        CaptureWork::List => Ok(()),
        CaptureWork::ShowAll { .. } => Ok(()),
    }
}

// The lines of one direction of a capture.
fn show_from<R: Read, W: Write>(
    alloc: Global,
    direction: &mut Undigested<'_, R>,
    w: &mut W,
) -> Result<(), CapturesFault>
    ensures writes { (written : List ℕ) × Appends (W.contents w.old) (W.contents w.new) written
        × ShowsCaptured result written }
{
    show_captured(alloc, direction, w)
}

// The canonical stream of one direction of a capture.
fn normalise_from<R: Read, W: Write>(
    alloc: Global,
    direction: &mut Undigested<'_, R>,
    w: &mut W,
) -> Result<(), CapturesFault>
    ensures writes { (written : List ℕ) × Appends (W.contents w.old) (W.contents w.new) written
        × NormalisesCaptured result written }
{
    normalise_captured(alloc, direction, w)
}

// The PDUs of one direction of a capture, each in a form.
fn tell_from<R: Read, W: Write>(
    alloc: Global,
    direction: &mut Undigested<'_, R>,
    form: Form,
    w: &mut W,
) -> Result<(), CapturesFault>
    ensures writes { (written : List ℕ) × Appends (W.contents w.old) (W.contents w.new) written
        × TellsCaptured form result written }
{
    tell_captured(alloc, form, direction, w)
}

// The answers of a target to the initiator's side of a connection of a capture.
fn answer_from<R: Read, W: Write>(
    alloc: Global,
    direction: &mut Undigested<'_, R>,
    connection: usize,
    blocks: u64,
    w: &mut W,
) -> Result<(), CapturesFault>
    requires some { 0 < blocks }
    requires few { blocks ≤ most_blocks }
    ensures writes { (written : List ℕ) × Appends (W.contents w.old) (W.contents w.new) written
        × AnswersCaptured blocks result written }
{
    let said = answer(alloc, blocks, direction, w);
    answered(said, direction.fault(), connection)
}

// How answering a direction ended. A read fails if the direction has a fault, and tells it.
fn answered(
    said: Result<(), ToolFault>,
    fault: Option<CapturesFault>,
    connection: usize,
) -> Result<(), CapturesFault>
    ensures ok { IsOk result → IsOk said }
    ensures read { said ≡ Err tool.Read → result ≡ Err (not_read fault connection) }
{
    match said {
        Ok(()) => Ok(()),
        Err(ToolFault::Stream(fault)) => Err(CapturesFault::Stream { connection, fault }),
        Err(ToolFault::Protocol(rule)) => Err(CapturesFault::Protocol { connection, rule }),
        Err(ToolFault::NoMemory) => Err(CapturesFault::NoMemory),
        Err(ToolFault::Write) => Err(CapturesFault::Write),
        Err(_) => Err(not_read(fault, connection)),
    }
}
