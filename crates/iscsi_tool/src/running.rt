//! The body of the program: it runs the job that words ask for. One file, since each job ends in
//! one of the same outcomes.

ghost use Rattle.std.specs.Prelude.{◌≡◌, ℕ, List, IfOk, IfErr, map, string_bytes};
ghost use Rattle.std.specs.Io.KnownBytes.{Appends, Consumes};
ghost use Rattle.iscsi_tool.specs.declared.running.Outcome.{Outcome};
ghost use Rattle.iscsi_serve_words.specs.Words.{words_status};
ghost use Rattle.iscsi_words.specs.Jobs.{CanWork, IsJob, SaysWords};
ghost use Rattle.iscsi_tool.specs.Running.{EndsCapture, EndsComparison, JobRuns, RunsWords, TellsWords, of_capture, of_captures, of_comparison, of_filter, of_service, of_session, outcome_status};

use crate::capture_comparing::run_comparison;
use crate::capturing::run_capture;
use crate::filtering::run_filter;
use crate::telling::run_telling;
use iscsi_captures::CapturesFault;
use iscsi_compare::Verdict;
use iscsi_comparison::{Comparison, ComparisonFault};
use iscsi_disk_service::{DiskFault, serve_storage};
use iscsi_filters::status;
use iscsi_loop::run_loop;
use iscsi_serve_words::LineFault;
use iscsi_serving::ServeFault;
use iscsi_stream::{ToolFault, write_fully};
use iscsi_words::{
    CaptureComparison, CaptureComparisonFault, CaptureJob, Job, capture_names, read_words,
};
use std::convert::AsStr;
use std::io;
use std::io::{Read, Write};

/// How a run of the program ends.
#[derive(Debug, Drop)]
pub enum Outcome<'a> {
    /// The job is done. Two streams that were compared are the same.
    Done,
    /// The two streams differ.
    Differ,
    /// The words ask for no job: they are none, or ask for help, which was written.
    Words(LineFault),
    /// A filter stopped.
    Filter(ToolFault),
    /// A service stopped.
    Service(DiskFault<'a>),
    /// A loop stopped.
    Session(ServeFault),
    /// A comparison stopped.
    Comparison(Comparison<'a>, ComparisonFault),
    /// A job over a capture stopped.
    Capture(CaptureJob<'a>, CapturesFault),
    /// A comparison of two captures stopped.
    CaptureComparison(CaptureComparison<'a>, CaptureComparisonFault),
}

impl Outcome<'_> {
    /// The exit status is 0 if the job is done or help is written, and 1 if input is refused or two
    /// streams differ. It is 2 for words that are no job, 3 for memory, and 4 for reading, writing,
    /// files and the network.
    pub fn status(&self) -> u8
        ensures status { result ≡ outcome_status self.now }
    {
        match self {
            Outcome::Done => 0,
            Outcome::Differ => 1,
            Outcome::Words(fault) => fault.status(),
            Outcome::Filter(fault) => status(fault),
            Outcome::Service(fault) => fault.status(),
            Outcome::Session(fault) => fault.status(),
            Outcome::Comparison(_, fault) => fault.status(),
            Outcome::Capture(_, fault) => fault.status(),
            Outcome::CaptureComparison(_, fault) => fault.status(),
        }
    }

    // Writes what there is to say: the usage, or the fault's line. The line of a fault of an input
    // names the file. Help is no fault.
    fn tell<E: Write>(&self, w: &mut E) -> io::Result<()> {
        match self {
            Outcome::Done | Outcome::Differ | Outcome::Words(LineFault::Help(_)) => Ok(()),
            Outcome::Words(fault) => fault.tell(w),
            Outcome::Filter(fault) => writeln!(w, "{fault}"),
            Outcome::Service(fault) => fault.tell(w),
            Outcome::Session(fault) => writeln!(w, "{fault}"),
            Outcome::Comparison(comparison, fault) => comparison.tell(*fault, w),
            Outcome::Capture(job, fault) => tell_capture(*job, *fault, w),
            Outcome::CaptureComparison(comparison, fault) => tell_captures(*comparison, *fault, w),
        }
    }
}

// Writes the line of a job over a capture that stopped.
fn tell_capture<E: Write>(job: CaptureJob<'_>, fault: CapturesFault, w: &mut E) -> io::Result<()> {
    match job.blamed(fault) {
        Some(name) => writeln!(w, "{name}: {fault}")?,
        None => writeln!(w, "{fault}")?,
    }
    match (fault, job.typed()) {
        (CapturesFault::Gzip, Some(typed)) => {
            let file = job.file;
            writeln!(
                w,
                "put - for the file: gzip -dc {file} | ./lanthovur {typed}"
            )
        }
        _ => Ok(()),
    }
}

// Writes the line of a comparison of two captures that stopped.
fn tell_captures<E: Write>(
    comparison: CaptureComparison<'_>,
    stopped: CaptureComparisonFault,
    w: &mut E,
) -> io::Result<()> {
    let fault = stopped.fault;
    match comparison.blamed(stopped) {
        Some(name) => writeln!(w, "{name}: {fault}"),
        None => writeln!(w, "{fault}"),
    }
}

/// Runs the job of a command line as `run_words` does. Or tells why its words could not be read,
/// for example because they are not UTF-8: such words ask for no job. Returns the exit status.
pub fn run_read<R: Read, W: Write, E: Write>(
    rt: &HostRuntime,
    words: &Result<Vec<String>, LineFault>,
    r: &mut R,
    w: &mut W,
    errors: &mut E,
) -> u8
    ensures runs { IfOk words.now (λ words. (outcome : Outcome) × (read : List ℕ) × (written : List ℕ)
        × Consumes (R.remaining r.old) (R.remaining r.new) read
        × Appends (W.contents w.old) (W.contents w.new) written
        × RunsWords words.items (map string_bytes words.items) outcome read (R.remaining r.new) written
        × (result ≡ outcome_status outcome)) }
    // Without words nothing is read or written.
    ensures unread { IfErr words.now (λ fault. (result ≡ words_status fault)
        × (R.remaining r.new ≡ R.remaining r.old) × (W.contents w.new ≡ W.contents w.old)) }
{
    match words {
        Ok(words) => run_words(rt, words.as_slice(), r, w, errors),
        Err(fault) => {
            let _ = fault.tell(errors);
            fault.status()
        }
    }
}

/// Runs the job that words ask for, from a reader to a writer, and returns the exit status. Help goes
/// to the writer, too. The lines of faults and usage go to the third stream; a write there that fails
/// changes nothing.
///
/// A service prints `listening`, and the lines of its sessions' faults, to the standard streams of
/// the process. Files are those of the process, too, and so is the standard input of a capture.
pub fn run_words<S: AsStr, R: Read, W: Write, E: Write>(
    rt: &HostRuntime,
    words: &[S],
    r: &mut R,
    w: &mut W,
    errors: &mut E,
) -> u8
    // The status is that of the outcome of the job that the words ask for.
    ensures runs { (outcome : Outcome) × (read : List ℕ) × (written : List ℕ)
        × Consumes (R.remaining r.old) (R.remaining r.new) read
        × Appends (W.contents w.old) (W.contents w.new) written
        × RunsWords words.now (map S.text words.now) outcome read (R.remaining r.new) written
        × (result ≡ outcome_status outcome) }
{
    let outcome = run(rt, words, r, w);
    concluded(&outcome, errors)
}

// Tells an outcome, and returns its status.
fn concluded<E: Write>(outcome: &Outcome<'_>, errors: &mut E) -> u8
    ensures status { result ≡ outcome_status outcome.now }
{
    let _ = outcome.tell(errors);
    outcome.status()
}

// How the run of a command line ends.
#[tactic(auto, using(crate::proofs::RunningLemmas::reads_nothing, crate::proofs::RunningLemmas::writes_nothing))]
fn run<'a, S: AsStr, R: Read, W: Write>(
    rt: &HostRuntime,
    words: &'a [S],
    r: &mut R,
    w: &mut W,
) -> Outcome<'a>
    ensures runs { (read : List ℕ) × (written : List ℕ)
        × Consumes (R.remaining r.old) (R.remaining r.new) read
        × Appends (W.contents w.old) (W.contents w.new) written
        × RunsWords words.now (map S.text words.now) result read (R.remaining r.new) written }
{
    match read_words(rt.alloc(), words) {
        Ok(job) => run_job(rt, words, job, r, w),
        Err(fault) => unasked(fault, w),
    }
}

// How words end that ask for no job: help is written.
#[tactic(auto, using(crate::proofs::RunningLemmas::writes_nothing))]
fn unasked<'a, W: Write>(fault: LineFault, w: &mut W) -> Outcome<'a>
    ensures tells { (written : List ℕ) × Appends (W.contents w.old) (W.contents w.new) written
        × TellsWords fault result written }
{
    if let LineFault::Help(text) = &fault {
        if let Err(stopped) = write_fully(w, text.as_bytes()) {
            return Outcome::Filter(stopped);
        }
    }
    Outcome::Words(fault)
}

// How a job ends that these words ask for.
#[tactic(auto, using(crate::proofs::RunningLemmas::reads_nothing, crate::proofs::RunningLemmas::writes_nothing))]
fn run_job<'a, S: AsStr, R: Read, W: Write>(
    rt: &HostRuntime,
    words: &'a [S],
    job: Job<'a>,
    r: &mut R,
    w: &mut W,
) -> Outcome<'a>
    requires job { IsJob job }
    requires says { SaysWords (map S.text words.now) job }
    ensures runs { (read : List ℕ) × (written : List ℕ)
        × Consumes (R.remaining r.old) (R.remaining r.new) read
        × Appends (W.contents w.old) (W.contents w.new) written
        × JobRuns job.entry result read (R.remaining r.new) written }
{
    match job {
        Job::Filter(filter) => filtered(run_filter(rt.alloc(), filter, r, w)),
        Job::Serve(job) => served(serve_storage(rt, words, job)),
        Job::Loop { blocks, piece } => ended(run_loop(rt, blocks, piece, r, w)),
        Job::Compare(comparison) => compare(rt, comparison, r, w),
        Job::Tell(telling) => filtered(run_telling(rt.alloc(), telling, r, w)),
        Job::Capture(capture) => capture_over(rt, words, capture, w),
        Job::CompareCaptures(comparison) => {
            compared_captures(comparison, run_comparison(rt, comparison, w))
        }
    }
}

// The outcome of a filter.
fn filtered<'a>(said: Result<(), ToolFault>) -> Outcome<'a>
    ensures outcome { result ≡ of_filter said }
{
    match said {
        Ok(()) => Outcome::Done,
        Err(fault) => Outcome::Filter(fault),
    }
}

// Runs a job over the files of a capture that these words name.
#[tactic(auto, using(crate::proofs::RunningLemmas::writes_nothing, crate::proofs::RunningLemmas::wrote_none, crate::proofs::RunningLemmas::told_itself, crate::proofs::RunningLemmas::ends_capture))]
fn capture_over<'a, S: AsStr, W: Write>(
    rt: &HostRuntime,
    words: &'a [S],
    job: CaptureJob<'a>,
    w: &mut W,
) -> Outcome<'a>
    requires work { CanWork job.work }
    ensures ends { (written : List ℕ) × Appends (W.contents w.old) (W.contents w.new) written
        × EndsCapture job.entry result written }
{
    let Ok(names) = capture_names(rt.alloc(), words, job) else {
        return captured(job, Err(CapturesFault::NoMemory));
    };
    let mut told = 0;
    let said = run_capture(rt, job, names.as_slice(), &mut told, w);
    captured(job.over(names.as_slice(), told), said)
}

// The outcome of a job over a capture.
fn captured(job: CaptureJob<'_>, said: Result<(), CapturesFault>) -> Outcome<'_>
    ensures outcome { result ≡ of_capture job.entry said }
{
    match said {
        Ok(()) => Outcome::Done,
        Err(fault) => Outcome::Capture(job, fault),
    }
}

// The outcome of a service.
fn served(said: Result<(), DiskFault<'_>>) -> Outcome<'_>
    ensures outcome { result ≡ of_service said.entry }
{
    match said {
        Ok(()) => Outcome::Done,
        Err(fault) => Outcome::Service(fault),
    }
}

// The outcome of a loop.
fn ended<'a>(said: Result<(), ServeFault>) -> Outcome<'a>
    ensures outcome { result ≡ of_session said }
{
    match said {
        Ok(()) => Outcome::Done,
        Err(fault) => Outcome::Session(fault),
    }
}

// The outcome of a comparison.
fn compared(comparison: Comparison<'_>, said: Result<Verdict, ComparisonFault>) -> Outcome<'_>
    ensures outcome { result ≡ of_comparison comparison.entry said }
{
    match said {
        Ok(Verdict::Same) => Outcome::Done,
        Ok(Verdict::Differ { .. }) => Outcome::Differ,
        Err(fault) => Outcome::Comparison(comparison, fault),
    }
}

// The outcome of a comparison of two captures.
fn compared_captures(
    comparison: CaptureComparison<'_>,
    said: Result<Verdict, CaptureComparisonFault>,
) -> Outcome<'_>
    ensures outcome { result ≡ of_captures comparison.entry said }
{
    match said {
        Ok(Verdict::Same) => Outcome::Done,
        Ok(Verdict::Differ { .. }) => Outcome::Differ,
        Err(fault) => Outcome::CaptureComparison(comparison, fault),
    }
}

// Compares a file with another one, or with what a reader gives.
fn compare<'a, R: Read, W: Write>(
    rt: &HostRuntime,
    comparison: Comparison<'a>,
    r: &mut R,
    w: &mut W,
) -> Outcome<'a>
    ensures ends { (read : List ℕ) × (written : List ℕ)
        × Consumes (R.remaining r.old) (R.remaining r.new) read
        × Appends (W.contents w.old) (W.contents w.new) written
        × EndsComparison comparison.entry result read (R.remaining r.new) written }
{
    compared(comparison, comparison.run(rt, r, w))
}
