//! Laws of two runs of one job: functions that do nothing, whose contracts are the theorems.

ghost use Rattle.std.specs.Prelude.{◌≡◌, ℕ, List, Option, Some, Ok, Err};
ghost use Rattle.iscsi_stream.specs.declared.fault.StreamFault.{StreamFault};
ghost use Rattle.iscsi_stream.specs.Stream.{Message, StreamMeans};
ghost use Rattle.iscsi_compare.specs.declared.fault.Which.{Which};
ghost use Rattle.iscsi_compare.specs.declared.fault.CompareFault.TheVariants as fault;
ghost use Rattle.iscsi_compare.specs.declared.verdict.Verdict.TheVariants as verdict;
ghost use Rattle.iscsi_compare.specs.Comparing.{ReadInput, GaveInput};
ghost use Rattle.iscsi_compare.specs.SameJob.{SameJob};
ghost use Rattle.iscsi_compare.specs.SameJobVerdict.{ComparesJobs};

/// Equal meanings are of one job; so each list of messages is of one job with itself.
pub fn equal_meanings()
    ensures { (ms ns : List Message) → ms ≡ ns → SameJob ms ns }
{}

/// Which of the two comes first makes no difference.
pub fn either_way()
    ensures { (ms ns : List Message) → SameJob ms ns → SameJob ns ms }
{}

/// Two that are of one job with a third are of one job.
pub fn through_a_third()
    ensures { (ms ns os : List Message) → SameJob ms ns → SameJob ns os → SameJob ms os }
{}

/// A verdict on two streams of the profile says truly whether they are of one job, and no fault of
/// a stream is returned. This holds if as much of the streams was read as was needed.
pub fn whole_runs()
    ensures same { (s t : List ℕ) (ms ns : List Message) (left other_left : Option (List ℕ))
        (first second : ReadInput) → GaveInput (Some s) left first
        → GaveInput (Some t) other_left second
        → StreamMeans s ms → StreamMeans t ns
        → ComparesJobs (Ok verdict.Same) first second → SameJob ms ns }
    ensures differ { (s t : List ℕ) (ms ns : List Message) (left other_left : Option (List ℕ))
        (first second : ReadInput) (place other_place : ℕ) → GaveInput (Some s) left first
        → GaveInput (Some t) other_left second → StreamMeans s ms → StreamMeans t ns
        → ComparesJobs (Ok (verdict.Differ place other_place)) first second → SameJob ms ns → ⊥ }
    ensures no_fault { (s t : List ℕ) (ms ns : List Message) (left other_left : Option (List ℕ))
        (first second : ReadInput) (which : Which) (f : StreamFault) → GaveInput (Some s) left first
        → GaveInput (Some t) other_left second → StreamMeans s ms → StreamMeans t ns
        → ComparesJobs (Err (fault.Stream which f)) first second → ⊥ }
{}
