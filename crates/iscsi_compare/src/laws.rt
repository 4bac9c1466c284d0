//! Laws of verdicts: functions that do nothing, whose contracts are the theorems. They speak of the
//! definitions in `specs`, which the contract of `compare` cites too.

ghost use Rattle.std.specs.Prelude.{◌≡◌, ℕ, List, Some, Option, Ok, Err, ◌↔◌};
ghost use Rattle.std.specs.Io.KnownBytes.{IsAtEnd};
ghost use Rattle.iscsi_pdu.specs.Meaning.{AreBytes};
ghost use Rattle.iscsi_stream.specs.declared.fault.StreamFault.{StreamFault};
ghost use Rattle.iscsi_stream.specs.Stream.{Message, StreamMeans};
ghost use Rattle.iscsi_stream.specs.Canonical.{canon};
ghost use Rattle.iscsi_compare.specs.declared.fault.Which.{Which};
ghost use Rattle.iscsi_compare.specs.declared.fault.CompareFault.TheVariants as fault;
ghost use Rattle.iscsi_compare.specs.declared.verdict.Verdict.TheVariants as verdict;
ghost use Rattle.iscsi_compare.specs.Comparing.{ReadInput, GaveInput, ComparePost};
/// Of streams that were read to their ends, it is said that they are the same exactly if their
/// meanings are one, and exactly if their canonical streams are equal.
pub fn same_meaning()
    ensures meanings { (first second : ReadInput) (ms ns : List Message) → IsAtEnd first.left
        → IsAtEnd second.left → StreamMeans first.read ms → StreamMeans second.read ns
        → ComparePost (Ok verdict.Same) first second ↔ (ms ≡ ns) }
    ensures forms { (first second : ReadInput) (ms ns : List Message) → AreBytes first.read
        → AreBytes second.read → IsAtEnd first.left → IsAtEnd second.left
        → StreamMeans first.read ms → StreamMeans second.read ns
        → ComparePost (Ok verdict.Same) first second ↔ (canon ms ≡ canon ns) }
{}

/// A verdict on two streams of the profile says truly whether their meanings are one, and no fault
/// of a stream is returned. This holds if as much of the streams was read as was needed.
pub fn whole_streams()
    ensures same { (s t : List ℕ) (ms ns : List Message) (left other_left : Option (List ℕ))
        (first second : ReadInput) → GaveInput (Some s) left first
        → GaveInput (Some t) other_left second
        → StreamMeans s ms → StreamMeans t ns
        → ComparePost (Ok verdict.Same) first second → ms ≡ ns }
    ensures differ { (s t : List ℕ) (ms ns : List Message) (left other_left : Option (List ℕ))
        (first second : ReadInput) (place other_place : ℕ) → GaveInput (Some s) left first
        → GaveInput (Some t) other_left second
        → StreamMeans s ms → StreamMeans t ns
        → ComparePost (Ok (verdict.Differ place other_place)) first second → ms ≡ ns → ⊥ }
    ensures no_fault { (s t : List ℕ) (ms ns : List Message) (left other_left : Option (List ℕ))
        (first second : ReadInput) (which : Which) (f : StreamFault) → GaveInput (Some s) left first
        → GaveInput (Some t) other_left second → StreamMeans s ms → StreamMeans t ns
        → ComparePost (Err (fault.Stream which f)) first second → ⊥ }
{}
