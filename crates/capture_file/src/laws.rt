//! Laws of capture files: functions that do nothing, whose contracts are the theorems. They speak of
//! the definitions in `specs`, which the contract of `Capture::step` cites too.

ghost use Rattle.std.specs.Prelude.{◌≡◌, ◌≢◌, ◌<◌, ◌≤◌, ◌++◌, ℕ, List, length};
ghost use Rattle.capture_file.specs.Records.{IsPartRecord, IsWholeRecord};
ghost use Rattle.capture_file.specs.declared.numbers.Order.{Order};
ghost use Rattle.capture_file.specs.Blocks.{FileFailsAt, FileReading, StepAt, most_asked};
ghost use Rattle.capture_file.specs.declared.fault.CaptureFault.{CaptureFault};
ghost use Rattle.capture_file.specs.declared.fault.CaptureFault.TheVariants.{NoMemory};
ghost use Rattle.capture_file.specs.declared.packet.Step.{Step};
ghost use Rattle.capture_file.specs.declared.packet.Step.TheVariants.{More};

/// A broken file stays broken, whatever follows: a fault comes only where neither the bytes at hand
/// nor any continuation of them begin with what the tables have. Memory that ran out is apart.
pub fn a_broken_file_stays_broken()
    ensures stays { (old : FileReading) (bytes more : List ℕ) (fault : CaptureFault)
        → fault ≢ NoMemory → FileFailsAt old bytes fault → FileFailsAt old (bytes ++ more) fault }
    ensures excludes { (old new : FileReading) (bytes : List ℕ) (fault : CaptureFault) (step : Step)
        → fault ≢ NoMemory → FileFailsAt old bytes fault → StepAt old bytes new step → ⊥ }
{}

/// More bytes are asked for only where fewer are at hand, and never more than the longest record
/// has: a buffer of that length is enough. The state stays.
pub fn a_step_asks_for_no_more_than_a_record()
    ensures { (old new : FileReading) (bytes : List ℕ) (n : ℕ) → StepAt old bytes new (More n)
        → (length bytes < n) × (n ≤ most_asked) × (new ≡ old) }
{}

/// A record of a classic file whose head is at hand is asked for only if the record can be whole.
/// Some continuation has all bytes of the record, and then the record is read.
pub fn a_record_that_is_begun_can_be_whole()
    ensures { (order : Order) (bytes : List ℕ) (n : ℕ) → IsPartRecord order bytes n
        → 16 ≤ length bytes → (more : List ℕ) × IsWholeRecord order (bytes ++ more) n }
{}
