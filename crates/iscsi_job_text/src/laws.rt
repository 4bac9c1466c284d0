//! Laws of the definitions: functions that do nothing, whose contracts are the theorems.

ghost use Rattle.std.specs.Prelude.{◌≡◌, ◌++◌, Bool, List, ℕ, Some, false};
ghost use Rattle.iscsi_job_text.specs.declared.entry.Entry.{Entry};
ghost use Rattle.iscsi_job_text.specs.Jobs.{EndsLine, requests_meant};

/// A text that ends with a line end, and another one behind it, mean the requests of both, one after the
/// other, if the second alone names no form.
pub fn job_of_both()
    ensures both { (first : Bool) (front back : List ℕ) (some more : List Entry) → EndsLine front
        → requests_meant first front ≡ Some some → requests_meant false back ≡ Some more
        → requests_meant first (front ++ back) ≡ Some (some ++ more) }
{}
