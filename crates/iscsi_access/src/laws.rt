//! Laws of the exchange: functions that do nothing, whose contracts are the theorems.

ghost use Rattle.std.specs.Prelude.{◌≡◌, ◌⊎◌, ℕ, List};
ghost use Rattle.iscsi_text.specs.Text.{Pairs};
ghost use Rattle.iscsi_access.specs.Chap.{Chap};
ghost use Rattle.iscsi_access.specs.Exchange.{judge};
ghost use Rattle.iscsi_access.specs.Initiator.{Credentials, SuitsCredentials};
ghost use Rattle.iscsi_access.specs.Laws.{AnswersStep, CompletesExchange};
ghost use Rattle.iscsi_access.specs.declared.verdict.Progress.{Progress};
ghost use Rattle.iscsi_access.specs.declared.verdict.Said.{Said};
ghost use Rattle.iscsi_access.specs.declared.verdict.Progress.TheVariants as progress;
ghost use Rattle.iscsi_access.specs.declared.verdict.Verdict.TheVariants.{Goes};

/// The exchange is passed only by a text that has the name of an account which the initiator may
/// use, and the response that this account's secret gives to the challenge of this login by the
/// algorithm that was chosen. Behind that it stays passed.
pub fn passed_by_response()
    ensures passed { (c : Chap) (before : Progress) (initiator : List ℕ)
        (pairs : Pairs) (said : Said)
        → judge c before initiator pairs ≡ Goes progress.Passed said
        → (before ≡ progress.Passed) ⊎ AnswersStep c before initiator pairs }
{}

/// Both ends with one secret complete the exchange, whichever of the two algorithms the initiator
/// offers, and in whichever order: its texts are answered in turn, the first algorithm that it offers
/// is taken, the last text passes, and the target has proved who it is where the initiator demands it.
pub fn one_secret_completes()
    ensures completes { (c : Chap) (k : Credentials) → SuitsCredentials c k
        → CompletesExchange c k }
{}
