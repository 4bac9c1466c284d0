//! How many steps the serial numbers of one run are before those of the other.

ghost use Rattle.std.specs.Prelude.{◌≡◌, option_map, if◌then◌else◌};
ghost use Rattle.iscsi_compare.specs.SameJob.{shifted};
ghost use Rattle.iscsi_compare.specs.inner.SameJobLearning.{IsSteps, LearnsAnswer};
/// Whether a number of the other run is as many steps after a number of this one as is known; if
/// none are known, they are from now on.
pub(crate) fn step(known: &mut Option<u32>, mine: u32, other: u32) -> bool
    ensures { LearnsAnswer (IsSteps known.old) (IsSteps known.new) (λ s. shifted s mine ≡ other)
        result }
{
    let steps = other.wrapping_sub(mine);
    match *known {
        Some(before) => before == steps,
        None => {
            *known = Some(steps);
            true
        }
    }
}

/// The same of numbers that are there in both runs or in neither.
pub(crate) fn step_some(known: &mut Option<u32>, mine: Option<u32>, other: Option<u32>) -> bool
    ensures { LearnsAnswer (IsSteps known.old) (IsSteps known.new)
        (λ s. option_map (shifted s) mine ≡ other) result }
{
    match (mine, other) {
        (None, None) => true,
        (Some(mine), Some(other)) => step(known, mine, other),
        (Some(_), None) => false,
        (None, Some(_)) => false,
    }
}

/// The same of numbers that count only if `counts` says so, and else are equal.
pub(crate) fn step_if(counts: bool, known: &mut Option<u32>, mine: u32, other: u32) -> bool
    ensures { LearnsAnswer (IsSteps known.old) (IsSteps known.new)
        (λ s. (if counts then shifted s mine else mine) ≡ other) result }
{
    if !counts {
        return mine == other;
    }
    step(known, mine, other)
}
