//! What the two halves of the program say of each other.

ghost use Rattle.plan_command.specs.Laws.{PlannedIsAccepted, PlannedBehindCanonical, PlannedBehindInput, PlannedIsWithin, PlannedIsWithinBehindInput, GappedIsAccepted, GappedBehindCanonical, GappedBehindInput, GappedIsWithin, GappedIsWithinBehindInput};

/// What `plan` writes for a scenario is accepted by `check` behind any text of a scenario that is the same search, so also
/// behind the canonical text, and behind the very text that was read; and `check` reads it whole there.
pub fn what_is_planned_is_accepted()
    ensures accepted { PlannedIsAccepted }
    ensures canonical { PlannedBehindCanonical }
    ensures input { PlannedBehindInput }
    ensures within { PlannedIsWithin }
    ensures within_input { PlannedIsWithinBehindInput }
{}

/// So it is of what `gap` writes, by `checkgap`.
pub fn what_is_gapped_is_accepted()
    ensures accepted { GappedIsAccepted }
    ensures canonical { GappedBehindCanonical }
    ensures input { GappedBehindInput }
    ensures within { GappedIsWithin }
    ensures within_input { GappedIsWithinBehindInput }
{}
