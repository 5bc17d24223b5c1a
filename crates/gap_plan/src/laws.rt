//! What gap plans say of scenarios that are the same search.

ghost use Rattle.gap_plan.specs.Laws.{SameGapAccepts};

/// A gap plan that is accepted for a scenario is accepted for each that is the same search.
pub fn same_search_same_gap_plans()
    ensures { SameGapAccepts }
{}
