//! Laws over gap plans.

ghost use Rattle.bound_tree.specs.GapLaws.{PrefixCeilingIsAbove, CeilingIsAbove, CeilingSize, EdgeCeilingSize, GapOfNoneWaiting, NoneWaitingIsBest, PlanIsGapPlan, MetCeilingIsBest};

/// No path finds more than the ceiling of a gap plan that is accepted, and none that extends a prefix more than the
/// ceiling of the prefix.
#[tactic(auto, using(crate::proofs::Ceilings::ceiling_is_above, crate::proofs::Leaves::prefix_ceiling_is_above))]
pub fn ceiling_is_above()
    ensures plan { CeilingIsAbove }
    ensures prefix { PrefixCeilingIsAbove }
{}

/// The ceiling of a gap plan that is accepted is at least its value, and at most `(T+1)·W`, or `W` with edge bounds.
pub fn ceiling_size()
    ensures size { CeilingSize }
    ensures edges { EdgeCeilingSize }
{}

/// A gap plan in which no node waits is accepted exactly where the plan of its records is and its ceiling is its value,
/// and its path is then the best; and a plan is accepted exactly where it is as such a gap plan.
pub fn gap_of_none_waiting()
    ensures accepted { GapOfNoneWaiting }
    ensures best { NoneWaitingIsBest }
    ensures plan { PlanIsGapPlan }
{}

/// Where the ceiling of a gap plan that is accepted is its value, no path finds more than its path.
#[tactic(auto, using(crate::proofs::Ceilings::met_ceiling_is_best))]
pub fn met_ceiling_is_best()
    ensures { MetCeilingIsBest }
{}

ghost use Rattle.bound_tree.specs.WorkedGap.{WorkedGaps};

/// The gap plans of small problems, worked by hand.
pub fn worked_gaps()
    ensures { WorkedGaps }
{}
