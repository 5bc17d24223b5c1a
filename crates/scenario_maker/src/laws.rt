//! What holds of every made scenario.

ghost use Rattle.scenario_maker.specs.Laws.{DrawsWithinBounds, MadeIsProblem, FewPrefixes, FewMadePrefixes};
ghost use Rattle.scenario_maker.specs.Worked.{WorkedDraws};

/// There are as many draws as bounds, and each is below its bound.
pub fn draws_within_bounds()
    ensures { DrawsWithinBounds }
{}

/// What is made from a number keeps all that a scenario keeps, so no part of it can be refused.
pub fn made_is_problem()
    ensures { MadeIsProblem }
{}

/// Where no position has more than `m` moves, there are at most `1 + m + .. + m ^ T` legal prefixes.
pub fn few_prefixes()
    ensures { FewPrefixes }
{}

/// A made scenario has at most 488,281 legal prefixes, fewer than the nodes that a plan may have.
pub fn few_made_prefixes()
    ensures { FewMadePrefixes }
{}

/// What is drawn for 0, 1, 2 ^ 63 and 2 ^ 64 - 1.
pub fn worked_draws()
    ensures { WorkedDraws }
{}
