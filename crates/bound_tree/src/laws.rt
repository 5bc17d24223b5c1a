//! Laws over the definitions.

ghost use Rattle.bound_tree.specs.BoundLaws.{MeanIsAbove, LooksAreConvex, TangentIsAbove, TangentGrows};
ghost use Rattle.bound_tree.specs.CutLaws.{CutStays, FinerCutStays, UncutAbove, ClosedStays, MeanStays, BranchedBefore, ClosesOnce, ClosedIsGood};
ghost use Rattle.bound_tree.specs.Eat.{EatenByEither};
ghost use Rattle.bound_tree.specs.EdgeLaws.{EdgeIsAbove, EdgeIsWithinMean};
ghost use Rattle.bound_tree.specs.ExchangeLaws.{ExchangeRulesOut};
ghost use Rattle.bound_tree.specs.Laws.{AcceptedIsBest};
ghost use Rattle.bound_tree.specs.MemoryLaws.{RememberingIsAbove, MoreIsLess, RememberingNone, RememberingOne, RememberingAll};
ghost use Rattle.bound_tree.specs.Places.{EatenIsPlacedAndGood, EatenAreInPlace};
ghost use Rattle.bound_tree.specs.SameLaws.{SameEitherWay, SameIsAlike, SameAccepts, SameCloses, SameLive, SameHasMoreLive};

/// Record by record, or by the list of expected prefixes: the same records are eaten whole.
#[tactic(auto, using(crate::proofs::EatLemmas::eaten_either_way))]
pub fn eaten_by_either()
    ensures { EatenByEither }
{}

/// Records are eaten where each has the prefix that is expected, and each is good in itself.
#[tactic(auto, using(crate::proofs::Placing::eaten_is_placed_and_good))]
pub fn eaten_is_placed_and_good()
    ensures { EatenIsPlacedAndGood }
{}

/// Records that are eaten have the prefixes that are expected where a text leaves them out.
#[tactic(auto, using(crate::proofs::Placing::eaten_are_in_place))]
pub fn eaten_are_in_place()
    ensures { EatenAreInPlace }
{}

/// The path of an accepted plan is the best.
#[tactic(auto, using(crate::proofs::Accepted::accepted_plan_is_best))]
pub fn accepted_is_best()
    ensures { AcceptedIsBest }
{}

/// No path finds more than the mean bound of a prefix that it extends (Martins 1993).
#[tactic(auto, using(crate::proofs::MeanBound::mean_is_above))]
pub fn mean_is_above()
    ensures { MeanIsAbove }
{}

/// What looks at one rate miss of a target is convex in the number of looks that cover it.
#[tactic(auto, using(crate::proofs::Convex::looks_are_convex))]
pub fn looks_are_convex()
    ensures { LooksAreConvex }
{}

/// At one rate the tangent bound of a prefix is no less than what each path that extends it finds, times the look
/// denominator.
#[tactic(auto, using(crate::proofs::TangentBound::tangent_is_above))]
pub fn tangent_is_above()
    ensures { TangentIsAbove }
{}

/// Of two prefixes of a path, the tangent bound of the longer one at that path is no more than that of the shorter one.
pub fn tangent_grows()
    ensures { TangentGrows }
{}

/// A bound that is no less than one that a standing doesn't cut isn't cut, either.
#[tactic(auto, using(crate::proofs::Longer::uncut_above))]
pub fn uncut_above()
    ensures { UncutAbove }
{}

/// What a standing cuts, every better standing cuts, also in finer parts, with which a tangent is compared.
#[tactic(auto, using(crate::proofs::Closing::cut_stays, crate::proofs::Closing::finer_cut_stays))]
pub fn cut_stays()
    ensures whole { CutStays }
    ensures finer { FinerCutStays }
{}

/// What is closed by a bound, its mean, its tangent, its edge or an exchange bound, is closed by one under better standings, by the
/// mean bound if it was that, and what branches under a standing branched under the worse ones.
#[tactic(auto, using(crate::proofs::Closing::closed_stays, crate::proofs::Closing::mean_stays))]
pub fn closed_stays()
    ensures stays { ClosedStays }
    ensures mean { MeanStays }
    ensures before { BranchedBefore }
{}

/// Under a standing each legal prefix is closed in exactly one way.
#[tactic(auto, using(crate::proofs::Closing::closes_once))]
pub fn closes_once()
    ensures { ClosesOnce }
{}

/// What is closed under a standing is good in itself under that standing and every better one, where it isn't a whole
/// path that is better still.
pub fn closed_is_good()
    ensures { ClosedIsGood }
{}

/// The edge bound of a prefix is no less than what each path that extends it finds, and no more than its mean bound.
#[tactic(auto, using(crate::proofs::Remembered::edge_is_above, crate::proofs::Remembered::edge_is_within_mean))]
pub fn edge_is_between()
    ensures above { EdgeIsAbove }
    ensures within { EdgeIsWithinMean }
{}

/// The bounds that remember looks: none is less than what a path that extends the prefix finds, and the one that remembers
/// more is no more. The mean bound remembers none, the edge bound one, and the bound that remembers all is what some path
/// finds.
#[tactic(auto, using(crate::proofs::Remembered::remembering_is_above, crate::proofs::Remembered::more_is_less, crate::proofs::Remembered::remembering_none, crate::proofs::Remembered::remembering_one, crate::proofs::Remembered::remembering_all))]
pub fn remembering_is_between()
    ensures above { RememberingIsAbove }
    ensures less { MoreIsLess }
    ensures none { RememberingNone }
    ensures one { RememberingOne }
    ensures all { RememberingAll }
{}

/// No best path begins with a prefix for which another stands in: whatever goes on from both, the other makes the better
/// path.
#[tactic(auto, using(crate::proofs::Exchange::exchange_rules_out))]
pub fn exchange_rules_out()
    ensures { ExchangeRulesOut }
{}

/// Scenarios that are the same search have the same values, bounds, opening and best path, and a plan that is accepted
/// for one is accepted for the other.
pub fn same_search_same_plans()
    ensures either_way { SameEitherWay }
    ensures alike { SameIsAlike }
    ensures accepted { SameAccepts }
{}

/// Under a standing they close the same prefixes in the same way, so they have as many live ones.
pub fn same_search_same_live()
    ensures closed { SameCloses }
    ensures live { SameLive }
    ensures more { SameHasMoreLive }
{}
