//! Laws over the definitions.

ghost use Rattle.search_model.specs.Laws.{WeightsSum, NothingCutOff, WalksFollow, OneBest, OneLeastBest, OneRateIsRate, ContinuationsAre, MeanSize, TangentSize, NoTangentCutOff, MassesTogether, MeanRewardsAre, MissedBehind, RewardsByDrift};

/// The weights of all tracks sum to the total times the drift's denominators.
pub fn weights_sum()
    ensures { WeightsSum }
{}

/// No looks miss more than the whole weight, so no value is cut off at 0.
pub fn nothing_is_cut_off()
    ensures { NothingCutOff }
{}

/// The walks of a length are the lists of that length that follow the moves.
pub fn walks_follow()
    ensures { WalksFollow }
{}

/// The continuations of a legal prefix are the lists that go on from it to a path.
pub fn continuations_are()
    ensures { ContinuationsAre }
{}

/// A mean bound is at most the whole weight, once for each period and once more, and a tangent bound at most so much times
/// the look denominator.
pub fn bound_sizes()
    ensures mean { MeanSize }
    ensures tangent { TangentSize }
{}

/// The sum that a tangent bound takes off is at most what it takes it off, so none is cut off at 0.
pub fn no_tangent_is_cut_off()
    ensures { NoTangentCutOff }
{}

/// What several looks find of masses together is at most the sum of what each of them finds alone (Martins 1993). The masses
/// behind a prefix are such masses: by them goes what is missed after it, and by them go the rewards of its mean bound. A
/// reward goes by the masses that drifted on to its period.
pub fn masses_together()
    ensures together { MassesTogether }
    ensures missed { MissedBehind }
    ensures rewards { MeanRewardsAre }
    ensures drifted { RewardsByDrift }
{}

/// There is a best path, and no second one.
pub fn one_best()
    ensures { OneBest }
{}

/// From each position there is one least walk of the greatest sum of rewards, and no second one.
pub fn one_least_best()
    ensures { OneLeastBest }
{}

/// `Sweep::one_rate` up to the horizon answers the rate of a scenario's look factors, and `None` where they have none.
pub fn one_rate_is_rate()
    ensures { OneRateIsRate }
{}

ghost use Rattle.search_model.specs.Worked.{WorkedValues};
ghost use Rattle.search_model.specs.WorkedBounds.{WorkedBounds};

/// The values of small problems, worked by hand.
pub fn worked_values()
    ensures { WorkedValues }
{}

/// The bounds of small problems, worked by hand.
pub fn worked_bounds()
    ensures { WorkedBounds }
{}
