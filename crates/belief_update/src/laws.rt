//! What looks and drift make of masses, and what masses say of values and of bounds.

ghost use Rattle.belief_update.specs.Laws.{LooksScale, DriftSpreads, OneLookMore, MissedByMasses, RewardsByMasses, MassesForward, MassesDrift};
ghost use Rattle.belief_update.specs.Worked.{WorkedMasses};

/// A look scales each mass by its factor, and the drift sends each mass on by the parts of its row.
pub fn masses_follow()
    ensures look { LooksScale }
    ensures drift { DriftSpreads }
{}

/// The masses with one look more and what that look took, in its period or drifted on, are the masses without it times the
/// denominator.
pub fn one_look_more()
    ensures { OneLookMore }
{}

/// What a prefix misses is the sum of the masses after it, times the parts of the steps and of the looks to come.
pub fn missed_by_masses()
    ensures { MissedByMasses }
{}

/// The reward of a look is what it finds of the masses that drifted on without looks.
pub fn rewards_by_masses()
    ensures { RewardsByMasses }
{}

/// The masses with no look after a prefix are the forward masses of its looks, and those behind it drift on to them.
pub fn masses_behind()
    ensures forward { MassesForward }
    ensures drift { MassesDrift }
{}

/// The masses of small problems, worked by hand.
pub fn worked_masses()
    ensures { WorkedMasses }
{}
