//! Laws over the definitions.

ghost use Rattle.residual_plan.specs.Laws.{ForcedMovesAre, ForcedStandsFor, ForcedPathsBegin, BeginningsAreForced, ForcedOrderStays, ForcedValueStays, ForcedBest, ForcedIsOne, SameIsForced};

/// The moves of the scenario that forces a prefix are the scenario's own, then one to each next flown position, and then
/// those after the prefix.
pub fn forced_moves_are()
    ensures { ForcedMovesAre }
{}

/// Each position of the scenario that forces a prefix stands for one of the scenario's own.
pub fn forced_stands_for()
    ensures { ForcedStandsFor }
{}

/// A path there is, taken back, a path that begins with the prefix, each another one.
pub fn forced_paths_begin()
    ensures { ForcedPathsBegin }
{}

/// And each path that begins with the prefix is one of these.
pub fn beginnings_are_forced()
    ensures { BeginningsAreForced }
{}

/// Of two of these the same one is smaller before and after.
pub fn forced_order_stays()
    ensures { ForcedOrderStays }
{}

/// A path there finds what it finds when it is taken back, out of the same whole.
pub fn forced_value_stays()
    ensures { ForcedValueStays }
{}

/// The best path there, taken back, is the best of the paths that begin with the prefix.
pub fn forced_best()
    ensures { ForcedBest }
{}

/// What forces a prefix is one search, however it is written down.
pub fn forced_is_one()
    ensures one { ForcedIsOne }
    ensures same { SameIsForced }
{}

ghost use Rattle.residual_plan.specs.Worked.{WorkedForced};

/// What forces a prefix of a small scenario, worked by hand.
pub fn worked_forced()
    ensures { WorkedForced }
{}
