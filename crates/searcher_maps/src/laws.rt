//! Laws over the definitions.

ghost use Rattle.searcher_maps.specs.Laws.{TeamFollows, MissedByTeam, OneFindsTheSame, BestIsTold, BestIsCarried, OneBestBehind, BestOfFlown};

/// Each of a team moves as its problem allows.
pub fn team_follows()
    ensures { TeamFollows }
{}

/// What the looks of a path miss is what those of the team miss together.
pub fn missed_by_team()
    ensures { MissedByTeam }
{}

/// Where a position stands for one of another problem, a path finds what the path there finds.
pub fn one_finds_the_same()
    ensures { OneFindsTheSame }
{}

/// Where a problem's paths stand for paths of another in the same order, its best path stands for the best among these,
/// which may be just those that begin with a prefix.
pub fn best_is_carried()
    ensures told { BestIsTold }
    ensures front { BestIsCarried }
{}

/// Among the paths that begin with a legal prefix there is a best one, and no second one.
pub fn one_best_behind()
    ensures { OneBestBehind }
{}

/// The best path is the best among those that are the best behind the legal prefixes of one length.
pub fn best_of_flown()
    ensures { BestOfFlown }
{}

ghost use Rattle.searcher_maps.specs.Worked.{WorkedTeams};

/// What two searchers miss together in a small problem, worked by hand.
pub fn worked_teams()
    ensures { WorkedTeams }
{}
