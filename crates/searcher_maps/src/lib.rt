//! A scenario with another searcher: the same target, and other positions, moves and looks. What its paths say of the
//! searcher, or of the team, that each of its positions stands for.
#![tactic(auto)]

mod drifting;
mod laws;
mod looks;
mod searcher;

pub use laws::{
    best_is_carried, best_of_flown, missed_by_team, one_best_behind, one_finds_the_same,
    team_follows, worked_teams,
};
pub use looks::looks_by_period;
pub use searcher::{Searcher, with_searcher};
