//! Gap plans of searches that ran out of records: what they closed and what still waits shows a ceiling that no path
//! exceeds.
#![tactic(auto)]

mod laws;
mod listing;
mod making;
mod numbers;

pub use bound_tree::{GapKind, GapNode, GapPlan, GapTree, Numbers};
pub use laws::same_search_same_gap_plans;
pub use making::make_gap;
