//! The opening: the path of a greedy searcher, with which a search for the best path begins.
#![tactic(auto)]

mod greedy;
mod laws;

pub use greedy::opening;
pub use laws::one_opening;
