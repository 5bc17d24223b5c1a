//! Longest walks: the greatest sum of rewards over all continuations of the searcher's path, and the least continuation
//! that reaches it.
#![tactic(auto)]

mod laws;
mod near;
mod rows;
mod walk;

pub use laws::{highest_above, highest_below, same_rewards_same_sum, worked_walks};
pub use near::Near;
pub use rows::least_move;
pub use walk::Walk;
