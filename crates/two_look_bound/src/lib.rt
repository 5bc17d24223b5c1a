//! The bound that remembers two looks: the value of a prefix, and the greatest sum of the rewards that looks after it have, each
//! discounted by the two looks just before it.
#![tactic(auto)]

mod along;
mod last;
mod laws;
mod own;
mod pairs;
mod rows;
mod setting;
mod tables;
mod taken;
mod twos;

pub use laws::two_looks_remembered;
pub use tables::TwoLookTables;
