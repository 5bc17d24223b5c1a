//! The records of a search, gathered into one tree.
#![tactic(auto)]

mod gathering;
mod laws;

pub use gathering::gather;
pub use laws::{all_hauls_are_joined, done_are_accepted, joined_are_live};
