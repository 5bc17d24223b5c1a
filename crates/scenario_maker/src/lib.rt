//! Scenarios made from a number, for drills: each number gives one, and always the same.
#![tactic(auto)]

mod drawing;
mod generator;
mod laws;
mod making;
mod shaping;
mod sizes;

pub use laws::{
    draws_within_bounds, few_made_prefixes, few_prefixes, made_is_problem, worked_draws,
};
pub use making::make;
