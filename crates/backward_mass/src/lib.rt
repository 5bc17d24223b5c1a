//! What may follow a cell under the looks that are left of a path: the backward pass beside a belief's forward pass.
#![tactic(auto)]

mod backward;
mod laws;
mod periods;

pub use backward::Backward;
pub use laws::{gain_by_cell, look_apart, missed_by_cell, missed_in_each_period, worked_masses};
