//! The tangent bound: how much the paths below a prefix find at most, by convexity at a reference path.
#![tactic(auto)]

mod gains;
mod steps;
mod tables;
mod tangent;

pub use tables::TangentTables;
pub use tangent::Tangent;
