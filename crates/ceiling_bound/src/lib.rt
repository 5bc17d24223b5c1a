//! What no path below a prefix exceeds, by mean bounds or by edge bounds.
#![tactic(auto)]

mod ceilings;

pub use ceilings::Ceilings;
