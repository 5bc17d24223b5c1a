//! The mean bound (Martins 1993): the value of a prefix, and the greatest sum of the rewards that looks after it would
//! have if each of them were the only one.
#![tactic(auto)]

mod mean;
mod rewards;

pub use mean::Mean;
pub use rewards::fill_period;
