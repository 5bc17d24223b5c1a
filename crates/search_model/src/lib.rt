//! The path-constrained moving-target search problem (Stewart 1979; Eagle 1984; Eagle and Yee 1990): scenarios, paths,
//! the order of standings, and the definitions that every contract above rests on.
#![tactic(auto)]

mod laws;
mod name;
mod path;
mod plain_value;
mod scenario;
mod spreading;
mod standing;

pub use laws::{
    bound_sizes, continuations_are, masses_together, no_tangent_is_cut_off, nothing_is_cut_off,
    one_best, one_least_best, one_rate_is_rate, walks_follow, weights_sum, worked_bounds,
    worked_values,
};
pub use name::Name;
pub use path::Path;
pub use plain_value::value;
pub use scenario::{ModelFault, Parts, Scenario};
pub use spreading::spread_row;
pub use standing::{Standing, better, starts};
