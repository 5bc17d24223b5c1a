//! Replanning in flight: a flown prefix can't be changed, and the best path among those that begin with it is the best
//! path of a scenario that forces it.
#![tactic(auto)]

mod forcing;
mod laws;
mod naming;
mod sources;

pub use forcing::{ForceFault, forced};
pub use laws::{
    beginnings_are_forced, forced_best, forced_is_one, forced_moves_are, forced_order_stays,
    forced_paths_begin, forced_stands_for, forced_value_stays, worked_forced,
};
pub use mission_report::push_map;
pub use sources::unforced;
