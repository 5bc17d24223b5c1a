//! Beliefs: where the target may be in a period, as far as the looks so far missed it (Eagle 1984), in whole numbers.
#![tactic(auto)]

mod along;
mod belief;
mod count;
mod finds;
mod flows;
mod laws;
mod levels;
mod onward;
mod steps;
mod taken;
mod trail;
mod values;

pub use along::{take_along, take_on};
pub use belief::Belief;
pub use count::Steps;
pub use finds::found;
pub use flows::has_first_steps;
pub use laws::{
    masses_behind, masses_follow, missed_by_masses, one_look_more, rewards_by_masses, worked_masses,
};
pub use levels::Levels;
pub use onward::Onward;
pub use steps::{move_on, spread};
pub use taken::Taken;
pub use trail::Trail;
pub use values::{follow, later_parts, prefix_value, value_by};
