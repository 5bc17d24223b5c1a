//! Whole numbers that stay exact: how wide the sums of a scenario may grow, and numbers as decimal text.
#![tactic(auto)]

mod cutting;
mod no_memory;
mod number;
mod percent;
mod reading;
mod width;
mod writing;

pub use cutting::cut_if_refused;
pub use no_memory::NoMemory;
pub use number::Number;
pub use percent::{push_percent, worked_percents};
pub use reading::{number_of, read_u128};
pub use width::{fits, weight_of};
pub use writing::{digits, push_u128};
