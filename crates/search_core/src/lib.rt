//! The state of a search as a machine over events: which prefixes wait, which are held and which are closed.
#![tactic(auto)]

mod event;
mod laws;
mod lists;
mod machine;

pub use event::{CoreEvent, CoreFault};
pub use laws::{
    balanced_is_accepted, balanced_is_live, balanced_is_placed, distinct_live_are_many,
    runs_are_balanced, runs_are_good, runs_are_live,
};
pub use machine::CoreState;
