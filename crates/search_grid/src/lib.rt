//! Where the searcher may go: per cell, the cells that one period can lead to.
#![tactic(auto)]

mod faults;
mod moves;
mod sides;

pub use faults::GridFault;
pub use moves::Grid;
pub use sides::worked_sides;
