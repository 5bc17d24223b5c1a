//! What the searcher's looks miss: per position, the cells that a look covers and how much of a target there it leaves
//! undetected.
#![tactic(auto)]

pub mod changes;
mod faults;
mod footprints;
mod look;
mod rates;
mod table;

pub use changes::{LookChange, LookChangeFault};
pub use faults::{LookFault, SweepFault};
pub use look::Look;
pub use period_rows::CellPart as LookPart;
pub use table::Sweep;
