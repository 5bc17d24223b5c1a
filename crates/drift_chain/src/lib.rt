//! How the target drifts: per period and cell, the parts of its next step.
#![tactic(auto)]

mod chain;
pub mod changes;
mod faults;

pub use chain::Drift;
pub use changes::{ChangeFault, DriftChange};
pub use faults::DriftFault;
pub use period_rows::CellPart as DriftPart;
