//! Rows of cells with a part each: one row for an owner in every period, and others in single periods.
#![tactic(auto)]

pub mod changes;
pub mod fault;
pub mod part;
mod rows;

pub use changes::{GivenChange, RowChanges, RowTest};
pub use fault::RowFault;
pub use part::CellPart;
pub use rows::{has_double, is_same_row, sort_rows};
