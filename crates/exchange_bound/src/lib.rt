//! The exchange bound of a prefix over another that ends where it does: its value, and the greatest sum of what each look
//! after it would find of its lead alone.
#![tactic(auto)]

mod exchange;
mod lead;
mod rewards;
mod stand_in;

pub use exchange::ExchangeTables;
pub use stand_in::{Exchange, exchanged};
