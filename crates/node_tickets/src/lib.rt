//! Node numbers for a search by several workers: each worker draws one for each node that it closes, by one atomic step
//! and without waiting for anybody. No call but the one that starts the tickets takes memory, and none waits.
#![tactic(auto)]

mod draw;
mod hand;
mod sending;
mod tickets;
mod word;

pub use draw::Draw;
pub use sending::{sent_seat, shared_tickets};
pub use tickets::{TicketSeat, Tickets};
