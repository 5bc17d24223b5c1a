//! That a seat may go to another thread, and that tickets may be shared between threads.

ghost use Rattle.std.specs.Prelude.{◌≡◌};

use crate::tickets::{TicketSeat, Tickets};

// Anything that may go to another thread, as it is.
fn sent<S: Send>(value: S) -> S
    ensures { result ≡ value }
{
    value
}

// Anything that threads may share, as it is.
fn shared<S: Sync>(value: &S) -> &S
    ensures { result.now ≡ value.now }
{
    value
}

/// A seat, as it is: it may go to another thread.
pub fn sent_seat(seat: TicketSeat) -> TicketSeat
    ensures { result ≡ seat }
{
    sent(seat)
}

/// Tickets, as they are: threads may share them.
pub fn shared_tickets(tickets: &Tickets) -> &Tickets
    ensures { result.now ≡ tickets.now }
{
    shared(tickets)
}
