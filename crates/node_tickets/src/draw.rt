//! What a draw tells.

ghost use Rattle.std.specs.Prelude.{◌≡◌, ◌<◌, ◌≤◌};
ghost use Rattle.node_tickets.specs.Draws.{number_drawn, IfNumber, IfFull};

/// A number that a seat drew: the next one that nobody had drawn.
#[derive(Clone, Copy, Debug, PartialEq, Eq)]
pub enum Draw {
    /// A number below the limit.
    Number(u64),
    /// A number at the limit or above it: all numbers below the limit are drawn.
    Full(u64),
}

impl Draw {
    /// The draw of a number.
    pub(crate) fn of(number: u64, limit: u64) -> Draw
        ensures drawn { number_drawn result ≡ number }
        ensures number { IfNumber result (λ n. n < limit) }
        ensures full { IfFull result (λ n. limit ≤ n) }
    {
        if number < limit {
            Draw::Number(number)
        } else {
            Draw::Full(number)
        }
    }
}
