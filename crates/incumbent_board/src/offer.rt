//! The answer to an offer.

use search_model::Standing;

/// What became of a standing that a seat offered.
#[derive(Clone, Copy)]
pub enum Offer {
    /// It is the board's standing now.
    Placed,
    /// This standing stood on the board at a step of the call, and the offer isn't better.
    Behind(Standing),
}
