//! Why a scenario has no product.

ghost use Rattle.std.specs.Prelude.{◌≤◌, IfSome, IfNone, MatchBool};
ghost use Rattle.duo_search.specs.Refusals.{HasManyMoves, HasFewMoves, FitsTwo, IsRefused, IsSmall};

use exact_parts::fits;
use search_model::Scenario;

// The most positions of which all pairs have numbers: 14 * 14 is 196.
const MOST_POSITIONS: u8 = 14;

// The most moves that a position may have, so that pairs of moves are at most 64.
const MOST_MOVES: usize = 8;

// The greatest look denominator whose square is a look denominator.
const FINEST: u32 = 1000;

/// Why two searchers aren't planned for; the first of these that holds is named.
#[derive(Clone, Copy, Debug, PartialEq, Eq)]
pub enum DuoFault {
    /// There are more than 14 positions.
    TooManyPositions = 1,
    /// The numbers of moves of two positions, or of one with itself, multiply to more than 64.
    TooManyMoves = 2,
    /// The look denominator is above 1000.
    TooFine = 3,
    /// The widest sum doesn't fit 127 bits.
    TooWide = 4,
    /// Memory ran out.
    NoMemory = 5,
}

// Whether the numbers of moves of two positions, or of one with itself, multiply to more than 64. Where some two do, the
// one with the most moves does with itself.
fn has_many_moves(sc: &Scenario) -> bool
    ensures { MatchBool result (HasManyMoves sc.now) (HasFewMoves sc.now) }
{
    for position in 0..sc.positions() {
        if sc.grid().moves(position).len() > MOST_MOVES {
            return true;
        }
    }
    false
}

// Whether the sums fit over looks in parts of the squared denominator.
fn fits_two(sc: &Scenario) -> bool
    requires { sc.now.sweep.denominator ≤ 1000 }
    ensures { MatchBool result (FitsTwo sc.now) (¬ FitsTwo sc.now) }
{
    let denominator = sc.sweep().denominator();
    fits(
        sc.total(),
        sc.drift().denominator(),
        denominator * denominator,
        sc.horizon(),
    )
}

/// The first reason why a scenario has no product.
pub(crate) fn first_fault(sc: &Scenario) -> Option<DuoFault>
    ensures none { IfNone result (IsSmall sc.now) }
    ensures some { IfSome result (IsRefused sc.now) }
{
    if sc.positions() > MOST_POSITIONS {
        Some(DuoFault::TooManyPositions)
    } else if has_many_moves(sc) {
        Some(DuoFault::TooManyMoves)
    } else if sc.sweep().denominator() > FINEST {
        Some(DuoFault::TooFine)
    } else if fits_two(sc) {
        None
    } else {
        Some(DuoFault::TooWide)
    }
}
