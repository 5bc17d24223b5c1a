//! That a seat may go to another thread, and that threads may share a board.

ghost use Rattle.std.specs.Prelude.{◌≡◌};

use crate::board::Board;
use crate::seat::BoardSeat;

// Anything that may go to another thread, as it is.
fn sent<S: Send>(value: S) -> S
    ensures { result ≡ value }
{
    value
}

// Anything that threads may share, as it is.
fn shared<S: Sync>(value: &S) -> &S
    ensures { result.now ≡ value.now }
{
    value
}

/// A seat, as it is: it may go to another thread.
pub fn sent_seat(seat: BoardSeat) -> BoardSeat
    ensures { result ≡ seat }
{
    sent(seat)
}

/// A board, as it is: threads may share it.
pub fn shared_board(board: &Board) -> &Board
    ensures { result.now ≡ board.now }
{
    shared(board)
}
