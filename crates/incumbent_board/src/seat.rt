//! One worker's seat at a board.

use crate::cell::Place;
use search_model::Standing;
use std::marker::Model;

/// A worker's seat at a board.
///
/// Contracts see the board that it is of, for how many of the board's 16 seats it stands, the history as far as it has
/// seen it, its own offers (`placed` and `behind`), the number of its looks up to 2^64 - 1, and the standing that its last
/// look answered, which at first is the one that the board started with.
#[derive(Drop)]
pub struct BoardSeat {
    pub(crate) pass: Place,
    pub(crate) looks: u64,
    pub(crate) shown: Standing,
}

impl Model for BoardSeat {
    ghost use Rattle.std.specs.Prelude.{◌≡◌, ◌<◌, [], length};
    ghost use Rattle.crossbeam_utils.specs.Seq.{cell_view};
    ghost use Rattle.incumbent_board.specs.History.{first_of};
    ghost use Rattle.incumbent_board.specs.Boards.{SeatView};

    ghost Value = { SeatView };

    ghost view = { λ s. let v = cell_view s.pass in record {
      board = record { cell = s.pass.table_id; first = first_of v.seen };
      stands = v.seats;
      seen = v.seen;
      placed = v.placed;
      behind = v.behind;
      looks = s.looks;
      shown = s.shown;
    } };

    ghost invariant = { λ s. let v = cell_view s.pass in (0 < v.seats) × (0 < length v.seen) × (v.told ≡ []) };
}

ghost use Rattle.std.specs.Prelude.{◌≡◌};
ghost use Rattle.crossbeam_utils.specs.Seq.{cell_view};
ghost use Rattle.incumbent_board.specs.Joins.{IsOfSeat};

/// A seat's pass.
pub fn pass_of(seat: BoardSeat) -> Place
    ensures cell { result.table_id ≡ seat.board.cell }
    ensures knows { IsOfSeat seat (cell_view result) }
{
    let BoardSeat {
        pass,
        looks: _,
        shown: _,
    } = seat;
    pass
}
