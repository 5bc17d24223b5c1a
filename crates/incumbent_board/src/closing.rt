//! The end of a board.

ghost use Rattle.std.specs.Prelude.{◌≡◌, ◌<◌, ◌∷◌, All, Contains};
ghost use Rattle.std.specs.List.{flat_map};
ghost use Rattle.crossbeam_utils.specs.Seq.{cell_view, IsSamePass};
ghost use Rattle.incumbent_board.specs.History.{NoneBetter};
ghost use Rattle.incumbent_board.specs.Boards.{AreAllSeats, EndsWith, offers_of};
ghost use Rattle.incumbent_board.specs.Joins.{Gathers};

use crate::board::Board;
use crate::cell::{Cell, Place, join, last_look};
use crate::seat::{BoardSeat, pass_of};
use search_model::Standing;
use std::sync::Wait;

// Takes all that some seats know into one pass.
fn join_all(cell: &Cell, place: &mut Place, seats: Vec<BoardSeat>)
    requires cell { place.old.table_id ≡ cell.now.table.shared.table_id }
    requires seats { All (λ s. s.board.cell ≡ place.old.table_id) seats.items }
    requires some { 0 < (cell_view place.old).seats }
    ensures same { IsSamePass place.old place.new }
    ensures joins { Gathers (cell_view place.old) seats.items (cell_view place.new) }
{
    for seat in seats {
        join(cell, place, pass_of(seat));
    }
}

impl Board {
    /// The last standing of the history, which is the best of the first one and of all that the seats offered. May wait.
    /// Takes no memory.
    pub fn close<R: Wait>(self, rt: &R, mut seats: Vec<BoardSeat>) -> Standing
        requires { AreAllSeats self seats.items }
        ensures history { EndsWith self seats.items result }
        ensures best { NoneBetter (self.first ∷ flat_map (λ s. offers_of s) seats.items) result }
        ensures known { Contains (self.first ∷ flat_map (λ s. s.placed) seats.items) result }
    {
        let Some(one) = seats.pop() else {
            unreachable!()
        };
        let mut place = pass_of(one);
        join_all(&self.cell, &mut place, seats);
        let words = last_look(rt, &self.cell, &mut place);
        self.standing(&words)
    }
}
