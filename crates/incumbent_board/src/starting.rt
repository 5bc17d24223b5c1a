//! A new board.

ghost use Rattle.std.specs.Prelude.{◌≡◌, ◌-◌, ◌<◌, ◌≤◌, ◌^◌, [], ◌∷◌, length, replicate, IfOk, All};
ghost use Rattle.crossbeam_utils.specs.Seq.{cell_view};
ghost use Rattle.incumbent_board.specs.Rule.{ALL, sight};
ghost use Rattle.incumbent_board.specs.Boards.{AreAllSeats, IsNewSeat, new_seat_of};

use crate::board::{Board, copy_of};
use crate::cell::{Cell, Place, deal, open};
use crate::seat::BoardSeat;
use exact_parts::NoMemory;
use search_model::Standing;
use std::alloc::Global;

// A seat that has seen the first standing.
fn new_seat(pass: Place, first: &Standing) -> BoardSeat
    requires some { 0 < (cell_view pass).seats }
    requires view { cell_view pass ≡ sight (cell_view pass).seats (first.now ∷ []) [] [] [] }
    ensures { result ≡ new_seat_of (record { cell = pass.table_id; first = first.now }) (cell_view pass).seats }
{
    BoardSeat {
        pass,
        looks: 0,
        shown: copy_of(first),
    }
}

// Gives away so many of the seats that a pass stands for.
fn deal_seats(
    alloc: Global,
    cell: &Cell,
    pass: &mut Place,
    first: &Standing,
    many: u32,
) -> Result<Vec<BoardSeat>, NoMemory>
    requires cell { pass.old.table_id ≡ cell.now.table.shared.table_id }
    requires view { cell_view pass.old ≡ sight ALL (first.now ∷ []) [] [] [] }
    requires few { many ≤ 15 }
    ensures cell { IfOk result (λ _. pass.new.table_id ≡ pass.old.table_id) }
    ensures view { IfOk result (λ _. cell_view pass.new ≡ sight (ALL - many) (first.now ∷ []) [] [] []) }
    ensures dealt { IfOk result (λ r.
        r.items ≡ replicate many (new_seat_of (record { cell = pass.old.table_id; first = first.now }) 1)) }
{
    let mut dealt = Vec::new(alloc);
    for _given in 0..many {
        let seat = deal(cell, pass);
        dealt.push(new_seat(seat, first))?;
    }
    Ok(dealt)
}

impl Board {
    /// A board on which a standing stands, with 1 to 16 seats that have seen it, and nothing more. All paths on it have
    /// the length of that standing's.
    pub fn start(
        alloc: Global,
        first: Standing,
        seats: u32,
    ) -> Result<(Board, Vec<BoardSeat>), NoMemory>
        requires some { 1 ≤ seats }
        requires few { seats ≤ 16 }
        requires value { first.value < 2 ^ 127 }
        ensures first { IfOk result (λ r. r.0.first ≡ first) }
        ensures many { IfOk result (λ r. length r.1.items ≡ seats) }
        ensures all { IfOk result (λ r. AreAllSeats r.0 r.1.items) }
        ensures new { IfOk result (λ r. All (λ s. IsNewSeat first s) r.1.items) }
    {
        let (cell, mut pass) = open(alloc, &first)?;
        let mut all = deal_seats(alloc, &cell, &mut pass, &first, seats - 1)?;
        all.push(new_seat(pass, &first))?;
        Ok((Board { cell, first }, all))
    }
}
