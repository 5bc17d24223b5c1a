//! The board, and what its seats do there.

ghost use Rattle.std.specs.Prelude.{◌≡◌, ◌+◌, ◌-◌, ◌<◌, ◌^◌, ◌++◌, [], ◌∷◌, min, false, length};
ghost use mathlib.Core.List.{IsPrefix};

use crate::cell::{Cell, Place, look_at, try_place, weigh};
use crate::offer::Offer;
use crate::seat::BoardSeat;
use crate::six_words::{BLANK, pack, unpack};
use search_model::{Standing, better};
use std::marker::Model;
use std::sync::Wait;

/// The same standing.
pub fn copy_of(s: &Standing) -> Standing
    ensures { result ≡ s.now }
{
    Standing {
        path: s.path,
        value: s.value,
    }
}

/// The best standing so far, shared by the workers of a search.
///
/// Contracts see which board it is, and the standing that it was started with. All paths on a board have the length of
/// that standing's path.
#[derive(Drop)]
pub struct Board {
    pub(crate) cell: Cell,
    pub(crate) first: Standing,
}

impl Model for Board {
    ghost use Rattle.std.specs.Prelude.{◌<◌, ◌^◌};
    ghost use Rattle.incumbent_board.specs.Boards.{BoardView};

    ghost Value = { BoardView };

    ghost view = { λ b. record { cell = b.cell.table.shared.table_id; first = b.first } };

    ghost invariant = { λ b. b.first.value < 2 ^ 127 };
}

impl Board {
    ghost use Rattle.crossbeam_utils.specs.Seq.{cell_view, IsSamePass};
    ghost use Rattle.search_model.specs.Order.{better as better_lem};
    ghost use Rattle.incumbent_board.specs.History.{first_of, last_of, IsHistory, NoneBetter, MayStand};
    ghost use Rattle.incumbent_board.specs.Words.{told_by};
    ghost use Rattle.incumbent_board.specs.Boards.{IsSeatOf, IsSameSeat, offers_of};
    ghost use Rattle.incumbent_board.specs.Offers.{OnPlaced, IfBehind, ComesNext, Shows, Tells};

    /// The standing that the cell's words tell, which is the first one as long as they are blank.
    pub(crate) fn standing(&self, words: &[u64; 6]) -> Standing
        ensures { result ≡ told_by self.now.first words.now }
    {
        if *words == BLANK {
            copy_of(&self.first)
        } else {
            unpack(words, self.first.path.len())
        }
    }

    // The standing that one load shows.
    fn look_for<R: Wait>(&self, rt: &R, place: &mut Place) -> Standing
        requires cell { place.old.table_id ≡ self.now.cell }
        requires some { 0 < (cell_view place.old).seats }
        requires seen { (0 < length (cell_view place.old).seen) ×
            (first_of (cell_view place.old).seen ≡ self.now.first) }
        ensures same { IsSamePass place.old place.new }
        ensures shows { Shows self.now.first (cell_view place.old) result (cell_view place.new) }
    {
        let words = look_at(rt, &self.cell, place);
        self.standing(&words)
    }

    /// The standing on the board at one step of the call: the last of the history, all of which the seat has then seen.
    /// It is counted, up to 2^64 - 1. May wait. Takes no memory.
    pub fn look<R: Wait>(&self, rt: &R, seat: &mut BoardSeat) -> Standing
        requires seat { IsSeatOf self.now seat.old }
        ensures seat { IsSameSeat seat.old seat.new }
        ensures seen { IsPrefix seat.old.seen seat.new.seen }
        ensures history { IsHistory self.now.first seat.new.seen }
        ensures last { result ≡ last_of seat.new.seen }
        ensures stands { MayStand self.now.first result }
        ensures best { NoneBetter (offers_of seat.old) result }
        ensures offers { (seat.new.placed ≡ seat.old.placed) × (seat.new.behind ≡ seat.old.behind) }
        ensures looks { seat.new.looks ≡ min (seat.old.looks + 1) (2 ^ 64 - 1) }
        ensures shown { seat.new.shown ≡ result }
    {
        let standing = self.look_for(rt, &mut seat.pass);
        seat.looks = seat.looks.saturating_add(1);
        seat.shown = copy_of(&standing);
        standing
    }

    // Loads, compares and tries to replace; a try that lost goes on with the words that it met.
    fn offer_at<R: Wait>(&self, rt: &R, place: &mut Place, s: &Standing) -> Offer
        requires cell { place.old.table_id ≡ self.now.cell }
        requires some { 0 < (cell_view place.old).seats }
        requires seen { (0 < length (cell_view place.old).seen) ×
            (first_of (cell_view place.old).seen ≡ self.now.first) }
        requires stands { MayStand self.now.first s.now }
        ensures same { IsSamePass place.old place.new }
        ensures tells { Tells self.now.first s.now (cell_view place.old) result (cell_view place.new) }
    {
        let words = pack(s);
        let mut held = weigh(rt, &self.cell, place, s);
        'tries: for _ in rt.forever() {
            let best = self.standing(&held);
            if !better(s, &best) {
                return Offer::Behind(best);
            }
            match try_place(rt, &self.cell, place, held, words, s) {
                Ok(_) => return Offer::Placed,
                Err(met) => held = met,
            }
        }
        unreachable!()
    }

    /// Offers a standing. `Placed`: it is better than the standing before it, and comes next in the history. `Behind(b)`:
    /// `b` stood on the board at a step of the call, and the offer isn't better. Where another seat was faster, it tries
    /// again. It is no look. May wait. Takes no memory.
    pub fn offer<R: Wait>(&self, rt: &R, seat: &mut BoardSeat, s: Standing) -> Offer
        requires seat { IsSeatOf self.now seat.old }
        requires stands { MayStand self.now.first s }
        ensures seat { IsSameSeat seat.old seat.new }
        ensures seen { IsPrefix seat.old.seen seat.new.seen }
        ensures history { IsHistory self.now.first seat.new.seen }
        ensures next { OnPlaced result (ComesNext seat.old.seen s seat.new.seen) }
        ensures placed { OnPlaced result ((seat.new.placed ≡ seat.old.placed ++ s ∷ []) ×
            (seat.new.behind ≡ seat.old.behind)) }
        ensures last { IfBehind result (λ b. b ≡ last_of seat.new.seen) }
        ensures worse { IfBehind result (λ b. better_lem s b ≡ false) }
        ensures behind { IfBehind result (λ _.
            (seat.new.placed ≡ seat.old.placed) × (seat.new.behind ≡ seat.old.behind ++ s ∷ [])) }
        ensures looks { (seat.new.looks ≡ seat.old.looks) × (seat.new.shown ≡ seat.old.shown) }
    {
        self.offer_at(rt, &mut seat.pass, &s)
    }
}
