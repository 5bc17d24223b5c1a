//! Tickets, and the seats that draw from them.

ghost use Rattle.std.specs.Prelude.{◌≡◌, ◌+◌, ◌-◌, ◌<◌, ◌≤◌, ◌++◌, ◌∷◌, [], ◌↔◌, length, min, All, IsPermutation, IfOk};
ghost use Rattle.std.specs.List.{flat_map, range_with_len, sum_by};
ghost use Rattle.node_tickets.specs.Draws.{number_drawn, IfNumber, IfFull};
ghost use Rattle.node_tickets.specs.Seats.{ALL_SEATS, MOST_NUMBERS, IsSeatOf, AreAllSeats, IsFresh, MayDraw, drawn_by, numbers_of};

use crate::draw::Draw;
use crate::word::{Closes, Deals, Draws, Place, Reads, Word};
use atomic_table::Table;
use exact_parts::NoMemory;
use std::alloc::Global;
use std::marker::Model;

/// The numbers 0, 1, 2, .., which seats draw one after the other, with a limit below which they count as node numbers.
///
/// Contracts see which tickets they are, and their limit.
#[derive(Drop)]
pub struct Tickets {
    word: Word,
    limit: u64,
}

impl Model for Tickets {
    ghost use Rattle.std.specs.Prelude.{◌≡◌, ◌≤◌};
    ghost use Rattle.node_tickets.specs.Seats.{TicketsView, MOST_NUMBERS};

    ghost Value = { TicketsView };

    ghost view = { λ t. record { id = t.word.shared.table_id; limit = t.limit } };

    ghost invariant = { λ t. record {
      one : t.word.shared.table_id.words ≡ 1;
      limit : t.word.shared.key ≡ t.limit;
      most : t.limit ≤ MOST_NUMBERS;
    } };
}

/// One worker's right to draw.
///
/// Contracts see of which tickets it is, their limit, for how many seats it stands, and the numbers that it drew, in
/// their order. The seats that were started together stand for all seats together, and no call changes for how many one
/// stands: this is how the closing call knows that none is missing.
#[derive(Drop)]
pub struct TicketSeat {
    place: Place,
}

impl Model for TicketSeat {
    ghost use Rattle.std.specs.Prelude.{◌≡◌, ◌<◌, []};
    ghost use Rattle.node_tickets.specs.Seats.{SeatView};

    ghost Value = { SeatView };

    ghost view = { λ s. record {
      tickets = s.place.table_id;
      limit = s.place.me.0.limit;
      stands_for = s.place.me.0.stands_for;
      drawn = s.place.me.0.drawn;
    } };

    ghost invariant = { λ s. record {
      some : 0 < s.place.me.0.stands_for;
      no_slots : s.place.me.1 ≡ [];
    } };
}

impl Tickets {
    /// Tickets with a limit of 1 to 1,048,576, and 1 to 16 seats. Nothing was drawn by any. Takes all the memory that the
    /// tickets ever need.
    pub fn start(
        alloc: Global,
        limit: u64,
        seats: u32,
    ) -> Result<(Tickets, Vec<TicketSeat>), NoMemory>
        requires some { 1 ≤ limit }
        requires most { limit ≤ MOST_NUMBERS }
        requires some_seats { 1 ≤ seats }
        requires few_seats { seats ≤ 16 }
        ensures limit { IfOk result (λ r. r.0.limit ≡ limit) }
        ensures many { IfOk result (λ r. length r.1.items ≡ seats) }
        ensures all { IfOk result (λ r. AreAllSeats r.0 r.1.items) }
        ensures fresh { IfOk result (λ r. All IsFresh r.1.items) }
    {
        let (word, place) = Table::of_words(alloc, &[0], &limit)?;
        let tickets = Tickets { word, limit };
        let seats = tickets.deal_all(alloc, TicketSeat { place }, seats)?;
        Ok((tickets, seats))
    }

    /// Draws the next number, in one atomic step: `Number` exactly where it is below the limit. Takes no memory, and
    /// doesn't wait. A seat that drew `Full` draws no more.
    pub fn draw(&self, seat: &mut TicketSeat) -> Draw
        requires seat { IsSeatOf self.now seat.old }
        requires may { MayDraw seat.old }
        ensures seat { IsSeatOf self.now seat.new }
        ensures stands { seat.new.stands_for ≡ seat.old.stands_for }
        ensures drawn { seat.new.drawn ≡ seat.old.drawn ++ number_drawn result ∷ [] }
        ensures greater { All (λ x. x < number_drawn result) seat.old.drawn }
        ensures number { IfNumber result (λ n. n < self.now.limit) }
        ensures full { IfFull result (λ n. self.now.limit ≤ n) }
        ensures again { IfNumber result (λ _. MayDraw seat.new) }
        ensures counts { IfNumber result (λ _. numbers_of seat.new ≡ numbers_of seat.old + 1) }
        ensures no_more { IfFull result (λ _. numbers_of seat.new ≡ numbers_of seat.old) }
    {
        let number = self.word.shared.fetch_add::<Draws>(&mut seat.place, 0, 1);
        Draw::of(number, self.limit)
    }

    /// How many numbers were drawn by the time of one load: at least as many as the seat drew, all of which are below the
    /// answer. Changes nothing. Takes no memory, and doesn't wait.
    pub fn drawn(&self, seat: &mut TicketSeat) -> u64
        requires { IsSeatOf self.now seat.old }
        ensures same { seat.new ≡ seat.old }
        ensures above { All (λ x. x < result) seat.old.drawn }
        ensures many { length seat.old.drawn ≤ result }
        ensures most { result ≤ self.now.limit + ALL_SEATS }
    {
        self.word.shared.load::<Reads>(&mut seat.place, 0)
    }

    /// How many numbers were drawn, told once all seats are back: the numbers that they drew are those below the answer,
    /// each once. It is above the limit exactly where a seat drew `Full`. Takes no memory, and doesn't wait.
    pub fn close(self, mut seats: Vec<TicketSeat>) -> u64
        requires { AreAllSeats self seats.items }
        ensures drawn { IsPermutation (flat_map drawn_by seats.items) (range_with_len 0 result) }
        ensures numbers { sum_by numbers_of seats.items ≡ min self.limit result }
        ensures full { All MayDraw seats.items ↔ (result ≤ self.limit) }
        ensures most { result ≤ self.limit + ALL_SEATS }
    {
        let Some(mut whole) = seats.pop() else {
            unreachable!()
        };
        self.join_all(&mut whole, seats);
        self.word.shared.load::<Closes>(&mut whole.place, 0)
    }

    // Gives one of the seats away for which a seat stands that drew nothing.
    fn deal(&self, seat: &mut TicketSeat) -> TicketSeat
        requires seat { IsSeatOf self.now seat.old }
        requires some { 1 < seat.old.stands_for }
        requires fresh { IsFresh seat.old }
        ensures left { seat.new ≡ record seat.old { stands_for = seat.old.stands_for - 1 } }
        ensures dealt { result ≡ record seat.old { stands_for = 1 } }
    {
        let place = self.word.shared.split_seat::<Deals>(&mut seat.place);
        TicketSeat { place }
    }

    // As many seats as asked, of which each but the last stands for one.
    fn deal_all(
        &self,
        alloc: Global,
        mut whole: TicketSeat,
        seats: u32,
    ) -> Result<Vec<TicketSeat>, NoMemory>
        requires whole { AreAllSeats self.now (whole ∷ []) }
        requires fresh { IsFresh whole }
        requires some { 1 ≤ seats }
        requires few { seats ≤ 16 }
        ensures many { IfOk result (λ dealt. length dealt.items ≡ seats) }
        ensures all { IfOk result (λ dealt. AreAllSeats self.now dealt.items) }
        ensures fresh { IfOk result (λ dealt. All IsFresh dealt.items) }
    {
        let mut dealt = Vec::new(alloc);
        for _made in 1..seats {
            dealt.push(self.deal(&mut whole))?;
        }
        dealt.push(whole)?;
        Ok(dealt)
    }

    // Takes a seat, and what it drew, into another.
    fn join(&self, seat: &mut TicketSeat, other: TicketSeat)
        requires seat { IsSeatOf self.now seat.old }
        requires other { IsSeatOf self.now other }
        ensures { seat.new ≡
            record seat.old {
              stands_for = seat.old.stands_for + other.stands_for;
              drawn = seat.old.drawn ++
                  other.drawn;
            } }
    {
        self.word
            .shared
            .join_seat::<Deals>(&mut seat.place, other.place);
    }

    // Takes some seats, and what they drew, into one.
    fn join_all(&self, whole: &mut TicketSeat, mut seats: Vec<TicketSeat>)
        requires whole { IsSeatOf self.now whole.old }
        requires seats { All (IsSeatOf self.now) seats.items }
        ensures whole { IsSeatOf self.now whole.new }
        ensures stands { whole.new.stands_for ≡ whole.old.stands_for + sum_by (λ s. s.stands_for) seats.items }
        ensures drawn { IsPermutation whole.new.drawn (whole.old.drawn ++ flat_map drawn_by seats.items) }
    {
        while let Some(seat) = seats.pop() {
            self.join(whole, seat);
        }
    }
}
