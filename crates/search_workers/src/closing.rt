//! Closing a prefix at a desk.

ghost use Rattle.std.specs.Prelude.{◌≡◌, ◌<◌, length, vec_len, vec_capacity, All};
ghost use Rattle.search_model.specs.Legal.{IsLegal};
ghost use Rattle.node_tickets.specs.Seats.{IsSeatOf as IsTicketOf, MayDraw};
ghost use Rattle.incumbent_board.specs.Boards.{IsSeatOf, IsSameSeat};
ghost use Rattle.bound_tree.specs.Close.{IsExact};
ghost use Rattle.path_node.specs.Room.{IsMadeFor};
ghost use Rattle.search_workers.specs.Desks.{IsInOrder, IsSameDesk};
ghost use Rattle.search_workers.specs.Seen.{desk_view};

use crate::desk::Desk;
use bound_tree::Kind;
use incumbent_board::Board;
use node_tickets::{Draw, Tickets};
use path_node::close;
use search_model::{Path, Scenario};
use std::sync::Wait;

/// What became of the last prefix of a private stack.
pub enum Closing {
    /// It was closed, and branches: its children are to be closed, too.
    Branches(Path),
    /// It was closed, and has no children to be closed.
    Ends,
    /// It stays, since the number that was drawn for it isn't below the limit.
    Full,
    /// It stays, since memory ran out for its record.
    NoMemory,
}

impl Desk {
    ghost use Rattle.search_workers.specs.Steps.{Closes, MakesRecord};
    ghost use Rattle.search_workers.specs.Incumbents.{WasTold};

    /// Closes the last prefix of the private stack: makes room for the record, looks at the board, draws a number, and
    /// closes the prefix under the standing in use; a path that is better takes that standing's place, and is offered.
    /// May wait.
    pub fn close_last<R: Wait>(
        &mut self,
        rt: &R,
        sc: &Scenario,
        tickets: &Tickets,
        board: &Board,
    ) -> Closing
        requires ticket { IsTicketOf tickets.now self.old.ticket }
        requires may { MayDraw self.old.ticket }
        requires seat { IsSeatOf board.now self.old.incumbent.seat }
        requires first { IsExact sc.now board.now.first }
        requires order { IsInOrder sc.now board.now.first (desk_view self.old) }
        requires some { 0 < length self.old.stack }
        requires legal { All (IsLegal sc.now) self.old.stack }
        ensures closes { Closes (desk_view self.old) result (desk_view self.new) }
        ensures order { IsInOrder sc.now board.now.first (desk_view self.new) }
        ensures same { IsSameDesk (desk_view self.old) (desk_view self.new) }
    {
        sc.recall_sound();
        if self.records.reserve(1).is_err() {
            return Closing::NoMemory;
        }
        self.incumbent.heed(rt, sc, board);
        match tickets.draw(&mut self.ticket) {
            Draw::Number(_) => self.record_last(rt, sc, board),
            Draw::Full(_) => Closing::Full,
        }
    }

    // Makes the record of the last prefix of the private stack, for which there is room.
    fn record_last<R: Wait>(&mut self, rt: &R, sc: &Scenario, board: &Board) -> Closing
        requires seat { IsSeatOf board.now self.old.incumbent.seat }
        requires first { IsExact sc.now board.now.first }
        requires exact { IsExact sc.now self.old.incumbent.standing }
        requires tables { IsMadeFor sc.now self.old.scratch }
        requires some { 0 < length self.old.stack }
        requires legal { All (IsLegal sc.now) self.old.stack }
        requires room { vec_len self.old.records < vec_capacity self.old.records }
        ensures records { MakesRecord sc.now (desk_view self.old) result (desk_view self.new) }
        ensures ticket { self.new.ticket ≡ self.old.ticket }
        ensures seat { IsSameSeat self.old.incumbent.seat self.new.incumbent.seat }
        ensures looks { (self.new.incumbent.seat.looks ≡ self.old.incumbent.seat.looks) ×
            (self.new.incumbent.seat.shown ≡ self.old.incumbent.seat.shown) }
        ensures told { WasTold self.old.incumbent.seat self.old.incumbent.standing →
            WasTold self.new.incumbent.seat self.new.incumbent.standing }
        ensures tables { IsMadeFor sc.now self.new.scratch }
        ensures belief { self.new.incumbent.belief ≡ self.old.incumbent.belief }
    {
        sc.recall_sound();
        let Some(prefix) = self.stack.pop() else {
            unreachable!()
        };
        let node = close(&mut self.scratch, sc, &prefix, &self.incumbent.standing);
        self.incumbent.keep_better(rt, board, &node);
        let Ok(()) = self.records.push(node) else {
            unreachable!()
        };
        match node.kind {
            Kind::Branch => Closing::Branches(prefix),
            _ => Closing::Ends,
        }
    }
}
