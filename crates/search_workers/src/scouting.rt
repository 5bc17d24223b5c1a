//! The scout of a search.

ghost use Rattle.incumbent_board.specs.Boards.{IsSeatOf};
ghost use Rattle.bound_tree.specs.Close.{IsExact};
ghost use Rattle.search_workers.specs.Desks.{IsInOrder};
ghost use Rattle.search_workers.specs.Seen.{desk_view, worker_view};
ghost use Rattle.search_workers.specs.Steps.{Scouts};
ghost use Rattle.search_workers.specs.Workers.{IsReady};

use crate::agenda::Agenda;
use crate::desk::Desk;
use incumbent_board::Board;
use search_model::{Path, Scenario};
use std::sync::Wait;
use steal_pool::Kit;

// The least horizon with a scout: shorter searches are as quick as it is.
const LEAST_HORIZON: u32 = 4;

impl Desk {
    // Sends a scout from the standing in use. What it finds that is better takes that standing's place, and is offered.
    fn scout<R: Wait>(&mut self, rt: &R, sc: &Scenario, board: &Board)
        requires seat { IsSeatOf board.now self.old.incumbent.seat }
        requires first { IsExact sc.now board.now.first }
        requires order { IsInOrder sc.now board.now.first (desk_view self.old) }
        ensures scouts { Scouts (desk_view self.old) (desk_view self.new) }
        ensures order { IsInOrder sc.now board.now.first (desk_view self.new) }
    {
        sc.recall_sound();
        let found = self.scratch.scout(sc, &self.incumbent.standing);
        self.incumbent
            .offer_if_better(rt, board, &found.path, found.value);
    }
}

/// Sends a scout before the first closing of a search of 4 or more periods: the worker that begins with the empty prefix
/// does. May wait. Takes no memory.
pub fn scout_first<R: Wait>(
    kit: &Kit<Path>,
    agenda: &Agenda,
    desk: &mut Desk,
    rt: &R,
    sc: &Scenario,
    board: &Board,
)
    requires seat { IsSeatOf board.now desk.old.incumbent.seat }
    requires first { IsExact sc.now board.now.first }
    requires ready { IsReady sc.now board.now.first (worker_view kit.now agenda.now desk.old) }
    ensures scouts { Scouts (desk_view desk.old) (desk_view desk.new) }
    ensures ready { IsReady sc.now board.now.first (worker_view kit.now agenda.now desk.new) }
{
    let _kept = agenda;
    if kit.place() == 0 && sc.horizon() >= LEAST_HORIZON {
        desk.scout(rt, sc, board);
    }
}
