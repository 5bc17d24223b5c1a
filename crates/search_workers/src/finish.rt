//! What the calling thread does once all workers have left: it goes on over the tasks left, at the desk of worker 0.

ghost use Rattle.std.specs.Prelude.{◌≡◌, ◌+◌, ◌<◌, [], length, map, All, MatchOption};
ghost use Rattle.search_model.specs.Legal.{IsLegal};
ghost use Rattle.bound_tree.specs.Close.{IsExact};
ghost use Rattle.search_workers.specs.Desks.{IsInOrder, IsSameDesk};
ghost use Rattle.search_workers.specs.Seen.{desk_view};
ghost use Rattle.search_workers.specs.Finish.{MayClose, WorksOff, EndsWork};
ghost use Rattle.search_workers.specs.Settled.{IsSettled, LeaveDesks, EndsSearch};

use crate::children::stack_children;
use crate::closing::Closing;
use crate::desk::Desk;
use crate::left::Left;
use incumbent_board::Board;
use node_tickets::Tickets;
use search_model::{Path, Scenario};
use std::sync::Wait;

// Closes the last prefix that waits, all of whose children wait then; or says why that ended.
fn close_one<R: Wait>(
    desk: &mut Desk,
    rt: &R,
    sc: &Scenario,
    tickets: &Tickets,
    board: &Board,
) -> Option<Left>
    requires may { MayClose sc.now tickets.now board.now (desk_view desk.old) }
    requires first { IsExact sc.now board.now.first }
    requires some { 0 < length desk.old.stack }
    ensures works { WorksOff sc.now [] (desk_view desk.old) [] (desk_view desk.new) }
    ensures same { IsSameDesk (desk_view desk.old) (desk_view desk.new) }
    ensures order { IsInOrder sc.now board.now.first (desk_view desk.new) }
    ensures left { MatchOption result
        (MayClose sc.now tickets.now board.now (desk_view desk.new) ×
        (length desk.new.records.items ≡ length desk.old.records.items + 1))
        (λ left. EndsWork left [] (desk_view desk.new)) }
{
    sc.recall_sound();
    match desk.close_last(rt, sc, tickets, board) {
        Closing::Branches(prefix) => {
            stack_children(&mut desk.stack, sc, &prefix);
            None
        }
        Closing::Ends => None,
        Closing::Full => Some(Left::Full),
        Closing::NoMemory => Some(Left::NoMemory),
    }
}

// Closes what waits at a desk, and all below it.
fn close_all<R: Wait>(
    desk: &mut Desk,
    rt: &R,
    sc: &Scenario,
    tickets: &Tickets,
    board: &Board,
) -> Left
    requires may { MayClose sc.now tickets.now board.now (desk_view desk.old) }
    requires first { IsExact sc.now board.now.first }
    ensures works { WorksOff sc.now [] (desk_view desk.old) [] (desk_view desk.new) }
    ensures same { IsSameDesk (desk_view desk.old) (desk_view desk.new) }
    ensures order { IsInOrder sc.now board.now.first (desk_view desk.new) }
    ensures left { EndsWork result [] (desk_view desk.new) }
{
    'closing: while !desk.stack.is_empty() {
        if let Some(left) = close_one(desk, rt, sc, tickets, board) {
            return left;
        }
    }
    Left::Idle
}

/// Takes the tasks left up, the last one first, and closes each and all below it, at a desk where nothing waits. May wait.
pub fn take_up<R: Wait>(
    desk: &mut Desk,
    tasks: &mut Vec<Path>,
    rt: &R,
    sc: &Scenario,
    tickets: &Tickets,
    board: &Board,
) -> Left
    requires may { MayClose sc.now tickets.now board.now (desk_view desk.old) }
    requires first { IsExact sc.now board.now.first }
    requires legal { All (IsLegal sc.now) tasks.old.items }
    requires empty { desk.old.stack ≡ [] }
    ensures works { WorksOff sc.now tasks.old.items (desk_view desk.old) tasks.new.items (desk_view desk.new) }
    ensures same { IsSameDesk (desk_view desk.old) (desk_view desk.new) }
    ensures order { IsInOrder sc.now board.now.first (desk_view desk.new) }
    ensures left { EndsWork result tasks.new.items (desk_view desk.new) }
{
    'tasks: while let Some(task) = tasks.pop() {
        desk.stack.push(task);
        match close_all(desk, rt, sc, tickets, board) {
            Left::Idle => {}
            Left::Full => return Left::Full,
            Left::NoMemory => return Left::NoMemory,
        }
    }
    Left::Idle
}

// Takes the tasks left up at the desk of worker 0.
fn take_up_first<R: Wait>(
    desks: &mut Vec<Desk>,
    tasks: &mut Vec<Path>,
    rt: &R,
    sc: &Scenario,
    tickets: &Tickets,
    board: &Board,
) -> Left
    requires some { 0 < length desks.old.items }
    requires first { IsExact sc.now board.now.first }
    requires settled { IsSettled sc.now tickets.now board.now tasks.old.items (map desk_view desks.old.items) }
    requires idle { LeaveDesks Left.Idle (map desk_view desks.old.items) }
    ensures many { length desks.new.items ≡ length desks.old.items }
    ensures settled { IsSettled sc.now tickets.now board.now tasks.new.items (map desk_view desks.new.items) }
    ensures ends { EndsSearch result tasks.new.items (map desk_view desks.new.items) }
{
    sc.recall_sound();
    let desk = &mut desks[0];
    take_up(desk, tasks, rt, sc, tickets, board)
}

/// Goes on over the tasks left where all workers left idle, at the desk of worker 0; where one of them didn't, the tasks
/// left wait. May wait.
pub fn finish<R: Wait>(
    left: Left,
    desks: &mut Vec<Desk>,
    tasks: &mut Vec<Path>,
    rt: &R,
    sc: &Scenario,
    tickets: &Tickets,
    board: &Board,
) -> Left
    requires some { 0 < length desks.old.items }
    requires first { IsExact sc.now board.now.first }
    requires settled { IsSettled sc.now tickets.now board.now tasks.old.items (map desk_view desks.old.items) }
    requires left { LeaveDesks left (map desk_view desks.old.items) }
    ensures many { length desks.new.items ≡ length desks.old.items }
    ensures settled { IsSettled sc.now tickets.now board.now tasks.new.items (map desk_view desks.new.items) }
    ensures ends { EndsSearch result tasks.new.items (map desk_view desks.new.items) }
{
    match left {
        Left::Idle => take_up_first(desks, tasks, rt, sc, tickets, board),
        Left::Full => Left::Full,
        Left::NoMemory => Left::NoMemory,
    }
}
