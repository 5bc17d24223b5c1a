//! The run of a worker.

ghost use Rattle.std.specs.Prelude.{◌≡◌, ◌+◌, ◌<◌, ◌≤◌, length, All, IsTrue};
ghost use Rattle.std.specs.BinaryHeap.{heap_len, heap_capacity};
ghost use Rattle.search_model.specs.Legal.{IsLegal};
ghost use Rattle.node_tickets.specs.Seats.{IsSeatOf as IsTicketOf, MayDraw};
ghost use Rattle.incumbent_board.specs.Boards.{IsSeatOf};
ghost use Rattle.bound_tree.specs.Close.{IsExact};
ghost use Rattle.search_workers.specs.Desks.{HasRoom};
ghost use Rattle.search_workers.specs.Agendas.{kept};
ghost use Rattle.search_workers.specs.Seen.{worker_view};
ghost use Rattle.search_workers.specs.Turns.{OnlyTook, HasWork, Turns};
ghost use Rattle.search_workers.specs.Workers.{IsReady, Went};

use crate::agenda::Agenda;
use crate::children::hand_on;
use crate::closing::Closing;
use crate::desk::Desk;
use crate::gate::Gate;
use crate::left::Left;
use crate::next::take_next;
use crate::stack::Stack;
use incumbent_board::Board;
use node_tickets::{TicketSeat, Tickets};
use search_model::{Path, Scenario};
use std::sync::Wait;
use steal_pool::Kit;

// Whether a legal prefix is on the private stack; where that is empty, what comes next is taken and put there.
fn has_work<G: Gate>(
    kit: &mut Kit<Path>,
    agenda: &mut Agenda,
    closed: usize,
    stack: &mut Stack,
    ticket: &mut TicketSeat,
    sc: &Scenario,
    tickets: &Tickets,
    gate: &G,
) -> bool
    requires ticket { IsTicketOf tickets.now ticket.old }
    requires legal { All (IsLegal sc.now) stack.old }
    requires room { HasRoom stack.old }
    ensures took { OnlyTook kit.old (kept agenda.old) stack.old kit.new (kept agenda.new) stack.new }
    ensures work { HasWork sc.now kit.new (kept agenda.new) stack.new result }
    ensures room { HasRoom stack.new }
    ensures ticket { ticket.new ≡ ticket.old }
{
    if !stack.is_empty() {
        return true;
    }
    let Some(task) = take_next(kit, agenda, closed, ticket, sc, tickets, gate) else {
        return false;
    };
    stack.push(task);
    sc.is_legal(&task)
}

// Closes the last prefix of the private stack and hands its children on, for which there is room on the agenda; or says why
// the worker leaves.
fn step<R: Wait>(
    kit: &mut Kit<Path>,
    agenda: &mut Agenda,
    desk: &mut Desk,
    rt: &R,
    sc: &Scenario,
    tickets: &Tickets,
    board: &Board,
) -> Option<Left>
    requires ticket { IsTicketOf tickets.now desk.old.ticket }
    requires may { MayDraw desk.old.ticket }
    requires seat { IsSeatOf board.now desk.old.incumbent.seat }
    requires first { IsExact sc.now board.now.first }
    requires ready { IsReady sc.now board.now.first (worker_view kit.old agenda.old desk.old) }
    requires some { 0 < length desk.old.stack }
    requires room { IsTrue agenda.old.by_number → heap_len agenda.old.heap + 64 ≤ heap_capacity agenda.old.heap }
    ensures { Turns sc.now board.now.first (worker_view kit.old agenda.old desk.old) result (worker_view kit.new agenda.new desk.new) }
{
    sc.recall_sound();
    match desk.close_last(rt, sc, tickets, board) {
        Closing::Branches(prefix) => {
            let closed = desk.records.len();
            hand_on(
                kit,
                agenda,
                &mut desk.stack,
                &mut desk.scratch,
                sc,
                &prefix,
                closed,
            );
            None
        }
        Closing::Ends => {
            agenda.down = false;
            None
        }
        Closing::Full => Some(Left::Full),
        Closing::NoMemory => Some(Left::NoMemory),
    }
}

// Makes room on the agenda, and then a step.
fn step_with_room<R: Wait>(
    kit: &mut Kit<Path>,
    agenda: &mut Agenda,
    desk: &mut Desk,
    rt: &R,
    sc: &Scenario,
    tickets: &Tickets,
    board: &Board,
) -> Option<Left>
    requires ticket { IsTicketOf tickets.now desk.old.ticket }
    requires may { MayDraw desk.old.ticket }
    requires seat { IsSeatOf board.now desk.old.incumbent.seat }
    requires first { IsExact sc.now board.now.first }
    requires ready { IsReady sc.now board.now.first (worker_view kit.old agenda.old desk.old) }
    requires some { 0 < length desk.old.stack }
    ensures { Turns sc.now board.now.first (worker_view kit.old agenda.old desk.old) result (worker_view kit.new agenda.new desk.new) }
{
    if agenda.make_room().is_err() {
        return Some(Left::NoMemory);
    }
    step(kit, agenda, desk, rt, sc, tickets, board)
}

// A step, where there is work, after which the gate is told; or why the worker leaves.
fn turn<R: Wait, G: Gate>(
    kit: &mut Kit<Path>,
    agenda: &mut Agenda,
    desk: &mut Desk,
    rt: &R,
    sc: &Scenario,
    tickets: &Tickets,
    board: &Board,
    gate: &G,
) -> Option<Left>
    requires ticket { IsTicketOf tickets.now desk.old.ticket }
    requires may { MayDraw desk.old.ticket }
    requires seat { IsSeatOf board.now desk.old.incumbent.seat }
    requires first { IsExact sc.now board.now.first }
    requires ready { IsReady sc.now board.now.first (worker_view kit.old agenda.old desk.old) }
    ensures { Turns sc.now board.now.first (worker_view kit.old agenda.old desk.old) result (worker_view kit.new agenda.new desk.new) }
{
    if !has_work(
        kit,
        agenda,
        desk.records.len(),
        &mut desk.stack,
        &mut desk.ticket,
        sc,
        tickets,
        gate,
    ) {
        return Some(Left::Idle);
    }
    let left = step_with_room(kit, agenda, desk, rt, sc, tickets, board);
    if left.is_none() {
        gate.turn(kit.place(), desk.records.len() as u64);
    }
    left
}

/// Takes turns until the worker leaves.
pub fn run<R: Wait, G: Gate>(
    kit: &mut Kit<Path>,
    agenda: &mut Agenda,
    desk: &mut Desk,
    rt: &R,
    sc: &Scenario,
    tickets: &Tickets,
    board: &Board,
    gate: &G,
) -> Left
    requires ticket { IsTicketOf tickets.now desk.old.ticket }
    requires may { MayDraw desk.old.ticket }
    requires seat { IsSeatOf board.now desk.old.incumbent.seat }
    requires first { IsExact sc.now board.now.first }
    requires ready { IsReady sc.now board.now.first (worker_view kit.old agenda.old desk.old) }
    ensures { Went sc.now board.now.first (worker_view kit.old agenda.old desk.old) result (worker_view kit.new agenda.new desk.new) }
{
    'turns: loop {
        if let Some(left) = turn(kit, agenda, desk, rt, sc, tickets, board, gate) {
            return left;
        }
    }
}
