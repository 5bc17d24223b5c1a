//! The search.

ghost use Rattle.std.specs.Prelude.{◌≡◌, ◌≢◌, ◌<◌, ◌≤◌, [], length, map, vec_capacity, All, IfOk, IsFalse, sum_by};
ghost use Rattle.search_model.specs.Order.{IsBest};
ghost use Rattle.bound_tree.specs.Accepts.{Accepts};
ghost use Rattle.bound_tree.specs.Close.{IsExact, LetsBranch};
ghost use Rattle.tree_gather.specs.Hauls.{AreJoined};
ghost use Rattle.node_tickets.specs.Seats.{AreAllSeats as AreAllTickets, numbers_of};
ghost use Rattle.incumbent_board.specs.Boards.{AreAllSeats};
ghost use Rattle.search_workers.specs.Seen.{desk_view};
ghost use Rattle.search_workers.specs.Crew.{IsComplete, MayGo, HasGone};
ghost use Rattle.search_workers.specs.Settled.{IsSettled, EndsSearch, WithMemory};
ghost use Rattle.search_workers.specs.Harvests.{EndsHarvest};
ghost use Rattle.search_workers.specs.Search.{plan_of, IfFull, StopsAtLimit};
ghost use Rattle.bound_tree.specs.declared.tree.TheConstants.{MOST_NODES};

use crate::agenda::{Agenda, Order};
use crate::answer::{Found, Partial, SearchStop};
use crate::crew::{Member, go_all};
use crate::desk::Desk;
use crate::finish::finish;
use crate::gate::Gate;
use crate::harvest::{Harvest, bring_in};
use crate::joins::{left_together, settle_all};
use crate::left::Left;
use crate::muster::{Crew, muster};
use incumbent_board::Board;
use node_tickets::Tickets;
use search_model::{Path, Scenario, Standing};
use std::alloc::AllocGlobal;
use std::sync::Wait;
use std::thread::Threads;
use steal_pool::Kit;
use tree_gather::gather;

// All workers go, beside each other.
fn work_together<R: Threads + Wait + Sync, G: Gate>(
    rt: &R,
    sc: &Scenario,
    tickets: &Tickets,
    board: &Board,
    gate: &G,
    members: &mut Vec<Member>,
)
    requires complete { IsComplete tickets.now board.now members.old.items }
    requires ready { All (λ m. MayGo sc.now tickets.now board.now m.worker) members.old.items }
    ensures complete { IsComplete tickets.now board.now members.new.items }
    ensures gone { All (HasGone sc.now board.now.first) members.new.items }
    ensures many { length members.new.items ≡ length members.old.items }
{
    go_all(rt, sc, tickets, board, gate, members.as_mut_slice());
}

// Settles the kits and goes on over the tasks left: how the search ended, the desks of all workers, and the tasks that
// are left still. Where memory runs out for the tasks, no desk is missing.
fn wind_up<R: Wait + AllocGlobal>(
    rt: &R,
    sc: &Scenario,
    tickets: &Tickets,
    board: &Board,
    members: Vec<Member>,
    kits: Vec<Kit<Path>>,
    agendas: Vec<Agenda>,
    desks: Vec<Desk>,
) -> (Left, Vec<Desk>, Vec<Path>)
    requires first { IsExact sc.now board.now.first }
    requires some { 0 < length members.items }
    requires complete { IsComplete tickets.now board.now members.items }
    requires gone { All (HasGone sc.now board.now.first) members.items }
    requires empty { (kits.items ≡ []) × (agendas.items ≡ []) × (desks.items ≡ []) }
    requires room { (length members.items ≤ vec_capacity kits) × (length members.items ≤ vec_capacity agendas) ×
        (length members.items ≤ vec_capacity desks) }
    ensures many { length result.1.items ≡ length members.items }
    ensures tickets { AreAllTickets tickets.now (map (λ d. d.ticket) (map desk_view result.1.items)) }
    ensures seats { AreAllSeats board.now (map (λ d. d.seat) (map desk_view result.1.items)) }
    ensures settled { WithMemory result.0
        (IsSettled sc.now tickets.now board.now result.2.items (map desk_view result.1.items)) }
    ensures ends { EndsSearch result.0 result.2.items (map desk_view result.1.items) }
{
    sc.recall_sound();
    let alloc = rt.alloc();
    let left = left_together(&members);
    let (mut desks, tasks_left) = settle_all(alloc, members, kits, agendas, desks);
    let Ok(mut tasks) = tasks_left else {
        return (Left::NoMemory, desks, Vec::new(alloc));
    };
    let end = finish(left, &mut desks, &mut tasks, rt, sc, tickets, board);
    (end, desks, tasks)
}

// Whether memory ran out, for a worker or for what was brought in.
fn fell_short(left: Left, harvest: &Harvest) -> bool
    ensures { IsFalse result → IsFalse harvest.now.short × (left ≢ Left.NoMemory) }
{
    match left {
        Left::Idle => harvest.short,
        Left::Full => harvest.short,
        Left::NoMemory => true,
    }
}

// Closes the tickets and the board where memory ran out, and drops what was brought in. No clause tells of the closing.
fn give_up<R: Wait>(
    rt: &R,
    tickets: Tickets,
    board: Board,
    harvest: Harvest,
) -> Result<Found, SearchStop>
    requires tickets { AreAllTickets tickets harvest.tickets.items }
    requires seats { AreAllSeats board harvest.seats.items }
    ensures { result ≡ Err SearchStop.NoMemory }
{
    let Harvest {
        closed: _,
        waiting: _,
        best: _,
        tickets: ticket_seats,
        seats,
        short: _,
    } = harvest;
    let _drawn = tickets.close(ticket_seats);
    let _last = board.close(rt, seats);
    Err(SearchStop::NoMemory)
}

// Closes the tickets and the board, and answers what was brought in.
fn conclude<R: Wait>(
    rt: &R,
    sc: &Scenario,
    tickets: Tickets,
    board: Board,
    end: Left,
    harvest: Harvest,
) -> Result<Found, SearchStop>
    requires tickets { AreAllTickets tickets harvest.tickets.items }
    requires seats { AreAllSeats board harvest.seats.items }
    requires joined { AreJoined sc.now board.first harvest.best harvest.waiting.items harvest.closed.items }
    requires counted { length harvest.closed.items ≡ sum_by numbers_of harvest.tickets.items }
    requires ends { EndsHarvest end harvest }
    ensures best { IfOk result (λ found. IsBest sc.now found.best.path) }
    ensures accepted { IfOk result (λ found. Accepts sc.now (plan_of sc.now found)) }
    ensures branches { IfOk result (λ found. LetsBranch sc.now board.first found.tree) }
    ensures few { IfOk result (λ found. length found.tree ≤ tickets.limit) }
    ensures closed { IfFull result (λ part. length part.closed.items ≡ tickets.limit) }
    ensures waiting { IfFull result (λ part. 0 < length part.waiting.items) }
    ensures joined { IfFull result (λ part.
        AreJoined sc.now board.first part.best part.waiting.items part.closed.items) }
{
    sc.recall_sound();
    let Harvest {
        closed,
        waiting,
        best,
        tickets: ticket_seats,
        seats,
        short: _,
    } = harvest;
    let _drawn = tickets.close(ticket_seats);
    let _last = board.close(rt, seats);
    match end {
        Left::Idle => Ok(Found {
            best,
            tree: gather(sc, closed),
        }),
        Left::Full => Err(SearchStop::Full(Partial {
            closed,
            waiting,
            best,
        })),
        Left::NoMemory => Err(SearchStop::NoMemory),
    }
}

/// The best path with its value, and a bound tree that is accepted, by 1 to 16 workers beside each other.
///
/// The search begins with `first`, a path with its exact value, such as the opening. A worker closes each prefix under the
/// best standing that it knows by then, in this order, and shares some of what waits with the others. `gate` is told of each step
/// of a worker. The error is `Full` only where there are more than `nodes` prefixes that `first` doesn't rule out by a
/// bound above them; it comes with `nodes` records and what waits. Where memory ran out for one worker, it is `NoMemory`.
/// The search may wait.
pub fn search<R: Threads + Wait + Sync + AllocGlobal, G: Gate>(
    rt: &R,
    sc: &Scenario,
    first: &Standing,
    workers: u32,
    nodes: u64,
    order: Order,
    gate: &G,
) -> Result<Found, SearchStop>
    requires exact { IsExact sc.now first.now }
    requires workers { (1 ≤ workers) × (workers ≤ 16) }
    requires nodes { (1 ≤ nodes) × (nodes ≤ MOST_NODES) }
    ensures best { IfOk result (λ found. IsBest sc.now found.best.path) }
    ensures accepted { IfOk result (λ found. Accepts sc.now (plan_of sc.now found)) }
    ensures branches { IfOk result (λ found. LetsBranch sc.now first.now found.tree) }
    ensures few { IfOk result (λ found. length found.tree ≤ nodes) }
    ensures full { IfFull result (StopsAtLimit sc.now first.now nodes) }
{
    sc.recall_sound();
    let Crew {
        tickets,
        board,
        mut members,
        room,
    } = muster(rt.alloc(), sc, first, workers, nodes, order)?;
    work_together(rt, sc, &tickets, &board, gate, &mut members);
    let (end, desks, tasks) = wind_up(
        rt,
        sc,
        &tickets,
        &board,
        members,
        room.kits,
        room.agendas,
        room.desks,
    );
    let harvest = bring_in(rt.alloc(), first, tasks, desks, room.tickets, room.seats);
    if fell_short(end, &harvest) {
        return give_up(rt, tickets, board, harvest);
    }
    conclude(rt, sc, tickets, board, end, harvest)
}
