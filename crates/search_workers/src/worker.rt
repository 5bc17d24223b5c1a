//! Workers.

ghost use Rattle.std.specs.Prelude.{◌≡◌, ◌<◌, [], IfOk};
ghost use Rattle.bound_tree.specs.Close.{IsExact};
ghost use Rattle.steal_pool.specs.News.{IsFresh as IsFreshKit};
ghost use Rattle.node_tickets.specs.Seats.{IsFresh, IsSeatOf as IsTicketOf, MayDraw};
ghost use Rattle.incumbent_board.specs.Boards.{IsNewSeat, IsSeatOf};

use crate::agenda::{Agenda, Order};
use crate::desk::Desk;
use crate::gate::Gate;
use crate::left::Left;
use crate::run::run;
use crate::scouting::scout_first;
use crate::stack::Stack;
use exact_parts::NoMemory;
use incumbent_board::{Board, BoardSeat};
use node_tickets::{TicketSeat, Tickets};
use search_model::{Path, Scenario, Standing};
use std::alloc::Global;
use std::marker::Model;
use std::sync::Wait;
use steal_pool::Kit;

/// A worker of a search: its kit, with which it shares tasks, its agenda, and its desk, at which it closes prefixes.
///
/// It closes the last prefix of its private stack. Where that is empty it takes a task: in each round the first one of its
/// own deque, else one that it steals, with one try at each other worker, in ascending order from its own number plus one
/// and round the end. After 1,024 rounds in a row that got none it leaves. Between two such rounds it pauses, longer each
/// time, as long as it sees numbers being drawn; a worker without others doesn't.
///
/// Where there are 4 periods or more, the worker that begins with the empty prefix sends a scout first, from the standing
/// that it uses. A better path that the scout found takes that standing's place, and is offered to the board.
///
/// Before it closes a prefix it makes room for the record, looks at the board, and draws a number. A better standing that
/// the board shows is used from then on if its path is legal and whole and its value is exact, which the worker computes
/// itself. At a number that isn't below the limit it leaves, and the prefix waits. A path that is better than the standing
/// in use takes its place, and is offered to the board.
///
/// The children of a prefix that branches and is shorter than half the horizon are shared: all but the least go to the own
/// deque, where the others may steal them. All other children wait on the private stack, the least of them on top.
///
/// Where the greatest number comes first, the children of a prefix that branches go on its agenda, each with the edge bound
/// of the prefix by way of the child's last position as its number. It takes the prefix with the greatest number from there,
/// of equals the least, and a task from the pool where there is none. After each tenth record it goes down: of the children
/// of the prefix that it closed last it takes the one with the greatest number, and so on as long as what it closed
/// branches. Where it isn't the only worker and goes no further down, after each eighth record it takes a task in one round, and
/// puts the prefix with the greatest number into the own deque.
///
/// Contracts see the kit, the agenda and the desk, and what the worker brings back by `haul_of`.
#[derive(Drop)]
pub struct Worker {
    kit: Kit<Path>,
    agenda: Agenda,
    desk: Desk,
}

impl Model for Worker {
    ghost use Rattle.search_workers.specs.Workers.{WorkerView};

    ghost Value = { WorkerView };

    ghost use Rattle.search_workers.specs.Seen.{desk_view};
    ghost use Rattle.search_workers.specs.Agendas.{kept};

    ghost view = { λ w. record { kit = w.kit; agenda = kept w.agenda; desk = desk_view w.desk } };
}

ghost use Rattle.search_workers.specs.Workers.{begun_by};

// Puts what a worker begins with on its private stack.
fn begin(stack: &mut Stack, place: u32)
    requires { stack.old ≡ [] }
    ensures { stack.new ≡ begun_by place }
{
    if place == 0 {
        stack.push(Path::empty());
    }
}

impl Worker {
    ghost use Rattle.search_workers.specs.Seen.{desk_view};
    ghost use Rattle.search_workers.specs.Agendas.{kept};
    ghost use Rattle.search_workers.specs.Workers.{IsReady, Went};

    /// A worker that has done nothing yet, in a search from the standing `first`. The one whose kit has place 0 begins with
    /// the empty prefix, each other one with nothing. Takes all the memory that it needs, but for its records.
    pub fn new(
        alloc: Global,
        sc: &Scenario,
        first: &Standing,
        kit: Kit<Path>,
        seat: BoardSeat,
        ticket: TicketSeat,
        order: Order,
    ) -> Result<Worker, NoMemory>
        requires exact { IsExact sc.now first.now }
        requires kit { IsFreshKit kit }
        requires seat { IsNewSeat first.now seat }
        requires ticket { IsFresh ticket }
        ensures ready { IfOk result (IsReady sc.now first.now) }
        ensures kit { IfOk result (λ w. w.kit ≡ kit) }
        ensures seat { IfOk result (λ w. w.desk.seat ≡ seat) }
        ensures ticket { IfOk result (λ w. w.desk.ticket ≡ ticket) }
        ensures waiting { IfOk result (λ w. w.desk.waiting ≡ begun_by kit.place) }
    {
        let mut desk = Desk::new(alloc, sc, first, seat, ticket)?;
        begin(&mut desk.stack, kit.place());
        Ok(Worker {
            kit,
            agenda: Agenda::new(alloc, order),
            desk,
        })
    }

    /// Closes prefixes until there is nothing to do, the limit is reached, or memory runs out. The gate is told of each
    /// prefix once its children are disposed of, and of each round that got no task. The search is one from the standing
    /// that the board was started with. Takes memory for the records alone. May wait; where its waits for the board and
    /// its tries of an offer end, it returns.
    pub fn go<R: Wait, G: Gate>(
        &mut self,
        rt: &R,
        sc: &Scenario,
        tickets: &Tickets,
        board: &Board,
        gate: &G,
    ) -> Left
        requires ticket { IsTicketOf tickets.now self.old.desk.ticket }
        requires may { MayDraw self.old.desk.ticket }
        requires seat { IsSeatOf board.now self.old.desk.seat }
        requires first { IsExact sc.now board.now.first }
        requires ready { IsReady sc.now board.now.first self.old }
        ensures { Went sc.now board.now.first self.old result self.new }
    {
        scout_first(&self.kit, &self.agenda, &mut self.desk, rt, sc, board);
        run(
            &mut self.kit,
            &mut self.agenda,
            &mut self.desk,
            rt,
            sc,
            tickets,
            board,
            gate,
        )
    }

    /// Its kit, its agenda and its desk.
    pub(crate) fn part(self) -> (Kit<Path>, Agenda, Desk)
        ensures kit { result.0 ≡ self.kit }
        ensures agenda { kept result.1 ≡ self.agenda }
        ensures desk { desk_view result.2 ≡ self.desk }
    {
        let Worker { kit, agenda, desk } = self;
        (kit, agenda, desk)
    }
}
