//! The workers of a search together.

ghost use Rattle.std.specs.Prelude.{◌<◌, All};
ghost use Rattle.std.specs.List.{AllZip};
ghost use Rattle.std.specs.Thread.{IsSync};
ghost use Rattle.search_workers.specs.Crew.{MayGo};
ghost use Rattle.search_workers.specs.Runs.{Runs};

use crate::gate::Gate;
use crate::left::Left;
use crate::worker::Worker;
use incumbent_board::Board;
use node_tickets::Tickets;
use search_model::Scenario;
use std::sync::Wait;
use std::thread;
use std::thread::Threads;

/// A worker, and a place for why it left.
#[derive(Drop)]
pub struct Member {
    pub worker: Worker,
    pub left: Left,
}

// A worker goes.
fn go_once<R: Wait, G: Gate>(
    rt: &R,
    sc: &Scenario,
    tickets: &Tickets,
    board: &Board,
    gate: &G,
    member: &mut Member,
)
    requires { MayGo sc.now tickets.now board.now member.old.worker }
    ensures { Runs sc.now board.now.first member.old member.new }
{
    member.left = member.worker.go(rt, sc, tickets, board, gate);
}

/// All workers go, beside each other. May wait.
pub fn go_all<R: Threads + Wait + Sync, G: Gate>(
    rt: &R,
    sc: &Scenario,
    tickets: &Tickets,
    board: &Board,
    gate: &G,
    crew: &mut [Member],
)
    requires { All (λ m. MayGo sc.now tickets.now board.now m.worker) crew.old }
    ensures { AllZip (Runs sc.now board.now.first) crew.old crew.new }
{
    thread::for_each_mut(
        rt,
        crew,
        16,
        &|_: usize, member: &mut Member|
            requires { IsSync G.row × MayGo sc.now tickets.now board.now member.now.worker }
            ensures { Runs sc.entry.now board.entry.now.first member.entry.now member.exit.now }
        { go_once(rt, sc, tickets, board, gate, member) },
    );
}
