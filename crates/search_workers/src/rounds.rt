//! Taking a task from the pool.

ghost use Rattle.std.specs.Prelude.{◌≡◌, ◌-◌, ◌*◌, ◌≤◌, IfSome, IfNone};
ghost use Rattle.steal_pool.specs.Kits.{TookOne};
ghost use Rattle.node_tickets.specs.Seats.{IsSeatOf as IsTicketOf};
ghost use Rattle.search_workers.specs.Rounds.{MissedAll, others};

use crate::gate::Gate;
use crate::pause::Lookout;
use node_tickets::{TicketSeat, Tickets};
use search_model::{Path, Scenario};
use steal_pool::{Kit, Theft};

/// After so many rounds in a row that got no task a worker leaves.
pub const ROUNDS: u32 = 1024;

// Tries once to steal from each other worker, in ascending order from the own number plus one and round the end, until a
// task is got.
fn steal_from_others(kit: &mut Kit<Path>) -> Option<Path>
    ensures got { IfSome result (λ task. TookOne kit.old task kit.new) }
    ensures none { IfNone result (MissedAll kit.old (others kit.old) kit.new) }
{
    let workers = kit.workers();
    let place = kit.place();
    for ahead in 1..workers {
        let victim = if place + ahead < workers {
            place + ahead
        } else {
            place + ahead - workers
        };
        if let Theft::Got(task) = kit.steal(victim) {
            return Some(task);
        }
    }
    None
}

// A round: the first task of the own deque, else one that is stolen.
pub fn take_in_round(kit: &mut Kit<Path>) -> Option<Path>
    ensures got { IfSome result (λ task. TookOne kit.old task kit.new) }
    ensures none { IfNone result (MissedAll kit.old (others kit.old) kit.new) }
{
    match kit.own() {
        Some(task) => Some(task),
        None => steal_from_others(kit),
    }
}

// Pauses after a round that got no task, where there are others who may share one.
fn wait_for_others(lookout: &mut Lookout, workers: u32, ticket: &mut TicketSeat, tickets: &Tickets)
    requires { IsTicketOf tickets.now ticket.old }
    ensures { ticket.new ≡ ticket.old }
{
    if workers > 1 {
        lookout.pause(tickets.drawn(ticket));
    }
}

/// Takes a task in one of `ROUNDS` rounds. The gate is told of each round that got none, after which the worker pauses, if
/// there are others who may be closing prefixes.
pub fn take_task<G: Gate>(
    kit: &mut Kit<Path>,
    ticket: &mut TicketSeat,
    sc: &Scenario,
    tickets: &Tickets,
    gate: &G,
) -> Option<Path>
    requires { IsTicketOf tickets.now ticket.old }
    ensures got { IfSome result (λ task. TookOne kit.old task kit.new) }
    ensures none { IfNone result (MissedAll kit.old (1024 * others kit.old) kit.new) }
    ensures misses { IfNone result (1024 * others kit.new ≤ kit.new.misses) }
    ensures ticket { ticket.new ≡ ticket.old }
{
    let place = kit.place();
    let workers = kit.workers();
    let mut lookout = Lookout::new(sc);
    for round in 0..ROUNDS {
        if let Some(task) = take_in_round(kit) {
            return Some(task);
        }
        gate.idle(place, round + 1);
        wait_for_others(&mut lookout, workers, ticket, tickets);
    }
    None
}
