//! What a worker closes next.

ghost use Rattle.std.specs.Prelude.{◌≡◌, ◌*◌, ◌≤◌, [], None, IfNone};
ghost use Rattle.node_tickets.specs.Seats.{IsSeatOf as IsTicketOf};
ghost use Rattle.search_workers.specs.Agendas.{prefixes_in, kept, out_of};
ghost use Rattle.search_workers.specs.Rounds.{others};
ghost use Rattle.search_workers.specs.Turns.{Shifts};

use crate::agenda::{Agenda, Numbered, push_numbered};
use crate::gate::Gate;
use crate::rounds::{take_in_round, take_task};
use node_tickets::{TicketSeat, Tickets};
use search_model::{Path, Scenario};
use std::collections::BinaryHeap;
use steal_pool::Kit;

// Puts the prefix with the greatest number into the own deque, where the others may steal it.
fn offer(kit: &mut Kit<Path>, heap: &mut BinaryHeap<Numbered>)
    ensures shifts { Shifts kit.old (prefixes_in heap.old) kit.new (prefixes_in heap.new) (out_of None) }
    ensures none { prefixes_in heap.old ≡ [] → prefixes_in heap.new ≡ [] }
{
    let Some(item) = heap.pop() else {
        return;
    };
    if let Err(back) = kit.put(item.prefix) {
        push_numbered(
            heap,
            Numbered {
                number: item.number,
                prefix: back,
            },
        );
    }
}

// The first task of the own deque, or one that is stolen, or else the prefix with the greatest number.
fn take_or_pop(kit: &mut Kit<Path>, agenda: &mut Agenda) -> Option<Path>
    ensures shifts { Shifts kit.old (kept agenda.old) kit.new (kept agenda.new) (out_of result) }
    ensures none { IfNone result (kept agenda.new ≡ []) }
{
    match take_in_round(kit) {
        Some(task) => Some(task),
        None => agenda.pop(),
    }
}

// The same, after which the prefix with the greatest number is shared.
fn take_and_share(kit: &mut Kit<Path>, agenda: &mut Agenda) -> Option<Path>
    ensures shifts { Shifts kit.old (kept agenda.old) kit.new (kept agenda.new) (out_of result) }
    ensures none { IfNone result (kept agenda.new ≡ []) }
{
    let next = take_or_pop(kit, agenda);
    offer(kit, &mut agenda.heap);
    next
}

// What is at hand: mostly the prefix with the greatest number.
fn take_at_hand(kit: &mut Kit<Path>, agenda: &mut Agenda, closed: usize) -> Option<Path>
    ensures shifts { Shifts kit.old (kept agenda.old) kit.new (kept agenda.new) (out_of result) }
    ensures none { IfNone result (kept agenda.new ≡ []) }
{
    if kit.workers() > 1 && agenda.is_due(closed) {
        return take_and_share(kit, agenda);
    }
    agenda.pop()
}

/// What a worker who has closed so many prefixes closes next: what is at hand, or else a task from the pool.
pub fn take_next<G: Gate>(
    kit: &mut Kit<Path>,
    agenda: &mut Agenda,
    closed: usize,
    ticket: &mut TicketSeat,
    sc: &Scenario,
    tickets: &Tickets,
    gate: &G,
) -> Option<Path>
    requires { IsTicketOf tickets.now ticket.old }
    ensures shifts { Shifts kit.old (kept agenda.old) kit.new (kept agenda.new) (out_of result) }
    ensures none { IfNone result (kept agenda.new ≡ []) }
    ensures misses { IfNone result (1024 * others kit.new ≤ kit.new.misses) }
    ensures ticket { ticket.new ≡ ticket.old }
{
    match take_at_hand(kit, agenda, closed) {
        Some(prefix) => Some(prefix),
        None => take_task(kit, ticket, sc, tickets, gate),
    }
}
