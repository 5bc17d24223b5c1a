//! What all desks have together.

ghost use Rattle.std.specs.Prelude.{◌≡◌, ◌<◌, ◌≤◌, length, map, OnOk, ◌++◌, ◌∷◌, [], vec_len, vec_capacity, IsFalse, if◌then◌else◌};
ghost use Rattle.search_model.specs.Order.{better as is_better};
ghost use Rattle.tree_gather.specs.Hauls.{IsBestOf};
ghost use Rattle.search_workers.specs.Seen.{desk_view};
ghost use Rattle.search_workers.specs.Settled.{closed_at, waiting_at, lasts_at};
ghost use Rattle.search_workers.specs.Harvests.{Adds};

use crate::desk::Desk;
use crate::incumbent::Incumbent;
use crate::room::push_into_room;
use bound_tree::TreeNode;
use exact_parts::NoMemory;
use incumbent_board::BoardSeat;
use node_tickets::TicketSeat;
use search_model::{Path, Standing, better};
use std::alloc::Global;

/// All records, all that waits, the best standing, and all seats. Where memory ran out for the records or for what waits,
/// these are short.
#[derive(Drop)]
pub struct Harvest {
    pub closed: Vec<TreeNode>,
    pub waiting: Vec<Path>,
    pub best: Standing,
    pub tickets: Vec<TicketSeat>,
    pub seats: Vec<BoardSeat>,
    pub short: bool,
}

// Adds the lists of a desk.
fn add_lists(
    closed: &mut Vec<TreeNode>,
    waiting: &mut Vec<Path>,
    mut records: Vec<TreeNode>,
    mut prefixes: Vec<Path>,
) -> Result<(), NoMemory>
    ensures closed { OnOk result (closed.new.items ≡ closed.old.items ++ records.items) }
    ensures waiting { OnOk result (waiting.new.items ≡ waiting.old.items ++ prefixes.items) }
{
    closed.append(&mut records)?;
    waiting.append(&mut prefixes)?;
    Ok(())
}

// Adds the seats of a desk, for which there is room.
fn add_seats(
    tickets: &mut Vec<TicketSeat>,
    seats: &mut Vec<BoardSeat>,
    ticket: TicketSeat,
    seat: BoardSeat,
)
    requires room { (vec_len tickets.old < vec_capacity tickets.old) × (vec_len seats.old < vec_capacity seats.old) }
    ensures tickets { tickets.new.items ≡ tickets.old.items ++ ticket ∷ [] }
    ensures seats { seats.new.items ≡ seats.old.items ++ seat ∷ [] }
    ensures room { (vec_capacity tickets.old ≤ vec_capacity tickets.new) ×
        (vec_capacity seats.old ≤ vec_capacity seats.new) }
{
    push_into_room(tickets, ticket);
    push_into_room(seats, seat);
}

// Keeps the better of two standings.
fn keep_better(best: &mut Standing, last: &Standing)
    ensures { best.new ≡ (if is_better last.now best.old then last.now else best.old) }
{
    if better(last, best) {
        *best = *last;
    }
}

// Adds the lists of a desk, or notes that memory ran out for them.
fn add_or_note(harvest: &mut Harvest, records: Vec<TreeNode>, prefixes: Vec<Path>)
    ensures before { IsFalse harvest.new.short → IsFalse harvest.old.short }
    ensures closed { IsFalse harvest.new.short → harvest.new.closed.items ≡ harvest.old.closed.items ++ records.items }
    ensures waiting { IsFalse harvest.new.short →
        harvest.new.waiting.items ≡ harvest.old.waiting.items ++ prefixes.items }
    ensures best { harvest.new.best ≡ harvest.old.best }
    ensures seats { (harvest.new.tickets ≡ harvest.old.tickets) × (harvest.new.seats ≡ harvest.old.seats) }
{
    let added = add_lists(&mut harvest.closed, &mut harvest.waiting, records, prefixes);
    if added.is_err() {
        harvest.short = true;
    }
}

// Adds what a desk has. Where memory runs out for its lists, that is noted, and its seats are added all the same.
fn add_desk(harvest: &mut Harvest, desk: Desk)
    requires room { (vec_len harvest.old.tickets < vec_capacity harvest.old.tickets) ×
        (vec_len harvest.old.seats < vec_capacity harvest.old.seats) }
    ensures adds { Adds harvest.old (desk_view desk) harvest.new }
    ensures room { (vec_capacity harvest.old.tickets ≤ vec_capacity harvest.new.tickets) ×
        (vec_capacity harvest.old.seats ≤ vec_capacity harvest.new.seats) }
{
    keep_better(&mut harvest.best, &desk.incumbent.standing);
    let Desk {
        ticket,
        incumbent,
        scratch,
        stack,
        records,
    } = desk;
    drop(scratch);
    let Incumbent {
        standing: _,
        seat,
        belief,
    } = incumbent;
    drop(belief);
    add_seats(&mut harvest.tickets, &mut harvest.seats, ticket, seat);
    add_or_note(harvest, records, stack.into_prefixes());
}

/// What all desks have, and the tasks left, in a search from the standing `first`. The seats go into room that was taken
/// for them, so that none is missing where memory runs out.
pub fn bring_in(
    alloc: Global,
    first: &Standing,
    tasks: Vec<Path>,
    desks: Vec<Desk>,
    tickets: Vec<TicketSeat>,
    seats: Vec<BoardSeat>,
) -> Harvest
    requires empty { (tickets.items ≡ []) × (seats.items ≡ []) }
    requires room { (length desks.items ≤ vec_capacity tickets) × (length desks.items ≤ vec_capacity seats) }
    ensures closed { IsFalse result.short → result.closed.items ≡ closed_at (map desk_view desks.items) }
    ensures waiting { IsFalse result.short → result.waiting.items ≡ waiting_at tasks.items (map desk_view desks.items) }
    ensures best { IsBestOf (lasts_at first.now (map desk_view desks.items)) result.best }
    ensures tickets { result.tickets.items ≡ map (λ d. d.ticket) (map desk_view desks.items) }
    ensures seats { result.seats.items ≡ map (λ d. d.seat) (map desk_view desks.items) }
{
    let mut all = Harvest {
        closed: Vec::new(alloc),
        waiting: tasks,
        best: *first,
        tickets,
        seats,
        short: false,
    };
    for desk in desks {
        add_desk(&mut all, desk);
    }
    all
}
