//! Taking the workers of a search apart, once all have left.

ghost use Rattle.std.specs.Prelude.{◌≡◌, ◌≢◌, ◌≤◌, ◌++◌, [], length, map, vec_capacity, All, IfOk, OnOk, MatchBool};
ghost use Rattle.std.specs.List.{flat_map};
ghost use Rattle.steal_pool.specs.Kits.{put_of, taken_of};
ghost use Rattle.steal_pool.specs.Pools.{IsWhole};
ghost use Rattle.search_core.specs.Counts.{SameItems};
ghost use Rattle.search_workers.specs.Agendas.{kept};
ghost use Rattle.search_workers.specs.Crew.{SomeLeft, LeaveTogether};
ghost use Rattle.search_workers.specs.Seen.{desk_view};

use crate::agenda::Agenda;
use crate::crew::Member;
use crate::desk::Desk;
use crate::left::Left;
use crate::room::push_into_room;
use exact_parts::NoMemory;
use search_model::Path;
use std::alloc::Global;
use steal_pool::{Kit, settle};

// Whether some worker left so.
fn some_left(crew: &[Member], left: Left) -> bool
    ensures { MatchBool result (SomeLeft crew.now left) (All (λ m. m.left ≢ left) crew.now) }
{
    for member in crew {
        if member.left == left {
            return true;
        }
    }
    false
}

/// How the workers left together.
pub fn left_together(crew: &[Member]) -> Left
    ensures { LeaveTogether crew.now result }
{
    if some_left(crew, Left::NoMemory) {
        Left::NoMemory
    } else if some_left(crew, Left::Full) {
        Left::Full
    } else {
        Left::Idle
    }
}

// The kits, the agendas and the desks of all workers, in room for them. Takes no memory.
fn part_all(
    crew: Vec<Member>,
    mut kits: Vec<Kit<Path>>,
    mut agendas: Vec<Agenda>,
    mut desks: Vec<Desk>,
) -> (Vec<Kit<Path>>, Vec<Agenda>, Vec<Desk>)
    requires empty { (kits.items ≡ []) × (agendas.items ≡ []) × (desks.items ≡ []) }
    requires room { (length crew.items ≤ vec_capacity kits) × (length crew.items ≤ vec_capacity agendas) ×
        (length crew.items ≤ vec_capacity desks) }
    ensures kits { result.0.items ≡ map (λ m. m.worker.kit) crew.items }
    ensures agendas { map kept result.1.items ≡ map (λ m. m.worker.agenda) crew.items }
    ensures desks { map desk_view result.2.items ≡ map (λ m. m.worker.desk) crew.items }
{
    for member in crew {
        let Member { worker, left: _ } = member;
        let (kit, agenda, desk) = worker.part();
        push_into_room(&mut kits, kit);
        push_into_room(&mut agendas, agenda);
        push_into_room(&mut desks, desk);
    }
    (kits, agendas, desks)
}

// Adds the prefixes on agendas to tasks.
fn add_all(agendas: &[Agenda], tasks: &mut Vec<Path>) -> Result<(), NoMemory>
    ensures { OnOk result (tasks.new.items ≡ tasks.old.items ++ flat_map kept agendas.now) }
{
    for agenda in agendas {
        agenda.add_to(tasks)?;
    }
    Ok(())
}

// Settles kits: the tasks left, and what is on agendas.
fn settle_both(
    alloc: Global,
    kits: Vec<Kit<Path>>,
    agendas: &[Agenda],
) -> Result<Vec<Path>, NoMemory>
    requires whole { IsWhole kits.items }
    ensures { IfOk result (λ tasks. SameItems (flat_map put_of kits.items ++ flat_map kept agendas.now)
        (flat_map taken_of kits.items ++ tasks.items)) }
{
    let mut tasks = settle(alloc, kits)?;
    add_all(agendas, &mut tasks)?;
    Ok(tasks)
}

/// Settles the kits of all workers: their desks, and the tasks left, with what is on their agendas. Where memory runs out for
/// these, all desks are there still.
pub fn settle_all(
    alloc: Global,
    crew: Vec<Member>,
    kits: Vec<Kit<Path>>,
    agendas: Vec<Agenda>,
    desks: Vec<Desk>,
) -> (Vec<Desk>, Result<Vec<Path>, NoMemory>)
    requires whole { IsWhole (map (λ m. m.worker.kit) crew.items) }
    requires empty { (kits.items ≡ []) × (agendas.items ≡ []) × (desks.items ≡ []) }
    requires room { (length crew.items ≤ vec_capacity kits) × (length crew.items ≤ vec_capacity agendas) ×
        (length crew.items ≤ vec_capacity desks) }
    ensures desks { map desk_view result.0.items ≡ map (λ m. m.worker.desk) crew.items }
    ensures left { IfOk result.1 (λ tasks. SameItems
        (flat_map put_of (map (λ m. m.worker.kit) crew.items) ++ flat_map (λ m. m.worker.agenda) crew.items)
        (flat_map taken_of (map (λ m. m.worker.kit) crew.items) ++ tasks.items)) }
{
    let (kits, agendas, desks) = part_all(crew, kits, agendas, desks);
    (desks, settle_both(alloc, kits, &agendas))
}
