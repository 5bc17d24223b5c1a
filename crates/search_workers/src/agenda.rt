//! The prefixes that a worker keeps by their numbers.

ghost use Rattle.std.specs.Prelude.{◌≡◌, ◌+◌, ◌<◌, ◌≤◌, [], ◌∷◌, ◌++◌, ◌↔◌, length, map, refl, Contains, IsTrue, OnOk, IfNone};
ghost use Rattle.std.specs.Ordering.{nat_cmp, on, flip_args, then_cmp, as_partial_cmp};
ghost use Rattle.std.specs.Cmp.{partial_order_from_own_ties};
ghost use Rattle.std.specs.Cmp.Lexicographic.{slice_cmp};
ghost use Rattle.std.specs.Cmp.Rules.{comparing};
ghost use Rattle.std.specs.BinaryHeap.{heap_items, heap_len, heap_capacity};
ghost use Rattle.std.proofs.Common.{rules};
ghost use Rattle.search_model.specs.Legal.{IsLegal, moves_after};
ghost use Rattle.bound_tree.specs.Accepts.{children_by, children_of};
ghost use Rattle.path_node.specs.Room.{IsMadeFor, LooksThrough};
ghost use Rattle.search_core.specs.Counts.{SameItems};
ghost use Rattle.search_workers.specs.Agendas.{prefixes_in, kept, out_of};

use crate::room::push_into_room;
use bound_tree::extended;
use exact_parts::NoMemory;
use path_node::{Scratch, children};
use search_model::{Path, Scenario};
use std::alloc::Global;
use std::cmp::Ordering;
use std::collections::BinaryHeap;

/// In which order the workers of a search close what waits.
#[derive(Clone, Copy, Debug, PartialEq, Eq)]
pub enum Order {
    /// Depth first: of the children of the prefix that was closed last the least.
    DepthFirst,
    /// The prefix with the greatest number. That of a child is the edge bound of its parent by way of its last position.
    GreatestFirst,
}

// Greater than each number: what has it comes first.
const FIRST: u128 = u128::MAX;

// After so many records of a worker it goes down once.
const DOWN_EACH: usize = 10;

// After so many records of a worker it shares what it keeps.
const SHARED_EACH: usize = 8;

// How many children a prefix has at most.
const MOST_CHILDREN: usize = 64;

/// A prefix with its number. The greater of two has the greater number, or of equal ones the smaller prefix.
#[derive(Clone, Copy, PartialEq, Eq)]
pub struct Numbered {
    pub number: u128,
    pub prefix: Path,
}

impl PartialOrd for Numbered {
    ghost partial_cmp = { as_partial_cmp (then_cmp (on (λ i. i.number) nat_cmp)
        (flip_args (on (λ i. i.prefix) (slice_cmp nat_cmp)))) };

    ghost laws = { partial_order_from_own_ties (Prim.search (comparing, rules)) (Prim.search (comparing, rules)) };

    fn partial_cmp(&self, other: &Numbered) -> Option<Ordering> {
        Some(self.cmp(other))
    }
}

impl Ord for Numbered {
    ghost cmp = { then_cmp (on (λ i. i.number) nat_cmp) (flip_args (on (λ i. i.prefix) (slice_cmp nat_cmp))) };

    ghost total = { Prim.search (comparing, rules) };

    ghost matches_partial_cmp = { λ x y. refl };

    ghost matches_eq = { Prim.search (comparing, rules) };

    fn cmp(&self, other: &Numbered) -> Ordering {
        self.number
            .cmp(&other.number)
            .then(other.prefix.cmp(&self.prefix))
    }
}

/// The prefixes that wait at a worker by their numbers, where the greatest number comes first. Where it is depth first there
/// are none.
///
/// Contracts see the prefixes by `kept`.
#[derive(Drop)]
pub struct Agenda {
    pub by_number: bool,
    pub heap: BinaryHeap<Numbered>,
    // Whether the worker goes down from what it closed last.
    pub down: bool,
}

/// Puts a prefix into room that is there.
pub(crate) fn push_numbered(heap: &mut BinaryHeap<Numbered>, item: Numbered)
    requires { heap_len heap.old < heap_capacity heap.old }
    ensures items { SameItems (prefixes_in heap.new) (prefixes_in heap.old ++ item.prefix ∷ []) }
    ensures len { heap_len heap.new ≡ heap_len heap.old + 1 }
    ensures capacity { heap_capacity heap.old ≤ heap_capacity heap.new }
{
    let Ok(()) = heap.push(item) else {
        unreachable!()
    };
}

// The move with the greatest number, of equals the least.
fn greatest_move(scratch: &Scratch, sc: &Scenario, prefix: &Path, moves: &[u8]) -> Option<u8>
    requires made { IsMadeFor sc.now scratch.now }
    requires looks { LooksThrough sc.now prefix.now scratch.now }
    requires legal { IsLegal sc.now prefix.now }
    requires shorter { length prefix.now < sc.now.horizon }
    requires moves { moves.now ≡ moves_after sc.now prefix.now }
{
    let mut best = 0;
    let mut first = None;
    for b in moves {
        let number = scratch.through(sc, prefix, *b);
        if first.is_none() || best < number {
            best = number;
            first = Some(*b);
        }
    }
    first
}

// Puts the children of a prefix by its moves into room that is there, by their numbers. The one by the first of all moves
// comes first of all prefixes, if there is such a move.
fn push_each(
    heap: &mut BinaryHeap<Numbered>,
    scratch: &Scratch,
    sc: &Scenario,
    prefix: &Path,
    moves: &[u8],
    first: Option<u8>,
)
    requires made { IsMadeFor sc.now scratch.now }
    requires looks { LooksThrough sc.now prefix.now scratch.now }
    requires legal { IsLegal sc.now prefix.now }
    requires shorter { length prefix.now < sc.now.horizon }
    requires short { length prefix.now < 32 }
    requires moves { moves.now ≡ moves_after sc.now prefix.now }
    requires room { heap_len heap.old + length moves.now ≤ heap_capacity heap.old }
    ensures { SameItems (prefixes_in heap.new) (prefixes_in heap.old ++ children_by prefix.now moves.now) }
{
    for b in moves {
        let number = if first == Some(*b) {
            FIRST
        } else {
            scratch.through(sc, prefix, *b)
        };
        push_numbered(
            heap,
            Numbered {
                number,
                prefix: extended(prefix, *b),
            },
        );
    }
}

// Adds prefixes to others.
fn append_prefixes(items: &[Numbered], others: &mut Vec<Path>) -> Result<(), NoMemory>
    ensures { OnOk result (others.new.items ≡ others.old.items ++ map (λ i. i.prefix) items.now) }
{
    others.reserve(items.len())?;
    for item in items {
        push_into_room(others, item.prefix);
    }
    Ok(())
}

impl Agenda {
    /// An empty agenda. Takes no memory.
    pub fn new(alloc: Global, order: Order) -> Agenda
        ensures { kept result ≡ [] }
    {
        let by_number = match order {
            Order::DepthFirst => false,
            Order::GreatestFirst => true,
        };
        Agenda {
            by_number,
            heap: BinaryHeap::new(alloc),
            down: false,
        }
    }

    /// Makes room for the children of a prefix, where the greatest number comes first. Only this call takes memory.
    pub fn make_room(&mut self) -> Result<(), NoMemory>
        ensures kept { kept self.new ≡ kept self.old }
        ensures room { OnOk result (IsTrue self.new.by_number → heap_len self.new.heap + 64 ≤ heap_capacity self.new.heap) }
    {
        if self.by_number {
            self.heap.reserve(MOST_CHILDREN)?;
        }
        Ok(())
    }

    /// Takes the prefix with the greatest number.
    pub fn pop(&mut self) -> Option<Path>
        ensures out { SameItems (kept self.old) (kept self.new ++ out_of result) }
        ensures none { IfNone result (kept self.new ≡ []) }
    {
        let Some(item) = self.heap.pop() else {
            return None;
        };
        Some(item.prefix)
    }

    /// Whether a worker who has closed so many prefixes, and isn't the only one, shares now what it keeps.
    pub fn is_due(&self, closed: usize) -> bool {
        !self.down && closed % SHARED_EACH == 0 && !self.heap.is_empty()
    }

    /// Puts the children of the prefix that was closed last by their numbers, where so many were closed. Where the worker
    /// goes down, the greatest of them comes first.
    pub fn push_children(
        &mut self,
        scratch: &mut Scratch,
        sc: &Scenario,
        prefix: &Path,
        closed: usize,
    )
        requires made { IsMadeFor sc.now scratch.old }
        requires legal { IsLegal sc.now prefix.now }
        requires shorter { length prefix.now < sc.now.horizon }
        requires room { heap_len self.old.heap + 64 ≤ heap_capacity self.old.heap }
        ensures kept { SameItems (kept self.new) (kept self.old ++ children_of sc.now prefix.now) }
        ensures made { IsMadeFor sc.now scratch.new }
    {
        sc.recall_sound();
        self.down = self.down || closed % DOWN_EACH == 0;
        scratch.look_through(sc, prefix);
        let moves = children(sc, prefix);
        let first = if self.down {
            greatest_move(scratch, sc, prefix, moves)
        } else {
            None
        };
        push_each(&mut self.heap, scratch, sc, prefix, moves, first);
    }

    /// Adds the prefixes to others.
    pub fn add_to(&self, others: &mut Vec<Path>) -> Result<(), NoMemory>
        ensures { OnOk result (others.new.items ≡ others.old.items ++ kept self.now) }
    {
        append_prefixes(self.heap.as_slice(), others)
    }
}
