//! What a worker does with the children of a prefix.

ghost use Rattle.std.specs.Prelude.{◌≡◌, ◌+◌, ◌*◌, ◌<◌, ◌≤◌, ◌++◌, length, nat_lt, reverse, IsTrue};
ghost use Rattle.std.specs.BinaryHeap.{heap_len, heap_capacity};
ghost use Rattle.search_model.specs.Legal.{IsLegal};
ghost use Rattle.bound_tree.specs.Accepts.{children_by, children_of};
ghost use Rattle.steal_pool.specs.Kits.{put_of};
ghost use Rattle.path_node.specs.Room.{IsMadeFor};
ghost use Rattle.search_workers.specs.Agendas.{kept};
ghost use Rattle.search_workers.specs.Children.{Puts, Shares, OnlyPut, Disposes, HandsOn};

use crate::agenda::Agenda;
use crate::stack::Stack;
use bound_tree::extended;
use path_node::{Scratch, children};
use search_model::{Path, Scenario};
use steal_pool::Kit;

/// Puts all children of a prefix on a private stack, so that the least is taken first.
#[tactic(auto, using(search_model::proofs::Children::few_moves))]
pub fn stack_children(stack: &mut Stack, sc: &Scenario, prefix: &Path)
    requires legal { IsLegal sc.now prefix.now }
    requires shorter { length prefix.now < sc.now.horizon }
    requires room { length stack.old ≤ 63 * length prefix.now }
    ensures { stack.new ≡ stack.old ++ reverse (children_of sc.now prefix.now) }
{
    sc.recall_sound();
    stack.push_children(prefix, children(sc, prefix));
}

// Puts the children of a prefix by these moves into the own deque, in their order. Those that it hands back go to the
// private stack as they come.
fn put_children(kit: &mut Kit<Path>, stack: &mut Stack, prefix: &Path, moves: &[u8])
    requires short { length prefix.now < 32 }
    requires room { length stack.old + length moves.now ≤ 2048 }
    ensures puts { Puts (children_by prefix.now moves.now) (put_of kit.old) stack.old (put_of kit.new)
        stack.new }
    ensures kit { OnlyPut kit.old kit.new }
{
    for next in moves {
        if let Err(back) = kit.put(extended(prefix, *next)) {
            stack.push(back);
        }
    }
}

// Puts all children of a prefix but the least into the own deque, in ascending order, and then the least on the private
// stack, where it is above those that the deque handed back.
#[tactic(auto, using(search_model::proofs::Children::few_moves, search_model::proofs::Children::some_moves))]
fn share_children(kit: &mut Kit<Path>, stack: &mut Stack, sc: &Scenario, prefix: &Path)
    requires legal { IsLegal sc.now prefix.now }
    requires shorter { length prefix.now < sc.now.horizon }
    requires room { length stack.old ≤ 63 * length prefix.now }
    ensures shares { Shares (children_of sc.now prefix.now) (put_of kit.old) stack.old (put_of kit.new) stack.new }
    ensures kit { OnlyPut kit.old kit.new }
{
    sc.recall_sound();
    let [least, later @ ..] = children(sc, prefix) else {
        unreachable!()
    };
    put_children(kit, stack, prefix, later);
    stack.push(extended(prefix, *least));
}

/// Shares the children of a prefix of less than half the horizon, and puts those of a longer one on the private stack.
pub fn dispose(kit: &mut Kit<Path>, stack: &mut Stack, sc: &Scenario, prefix: &Path)
    requires legal { IsLegal sc.now prefix.now }
    requires shorter { length prefix.now < sc.now.horizon }
    requires room { length stack.old ≤ 63 * length prefix.now }
    ensures { Disposes (children_of sc.now prefix.now) (nat_lt (length prefix.now * 2) sc.now.horizon) kit.old stack.old
        kit.new stack.new }
{
    if prefix.len() * 2 < sc.horizon() as usize {
        share_children(kit, stack, sc, prefix);
    } else {
        stack_children(stack, sc, prefix);
    }
}

/// Hands the children of the prefix that was closed last on, where so many were closed: to the agenda where the greatest
/// number comes first, else as `dispose` does.
pub fn hand_on(
    kit: &mut Kit<Path>,
    agenda: &mut Agenda,
    stack: &mut Stack,
    scratch: &mut Scratch,
    sc: &Scenario,
    prefix: &Path,
    closed: usize,
)
    requires legal { IsLegal sc.now prefix.now }
    requires shorter { length prefix.now < sc.now.horizon }
    requires room { length stack.old ≤ 63 * length prefix.now }
    requires agenda { IsTrue agenda.old.by_number → heap_len agenda.old.heap + 64 ≤ heap_capacity agenda.old.heap }
    requires made { IsMadeFor sc.now scratch.old }
    ensures hands_on { HandsOn (children_of sc.now prefix.now) kit.old (kept agenda.old) stack.old kit.new (kept agenda.new) stack.new }
    ensures made { IsMadeFor sc.now scratch.new }
{
    if agenda.by_number {
        agenda.push_children(scratch, sc, prefix, closed);
    } else {
        dispose(kit, stack, sc, prefix);
    }
}
