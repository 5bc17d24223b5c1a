//! One deque under the rule of the pool.

ghost use Rattle.std.specs.Prelude.{◌≡◌, ◌+◌, ◌-◌, ◌<◌, ◌≤◌, ◌++◌, [], ◌∷◌, IfOk, MatchOption, MatchResult};
ghost use Rattle.crossbeam_deque.specs.Handles.{view, IsPassOf, SamePass, worker_deque, stealer_deque, worker_view, worker_flavor, stealer_flavor, worker_port, worker_capacity, worker_index, SameWorker};
ghost use Rattle.crossbeam_deque.specs.Steals.{MatchSteal};
ghost use Rattle.steal_pool.specs.Rule.{ALL, hand, with_task, FirstAtOneMoment, EmptyAtOneMoment};

use crate::hand::Hand;
use crossbeam_deque::protocol::{Join, Outcome, Protocol, Split};
use crossbeam_deque::{Pass, Steal, Stealer, Worker};
use exact_parts::NoMemory;
use std::alloc::Global;

/// How many tasks a deque has room for.
pub const ROOM: usize = 4096;

/// The rule of a deque: no task is lost, and none is there twice.
pub struct NoneLost;

impl<T> Protocol<T, Hand<T>> for NoneLost {
    ghost use Rattle.std.specs.Prelude.{[]};
    ghost use Rattle.steal_pool.specs.Rule.{hand, IsBalanced, ALL};

    ghost holds = { IsBalanced };

    ghost first = { hand ALL [] [] };

    ghost guest = { hand 0 [] [] };
}

/// How a pass gives one of those that it stands for away, and takes one back.
pub struct Deals;

impl<T> Split<Hand<T>> for Deals {
    ghost use Rattle.std.specs.Prelude.{[], ◌-◌};
    ghost use Rattle.steal_pool.specs.Rule.{hand};

    ghost left = { λ v. hand (v.passes - 1) v.put v.taken };

    ghost right = { λ v. hand 1 [] [] };
}

impl<T> Join<Hand<T>> for Deals {
    ghost use Rattle.std.specs.Prelude.{[], ◌+◌, ◌++◌};
    ghost use Rattle.steal_pool.specs.Rule.{hand};

    ghost both = { λ v w. hand (v.passes + w.passes) (v.put ++ w.put) (v.taken ++ w.taken) };

    ghost spent = { hand 0 [] [] };
}

/// What a put tells.
pub struct Puts;

impl<T> Outcome<T, Hand<T>> for Puts {
    ghost use Rattle.std.specs.Prelude.{◌≡◌, ◌++◌};
    ghost use Rattle.steal_pool.specs.Rule.{hand};

    ghost then = { λ v xs w. w ≡ hand v.passes (v.put ++ xs) v.taken };
}

/// What a take tells, by the owner or by a thief.
pub struct Takes;

impl<T> Outcome<T, Hand<T>> for Takes {
    ghost use Rattle.std.specs.Prelude.{◌≡◌, ◌++◌};
    ghost use Rattle.steal_pool.specs.Rule.{hand, FirstAtOneMoment, EmptyAtOneMoment};

    ghost then = { λ v xs w. (w ≡ hand v.passes v.put (v.taken ++ xs)) × FirstAtOneMoment v xs };

    ghost empty = { EmptyAtOneMoment };
}

/// The owner's end of a deque.
pub type Own<T> = Worker<T, Global, Hand<T>, NoneLost>;

/// A thief's end of a deque.
pub type Thief<T> = Stealer<T, Global, Hand<T>, NoneLost>;

/// An empty deque with room for `ROOM` tasks, whose owner stands for all passes.
pub fn open_deque<T: Drop>(alloc: Global) -> Result<Own<T>, NoMemory>
    ensures fifo { IfOk result (λ own. worker_flavor own ≡ 0) }
    ensures port { IfOk result (λ own. worker_port own ≡ 0) }
    ensures room { IfOk result (λ own. (4096 ≤ worker_capacity own) × (worker_index own ≡ 0)) }
    ensures hand { IfOk result (λ own. worker_view own ≡ hand ALL [] []) }
{
    Ok(Own::fifo_as(alloc, ROOM)?)
}

/// Puts a task last.
pub fn put_task<T>(own: &mut Own<T>, task: T) -> Result<(), T>
    requires owner { worker_port own.old ≡ 0 }
    requires some { 0 < (worker_view own.old).passes }
    ensures same { SameWorker own.old own.new }
    ensures rule { let v = worker_view own.old in MatchResult result
        (λ _. (worker_view own.new ≡ hand v.passes (v.put ++ task ∷ []) v.taken) ×
        (worker_index own.new ≡ worker_index own.old + 1))
        (λ x. (x ≡ task) × (worker_view own.new ≡ v) × (worker_index own.new ≡ worker_index own.old) ×
        (worker_capacity own.old ≤ worker_index own.old)) }
{
    own.push_as::<Puts>(task)
}

/// Takes the first task, at the owner's end.
pub fn take_task<T>(own: &mut Own<T>) -> Option<T>
    requires fifo { worker_flavor own.old ≡ 0 }
    requires some { 0 < (worker_view own.old).passes }
    ensures same { SameWorker own.old own.new × (worker_index own.new ≤ worker_index own.old) }
    ensures rule { let v = worker_view own.old in MatchOption result
        ((worker_view own.new ≡ v) × EmptyAtOneMoment v)
        (λ x. (worker_view own.new ≡ with_task v x) × FirstAtOneMoment v (x ∷ [])) }
{
    own.pop_as::<Takes>()
}

/// Takes the first task, at a thief's end, in one try.
pub fn steal_task<T>(thief: &Thief<T>, pass: &mut Pass<T, Hand<T>>) -> Steal<T>
    requires pass { IsPassOf (stealer_deque thief.now) pass.old }
    requires fifo { stealer_flavor thief.now ≡ 0 }
    requires some { 0 < (view pass.old).passes }
    ensures same { SamePass pass.old pass.new }
    ensures rule { let v = view pass.old in MatchSteal result
        ((view pass.new ≡ v) × EmptyAtOneMoment v)
        (view pass.new ≡ v)
        (λ x. (view pass.new ≡ with_task v x) × FirstAtOneMoment v (x ∷ [])) }
{
    thief.steal_as::<Takes>(pass)
}

/// Gives one of the owner's passes away.
pub fn deal_pass<T>(own: &mut Own<T>) -> Pass<T, Hand<T>>
    requires { 1 < (worker_view own.old).passes }
    ensures same { SameWorker own.old own.new × (worker_index own.new ≡ worker_index own.old) ×
        IsPassOf (worker_deque own.old) result }
    ensures own { let v = worker_view own.old in worker_view own.new ≡ hand (v.passes - 1) v.put v.taken }
    ensures pass { view result ≡ hand 1 [] [] }
{
    own.another::<Deals>()
}

/// Takes a pass back into the owner's.
pub fn join_pass<T>(own: &mut Own<T>, pass: Pass<T, Hand<T>>)
    requires pass { IsPassOf (worker_deque own.old) pass }
    requires owner { worker_port own.old ≡ 0 }
    requires some { 0 < (worker_view own.old).passes }
    ensures same { SameWorker own.old own.new × (worker_index own.new ≡ worker_index own.old) }
    ensures both { let v = worker_view own.old in let w = view pass in worker_view own.new ≡
        hand (v.passes + w.passes) (v.put ++ w.put) (v.taken ++ w.taken) }
{
    own.absorb::<Deals>(pass);
}
