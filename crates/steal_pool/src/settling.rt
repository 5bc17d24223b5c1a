//! The end of a pool: all passes come back to their owners, who then know all that was put and taken.

ghost use Rattle.std.specs.Prelude.{◌≡◌, ◌+◌, ◌<◌, ◌≤◌, ◌++◌, ◌⊎◌, ℕ, [], length, slice_get, IsPermutation, IfOk, OnOk, Some, All};
ghost use Rattle.std.specs.List.{flat_map};
ghost use Rattle.crossbeam_deque.specs.Handles.{view, worker_view, worker_flavor, stealer_deque};
ghost use Rattle.steal_pool.specs.Rule.{ALL, puts_of, takes_of};
ghost use Rattle.steal_pool.specs.Kits.{put_of, taken_of};
ghost use Rattle.steal_pool.specs.Pools.{EachAt, IsWhole, IsOwner, IsRest, deques_of, hands_of, robbed_deques, robbed_hands, pool_of, passes_at, with_pass, rest_taken};

use crate::deque::{Own, join_pass, take_task};
use crate::kit::{Kit, part};
use crate::victim::{Rest, Victim};
use exact_parts::NoMemory;
use std::alloc::Global;

// Gives a pass back to the owner at a place.
fn give_one<T: Drop>(owns: &mut Vec<Own<T>>, victim: Victim<T>, at: usize)
    requires owner { All IsOwner owns.old.items }
    requires room { at < length owns.old.items }
    requires victim { slice_get (deques_of owns.old.items) at ≡ Some (stealer_deque victim.thief) }
    requires some { 0 < passes_at (hands_of owns.old.items) at }
    ensures same { deques_of owns.new.items ≡ deques_of owns.old.items }
    ensures owner { All IsOwner owns.new.items }
    ensures hands { hands_of owns.new.items ≡ with_pass (hands_of owns.old.items) at (view victim.pass).taken }
{
    let Victim { thief, pass } = victim;
    drop(thief);
    let own = &mut owns[at];
    join_pass(own, pass);
}

// Gives the passes of some neighbouring places back, from the place `from` on.
fn give_range<T: Drop>(owns: &mut Vec<Own<T>>, mut victims: Vec<Victim<T>>, from: usize)
    requires owner { All IsOwner owns.old.items }
    requires room { from + length victims.items ≤ length owns.old.items }
    requires victims { (k : ℕ) → k < length victims.items
        → slice_get (robbed_deques victims.items) k ≡ slice_get (deques_of owns.old.items) (from + k) }
    requires some { (i : ℕ) → i < length owns.old.items → 0 < passes_at (hands_of owns.old.items) i }
    ensures same { deques_of owns.new.items ≡ deques_of owns.old.items }
    ensures owner { All IsOwner owns.new.items }
    ensures taken { IsPermutation (takes_of (hands_of owns.new.items))
        (takes_of (hands_of owns.old.items) ++ takes_of (robbed_hands victims.items)) }
    ensures put { puts_of (hands_of owns.new.items) ≡ puts_of (hands_of owns.old.items) }
    ensures passes { (i : ℕ) → from ≤ i → i < from + length victims.items
        → passes_at (hands_of owns.new.items) i ≡ passes_at (hands_of owns.old.items) i + 1 }
    ensures others { (i : ℕ) → (i < from) ⊎ (from + length victims.items ≤ i)
        → passes_at (hands_of owns.new.items) i ≡ passes_at (hands_of owns.old.items) i }
{
    while let Some(victim) = victims.pop() {
        give_one(owns, victim, from + victims.len());
    }
}

// Takes what a deque still holds, all of whose passes are back.
fn drain<T: Drop>(mut own: Own<T>, out: &mut Vec<T>) -> Result<(), NoMemory>
    requires fifo { worker_flavor own ≡ 0 }
    requires passes { (worker_view own).passes ≡ ALL }
    ensures { OnOk result (IsPermutation ((worker_view own).put ++ out.old.items) ((worker_view own).taken ++
        out.new.items)) }
{
    while let Some(task) = take_task(&mut own) {
        out.push(task)?;
    }
    Ok(())
}

// Takes the kits of a pool apart.
fn take_apart<T: Drop>(
    alloc: Global,
    kits: Vec<Kit<T>>,
) -> Result<(Vec<Own<T>>, Vec<Rest<T>>), NoMemory>
    requires { IsWhole kits.items }
    ensures deques { IfOk result (λ r. deques_of r.0.items ≡ pool_of kits.items) }
    ensures owner { IfOk result (λ r. All IsOwner r.0.items) }
    ensures passes { IfOk result (λ r.
        (i : ℕ) → i < length kits.items → passes_at (hands_of r.0.items) i + length kits.items ≡ 17) }
    ensures few { IfOk result (λ _. length kits.items ≤ 16) }
    ensures many { IfOk result (λ r. length r.1.items ≡ length kits.items) }
    ensures rests { IfOk result (λ r. EachAt r.1.items (λ i rest. IsRest (pool_of kits.items) i rest)) }
    ensures put { IfOk result (λ r. flat_map put_of kits.items ≡ puts_of (hands_of r.0.items)) }
    ensures taken { IfOk result (λ r.
        IsPermutation (flat_map taken_of kits.items) (takes_of (hands_of r.0.items) ++
        flat_map rest_taken r.1.items)) }
{
    let mut owns = Vec::new(alloc);
    let mut rests = Vec::new(alloc);
    for kit in kits {
        let (own, rest) = part(kit);
        owns.push(own)?;
        rests.push(rest)?;
    }
    Ok((owns, rests))
}

// Gives all passes back.
fn give_all<T: Drop>(owns: &mut Vec<Own<T>>, mut rests: Vec<Rest<T>>)
    requires owner { All IsOwner owns.old.items }
    requires many { length rests.items ≡ length owns.old.items }
    requires each { EachAt rests.items (λ i r. IsRest (deques_of owns.old.items) i r) }
    requires passes { (i : ℕ) → i < length owns.old.items →
        passes_at (hands_of owns.old.items) i + length owns.old.items ≡ 17 }
    requires few { length owns.old.items ≤ 16 }
    ensures owner { All IsOwner owns.new.items }
    ensures passes { (i : ℕ) → i < length owns.new.items → passes_at (hands_of owns.new.items) i ≡ ALL }
    ensures put { puts_of (hands_of owns.new.items) ≡ puts_of (hands_of owns.old.items) }
    ensures taken { IsPermutation (takes_of (hands_of owns.new.items))
        (takes_of (hands_of owns.old.items) ++ flat_map rest_taken rests.items) }
{
    while let Some(rest) = rests.pop() {
        let Rest { before, after } = rest;
        give_range(owns, before, 0);
        give_range(owns, after, rests.len() + 1);
    }
}

// Takes what the deques still hold.
fn drain_all<T: Drop>(owns: Vec<Own<T>>, out: &mut Vec<T>) -> Result<(), NoMemory>
    requires empty { out.old.items ≡ [] }
    requires owner { All IsOwner owns.items }
    requires passes { (i : ℕ) → i < length owns.items → passes_at (hands_of owns.items) i ≡ ALL }
    ensures { OnOk result (IsPermutation (puts_of (hands_of owns.items)) (takes_of (hands_of owns.items) ++
        out.new.items)) }
{
    for own in owns {
        drain(own, out)?;
    }
    Ok(())
}

/// The tasks that are left in the deques of a pool, of all its kits in the order of their places: all tasks that the kits
/// put are, up to order, all that they took together with these. At `NoMemory` the tasks left are dropped.
pub fn settle<T: Drop>(alloc: Global, kits: Vec<Kit<T>>) -> Result<Vec<T>, NoMemory>
    requires { IsWhole kits.items }
    ensures { IfOk result (λ left.
        IsPermutation (flat_map put_of kits.items) (flat_map taken_of kits.items ++ left.items)) }
{
    let (mut owns, rests) = take_apart(alloc, kits)?;
    give_all(&mut owns, rests);
    let mut left = Vec::new(alloc);
    drain_all(owns, &mut left)?;
    Ok(left)
}
