//! A new pool.

ghost use Rattle.std.specs.Prelude.{◌≡◌, ◌+◌, ◌-◌, ◌<◌, ◌≤◌, ◌⊎◌, ℕ, [], length, take, drop, IfOk, All};
ghost use Rattle.crossbeam_deque.specs.Handles.{view, worker_view, worker_deque, stealer_deque};
ghost use Rattle.steal_pool.specs.Rule.{takes_of};
ghost use Rattle.steal_pool.specs.News.{IsNewOwn, IsFresh};
ghost use Rattle.steal_pool.specs.Pools.{EachAt, IsWhole, IsRest, deques_of, hands_of, robbed_deques, robbed_hands, passes_at, rest_taken};

use crate::deque::{Own, deal_pass, open_deque};
use crate::kit::{Kit, assemble};
use crate::victim::{Rest, Victim};
use exact_parts::NoMemory;
use std::alloc::Global;

// The deques of a new pool, each with all its passes at the owner.
fn open_all<T: Drop>(alloc: Global, workers: usize) -> Result<Vec<Own<T>>, NoMemory>
    ensures many { IfOk result (λ owns. length owns.items ≡ workers) }
    ensures new { IfOk result (λ owns. All IsNewOwn owns.items) }
    ensures passes { IfOk result (λ owns. (i : ℕ) → i < workers → passes_at (hands_of owns.items) i ≡ 16) }
{
    let mut owns = Vec::new(alloc);
    for _made in 0..workers {
        owns.push(open_deque(alloc)?)?;
    }
    Ok(owns)
}

// A thief's end of a deque, with one of the owner's passes.
fn deal_one<T: Drop>(own: &mut Own<T>) -> Result<Victim<T>, NoMemory>
    requires new { IsNewOwn own.old }
    requires passes { 1 < (worker_view own.old).passes }
    ensures same { IfOk result (λ _. worker_deque own.new ≡ worker_deque own.old) }
    ensures new { IfOk result (λ _. IsNewOwn own.new) }
    ensures passes { IfOk result (λ _. (worker_view own.new).passes + 1 ≡ (worker_view own.old).passes) }
    ensures victim { IfOk result (λ v. stealer_deque v.thief ≡ worker_deque own.old) }
    ensures taken { IfOk result (λ v. (view v.pass).taken ≡ []) }
{
    let thief = own.stealer()?;
    let pass = deal_pass(own);
    Ok(Victim { thief, pass })
}

// Thieves' ends of the deques of some neighbouring places.
fn deal_range<T: Drop>(
    alloc: Global,
    owns: &mut Vec<Own<T>>,
    from: usize,
    to: usize,
) -> Result<Vec<Victim<T>>, NoMemory>
    requires range { (from ≤ to) × (to ≤ length owns.old.items) }
    requires new { All IsNewOwn owns.old.items }
    requires passes { (i : ℕ) → from ≤ i → i < to → 1 < passes_at (hands_of owns.old.items) i }
    ensures same { IfOk result (λ _. deques_of owns.new.items ≡ deques_of owns.old.items) }
    ensures new { IfOk result (λ _. All IsNewOwn owns.new.items) }
    ensures passes { IfOk result (λ _. (i : ℕ) → from ≤ i → i < to
        → passes_at (hands_of owns.new.items) i + 1 ≡ passes_at (hands_of owns.old.items) i) }
    ensures others { IfOk result (λ _. (i : ℕ) → (i < from) ⊎ (to ≤ i)
        → passes_at (hands_of owns.new.items) i ≡ passes_at (hands_of owns.old.items) i) }
    ensures victims { IfOk result (λ vs.
        robbed_deques vs.items ≡ take (to - from) (drop from (deques_of owns.old.items))) }
    ensures taken { IfOk result (λ vs. takes_of (robbed_hands vs.items) ≡ []) }
{
    let mut victims = Vec::new(alloc);
    for at in from..to {
        let own = &mut owns[at];
        victims.push(deal_one(own)?)?;
    }
    Ok(victims)
}

// The victims of each kit.
fn deal_all<T: Drop>(alloc: Global, owns: &mut Vec<Own<T>>) -> Result<Vec<Rest<T>>, NoMemory>
    requires new { All IsNewOwn owns.old.items }
    requires few { length owns.old.items ≤ 16 }
    requires passes { (i : ℕ) → i < length owns.old.items → passes_at (hands_of owns.old.items) i ≡ 16 }
    ensures same { IfOk result (λ _. deques_of owns.new.items ≡ deques_of owns.old.items) }
    ensures new { IfOk result (λ _. All IsNewOwn owns.new.items) }
    ensures passes { IfOk result (λ _. (i : ℕ) → i < length owns.old.items
        → passes_at (hands_of owns.new.items) i + length owns.old.items ≡ 17) }
    ensures many { IfOk result (λ rests. length rests.items ≡ length owns.old.items) }
    ensures each { IfOk result (λ rests.
        EachAt rests.items (λ i r. IsRest (deques_of owns.old.items) i r × (rest_taken r ≡ []))) }
{
    let workers = owns.len();
    let mut rests = Vec::new(alloc);
    for place in 0..workers {
        let before = deal_range(alloc, owns, 0, place)?;
        let after = deal_range(alloc, owns, place + 1, workers)?;
        rests.push(Rest { before, after })?;
    }
    Ok(rests)
}

// The kits, the last one first.
fn assemble_all<T: Drop>(
    alloc: Global,
    mut owns: Vec<Own<T>>,
    mut rests: Vec<Rest<T>>,
) -> Result<Vec<Kit<T>>, NoMemory>
    requires new { All IsNewOwn owns.items }
    requires few { length owns.items ≤ 16 }
    requires passes { (i : ℕ) → i < length owns.items → passes_at (hands_of owns.items) i + length owns.items ≡ 17 }
    requires many { length rests.items ≡ length owns.items }
    requires each { EachAt rests.items (λ i r. IsRest (deques_of owns.items) i r × (rest_taken r ≡ [])) }
    ensures many { IfOk result (λ kits. length kits.items ≡ length owns.items) }
    ensures each { IfOk result (λ kits. EachAt kits.items (λ i k.
        (k.pool ≡ deques_of owns.items) × (k.place + i + 1 ≡ length owns.items) × IsFresh k)) }
{
    let mut kits = Vec::new(alloc);
    while let Some(own) = owns.pop() {
        let Some(rest) = rests.pop() else {
            unreachable!()
        };
        kits.push(assemble(own, rest))?;
    }
    Ok(kits)
}

/// The pools of kits.
pub struct Pool;

impl Pool {
    /// The kits of a new pool of 1 to 16 workers, in the order of their places. Each owns a deque with room for 4,096
    /// tasks; all deques are empty, and nothing was put or taken. Takes the memory for all puts.
    pub fn make<T: Drop>(alloc: Global, workers: u32) -> Result<Vec<Kit<T>>, NoMemory>
        requires some { 1 ≤ workers }
        requires few { workers ≤ 16 }
        ensures many { IfOk result (λ kits. length kits.items ≡ workers) }
        ensures whole { IfOk result (λ kits. IsWhole kits.items) }
        ensures fresh { IfOk result (λ kits. All IsFresh kits.items) }
    {
        let mut owns = open_all(alloc, workers as usize)?;
        let rests = deal_all(alloc, &mut owns)?;
        let mut kits = assemble_all(alloc, owns, rests)?;
        kits.reverse();
        Ok(kits)
    }
}
