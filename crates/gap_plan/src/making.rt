//! The making of gap plans.

ghost use Rattle.std.specs.Prelude.{◌≡◌, ◌≤◌, ◌+◌, ◌*◌, ◌∷◌, [], map, length, IfOk, All};
ghost use Rattle.std.specs.List.Sorted.{IsPermutation};
ghost use Rattle.search_model.specs.Legal.{IsLegal};
ghost use Rattle.search_model.specs.Tracks.{whole_weight};
ghost use Rattle.search_model.specs.Bounds.{greatest};
ghost use Rattle.bound_tree.specs.Accepts.{IsGood};
ghost use Rattle.bound_tree.specs.Close.{IsExact};
ghost use Rattle.bound_tree.specs.Gaps.{open_numbers, GapAccepts};
ghost use Rattle.search_core.specs.Counts.{SameItems};
ghost use Rattle.search_core.specs.Balance.{MeetsEquation};
ghost use Rattle.ceiling_bound.specs.Ceilings.{AreCeilingsFor};
ghost use Rattle.gap_plan.specs.Nodes.{numbered, closed_in, waiting_in};

use crate::listing::in_order;
use crate::numbers::set_numbers;
use bound_tree::{GapNode, GapPlan, GapTree, Numbers, TreeNode};
use ceiling_bound::Ceilings;
use exact_parts::NoMemory;
use search_model::{Path, Scenario, Standing};
use std::alloc::Global;

// The plan of these nodes, once those that wait have their numbers.
fn plan_of(
    ceilings: &mut Ceilings,
    numbers: Numbers,
    sc: &Scenario,
    mut nodes: Vec<GapNode>,
    best: Standing,
) -> GapPlan
    requires made { AreCeilingsFor sc.now ceilings.old }
    requires legal { All (λ node. IsLegal sc.now node.prefix) nodes.items }
    ensures standing { result.standing ≡ best }
    ensures weight { result.weight ≡ whole_weight sc.now }
    ensures numbers { result.numbers ≡ numbers }
    ensures nodes { result.nodes ≡ map (numbered numbers sc.now) nodes.items }
    ensures ceiling { result.ceiling ≡ greatest (best.value ∷ open_numbers result.nodes) }
{
    let ceiling = set_numbers(ceilings, numbers, sc, &mut nodes, best.value);
    GapPlan {
        standing: best,
        weight: sc.weight(),
        ceiling,
        numbers,
        nodes: GapTree::of(nodes),
    }
}

/// The gap plan of a search that stopped early: what it closed, what waits, and the best standing that it knows.
///
/// The empty prefix and the legal children of all Branch records are, up to order, the records' prefixes and those that
/// wait; the standing is a path with its exact value, and each record is good in itself under it. The nodes are the
/// records and the waiting prefixes in preorder. What waits has its value as its number where it is a path, else its
/// bound by these numbers, and the ceiling is the greatest of these numbers and of the standing's value: no path finds more.
pub fn make_gap(
    alloc: Global,
    sc: &Scenario,
    closed: Vec<TreeNode>,
    waiting: Vec<Path>,
    best: Standing,
    numbers: Numbers,
) -> Result<GapPlan, NoMemory>
    requires even { MeetsEquation sc.now [] waiting.items closed.items }
    requires good { All (IsGood sc.now best) closed.items }
    requires exact { IsExact sc.now best }
    ensures accepted { IfOk result (GapAccepts sc.now) }
    ensures standing { IfOk result (λ plan. plan.standing ≡ best) }
    ensures numbers { IfOk result (λ plan. plan.numbers ≡ numbers) }
    ensures closed { IfOk result (λ plan. IsPermutation closed.items (closed_in plan.nodes)) }
    ensures waiting { IfOk result (λ plan. SameItems waiting.items (waiting_in plan.nodes)) }
    ensures few { IfOk result (λ plan. length plan.nodes ≤ 1 + 64 * length closed.items) }
{
    sc.recall_sound();
    let mut ceilings = Ceilings::tables(alloc, sc)?;
    let nodes = in_order(alloc, &closed, &waiting)?;
    Ok(plan_of(&mut ceilings, numbers, sc, nodes, best))
}
