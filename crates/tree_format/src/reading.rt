//! Plans and gap plans from their text.

ghost use Rattle.std.specs.Prelude.{◌≡◌, IfOk};
ghost use Rattle.bound_tree.specs.declared.plan.Plan.{Plan as PlanLem};
ghost use Rattle.bound_tree.specs.declared.gap.GapPlan.{GapPlan as GapLem};
ghost use Rattle.tree_format.specs.declared.kind.PlanFault.{PlanFault as FaultLem};
ghost use Rattle.tree_format.specs.Faults.{IsFirstFault};
ghost use Rattle.tree_format.specs.Gives.{ReadsPlan, ReadsGap, Says, Tells, IfFault};
ghost use Rattle.tree_format.specs.Collecting.{plan_in, gap_in};
ghost use Rattle.tree_format.specs.PlanText.{IsPrintable, IsTextOfPlan, IsPrintableGap, IsGapText};

use crate::collecting::{Collected, collect};
use crate::plan_line::Family;
use crate::stop::PlanStop;
use bound_tree::{BoundTree, GapPlan, GapTree, Plan};
use search_model::Scenario;
use std::alloc::Global;

fn plan_from(kept: Collected) -> Plan
    ensures { result ≡ plan_in kept }
{
    Plan {
        standing: kept.standing,
        weight: kept.weight,
        tree: BoundTree::of(kept.records),
    }
}

fn gap_from(kept: Collected) -> GapPlan
    ensures { result ≡ gap_in kept }
{
    GapPlan {
        standing: kept.standing,
        weight: kept.weight,
        ceiling: kept.ceiling,
        numbers: kept.numbers,
        nodes: GapTree::of(kept.nodes),
    }
}

/// The plan whose text this is, of whichever version and to its last byte.
///
/// # Errors
///
/// The first fault by line and kind, the lines before which are right; or `NoMemory`. A line takes no memory, however
/// long it is, but for the record that it adds.
pub fn read_plan(alloc: Global, sc: &Scenario, text: &[u8]) -> Result<Plan, PlanStop>
    ensures reads { ReadsPlan sc.now text.now result }
    ensures spelled { IfOk result (λ plan. IsTextOfPlan sc.now plan text.now) }
    ensures printable { IfOk result (λ plan. IsPrintable sc.now plan) }
    ensures exact { (plan : PlanLem) → IsTextOfPlan sc.now plan text.now → Says result plan }
    ensures first { IfFault result (IsFirstFault Family.Plans sc.now text.now) }
    ensures faulty { (fault : FaultLem) → IsFirstFault Family.Plans sc.now text.now fault → Tells result fault }
{
    let _cells = sc.cells();
    let kept = collect(alloc, sc, Family::Plans, text)?;
    Ok(plan_from(kept))
}

/// The gap plan whose text this is, of whichever version and to its last byte.
///
/// # Errors
///
/// The first fault by line and kind, the lines before which are right; or `NoMemory`.
pub fn read_gap(alloc: Global, sc: &Scenario, text: &[u8]) -> Result<GapPlan, PlanStop>
    ensures reads { ReadsGap sc.now text.now result }
    ensures spelled { IfOk result (λ plan. IsGapText sc.now plan text.now) }
    ensures printable { IfOk result (λ plan. IsPrintableGap sc.now plan) }
    ensures exact { (plan : GapLem) → IsGapText sc.now plan text.now → Says result plan }
    ensures first { IfFault result (IsFirstFault Family.Gaps sc.now text.now) }
    ensures faulty { (fault : FaultLem) → IsFirstFault Family.Gaps sc.now text.now fault → Tells result fault }
{
    let _cells = sc.cells();
    let kept = collect(alloc, sc, Family::Gaps, text)?;
    Ok(gap_from(kept))
}
