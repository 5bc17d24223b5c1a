//! The plan of a scenario, and its text.

ghost use Rattle.std.specs.Prelude.{◌≡◌, ◌≤◌, ◌∷◌, [], length, IfOk};
ghost use Rattle.search_workers.specs.Search.{plan_of};
ghost use Rattle.bound_tree.specs.Places.{AreInPlace};
ghost use Rattle.bound_tree.specs.declared.tree.TheConstants.{MOST_NODES};
ghost use Rattle.tree_format.specs.Dialects.{plan_dialect_for};
ghost use Rattle.tree_format.specs.PlanText.{IsPrintable, HasLetters, IsWrittenPlan};
ghost use Rattle.plan_command.specs.Gives.{Gives};
ghost use Rattle.plan_command.specs.Words.{IsCrew};
ghost use Rattle.plan_command.specs.Plans.{IsCertified, IsPlanOf, IsUnplanned, PlansFor};

use crate::status::{Refusal, Stop};
use bound_tree::Plan;
use exact_parts::NoMemory;
use opening_path::opening;
use search_model::Scenario;
use search_workers::{Found, Gate, Order, SearchStop, search};
use std::alloc::Global;
use std::sync::Wait;
use std::thread::Threads;
use tree_format::print_plan_for;

/// The plan of what a search found.
pub fn plan_found(sc: &Scenario, found: Found) -> Plan
    ensures { result ≡ plan_of sc.now found }
{
    Plan {
        standing: found.best,
        weight: sc.weight(),
        tree: found.tree,
    }
}

/// The plan of a scenario with so many workers and at most so many records, searched from its opening.
pub fn plan_from_opening<R: AllocGlobal + Threads + Wait + Sync, G: Gate>(
    rt: &R,
    sc: &Scenario,
    workers: u32,
    nodes: u64,
    gate: &G,
) -> Result<Plan, Stop>
    requires crew { IsCrew workers }
    requires nodes { (1 ≤ nodes) × (nodes ≤ MOST_NODES) }
    ensures { PlansFor nodes sc.now result }
{
    let first = opening(rt.alloc(), sc)?;
    match search(rt, sc, &first, workers, nodes, Order::DepthFirst, gate) {
        Ok(found) => Ok(plan_found(sc, found)),
        Err(SearchStop::Full(_)) => Err(Stop::Refused(Refusal::TooManyNodes(nodes))),
        Err(SearchStop::NoMemory) => Err(Stop::NoMemory),
    }
}

/// The text of a plan whose records have the prefixes that are expected, of the version that the horizon asks for.
pub fn text_of_plan(alloc: Global, sc: &Scenario, plan: &Plan) -> Result<Vec<u8>, NoMemory>
    requires printable { IsPrintable sc.now plan.now }
    requires letters { HasLetters (plan_dialect_for sc.now) plan.now }
    requires in_place { AreInPlace sc.now ([] ∷ []) plan.now.tree }
    ensures { IfOk result (λ text. IsWrittenPlan sc.now plan.now text.items) }
{
    let mut text = Vec::new(alloc);
    print_plan_for(&mut text, sc, plan)?;
    Ok(text)
}

// The text of a certified plan with at most so many records.
fn text_of_certified(
    alloc: Global,
    sc: &Scenario,
    nodes: u64,
    plan: &Plan,
) -> Result<Vec<u8>, NoMemory>
    requires certified { IsCertified sc.now plan.now }
    requires few { length plan.now.tree ≤ nodes }
    requires nodes { nodes ≤ MOST_NODES }
    ensures { IfOk result (λ text. IsPlanOf nodes sc.now text.items) }
{
    sc.recall_sound();
    text_of_plan(alloc, sc, plan)
}

/// The text of the plan of a scenario: its best path with the exact value, and the tree that shows why no path is better.
pub fn planned<R: AllocGlobal + Threads + Wait + Sync, G: Gate>(
    rt: &R,
    sc: &Scenario,
    workers: u32,
    nodes: u64,
    gate: &G,
) -> Result<Vec<u8>, Stop>
    requires crew { IsCrew workers }
    requires nodes { (1 ≤ nodes) × (nodes ≤ MOST_NODES) }
    ensures { Gives (IsPlanOf nodes sc.now) (IsUnplanned nodes sc.now) result }
{
    match plan_from_opening(rt, sc, workers, nodes, gate) {
        Ok(plan) => Ok(text_of_certified(rt.alloc(), sc, nodes, &plan)?),
        Err(stop) => Err(stop),
    }
}
