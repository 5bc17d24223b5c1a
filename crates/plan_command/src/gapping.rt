//! The gap plan of a scenario, and its text: what a search has proved when its records run out.

ghost use Rattle.std.specs.Prelude.{◌≡◌, ◌≤◌, length, IfOk};
ghost use Rattle.bound_tree.specs.Accepts.{Accepts};
ghost use Rattle.bound_tree.specs.Gaps.{gap_of, numbers_for as numbers_for_lem, GapAccepts};
ghost use Rattle.tree_format.specs.declared.dialects.TheConstants.{MOST_GAP_NODES};
ghost use Rattle.tree_format.specs.PlanText.{IsGapText};
ghost use Rattle.plan_command.specs.Gives.{Gives};
ghost use Rattle.plan_command.specs.Words.{IsCrew};
ghost use Rattle.plan_command.specs.GapPlans.{IsGapOf, IsUngapped};

use crate::planning::plan_found;
use crate::request::MOST_CLOSED;
use crate::status::Stop;
use bound_tree::{Plan, numbers_for};
use exact_parts::NoMemory;
use gap_plan::{GapPlan, make_gap};
use opening_path::opening;
use search_model::Scenario;
use search_workers::{Gate, Order, SearchStop, search};
use std::alloc::Global;
use std::sync::Wait;
use std::thread::Threads;
use tree_format::{print_gap, print_plan_as_gap};

// The text of what a search found, as a gap plan with the numbers of the scenario: nothing waits, and the ceiling is the
// value.
fn text_of_found(alloc: Global, sc: &Scenario, plan: &Plan) -> Result<Vec<u8>, NoMemory>
    requires accepted { Accepts sc.now plan.now }
    requires few { length plan.now.tree ≤ MOST_CLOSED }
    ensures { IfOk result (λ text. IsGapText sc.now (gap_of (numbers_for_lem sc.now) plan.now) text.items) }
{
    sc.recall_sound();
    let mut text = Vec::new(alloc);
    print_plan_as_gap(&mut text, sc, plan)?;
    Ok(text)
}

// The text of a gap plan that is accepted, with the numbers of the scenario.
fn text_of_gap(alloc: Global, sc: &Scenario, plan: &GapPlan) -> Result<Vec<u8>, NoMemory>
    requires accepted { GapAccepts sc.now plan.now }
    requires numbers { plan.now.numbers ≡ numbers_for_lem sc.now }
    requires few { length plan.now.nodes ≤ MOST_GAP_NODES }
    ensures { IfOk result (λ text. IsGapText sc.now plan.now text.items) }
{
    sc.recall_sound();
    let mut text = Vec::new(alloc);
    print_gap(&mut text, sc, plan)?;
    Ok(text)
}

// From so many periods on a gap plan's search closes the greatest number first.
const LEAST_ORDERED: u32 = 4;

// In which order the search of a gap plan closes.
fn order_for(sc: &Scenario) -> Order {
    if sc.horizon() < LEAST_ORDERED {
        Order::DepthFirst
    } else {
        Order::GreatestFirst
    }
}

/// The text of the gap plan of a scenario: a path with its exact value, the value that no path exceeds, and the nodes that
/// show why none does. No scenario is without.
pub fn gapped<R: AllocGlobal + Threads + Wait + Sync, G: Gate>(
    rt: &R,
    sc: &Scenario,
    workers: u32,
    nodes: u64,
    gate: &G,
) -> Result<Vec<u8>, Stop>
    requires crew { IsCrew workers }
    requires nodes { (1 ≤ nodes) × (nodes ≤ MOST_CLOSED) }
    ensures { Gives (IsGapOf nodes sc.now) IsUngapped result }
{
    sc.recall_sound();
    let first = opening(rt.alloc(), sc)?;
    match search(rt, sc, &first, workers, nodes, order_for(sc), gate) {
        Ok(found) => {
            let plan = plan_found(sc, found);
            Ok(text_of_found(rt.alloc(), sc, &plan)?)
        }
        Err(SearchStop::Full(part)) => {
            let plan = make_gap(
                rt.alloc(),
                sc,
                part.closed,
                part.waiting,
                part.best,
                numbers_for(sc),
            )?;
            Ok(text_of_gap(rt.alloc(), sc, &plan)?)
        }
        Err(SearchStop::NoMemory) => Err(Stop::NoMemory),
    }
}
