//! The text of a scenario that is made of the input's, and of its plan behind it.

ghost use Rattle.std.specs.Prelude.{◌≡◌, ◌≤◌, length, IfOk};
ghost use Rattle.plan_command.specs.Gives.{Gives};
ghost use Rattle.plan_command.specs.Plans.{IsCertified, IsUnplanned};
ghost use Rattle.plan_command.specs.Words.{IsCrew};
ghost use Rattle.plan_command.specs.MadePlans.{IsMadeAndPlanned};
ghost use Rattle.bound_tree.specs.declared.tree.TheConstants.{MOST_NODES};

use crate::planning::plan_from_opening;
use crate::status::Stop;
use bound_tree::Plan;
use exact_parts::NoMemory;
use scenario_text::print_scenario;
use search_model::Scenario;
use search_workers::Gate;
use std::alloc::Global;
use std::sync::Wait;
use std::thread::Threads;
use tree_format::print_plan_for;

// The text of a scenario, and behind it that of its plan.
fn text_of_made(
    alloc: Global,
    made: &Scenario,
    nodes: u64,
    plan: &Plan,
) -> Result<Vec<u8>, NoMemory>
    requires certified { IsCertified made.now plan.now }
    requires few { length plan.now.tree ≤ nodes }
    requires nodes { nodes ≤ MOST_NODES }
    ensures { IfOk result (λ text. IsMadeAndPlanned nodes made.now text.items) }
{
    made.recall_sound();
    let mut text = Vec::new(alloc);
    print_scenario(&mut text, made)?;
    print_plan_for(&mut text, made, plan)?;
    Ok(text)
}

/// The text of a scenario and of its plan with at most so many records, so that a check reads both as they are.
pub fn made_and_planned<R: AllocGlobal + Threads + Wait + Sync, G: Gate>(
    rt: &R,
    made: &Scenario,
    workers: u32,
    nodes: u64,
    gate: &G,
) -> Result<Vec<u8>, Stop>
    requires crew { IsCrew workers }
    requires nodes { (1 ≤ nodes) × (nodes ≤ MOST_NODES) }
    ensures { Gives (IsMadeAndPlanned nodes made.now) (IsUnplanned nodes made.now) result }
{
    match plan_from_opening(rt, made, workers, nodes, gate) {
        Ok(plan) => Ok(text_of_made(rt.alloc(), made, nodes, &plan)?),
        Err(stop) => Err(stop),
    }
}
