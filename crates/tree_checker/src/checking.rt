//! The check of a whole plan, and of a whole gap plan.

ghost use Rattle.std.specs.Prelude.{◌≡◌, ◌↔◌, IfOk};
ghost use Rattle.bound_tree.specs.Accepts.{Accepts};
ghost use Rattle.bound_tree.specs.Gaps.{GapAccepts};
ghost use Rattle.tree_checker.specs.Reasons.{first_reason, verdict_of};
ghost use Rattle.tree_checker.specs.GapReasons.{gap_reason, gap_verdict_of};
ghost use Rattle.tree_checker.specs.Progress.{IsMadeFor};

use crate::checker::Checker;
use crate::gap_verdict::GapVerdict;
use crate::verdict::Verdict;
use bound_tree::{GapPlan, Plan};
use exact_parts::NoMemory;
use search_model::Scenario;
use std::alloc::Global;

// The verdict on a plan, by a checker that is made for the scenario.
fn judged(checker: &mut Checker, sc: &Scenario, plan: &Plan) -> Verdict
    requires { IsMadeFor sc.now checker.old }
    ensures { result ≡ verdict_of (first_reason sc.now plan.now) }
{
    checker.head(sc, &plan.standing, plan.weight);
    for node in plan.tree.nodes() {
        checker.node(sc, node);
    }
    checker.finish()
}

// The verdict on a plan.
fn verdict(alloc: Global, sc: &Scenario, plan: &Plan) -> Result<Verdict, NoMemory>
    ensures { IfOk result (λ v. v ≡ verdict_of (first_reason sc.now plan.now)) }
{
    let mut checker = Checker::tables(alloc, sc)?;
    let verdict = judged(&mut checker, sc, plan);
    drop(checker);
    Ok(verdict)
}

/// Whether a plan is accepted; else the first reason against it. A record uses the beliefs
/// of the part that its prefix has in common with the one before it, so the time grows with the number of records and not
/// with that of the target's tracks.
#[tactic(auto, using(crate::proofs::Reason::accepted_verdict))]
pub fn check(alloc: Global, sc: &Scenario, plan: &Plan) -> Result<Verdict, NoMemory>
    ensures exact { IfOk result (λ v. v ≡ verdict_of (first_reason sc.now plan.now)) }
    ensures accepted { IfOk result (λ v. (v ≡ Verdict.Accepted) ↔ Accepts sc.now plan.now) }
{
    verdict(alloc, sc, plan)
}

// The verdict on a gap plan, by a checker that is made for the scenario.
fn gap_judged(checker: &mut Checker, sc: &Scenario, plan: &GapPlan) -> GapVerdict
    requires { IsMadeFor sc.now checker.old }
    ensures { result ≡ gap_verdict_of (gap_reason sc.now plan.now) }
{
    checker.gap_head(sc, plan.numbers, &plan.standing, plan.weight);
    for node in plan.nodes.nodes() {
        checker.open_node(sc, node);
    }
    checker.finish_gap(plan.ceiling)
}

// The verdict on a gap plan.
fn gap_verdict(alloc: Global, sc: &Scenario, plan: &GapPlan) -> Result<GapVerdict, NoMemory>
    ensures { IfOk result (λ v. v ≡ gap_verdict_of (gap_reason sc.now plan.now)) }
{
    let mut checker = Checker::tables(alloc, sc)?;
    let verdict = gap_judged(&mut checker, sc, plan);
    drop(checker);
    Ok(verdict)
}

/// Whether a gap plan is accepted; else the first reason against it. The nodes are tested as the records of a plan, the
/// numbers of waiting ones by what the plan says that they are, and the ceiling last of all.
#[tactic(auto, using(crate::proofs::Reason::accepted_gap_verdict))]
pub fn check_gap(alloc: Global, sc: &Scenario, plan: &GapPlan) -> Result<GapVerdict, NoMemory>
    ensures exact { IfOk result (λ v. v ≡ gap_verdict_of (gap_reason sc.now plan.now)) }
    ensures accepted { IfOk result (λ v. (v ≡ GapVerdict.Accepted) ↔ GapAccepts sc.now plan.now) }
{
    gap_verdict(alloc, sc, plan)
}
