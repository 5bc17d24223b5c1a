//! The commands `make` and `drill`, which read nothing.

ghost use Rattle.std.specs.Prelude.{◌≡◌, ◌∷◌, [], ℕ, List, IfOk};
ghost use Rattle.search_model.specs.Tracks.{value_of};
ghost use Rattle.bound_tree.specs.Accepts.{Accepts};
ghost use Rattle.bound_tree.specs.Places.{AreInPlace};
ghost use Rattle.tree_format.specs.Dialects.{plan_dialect_for};
ghost use Rattle.tree_format.specs.PlanText.{IsPrintable, HasLetters, ArePositions};
ghost use Rattle.plan_command.specs.declared.request.Request.{Request};
ghost use Rattle.scenario_maker.specs.Made.{made_problem};
ghost use Rattle.scenario_text.specs.Canonical.{canonical_text};
ghost use Rattle.plan_command.specs.Drills.{drill_text};
ghost use Rattle.plan_command.specs.Commands.{IsDrilled};
ghost use Rattle.plan_command.specs.Plans.{IsCertified, IsTooMany};
ghost use Rattle.plan_command.specs.Words.{IsCrew};
ghost use Rattle.plan_command.specs.Makes.{MakesOf};
ghost use Rattle.bound_tree.specs.declared.tree.TheConstants.{MOST_NODES};

use crate::answer::Answer;
use crate::planning::plan_from_opening;
use crate::status::{Status, Stop};
use bound_tree::{MOST_NODES, Plan};
use exact_parts::NoMemory;
use mission_report::push_chance;
use scenario_maker::make;
use scenario_text::print_scenario;
use search_model::{Scenario, Standing};
use search_workers::Gate;
use std::alloc::Global;
use std::sync::Wait;
use std::thread::Threads;
use text_rows::{Field, push_row};
use tree_checker::{Verdict, check};
use tree_format::{PlanStop, print_plan_for, push_path, read_plan};

// The text of a scenario.
fn text_of(alloc: Global, sc: &Scenario) -> Result<Vec<u8>, NoMemory>
    ensures { IfOk result (λ text. text.items ≡ canonical_text sc.now) }
{
    let mut text = Vec::new(alloc);
    print_scenario(&mut text, sc)?;
    Ok(text)
}

/// The text of the scenario that is made from a number.
pub fn answer_make(alloc: Global, number: u64) -> Result<Answer, Stop>
    ensures { (words : List (List ℕ)) → MakesOf words (Request.Make number) [] result }
{
    let sc = make(alloc, number)?;
    let made = text_of(alloc, &sc);
    // (a call, as in `answer_scenario`)
    drop(sc);
    Ok(Answer {
        status: Status::Done,
        text: made?,
    })
}

// The plan of a scenario whose live prefixes are few.
fn plan_of_few<R: AllocGlobal + Threads + Wait + Sync, G: Gate>(
    rt: &R,
    sc: &Scenario,
    workers: u32,
    gate: &G,
) -> Result<Plan, NoMemory>
    requires crew { IsCrew workers }
    requires few { IsTooMany sc.now MOST_NODES → ⊥ }
    ensures certified { IfOk result (IsCertified sc.now) }
    ensures printable { IfOk result (IsPrintable sc.now) }
    ensures letters { IfOk result (HasLetters (plan_dialect_for sc.now)) }
    ensures in_place { IfOk result (λ plan. AreInPlace sc.now ([] ∷ []) plan.tree) }
{
    sc.recall_sound();
    match plan_from_opening(rt, sc, workers, MOST_NODES, gate) {
        Ok(plan) => Ok(plan),
        Err(Stop::NoMemory) => Err(NoMemory),
        Err(_) => unreachable!(),
    }
}

// A plan as it is read from its own text.
fn read_again(alloc: Global, sc: &Scenario, plan: &Plan) -> Result<Plan, NoMemory>
    requires printable { IsPrintable sc.now plan.now }
    requires letters { HasLetters (plan_dialect_for sc.now) plan.now }
    requires in_place { AreInPlace sc.now ([] ∷ []) plan.now.tree }
    ensures { IfOk result (λ again. again ≡ plan.now) }
{
    let mut text = Vec::new(alloc);
    print_plan_for(&mut text, sc, plan)?;
    match read_plan(alloc, sc, &text) {
        Ok(again) => Ok(again),
        Err(PlanStop::NoMemory) => Err(NoMemory),
        Err(PlanStop::Fault(_)) => unreachable!(),
    }
}

// Checks a plan that is accepted.
fn check_accepted(alloc: Global, sc: &Scenario, plan: &Plan) -> Result<(), NoMemory>
    requires { Accepts sc.now plan.now }
{
    match check(alloc, sc, plan)? {
        Verdict::Accepted => Ok(()),
        Verdict::Rejected(_) => unreachable!(),
    }
}

// The summary of a drill: the number, and what the path of its scenario finds.
fn summary(alloc: Global, number: u64, sc: &Scenario, best: &Standing) -> Result<Vec<u8>, NoMemory>
    requires positions { ArePositions sc.now best.now.path }
    requires value { best.now.value ≡ value_of sc.now best.now.path }
    ensures { IfOk result (λ text. text.items ≡ drill_text number sc.now best.now.path) }
{
    let mut text = Vec::new(alloc);
    push_row(&mut text, b"drill", &[Field::Word(b"1")])?;
    push_row(&mut text, b"number", &[Field::Number(u128::from(number))])?;
    push_path(&mut text, sc, &best.path)?;
    push_chance(&mut text, sc, best.value)?;
    push_row(&mut text, b"accepted", &[])?;
    Ok(text)
}

// The plan of a scenario whose live prefixes are few, written, read again and checked.
fn drilled<R: AllocGlobal + Threads + Wait + Sync, G: Gate>(
    rt: &R,
    sc: &Scenario,
    workers: u32,
    gate: &G,
) -> Result<Plan, NoMemory>
    requires crew { IsCrew workers }
    requires few { IsTooMany sc.now MOST_NODES → ⊥ }
    ensures certified { IfOk result (IsCertified sc.now) }
    ensures printable { IfOk result (IsPrintable sc.now) }
{
    let plan = plan_of_few(rt, sc, workers, gate)?;
    let again = read_again(rt.alloc(), sc, &plan)?;
    check_accepted(rt.alloc(), sc, &again)?;
    Ok(again)
}

// The summary of the scenario that is made from a number, once it was planned, and the plan read again and checked.
fn drilled_summary<R: AllocGlobal + Threads + Wait + Sync, G: Gate>(
    rt: &R,
    number: u64,
    sc: &Scenario,
    workers: u32,
    gate: &G,
) -> Result<Vec<u8>, NoMemory>
    requires crew { IsCrew workers }
    requires made { sc.now ≡ made_problem number }
    ensures { IfOk result (λ text. IsDrilled number text.items) }
{
    let plan = drilled(rt, sc, workers, gate)?;
    summary(rt.alloc(), number, sc, &plan.standing)
}

// The answer of a drill of that scenario.
fn answer_made<R: AllocGlobal + Threads + Wait + Sync, G: Gate>(
    rt: &R,
    number: u64,
    sc: &Scenario,
    workers: u32,
    gate: &G,
) -> Result<Answer, Stop>
    requires crew { IsCrew workers }
    requires made { sc.now ≡ made_problem number }
    ensures { (words : List (List ℕ)) → MakesOf words (Request.Drill number workers) [] result }
{
    Ok(Answer {
        status: Status::Done,
        text: drilled_summary(rt, number, sc, workers, gate)?,
    })
}

/// Makes a scenario from a number, plans it, reads the plan again and checks it.
pub fn answer_drill<R: AllocGlobal + Threads + Wait + Sync, G: Gate>(
    rt: &R,
    number: u64,
    workers: u32,
    gate: &G,
) -> Result<Answer, Stop>
    requires { IsCrew workers }
    ensures { (words : List (List ℕ)) → MakesOf words (Request.Drill number workers) [] result }
{
    let sc = make(rt.alloc(), number)?;
    let answer = answer_made(rt, number, &sc, workers, gate);
    drop(sc);
    answer
}
