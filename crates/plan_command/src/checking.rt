//! The commands `check`, `checkgap` and `report`.

ghost use Rattle.std.specs.Prelude.{◌≡◌, ◌++◌, ℕ, List, IfOk, OnOk, Ok};
ghost use Rattle.search_model.specs.Legal.{IsPath};
ghost use Rattle.tree_format.specs.declared.plan_line.Family.TheVariants as texts;
ghost use Rattle.plan_command.specs.Checks.{TellsVerdict};
ghost use Rattle.plan_command.specs.Intakes.{Judges};
ghost use Rattle.plan_command.specs.Commands.{report_of};
ghost use Rattle.plan_command.specs.Lines.{gap_rejection_of};
ghost use Rattle.plan_command.specs.Makes.{MakesOf};

use crate::answer::Answer;
use crate::intake::Judgement;
use crate::request::Request;
use crate::status::{Refusal, Status, Stop};
use exact_parts::{NoMemory, push_u128};
use mission_report::{push_report, push_report_json};
use search_model::{Path, Scenario};
use std::alloc::Global;
use tree_checker::{GapRejectAt, GapVerdict, as_plain, gap_why_name};

// The line of a rejection.
fn rejection(alloc: Global, at: GapRejectAt) -> Result<Vec<u8>, NoMemory>
    ensures { IfOk result (λ v. v.items ≡ gap_rejection_of at) }
{
    let mut text = Vec::from_slice(alloc, b"rejected ")?;
    push_u128(&mut text, u128::from(at.line))?;
    text.push(b' ')?;
    text.extend_from_slice(gap_why_name(at.why).as_bytes())?;
    text.push(b'\n')?;
    Ok(text)
}

// Whether what was judged is accepted, or the first reason against it.
fn tell_verdict(alloc: Global, verdict: GapVerdict) -> Result<Answer, Stop>
    ensures { TellsVerdict verdict result }
{
    match verdict {
        GapVerdict::Accepted => Ok(Answer {
            status: Status::Done,
            text: Vec::from_slice(alloc, b"accepted\n")?,
        }),
        GapVerdict::Rejected(at) => Ok(Answer {
            status: Status::Rejected,
            text: rejection(alloc, at)?,
        }),
    }
}

/// The verdict on the plan that follows the scenario in the input.
pub fn answer_check(alloc: Global, judgement: Judgement) -> Result<Answer, Stop>
    ensures { (words : List (List ℕ)) (input : List ℕ) → Judges texts.Plans input (Ok judgement)
        → MakesOf words Request.Check input result }
{
    let verdict = judgement.verdict;
    // (a call, as in `answer_scenario`)
    drop(judgement);
    tell_verdict(alloc, verdict)
}

/// The verdict on the gap plan that follows the scenario in the input.
pub fn answer_check_gap(alloc: Global, judgement: Judgement) -> Result<Answer, Stop>
    ensures { (words : List (List ℕ)) (input : List ℕ) → Judges texts.Gaps input (Ok judgement)
        → MakesOf words Request.CheckGap input result }
{
    let verdict = judgement.verdict;
    // (a call, as in `answer_scenario`)
    drop(judgement);
    tell_verdict(alloc, verdict)
}

// Appends the report of a path.
fn push_report_of(json: bool, out: &mut Vec<u8>, sc: &Scenario, path: &Path) -> Result<(), NoMemory>
    requires { IsPath sc.now path.now }
    ensures { OnOk result (out.new.items ≡ out.old.items ++ report_of json sc.now path.now) }
{
    if json {
        push_report_json(out, sc, path)
    } else {
        push_report(out, sc, path)
    }
}

// The report of a path.
fn report(alloc: Global, json: bool, sc: &Scenario, path: &Path) -> Result<Vec<u8>, NoMemory>
    requires { IsPath sc.now path.now }
    ensures { IfOk result (λ text. text.items ≡ report_of json sc.now path.now) }
{
    let mut text = Vec::new(alloc);
    push_report_of(json, &mut text, sc, path)?;
    Ok(text)
}

/// The report of an accepted plan, or the first reason against the plan.
pub fn answer_report(alloc: Global, json: bool, judgement: &Judgement) -> Result<Answer, Stop>
    requires { (input : List ℕ) × Judges texts.Plans input (Ok judgement.now) }
    ensures { (words : List (List ℕ)) (input : List ℕ) → Judges texts.Plans input (Ok judgement.now)
        → MakesOf words (Request.Report json) input result }
{
    match judgement.verdict {
        GapVerdict::Accepted => Ok(Answer {
            status: Status::Done,
            text: report(alloc, json, &judgement.sc, &judgement.plan.standing.path)?,
        }),
        GapVerdict::Rejected(at) => Err(Stop::Refused(Refusal::Rejected(as_plain(at)))),
    }
}
