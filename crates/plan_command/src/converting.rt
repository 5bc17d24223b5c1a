//! The command `convert`.

ghost use Rattle.std.specs.Prelude.{ℕ, List, Ok};
ghost use Rattle.plan_command.specs.declared.request.Request.{Request};
ghost use Rattle.plan_command.specs.Intakes.{JudgesAs, keeping_plans};
ghost use Rattle.plan_command.specs.Makes.{MakesOf};

use crate::answer::Answer;
use crate::intake::Judgement;
use crate::planning::text_of_plan;
use crate::status::{Refusal, Status, Stop};
use std::alloc::Global;
use tree_checker::{GapVerdict, as_plain};

/// The plan that follows the scenario in the input, as its text of the version that the horizon asks for,
/// where it is accepted.
pub fn answer_convert(alloc: Global, judgement: &Judgement) -> Result<Answer, Stop>
    requires { (input : List ℕ) × JudgesAs keeping_plans input (Ok judgement.now) }
    ensures { (words : List (List ℕ)) (input : List ℕ) → JudgesAs keeping_plans input (Ok judgement.now)
        → MakesOf words Request.Convert input result }
{
    match judgement.verdict {
        GapVerdict::Accepted => Ok(Answer {
            status: Status::Done,
            text: text_of_plan(alloc, &judgement.sc, &judgement.plan)?,
        }),
        GapVerdict::Rejected(at) => Err(Stop::Refused(Refusal::Rejected(as_plain(at)))),
    }
}
