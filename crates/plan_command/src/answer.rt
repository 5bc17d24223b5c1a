//! What is made of the text of a scenario alone.

ghost use Rattle.std.specs.Prelude.{◌≡◌, ℕ, List};
ghost use Rattle.plan_command.specs.declared.request.Request.{Request};
ghost use Rattle.plan_command.specs.Asked.{Asks, IsAskable, GivesFor};
ghost use Rattle.plan_command.specs.Makes.{MakesOf, IsDone};

use crate::asked::ScenarioRequest;
use crate::gapping::gapped;
use crate::mapping::map_flown;
use crate::pairing::pair;
use crate::planning::planned;
use crate::replanning::replan;
use crate::status::{Refusal, Status, Stop};
use exact_parts::NoMemory;
use scenario_text::{TextStop, read_scenario_alone};
use search_model::Scenario;
use search_workers::Gate;
use std::alloc::AllocError;
use std::sync::Wait;
use std::thread::Threads;

/// A text for `out`, and the status once it is written.
#[derive(Debug, Drop)]
pub struct Answer {
    pub status: Status,
    pub text: Vec<u8>,
}

impl From<NoMemory> for Stop {
    ghost use Rattle.plan_command.specs.declared.status.Stop.TheVariants as stops;

    ghost from_gives = { λ _ e. e ≡ stops.NoMemory };

    fn from(_refused: NoMemory) -> Stop {
        Stop::NoMemory
    }
}

impl From<AllocError> for Stop {
    ghost use Rattle.plan_command.specs.declared.status.Stop.TheVariants as stops;

    ghost from_gives = { λ _ e. e ≡ stops.NoMemory };

    fn from(_refused: AllocError) -> Stop {
        Stop::NoMemory
    }
}

// What is made of a scenario.
fn made_of<R: AllocGlobal + Threads + Wait + Sync, G: Gate>(
    rt: &R,
    asked: &ScenarioRequest,
    sc: &Scenario,
    gate: &G,
) -> Result<Vec<u8>, Stop>
    requires { IsAskable asked.now }
    ensures { GivesFor asked.now sc.now result }
{
    match asked {
        ScenarioRequest::Plan { workers, nodes } => planned(rt, sc, *workers, *nodes, gate),
        ScenarioRequest::Gap { workers, nodes } => gapped(rt, sc, *workers, *nodes, gate),
        ScenarioRequest::Replan {
            workers,
            nodes,
            names,
        } => replan(rt, sc, names, *workers, *nodes, gate),
        ScenarioRequest::Map { names } => map_flown(rt.alloc(), sc, names),
        ScenarioRequest::Duo {
            workers,
            nodes,
            second,
        } => pair(rt, sc, second, *workers, *nodes, gate),
    }
}

// A text that was made, as the answer.
fn done(made: Result<Vec<u8>, Stop>) -> Result<Answer, Stop>
    ensures { IsDone made result }
{
    match made {
        Ok(text) => Ok(Answer {
            status: Status::Done,
            text,
        }),
        Err(stop) => Err(stop),
    }
}

/// What is made of the scenario whose text alone the input is.
pub fn answer_scenario<R: AllocGlobal + Threads + Wait + Sync, G: Gate>(
    rt: &R,
    asked: &ScenarioRequest,
    input: &[u8],
    gate: &G,
) -> Result<Answer, Stop>
    requires { IsAskable asked.now }
    ensures { (words : List (List ℕ)) (request : Request) → Asks words request asked.now
        → MakesOf words request input.now result }
{
    match read_scenario_alone(rt.alloc(), input) {
        Ok(sc) => {
            let made = made_of(rt, asked, &sc, gate);
            // (a call, which is proved once for all scenarios, and not a drop field by field here)
            drop(sc);
            done(made)
        }
        Err(TextStop::Fault(fault)) => Err(Stop::Refused(Refusal::BadScenario(fault))),
        Err(TextStop::NoMemory) => Err(Stop::NoMemory),
    }
}
