//! What is asked, by what it reads. The names that words have stand in it.

ghost use Rattle.std.specs.Prelude.{◌≡◌, map, string_bytes};
ghost use Rattle.plan_command.specs.Words.{names_behind};
ghost use Rattle.plan_command.specs.Makes.{IsAsked};
ghost use Rattle.plan_command.specs.Asked.{IsFor};

use crate::judge::Task;
use crate::options::cut;
use crate::request::Request;
use search_model::Name;
use tree_format::Family;

/// What is asked of the text of a scenario alone, with the names behind `flown`.
#[derive(Clone, Copy)]
pub enum ScenarioRequest<'a> {
    /// Its plan.
    Plan {
        workers: u32,
        nodes: u64,
    },
    /// Its gap plan.
    Gap {
        workers: u32,
        nodes: u64,
    },
    /// The scenario that forces the prefix of the names, and its plan.
    Replan {
        workers: u32,
        nodes: u64,
        names: &'a [String],
    },
    /// The map of the prefix of the names.
    Map {
        names: &'a [String],
    },
    /// The product scenario in which the second searcher starts at the position of this name, and its plan.
    Duo {
        workers: u32,
        nodes: u64,
        second: Name,
    },
}

/// What is asked of a scenario, and of the plan or gap plan behind it.
#[derive(Clone, Copy)]
pub enum JudgedRequest {
    /// Whether the plan is accepted.
    Check,
    /// Whether the gap plan is accepted.
    CheckGap,
    /// What the accepted plan finds, and what it leaves.
    Report { json: bool },
    /// The text of the accepted plan, of the version that the horizon asks for.
    Convert,
}

/// What is asked, by what it reads.
#[derive(Clone, Copy)]
pub enum Asked<'a> {
    /// It reads the text of a scenario alone.
    Alone(ScenarioRequest<'a>),
    /// It reads a scenario, and the plan or gap plan behind it.
    Judged(JudgedRequest),
    /// It reads nothing: the scenario that is made from a number.
    Make { number: u64 },
    /// It reads nothing: a drill of that scenario.
    Drill { number: u64, workers: u32 },
}

impl JudgedRequest {
    ghost use Rattle.std.specs.Prelude.{◌≡◌};
    ghost use Rattle.plan_command.specs.Asked.{task_of};

    /// What it asks of the judge: which text stands behind the scenario, and whether its records are kept.
    pub fn task(self) -> Task
        ensures { result ≡ task_of self }
    {
        match self {
            JudgedRequest::Check | JudgedRequest::Report { .. } => Task {
                family: Family::Plans,
                keeps: false,
            },
            JudgedRequest::CheckGap => Task {
                family: Family::Gaps,
                keeps: false,
            },
            JudgedRequest::Convert => Task {
                family: Family::Plans,
                keeps: true,
            },
        }
    }
}

// The words from this place on.
fn names_from(words: &[String], at: usize) -> &[String]
    ensures { map string_bytes result.now ≡ names_behind at (map string_bytes words.now) }
{
    let (_, names) = cut(words, at);
    names
}

/// What a request asks, with the names of its words.
pub fn asked_by(words: &[String], request: Request) -> Asked<'_>
    requires { IsAsked (map string_bytes words.now) request }
    ensures { IsFor (map string_bytes words.now) request result }
{
    match request {
        Request::Check => Asked::Judged(JudgedRequest::Check),
        Request::CheckGap => Asked::Judged(JudgedRequest::CheckGap),
        Request::Report { json } => Asked::Judged(JudgedRequest::Report { json }),
        Request::Convert => Asked::Judged(JudgedRequest::Convert),
        Request::Make { number } => Asked::Make { number },
        Request::Drill { number, workers } => Asked::Drill { number, workers },
        Request::Plan { workers, nodes } => Asked::Alone(ScenarioRequest::Plan { workers, nodes }),
        Request::Gap { workers, nodes } => Asked::Alone(ScenarioRequest::Gap { workers, nodes }),
        Request::Replan {
            workers,
            nodes,
            flown,
        } => Asked::Alone(ScenarioRequest::Replan {
            workers,
            nodes,
            names: names_from(words, flown),
        }),
        Request::Map { flown } => Asked::Alone(ScenarioRequest::Map {
            names: names_from(words, flown),
        }),
        Request::Duo {
            workers,
            nodes,
            second,
        } => Asked::Alone(ScenarioRequest::Duo {
            workers,
            nodes,
            second,
        }),
    }
}
