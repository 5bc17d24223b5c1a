ghost use Rattle.std.specs.Prelude.{◌≡◌};
ghost use Rattle.plan_command.specs.Lines.{code_of};

use crate::flown::FlownWhy;
use crate::pairing::DuoWhy;
use scenario_text::TextFault;
use tree_checker::RejectAt;
use tree_format::PlanFault;

/// How a run ended.
#[derive(Clone, Copy, Debug, PartialEq, Eq)]
pub enum Status {
    /// The answer was written.
    Done,
    /// The plan isn't accepted.
    Rejected,
    /// The words spell no request.
    Usage,
    /// The input is no scenario.
    BadScenario,
    /// What follows the scenario is no plan.
    BadPlan,
    /// The source failed.
    ReadFault,
    /// The sink failed.
    WriteFault,
    /// No memory was found.
    NoMemory,
    /// The tree needs more nodes than the limit.
    TooManyNodes,
    /// The input is longer than the limit.
    TooLong,
    /// No scenario forces the flown prefix, or there is no map of it.
    BadFlown,
    /// There is no product scenario for two searchers.
    BadDuo,
}

/// The number of a status, which the program ends with.
pub fn status_code(s: Status) -> u8
    ensures { result ≡ code_of s }
{
    match s {
        Status::Done => 0,
        Status::Rejected => 1,
        Status::Usage => 2,
        Status::BadScenario => 3,
        Status::BadPlan => 4,
        Status::ReadFault => 5,
        Status::WriteFault => 6,
        Status::NoMemory => 7,
        Status::TooManyNodes => 8,
        Status::TooLong => 9,
        Status::BadFlown => 10,
        Status::BadDuo => 11,
    }
}

/// Why an input that was read is refused, with all that is said of it.
#[derive(Clone, Copy, Debug, PartialEq, Eq)]
pub enum Refusal {
    /// The first reason against a plan that has to be accepted.
    Rejected(RejectAt),
    /// The first fault of the scenario's text.
    BadScenario(TextFault),
    /// The first fault of the plan's text.
    BadPlan(PlanFault),
    /// Why the prefix isn't flown, or no scenario forces it.
    BadFlown(FlownWhy),
    /// Why there is no product scenario.
    BadDuo(DuoWhy),
    /// The limit on records, which the plan would pass.
    TooManyNodes(u64),
}

impl Refusal {
    ghost use Rattle.std.specs.Prelude.{◌≡◌};
    ghost use Rattle.plan_command.specs.Lines.{refused_status};

    /// The status that a refusal ends with.
    pub fn status(self) -> Status
        ensures { result ≡ refused_status self }
    {
        match self {
            Refusal::Rejected(_) => Status::Rejected,
            Refusal::BadScenario(_) => Status::BadScenario,
            Refusal::BadPlan(_) => Status::BadPlan,
            Refusal::BadFlown(_) => Status::BadFlown,
            Refusal::BadDuo(_) => Status::BadDuo,
            Refusal::TooManyNodes(_) => Status::TooManyNodes,
        }
    }
}

/// What stops a run before its answer is written.
#[derive(Clone, Copy, Debug, PartialEq, Eq)]
pub enum Stop {
    /// The words spell no request.
    Usage,
    /// The source failed.
    ReadFault,
    /// The input is longer than the limit.
    TooLong,
    /// The input was read, and is refused.
    Refused(Refusal),
    /// The sink failed.
    WriteFault,
    /// No memory was found.
    NoMemory,
}

impl Stop {
    ghost use Rattle.std.specs.Prelude.{◌≡◌};
    ghost use Rattle.plan_command.specs.Lines.{status_of};

    /// The status that a stop ends with.
    pub fn status(self) -> Status
        ensures { result ≡ status_of self }
    {
        match self {
            Stop::Usage => Status::Usage,
            Stop::ReadFault => Status::ReadFault,
            Stop::TooLong => Status::TooLong,
            Stop::Refused(refusal) => refusal.status(),
            Stop::WriteFault => Status::WriteFault,
            Stop::NoMemory => Status::NoMemory,
        }
    }
}
