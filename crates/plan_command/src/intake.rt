//! The input of a request that judges a plan or a gap plan, which comes in pieces.

ghost use Rattle.std.specs.Prelude.{◌≡◌, ◌++◌, [], ℕ, List, IfOk};
ghost use Rattle.scenario_text.specs.Laws.{EndsWithEnd};
ghost use Rattle.plan_command.specs.declared.judge.Task.{Task as TaskLem};
ghost use Rattle.plan_command.specs.Plans.{BeginsWith};
ghost use Rattle.plan_command.specs.Intakes.{HasGathered, GathersOn, HasTakenRest, stopped_by, intake_by, GoesOn, TellsRest, IsBehind, JudgesRest, JudgesFront, JudgesAs, HasTaken, Becomes};

use crate::hearing::Head;
use crate::judge::{Judge, Task};
use crate::scenario_end::ends_with_end;
use crate::status::{Refusal, Stop};
use bound_tree::{BoundTree, Plan, TreeNode};
use byte_ports::Receiver;
use exact_parts::NoMemory;
use scenario_text::{TextStop, read_scenario};
use search_model::Scenario;
use std::alloc::Global;
use std::mem::replace;
use text_rows::rest_from;
use tree_checker::GapVerdict;
use tree_format::{PlanFault, PlanStop};

/// What was made of the bytes so far.
#[derive(Drop)]
pub enum Intake {
    /// They are the scenario's lines, or a front of them. Behind them the text of this task is due.
    Scenario(Global, Task, Vec<u8>),
    /// The scenario was read, and what follows goes to the judge.
    Plan(Judge),
    /// They are refused, whatever follows, or memory ran out.
    Stopped(Stop),
}

/// The scenario, what is kept of a plan or gap plan, and what is said of it. The tree is empty where no records are kept.
#[derive(Drop)]
pub struct Judgement {
    pub sc: Scenario,
    pub plan: Plan,
    pub verdict: GapVerdict,
}

// Adds bytes to the scenario's lines up to the first line `end`: how many, where that line came.
#[tactic(auto, using(crate::proofs::Gathering::gather_steps))]
fn gather(text: &mut Vec<u8>, piece: &[u8]) -> Result<Option<usize>, NoMemory>
    ensures { IfOk result (λ used. HasGathered text.old.items piece.now used text.new.items) }
{
    for (i, byte) in piece.iter().enumerate() {
        text.push(*byte)?;
        if *byte == b'\n' && ends_with_end(text) {
            return Ok(Some(i + 1));
        }
    }
    Ok(None)
}

// What stops a run where this stops the reading of a plan or gap plan.
fn stop_by(stop: PlanStop) -> Stop
    ensures { result ≡ stopped_by stop }
{
    match stop {
        PlanStop::Fault(fault) => Stop::Refused(Refusal::BadPlan(fault)),
        PlanStop::NoMemory => Stop::NoMemory,
    }
}

// The judge, once it took the bytes that follow.
fn going_on(judge: Judge, more: &[u8]) -> Result<Judge, Stop>
    requires { (task : TaskLem) × (rest : List ℕ) × HasTakenRest task rest judge }
    ensures { (task : TaskLem) → GoesOn task judge more.now result }
{
    let mut judge = judge;
    match judge.take(more) {
        Ok(()) => Ok(judge),
        Err(stop) => {
            // (a call, which is proved once for all judges, and not a drop field by field here; so below)
            drop(judge);
            Err(stop_by(stop))
        }
    }
}

// The judge behind a scenario, which took these bytes.
fn judge_rest(alloc: Global, sc: Scenario, task: Task, rest: &[u8]) -> Result<Judge, Stop>
    ensures { JudgesRest task sc rest.now result }
{
    match Judge::start(alloc, sc, task) {
        Ok(judge) => going_on(judge, rest),
        Err(NoMemory) => Err(Stop::NoMemory),
    }
}

// The judge behind the scenario at the front of the text, which took the rest of it.
fn judge_behind(alloc: Global, task: Task, text: &[u8]) -> Result<Judge, Stop>
    ensures { JudgesFront task text.now result }
{
    match read_scenario(alloc, text) {
        Ok((sc, len)) => judge_rest(alloc, sc, task, rest_from(text, len)),
        Err(TextStop::Fault(fault)) => Err(Stop::Refused(Refusal::BadScenario(fault))),
        Err(TextStop::NoMemory) => Err(Stop::NoMemory),
    }
}

// What is made of a judge that goes on, or of what stops it.
fn intake_of(judge: Result<Judge, Stop>) -> Intake
    ensures { result ≡ intake_by judge }
{
    match judge {
        Ok(judge) => Intake::Plan(judge),
        Err(stop) => Intake::Stopped(stop),
    }
}

// What is made of a scenario's lines, up to the line `end`, and of the bytes that follow.
fn judged_on(alloc: Global, task: Task, text: &[u8], more: &[u8]) -> Intake
    requires { EndsWithEnd text.now }
    ensures { HasTaken task (text.now ++ more.now) result }
{
    match judge_behind(alloc, task, text) {
        Ok(judge) => intake_of(going_on(judge, more)),
        Err(stop) => Intake::Stopped(stop),
    }
}

// Adds a piece to the scenario's lines: what is made of them where their line `end` came, or where memory ran out.
fn gathered_on(alloc: Global, task: Task, text: &mut Vec<u8>, piece: &[u8]) -> Option<Intake>
    ensures { GathersOn task text.old.items piece.now text.new.items result }
{
    match gather(text, piece) {
        Ok(None) => None,
        Ok(Some(used)) => Some(judged_on(alloc, task, text, rest_from(piece, used))),
        Err(NoMemory) => Some(Intake::Stopped(Stop::NoMemory)),
    }
}

// The plan of a head and of the records that are kept.
fn plan_kept(head: Head, records: Vec<TreeNode>) -> Plan
    ensures { result ≡ record { standing = head.standing; weight = head.weight; tree = records.items } }
{
    Plan {
        standing: head.standing,
        weight: head.weight,
        tree: BoundTree::of(records),
    }
}

// What is made of what was said of a plan or gap plan for this scenario, of which this is kept.
fn judgement_of(
    sc: Scenario,
    plan: Plan,
    said: Result<GapVerdict, PlanFault>,
) -> Result<Judgement, Stop>
    ensures { (task : TaskLem) (input rest : List ℕ) → BeginsWith sc input rest
        → TellsRest task sc plan rest said → JudgesAs task input result }
{
    match said {
        Ok(verdict) => Ok(Judgement { sc, plan, verdict }),
        Err(fault) => {
            drop(sc);
            drop(plan);
            Err(Stop::Refused(Refusal::BadPlan(fault)))
        }
    }
}

// What is made of a judge that ends.
fn judged(judge: Judge) -> Result<Judgement, Stop>
    ensures { (task : TaskLem) (input : List ℕ) → IsBehind task input judge → JudgesAs task input result }
{
    let said = judge.finish();
    let plan = plan_kept(judge.head, judge.records);
    judgement_of(judge.sc, plan, said)
}

// What is made of an input that is a scenario's lines alone.
fn judged_text(alloc: Global, task: Task, text: &[u8]) -> Result<Judgement, Stop>
    ensures { JudgesAs task text.now result }
{
    match judge_behind(alloc, task, text) {
        Ok(judge) => judged(judge),
        Err(stop) => Err(stop),
    }
}

impl Receiver for Intake {
    ghost use Rattle.plan_command.specs.declared.judge.Task.{Task as TaskLem};

    ghost Purpose = { TaskLem };

    ghost took = { HasTaken };

    fn take(&mut self, piece: &[u8]) {
        match self.take_piece(piece) {
            // (what it was is let go by a call)
            Some(next) => drop(replace(self, next)),
            None => {}
        }
    }
}

impl Intake {
    /// No byte came of a scenario and the text of this task.
    pub fn new(alloc: Global, task: Task) -> Intake
        ensures { HasTaken task [] result }
    {
        Intake::Scenario(alloc, task, Vec::new(alloc))
    }

    // Takes the next bytes: what the intake becomes, where it becomes another.
    fn take_piece(&mut self, piece: &[u8]) -> Option<Intake>
        requires { (task : TaskLem) × (bytes : List ℕ) × HasTaken task bytes self.old }
        ensures { (task : TaskLem) (bytes : List ℕ) → HasTaken task bytes self.old
            → Becomes task (bytes ++ piece.now) self.new result }
    {
        match self {
            Intake::Scenario(alloc, task, text) => gathered_on(*alloc, *task, text, piece),
            Intake::Plan(judge) => match judge.take(piece) {
                Ok(()) => None,
                Err(stop) => Some(Intake::Stopped(stop_by(stop))),
            },
            Intake::Stopped(_) => None,
        }
    }

    /// What is said of the input, where it ends here.
    ///
    /// # Errors
    ///
    /// The first fault of the scenario's text or of that behind it, or `NoMemory`.
    pub fn finish(self) -> Result<Judgement, Stop>
        ensures { (task : TaskLem) (input : List ℕ) → HasTaken task input self → JudgesAs task input result }
    {
        match self {
            Intake::Scenario(alloc, task, text) => judged_text(alloc, task, &text),
            Intake::Plan(judge) => judged(judge),
            Intake::Stopped(stop) => Err(stop),
        }
    }
}
