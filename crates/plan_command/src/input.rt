//! What is made of an input, which is read as it is needed.

ghost use Rattle.std.specs.Prelude.{◌≡◌, ◌<◌, ◌^◌, ℕ, List, Some, Ok, length};
ghost use Rattle.plan_command.specs.declared.request.Request.{Request};
ghost use Rattle.plan_command.specs.Inputs.{source_view, went, InputOf, ReadsAnd};
ghost use Rattle.plan_command.specs.Intakes.{JudgesAs};
ghost use Rattle.plan_command.specs.Asked.{Asks, IsAskable, request_of, task_of};
ghost use Rattle.plan_command.specs.Makes.{MakesOf};

use crate::answer::{Answer, answer_scenario};
use crate::asked::{JudgedRequest, ScenarioRequest};
use crate::checking::{answer_check, answer_check_gap, answer_report};
use crate::converting::answer_convert;
use crate::intake::{Intake, Judgement};
use crate::judge::Task;
use crate::request::{MOST_JUDGED, MOST_SCENARIO};
use crate::status::Stop;
use byte_ports::{InputStop, ReadStop, Source, read_all, read_pieces};
use search_workers::Gate;
use std::alloc::Global;
use std::sync::Wait;
use std::thread::Threads;

// How many bytes of an input are read at once, at most.
const PIECE_LEN: usize = 65_536;

// The whole input, which isn't longer than the limit.
fn read_input<S: Source>(alloc: Global, source: &mut S, limit: usize) -> Result<Vec<u8>, Stop>
    requires { limit < 2 ^ 30 }
    ensures { InputOf (λ v. v.items) (went S.read_gives source.old source.new) (Some limit)
        (source_view S.left S.faults source.old) (source_view S.left S.faults source.new) result }
{
    match read_all(alloc, source, limit) {
        Ok(input) => Ok(input),
        Err(ReadStop::Fault) => Err(Stop::ReadFault),
        Err(ReadStop::TooLong) => Err(Stop::TooLong),
        Err(ReadStop::NoMemory) => Err(Stop::NoMemory),
    }
}

// What stops a run whose input wasn't read to its end.
fn unread(stop: InputStop) -> Stop
    ensures fault { stop ≡ InputStop.Fault → result ≡ Stop.ReadFault }
    ensures too_long { stop ≡ InputStop.TooLong → result ≡ Stop.TooLong }
{
    match stop {
        InputStop::Fault => Stop::ReadFault,
        InputStop::TooLong => Stop::TooLong,
    }
}

// The verdict on what stands behind the scenario in the input, and what the task keeps of it. So many bytes are read at
// once as there is room for.
fn hear_pieces<S: Source>(
    alloc: Global,
    task: Task,
    source: &mut S,
    piece: &mut [u8],
) -> Result<Judgement, Stop>
    requires { 0 < length piece.old }
    ensures { ReadsAnd (went S.read_gives source.old source.new) (Some MOST_JUDGED)
        (source_view S.left S.faults source.old) (source_view S.left S.faults source.new) (JudgesAs task) result }
{
    let mut intake = Intake::new(alloc, task);
    match read_pieces(source, piece, MOST_JUDGED, &mut intake) {
        Ok(()) => intake.finish(),
        Err(stop) => {
            // (a call, which is proved once for all intakes, and not a drop field by field here; so below)
            drop(intake);
            Err(unread(stop))
        }
    }
}

// The verdict on what stands behind the scenario in the input, and what the task keeps of it.
fn hear_input<S: Source>(alloc: Global, task: Task, source: &mut S) -> Result<Judgement, Stop>
    ensures { ReadsAnd (went S.read_gives source.old source.new) (Some MOST_JUDGED)
        (source_view S.left S.faults source.old) (source_view S.left S.faults source.new) (JudgesAs task) result }
{
    match vec![in alloc; 0; PIECE_LEN] {
        Ok(mut piece) => hear_pieces(alloc, task, source, &mut piece),
        Err(_) => Err(Stop::NoMemory),
    }
}

// What is said of a judgement on the input.
fn answer_judged(alloc: Global, asked: JudgedRequest, judgement: Judgement) -> Result<Answer, Stop>
    requires { (input : List ℕ) × JudgesAs (task_of asked) input (Ok judgement) }
    ensures { (words : List (List ℕ)) (input : List ℕ) → JudgesAs (task_of asked) input (Ok judgement)
        → MakesOf words (request_of asked) input result }
{
    match asked {
        JudgedRequest::Check => answer_check(alloc, judgement),
        JudgedRequest::CheckGap => answer_check_gap(alloc, judgement),
        JudgedRequest::Report { json } => {
            let answer = answer_report(alloc, json, &judgement);
            drop(judgement);
            answer
        }
        JudgedRequest::Convert => {
            let answer = answer_convert(alloc, &judgement);
            drop(judgement);
            answer
        }
    }
}

/// What is said of an input that holds a scenario and a plan or gap plan.
pub fn judged_input<S: Source>(
    alloc: Global,
    asked: JudgedRequest,
    source: &mut S,
) -> Result<Answer, Stop>
    ensures { (words : List (List ℕ)) → ReadsAnd (went S.read_gives source.old source.new) (Some MOST_JUDGED)
        (source_view S.left S.faults source.old) (source_view S.left S.faults source.new)
        (MakesOf words (request_of asked)) result }
{
    match hear_input(alloc, asked.task(), source) {
        Ok(judgement) => answer_judged(alloc, asked, judgement),
        Err(stop) => Err(stop),
    }
}

/// What is made of an input that is the text of a scenario alone.
pub fn scenario_input<R: AllocGlobal + Threads + Wait + Sync, S: Source, G: Gate>(
    rt: &R,
    asked: &ScenarioRequest,
    source: &mut S,
    gate: &G,
) -> Result<Answer, Stop>
    requires { IsAskable asked.now }
    ensures { (words : List (List ℕ)) (request : Request) → Asks words request asked.now
        → ReadsAnd (went S.read_gives source.old source.new) (Some MOST_SCENARIO)
        (source_view S.left S.faults source.old) (source_view S.left S.faults source.new) (MakesOf words request) result }
{
    match read_input(rt.alloc(), source, MOST_SCENARIO) {
        Ok(input) => answer_scenario(rt, asked, &input, gate),
        Err(stop) => Err(stop),
    }
}
