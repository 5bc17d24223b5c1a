//! A request, from the bytes that it reads to those that it writes.

ghost use Rattle.std.specs.Prelude.{◌≡◌, ◌⊎◌, None, map, string_bytes, IfOk, IfErr, OnErr, IsErrOf};
ghost use Rattle.std.specs.Io.KnownBytes.{Appends};
ghost use Rattle.byte_ports.specs.Causes.{Rose};
ghost use Rattle.byte_ports.specs.Taken.{AppendsPrefix};
ghost use Rattle.plan_command.specs.Inputs.{source_view, went, ReadsAnd};
ghost use Rattle.plan_command.specs.Makes.{MakesOf, IsAsked};
ghost use Rattle.plan_command.specs.Words.{Spells, limit_of};
ghost use Rattle.plan_command.specs.Run.{call, Ends, ending_of};

use crate::answer::Answer;
use crate::asked::{Asked, asked_by};
use crate::drilling::{answer_drill, answer_make};
use crate::input::{judged_input, scenario_input};
use crate::request::Request;
use crate::status::{Status, Stop};
use byte_ports::{Sink, Source, WriteStop, write_all};
use search_workers::Gate;
use std::sync::Wait;
use std::thread::Threads;

// Writes an answer.
fn deliver<K: Sink>(out: &mut K, answer: &Answer) -> Result<Status, Stop>
    ensures whole { IfOk result (λ status.
        (status ≡ answer.now.status) × Appends (K.wrote out.old) (K.wrote out.new) answer.now.text.items) }
    ensures front { OnErr result (AppendsPrefix (K.wrote out.old) (K.wrote out.new) answer.now.text.items) }
    ensures cause { IfErr result (λ stop.
        ((stop ≡ Stop.WriteFault) × Rose (K.faults out.old) (K.faults out.new)) ⊎ (stop ≡ Stop.NoMemory)) }
{
    match write_all(out, &answer.text) {
        Ok(()) => Ok(answer.status),
        Err(WriteStop::Fault) => Err(Stop::WriteFault),
        Err(WriteStop::NoMemory) => Err(Stop::NoMemory),
    }
}

// What the request that the words spell makes of its input.
fn answer_for<R: AllocGlobal + Threads + Wait + Sync, S: Source, G: Gate>(
    rt: &R,
    words: &[String],
    request: Request,
    source: &mut S,
    gate: &G,
) -> Result<Answer, Stop>
    requires asked { IsAsked (map string_bytes words.now) request }
    ensures made { ReadsAnd (went S.read_gives source.old source.new) (limit_of request)
        (source_view S.left S.faults source.old) (source_view S.left S.faults source.new)
        (MakesOf (map string_bytes words.now) request) result }
    ensures unread { limit_of request ≡ None → source.new ≡ source.old }
{
    match asked_by(words, request) {
        Asked::Alone(asked) => scenario_input(rt, &asked, source, gate),
        Asked::Judged(asked) => judged_input(rt.alloc(), asked, source),
        Asked::Make { number } => answer_make(rt.alloc(), number),
        Asked::Drill { number, workers } => answer_drill(rt, number, workers, gate),
    }
}

/// Answers a request, and writes the answer.
pub fn serve<R: AllocGlobal + Threads + Wait + Sync, S: Source, K: Sink, G: Gate>(
    rt: &R,
    words: &[String],
    request: Request,
    source: &mut S,
    out: &mut K,
    gate: &G,
) -> Result<Status, Stop>
    requires spelled { Spells (map string_bytes words.now) request }
    ensures ends { Ends (call S.read_gives (map string_bytes words.now) S.left S.faults K.wrote K.faults
        source.old source.new out.old out.new) (ending_of result) }
    ensures used { IsErrOf result Stop.Usage → ⊥ }
    ensures unread { limit_of request ≡ None → source.new ≡ source.old }
{
    match answer_for(rt, words, request, source, gate) {
        Ok(answer) => deliver(out, &answer),
        Err(stop) => Err(stop),
    }
}
