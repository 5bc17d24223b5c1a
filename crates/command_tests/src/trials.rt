//! Runs over memory for tests, and texts that are written in one line.

ghost use Rattle.std.specs.Prelude.{◌≤◌};

use byte_ports::{MemSink, MemSource};
use plan_command::{OpenGate, Status, run};
use std::alloc::{AllocError, AllocGlobal, Global};
use std::sync::Wait;
use std::test::Fail;
use std::thread::Threads;

// Texts with their names; " | " stands for the end of a line, and so does the end of the row. A name with `_plan` is a plan of
// version 1, and with `_plan_2` of version 2, which `plan` writes.
//
// - `two_cells`: of equal paths the least is best.
// - `waiting_longer`: three cells in a row; the target waits in the last one, the searcher begins in the middle.
const TEXTS: &str = "\
two_cells = scenario 1 | horizon 2 | parts 2 2 2 | cell a | cell b | start a | first a 1 b 1 | moves a a b | moves b a b | drift a a 1 b 1 | drift b a 1 b 1 | overlook a 0 | overlook b 0 | end
two_cells_plan = plan 1 | path a a | chance 12 16 | nodes 5 | B | B 0 | W 12 0 0 | W 12 0 1 | M 12 1 | end
two_cells_plan_2 = plan 2 | path a a | chance 12 16 | nodes 5 | B | B | W 12 | W 12 | M 12 | end
waiting_longer = scenario 1 | horizon 3 | parts 1 1 2 | cell a | cell b | cell c | start b | first c 1 | moves a a b | moves b a b c | moves c b c | drift a a 1 | drift b b 1 | drift c c 1 | rate 1 | end
";

/// How a run ended, and what it wrote.
#[derive(Drop)]
pub struct Outcome {
    pub status: Status,
    pub out: Vec<u8>,
    pub err: Vec<u8>,
}

// The text of a name, in one line.
fn named(name: &str) -> Option<&'static str> {
    for row in TEXTS.lines() {
        if let Some((found, text)) = row.split_once(" = ")
            && found == name
        {
            return Some(text);
        }
    }
    None
}

// Adds the lines that are written in one.
fn push_lines(text: &mut Vec<u8>, row: &str) -> Result<(), AllocError> {
    for line in row.split(" | ") {
        text.extend_from_slice(line.as_bytes())?;
        text.push(b'\n')?;
    }
    Ok(())
}

/// Adds a text whose lines are written in one; a line such as `@two_cells` stands for the text of this name.
pub fn push_text(text: &mut Vec<u8>, row: &str) -> Result<(), Fail> {
    for line in row.split(" | ") {
        let lines = match line.strip_prefix('@') {
            Some(name) => named(name).ok_or("no such text")?,
            None => line,
        };
        push_lines(text, lines)?;
    }
    Ok(())
}

/// Such a text alone.
pub fn text_of(alloc: Global, row: &str) -> Result<Vec<u8>, Fail> {
    let mut text = Vec::new(alloc);
    push_text(&mut text, row)?;
    Ok(text)
}

fn push_words(alloc: Global, words: &mut Vec<String>, line: &str) -> Result<(), Fail> {
    for word in line.split(' ') {
        if !word.is_empty() {
            words.push(String::from_str(alloc, word)?)?;
        }
    }
    Ok(())
}

/// The words of a command line.
pub fn words_of(alloc: Global, line: &str) -> Result<Vec<String>, Fail> {
    let mut words = Vec::new(alloc);
    push_words(alloc, &mut words, line)?;
    Ok(words)
}

// How a run ended, and what was written.
fn outcome_of(alloc: Global, status: Status, out: &[u8], err: &[u8]) -> Result<Outcome, Fail> {
    let out = Vec::from_slice(alloc, out)?;
    let err = Vec::from_slice(alloc, err)?;
    Ok(Outcome { status, out, err })
}

// Runs words between a source and a sink.
fn ended_between<R: AllocGlobal + Threads + Wait + Sync>(
    rt: &R,
    words: &[String],
    source: &mut MemSource,
    out: &mut MemSink,
    most: usize,
) -> Result<Outcome, Fail>
    requires { 1 ≤ most }
{
    let mut err = MemSink::new(rt.alloc(), most, Vec::new(rt.alloc()));
    let status = run(rt, words, source, out, &mut err, &OpenGate);
    outcome_of(rt.alloc(), status, out.wrote(), err.wrote())
}

// Runs words over memory.
fn ended_over<R: AllocGlobal + Threads + Wait + Sync>(
    rt: &R,
    words: &[String],
    input: Vec<u8>,
    most: usize,
    read_fails: &[u64],
    write_fails: &[u64],
) -> Result<Outcome, Fail>
    requires { 1 ≤ most }
{
    let alloc = rt.alloc();
    let mut source = MemSource::new(input, most, Vec::from_slice(alloc, read_fails)?);
    let mut out = MemSink::new(alloc, most, Vec::from_slice(alloc, write_fails)?);
    ended_between(rt, words, &mut source, &mut out, most)
}

/// Runs a command over memory, `most` bytes a read and a write.
pub fn ended<R: AllocGlobal + Threads + Wait + Sync>(
    rt: &R,
    line: &str,
    input: Vec<u8>,
    most: usize,
    read_fails: &[u64],
    write_fails: &[u64],
) -> Result<Outcome, Fail>
    requires { 1 ≤ most }
{
    let words = words_of(rt.alloc(), line)?;
    ended_over(rt, &words, input, most, read_fails, write_fails)
}

// Whether a check accepts a scenario and the plan behind it.
fn is_accepted<R: AllocGlobal + Threads + Wait + Sync>(
    rt: &R,
    input: Vec<u8>,
) -> Result<bool, Fail> {
    let check = ended(rt, "check", input, 4096, &[], &[])?;
    Ok(check.out.as_slice() == b"accepted\n".as_slice())
}

// Adds the path and the chance of a plan, as its text has them.
fn push_path_and_chance(told: &mut Vec<u8>, plan: &[u8]) -> Result<(), Fail> {
    for number in 1..3 {
        let line = plan.split(|c| *c == b'\n').nth(number).ok_or("no line")?;
        told.extend_from_slice(line)?;
        told.push(b'\n')?;
    }
    Ok(())
}

// Whether a check accepts a plan behind its scenario.
fn is_plan_of<R: AllocGlobal + Threads + Wait + Sync>(
    rt: &R,
    scenario: &[u8],
    plan: &[u8],
) -> Result<bool, Fail> {
    let mut input = Vec::from_slice(rt.alloc(), scenario)?;
    input.extend_from_slice(plan)?;
    is_accepted(rt, input)
}

// The path and the chance of a plan that a check accepts.
fn path_and_chance<R: AllocGlobal + Threads + Wait + Sync>(
    rt: &R,
    scenario: &[u8],
    plan: &[u8],
) -> Result<Vec<u8>, Fail> {
    if !is_plan_of(rt, scenario, plan)? {
        return Err(Fail::from("not accepted"));
    }
    let mut told = Vec::new(rt.alloc());
    push_path_and_chance(&mut told, plan)?;
    Ok(told)
}

/// Plans a scenario, and checks the plan: its path and chance.
pub fn checked_plan<R: AllocGlobal + Threads + Wait + Sync>(
    rt: &R,
    words: &str,
    scenario: &[u8],
) -> Result<Vec<u8>, Fail> {
    let input = Vec::from_slice(rt.alloc(), scenario)?;
    let plan = ended(rt, words, input, 4096, &[], &[])?;
    path_and_chance(rt, scenario, &plan.out)
}
