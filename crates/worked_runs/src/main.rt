//! Answers cases, line by line: how commands end over a text and what they write, what words spell, and the canonical text
//! of a scenario.
//!
//! `stdin` has the cases, and line N of `stdout` what is answered to line N. So a case more costs no proof, and one that is
//! answered otherwise fails the run. What `stdout` has was worked by hand or by other programs. A line of `stdin` is
//!
//! - a case, as `cases` reads it;
//! - `NAME = TEXT`, which names a text for all cases;
//! - empty or a comment behind `#`.
//!
//! To the last two an empty line is answered. Texts stand in one line, as `texts` reads them.
#![tactic(auto)]

mod cases;
mod runs;
mod shown;
mod texts;

use byte_ports::{StdIn, StdOut, read_all, write_all};
use cases::push_answer;
use exact_parts::NoMemory;
use std::alloc::AllocGlobal;
use std::process::ExitCode;
use std::sync::Wait;
use std::thread::Threads;

// Adds a line for each line of the cases.
fn push_answers<R: AllocGlobal + Threads + Wait + Sync>(
    rt: &R,
    told: &mut Vec<u8>,
    cases: &str,
) -> Result<(), NoMemory> {
    for line in cases.lines() {
        push_answer(rt, told, cases, line)?;
        told.push(b'\n')?;
    }
    Ok(())
}

// What is answered to the cases, if they are a text.
fn answers_to<R: AllocGlobal + Threads + Wait + Sync>(rt: &R, cases: &[u8]) -> Option<Vec<u8>> {
    let cases = str::from_utf8(cases).ok()?;
    let mut told = Vec::new(rt.alloc());
    match push_answers(rt, &mut told, cases) {
        Ok(()) => Some(told),
        Err(_) => None,
    }
}

// The cases, of a MiB at most.
fn cases_read(rt: &HostRuntime) -> Option<Vec<u8>> {
    let mut source = StdIn::new(rt.stdin());
    read_all(rt.alloc(), &mut source, 1 << 20).ok()
}

fn is_written(rt: &HostRuntime, told: &[u8]) -> bool {
    let mut sink = StdOut::new(rt.stdout());
    write_all(&mut sink, told).is_ok()
}

fn main(rt: HostRuntime) -> ExitCode {
    let Some(cases) = cases_read(&rt) else {
        return ExitCode::FAILURE;
    };
    match answers_to(&rt, &cases) {
        Some(told) if is_written(&rt, &told) => ExitCode::SUCCESS,
        _ => ExitCode::FAILURE,
    }
}
