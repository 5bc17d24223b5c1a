//! Cases, and what is answered to them.
//!
//! A case is `ASKED; WORDS; TEXT`. It asks
//!
//! - `run`: how the command of these words ends over the text, and what it writes;
//! - `made`: the same, and how `check` ends over what it wrote;
//! - `checked`: the same, and how `check` ends over the text with what it wrote behind it;
//! - `words`: what the words spell;
//! - `text`: the canonical text of the scenario.
//!
//! Behind the first three, `head N` or `tail N` says how many lines of what is written are shown. A blank stands before
//! each word; commands over one text stand with `&` between them, and answer alike.

use crate::runs::{Then, push_alike};
use crate::shown::{Shown, push_shown, shown_by};
use crate::texts::{text_of, words_of};
use exact_parts::NoMemory;
use plan_command::{Request, read_words};
use scenario_text::{print_scenario, read_scenario_alone};
use search_model::Scenario;
use std::alloc::{AllocError, AllocGlobal, Global};
use std::sync::Wait;
use std::thread::Threads;

// The parts of a case.
#[derive(Clone, Copy)]
struct Case<'a> {
    asked: &'a str,
    words: &'a str,
    text: &'a str,
}

fn case_of(line: &str) -> Option<Case> {
    let mut parts = line.split(';');
    let asked = parts.next()?;
    let words = parts.next()?;
    let text = parts.next().unwrap_or("");
    let text = text.strip_prefix(' ').unwrap_or(text);
    Some(Case { asked, words, text })
}

// What is asked, and which lines are shown.
fn asked_by(asked: &str) -> (&str, Shown) {
    let mut words = asked.split(' ');
    let what = words.next().unwrap_or("");
    let side = words.next().unwrap_or("");
    let count = words.next().unwrap_or("");
    (what, shown_by(side, count))
}

// A request: its command and its numbers. Those of `replan` and `duo` are the workers and the records; the place of the
// first name, or the name, stands behind them.
fn spelled(alloc: Global, request: &Request) -> Result<String, AllocError> {
    match request {
        Request::Plan { workers, nodes } => format!(in alloc; "plan {workers} {nodes}"),
        Request::Check => format!(in alloc; "check"),
        Request::Report { json: false } => format!(in alloc; "report"),
        Request::Report { json: true } => format!(in alloc; "report json"),
        Request::Make { number } => format!(in alloc; "make {number}"),
        Request::Drill { number, workers } => format!(in alloc; "drill {number} {workers}"),
        Request::Convert => format!(in alloc; "convert"),
        Request::Gap { workers, nodes } => format!(in alloc; "gap {workers} {nodes}"),
        Request::CheckGap => format!(in alloc; "checkgap"),
        Request::Replan {
            workers,
            nodes,
            flown,
        } => format!(in alloc; "replan {workers} {nodes} {flown}"),
        Request::Map { flown } => format!(in alloc; "map {flown}"),
        Request::Duo {
            workers,
            nodes,
            second,
        } => {
            let name = String::from_utf8_lossy(alloc, second.bytes())?;
            format!(in alloc; "duo {workers} {nodes} {name}")
        }
    }
}

// Adds what words spell.
fn push_spelled(alloc: Global, told: &mut Vec<u8>, line: &str) -> Result<(), NoMemory> {
    let words = words_of(alloc, line)?;
    let read = read_words(&words);
    drop(words);
    match read {
        Some(request) => told.extend_from_slice(spelled(alloc, &request)?.as_bytes())?,
        None => told.extend_from_slice(b"none")?,
    }
    Ok(())
}

// Adds the canonical text of a scenario.
fn push_canonical(alloc: Global, told: &mut Vec<u8>, sc: &Scenario) -> Result<(), NoMemory> {
    let mut text = Vec::new(alloc);
    print_scenario(&mut text, sc)?;
    push_shown(told, &text, Shown::All)
}

// The same of the scenario that a text is.
fn push_read(alloc: Global, told: &mut Vec<u8>, text: &[u8]) -> Result<(), NoMemory> {
    match read_scenario_alone(alloc, text) {
        Ok(sc) => push_canonical(alloc, told, &sc),
        Err(_) => Ok(told.extend_from_slice(b"no scenario")?),
    }
}

// Adds what is answered to a case.
fn push_told<R: AllocGlobal + Threads + Wait + Sync>(
    rt: &R,
    told: &mut Vec<u8>,
    case: Case,
    text: &[u8],
) -> Result<(), NoMemory> {
    let (what, shown) = asked_by(case.asked);
    match what {
        "run" => push_alike(rt, told, case.words, text, shown, Then::Nothing),
        "made" => push_alike(rt, told, case.words, text, shown, Then::Made),
        "checked" => push_alike(rt, told, case.words, text, shown, Then::Both),
        "words" => push_spelled(rt.alloc(), told, case.words),
        "text" => push_read(rt.alloc(), told, text),
        _ => Ok(told.extend_from_slice(b"no case")?),
    }
}

/// Adds what is answered to a line of the cases: to a case, and nothing to any other line.
pub(crate) fn push_answer<R: AllocGlobal + Threads + Wait + Sync>(
    rt: &R,
    told: &mut Vec<u8>,
    cases: &str,
    line: &str,
) -> Result<(), NoMemory> {
    match case_of(line) {
        Some(case) if !line.starts_with('#') => {
            let text = text_of(rt.alloc(), cases, case.text)?;
            push_told(rt, told, case, &text)
        }
        _ => Ok(()),
    }
}
