//! Runs of commands over a text in memory.

ghost use Rattle.std.specs.Prelude.{◌≤◌};

use crate::shown::{Shown, push_shown};
use crate::texts::words_of;
use byte_ports::{MemSink, MemSource};
use exact_parts::{NoMemory, push_u128};
use plan_command::{OpenGate, Status, run, status_code};
use std::alloc::{AllocGlobal, Global};
use std::sync::Wait;
use std::thread::Threads;

/// What is checked behind a run.
#[derive(Clone, Copy)]
pub(crate) enum Then {
    Nothing,
    /// What the run wrote, if it wrote anything.
    Made,
    /// The text, and what the run wrote behind it.
    Both,
}

/// What is run over: a text, by so many bytes a read and a write.
#[derive(Clone, Copy)]
pub(crate) struct Over<'a> {
    pub text: &'a [u8],
    pub most: usize,
    pub shown: Shown,
}

// Adds a side and what is shown of what was written there, if anything was.
fn push_side(told: &mut Vec<u8>, side: &str, wrote: &[u8], shown: Shown) -> Result<(), NoMemory> {
    if wrote.is_empty() {
        return Ok(());
    }
    told.extend_from_slice(side.as_bytes())?;
    push_shown(told, wrote, shown)
}

// Adds how a run ended, and what it wrote.
fn push_end(
    told: &mut Vec<u8>,
    status: Status,
    out: &[u8],
    err: &[u8],
    shown: Shown,
) -> Result<(), NoMemory> {
    push_u128(told, u128::from(status_code(status)))?;
    push_side(told, " out: ", out, shown)?;
    push_side(told, " err: ", err, shown)
}

// Runs words between a source and sinks.
fn ended<R: AllocGlobal + Threads + Wait + Sync>(
    rt: &R,
    words: &[String],
    source: &mut MemSource,
    out: &mut MemSink,
    err: &mut MemSink,
) -> Status {
    run(rt, words, source, out, err, &OpenGate)
}

// Runs words, and adds how that ends.
fn push_run<R: AllocGlobal + Threads + Wait + Sync>(
    rt: &R,
    told: &mut Vec<u8>,
    words: &[String],
    over: Over,
    out: &mut MemSink,
) -> Result<(), NoMemory>
    requires { 1 ≤ over.most }
{
    let alloc = rt.alloc();
    let input = Vec::from_slice(alloc, over.text)?;
    let mut source = MemSource::new(input, over.most, Vec::new(alloc));
    let mut err = MemSink::new(alloc, over.most, Vec::new(alloc));
    let status = ended(rt, words, &mut source, out, &mut err);
    drop(source);
    let pushed = push_end(told, status, out.wrote(), err.wrote(), over.shown);
    drop(err);
    pushed
}

// The same of the words of a line.
fn push_line<R: AllocGlobal + Threads + Wait + Sync>(
    rt: &R,
    told: &mut Vec<u8>,
    line: &str,
    over: Over,
    out: &mut MemSink,
) -> Result<(), NoMemory>
    requires { 1 ≤ over.most }
{
    let words = words_of(rt.alloc(), line)?;
    let ended = push_run(rt, told, &words, over, out);
    drop(words);
    ended
}

// What is checked behind a run, if anything is.
fn checked_text(
    alloc: Global,
    text: &[u8],
    wrote: &[u8],
    then: Then,
) -> Result<Option<Vec<u8>>, NoMemory> {
    let before = match then {
        Then::Nothing => return Ok(None),
        Then::Made if wrote.is_empty() => return Ok(None),
        Then::Made => &[],
        Then::Both => text,
    };
    let mut checked = Vec::from_slice(alloc, before)?;
    checked.extend_from_slice(wrote)?;
    Ok(Some(checked))
}

// Checks a text, and adds how that ends.
fn push_check<R: AllocGlobal + Threads + Wait + Sync>(
    rt: &R,
    told: &mut Vec<u8>,
    text: &[u8],
) -> Result<(), NoMemory> {
    let over = Over {
        text,
        most: 4096,
        shown: Shown::All,
    };
    let mut out = MemSink::new(rt.alloc(), 4096, Vec::new(rt.alloc()));
    told.extend_from_slice(b"; checked ")?;
    let ended = push_line(rt, told, " check", over, &mut out);
    drop(out);
    ended
}

// Runs the words of a line and what is checked behind it, and adds how that ends.
fn push_both<R: AllocGlobal + Threads + Wait + Sync>(
    rt: &R,
    told: &mut Vec<u8>,
    line: &str,
    over: Over,
    then: Then,
    out: &mut MemSink,
) -> Result<(), NoMemory>
    requires { 1 ≤ over.most }
{
    push_line(rt, told, line, over, out)?;
    match checked_text(rt.alloc(), over.text, out.wrote(), then)? {
        Some(text) => push_check(rt, told, &text),
        None => Ok(()),
    }
}

// What is answered to the words of a line.
fn answer_to<R: AllocGlobal + Threads + Wait + Sync>(
    rt: &R,
    told: &mut Vec<u8>,
    line: &str,
    over: Over,
    then: Then,
) -> Result<(), NoMemory>
    requires { 1 ≤ over.most }
{
    let mut out = MemSink::new(rt.alloc(), over.most, Vec::new(rt.alloc()));
    let ended = push_both(rt, told, line, over, then, &mut out);
    drop(out);
    ended
}

// Whether the words of a line are answered like this; where nothing was answered before, this is the answer.
fn is_alike<R: AllocGlobal + Threads + Wait + Sync>(
    rt: &R,
    answer: &mut Vec<u8>,
    line: &str,
    over: Over,
    then: Then,
) -> Result<bool, NoMemory>
    requires { 1 ≤ over.most }
{
    if answer.is_empty() {
        answer_to(rt, answer, line, over, then)?;
        return Ok(true);
    }
    let mut told = Vec::new(rt.alloc());
    answer_to(rt, &mut told, line, over, then)?;
    Ok(told.as_slice() == answer.as_slice())
}

// Whether the words of a line are answered alike one byte at a time, by 16, and by 65,536.
fn is_alike_by_each<R: AllocGlobal + Threads + Wait + Sync>(
    rt: &R,
    answer: &mut Vec<u8>,
    line: &str,
    text: &[u8],
    shown: Shown,
    then: Then,
) -> Result<bool, NoMemory> {
    for most in [1, 16, 65_536] {
        if !is_alike(rt, answer, line, Over { text, most, shown }, then)? {
            return Ok(false);
        }
    }
    Ok(true)
}

/// Adds what is answered to commands with `&` between them, if it is the same for all.
pub(crate) fn push_alike<R: AllocGlobal + Threads + Wait + Sync>(
    rt: &R,
    told: &mut Vec<u8>,
    lines: &str,
    text: &[u8],
    shown: Shown,
    then: Then,
) -> Result<(), NoMemory> {
    let mut answer = Vec::new(rt.alloc());
    for line in lines.split(" &") {
        if !is_alike_by_each(rt, &mut answer, line, text, shown, then)? {
            answer.extend_from_slice(b"; or otherwise")?;
        }
    }
    told.extend_from_slice(&answer)?;
    Ok(())
}
