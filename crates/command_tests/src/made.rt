//! `replan` and `map` over as many positions as there may be.

use crate::trials::{ended, push_text};
use plan_command::Status;
use std::alloc::{AllocGlobal, Global};
use std::sync::Wait;
use std::test::Fail;
use std::thread::Threads;

// Adds a line for each of so many positions: a word, its name, and the rest.
fn push_each(
    alloc: Global,
    text: &mut Vec<u8>,
    word: &str,
    rest: &str,
    count: usize,
) -> Result<(), Fail> {
    for i in 0..count {
        let line = format!(in alloc; "{word} x{i}{rest}\n")?;
        text.extend_from_slice(line.as_bytes())?;
    }
    Ok(())
}

// Adds a scenario whose start has the first name of those that replanning adds, with so many positions besides.
fn push_crowded(alloc: Global, text: &mut Vec<u8>, count: usize) -> Result<(), Fail> {
    push_text(
        text,
        "scenario 2 | horizon 1 | parts 1 1 1 | cell a | position flown-0",
    )?;
    push_each(alloc, text, "position", "", count)?;
    push_text(text, "start flown-0 | first a 1 | moves flown-0 flown-0")?;
    push_each(alloc, text, "moves", " flown-0", count)?;
    push_text(text, "drift a a 1 | look flown-0")?;
    push_each(alloc, text, "look", "", count)?;
    push_text(text, "end")
}

fn crowded(alloc: Global, count: usize) -> Result<Vec<u8>, Fail> {
    let mut text = Vec::new(alloc);
    push_crowded(alloc, &mut text, count)?;
    Ok(text)
}

// Whether replanning a crowded scenario is refused in this line.
fn is_refused<R: AllocGlobal + Threads + Wait + Sync>(
    rt: &R,
    count: usize,
    line: &[u8],
) -> Result<bool, Fail> {
    let scenario = crowded(rt.alloc(), count)?;
    let end = ended(rt, "replan flown flown-0", scenario, 4096, &[], &[])?;
    Ok(end.status == Status::BadFlown && end.out.is_empty() && end.err.as_slice() == line)
}

// Whether the map of a crowded scenario is that of its one cell.
fn is_mapped<R: AllocGlobal + Threads + Wait + Sync>(rt: &R, count: usize) -> Result<bool, Fail> {
    let scenario = crowded(rt.alloc(), count)?;
    let end = ended(rt, "map flown flown-0", scenario, 4096, &[], &[])?;
    let wanted = b"map 1\nperiod 1 flown-0\nleft a 1 100.000\nend\n";
    Ok(end.out.as_slice() == wanted.as_slice())
}

#[test]
fn crowded_scenarios_are_refused_for_their_number_before_names(
    rt: HostRuntime,
) -> Result<(), Fail> {
    assert!(rt; is_refused(&rt, 197, b"bad flown: NameTaken\n")?);
    assert!(rt; is_refused(&rt, 198, b"bad flown: TooManyPositions\n")?);
    assert!(rt; is_refused(&rt, 199, b"bad flown: TooManyPositions\n")?);
    assert!(rt; is_mapped(&rt, 199)?);
    Ok(())
}
