//! Texts that are read, that have a fault, and that are printed; rows of tables where no case of `worked_runs` says it.
//!
//! A table is a head and rows. Each row begins with `@`, and is a text, `=`, and what is answered of it; without `=` that
//! is the text again. The head is what all texts begin with, `=`, and what all answers begin with, in the same way.

use crate::scenario_prints::{FRONT, READ_BACK, VALUES};
use exact_parts::push_u128;
use scenario_text::{
    TextKind, TextStop, print_scenario, read_scenario, read_scenario_alone, text_kind_name,
};
use search_model::Scenario;
use std::alloc::{AllocError, Global};
use std::test::Fail;
use text_rows::cut;

// What is asked of a text.
#[derive(Clone, Copy)]
enum Asked {
    /// Whether its canonical text reads as the same scenario.
    Back,
    /// What its scenario holds.
    Values,
    /// What the scenario at its front holds.
    Front,
}

fn joined(alloc: Global, head: &[u8], rest: &[u8]) -> Result<Vec<u8>, AllocError> {
    let mut text = Vec::new(alloc);
    text.extend_from_slice(head)?;
    text.extend_from_slice(rest)?;
    Ok(text)
}

// What stands on both sides of `=`.
fn sides(piece: &[u8]) -> (&[u8], &[u8]) {
    match cut(piece, b'=') {
        Some(sides) => sides,
        None => (piece, piece),
    }
}

// How many rows a table has, where each is answered as it says; else the first that isn't.
fn rows_that_hold(alloc: Global, asked: Asked, table: &[u8]) -> Result<usize, Fail> {
    let (head, rows) = cut(table, b'@').unwrap_or((table, &[]));
    let rows: Vec<&[u8]> = rows.split(|c| *c == b'@').collect(alloc)?;
    for row in &rows {
        if !is_answered(alloc, asked, sides(head), sides(row))? {
            let row = String::from_utf8_lossy(alloc, row)?;
            return Err(Fail::new(format_args!("answered otherwise: {row}")));
        }
    }
    Ok(rows.len())
}

// Whether the answer of a text is the one that a table says, each behind its head.
fn is_answered(
    alloc: Global,
    asked: Asked,
    heads: (&[u8], &[u8]),
    row: (&[u8], &[u8]),
) -> Result<bool, Fail> {
    let text = joined(alloc, heads.0, row.0)?;
    let expected = joined(alloc, heads.1, row.1)?;
    Ok(answered(alloc, asked, &text)? == expected)
}

fn answered(alloc: Global, asked: Asked, text: &[u8]) -> Result<Vec<u8>, Fail> {
    match asked {
        Asked::Back => back(alloc, text),
        Asked::Values => values(alloc, text),
        Asked::Front => front(alloc, text),
    }
}

fn stop_alone(alloc: Global, text: &[u8]) -> Option<TextStop> {
    read_scenario_alone(alloc, text).err()
}

fn stop_at_front(alloc: Global, text: &[u8]) -> Option<TextStop> {
    read_scenario(alloc, text).err()
}

// The line and the kind of the fault that both readers tell, but for what follows the line `end`.
fn fault(alloc: Global, text: &[u8]) -> Result<Vec<u8>, Fail> {
    let alone = stop_alone(alloc, text);
    let Some(TextStop::Fault(fault)) = alone else {
        return Err(Fail::new("no fault is told"));
    };
    if fault.kind != TextKind::Rest && stop_at_front(alloc, text) != alone {
        return Err(Fail::new("the front's fault is another"));
    }
    let name = text_kind_name(fault.kind);
    let told = format!(in alloc; "{} {name}\n", fault.line)?;
    Ok(told.into_bytes())
}

/// What is asked of the scenario of a text.
pub(crate) fn asked_of<T, F: FnOnce(&Scenario) -> Result<T, Fail>>(
    alloc: Global,
    text: &[u8],
    ask: F,
) -> Result<T, Fail>
    requires { F.IsAlwaysCallable ask }
{
    match read_scenario_alone(alloc, text) {
        Ok(sc) => ask(&sc),
        Err(_) => Err(Fail::from("no scenario")),
    }
}

fn printed(alloc: Global, sc: &Scenario) -> Result<Vec<u8>, Fail> {
    let mut text = Vec::new(alloc);
    print_scenario(&mut text, sc)?;
    Ok(text)
}

// The canonical text of a text's scenario.
fn canonical(alloc: Global, text: &[u8]) -> Result<Vec<u8>, Fail> {
    asked_of(alloc, text, |sc| printed(alloc, sc))
}

// Whether a text is its own canonical text.
fn is_canonical(alloc: Global, text: &[u8]) -> Result<bool, Fail> {
    Ok(canonical(alloc, text)?.as_slice() == text)
}

// Whether a text is read as this scenario.
fn reads_as(alloc: Global, sc: &Scenario, text: &[u8]) -> Result<bool, Fail> {
    asked_of(alloc, text, |read| Ok(agree(sc, read)))
}

// Whether two texts are read as the same scenario.
fn read_alike(alloc: Global, one: &[u8], other: &[u8]) -> Result<bool, Fail> {
    asked_of(alloc, one, |sc| reads_as(alloc, sc, other))
}

// Whether the canonical text is its own, and reads as the same scenario.
fn back(alloc: Global, text: &[u8]) -> Result<Vec<u8>, Fail> {
    let printed = canonical(alloc, text)?;
    let same = is_canonical(alloc, &printed)? && read_alike(alloc, text, &printed)?;
    let told: &[u8] = if same { b"the same\n" } else { b"another\n" };
    Ok(joined(alloc, told, b"")?)
}

// How much a look misses, where the period, the position and the cell are right.
fn missed(sc: &Scenario, t: u32, p: u8, c: u8) -> Option<u32> {
    if t == 0 || t > 32 || p >= sc.sweep().positions() || c >= sc.sweep().cells() {
        return None;
    }
    Some(sc.sweep().factor(t, p, c))
}

// The part of a step from one cell to another, where the period and the cells are right.
fn stepped(sc: &Scenario, t: u32, c: u8, d: u8) -> Option<u32> {
    if t == 0 || t > 31 || c >= sc.drift().cells() || d >= sc.drift().cells() {
        return None;
    }
    Some(sc.drift().part(t, c, d))
}

// What the looks of a period miss, from the first two positions, of the first two cells.
fn looks(sc: &Scenario, t: u32) -> [Option<u32>; 4] {
    [
        missed(sc, t, 0, 0),
        missed(sc, t, 0, 1),
        missed(sc, t, 1, 0),
        missed(sc, t, 1, 1),
    ]
}

// The steps after a period between the first two cells.
fn steps(sc: &Scenario, t: u32) -> [Option<u32>; 4] {
    [
        stepped(sc, t, 0, 0),
        stepped(sc, t, 0, 1),
        stepped(sc, t, 1, 0),
        stepped(sc, t, 1, 1),
    ]
}

// Whether looks and steps are the same in each of three periods.
fn agree(one: &Scenario, other: &Scenario) -> bool {
    one.horizon() == 3
        && other.horizon() == 3
        && looks(one, 1) == looks(other, 1)
        && looks(one, 2) == looks(other, 2)
        && looks(one, 3) == looks(other, 3)
        && steps(one, 1) == steps(other, 1)
        && steps(one, 2) == steps(other, 2)
}

// What a row of a period holds, `-` where there is no such cell or position.
fn push_parts(told: &mut Vec<u8>, parts: [Option<u32>; 4]) -> Result<(), Fail> {
    for part in parts {
        told.push(b' ')?;
        match part {
            Some(part) => push_u128(told, u128::from(part))?,
            None => told.push(b'-')?,
        }
    }
    told.push(b'\n')?;
    Ok(())
}

// The looks of a scenario's first two periods, and their steps.
fn push_periods(told: &mut Vec<u8>, sc: &Scenario) -> Result<(), Fail> {
    push_parts(told, looks(sc, 1))?;
    push_parts(told, looks(sc, 2))?;
    push_parts(told, steps(sc, 1))?;
    push_parts(told, steps(sc, 2))
}

// A word and a count.
fn push_count(told: &mut Vec<u8>, word: &[u8], count: u128) -> Result<(), Fail> {
    told.extend_from_slice(word)?;
    push_u128(told, count)?;
    Ok(())
}

fn push_counts(told: &mut Vec<u8>, sc: &Scenario) -> Result<(), Fail> {
    push_count(told, b"cells ", u128::from(sc.cells()))?;
    push_count(told, b", positions ", u128::from(sc.positions()))?;
    push_count(told, b", start ", u128::from(sc.start()))?;
    push_count(told, b", weight ", sc.weight())?;
    told.push(b'\n')?;
    Ok(())
}

fn push_values(told: &mut Vec<u8>, sc: &Scenario) -> Result<(), Fail> {
    push_counts(told, sc)?;
    push_periods(told, sc)
}

fn values_of(alloc: Global, sc: &Scenario) -> Result<Vec<u8>, Fail> {
    let mut told = Vec::new(alloc);
    push_values(&mut told, sc)?;
    Ok(told)
}

// What a scenario holds.
fn values(alloc: Global, text: &[u8]) -> Result<Vec<u8>, Fail> {
    asked_of(alloc, text, |sc| values_of(alloc, sc))
}

fn push_front(told: &mut Vec<u8>, sc: &Scenario, bytes: usize) -> Result<(), Fail> {
    push_count(told, b"bytes ", bytes as u128)?;
    told.extend_from_slice(b", ")?;
    push_counts(told, sc)
}

fn front_of(alloc: Global, sc: &Scenario, bytes: usize) -> Result<Vec<u8>, Fail> {
    let mut told = Vec::new(alloc);
    push_front(&mut told, sc, bytes)?;
    Ok(told)
}

// How many bytes the scenario at the front takes, and what it holds.
fn front(alloc: Global, text: &[u8]) -> Result<Vec<u8>, Fail> {
    match &read_scenario(alloc, text) {
        Ok((sc, bytes)) => front_of(alloc, sc, *bytes),
        Err(_) => Err(Fail::new("no scenario was read at the front")),
    }
}

#[test]
fn canonical_texts_are_read_back(rt: HostRuntime) -> Result<(), Fail> {
    assert_eq!(rt; rows_that_hold(rt.alloc(), Asked::Back, READ_BACK)?, 4);
    Ok(())
}

#[test]
fn scenarios_are_read(rt: HostRuntime) -> Result<(), Fail> {
    assert_eq!(rt; rows_that_hold(rt.alloc(), Asked::Values, VALUES)?, 6);
    assert_eq!(rt; rows_that_hold(rt.alloc(), Asked::Front, FRONT)?, 1);
    Ok(())
}

// A head, and behind it a line for each number below 200, with this word.
fn numbered(alloc: Global, head: &[u8], word: &[u8]) -> Result<Vec<u8>, Fail> {
    let mut text = joined(alloc, head, b"")?;
    for n in 0..200u32 {
        text.extend_from_slice(word)?;
        push_u128(&mut text, u128::from(n))?;
        text.push(b'\n')?;
    }
    Ok(text)
}

// Whether a text has this fault.
fn tells(alloc: Global, head: &[u8], rest: &[u8], answer: &[u8]) -> Result<bool, Fail> {
    let text = joined(alloc, head, rest)?;
    Ok(fault(alloc, &text)?.as_slice() == answer)
}

#[test]
fn two_hundred_names_and_one_more(rt: HostRuntime) -> Result<(), Fail> {
    let alloc = rt.alloc();
    let cells = numbered(alloc, b"scenario 1\nhorizon 1\nparts 1 1 1\n", b"cell ")?;
    assert!(rt; tells(alloc, &cells, b"", b"204 EarlyEnd\n")?);
    assert!(rt; tells(alloc, &cells, b"cell 7\n", b"204 OverLimit\n")?);
    let head = b"scenario 2\nhorizon 2\nparts 1 2 2\ncell a\ncell b\n";
    let positions = numbered(alloc, head, b"position ")?;
    assert!(rt; tells(alloc, &positions, b"", b"206 EarlyEnd\n")?);
    assert!(rt; tells(alloc, &positions, b"position 7\n", b"206 OverLimit\n")?);
    Ok(())
}

#[test]
fn many_digits_and_moves(rt: HostRuntime) -> Result<(), Fail> {
    let alloc = rt.alloc();
    let digits = b"9".repeat(alloc, 100_000)?;
    assert!(rt; tells(alloc, b"scenario 1\nhorizon ", &digits, b"2 OverLimit\n")?);
    let head = b"scenario 1\nhorizon 1\nparts 1 1 2\ncell a\nstart a\nfirst a 1\nmoves a";
    let moves = joined(alloc, head, &b" a".repeat(alloc, 64)?)?;
    assert!(rt; tells(alloc, &moves, b"", b"7 DoubleName\n")?);
    assert!(rt; tells(alloc, &moves, b" b", b"7 OverLimit\n")?);
    Ok(())
}
