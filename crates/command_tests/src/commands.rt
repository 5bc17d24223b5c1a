//! Runs held against each other, and inputs at the limit.

use crate::trials::{checked_plan, ended, text_of};
use plan_command::Status;
use std::alloc::{AllocGlobal, Global};
use std::sync::Wait;
use std::test::Fail;
use std::thread::Threads;

// Whether the scenario that a number makes is read again and planned.
fn is_planned<R: AllocGlobal + Threads + Wait + Sync>(rt: &R, make: &str) -> Result<bool, Fail> {
    let made = ended(rt, make, Vec::new(rt.alloc()), 4096, &[], &[])?;
    let planned = ended(rt, "plan", made.out, 4096, &[], &[])?;
    Ok(made.status == Status::Done && planned.status == Status::Done)
}

// Whether the scenario of the number 0 starts at r1c2.
fn starts_as_worked<R: AllocGlobal + Threads + Wait + Sync>(rt: &R) -> Result<bool, Fail> {
    let made = ended(rt, "make 0", Vec::new(rt.alloc()), 16, &[], &[])?;
    let line = made.out.split(|c| *c == b'\n').nth(28);
    Ok(line == Some(b"start r1c2".as_slice()))
}

// Whether a drill of the number 0 by 1 and by 16 workers says the same.
fn drills_alike<R: AllocGlobal + Threads + Wait + Sync>(rt: &R) -> Result<bool, Fail> {
    let alloc = rt.alloc();
    let one = ended(rt, "drill 0 --workers 1", Vec::new(alloc), 16, &[], &[])?;
    let many = ended(rt, "drill 0 --workers 16", Vec::new(alloc), 16, &[], &[])?;
    let done = one.status == Status::Done
        && one.out.starts_with(b"drill 1\nnumber 0\npath ")
        && one.out.ends_with(b"\naccepted\n");
    Ok(done && one.out.as_slice() == many.out.as_slice())
}

#[test]
fn made_scenarios_and_drills(rt: HostRuntime) -> Result<(), Fail> {
    assert!(rt; starts_as_worked(&rt)?);
    for make in [
        "make 0",
        "make 1",
        "make 9223372036854775808",
        "make 18446744073709551615",
    ] {
        assert!(rt; is_planned(&rt, make)?);
    }
    assert!(rt; drills_alike(&rt)?);
    Ok(())
}

// Whether each of a hundred plans of a scenario by two workers is accepted, and has this path and chance.
fn a_hundred_are_planned<R: AllocGlobal + Threads + Wait + Sync>(
    rt: &R,
    scenario: &[u8],
    expected: &[u8],
) -> Result<bool, Fail> {
    for _ in 0..100 {
        if checked_plan(rt, "plan --workers 2", scenario)?.as_slice() != expected {
            return Ok(false);
        }
    }
    Ok(true)
}

#[test]
fn two_workers_find_the_same_path_each_time(rt: HostRuntime) -> Result<(), Fail> {
    let longer = text_of(rt.alloc(), "@waiting_longer")?;
    assert!(rt; a_hundred_are_planned(&rt, &longer, b"path c c c\nchance 7 8\n")?);
    Ok(())
}

// Two cells, then line feeds up to so many bytes.
fn padded(alloc: Global, len: usize) -> Result<Vec<u8>, Fail> {
    let mut input = text_of(alloc, "@two_cells")?;
    input.resize(len, b'\n')?;
    Ok(input)
}

// Whether one byte more than a scenario may have is refused, and nothing is written.
fn is_too_long<R: AllocGlobal + Threads + Wait + Sync>(rt: &R, words: &str) -> Result<bool, Fail> {
    let longer = padded(rt.alloc(), 1_048_577)?;
    let end = ended(rt, words, longer, 65_536, &[], &[])?;
    Ok(
        end.status == Status::TooLong
            && end.out.is_empty()
            && end.err.as_slice() == b"input too long\n".as_slice(),
    )
}

// Whether a scenario of as many bytes as it may have is planned as the one that it begins with.
fn longest_is_planned<R: AllocGlobal + Threads + Wait + Sync>(rt: &R) -> Result<bool, Fail> {
    let longest = padded(rt.alloc(), 1_048_576)?;
    let end = ended(rt, "plan", longest, 65_536, &[], &[])?;
    let plan = text_of(rt.alloc(), "@two_cells_plan_2")?;
    Ok(end.out.as_slice() == plan.as_slice())
}

#[test]
fn inputs_at_the_limit_and_past_it(rt: HostRuntime) -> Result<(), Fail> {
    assert!(rt; longest_is_planned(&rt)?);
    for words in [
        "plan",
        "gap",
        "replan flown x",
        "map flown x",
        "duo start x",
    ] {
        assert!(rt; is_too_long(&rt, words)?, "{words}");
    }
    Ok(())
}
