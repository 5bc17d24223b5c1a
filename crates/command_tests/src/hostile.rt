//! Hostile plan texts, and each read and write failing in its turn.

ghost use Rattle.std.specs.Prelude.{◌≤◌};

use crate::trials::{Outcome, ended, text_of, words_of};
use byte_ports::{MemSink, MemSource, Source};
use plan_command::{OpenGate, Status, run};
use std::alloc::Global;
use std::sync::Wait;
use std::test::Fail;
use std::thread::Threads;

// Two cells and then this plan text: a check of it, `most` bytes a read.
fn checked<R: AllocGlobal + Threads + Wait + Sync>(
    rt: &R,
    plan: &[u8],
    most: usize,
) -> Result<Outcome, Fail>
    requires { 1 ≤ most }
{
    let mut input = text_of(rt.alloc(), "@two_cells")?;
    input.extend_from_slice(plan)?;
    ended(rt, "check", input, most, &[], &[])
}

// Whether a check of this plan text says this, at once and with one byte a read: a rejection on `out`, and a fault of the
// text on `err`.
fn says<R: AllocGlobal + Threads + Wait + Sync>(
    rt: &R,
    plan: &[u8],
    line: &[u8],
) -> Result<bool, Fail> {
    for most in [1, 65_536] {
        let end = checked(rt, plan, most)?;
        let said = match end.status {
            Status::Done | Status::Rejected => end.out.as_slice() == line && end.err.is_empty(),
            Status::BadPlan => end.err.as_slice() == line && end.out.is_empty(),
            _ => false,
        };
        if !said {
            return Ok(false);
        }
    }
    Ok(true)
}

// Adds a plan with one line changed, which counts from 1.
fn push_changed(text: &mut Vec<u8>, plan: &[u8], number: usize, line: &[u8]) -> Result<(), Fail> {
    for (i, old) in plan.split(|c| *c == b'\n').enumerate() {
        if i > 0 {
            text.push(b'\n')?;
        }
        text.extend_from_slice(if i + 1 == number { line } else { old })?;
    }
    Ok(())
}

// The plan of two cells with one line changed.
fn changed(alloc: Global, number: usize, line: &[u8]) -> Result<Vec<u8>, Fail> {
    let plan = text_of(alloc, "@two_cells_plan")?;
    let mut text = Vec::new(alloc);
    push_changed(&mut text, &plan, number, line)?;
    Ok(text)
}

// A record whose bound is 100,000 digits.
fn long_line(alloc: Global) -> Result<Vec<u8>, Fail> {
    let mut line = Vec::new(alloc);
    line.extend_from_slice(b"W ")?;
    line.resize(100_002, b'9')?;
    line.extend_from_slice(b" 0 0")?;
    Ok(line)
}

// Whether a check of the plan of two cells with this line changed says this.
fn change_says<R: AllocGlobal + Threads + Wait + Sync>(
    rt: &R,
    number: usize,
    line: &[u8],
    said: &str,
) -> Result<bool, Fail> {
    says(
        rt,
        &changed(rt.alloc(), number, line)?,
        &text_of(rt.alloc(), said)?,
    )
}

#[test]
fn a_number_of_many_digits(rt: HostRuntime) -> Result<(), Fail> {
    let line = long_line(rt.alloc())?;
    assert!(rt; change_says(&rt, 7, &line, "bad plan: line 7 BadNumber")?);
    Ok(())
}

#[test]
fn plans_cut_short(rt: HostRuntime) -> Result<(), Fail> {
    let plan = text_of(rt.alloc(), "@two_cells_plan")?;
    for len in 0..plan.len() {
        let cut = &plan[..len];
        let feeds = cut.iter().filter(|c| **c == b'\n').count();
        let said = format!(in rt.alloc(); "bad plan: line {} EarlyEnd\n", feeds + 1)?;
        assert!(rt; says(&rt, cut, said.as_bytes())?, "{len} bytes");
    }
    // A record is wrong, too: what the text lacks goes first.
    let wrong = changed(rt.alloc(), 7, b"W 11 0 0")?;
    let cut = wrong.strip_suffix(b"end\n".as_slice()).ok_or("no end")?;
    assert!(rt; says(&rt, cut, b"bad plan: line 10 EarlyEnd\n")?);
    Ok(())
}

// Whether a run over two cells whose read of this number fails writes nothing, and says so.
fn read_fails<R: AllocGlobal + Threads + Wait + Sync>(
    rt: &R,
    words: &str,
    read: u64,
) -> Result<bool, Fail> {
    let input = text_of(rt.alloc(), "@two_cells")?;
    let end = ended(rt, words, input, 16, &[read], &[])?;
    Ok(
        end.status == Status::ReadFault
            && end.out.is_empty()
            && end.err.as_slice() == b"read fault\n".as_slice(),
    )
}

#[test]
fn each_read_fails(rt: HostRuntime) -> Result<(), Fail> {
    for read in 1..12 {
        assert!(rt; read_fails(&rt, "plan --workers 1", read)?);
    }
    for words in [
        "plan",
        "gap",
        "replan flown x",
        "map flown x",
        "duo start x",
    ] {
        assert!(rt; read_fails(&rt, words, 2)?, "{words}");
    }
    // Reading goes before the fault of the scenario.
    let bad =
        "scenario 1 | horizon 2 | parts 2 2 2 | cell a | cell b | start c | first a 1 b 1 | moves a a b | moves b a b | drift a a 1 b 1 | drift b a 1 b 1 | overlook a 0 | overlook b 0 | end | @two_cells_plan";
    let input = text_of(rt.alloc(), bad)?;
    let end = ended(&rt, "check", input, 16, &[5], &[])?;
    assert_eq!(rt; end.status, Status::ReadFault);
    assert_eq!(rt; end.err.as_slice(), b"read fault\n".as_slice());
    Ok(())
}

// Whether a plan of two cells, 16 bytes a write, of which this one fails, has written so many bytes.
fn write_fails<R: AllocGlobal + Threads + Wait + Sync>(
    rt: &R,
    words: &str,
    written: usize,
    write: u64,
) -> Result<bool, Fail> {
    let alloc = rt.alloc();
    let end = ended(rt, words, text_of(alloc, "@two_cells")?, 16, &[], &[write])?;
    let plan = text_of(alloc, "@two_cells_plan_2")?;
    Ok(
        end.status == Status::WriteFault
            && end.out.len() == written
            && plan.starts_with(&end.out)
            && end.err.as_slice() == b"write fault\n".as_slice(),
    )
}

#[test]
fn each_write_fails(rt: HostRuntime) -> Result<(), Fail> {
    for (written, write) in [(0, 1), (16, 2), (32, 3), (48, 4)] {
        assert!(rt; write_fails(&rt, "plan --workers 1", written, write)?);
    }
    assert!(rt; write_fails(&rt, "plan", 32, 3)?);
    Ok(())
}

// Whether the line on `err` is lost where its first write fails, and nothing was read.
fn line_is_lost<R: AllocGlobal + Threads + Wait + Sync>(
    rt: &R,
    words: &[String],
    err: &mut MemSink,
) -> Result<bool, Fail> {
    let alloc = rt.alloc();
    let mut source = MemSource::new(Vec::from_slice(alloc, b"x")?, 16, Vec::new(alloc));
    let mut out = MemSink::new(alloc, 16, Vec::new(alloc));
    let status = run(rt, words, &mut source, &mut out, err, &OpenGate);
    Ok(status == Status::Usage && err.wrote().is_empty() && source.read(&mut [0; 4]) == Ok(1))
}

#[test]
fn the_line_on_err_fails(rt: HostRuntime) -> Result<(), Fail> {
    let words = words_of(rt.alloc(), "fly")?;
    let mut err = MemSink::new(rt.alloc(), 16, Vec::from_slice(rt.alloc(), &[1])?);
    assert!(rt; line_is_lost(&rt, &words, &mut err)?);
    Ok(())
}
