//! Texts that are read and print back, and texts that are cut off or have long lines. The rows of a table stand in one text,
//! and one function goes over them, so that a row more costs no proof.

use crate::plan_feeds::tells_as_read;
use crate::plan_scenarios::asked;
use crate::plan_tables::TEXTS;
use bound_tree::{Kind, Plan, TreeNode};
use search_model::{Path, Scenario};
use std::alloc::{AllocError, Global};
use std::test::Fail;
use tree_format::{
    Dialect, Family, Fed, PlanFault, PlanFeed, PlanKind, PlanStop, Step, are_in_place, has_letters,
    plan_kind_name, print_plan_in, read_plan,
};

const TWO_CELLS: &str =
    "plan 1\npath a a\nchance 12 16\nnodes 5\nB\nB 0\nW 12 0 0\nW 12 0 1\nM 12 1\nend\n";

pub const TWO_CELLS_2: &str =
    "plan 2\npath a a\nchance 12 16\nnodes 5\nB\nB\nW 12\nW 12\nM 12\nend\n";

const THREE_PERIODS: &str =
    "plan 1\npath c c c\nchance 7 8\nnodes 8\nB\nM 4 0\nT 12 1 1 2 2\nB 2\nM 6 2 1\nB 2 2\nW 6 2 2 1\nW 7 2 2 2\nend\n";

// With an edge bound, which no text of version 1 has.
const WITH_EDGE: &str =
    "plan 2\npath c c c\nchance 7 8\nnodes 8\nB\nM 4\nE 6\nB\nM 6\nB\nW 6\nW 7\nend\n";

// With an exchange, which no text of the versions before has.
const WITH_EXCHANGE: &str =
    "plan 3\npath c c c c\nchance 9 16\nnodes 7\nB\nM 4\nB\nX 6 2\nE 5\nT 12 1 1 2 2\nM 3\nend\n";

// The dialect that the first line of a text of plans has.
fn dialect_of(text: &str) -> Dialect {
    if text.starts_with("plan 1\n") {
        Dialect::PlanOne
    } else if text.starts_with("plan 2\n") {
        Dialect::PlanTwo
    } else {
        Dialect::PlanThree
    }
}

// Whether a plan prints to this text, of its version, behind what stood there.
fn prints(alloc: Global, sc: &Scenario, text: &str) -> Result<bool, Fail> {
    let mut out = Vec::from_slice(alloc, b"!")?;
    match read_plan(alloc, sc, text.as_bytes()) {
        Ok(plan) => {
            let dialect = dialect_of(text);
            if !has_letters(dialect, &plan) || !are_in_place(alloc, sc, dialect, &plan)? {
                return Ok(false);
            }
            print_plan_in(&mut out, dialect, sc, &plan)?;
        }
        Err(_) => return Ok(false),
    }
    Ok(out.strip_prefix(b"!") == Some(text.as_bytes()))
}

// Whether a text is a plan's, and the plan prints back to the same bytes.
fn prints_back(alloc: Global, sc: &Scenario, text: &str) -> Result<bool, Fail> {
    Ok(prints(alloc, sc, text)? && tells_as_read(alloc, sc, text.as_bytes())?)
}

/// Whether a text has this fault, told as line and kind, and by pieces the same.
pub fn has_fault(alloc: Global, sc: &Scenario, text: &[u8], fault: &str) -> Result<bool, Fail> {
    match read_plan(alloc, sc, text) {
        Err(PlanStop::Fault(PlanFault { line, kind })) => {
            let told = format!(in alloc; "{line} {}", plan_kind_name(kind))?;
            Ok(told.as_str() == fault && tells_as_read(alloc, sc, text)?)
        }
        _ => Ok(false),
    }
}

// Whether the text of a row prints back, over the scenario of the line above it.
fn row_prints_back(alloc: Global, row: &str) -> Result<bool, Fail> {
    match row.split_once('\n') {
        Some((words, text)) => asked(alloc, words, |sc| prints_back(alloc, sc, text)),
        None => Ok(false),
    }
}

// How many rows of a table print back.
fn rows_that_print_back(alloc: Global, table: &str) -> Result<u32, Fail> {
    let mut count = 0u32;
    for row in table.split("== ") {
        if row_prints_back(alloc, row)? {
            count = count.saturating_add(1);
        }
    }
    Ok(count)
}

// A branch opens as many records as its position has moves.
#[test]
fn texts_print_back(rt: HostRuntime) -> Result<(), Fail> {
    assert_eq!(rt; rows_that_print_back(rt.alloc(), TEXTS)?, 23);
    Ok(())
}

// A record as its letter, its number, and the positions that it refers to.
fn told(kind: &Kind) -> (char, u128, Path) {
    let mut place = Path::empty();
    match kind {
        Kind::Branch => ('B', 0, place),
        Kind::Whole(number) => ('W', *number, place),
        Kind::Mean(number) => ('M', *number, place),
        Kind::Tangent(number, reference) => ('T', *number, *reference),
        Kind::Edge(number) => ('E', *number, place),
        Kind::Exchange(number, u) => {
            place.push(*u);
            ('X', *number, place)
        }
        Kind::TwoLooks(number) => ('D', *number, place),
    }
}

fn is_record(node: &TreeNode, letter: char, prefix: &[u8], number: u128, reference: &[u8]) -> bool {
    let (is, n, places) = told(&node.kind);
    node.prefix.cells() == prefix && is == letter && n == number && places.cells() == reference
}

fn says_three_periods(plan: &Plan) -> bool {
    let nodes = match plan.tree.nodes() {
        [_, mean, tangent, _, _, _, _, _] => {
            is_record(mean, 'M', &[0], 4, &[]) && is_record(tangent, 'T', &[1], 12, &[1, 2, 2])
        }
        _ => false,
    };
    nodes
        && plan.standing.path.cells() == [2, 2, 2].as_slice()
        && plan.standing.value == 7
        && plan.weight == 8
}

// A record has the prefix that is expected.
fn says_two_cells_2(plan: &Plan) -> bool {
    match plan.tree.nodes() {
        [_, branch, _, whole, mean] => {
            branch.prefix.cells() == [0].as_slice()
                && whole.prefix.cells() == [0, 1].as_slice()
                && is_record(mean, 'M', &[1], 12, &[])
        }
        _ => false,
    }
}

// A plan with an edge bound has no text of version 1.
fn says_an_edge(plan: &Plan) -> bool {
    match plan.tree.nodes() {
        [_, _, edge, ..] => {
            !has_letters(Dialect::PlanOne, plan) && is_record(edge, 'E', &[1], 6, &[])
        }
        _ => false,
    }
}

// A plan with an exchange has no text of version 2.
fn says_an_exchange(plan: &Plan) -> bool {
    match plan.tree.nodes() {
        [_, _, _, exchange, ..] => {
            !has_letters(Dialect::PlanTwo, plan) && is_record(exchange, 'X', &[1, 0], 6, &[2])
        }
        _ => false,
    }
}

// Whether a text is a plan's, of which this holds.
fn says<F: FnOnce(&Plan) -> bool>(
    alloc: Global,
    sc: &Scenario,
    text: &str,
    holds: F,
) -> Result<bool, Fail>
    requires { F.IsAlwaysCallable holds }
{
    match read_plan(alloc, sc, text.as_bytes()) {
        Ok(plan) => Ok(holds(&plan)),
        Err(_) => Ok(false),
    }
}

fn texts_say_plans(alloc: Global) -> Result<bool, Fail> {
    Ok(
        asked(
            alloc,
            "abc 3",
            |sc| says(alloc, sc, THREE_PERIODS, says_three_periods),
        )? && asked(
            alloc,
            "ab 2",
            |sc| says(alloc, sc, TWO_CELLS_2, says_two_cells_2),
        )? && asked(
            alloc,
            "row 3",
            |sc| says(alloc, sc, WITH_EDGE, says_an_edge),
        )? && asked(
            alloc,
            "row 4",
            |sc| says(alloc, sc, WITH_EXCHANGE, says_an_exchange),
        )?,
    )
}

#[test]
fn texts_say_their_plans(rt: HostRuntime) -> Result<(), Fail> {
    assert!(rt; texts_say_plans(rt.alloc())?);
    Ok(())
}

// A text with other bytes in the place of a line.
fn with_line(alloc: Global, whole: &str, number: u64, bytes: &[u8]) -> Result<Vec<u8>, AllocError> {
    let mut text = Vec::new(alloc);
    let mut line = 1u64;
    for c in whole.as_bytes() {
        if line != number {
            text.push(*c)?;
        }
        if *c == b'\n' {
            if line == number {
                text.extend_from_slice(bytes)?;
            }
            line = line.saturating_add(1);
        }
    }
    Ok(text)
}

// Lines in the place of the exchange, each with its fault: of the number of its fields, of its number, of its position.
const NO_EXCHANGES: &str = "\
X = BadLine
X 6 = BadLine
X 6 2 1 = BadLine
X 6 1 0 2 = BadLine
X  6 2 = BadLine
x 6 2 = BadLine
X 06 2 = BadNumber
X 340282366920938463463374607431768211456 2 = BadNumber
X -1 2 = BadNumber
X 6 02 = BadNumber
X 6 3 = BadNumber
X 6 c = BadNumber
X b c = BadNumber";

// Whether the text with this line in the place of its exchange has the fault.
fn exchange_has_fault(alloc: Global, sc: &Scenario, row: &str) -> Result<bool, Fail> {
    match row.split_once(" = ") {
        Some((line, kind)) => {
            let line = format!(in alloc; "{line}\n")?;
            let fault = format!(in alloc; "8 {kind}")?;
            let text = with_line(alloc, WITH_EXCHANGE, 8, line.as_bytes())?;
            has_fault(alloc, sc, &text, &fault)
        }
        None => Ok(false),
    }
}

fn exchanges_with_faults(alloc: Global, sc: &Scenario) -> Result<u32, Fail> {
    let mut count = 0u32;
    for row in NO_EXCHANGES.split("\n") {
        if exchange_has_fault(alloc, sc, row)? {
            count = count.saturating_add(1);
        }
    }
    Ok(count)
}

#[test]
fn exchanges_have_faults(rt: HostRuntime) -> Result<(), Fail> {
    let alloc = rt.alloc();
    assert_eq!(rt;
        asked(alloc, "row 4", |sc| exchanges_with_faults(alloc, sc))?,
        13
    );
    Ok(())
}

// In the versions before, the line of an exchange has no letter that they know.
fn are_unknown_before(alloc: Global, sc: &Scenario) -> Result<bool, Fail> {
    let one = with_line(alloc, WITH_EXCHANGE, 1, b"plan 1\n")?;
    let two = with_line(alloc, WITH_EXCHANGE, 1, b"plan 2\n")?;
    Ok(has_fault(alloc, sc, &one, "8 BadLine")? && has_fault(alloc, sc, &two, "8 BadLine")?)
}

#[test]
fn exchanges_are_of_version_3(rt: HostRuntime) -> Result<(), Fail> {
    let alloc = rt.alloc();
    assert!(rt; asked(alloc, "row 4", |sc| are_unknown_before(alloc, sc))?);
    Ok(())
}

#[test]
fn kinds_have_names(rt: HostRuntime) -> Result<(), Fail> {
    assert_eq!(rt; plan_kind_name(PlanKind::WrongCount), "WrongCount");
    Ok(())
}

// A line with 100,000 such bytes in it.
fn long_line(alloc: Global, front: &[u8], byte: u8, back: &[u8]) -> Result<Vec<u8>, AllocError> {
    let mut line = Vec::from_slice(alloc, front)?;
    line.extend_from_slice(&vec![in alloc; byte; 100_000]?)?;
    line.extend_from_slice(back)?;
    Ok(line)
}

// Whether a text over two cells has the fault.
fn text_has_fault(alloc: Global, text: &[u8], fault: &str) -> Result<bool, Fail> {
    asked(alloc, "ab 2", |sc| has_fault(alloc, sc, text, fault))
}

// Whether a text whose line 7 is this one has the fault.
fn line_has_fault(alloc: Global, line: &[u8], fault: &str) -> Result<bool, Fail> {
    let text = with_line(alloc, TWO_CELLS, 7, line)?;
    text_has_fault(alloc, &text, fault)
}

fn long_lines_have_faults(alloc: Global) -> Result<bool, Fail> {
    let digits = long_line(alloc, b"W ", b'9', b" 0 0\n")?;
    let blanks = long_line(alloc, b"W 12 0 0", b' ', b"\n")?;
    Ok(
        line_has_fault(alloc, &digits, "7 BadNumber")?
            && line_has_fault(alloc, &blanks, "7 BadLine")?,
    )
}

// Lines are judged by their fronts, however long they are.
#[test]
fn long_lines(rt: HostRuntime) -> Result<(), Fail> {
    assert!(rt; long_lines_have_faults(rt.alloc())?);
    Ok(())
}

// Whether a text with a blank before it has the fault: a check skips what is blank before a plan.
fn blank_has_fault(alloc: Global) -> Result<bool, Fail> {
    let text = with_line(alloc, TWO_CELLS, 1, b" plan 1\n")?;
    text_has_fault(alloc, &text, "1 BadLine")
}

#[test]
fn a_blank_before_a_text(rt: HostRuntime) -> Result<(), Fail> {
    assert!(rt; blank_has_fault(rt.alloc())?);
    Ok(())
}

/// The number of the line that follows these bytes, or goes on behind them.
pub fn line_behind(text: &[u8]) -> u64 {
    let mut line = 1u64;
    for c in text {
        if *c == b'\n' {
            line = line.saturating_add(1);
        }
    }
    line
}

// How many fronts of a text end early, in the line that they end in.
fn fronts_over(alloc: Global, sc: &Scenario, text: &[u8]) -> Result<usize, Fail> {
    let mut count = 0usize;
    for n in 0..text.len() {
        let front = &text[..n];
        let fault = format!(in alloc; "{} EarlyEnd", line_behind(front))?;
        if has_fault(alloc, sc, front, &fault)? {
            count = count.saturating_add(1);
        }
    }
    Ok(count)
}

fn fronts_that_end_early(alloc: Global, text: &[u8]) -> Result<usize, Fail> {
    asked(alloc, "ab 2", |sc| fronts_over(alloc, sc, text))
}

#[test]
fn a_text_that_is_cut_off_ends_early(rt: HostRuntime) -> Result<(), Fail> {
    let text = TWO_CELLS.as_bytes();
    assert_eq!(rt; fronts_that_end_early(rt.alloc(), text)?, text.len());
    Ok(())
}

fn is_item(step: &Step) -> bool {
    match step {
        Step::Item(_) => true,
        Step::More | Step::Fault(_) => false,
    }
}

// What is left behind the next item, where one follows.
fn behind_item<'a>(feed: &mut PlanFeed, sc: &Scenario, rest: &'a [u8]) -> Option<&'a [u8]> {
    if rest.is_empty() {
        return None;
    }
    let Fed { used, step } = feed.feed(sc, rest);
    let after = &rest[used..];
    if is_item(&step) { Some(after) } else { None }
}

// Feeds a text, and adds the lengths of the bytes up to each item.
fn push_lengths(
    lengths: &mut Vec<usize>,
    feed: &mut PlanFeed,
    sc: &Scenario,
    text: &[u8],
) -> Result<(), AllocError> {
    let mut rest = text;
    for _ in 0..text.len() {
        if let Some(after) = behind_item(feed, sc, rest) {
            lengths.push(rest.len().saturating_sub(after.len()))?;
            rest = after;
        }
    }
    Ok(())
}

// The lengths of the bytes up to each item of a text over a scenario, none where it doesn't end with one.
fn lengths_over(alloc: Global, sc: &Scenario, text: &[u8]) -> Result<Vec<usize>, Fail> {
    let mut lengths = Vec::new(alloc);
    let mut feed = PlanFeed::start(alloc, sc, Family::Plans)?;
    push_lengths(&mut lengths, &mut feed, sc, text)?;
    if feed.finish().is_err() {
        lengths.clear();
    }
    Ok(lengths)
}

fn item_lengths(alloc: Global, text: &[u8]) -> Result<Vec<usize>, Fail> {
    asked(alloc, "ab 2", |sc| lengths_over(alloc, sc, text))
}

// The first four lines, each record and the end are fed one after the other.
#[test]
fn a_feed_stops_at_each_item(rt: HostRuntime) -> Result<(), Fail> {
    let lengths = item_lengths(rt.alloc(), TWO_CELLS.as_bytes())?;
    assert_eq!(rt; lengths.as_slice(), [37usize, 2, 4, 9, 9, 7, 4].as_slice());
    Ok(())
}
