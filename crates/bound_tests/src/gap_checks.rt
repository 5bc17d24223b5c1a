//! Verdicts on gap plans, as rows of a table. A row has the plan's path, value, weight and ceiling, and `edges` where its
//! numbers are edge bounds; its nodes; and the verdict, with the line of what is rejected. A line without bars says what the
//! rows below it are for.

use crate::scenarios::asked_of;
use crate::verdicts::{kind_of, path_of};
use bound_tree::{GapKind, GapNode, GapPlan, GapTree, Numbers};
use search_model::{Scenario, Standing};
use std::alloc::Global;
use std::test::Fail;
use tree_checker::{GapRejectAt, GapVerdict, GapWhy, Why, check_gap, gap_why_name};
use worked_scenarios as worked;

// A node as its letter, its prefix, its number where it has one, and the reference of a tangent or the position of an
// exchange; `O` is one that waits.
fn node_of(node: &str) -> Option<GapNode> {
    let mut words = node.split(' ');
    let letter = words.next()?;
    let prefix = path_of(words.next()?)?;
    let number = words.next().unwrap_or("0").parse::<u128>().ok()?;
    if letter == "O" {
        let kind = GapKind::Waiting(number);
        return Some(GapNode { prefix, kind });
    }
    let reference = path_of(words.next().unwrap_or("-"))?;
    let kind = GapKind::Closed(kind_of(letter, number, reference)?);
    Some(GapNode { prefix, kind })
}

fn nodes_of(alloc: Global, nodes: &str) -> Result<Vec<GapNode>, Fail> {
    let mut all = Vec::new(alloc);
    if nodes.is_empty() {
        return Ok(all);
    }
    for node in nodes.split(',') {
        all.push(node_of(node).ok_or("no node")?)?;
    }
    Ok(all)
}

// The numbers that a word says, if there is one.
fn numbers_of(word: Option<&str>) -> Option<Numbers> {
    match word {
        None => Some(Numbers::Means),
        Some("edges") => Some(Numbers::Edges),
        Some(_) => None,
    }
}

// The gap plan of a path, a value, a weight, a ceiling and what its numbers are, and of nodes.
fn plan_of(head: &str, nodes: Vec<GapNode>) -> Option<GapPlan> {
    let mut words = head.split(' ');
    let path = path_of(words.next()?)?;
    let value = words.next()?.parse::<u128>().ok()?;
    let weight = words.next()?.parse::<u128>().ok()?;
    let ceiling = words.next()?.parse::<u128>().ok()?;
    let numbers = numbers_of(words.next())?;
    let standing = Standing { path, value };
    Some(GapPlan {
        standing,
        weight,
        ceiling,
        numbers,
        nodes: GapTree::of(nodes),
    })
}

// Whether a verdict is spelled so.
fn is_told(alloc: Global, verdict: GapVerdict, told: &str) -> Result<bool, Fail> {
    match verdict {
        GapVerdict::Accepted => Ok(told == "Accepted"),
        GapVerdict::Rejected(GapRejectAt { line, why }) => {
            let text = format!(in alloc; "{line} {}", gap_why_name(why))?;
            Ok(text.as_str() == told)
        }
    }
}

// Whether the gap plan of a row has the row's verdict.
fn row_is_judged(alloc: Global, sc: &Scenario, row: &str) -> Result<bool, Fail> {
    let Some((head, rest)) = row.split_once('|') else {
        return Ok(false);
    };
    let (nodes, told) = rest.split_once('|').ok_or("no verdict")?;
    let nodes = nodes_of(alloc, nodes)?;
    if nodes.len() > 1_000 {
        return Err(Fail::from("too many nodes"));
    }
    let plan = plan_of(head, nodes).ok_or("no plan")?;
    is_told(alloc, check_gap(alloc, sc, &plan)?, told)
}

// How many rows of a table have their verdict.
fn rows_over(alloc: Global, sc: &Scenario, table: &str) -> Result<u32, Fail> {
    let mut count = 0u32;
    for row in table.split('\n') {
        if row_is_judged(alloc, sc, row)? {
            count = count.saturating_add(1);
        }
    }
    Ok(count)
}

// The same over the scenario of a text.
fn rows_judged(alloc: Global, scenario: &str, table: &str) -> Result<u32, Fail> {
    asked_of(alloc, scenario, |alloc, sc| rows_over(alloc, sc, table))
}

const TWO_CELLS: &str = "\
00 12 16 12|B -,O 0 12,O 1 12|Accepted
Nothing was closed.
00 12 16 16|O - 16|Accepted
00 12 16 12|O - 16|4 CeilingWrong
Nothing waits.
00 12 16 12|B -,B 0,W 00 12,W 01 12,M 1 12|Accepted
A path waits, once with its value.
00 12 16 12|B -,B 0,O 00 12,W 01 12,M 1 12|Accepted
00 12 16 13|B -,B 0,O 00 13,W 01 12,M 1 12|8 WaitingWrong
A closed record is wrong: its line is one more than in a plan.
00 12 16 12|B -,B 0,W 00 11,O 01 12,O 1 12|8 WholeWrong
01 12 16 12|B -,B 0,W 00 12,O 01 12,O 1 12|8 NotCut
02 12 16 12|B -,O 0 12,O 1 12|2 PathIllegal
00 11 16 12|B -,O 0 12,O 1 12|3 ValueWrong
00 12 15 12|B -,O 0 12,O 1 12|3 WeightWrong
Nodes that stand elsewhere.
00 12 16 12|B -,O 0 12|8 MissingChild
00 12 16 12|B -,O 1 12|7 MissingChild
00 12 16 12|B -,O 0 12,O 0 12|8 NotChild
00 12 16 16|O - 16,O 0 12|7 NotChild
00 12 16 12||6 MissingChild
";

// The path finds 3, and another finds 6.
const FOUR_CELLS: &str = "\
00 3 9 6|B -,O 0 3,O 2 6|Accepted
00 3 9 5|B -,O 0 3,O 2 6|4 CeilingWrong
00 3 9 340282366920938463463374607431768211455|B -,O 0 3,O 2 6|4 CeilingWrong
00 3 9 6|B -,O 0 3,O 2 5|8 WaitingWrong
The ceiling comes last.
00 3 9 5|B -,O 0 3,O 2 5|8 WaitingWrong
00 3 9 5|B -,O 0 4,O 2 5|7 WaitingWrong
00 3 9 5|B -,O 0 3|8 MissingChild
The path finds 6: what waits finds less, and the ceiling is the value.
23 6 9 6|B -,O 0 3,B 2,W 22 2,W 23 6|Accepted
23 6 9 3|B -,O 0 3,B 2,W 22 2,W 23 6|4 CeilingWrong
23 6 9 6|B -,O 0 3,B 2,O 22 2,O 23 6|Accepted
23 6 9 6|B -,O 0 3,B 2,O 22 3,O 23 6|9 WaitingWrong
";

// The first path finds 6 of 8, and the best 7.
const WAITING_LONGER: &str = "\
122 6 8 8|B -,M 0 4,O 1 8,O 2 8|Accepted
122 6 8 7 edges|B -,M 0 4,O 1 6,O 2 7|Accepted
Neither kind of numbers is taken for the other.
122 6 8 7|B -,M 0 4,O 1 6,O 2 7|8 WaitingWrong
122 6 8 8 edges|B -,M 0 4,O 1 8,O 2 8|8 WaitingWrong
122 6 8 8 edges|B -,M 0 4,O 1 6,O 2 7|4 CeilingWrong
A path that waits has its value with either.
122 6 8 7 edges|B -,M 0 4,O 1 6,B 2,O 21 6,B 22,O 221 6,O 222 7|Accepted
122 6 8 8|B -,M 0 4,O 1 8,B 2,O 21 6,B 22,O 221 6,O 222 7|Accepted
122 6 8 8 edges|B -,M 0 4,O 1 6,B 2,O 21 6,B 22,O 221 6,O 222 8|13 WaitingWrong
";

// The edge bound of the empty prefix is 20, which is more than the whole weight.
const WAITING_FOUR: &str = "\
2222 15 16 32|O - 32|Accepted
2222 15 16 16 edges|O - 16|Accepted
2222 15 16 20 edges|O - 20|6 WaitingWrong
2222 15 16 24|B -,O 0 16,O 1 24,O 2 20|Accepted
2222 15 16 16 edges|B -,O 0 12,O 1 16,O 2 16|Accepted
2222 15 16 16 edges|B -,O 0 12,O 1 16,B 2,O 21 14,O 22 15|Accepted
2222 15 16 16 edges|B -,O 0 12,O 1 16,B 2,O 21 16,O 22 15|10 WaitingWrong
Prefix 01 stands in for 11, and 22 doesn't for 12.
2222 15 16 16 edges|B -,O 0 12,B 1,O 10 8,X 11 0 0,O 12 14,O 2 16|Accepted
2222 15 16 16 edges|B -,O 0 12,B 1,O 10 8,X 11 0 0,X 12 12 2,O 2 16|11 NotCut
";

#[test]
fn gap_plans(rt: HostRuntime) -> Result<(), Fail> {
    let alloc = rt.alloc();
    assert_eq!(rt; rows_judged(alloc, worked::TWO_CELLS, TWO_CELLS)?, 16);
    assert_eq!(rt; rows_judged(alloc, worked::FOUR_CELLS, FOUR_CELLS)?, 11);
    assert_eq!(rt;
        rows_judged(alloc, worked::WAITING_LONGER, WAITING_LONGER)?,
        8
    );
    assert_eq!(rt; rows_judged(alloc, worked::WAITING_FOUR, WAITING_FOUR)?, 9);
    Ok(())
}

#[test]
fn reasons_have_names(rt: HostRuntime) -> Result<(), Fail> {
    assert_eq!(rt; gap_why_name(GapWhy::Plain(Why::NotCut)), "NotCut");
    assert_eq!(rt; gap_why_name(GapWhy::WaitingWrong), "WaitingWrong");
    assert_eq!(rt; gap_why_name(GapWhy::CeilingWrong), "CeilingWrong");
    Ok(())
}
