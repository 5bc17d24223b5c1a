//! Verdicts on plans. The rows of a table stand in one text, and one function goes over them, so that a row more costs no
//! proof. A row has the plan's path, value and weight, its records, and the verdict, with the line of what is rejected; a
//! line without bars says what the rows below it are for.

use crate::scenarios::asked_of;
use bound_tree::{BoundTree, Kind, Plan, TreeNode};
use search_model::{Path, Scenario, Standing};
use std::alloc::Global;
use std::test::Fail;
use tree_checker::{RejectAt, Verdict, Why, check, why_name};
use worked_scenarios as worked;

// A round trip of nine cells, and twelve periods: there is one path, and the target moves from each cell to all, in 9 ^ 12
// tracks; half of the looks miss.
const ROUND_TRIP: &str = "\
scenario 1
horizon 12
parts 45 10 2
cell a
cell b
cell c
cell d
cell e
cell f
cell g
cell h
cell i
start a
first a 1 b 2 c 3 d 4 e 5 f 6 g 7 h 8 i 9
moves a b
moves b c
moves c d
moves d e
moves e f
moves f g
moves g h
moves h i
moves i a
drift a a 2 b 1 c 1 d 1 e 1 f 1 g 1 h 1 i 1
drift b a 1 b 2 c 1 d 1 e 1 f 1 g 1 h 1 i 1
drift c a 1 b 1 c 2 d 1 e 1 f 1 g 1 h 1 i 1
drift d a 1 b 1 c 1 d 2 e 1 f 1 g 1 h 1 i 1
drift e a 1 b 1 c 1 d 1 e 2 f 1 g 1 h 1 i 1
drift f a 1 b 1 c 1 d 1 e 1 f 2 g 1 h 1 i 1
drift g a 1 b 1 c 1 d 1 e 1 f 1 g 2 h 1 i 1
drift h a 1 b 1 c 1 d 1 e 1 f 1 g 1 h 2 i 1
drift i a 1 b 1 c 1 d 1 e 1 f 1 g 1 h 1 i 2
rate 1
end
";

/// Positions as digits, or `-` for none.
pub(crate) fn path_of(digits: &str) -> Option<Path> {
    if digits == "-" {
        return Some(Path::empty());
    }
    let mut path = Path::empty();
    for c in digits.as_bytes() {
        if path.len() == 32 {
            return None;
        }
        path.push(c.wrapping_sub(b'0'));
    }
    Some(path)
}

/// How a record was closed, by its letter. The position of an exchange is the first of its reference.
pub(crate) fn kind_of(letter: &str, number: u128, reference: Path) -> Option<Kind> {
    match letter {
        "B" => Some(Kind::Branch),
        "W" => Some(Kind::Whole(number)),
        "M" => Some(Kind::Mean(number)),
        "T" => Some(Kind::Tangent(number, reference)),
        "E" => Some(Kind::Edge(number)),
        "X" => Some(Kind::Exchange(number, *reference.cells().first()?)),
        "D" => Some(Kind::TwoLooks(number)),
        _ => None,
    }
}

// A record as its letter, its prefix, its number where it has one, and the reference of a tangent or the position of an
// exchange.
fn node_of(record: &str) -> Option<TreeNode> {
    let mut words = record.split(' ');
    let letter = words.next()?;
    let prefix = path_of(words.next()?)?;
    let number = words.next().unwrap_or("0").parse::<u128>().ok()?;
    let reference = path_of(words.next().unwrap_or("-"))?;
    let kind = kind_of(letter, number, reference)?;
    Some(TreeNode { prefix, kind })
}

fn nodes_of(alloc: Global, records: &str) -> Result<Vec<TreeNode>, Fail> {
    let mut nodes = Vec::new(alloc);
    if records.is_empty() {
        return Ok(nodes);
    }
    for record in records.split(',') {
        nodes.push(node_of(record).ok_or("no record")?)?;
    }
    Ok(nodes)
}

// The plan of a path, a value and a weight, and of records.
fn plan_of(head: &str, nodes: Vec<TreeNode>) -> Option<Plan> {
    let mut words = head.split(' ');
    let path = path_of(words.next()?)?;
    let value = words.next()?.parse::<u128>().ok()?;
    let weight = words.next()?.parse::<u128>().ok()?;
    let standing = Standing { path, value };
    Some(Plan {
        standing,
        weight,
        tree: BoundTree::of(nodes),
    })
}

// Whether a verdict is spelled so.
fn is_told(alloc: Global, verdict: Verdict, told: &str) -> Result<bool, Fail> {
    match verdict {
        Verdict::Accepted => Ok(told == "Accepted"),
        Verdict::Rejected(RejectAt { line, why }) => {
            let text = format!(in alloc; "{line} {}", why_name(why))?;
            Ok(text.as_str() == told)
        }
    }
}

// Whether the plan of a row has the row's verdict.
fn row_is_judged(alloc: Global, sc: &Scenario, row: &str) -> Result<bool, Fail> {
    let Some((head, rest)) = row.split_once('|') else {
        return Ok(false);
    };
    let (records, told) = rest.split_once('|').ok_or("no verdict")?;
    let nodes = nodes_of(alloc, records)?;
    if nodes.len() > 1_000 {
        return Err(Fail::from("too many records"));
    }
    let plan = plan_of(head, nodes).ok_or("no plan")?;
    is_told(alloc, check(alloc, sc, &plan)?, told)
}

// How many rows of a table have their verdict.
fn rows_over(alloc: Global, sc: &Scenario, table: &str) -> Result<u32, Fail> {
    let mut count = 0u32;
    for row in table.split('\n') {
        if row_is_judged(alloc, sc, row)? {
            count = count.saturating_add(1);
        }
    }
    Ok(count)
}

// The same over the scenario of a text.
fn rows_judged(alloc: Global, scenario: &str, table: &str) -> Result<u32, Fail> {
    asked_of(alloc, scenario, |alloc, sc| rows_over(alloc, sc, table))
}

const ONE_CELL: &str = "\
0 1 2|B -,W 0 1|Accepted
- 1 2|B -,W 0 1|2 PathIllegal
0 0 2|B -,W 0 1|3 ValueWrong
0 1 1|B -,W 0 1|3 WeightWrong
0 1 2||5 MissingChild
0 1 2|B -|6 MissingChild
0 1 2|B -,B 0|6 WholeWrong
0 1 2|B -,W 0 0|6 WholeWrong
0 1 2|B -,W 0 1,W 0 1|7 NotChild
";

const TWO_CELLS: &str = "\
00 12 16|B -,B 0,W 00 12,W 01 12,B 1,W 10 12,W 11 12|Accepted
The path stands in a cell that there is not.
02 12 16|B -|2 PathIllegal
00 11 16|B -|3 ValueWrong
A record before the one that is expected is missing.
00 12 16|B -,B 0,W 00 12,B 1,W 10 12,W 11 12|8 MissingChild
The first record has a path that is as good and smaller than the plan's.
01 12 16|B -,B 0,W 00 12,W 01 12,B 1,W 10 12,W 11 12|7 NotCut
A record stands twice.
00 12 16|B -,B 0,W 00 12,W 00 12|8 NotChild
A prefix is whole before the horizon.
00 12 16|B -,W 0 12|6 WholeWrong
The greatest child is missing.
00 12 16|B -,B 0,W 00 12,W 01 12|9 MissingChild
A record stands past the end.
00 12 16|B -,B 0,W 00 12,W 01 12,B 1,W 10 12,W 11 12,W 11 12|12 NotChild
The mean bound of prefix 1 is equal to the value of all paths.
00 12 16|B -,B 0,W 00 12,W 01 12,M 1 12|Accepted
01 12 16|B -,B 0,W 00 12,W 01 12,M 1 12|7 NotCut
";

// Three cells and two periods.
const MEAN_BOUNDS: &str = "\
22 3 4|B -,M 0 0,M 1 2,B 2,W 21 2,W 22 3|Accepted
22 3 4|B -,M 0 0,M 1 1,B 2,W 21 2,W 22 3|7 BoundWrong
";

// Three cells and three periods.
const TANGENT_BOUNDS: &str = "\
222 7 8|B -,M 0 4,T 1 12 122,B 2,M 21 6,B 22,W 221 6,W 222 7|Accepted
The path of the tangent doesn't begin with the prefix.
222 7 8|B -,M 0 4,T 1 12 222,B 2,M 21 6,B 22,W 221 6,W 222 7|7 ReferenceWrong
It isn't as long as the horizon.
222 7 8|B -,M 0 4,T 1 12 12,B 2,M 21 6,B 22,W 221 6,W 222 7|7 ReferenceWrong
The bound is wrong, and isn't cut either.
222 7 8|B -,M 0 4,T 1 14 122,B 2,M 21 6,B 22,W 221 6,W 222 7|7 BoundWrong
The mean bound is right, and isn't cut.
222 7 8|B -,M 0 4,M 1 8,B 2,M 21 6,B 22,W 221 6,W 222 7|7 NotCut
222 7 8|B -,M 0 4,T 1 12 122,B 2,M 21 6,B 22,W 221 5,W 222 7|11 WholeWrong
";

// After one look at the waiting target the next one finds half: the prefix 1 has two looks left, which find 4 and 2 of 8,
// and the empty prefix has three, which are bounded as 4, 2 and 2.
const EDGE_BOUNDS: &str = "\
222 7 8|B -,M 0 4,E 1 6,B 2,M 21 6,B 22,W 221 6,W 222 7|Accepted
222 7 8|B -,M 0 4,E 1 5,B 2,M 21 6,B 22,W 221 6,W 222 7|7 BoundWrong
A tangent needs one rate.
222 7 8|B -,M 0 4,T 1 12 122,B 2,M 21 6,B 22,W 221 6,W 222 7|7 NoOneRate
The prefix of the second edge bound is a path.
222 7 8|B -,M 0 4,E 1 6,B 2,M 21 6,B 22,E 221 6,W 222 7|11 WholeWrong
222 7 8|E - 8|5 NotCut
";

// Four periods: the target waits in cell 2, and each look there finds half of what is left of 16. Prefix 11 finds nothing, and
// neither does 01, which is smaller and has no lead. Prefix 211 finds 8, and its lead over 221, which finds 12, is worth 2 at
// most: its bound is 10. The lead of 12 over 22 is worth 4, so that its bound is the 12 which 22 finds. But 22 is greater: it
// doesn't stand in, though the plan finds 15.
const EXCHANGES: &str = "\
2222 15 16|B -,E 0 12,B 1,M 10 8,X 11 0 0,E 12 14,B 2,B 21,M 210 8,X 211 10 2,M 212 14,B 22,M 221 14,B 222,W 2221 14,W 2222 15|Accepted
2222 15 16|B -,E 0 12,B 1,M 10 8,X 11 0 0,X 12 12 2|10 NotCut
What stands in does so under a worse plan, too.
1222 14 16|B -,E 0 12,B 1,M 10 8,X 11 0 0|10 MissingChild
2222 15 16|B -,E 0 12,B 1,M 10 8,X 11 1 0|9 BoundWrong
2222 15 16|B -,E 0 12,B 1,M 10 8,X 11 0 0,X 12 13 2|10 BoundWrong
The position is the prefix's own, no move leads to it, none leads on from it, or there is none of its number.
2222 15 16|B -,E 0 12,B 1,M 10 8,X 11 0 1|9 ReferenceWrong
2222 15 16|B -,E 0 12,B 1,M 10 8,X 11 0 0,E 12 14,B 2,B 21,M 210 8,X 211 10 0|14 ReferenceWrong
2222 15 16|B -,E 0 12,B 1,M 10 8,X 11 0 0,X 12 12 0|10 ReferenceWrong
2222 15 16|B -,E 0 12,B 1,M 10 8,X 11 1 3|9 ReferenceWrong
The prefix has one position, none, or as many as there are periods.
2222 15 16|B -,X 0 12 1|6 WholeWrong
2222 15 16|X - 20 1|5 WholeWrong
2222 15 16|B -,E 0 12,B 1,M 10 8,X 11 0 0,E 12 14,B 2,E 21 14,B 22,M 221 14,B 222,X 2221 14 1|16 WholeWrong
";

// In three periods there are no exchanges.
const NO_EXCHANGES: &str = "\
222 7 8|B -,M 0 4,B 1,M 10 0,X 11 0 0|9 WholeWrong
222 7 8|B -,M 0 4,B 1,M 10 0,X 11 0 1|9 WholeWrong
";

const MORE_POSITIONS_THAN_CELLS: &str = "\
1 1 2|B -,W 0 0,W 1 1|Accepted
The base covers no cell, though there is one of its number.
1 1 2|B -,W 0 1,W 1 1|6 WholeWrong
The path from the air finds more.
0 0 2|B -,W 0 0,W 1 1|7 NotCut
There is no third position.
2 1 2|B -|2 PathIllegal
";

const NINE_CELLS: &str = "\
123456780123 8835288789141930 18432000000000000|B -,B 1,B 12,B 123,B 1234,B 12345,B 123456,B 1234567,B 12345678,B 123456780,B 1234567801,B 12345678012,W 123456780123 8835288789141930|Accepted
123456780123 8835288789141929 18432000000000000|B -,B 1,B 12,B 123,B 1234,B 12345,B 123456,B 1234567,B 12345678,B 123456780,B 1234567801,B 12345678012,W 123456780123 8835288789141930|3 ValueWrong
";

#[test]
fn plans_of_cells(rt: HostRuntime) -> Result<(), Fail> {
    let alloc = rt.alloc();
    assert_eq!(rt; rows_judged(alloc, worked::ONE_CELL, ONE_CELL)?, 9);
    assert_eq!(rt; rows_judged(alloc, worked::TWO_CELLS, TWO_CELLS)?, 11);
    assert_eq!(rt;
        rows_judged(alloc, worked::BASE_AND_AIR, MORE_POSITIONS_THAN_CELLS)?,
        4
    );
    Ok(())
}

#[test]
fn plans_with_bounds(rt: HostRuntime) -> Result<(), Fail> {
    let alloc = rt.alloc();
    assert_eq!(rt; rows_judged(alloc, worked::WAITING, MEAN_BOUNDS)?, 2);
    assert_eq!(rt;
        rows_judged(alloc, worked::WAITING_LONGER, TANGENT_BOUNDS)?,
        6
    );
    assert_eq!(rt; rows_judged(alloc, worked::TWO_RATES, EDGE_BOUNDS)?, 5);
    Ok(())
}

#[test]
fn plans_with_exchanges(rt: HostRuntime) -> Result<(), Fail> {
    let alloc = rt.alloc();
    assert_eq!(rt; rows_judged(alloc, worked::WAITING_FOUR, EXCHANGES)?, 12);
    assert_eq!(rt;
        rows_judged(alloc, worked::WAITING_LONGER, NO_EXCHANGES)?,
        2
    );
    Ok(())
}

// Also that reasons have their names.
#[test]
fn many_tracks_take_no_time(rt: HostRuntime) -> Result<(), Fail> {
    assert_eq!(rt; rows_judged(rt.alloc(), ROUND_TRIP, NINE_CELLS)?, 2);
    assert_eq!(rt; why_name(Why::PathIllegal), "PathIllegal");
    assert_eq!(rt; why_name(Why::ReferenceWrong), "ReferenceWrong");
    Ok(())
}
