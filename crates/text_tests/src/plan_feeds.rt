//! A text that is fed in pieces tells what reading it at once says.

use bound_tree::{GapKind, GapNode, GapPlan, Kind, Numbers, Plan, TreeNode};
use search_model::{Scenario, Standing};
use std::alloc::Global;
use std::test::Fail;
use tree_format::{
    Family, Fed, PlanFault, PlanFeed, PlanItem, PlanStop, Step, read_gap, read_plan,
};

// What a feed told of a text.
#[derive(Drop)]
struct Telling {
    head: Option<(Standing, u128, u128, Numbers, u64)>,
    nodes: Vec<GapNode>,
    ended: bool,
    fault: Option<PlanFault>,
}

fn hear(telling: &mut Telling, step: Step) -> Result<(), Fail> {
    match step {
        Step::More => {}
        Step::Item(PlanItem::Head(standing, weight, ceiling, numbers, nodes)) => {
            telling.head = Some((standing, weight, ceiling, numbers, nodes));
        }
        Step::Item(PlanItem::Node(GapNode { prefix, kind })) => {
            telling.nodes.push(GapNode { prefix, kind })?;
        }
        Step::Item(PlanItem::End) => telling.ended = true,
        Step::Fault(fault) => telling.fault = Some(fault),
    }
    Ok(())
}

fn feed_piece(
    telling: &mut Telling,
    feed: &mut PlanFeed,
    sc: &Scenario,
    piece: &[u8],
) -> Result<(), Fail> {
    let mut rest = piece;
    for _ in 0..piece.len() {
        if rest.is_empty() || telling.fault.is_some() {
            return Ok(());
        }
        let Fed { used, step } = feed.feed(sc, rest);
        rest = &rest[used..];
        hear(telling, step)?;
    }
    Ok(())
}

// The text of a family in pieces of this size.
fn told_by(
    alloc: Global,
    sc: &Scenario,
    family: Family,
    text: &[u8],
    size: usize,
) -> Result<Telling, Fail> {
    let mut feed = PlanFeed::start(alloc, sc, family)?;
    let mut telling = Telling {
        head: None,
        nodes: Vec::new(alloc),
        ended: false,
        fault: None,
    };
    let mut rest = text;
    for _ in 0..text.len() {
        let (piece, after) = rest.split_at(rest.len().min(size));
        feed_piece(&mut telling, &mut feed, sc, piece)?;
        rest = after;
    }
    if telling.fault.is_none() {
        telling.fault = feed.finish().err();
    }
    Ok(telling)
}

fn same_kind(a: &Kind, b: &Kind) -> bool {
    match (a, b) {
        (Kind::Branch, Kind::Branch) => true,
        (Kind::Whole(x), Kind::Whole(y))
        | (Kind::Mean(x), Kind::Mean(y))
        | (Kind::Edge(x), Kind::Edge(y))
        | (Kind::TwoLooks(x), Kind::TwoLooks(y)) => x == y,
        (Kind::Tangent(x, p), Kind::Tangent(y, q)) => x == y && p.cells() == q.cells(),
        (Kind::Exchange(x, u), Kind::Exchange(y, v)) => x == y && u == v,
        _ => false,
    }
}

fn is_closed(told: &GapNode, read: &TreeNode) -> bool {
    match &told.kind {
        GapKind::Closed(kind) => {
            told.prefix.cells() == read.prefix.cells() && same_kind(kind, &read.kind)
        }
        GapKind::Waiting(_) => false,
    }
}

fn is_open(told: &GapNode, read: &GapNode) -> bool {
    told.prefix.cells() == read.prefix.cells()
        && match (&told.kind, &read.kind) {
            (GapKind::Closed(a), GapKind::Closed(b)) => same_kind(a, b),
            (GapKind::Waiting(a), GapKind::Waiting(b)) => a == b,
            _ => false,
        }
}

fn are_closed(told: &[GapNode], read: &[TreeNode]) -> bool {
    for (a, b) in told.iter().zip(read.iter()) {
        if !is_closed(a, b) {
            return false;
        }
    }
    told.len() == read.len()
}

fn are_open(told: &[GapNode], read: &[GapNode]) -> bool {
    for (a, b) in told.iter().zip(read.iter()) {
        if !is_open(a, b) {
            return false;
        }
    }
    told.len() == read.len()
}

// Whether this was told of a standing, a weight, a ceiling, numbers and as many nodes, and then the end, without a fault.
fn is_told(
    telling: &Telling,
    standing: &Standing,
    weight: u128,
    ceiling: u128,
    numbers: Numbers,
) -> bool {
    match telling.head {
        Some((head, said_weight, said_ceiling, said_numbers, nodes)) => {
            head.path.cells() == standing.path.cells()
                && head.value == standing.value
                && said_weight == weight
                && said_ceiling == ceiling
                && said_numbers == numbers
                && nodes == telling.nodes.len() as u64
                && telling.ended
                && telling.fault.is_none()
        }
        None => false,
    }
}

// The ceiling of a plan is its value, and its numbers are mean bounds, since it has none.
fn is_plan(telling: &Telling, plan: &Plan) -> bool {
    let value = plan.standing.value;
    is_told(telling, &plan.standing, plan.weight, value, Numbers::Means)
        && are_closed(&telling.nodes, plan.tree.nodes())
}

fn is_gap(telling: &Telling, plan: &GapPlan) -> bool {
    is_told(
        telling,
        &plan.standing,
        plan.weight,
        plan.ceiling,
        plan.numbers,
    ) && are_open(&telling.nodes, plan.nodes.nodes())
}

// Whether this was told of what reading a text at once says.
fn is_as_read(alloc: Global, sc: &Scenario, text: &[u8], telling: &Telling) -> bool {
    match read_plan(alloc, sc, text) {
        Ok(plan) => is_plan(telling, &plan),
        Err(PlanStop::Fault(fault)) => telling.fault == Some(fault),
        Err(PlanStop::NoMemory) => false,
    }
}

// The same of a gap plan.
fn is_gap_as_read(alloc: Global, sc: &Scenario, text: &[u8], telling: &Telling) -> bool {
    match read_gap(alloc, sc, text) {
        Ok(plan) => is_gap(telling, &plan),
        Err(PlanStop::Fault(fault)) => telling.fault == Some(fault),
        Err(PlanStop::NoMemory) => false,
    }
}

// Whether a text tells in pieces of this size what reading it at once says.
fn tells_by(
    alloc: Global,
    sc: &Scenario,
    family: Family,
    text: &[u8],
    size: usize,
) -> Result<bool, Fail> {
    let telling = told_by(alloc, sc, family, text, size)?;
    Ok(match family {
        Family::Plans => is_as_read(alloc, sc, text, &telling),
        Family::Gaps => is_gap_as_read(alloc, sc, text, &telling),
    })
}

// The same one byte at a time, by seven, and whole.
fn tells_by_each(alloc: Global, sc: &Scenario, family: Family, text: &[u8]) -> Result<bool, Fail> {
    for size in [1, 7, 1_000_000] {
        if !tells_by(alloc, sc, family, text, size)? {
            return Ok(false);
        }
    }
    Ok(true)
}

/// Whether a text tells the same one byte at a time, by seven, and whole, and that is what reading it at once says.
pub fn tells_as_read(alloc: Global, sc: &Scenario, text: &[u8]) -> Result<bool, Fail> {
    tells_by_each(alloc, sc, Family::Plans, text)
}

/// The same of the text of a gap plan.
pub fn tells_gap_as_read(alloc: Global, sc: &Scenario, text: &[u8]) -> Result<bool, Fail> {
    tells_by_each(alloc, sc, Family::Gaps, text)
}
