//! A whole text by its feed: what its items say is collected.

ghost use Rattle.std.specs.Prelude.{◌≡◌, ◌≤◌, ◌++◌, ℕ, List, [], length, take, Ok, Err, IfOk, OnOk};
ghost use Rattle.bound_tree.specs.declared.gap.GapPlan.{GapPlan as GapLem};
ghost use Rattle.bound_tree.specs.Gaps.{shape_of};
ghost use Rattle.tree_format.specs.Collecting.{with_item, Keeps, HasCollected};
ghost use Rattle.tree_format.specs.Gives.{Gives, IfFault};
ghost use Rattle.tree_format.specs.Reading.{blank_plan, text_at};

use crate::feed::PlanFeed;
use crate::plan_item::{Fed, PlanItem, Step};
use crate::plan_line::Family;
use crate::stop::PlanStop;
use bound_tree::{GapKind, GapNode, Kind, Numbers, TreeNode};
use exact_parts::NoMemory;
use search_model::{Path, Scenario, Standing};
use std::alloc::Global;

/// What the items say that were told so far: of a plan its records, of a gap plan its nodes.
#[derive(Drop)]
pub struct Collected {
    pub standing: Standing,
    pub weight: u128,
    pub ceiling: u128,
    pub numbers: Numbers,
    pub records: Vec<TreeNode>,
    pub nodes: Vec<GapNode>,
}

/// A node as a record, a waiting one as a leaf; of a plan's text all are closed.
pub fn record_of(node: &GapNode) -> TreeNode
    ensures { result ≡ shape_of node.now }
{
    match node.kind {
        GapKind::Closed(kind) => TreeNode {
            prefix: node.prefix,
            kind,
        },
        GapKind::Waiting(_) => TreeNode {
            prefix: node.prefix,
            kind: Kind::Mean(0),
        },
    }
}

// Keeps what an item says: a node of a plan as a record.
fn keep(kept: &mut Collected, family: Family, item: PlanItem) -> Result<(), NoMemory>
    ensures { OnOk result ((plan : GapLem) → Keeps family kept.old plan →
        Keeps family kept.new (with_item plan item)) }
{
    match item {
        PlanItem::Head(standing, weight, ceiling, numbers, _) => {
            kept.standing = standing;
            kept.weight = weight;
            kept.ceiling = ceiling;
            kept.numbers = numbers;
        }
        PlanItem::Node(GapNode { prefix, kind }) => match family {
            Family::Plans => kept.records.push(record_of(&GapNode { prefix, kind }))?,
            Family::Gaps => kept.nodes.push(GapNode { prefix, kind })?,
        },
        PlanItem::End => {}
    }
    Ok(())
}

// Feeds the next bytes of a text up to the first that completes an item, which is kept: how many.
fn take_some(
    feed: &mut PlanFeed,
    kept: &mut Collected,
    sc: &Scenario,
    family: Family,
    text: &[u8],
) -> Result<usize, PlanStop>
    requires some { 1 ≤ length text.now }
    ensures used { IfOk result (λ used. (1 ≤ used) × (used ≤ length text.now)) }
    ensures taken { IfOk result (λ used. (before : List ℕ) → HasCollected family sc.now before feed.old kept.old →
        HasCollected family sc.now (before ++ take used text.now) feed.new kept.new) }
    ensures fault { IfFault result (λ fault. (before : List ℕ) → HasCollected family sc.now before feed.old kept.old →
        text_at family sc.now (before ++ text.now) ≡ Err fault) }
{
    let Fed { used, step } = feed.feed(sc, text);
    match step {
        Step::More => Ok(used),
        Step::Item(item) => {
            keep(kept, family, item)?;
            Ok(used)
        }
        Step::Fault(fault) => Err(PlanStop::Fault(fault)),
    }
}

// Feeds a whole text, and keeps what its items say.
fn take_all(
    feed: &mut PlanFeed,
    kept: &mut Collected,
    sc: &Scenario,
    family: Family,
    text: &[u8],
) -> Result<(), PlanStop>
    requires { HasCollected family sc.now [] feed.old kept.old }
    ensures whole { OnOk result (
        (plan : GapLem) × (text_at family sc.now text.now ≡ Ok plan) × Keeps family kept.new plan) }
    ensures fault { IfFault result (λ fault. text_at family sc.now text.now ≡ Err fault) }
{
    let mut done = 0;
    while done < text.len() {
        done += take_some(feed, kept, sc, family, &text[done..])?;
    }
    match feed.finish() {
        Ok(()) => Ok(()),
        Err(fault) => Err(PlanStop::Fault(fault)),
    }
}

// What is kept before the first item.
fn nothing_collected(alloc: Global) -> Collected
    ensures plan { Keeps Family.Plans result blank_plan }
    ensures gap { Keeps Family.Gaps result blank_plan }
{
    Collected {
        standing: Standing {
            path: Path::empty(),
            value: 0,
        },
        weight: 0,
        ceiling: 0,
        numbers: Numbers::Means,
        records: Vec::new(alloc),
        nodes: Vec::new(alloc),
    }
}

/// What a text of the family says, to its last byte.
pub fn collect(
    alloc: Global,
    sc: &Scenario,
    family: Family,
    text: &[u8],
) -> Result<Collected, PlanStop>
    ensures { Gives family result (text_at family sc.now text.now) }
{
    let mut feed = PlanFeed::start(alloc, sc, family)?;
    let mut kept = nothing_collected(alloc);
    match take_all(&mut feed, &mut kept, sc, family, text) {
        Ok(()) => Ok(kept),
        Err(stop) => Err(stop),
    }
}
