//! Gap plans: plans of a search that stopped early.

ghost use Rattle.std.specs.Prelude.{◌≡◌};
ghost use Rattle.bound_tree.specs.Gaps.{numbers_for as numbers_for_lem};

use crate::node::Kind;
use search_model::{Path, Scenario, Standing};
use std::marker::Model;

/// Which bounds the numbers of a gap plan are, where a shorter prefix than a path waits.
#[derive(Clone, Copy, Debug, PartialEq, Eq)]
pub enum Numbers {
    /// Mean bounds.
    Means,
    /// Edge bounds, or the whole weight where that is less.
    Edges,
}

/// The numbers that the gap plans of a scenario are written with: from horizon 4 on edge bounds, else mean bounds.
pub fn numbers_for(sc: &Scenario) -> Numbers
    ensures { result ≡ numbers_for_lem sc.now }
{
    if sc.horizon() < 4 {
        Numbers::Means
    } else {
        Numbers::Edges
    }
}

/// How far a search came below a prefix.
#[derive(Clone, Copy)]
pub enum GapKind {
    /// The prefix was closed, as in a plan.
    Closed(Kind),
    /// The prefix waits: what no path below it exceeds, by its own value where it is a path, else by the bound of the plan's
    /// numbers.
    Waiting(u128),
}

/// A node: a prefix and how far the search came below it.
#[derive(Clone, Copy)]
pub struct GapNode {
    pub prefix: Path,
    pub kind: GapKind,
}

/// The nodes of a gap plan, in the order in which they are written.
#[derive(Drop)]
pub struct GapTree {
    nodes: Vec<GapNode>,
}

impl Model for GapTree {
    ghost use Rattle.std.specs.Prelude.{List};
    ghost use Rattle.bound_tree.specs.declared.gap.GapNode.{GapNode};

    ghost Value = { List GapNode };

    ghost view = { λ t. t.nodes.items };
}

impl GapTree {
    /// The tree of these nodes.
    pub fn of(nodes: Vec<GapNode>) -> GapTree
        ensures { result ≡ nodes.items }
    {
        GapTree { nodes }
    }

    /// The nodes.
    pub fn nodes(&self) -> &[GapNode]
        ensures { result.now ≡ self.now }
    {
        &self.nodes
    }
}

/// A path to fly, its value out of the whole weight, the value that no path exceeds, which bounds the numbers of waiting
/// nodes are, and the nodes that show why no path exceeds it.
#[derive(Drop)]
pub struct GapPlan {
    pub standing: Standing,
    pub weight: u128,
    pub ceiling: u128,
    pub numbers: Numbers,
    pub nodes: GapTree,
}
