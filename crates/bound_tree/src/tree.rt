//! Lists of records.

ghost use Rattle.std.specs.Prelude.{◌≡◌};

use crate::node::TreeNode;
use std::marker::Model;

/// The most records that a plan may have.
pub const MOST_NODES: u64 = 1_048_576;

/// The records of a plan, in the order in which they are written.
#[derive(Drop)]
pub struct BoundTree {
    nodes: Vec<TreeNode>,
}

impl Model for BoundTree {
    ghost use Rattle.std.specs.Prelude.{List};
    ghost use Rattle.bound_tree.specs.declared.node.TreeNode.{TreeNode};

    ghost Value = { List TreeNode };

    ghost view = { λ t. t.nodes.items };
}

impl BoundTree {
    /// The tree of these records.
    pub fn of(nodes: Vec<TreeNode>) -> BoundTree
        ensures { result ≡ nodes.items }
    {
        BoundTree { nodes }
    }

    /// The records.
    pub fn nodes(&self) -> &[TreeNode]
        ensures { result.now ≡ self.now }
    {
        &self.nodes
    }
}
