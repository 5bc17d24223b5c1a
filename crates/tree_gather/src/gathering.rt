//! The gathering of records.

ghost use Rattle.std.specs.Prelude.{[]};
ghost use Rattle.search_core.specs.Balance.{MeetsEquation};
ghost use Rattle.tree_gather.specs.Gathered.{IsGathered, IsAcceptedWhereGood};

use bound_tree::{BoundTree, TreeNode};
use search_model::Scenario;

/// The records of a whole tree in preorder. No memory is taken.
///
/// The empty prefix and the legal children of all Branch records are, up to order, the records' prefixes. The tree has the
/// same records, in ascending order of their prefixes, and is accepted with each standing of exact value under which each
/// record is good in itself.
pub fn gather(sc: &Scenario, mut nodes: Vec<TreeNode>) -> BoundTree
    requires { MeetsEquation sc.now [] [] nodes.items }
    ensures gathered { IsGathered nodes.items result }
    ensures accepted { IsAcceptedWhereGood sc.now nodes.items result }
{
    sc.recall_sound();
    nodes.sort_unstable_by(|a, b| a.prefix.cells().cmp(b.prefix.cells()));
    BoundTree::of(nodes)
}
