//! The nodes of a search in one list, in preorder.

ghost use Rattle.std.specs.Prelude.{◌≡◌, IfOk};
ghost use Rattle.std.specs.List.Sorted.{IsPermutation, IsSortedBy};
ghost use Rattle.search_model.specs.Order.{smaller};
ghost use Rattle.gap_plan.specs.Nodes.{nodes_of};

use bound_tree::{GapKind, GapNode, TreeNode};
use search_model::Path;
use std::alloc::{AllocError, Global};

// Closed records and waiting prefixes as nodes; what waits has no number yet.
fn listed(alloc: Global, closed: &[TreeNode], waiting: &[Path]) -> Result<Vec<GapNode>, AllocError>
    ensures { IfOk result (λ nodes. nodes.items ≡ nodes_of closed.now waiting.now) }
{
    let closed = closed.iter().map(|node| GapNode {
        prefix: node.prefix,
        kind: GapKind::Closed(node.kind),
    });
    let waiting = waiting.iter().map(|prefix| GapNode {
        prefix: *prefix,
        kind: GapKind::Waiting(0),
    });
    closed.chain(waiting).collect(alloc)
}

/// These nodes in ascending order of their prefixes.
pub(crate) fn in_order(
    alloc: Global,
    closed: &[TreeNode],
    waiting: &[Path],
) -> Result<Vec<GapNode>, AllocError>
    ensures same { IfOk result (λ nodes. IsPermutation (nodes_of closed.now waiting.now) nodes.items) }
    ensures sorted { IfOk result (λ nodes. IsSortedBy (λ a b. smaller a.prefix b.prefix) nodes.items) }
{
    let mut nodes = listed(alloc, closed, waiting)?;
    nodes.sort_unstable_by(|a, b| a.prefix.cells().cmp(b.prefix.cells()));
    Ok(nodes)
}
