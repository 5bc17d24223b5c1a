//! Records.

use search_model::Path;

/// How a prefix was closed.
#[derive(Clone, Copy)]
pub enum Kind {
    /// Each child of the prefix has a record of its own.
    Branch,
    /// The prefix is a path of this value.
    Whole(u128),
    /// The greatest value below the prefix, by the mean bound (Martins 1993).
    Mean(u128),
    /// The greatest value below the prefix, times the look denominator, by the tangent at this path.
    Tangent(u128, Path),
    /// The greatest value below the prefix, by the edge bound: the mean bound with each look discounted by the look just
    /// before it.
    Edge(u128),
    /// The prefix's exchange bound over itself with this position in place of its last but one, which stands in for it:
    /// whatever follows both, the other makes the better path.
    Exchange(u128, u8),
    /// The greatest value below the prefix, by the bound that remembers two looks: the mean bound with each look discounted by the
    /// two looks just before it.
    TwoLooks(u128),
}

/// A record: a prefix and how it was closed.
#[derive(Clone, Copy)]
pub struct TreeNode {
    pub prefix: Path,
    pub kind: Kind,
}
