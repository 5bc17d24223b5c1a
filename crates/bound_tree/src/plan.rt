//! Plans.

use crate::tree::BoundTree;
use search_model::Standing;

/// A path to fly, its value out of the whole weight, and the tree that shows why none is better.
#[derive(Drop)]
pub struct Plan {
    pub standing: Standing,
    pub weight: u128,
    pub tree: BoundTree,
}
