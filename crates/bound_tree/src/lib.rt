//! Trees of bounds: the records that show why no path is better than a plan's.
#![tactic(auto)]

mod cut;
mod gap;
mod gap_laws;
mod laws;
mod node;
mod plan;
mod stack;
mod tree;

pub use cut::{cuts, in_parts};
pub use gap::{GapKind, GapNode, GapPlan, GapTree, Numbers, numbers_for};
pub use gap_laws::{
    ceiling_is_above, ceiling_size, gap_of_none_waiting, met_ceiling_is_best, worked_gaps,
};
pub use laws::{
    accepted_is_best, closed_is_good, closed_stays, closes_once, cut_stays, eaten_are_in_place,
    eaten_by_either, eaten_is_placed_and_good, edge_is_between, exchange_rules_out,
    looks_are_convex, mean_is_above, remembering_is_between, same_search_same_live,
    same_search_same_plans, tangent_is_above,
};
pub use node::{Kind, TreeNode};
pub use plan::Plan;
pub use stack::{extended, pop_prefix, push_children, push_expected, push_prefix};
pub use tree::{BoundTree, MOST_NODES};
