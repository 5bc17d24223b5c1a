//! The edge bound: the value of a prefix, and the greatest sum of the rewards that looks after it have, each discounted
//! by the look just before it.
#![tactic(auto)]

mod along;
mod best;
mod edge;
mod laws;
mod moves;
mod rows;
mod shares;
mod tables;
mod units;

pub use along::{first_reward, next_reward};
pub use best::taken_own;
pub use edge::Edge;
pub use laws::{edge_is_by_moves, worked_edges};
pub use moves::{found_by, look_from, mass_at};
pub use rows::fill_rewards;
pub use shares::{fill_shares, taken_by_shares};
pub use tables::EdgeTables;
pub use units::{Units, fill_found, has_own_looks, is_steady};
