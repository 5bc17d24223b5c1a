//! What the sums behind pairs of looks go by.

use belief_update::Onward;
use edge_bound::Units;
use longest_walk::Near;
use search_model::{Path, Scenario};

/// What the sums behind pairs of looks after a prefix go by, which is the same in all periods.
#[derive(Drop)]
pub(crate) struct Setting<'a> {
    pub(crate) sc: &'a Scenario,
    pub(crate) near: &'a Near,
    pub(crate) prefix: &'a Path,
    pub(crate) onward: &'a Onward,
    // What looks find of units of mass a period after, and two periods after.
    pub(crate) units: &'a Units,
    pub(crate) twos: &'a Units,
    // Whether each look covers its own cell alone.
    pub(crate) own: bool,
}
