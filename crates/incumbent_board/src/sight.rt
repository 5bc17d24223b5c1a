//! What a pass knows.

use search_model::Standing;
use std::collections::LinkedList;

/// For how many seats a pass of the board's cell stands, the history that it has seen, what the passes that were joined to
/// it had seen, and its own offers, placed and behind. Only contracts speak of one: no value of it is made.
pub struct Sight {
    pub seats: u64,
    pub seen: LinkedList<Standing>,
    pub told: LinkedList<LinkedList<Standing>>,
    pub placed: LinkedList<Standing>,
    pub behind: LinkedList<Standing>,
}
