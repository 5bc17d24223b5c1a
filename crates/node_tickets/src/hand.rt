//! What a seat knows.

use std::collections::LinkedList;

/// For how many seats it stands, the limit, and the numbers that it drew, in their order. Only contracts speak of one: no
/// value of it is made.
pub struct Hand {
    pub stands_for: u64,
    pub limit: u64,
    pub drawn: LinkedList<u64>,
}
