//! What a pass knows.

use std::collections::LinkedList;

/// For how many passes of its deque it stands, what it put there and what it took, each in its order. Only contracts speak
/// of one: no value of it is made.
pub struct Hand<T> {
    pub passes: u64,
    pub put: LinkedList<T>,
    pub taken: LinkedList<T>,
}
