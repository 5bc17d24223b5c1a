//! What a search lets in between its steps.

/// A search calls its gate between the steps of a worker, from the worker's own thread. Both calls change nothing that the
/// search sees.
pub trait Gate: Sync {
    /// Worker `worker` has closed a node and disposed of its children; it has closed `closed` nodes.
    fn turn(&self, worker: u32, closed: u64);

    /// Worker `worker` has found no task in `round` rounds in a row, counted from 1.
    fn idle(&self, worker: u32, round: u32);
}

/// A gate whose two calls return at once.
#[derive(Clone, Copy, Debug)]
pub struct OpenGate;

impl Gate for OpenGate {
    fn turn(&self, _worker: u32, _closed: u64) {}

    fn idle(&self, _worker: u32, _round: u32) {}
}
