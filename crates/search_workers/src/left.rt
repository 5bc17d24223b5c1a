//! Why a worker left.

/// Why a worker left.
#[derive(Clone, Copy, Debug, PartialEq, Eq)]
pub enum Left {
    /// It found nothing to do: in 1,024 rounds in a row it got no task. (Or a task that it took was no legal prefix, which
    /// doesn't happen in a search.)
    Idle,
    /// It drew a number at the limit or above it.
    Full,
    /// Memory ran out.
    NoMemory,
}
