//! That a worker may go to another thread.

ghost use Rattle.std.specs.Prelude.{◌≡◌};

use crate::worker::Worker;

// Anything that may go to another thread, as it is.
fn sent<S: Send>(value: S) -> S
    ensures { result ≡ value }
{
    value
}

/// A worker, as it is: it may go to another thread.
pub fn sent_worker(worker: Worker) -> Worker
    ensures { result ≡ worker }
{
    sent(worker)
}
