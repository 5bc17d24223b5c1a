//! That a kit may go to another thread.

ghost use Rattle.std.specs.Prelude.{◌≡◌};

use crate::kit::Kit;

// Anything that may go to another thread, as it is.
fn sent<S: Send>(value: S) -> S
    ensures { result ≡ value }
{
    value
}

/// A kit, as it is: it may go to another thread where its tasks may.
pub fn sent_kit<T: Drop + Send>(kit: Kit<T>) -> Kit<T>
    ensures { result ≡ kit }
{
    sent(kit)
}
