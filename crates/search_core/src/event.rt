//! Events, and why one is refused.

ghost use Rattle.std.specs.Prelude.{◌≡◌};

use bound_tree::TreeNode;
use search_model::{Path, Standing};
use std::alloc::{AllocError, AllocFailed};

/// What happens to the state of a search.
#[derive(Clone, Copy)]
pub enum CoreEvent {
    /// A prefix goes from the hands to the pool.
    Put(Path),
    /// A prefix goes from the pool to the hands.
    Take(Path),
    /// A prefix that is held is closed under the standing at a place: its record is made, and the legal children of a
    /// `Branch` are held in its stead.
    Close(TreeNode, usize),
    /// A path with its exact value becomes known.
    Learn(Standing),
}

/// Why an event was refused.
#[derive(Clone, Copy)]
pub enum CoreFault {
    /// The prefix of a `Take` isn't pooled.
    NotPooled(Path),
    /// The prefix of a `Put` or a `Close` isn't held.
    NotHeld(Path),
    /// The prefix of a `Close` is held, and its place isn't among the standings.
    NoStanding(usize),
    /// Memory ran out.
    NoMemory,
}

// So that `v.push(x)?` answers `NoMemory`. The value that was not stored is dropped.
impl<T: Drop> From<AllocFailed<T>> for CoreFault {
    ghost use Rattle.search_core.specs.declared.event.CoreFault.TheVariants.{NoMemory};

    ghost from_gives = { λ _ e. e ≡ NoMemory };

    fn from(_refused: AllocFailed<T>) -> CoreFault {
        CoreFault::NoMemory
    }
}

impl From<AllocError> for CoreFault {
    ghost use Rattle.search_core.specs.declared.event.CoreFault.TheVariants.{NoMemory};

    ghost from_gives = { λ _ e. e ≡ NoMemory };

    fn from(_refused: AllocError) -> CoreFault {
        CoreFault::NoMemory
    }
}
