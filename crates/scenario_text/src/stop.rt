ghost use Rattle.std.specs.Prelude.{◌≡◌};

use crate::kind::{TextFault, TextKind};
use std::alloc::{AllocError, AllocFailed};

/// Why a line was not taken.
#[derive(Clone, Copy)]
pub enum LineStop {
    Fault(TextKind),
    NoMemory,
}

impl From<AllocError> for LineStop {
    ghost use Rattle.scenario_text.specs.declared.stop.LineStop.TheVariants.{NoMemory};

    ghost from_gives = { λ _ e. e ≡ NoMemory };

    fn from(_refused: AllocError) -> LineStop {
        LineStop::NoMemory
    }
}

// So that `v.push(x)?` answers `NoMemory`. The value that was not stored is dropped.
impl<T: Drop> From<AllocFailed<T>> for LineStop {
    ghost use Rattle.scenario_text.specs.declared.stop.LineStop.TheVariants.{NoMemory};

    ghost from_gives = { λ _ e. e ≡ NoMemory };

    fn from(_refused: AllocFailed<T>) -> LineStop {
        LineStop::NoMemory
    }
}

/// Why no scenario was read from a text.
#[derive(Clone, Copy, Debug, PartialEq, Eq)]
pub enum TextStop {
    Fault(TextFault),
    NoMemory,
}

impl From<AllocError> for TextStop {
    ghost use Rattle.scenario_text.specs.declared.stop.TextStop.TheVariants.{NoMemory};

    ghost from_gives = { λ _ e. e ≡ NoMemory };

    fn from(_refused: AllocError) -> TextStop {
        TextStop::NoMemory
    }
}
