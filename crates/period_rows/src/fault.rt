//! Why rows of single periods aren't taken.

use std::alloc::AllocError;

/// Why changes of rows weren't taken. A fault names the place of its change, counted from 0.
#[derive(Clone, Copy, Debug, PartialEq, Eq)]
pub enum RowFault {
    /// The period isn't from 1 to the last one.
    PeriodOutOfRange(usize),
    /// There is no such owner.
    OwnerOutOfRange(usize),
    /// An earlier change is for the same period and owner.
    DoubleChange(usize),
    /// The row is wrong.
    BadRow(usize),
    /// No memory was found.
    NoMemory,
}

impl From<AllocError> for RowFault {
    ghost use Rattle.std.specs.Prelude.{◌≡◌};
    ghost use Rattle.period_rows.specs.declared.fault.RowFault.TheVariants.{NoMemory};

    ghost from_gives = { λ _ e. e ≡ NoMemory };

    fn from(_refused: AllocError) -> RowFault {
        RowFault::NoMemory
    }
}
