//! Rows of single periods.

ghost use Rattle.std.specs.Prelude.{◌≡◌, map, IsOk, IfOk, IfErr};
ghost use Rattle.std.specs.List.{AllZip};
ghost use Rattle.period_rows.specs.Changes.{change_of, IsSameChange, AreChanges, HaveRows};
ghost use Rattle.drift_chain.specs.DriftRows.{IsDriftRow};
ghost use Rattle.drift_chain.specs.ChangeFaults.{row_change, HasChangeFault, IsRefusal};

use crate::faults::row_fault;
use period_rows::{CellPart, GivenChange, RowChanges, RowFault, RowTest};
use std::alloc::{AllocError, Global};

// The last period that a drift's row can be for.
const LAST_PERIOD: u32 = 31;

/// The row of a cell for the step after one period.
#[derive(Debug, Drop)]
pub struct DriftChange {
    pub period: u32,
    pub cell: u8,
    pub row: Vec<CellPart>,
}

/// Why changes weren't taken. A fault names the place of its change, counted from 0.
#[derive(Clone, Copy, Debug, PartialEq, Eq)]
pub enum ChangeFault {
    /// The period isn't 1 to 31.
    PeriodOutOfRange(usize),
    /// The cell isn't one.
    CellOutOfRange(usize),
    /// An earlier change is for the same period and cell.
    DoubleChange(usize),
    /// The row has a fault.
    BadRow(usize),
    /// No memory was found.
    NoMemory,
}

impl From<AllocError> for ChangeFault {
    ghost use Rattle.drift_chain.specs.declared.changes.ChangeFault.TheVariants.{NoMemory};

    ghost from_gives = { λ _ e. e ≡ NoMemory };

    fn from(_refused: AllocError) -> ChangeFault {
        ChangeFault::NoMemory
    }
}

impl From<RowFault> for ChangeFault {
    ghost use Rattle.drift_chain.specs.ChangeFaults.{row_fault_of};

    ghost from_gives = { λ fault e. row_fault_of e ≡ fault };

    fn from(fault: RowFault) -> ChangeFault {
        match fault {
            RowFault::PeriodOutOfRange(place) => ChangeFault::PeriodOutOfRange(place),
            RowFault::OwnerOutOfRange(place) => ChangeFault::CellOutOfRange(place),
            RowFault::DoubleChange(place) => ChangeFault::DoubleChange(place),
            RowFault::BadRow(place) => ChangeFault::BadRow(place),
            RowFault::NoMemory => ChangeFault::NoMemory,
        }
    }
}

// What a drift's row sums to, and out of how many cells it is.
#[derive(Clone, Copy)]
struct DriftRow {
    denominator: u32,
    cells: u8,
}

impl RowTest for DriftRow {
    ghost use Rattle.drift_chain.specs.DriftRows.{IsDriftRow};
    ghost use Rattle.drift_chain.specs.ChangeFaults.{IsBadRow};

    ghost right = { λ test row. IsDriftRow test.denominator test.cells row };

    ghost wrong = { λ test row. IsBadRow test.denominator test.cells row };

    fn is_wrong(&self, row: &[CellPart]) -> bool {
        row_fault(self.denominator, usize::from(self.cells), 0, row).is_some()
    }
}

/// Takes changes, each row of which it puts in ascending order of cells.
pub(crate) fn changes_over(
    alloc: Global,
    denominator: u32,
    cells: u8,
    list: Vec<GivenChange>,
) -> Result<RowChanges, ChangeFault>
    ensures made { let given = map change_of list.items in IfOk result (AllZip IsSameChange given) }
    ensures changes { IfOk result (AreChanges 31 cells) }
    ensures right { IfOk result (HaveRows (IsDriftRow denominator cells)) }
    ensures faultless { let given = map change_of list.items in IsOk result → (fault : ChangeFault) →
        HasChangeFault denominator cells given fault → ⊥ }
    ensures fault { let given = map change_of list.items in IfErr result (IsRefusal denominator cells given) }
{
    let row = DriftRow { denominator, cells };
    match RowChanges::new(alloc, LAST_PERIOD, cells, &row, list) {
        Ok(changes) => Ok(changes),
        Err(fault) => Err(ChangeFault::from(fault)),
    }
}

/// Changes as rows of single periods, whose owners are cells.
pub(crate) fn as_given(
    alloc: Global,
    list: Vec<DriftChange>,
) -> Result<Vec<GivenChange>, AllocError>
    ensures { let changes = map row_change list.items in IfOk result (λ given. map change_of given.items ≡ changes) }
{
    let mut given = Vec::new(alloc);
    for change in list {
        given.push(GivenChange {
            period: change.period,
            owner: change.cell,
            row: change.row,
        })?;
    }
    Ok(given)
}
