//! Rows of single periods, in place of the base rows.

ghost use Rattle.std.specs.Prelude.{◌≡◌, map, IsOk, IfOk, IfErr};
ghost use Rattle.std.specs.List.{AllZip};
ghost use Rattle.period_rows.specs.Changes.{change_of as given_change, IsSameChange, HaveRows};
ghost use Rattle.sweep_table.specs.LookParts.{IsLookRow};
ghost use Rattle.sweep_table.specs.Changes.{change_of, HasChangeFault, IsRefusal};

use crate::faults::{has_out, has_over};
use period_rows::{CellPart, GivenChange, RowChanges, RowFault, RowTest, has_double};
use std::alloc::{AllocError, Global};

// The last period in which looks may change.
const LAST_PERIOD: u32 = 32;

/// What a look from one position covers in one period, in place of what it covers else.
#[derive(Debug, Drop)]
pub struct LookChange {
    pub period: u32,
    pub position: u8,
    pub row: Vec<CellPart>,
}

/// Why looks can't be changed, or weren't. A fault names the place of its change in the list.
#[derive(Clone, Copy, Debug, PartialEq, Eq)]
pub enum LookChangeFault {
    /// The period isn't from 1 to 32.
    PeriodOutOfRange(usize),
    /// There is no such position.
    PositionOutOfRange(usize),
    /// An earlier change is for the same period and position.
    DoubleChange(usize),
    /// An entry isn't a cell, a cell has two entries, or a part exceeds the denominator.
    BadRow(usize),
    /// Memory ran out.
    NoMemory,
}

impl From<AllocError> for LookChangeFault {
    ghost use Rattle.sweep_table.specs.declared.changes.LookChangeFault.TheVariants.{NoMemory};

    ghost from_gives = { λ _ e. e ≡ NoMemory };

    fn from(_refused: AllocError) -> LookChangeFault {
        LookChangeFault::NoMemory
    }
}

impl From<RowFault> for LookChangeFault {
    ghost use Rattle.sweep_table.specs.Changes.{row_fault_of};

    ghost from_gives = { λ fault e. row_fault_of e ≡ fault };

    fn from(fault: RowFault) -> LookChangeFault {
        match fault {
            RowFault::PeriodOutOfRange(place) => LookChangeFault::PeriodOutOfRange(place),
            RowFault::OwnerOutOfRange(place) => LookChangeFault::PositionOutOfRange(place),
            RowFault::DoubleChange(place) => LookChangeFault::DoubleChange(place),
            RowFault::BadRow(place) => LookChangeFault::BadRow(place),
            RowFault::NoMemory => LookChangeFault::NoMemory,
        }
    }
}

// What a row of looks has to keep: the denominator of its parts, and the number of cells.
#[derive(Clone, Copy)]
struct LookRow {
    denominator: u32,
    cells: u8,
}

impl RowTest for LookRow {
    ghost use Rattle.sweep_table.specs.LookParts.{IsLookRow};
    ghost use Rattle.sweep_table.specs.Changes.{IsBadRow};

    ghost right = { λ test row. IsLookRow test.denominator test.cells row };

    ghost wrong = { λ test row. IsBadRow test.denominator test.cells row };

    fn is_wrong(&self, row: &[CellPart]) -> bool {
        has_out(self.cells, row) || has_double(row) || has_over(self.denominator, row)
    }
}

/// Takes changes of looks over so many cells from so many positions, each row of which it puts in ascending order.
pub(crate) fn changes_over(
    alloc: Global,
    denominator: u32,
    cells: u8,
    positions: u8,
    list: Vec<GivenChange>,
) -> Result<RowChanges, LookChangeFault>
    ensures same { let given = map given_change list.items in IfOk result (AllZip IsSameChange given) }
    ensures right { IfOk result (HaveRows (IsLookRow denominator cells)) }
    ensures faultless { let given = map given_change list.items in IsOk result → (fault : LookChangeFault) →
        HasChangeFault denominator cells positions given fault → ⊥ }
    ensures refusal { let given = map given_change list.items in
        IfErr result (IsRefusal denominator cells positions given) }
{
    let row = LookRow { denominator, cells };
    match RowChanges::new(alloc, LAST_PERIOD, positions, &row, list) {
        Ok(changes) => Ok(changes),
        Err(fault) => Err(LookChangeFault::from(fault)),
    }
}

/// Changes as rows of single periods, whose owners are positions.
pub(crate) fn as_given(alloc: Global, list: Vec<LookChange>) -> Result<Vec<GivenChange>, AllocError>
    ensures { let changes = map change_of list.items in IfOk result (λ given.
        map given_change given.items ≡ changes) }
{
    let mut given = Vec::new(alloc);
    for change in list {
        given.push(GivenChange {
            period: change.period,
            owner: change.position,
            row: change.row,
        })?;
    }
    Ok(given)
}
