//! What is wrong with rows of parts.

ghost use Rattle.std.specs.Prelude.{◌≡◌, ℕ, ◌<◌, ◌≤◌, ◌↔◌, length, map, sum_by, IsTrue, IfSome, IfNone, IfErr, OnOk};
ghost use Rattle.std.specs.List.{AllZip};
ghost use Rattle.std.specs.List.Sorted.{IsPermutation};
ghost use Rattle.period_rows.specs.Rows.{row_at, IsInOrder};
ghost use Rattle.drift_chain.specs.DriftRows.{drift_over, IsDriftRow, IsDrift};
ghost use Rattle.drift_chain.specs.Faults.{IsFirstOfRow, IsFirstFault};

use period_rows::{CellPart, has_double, sort_rows};

/// Why rows of parts make no drift, or none was made. A fault of a row names its cell.
#[derive(Clone, Copy, Debug, PartialEq, Eq)]
pub enum DriftFault {
    /// An entry's cell isn't a cell.
    OutOfRange(u8),
    /// An entry has no part.
    ZeroPart(u8),
    /// A cell has two entries.
    DoubleEntry(u8),
    /// The parts don't sum to the denominator.
    WrongSum(u8),
    /// No memory was found.
    NoMemory,
}

/// Puts each row in ascending order of cells, if the rows then make a drift.
pub(crate) fn put_in_order(denominator: u32, rows: &mut [Vec<CellPart>]) -> Result<(), DriftFault>
    requires denominator { (1 ≤ denominator) × (denominator ≤ 1000000) }
    requires count { (1 ≤ length rows.old) × (length rows.old ≤ 200) }
    ensures same { AllZip IsPermutation (map (λ row. row.items) rows.old) (map (λ row. row.items) rows.new) }
    ensures drift { OnOk result (IsDrift (drift_over denominator (map (λ row. row.items) rows.new))) }
    ensures fault { IfErr result (IsFirstFault denominator (map (λ row. row.items) rows.old)) }
{
    sort_rows(rows);
    match first_fault(denominator, rows) {
        Some(fault) => Err(fault),
        None => Ok(()),
    }
}

// The fault that is named of rows in ascending order of cells.
fn first_fault(denominator: u32, rows: &[Vec<CellPart>]) -> Option<DriftFault>
    requires denominator { (1 ≤ denominator) × (denominator ≤ 1000000) }
    requires count { (1 ≤ length rows.now) × (length rows.now ≤ 200) }
    requires in_order { (c : ℕ) → c < length rows.now → IsInOrder (row_at (map (λ row. row.items) rows.now) c) }
    ensures none { IfNone result (IsDrift (drift_over denominator (map (λ row. row.items) rows.now))) }
    ensures some { IfSome result (IsFirstFault denominator (map (λ row. row.items) rows.now)) }
{
    for (c, row) in rows.iter().enumerate() {
        if let Some(fault) = row_fault(denominator, rows.len(), c as u8, row) {
            return Some(fault);
        }
    }
    None
}

/// What is wrong with the row of a cell, in ascending order, out of so many cells.
pub(crate) fn row_fault(
    denominator: u32,
    cells: usize,
    cell: u8,
    row: &[CellPart],
) -> Option<DriftFault>
    requires few { cells ≤ 255 }
    requires in_order { IsInOrder row.now }
    ensures none { IfNone result (IsDriftRow denominator cells row.now) }
    ensures some { IfSome result (IsFirstOfRow denominator cells cell row.now) }
{
    if row.iter().any(|entry| entry.cell as usize >= cells) {
        Some(DriftFault::OutOfRange(cell))
    } else if row.iter().any(|entry| entry.part == 0) {
        Some(DriftFault::ZeroPart(cell))
    } else if has_double(row) {
        Some(DriftFault::DoubleEntry(cell))
    } else if !sums_to(denominator, row) {
        Some(DriftFault::WrongSum(cell))
    } else {
        None
    }
}

// Whether the parts of a row sum to the denominator.
fn sums_to(denominator: u32, row: &[CellPart]) -> bool
    requires { length row.now ≤ 255 }
    ensures { IsTrue result ↔ (sum_by (λ entry. entry.part) row.now ≡ denominator) }
{
    let sum: u64 = row.iter().map(|entry| u64::from(entry.part)).sum();
    sum == u64::from(denominator)
}
