//! What is wrong with overlook parts and with rows of looks.

ghost use Rattle.std.specs.Prelude.{◌≡◌, ℕ, ◌<◌, ◌≤◌, ◌↔◌, ◌⊎◌, length, map, slice_index, IsTrue, IfSome, IfNone, IfErr, OnOk, MatchBool, All};
ghost use Rattle.std.specs.List.{AllZip};
ghost use Rattle.std.specs.List.Sorted.{IsPermutation};
ghost use Rattle.period_rows.specs.Rows.{row_at, IsInOrder};
ghost use Rattle.sweep_table.specs.LookParts.{looks_over, IsLookRow, IsSweep};
ghost use Rattle.sweep_table.specs.Faults.{HasOut, HasOver, IsFirstOfRow, IsFirstFault};

use period_rows::{CellPart, has_double, sort_rows};

/// The most positions and cells of a sweep.
pub(crate) const MOST_CELLS: usize = 200;

/// Why overlook parts make no sweep.
#[derive(Clone, Copy, Debug, PartialEq, Eq)]
pub enum SweepFault {
    /// There is no part, or there are more than 200.
    CellCount,
    /// This cell is the least whose part exceeds the denominator.
    PartOver(u8),
}

/// Why rows of looks make no sweep, or none was made. A fault of a row names its position.
#[derive(Clone, Copy, Debug, PartialEq, Eq)]
pub enum LookFault {
    /// There is no row or more than 200, or no cell or more than 200.
    Count,
    /// An entry isn't a cell.
    OutOfRange(u8),
    /// A cell has two entries.
    DoubleEntry(u8),
    /// A part exceeds the denominator.
    PartOver(u8),
    /// Memory ran out.
    NoMemory,
}

/// The least cell whose part exceeds the denominator.
pub(crate) fn first_over(denominator: u32, overlook: &[u32]) -> Option<usize>
    ensures none { IfNone result ((k : ℕ) → k < length overlook.now → slice_index overlook.now k ≤ denominator) }
    ensures cell { IfSome result (λ c. c < length overlook.now) }
    ensures over { IfSome result (λ c. denominator < slice_index overlook.now c) }
    ensures earlier { IfSome result (λ c. (k : ℕ) → k < c → slice_index overlook.now k ≤ denominator) }
{
    overlook.iter().position(|part| *part > denominator)
}

/// Puts each row in ascending order of cells, if the rows then make a sweep.
pub(crate) fn put_in_order(
    denominator: u32,
    cells: u8,
    rows: &mut [Vec<CellPart>],
) -> Result<(), LookFault>
    requires denominator { (1 ≤ denominator) × (denominator ≤ 1000000) }
    ensures same { AllZip IsPermutation (map (λ row. row.items) rows.old) (map (λ row. row.items) rows.new) }
    ensures sweep { OnOk result (IsSweep (looks_over denominator cells (map (λ row. row.items) rows.new))) }
    ensures fault { IfErr result (IsFirstFault denominator cells (map (λ row. row.items) rows.old)) }
{
    sort_rows(rows);
    match first_fault(denominator, cells, rows) {
        Some(fault) => Err(fault),
        None => Ok(()),
    }
}

// The fault that is named of rows in ascending order of cells.
fn first_fault(denominator: u32, cells: u8, rows: &[Vec<CellPart>]) -> Option<LookFault>
    requires denominator { (1 ≤ denominator) × (denominator ≤ 1000000) }
    requires in_order { (p : ℕ) → p < length rows.now → IsInOrder (row_at (map (λ row. row.items) rows.now) p) }
    ensures none { IfNone result (IsSweep (looks_over denominator cells (map (λ row. row.items) rows.now))) }
    ensures some { IfSome result (IsFirstFault denominator cells (map (λ row. row.items) rows.now)) }
{
    if has_wrong_sizes(cells, rows.len()) {
        return Some(LookFault::Count);
    }
    for (p, row) in rows.iter().enumerate() {
        if let Some(fault) = row_fault(denominator, cells, p as u8, row) {
            return Some(fault);
        }
    }
    None
}

// Whether there are no cells or rows, or too many.
fn has_wrong_sizes(cells: u8, rows: usize) -> bool
    ensures { IsTrue result ↔ (((rows ≡ 0) ⊎ (200 < rows)) ⊎ ((cells ≡ 0) ⊎ (200 < cells))) }
{
    rows == 0 || rows > MOST_CELLS || cells == 0 || cells as usize > MOST_CELLS
}

// What is wrong with the row of a position, in ascending order.
fn row_fault(denominator: u32, cells: u8, position: u8, row: &[CellPart]) -> Option<LookFault>
    requires { IsInOrder row.now }
    ensures none { IfNone result (IsLookRow denominator cells row.now) }
    ensures some { IfSome result (IsFirstOfRow denominator cells position row.now) }
{
    if has_out(cells, row) {
        Some(LookFault::OutOfRange(position))
    } else if has_double(row) {
        Some(LookFault::DoubleEntry(position))
    } else if has_over(denominator, row) {
        Some(LookFault::PartOver(position))
    } else {
        None
    }
}

/// Whether an entry isn't a cell.
pub(crate) fn has_out(cells: u8, row: &[CellPart]) -> bool
    ensures { MatchBool result (HasOut cells row.now) (All (λ entry. entry.cell < cells) row.now) }
{
    row.iter().any(|entry| entry.cell >= cells)
}

/// Whether a part exceeds the denominator.
pub(crate) fn has_over(denominator: u32, row: &[CellPart]) -> bool
    ensures { MatchBool result (HasOver denominator row.now) (All (λ entry. entry.part ≤ denominator) row.now) }
{
    row.iter().any(|entry| entry.part > denominator)
}
