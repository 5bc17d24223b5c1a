//! What is wrong with rows of moves.

ghost use Rattle.std.specs.Prelude.{◌≡◌, ℕ, ◌<◌, ◌≤◌, length, map, IfSome, IfNone, IfErr, OnOk, MatchBool};
ghost use Rattle.std.specs.List.Sorted.{IsNonDecreasing, IsStrictlyIncreasing};
ghost use Rattle.search_grid.specs.Moves.{moves_from, IsMoveRow, IsGrid};
ghost use Rattle.search_grid.specs.Faults.{HasSameMoves, HasDouble, IsFirstOfRow, IsFirstFault};

use std::alloc::AllocFailed;

// The most cells of a grid.
const MAX_CELLS: usize = 200;

// The most moves of a cell.
const MAX_MOVES: usize = 64;

/// Why rows of moves make no grid, or none was made. A fault of a row names its cell.
#[derive(Clone, Copy, Debug, PartialEq, Eq)]
pub enum GridFault {
    /// There is no row, or there are more than 200.
    CellCount,
    /// The row is empty.
    NoMove(u8),
    /// The row has more than 64 moves.
    TooManyMoves(u8),
    /// A move of the row isn't a cell.
    OutOfRange(u8),
    /// A move stands twice in the row.
    DoubleMove(u8),
    /// No memory was found.
    NoMemory,
}

impl<T: Drop> From<AllocFailed<T>> for GridFault {
    ghost use Rattle.search_grid.specs.declared.faults.GridFault.TheVariants.{NoMemory};

    ghost from_gives = { λ _ e. e ≡ NoMemory };

    fn from(_refused: AllocFailed<T>) -> GridFault {
        GridFault::NoMemory
    }
}

/// Puts each row in ascending order, if the rows then make a grid.
pub(crate) fn put_in_order(rows: &mut [Vec<u8>]) -> Result<(), GridFault>
    ensures same { HasSameMoves (map (λ row. row.items) rows.old) (map (λ row. row.items) rows.new) }
    ensures grid { OnOk result (IsGrid (map (λ row. row.items) rows.new)) }
    ensures fault { IfErr result (IsFirstFault (map (λ row. row.items) rows.old)) }
{
    if rows.is_empty() || rows.len() > MAX_CELLS {
        return Err(GridFault::CellCount);
    }
    sort_rows(rows);
    match first_fault(rows) {
        Some(fault) => Err(fault),
        None => Ok(()),
    }
}

// Puts each row in ascending order.
fn sort_rows(rows: &mut [Vec<u8>])
    ensures same { HasSameMoves (map (λ row. row.items) rows.old) (map (λ row. row.items) rows.new) }
    ensures ascending { (c : ℕ) → c < length rows.old →
        IsNonDecreasing (moves_from (map (λ row. row.items) rows.new) c) }
{
    for row in rows.iter_mut() {
        row.sort_unstable();
    }
}

// What is wrong with the ascending moves of a cell, out of so many cells.
fn row_fault(cells: usize, cell: u8, row: &[u8]) -> Option<GridFault>
    requires { IsNonDecreasing row.now }
    ensures none { IfNone result (IsMoveRow cells row.now) }
    ensures some { IfSome result (IsFirstOfRow cells cell row.now) }
{
    if row.is_empty() {
        Some(GridFault::NoMove(cell))
    } else if row.len() > MAX_MOVES {
        Some(GridFault::TooManyMoves(cell))
    } else if row.iter().any(|&d| d as usize >= cells) {
        Some(GridFault::OutOfRange(cell))
    } else if has_double(row) {
        Some(GridFault::DoubleMove(cell))
    } else {
        None
    }
}

// Whether a move stands twice among ascending ones.
fn has_double(row: &[u8]) -> bool
    requires { IsNonDecreasing row.now }
    ensures { MatchBool result (HasDouble row.now) (IsStrictlyIncreasing row.now) }
{
    !row.is_sorted_by(|a, b| a < b)
}

// The fault that is named of rows whose moves ascend.
fn first_fault(rows: &[Vec<u8>]) -> Option<GridFault>
    requires count { (1 ≤ length rows.now) × (length rows.now ≤ 200) }
    requires ascending { (c : ℕ) → c < length rows.now →
        IsNonDecreasing (moves_from (map (λ row. row.items) rows.now) c) }
    ensures none { IfNone result (IsGrid (map (λ row. row.items) rows.now)) }
    ensures some { IfSome result (IsFirstFault (map (λ row. row.items) rows.now)) }
{
    for (c, row) in rows.iter().enumerate() {
        if let Some(fault) = row_fault(rows.len(), c as u8, row) {
            return Some(fault);
        }
    }
    None
}
