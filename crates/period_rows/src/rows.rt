//! The order of a row's entries.

ghost use Rattle.std.specs.Prelude.{◌≡◌, ℕ, ◌<◌, length, map, MatchBool};
ghost use Rattle.std.specs.List.{AllZip};
ghost use Rattle.std.specs.List.Sorted.{IsPermutation};
ghost use Rattle.period_rows.specs.Rows.{row_at, HasDouble, IsInOrder, IsAscending, is_same_row as is_same_row_lem};

use crate::part::CellPart;

/// Puts each row in order of cells.
pub fn sort_rows(rows: &mut [Vec<CellPart>])
    ensures same { AllZip IsPermutation (map (λ row. row.items) rows.old) (map (λ row. row.items) rows.new) }
    ensures in_order { (o : ℕ) → o < length rows.old → IsInOrder (row_at (map (λ row. row.items) rows.new) o) }
{
    for row in rows.iter_mut() {
        row.sort_unstable_by_key(|entry| entry.cell);
    }
}

/// Whether a cell has two entries in a row in order of cells.
pub fn has_double(row: &[CellPart]) -> bool
    requires { IsInOrder row.now }
    ensures { MatchBool result (HasDouble row.now) (IsAscending row.now) }
{
    !row.is_sorted_by(|a, b| a.cell < b.cell)
}

/// Whether two rows have the same entries in the same order.
pub fn is_same_row(xs: &[CellPart], ys: &[CellPart]) -> bool
    ensures { result ≡ is_same_row_lem xs.now ys.now }
{
    xs == ys
}
