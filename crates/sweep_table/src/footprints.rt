//! Rows of cells that looks cover.

ghost use Rattle.std.specs.Prelude.{◌≡◌, ℕ, ◌<◌, ◌≤◌, [], ◌∷◌, length, map, IfOk};
ghost use Rattle.std.specs.List.{range_with_len};
ghost use Rattle.period_rows.specs.Rows.{IsAscending};
ghost use Rattle.sweep_table.specs.LookParts.{factor_in, look_row, misses, own_row};
ghost use Rattle.sweep_table.specs.Forms.{prints_seen};

use period_rows::{CellPart, RowChanges};
use std::alloc::{AllocError, Global};

/// Per position its base row, and the rows of single periods; all in ascending order of cells.
#[derive(Debug, Drop)]
pub(crate) struct Footprints {
    pub(crate) cells: u8,
    pub(crate) rows: Vec<Vec<CellPart>>,
    pub(crate) changes: Option<RowChanges>,
}

/// The row in force for a look from position `p` in period `t`.
pub(crate) fn row_in_force(prints: &Footprints, t: u32, p: u8) -> &[CellPart]
    requires { p < length prints.now.rows.items }
    ensures { (denominator : ℕ) → result.now ≡ look_row (prints_seen denominator prints.now) t p }
{
    let base: &[CellPart] = &prints.rows[p as usize];
    match &prints.changes {
        Some(changes) => changes.row_or(t, p, base),
        None => base,
    }
}

/// The rows of looks that each cover the searcher's own cell alone.
pub(crate) fn own_rows(alloc: Global, overlook: &[u32]) -> Result<Vec<Vec<CellPart>>, AllocError>
    requires { length overlook.now ≤ 200 }
    ensures { IfOk result (λ rows.
        map (λ row. row.items) rows.items ≡ map (own_row overlook.now) (range_with_len 0 (length overlook.now))) }
{
    let mut rows = Vec::new(alloc);
    for (cell, part) in overlook.iter().enumerate() {
        rows.push(row_of_one(alloc, cell as u8, *part)?)?;
    }
    Ok(rows)
}

// The row of one cell.
fn row_of_one(alloc: Global, cell: u8, part: u32) -> Result<Vec<CellPart>, AllocError>
    ensures { IfOk result (λ row. row.items ≡ misses cell part ∷ []) }
{
    Ok(vec![in alloc; CellPart { cell, part }]?)
}

/// How much of a target in cell `c` a look over an ascending row misses.
pub(crate) fn factor_in_row(denominator: u32, row: &[CellPart], c: u8) -> u32
    requires { IsAscending row.now }
    ensures { result ≡ factor_in denominator row.now c }
{
    match row.binary_search_by_key(&c, |entry| entry.cell) {
        Ok(place) => row[place].part,
        Err(_) => denominator,
    }
}
