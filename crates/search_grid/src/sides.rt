//! Grids of rows and columns.

ghost use Rattle.std.specs.Prelude.{◌≡◌, ◌<◌, ◌≤◌, ◌*◌, map, IfOk, IfErr};
ghost use Rattle.std.specs.List.{filter, range_with_len};
ghost use Rattle.search_grid.specs.declared.faults.GridFault.TheVariants.{NoMemory};
ghost use Rattle.search_grid.specs.Sides.{is_close as is_close_lem, is_beside as is_beside_lem, side_moves, WorkedSides};

use crate::faults::GridFault;
use std::alloc::{AllocFailed, Global};

// Whether two numbers differ by one at most.
fn is_close(a: u8, b: u8) -> bool
    ensures { result ≡ is_close_lem a b }
{
    a.abs_diff(b) <= 1
}

// Whether cell `d` is cell `c` or stands at a side of it, where so many columns make a row.
fn is_beside(columns: u8, c: u8, d: u8) -> bool
    requires { 1 ≤ columns }
    ensures { result ≡ is_beside_lem columns c d }
{
    (c / columns == d / columns && is_close(c % columns, d % columns))
        || (c % columns == d % columns && is_close(c / columns, d / columns))
}

// The cells beside cell `c`, and itself, in ascending order.
fn cells_beside(alloc: Global, cells: u8, columns: u8, c: u8) -> Result<Vec<u8>, AllocFailed<u8>>
    requires { 1 ≤ columns }
    ensures { IfOk result (λ row. row.items ≡ filter (is_beside_lem columns c) (range_with_len 0 cells)) }
{
    let mut row = Vec::new(alloc);
    for d in 0..cells {
        if is_beside(columns, c, d) {
            row.push(d)?;
        }
    }
    Ok(row)
}

/// Per cell of so many rows and columns, the cells beside it, and itself.
pub(crate) fn all_beside(alloc: Global, rows: u8, columns: u8) -> Result<Vec<Vec<u8>>, GridFault>
    requires some_row { 1 ≤ rows }
    requires some_column { 1 ≤ columns }
    requires few { rows * columns ≤ 200 }
    ensures made { IfOk result (λ lists. map (λ row. row.items) lists.items ≡ side_moves rows columns) }
    ensures no_memory { IfErr result (λ fault. fault ≡ NoMemory) }
{
    let cells = rows * columns;
    let mut lists = Vec::new(alloc);
    for c in 0..cells {
        lists.push(cells_beside(alloc, cells, columns, c)?)?;
    }
    Ok(lists)
}

/// The moves of some cells of small grids, worked by hand.
pub fn worked_sides()
    ensures { WorkedSides }
{}
