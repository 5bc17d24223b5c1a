//! The grid of a made scenario, its names, its drift and its looks.

ghost use Rattle.std.specs.Prelude.{◌≡◌, ◌≤◌, ◌<◌, map, length, replicate, All, IfOk};
ghost use Rattle.search_grid.specs.Sides.{side_moves};
ghost use Rattle.drift_chain.specs.DriftRows.{drift_over};
ghost use Rattle.sweep_table.specs.LookParts.{parts_over};
ghost use Rattle.search_model.specs.Grids.{grid_name as grid_name_lem, grid_names as grid_names_lem, spread_rows as spread_rows_lem};

use crate::sizes::{CELLS, DRIFT, LOOK, SIDE};
use drift_chain::{Drift, DriftPart};
use exact_parts::NoMemory;
use search_grid::Grid;
use search_model::{Name, spread_row};
use std::alloc::Global;
use sweep_table::Sweep;

// The name of a cell, and of the position of the same number.
fn grid_name(c: u8) -> Name
    requires { c < CELLS }
    ensures { result ≡ grid_name_lem SIDE c }
{
    match Name::new(&[b'r', b'0' + c / SIDE, b'c', b'0' + c % SIDE]) {
        Some(name) => name,
        None => unreachable!(),
    }
}

/// The names of all cells.
pub fn grid_names(alloc: Global) -> Result<Vec<Name>, NoMemory>
    ensures { IfOk result (λ names. names.items ≡ grid_names_lem SIDE SIDE) }
{
    let mut names = Vec::new(alloc);
    for c in 0..CELLS {
        names.push(grid_name(c))?;
    }
    Ok(names)
}

/// From a cell the searcher stays, or goes to a side neighbour.
pub fn grid(alloc: Global) -> Result<Grid, NoMemory>
    ensures { IfOk result (λ grid. grid ≡ side_moves SIDE SIDE) }
{
    match Grid::four_neighbour(alloc, SIDE, SIDE) {
        Ok(grid) => Ok(grid),
        Err(_) => Err(NoMemory),
    }
}

// The drift rows of all cells.
fn spread_rows(alloc: Global, part: u32, grid: &Grid) -> Result<Vec<Vec<DriftPart>>, NoMemory>
    requires part { part ≤ 3 }
    requires few { All (λ moves. length moves ≤ 5) grid.now }
    ensures { IfOk result (λ rows. map (λ row. row.items) rows.items ≡ spread_rows_lem DRIFT part grid.now) }
{
    let mut rows = Vec::new(alloc);
    for c in 0..grid.cells() {
        rows.push(spread_row(alloc, DRIFT, part, c, grid.moves(c))?)?;
    }
    Ok(rows)
}

/// The part drifts from a cell to each side neighbour, and the rest stays.
pub fn drift(alloc: Global, part: u32, grid: &Grid) -> Result<Drift, NoMemory>
    requires some { 1 ≤ part }
    requires most { part ≤ 3 }
    requires grid { grid.now ≡ side_moves SIDE SIDE }
    ensures { IfOk result (λ drift. drift ≡ drift_over DRIFT (spread_rows_lem DRIFT part (side_moves SIDE SIDE))) }
{
    let rows = spread_rows(alloc, part, grid)?;
    Ok(Drift::of_right(DRIFT, rows))
}

/// A look misses the part of a target in its cell, the same in all cells.
pub fn sweep(alloc: Global, part: u32) -> Result<Sweep, NoMemory>
    requires { part ≤ LOOK }
    ensures { IfOk result (λ sweep. sweep ≡ parts_over LOOK (replicate CELLS part)) }
{
    let overlook = vec![in alloc; part; CELLS as usize]?;
    Ok(Sweep::of_right_parts(LOOK, overlook))
}
