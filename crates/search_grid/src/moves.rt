//! The lists of moves.

ghost use Rattle.std.specs.Prelude.{◌≡◌, ℕ, ◌<◌, ◌≤◌, ◌*◌, ◌↔◌, length, map, IsTrue, IsOk, IfOk, IfErr, Contains};

use crate::faults::{GridFault, put_in_order};
use crate::sides::all_beside;
use std::alloc::Global;
use std::marker::Model;

/// Per position, its moves in ascending order. What is called a cell here is a position, in `cells`, too: the names are
/// older than positions that are no cells.
#[derive(Debug, Drop)]
pub struct Grid {
    rows: Vec<Vec<u8>>,
}

impl Model for Grid {
    ghost use Rattle.std.specs.Prelude.{List, ℕ, map};
    ghost use Rattle.search_grid.specs.Moves.{IsGrid};

    ghost Value = { List (List ℕ) };

    ghost view = { λ g. map (λ row. row.items) g.rows.items };

    ghost invariant = { λ g. IsGrid (map (λ row. row.items) g.rows.items) };
}

impl Grid {
    ghost use Rattle.std.specs.Prelude.{Ok};
    ghost use Rattle.search_grid.specs.Moves.{IsGrid, moves_from};
    ghost use Rattle.search_grid.specs.Sides.{side_moves};
    ghost use Rattle.search_grid.specs.declared.faults.GridFault.TheVariants.{NoMemory};
    ghost use Rattle.search_grid.specs.Faults.{HasSameMoves, HasFault, IsFirstFault};

    /// Makes the grid whose cell `c` has the moves `rows[c]`, which it puts in ascending order.
    ///
    /// The error is `CellCount`, or else the fault of the least cell that has one, and of its faults the
    /// first in the order of the variants. Takes no memory.
    pub fn new(mut rows: Vec<Vec<u8>>) -> Result<Grid, GridFault>
        ensures made { let given = map (λ row. row.items) rows.items in IfOk result (HasSameMoves given) }
        ensures sound { IfOk result IsGrid }
        ensures faultless { let given = map (λ row.
            row.items) rows.items in IsOk result ↔ ((fault : GridFault) → HasFault given fault → ⊥) }
        ensures fault { let given = map (λ row. row.items) rows.items in IfErr result (IsFirstFault given) }
        ensures kept { let given = map (λ row. row.items) rows.items in IsGrid given → result ≡ Ok given }
    {
        put_in_order(&mut rows)?;
        Ok(Grid { rows })
    }

    /// The grid of rows that are right as they stand.
    pub fn of_right(rows: Vec<Vec<u8>>) -> Grid
        requires { IsGrid (map (λ row. row.items) rows.items) }
        ensures { result ≡ map (λ row. row.items) rows.items }
    {
        Grid { rows }
    }

    /// Makes the grid of so many rows and columns, counted row by row from 0: from a cell the searcher stays, or goes
    /// one cell up, down, left or right.
    ///
    /// The only error is `NoMemory`.
    pub fn four_neighbour(alloc: Global, rows: u8, columns: u8) -> Result<Grid, GridFault>
        requires some_row { 1 ≤ rows }
        requires some_column { 1 ≤ columns }
        requires few { rows * columns ≤ 200 }
        ensures made { IfOk result (λ grid. grid ≡ side_moves rows columns) }
        ensures sound { IfOk result IsGrid }
        ensures no_memory { IfErr result (λ fault. fault ≡ NoMemory) }
    {
        let rows = all_beside(alloc, rows, columns)?;
        Ok(Grid { rows })
    }

    /// The number of cells.
    pub fn cells(&self) -> u8
        ensures value { result ≡ length self.now }
        ensures sound { IsGrid self.now }
    {
        self.rows.len() as u8
    }

    /// The moves of cell `c`, in ascending order.
    pub fn moves(&self, c: u8) -> &[u8]
        requires { c < length self.now }
        ensures value { result.now ≡ moves_from self.now c }
        ensures sound { IsGrid self.now }
    {
        &self.rows[c as usize]
    }

    /// Whether cell `d` is a move of cell `c`.
    pub fn is_move(&self, c: u8, d: u8) -> bool
        requires { c < length self.now }
        ensures value { IsTrue result ↔ Contains (moves_from self.now c) d }
        ensures sound { IsGrid self.now }
    {
        self.moves(c).contains(&d)
    }
}
