//! The moves of both.

ghost use Rattle.std.specs.Prelude.{◌≡◌, ◌<◌, ◌≤◌, ◌*◌, ◌++◌, map, All, IfOk, OnOk};
ghost use Rattle.duo_search.specs.Product.{both_at, product_moves};
ghost use Rattle.duo_search.specs.Refusals.{IsSmall};
ghost use Rattle.duo_search.specs.Rows.{product_rows};

use exact_parts::NoMemory;
use search_grid::Grid;
use search_model::Scenario;
use std::alloc::Global;

// Adds all pairs of one move of the first with one of the second's.
fn push_pairs(row: &mut Vec<u8>, positions: u8, first: u8, seconds: &[u8]) -> Result<(), NoMemory>
    requires few { positions ≤ 14 }
    requires first { first < positions }
    requires seconds { All (λ j. j < positions) seconds.now }
    ensures { OnOk result (row.new.items ≡ row.old.items ++ map (both_at positions first) seconds.now) }
{
    for second in seconds {
        row.push(first * positions + *second)?;
    }
    Ok(())
}

// The moves of one position.
#[tactic(auto, unfolding(crate::specs::Product::product_moves))]
fn moves_of_both(alloc: Global, sc: &Scenario, both: u8) -> Result<Vec<u8>, NoMemory>
    requires few { sc.now.positions ≤ 14 }
    requires position { both < sc.now.positions * sc.now.positions }
    ensures { IfOk result (λ row. row.items ≡ product_moves sc.now both) }
{
    let positions = sc.positions();
    let seconds = sc.grid().moves(both % positions);
    let mut row = Vec::new(alloc);
    for first in sc.grid().moves(both / positions) {
        push_pairs(&mut row, positions, *first, seconds)?;
    }
    Ok(row)
}

// The moves of all positions.
fn rows_of_moves(alloc: Global, sc: &Scenario) -> Result<Vec<Vec<u8>>, NoMemory>
    requires { sc.now.positions ≤ 14 }
    ensures { IfOk result (λ rows. map (λ row. row.items) rows.items ≡ product_rows sc.now) }
{
    let positions = sc.positions();
    let mut rows = Vec::new(alloc);
    for both in 0..positions * positions {
        rows.push(moves_of_both(alloc, sc, both)?)?;
    }
    Ok(rows)
}

/// The moves of both, as a grid.
pub(crate) fn grid_of_both(alloc: Global, sc: &Scenario) -> Result<Grid, NoMemory>
    requires { IsSmall sc.now }
    ensures { IfOk result (λ grid. grid ≡ product_rows sc.now) }
{
    sc.recall_sound();
    let rows = rows_of_moves(alloc, sc)?;
    Ok(Grid::of_right(rows))
}
