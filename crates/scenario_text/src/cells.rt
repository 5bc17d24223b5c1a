//! The cells, or the positions, that the names of a line stand for.

ghost use Rattle.std.specs.Prelude.{◌≡◌, ◌≤◌, ◌==◌, ◌&&◌, map, length, is_none, is_some, unwrap_or, IfOk};
ghost use Rattle.std.specs.List.{list_any};
ghost use Rattle.scenario_text.specs.Fields.{cell_named as cell_named_lem};
ghost use Rattle.scenario_text.specs.ByCells.{stands_in as stands_lem, has_double as double_lem};

use crate::cell_names::cell_named;
use indexmap::IndexSet;
use std::alloc::{AllocError, Global};

/// The cells of these names.
#[tactic(auto, using(crate::proofs::Positions::names_steps))]
pub fn cells_named(
    alloc: Global,
    names: &IndexSet<Vec<u8>>,
    fields: &[&[u8]],
) -> Result<Vec<Option<u8>>, AllocError>
    requires { length names.now.keys ≤ 200 }
    ensures { IfOk result (λ v.
        v.items ≡ map (cell_named_lem (map (λ n. n.items) names.now.keys)) (map (λ f. f.now) fields.now)) }
{
    fields
        .iter()
        .map(|name| cell_named(names, name))
        .collect(alloc)
}

fn is_cell(cell: Option<u8>, c: u8) -> bool
    ensures { result ≡ (is_some cell && (unwrap_or cell 0 == c)) }
{
    match cell {
        None => false,
        Some(d) => d == c,
    }
}

fn has_cell(others: &[Option<u8>], c: u8) -> bool
    ensures { result ≡ list_any (λ d. is_some d && (unwrap_or d 0 == c)) others.now }
{
    others.iter().any(|d| is_cell(*d, c))
}

fn stands_in(cell: Option<u8>, others: &[Option<u8>]) -> bool
    ensures { result ≡ stands_lem cell others.now }
{
    match cell {
        None => false,
        Some(c) => has_cell(others, c),
    }
}

/// Whether a cell stands twice.
#[tactic(auto, using(crate::proofs::Doubles::double_steps))]
pub fn has_double(cells: &[Option<u8>]) -> bool
    ensures { result ≡ double_lem cells.now }
{
    for (i, cell) in cells.iter().enumerate() {
        if stands_in(*cell, &cells[i + 1..]) {
            return true;
        }
    }
    false
}

/// The numbers of cells, of which each is one.
pub fn numbers_of(alloc: Global, cells: &[Option<u8>]) -> Result<Vec<u8>, AllocError>
    ensures { IfOk result (λ v. v.items ≡ map (λ c. unwrap_or c 0) cells.now) }
{
    cells.iter().map(|c| c.unwrap_or(0)).collect(alloc)
}
