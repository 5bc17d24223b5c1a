//! Drift rows that spread a part over a cell's moves.

ghost use Rattle.std.specs.Prelude.{◌≡◌, ◌≤◌, ◌*◌, ◌-◌, ◌==◌, if◌then◌else◌, length, IfOk};
ghost use Rattle.search_model.specs.Grids.{rest_of as rest_lem, spread_row as spread_row_lem};

use drift_chain::DriftPart;
use std::alloc::{AllocError, Global};

// What stays in a cell of so many moves, one of them to itself, where the part goes to each of the others.
fn rest_of(denominator: u32, part: u32, moves: usize) -> u32
    requires { part * (moves - 1) ≤ denominator }
    ensures { result ≡ rest_lem denominator part moves }
{
    let taken = u128::from(part) * (moves.saturating_sub(1) as u128);
    (u128::from(denominator) - taken) as u32
}

// The part that goes to cell `m` from cell `c`, in which the rest stays.
fn part_to(c: u8, rest: u32, part: u32, m: u8) -> u32
    ensures { result ≡ (if m == c then rest else part) }
{
    if m == c { rest } else { part }
}

/// The drift row of cell `c` with these moves: the part goes to each of them but `c`, and the rest stays. No part of 0
/// stands in the row.
#[tactic(auto, unfolding(crate::specs::Grids::spread_row))]
pub fn spread_row(
    alloc: Global,
    denominator: u32,
    part: u32,
    c: u8,
    moves: &[u8],
) -> Result<Vec<DriftPart>, AllocError>
    requires { part * (length moves.now - 1) ≤ denominator }
    ensures { IfOk result (λ row. row.items ≡ spread_row_lem denominator part c moves.now) }
{
    let rest = rest_of(denominator, part, moves.len());
    moves
        .iter()
        .map(|m| DriftPart {
            cell: *m,
            part: part_to(c, rest, part, *m),
        })
        .filter(|entry| entry.part > 0)
        .collect(alloc)
}
