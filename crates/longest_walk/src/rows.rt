//! The rows of the table, one for each period, with one sum for each position.

ghost use Rattle.std.specs.Prelude.{◌≡◌, ℕ, ◌+◌, ◌-◌, ◌*◌, ◌^◌, ◌<◌, ◌≤◌, List, length, drop, slice_index, All, Contains};
ghost use Rattle.std.specs.List.Sorted.{IsStrictlyIncreasing};
ghost use Rattle.search_grid.specs.Moves.{moves_from};
ghost use Rattle.search_model.specs.Bounds.{greatest};
ghost use Rattle.search_model.specs.Order.{Starts};
ghost use Rattle.longest_walk.specs.Sums.{entry_at, highest_sum};
ghost use Rattle.search_model.specs.Reference.{IsLeastBest};
ghost use Rattle.longest_walk.specs.Near.{AreNear};
ghost use Rattle.longest_walk.specs.Tables.{HasSums, HasNear, HasSumsNear};
ghost use Rattle.longest_walk.specs.Rows.{sums_at, IsLeastMove};

use crate::near::Near;
use search_grid::Grid;
use search_model::Path;

/// The greatest sum among some positions, in the row that starts at `row`.
pub(crate) fn greatest_at(sums: &[u128], row: usize, moves: &[u8]) -> u128
    requires { All (λ d. row + d < length sums.now) moves.now }
    ensures { result ≡ greatest (sums_at sums.now row moves.now) }
{
    let mut best = 0;
    for d in moves {
        best = sums[row + usize::from(*d)].max(best);
    }
    best
}

/// The first of some positions that have the greatest sum among them, in the row that starts at `row`.
pub fn least_move(sums: &[u128], row: usize, moves: &[u8]) -> u8
    requires some { 1 ≤ length moves.now }
    requires within { All (λ d. row + d < length sums.now) moves.now }
    requires ascending { IsStrictlyIncreasing moves.now }
    ensures { IsLeastMove sums.now row moves.now result }
{
    let mut best = 0;
    for i in 1..moves.len() {
        if sums[row + usize::from(moves[i])] > sums[row + usize::from(moves[best])] {
            best = i;
        }
    }
    moves[best]
}

// Fills the row that starts at `here` from the row of the period after it, which starts at `next`.
fn fill_row(sums: &mut [u128], grid: &Grid, rewards: &[u128], here: usize, next: usize)
    requires order { here + length grid.now ≤ next }
    requires rewards { here + length grid.now ≤ length rewards.now }
    requires sums { next + length grid.now ≤ length sums.old }
    requires fits { (c : ℕ) → c < length grid.now
        → slice_index rewards.now (here + c) + greatest (sums_at sums.old next (moves_from grid.now c)) < 2 ^ 128 }
    ensures row { (c : ℕ) → c < length grid.now
        → slice_index sums.new (here + c) ≡
        slice_index rewards.now (here + c) + greatest (sums_at sums.old next (moves_from grid.now c)) }
    ensures later { (i : ℕ) → next ≤ i → slice_index sums.new i ≡ slice_index sums.old i }
{
    for c in 0..grid.cells() {
        let place = here + usize::from(c);
        sums[place] = rewards[place] + greatest_at(sums, next, grid.moves(c));
    }
}

// Fills the places of some positions in the row that starts at `here` from the row of the period after it, which starts
// at `next`.
fn fill_places(
    sums: &mut [u128],
    grid: &Grid,
    rewards: &[u128],
    some: &[u8],
    here: usize,
    next: usize,
)
    requires inside { All (λ c. c < length grid.now) some.now }
    requires order { here + length grid.now ≤ next }
    requires rewards { here + length grid.now ≤ length rewards.now }
    requires sums { next + length grid.now ≤ length sums.old }
    requires fits { (c : ℕ) → Contains some.now c
        → slice_index rewards.now (here + c) + greatest (sums_at sums.old next (moves_from grid.now c)) < 2 ^ 128 }
    ensures row { (c : ℕ) → Contains some.now c
        → slice_index sums.new (here + c) ≡
        slice_index rewards.now (here + c) + greatest (sums_at sums.old next (moves_from grid.now c)) }
    ensures later { (i : ℕ) → next ≤ i → slice_index sums.new i ≡ slice_index sums.old i }
{
    for c in some {
        let place = here + usize::from(*c);
        sums[place] = rewards[place] + greatest_at(sums, next, grid.moves(*c));
    }
}

// Fills the row of the last period, which starts at `last`: after it comes nothing.
fn fill_last(sums: &mut [u128], rewards: &[u128], last: usize)
    requires last { last ≤ length sums.old }
    requires rewards { length rewards.now ≡ length sums.old }
    ensures { (i : ℕ) → last ≤ i → slice_index sums.new i ≡ slice_index rewards.now i }
{
    sums[last..].copy_from_slice(&rewards[last..]);
}

/// Fills the rows of the periods after `k`, the last one first.
pub(crate) fn fill_rows(sums: &mut [u128], grid: &Grid, rewards: &[u128], horizon: usize, k: usize)
    requires horizon { horizon ≤ 32 }
    requires period { k < horizon }
    requires rewards { length rewards.now ≡ horizon * length grid.now }
    requires sums { length sums.old ≡ horizon * length grid.now }
    requires fits { let positions = length grid.now in highest_sum positions (entry_at positions rewards.now)
        (horizon - k) (k + 1) < 2 ^ 127 }
    ensures { HasSums grid.now (length grid.now) horizon rewards.now k sums.new }
{
    let positions = usize::from(grid.cells());
    fill_last(sums, rewards, (horizon - 1) * positions);
    for t in (k + 1..horizon).rev() {
        fill_row(sums, grid, rewards, (t - 1) * positions, t * positions);
    }
}

/// Fills in the rows of the periods after `k` the places of the positions that are within reach of one then, the last
/// period first.
pub(crate) fn fill_near_rows(
    sums: &mut [u128],
    grid: &Grid,
    near: &Near,
    rewards: &[u128],
    horizon: usize,
    from: u8,
    k: usize,
)
    requires horizon { horizon ≤ 32 }
    requires period { k < horizon }
    requires from { from < length grid.now }
    requires near { AreNear grid.now horizon near.now }
    requires rewards { length rewards.now ≡ horizon * length grid.now }
    requires sums { length sums.old ≡ horizon * length grid.now }
    requires fits { let positions = length grid.now in
        (r : ℕ → ℕ → ℕ) × HasNear grid.now positions horizon r from k rewards.now
        × (highest_sum positions r (horizon - k) (k + 1) < 2 ^ 127) }
    ensures { let positions = length grid.now in
        (r : ℕ → ℕ → ℕ) → HasNear grid.now positions horizon r from k rewards.now
        → HasSumsNear grid.now positions horizon r from k sums.new }
{
    let positions = usize::from(grid.cells());
    fill_last(sums, rewards, (horizon - 1) * positions);
    let first = k + 1;
    for t in (first..horizon).rev() {
        let some = near.within(grid, from, (t - k) as u32);
        fill_places(
            sums,
            grid,
            rewards,
            some,
            (t - 1) * positions,
            t * positions,
        );
    }
}

/// Appends the positions of the least walk of the greatest sum from a position, one least move after another.
pub(crate) fn append_least(sums: &[u128], grid: &Grid, horizon: usize, from: u8, to: &mut Path)
    requires horizon { horizon ≤ 32 }
    requires from { from < length grid.now }
    requires sums { length sums.now ≡ horizon * length grid.now }
    requires room { length to.old ≤ horizon }
    ensures kept { Starts to.old to.new }
    ensures least { let k = length to.old in
        (r : ℕ → ℕ → ℕ) → HasSumsNear grid.now (length grid.now) horizon r from k sums.now
        → IsLeastBest grid.now r (horizon - k) (k + 1) from (drop k to.new) }
{
    let positions = usize::from(grid.cells());
    let mut at = from;
    for t in to.len()..horizon {
        at = least_move(sums, t * positions, grid.moves(at));
        to.push(at);
    }
}
