//! Lists of the positions within reach of another.

ghost use Rattle.std.specs.Prelude.{◌≡◌, ◌↔◌, ◌+◌, ◌<◌, ◌≤◌, ◌∷◌, [], ℕ, length, All, Contains, IfOk};
ghost use Rattle.longest_walk.specs.Near.{IsNear, AreMarks, IsJoined, IsGrown, IsNearRow, IsLevel, AreNear};

use exact_parts::NoMemory;
use search_grid::Grid;
use std::alloc::Global;
use std::marker::Model;

// The positions near one of them, the nearer ones first, and for each number of moves how many are within it.
#[derive(Drop)]
struct NearRow {
    order: Vec<u8>,
    counts: Vec<usize>,
}

impl Model for NearRow {
    ghost use Rattle.longest_walk.specs.Near.{NearRow as NearState};

    ghost Value = { NearState };

    ghost view = { λ r. record { order = r.order.items; counts = r.counts.items } };
}

/// For each position the positions within reach of it, move by move. Made once for a grid and a number of moves.
#[derive(Drop)]
pub struct Near {
    rows: Vec<NearRow>,
}

impl Model for Near {
    ghost use Rattle.std.specs.Prelude.{List};
    ghost use Rattle.longest_walk.specs.Near.{NearRow as NearState};

    ghost Value = { List NearState };

    ghost view = { λ n. n.rows.items };
}

// Adds a position where it isn't there yet.
fn add_move(order: &mut Vec<u8>, marks: &mut [bool], v: u8) -> Result<(), NoMemory>
    requires inside { v < length marks.old }
    requires marked { AreMarks order.old.items marks.old }
    ensures joined { IfOk result (λ _. IsJoined order.old.items (v ∷ []) order.new.items) }
    ensures marked { IfOk result (λ _. AreMarks order.new.items marks.new) }
    ensures size { length marks.new ≡ length marks.old }
{
    if !marks[usize::from(v)] {
        marks[usize::from(v)] = true;
        order.push(v)?;
    }
    Ok(())
}

// Adds those of some moves that aren't there yet.
fn add_moves(order: &mut Vec<u8>, marks: &mut [bool], moves: &[u8]) -> Result<(), NoMemory>
    requires inside { All (λ v. v < length marks.old) moves.now }
    requires marked { AreMarks order.old.items marks.old }
    ensures joined { IfOk result (λ _. IsJoined order.old.items moves.now order.new.items) }
    ensures marked { IfOk result (λ _. AreMarks order.new.items marks.new) }
    ensures size { length marks.new ≡ length marks.old }
{
    for v in moves {
        add_move(order, marks, *v)?;
    }
    Ok(())
}

// Adds the moves of the positions from a place on.
fn grow(order: &mut Vec<u8>, marks: &mut [bool], grid: &Grid, from: usize) -> Result<(), NoMemory>
    requires inside { All (λ u. u < length grid.now) order.old.items }
    requires marks { length marks.old ≡ length grid.now }
    requires marked { AreMarks order.old.items marks.old }
    requires place { from ≤ length order.old.items }
    ensures grown { IfOk result (λ _.
        IsGrown grid.now from (length order.old.items) order.old.items order.new.items) }
    ensures marked { IfOk result (λ _. AreMarks order.new.items marks.new) }
    ensures size { length marks.new ≡ length marks.old }
{
    for i in from..order.len() {
        add_moves(order, marks, grid.moves(order[i]))?;
    }
    Ok(())
}

// Goes on to the positions within one move more.
fn add_level(
    row: &mut NearRow,
    marks: &mut [bool],
    grid: &Grid,
    a: u8,
    n: u32,
    from: usize,
) -> Result<(), NoMemory>
    requires position { a < length grid.now }
    requires level { IsLevel grid.now n a from row.old }
    requires marks { length marks.old ≡ length grid.now }
    requires marked { AreMarks row.old.order marks.old }
    ensures level { IfOk result (λ _. IsLevel grid.now (n + 1) a (length row.old.order) row.new) }
    ensures marked { IfOk result (λ _. AreMarks row.new.order marks.new) }
    ensures size { length marks.new ≡ length marks.old }
{
    let _level = (a, n);
    let _positions = grid.cells();
    grow(&mut row.order, marks, grid, from)?;
    row.counts.push(row.order.len())?;
    Ok(())
}

// Goes on to the positions within so many moves.
fn add_levels(
    row: &mut NearRow,
    marks: &mut [bool],
    grid: &Grid,
    a: u8,
    most: u32,
) -> Result<(), NoMemory>
    requires position { a < length grid.now }
    requires level { IsLevel grid.now 0 a 0 row.old }
    requires marks { length marks.old ≡ length grid.now }
    requires marked { AreMarks row.old.order marks.old }
    ensures near { IfOk result (λ _. IsNearRow grid.now most a row.new) }
{
    let mut from = 0;
    for n in 0..most {
        let last = row.order.len();
        add_level(row, marks, grid, a, n, from)?;
        from = last;
    }
    Ok(())
}

// The row of a position alone, with room for those within so many moves.
fn first_row(
    alloc: Global,
    marks: &mut [bool],
    grid: &Grid,
    a: u8,
    most: u32,
) -> Result<NearRow, NoMemory>
    requires position { a < length grid.now }
    requires marks { length marks.old ≡ length grid.now }
    requires marked { AreMarks [] marks.old }
    ensures level { IfOk result (λ row. IsLevel grid.now 0 a 0 row) }
    ensures marked { IfOk result (λ row. AreMarks row.order marks.new) }
    ensures size { length marks.new ≡ length marks.old }
{
    let mut order = Vec::with_capacity(alloc, usize::from(grid.cells()))?;
    add_move(&mut order, marks, a)?;
    let mut counts = Vec::with_capacity(alloc, most as usize + 1)?;
    counts.push(order.len())?;
    Ok(NearRow { order, counts })
}

// The row of a position, for up to so many moves.
fn near_row(alloc: Global, grid: &Grid, a: u8, most: u32) -> Result<NearRow, NoMemory>
    requires { a < length grid.now }
    ensures { IfOk result (IsNearRow grid.now most a) }
{
    let mut marks = vec![in alloc; false; usize::from(grid.cells())]?;
    let mut row = first_row(alloc, &mut marks, grid, a, most)?;
    add_levels(&mut row, &mut marks, grid, a, most)?;
    Ok(row)
}

impl Near {
    /// The lists for all positions of a grid, for up to so many moves. Only this call takes memory.
    pub fn tables(alloc: Global, grid: &Grid, most: u32) -> Result<Near, NoMemory>
        ensures { IfOk result (AreNear grid.now most) }
    {
        let mut rows = Vec::new(alloc);
        for a in 0..grid.cells() {
            rows.push(near_row(alloc, grid, a, most)?)?;
        }
        Ok(Near { rows })
    }

    /// The positions within `n` moves of a position, the nearer ones first.
    pub fn within(&self, grid: &Grid, a: u8, n: u32) -> &[u8]
        requires position { a < length grid.now }
        requires made { (most : ℕ) × AreNear grid.now most self.now × (n ≤ most) }
        ensures { (u : ℕ) → Contains result.now u ↔ IsNear grid.now n a u }
    {
        let _among = grid;
        let row = &self.rows[usize::from(a)];
        &row.order[..row.counts[n as usize]]
    }
}
