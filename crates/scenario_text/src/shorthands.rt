//! Lines that say something of all cells at once: `grid`, `spread` and `rate`.

ghost use Rattle.std.specs.Prelude.{◌≡◌, ◌≤◌, ◌+◌, ◌*◌, ◌-◌, ◌++◌, ◌∷◌, [], nat_lt, map, replicate, length, is_some, true, false, Ok, IfOk, OnOk};
ghost use Rattle.std.specs.Fmt.{decimal};
ghost use Rattle.std.specs.List.{list_any, range_with_len};
ghost use Rattle.search_grid.specs.Sides.{side_moves};
ghost use Rattle.search_model.specs.Grids.{grid_name as grid_name_lem, grid_names as grid_names_lem, spread_rows as spread_rows_lem};
ghost use Rattle.scenario_text.specs.State.{state_of};
ghost use Rattle.scenario_text.specs.Sound.{IsSound};
ghost use Rattle.scenario_text.specs.Gives.{TakesLine};
ghost use Rattle.scenario_text.specs.Grammar.{row_at, with_cells};

use crate::digits::Digits;
use crate::draft::{Draft, Stage};
use crate::kind::TextKind;
use crate::line::Line;
use crate::number_field::{MOST_PART, is_bad, is_over, number_at, number_in};
use crate::stop::LineStop;
use crate::taking::push_no_parts;
use drift_chain::DriftPart;
use indexmap::IndexSet;
use search_grid::Grid;
use search_model::spread_row;
use std::alloc::{AllocError, Global};

// The most rows, and columns, of a grid.
const MOST_SIDE: u128 = 200;

// Adds a letter and a number.
fn push_numbered(name: &mut Vec<u8>, letter: u8, number: u8) -> Result<(), AllocError>
    ensures { OnOk result (name.new.items ≡ name.old.items ++ letter ∷ decimal number) }
{
    name.push(letter)?;
    name.extend_from_slice(Digits::of(u32::from(number)).bytes())?;
    Ok(())
}

fn grid_name(alloc: Global, cols: u8, c: u8) -> Result<Vec<u8>, AllocError>
    requires { 1 ≤ cols }
    ensures { IfOk result (λ name. name.items ≡ grid_name_lem cols c) }
{
    let mut name = Vec::new(alloc);
    push_numbered(&mut name, b'r', c / cols)?;
    push_numbered(&mut name, b'c', c % cols)?;
    Ok(name)
}

// Adds the name of the next cell.
fn push_grid_name(
    alloc: Global,
    names: &mut IndexSet<Vec<u8>>,
    cols: u8,
    c: u8,
) -> Result<(), AllocError>
    requires some { 1 ≤ cols }
    requires before { map (λ n. n.items) names.old.keys ≡ map (grid_name_lem cols) (range_with_len 0 c) }
    ensures { OnOk result (map (λ n. n.items) names.new.keys ≡ map (grid_name_lem cols) (range_with_len 0 (c + 1))) }
{
    let name = grid_name(alloc, cols, c)?;
    names.insert(name)?;
    Ok(())
}

fn grid_names(alloc: Global, rows: u8, cols: u8) -> Result<IndexSet<Vec<u8>>, AllocError>
    requires some { (1 ≤ rows) × (1 ≤ cols) }
    requires few { rows * cols ≤ 200 }
    ensures { IfOk result (λ names. map (λ n. n.items) names.keys ≡ grid_names_lem rows cols) }
{
    let mut names = IndexSet::new(alloc);
    for c in 0..rows * cols {
        push_grid_name(alloc, &mut names, cols, c)?;
    }
    Ok(names)
}

fn rows_of(alloc: Global, grid: &Grid) -> Result<Vec<Vec<u8>>, AllocError>
    ensures { IfOk result (λ rows. map (λ row. row.items) rows.items ≡ grid.now) }
{
    let mut rows = Vec::new(alloc);
    for c in 0..grid.cells() {
        let mut row = Vec::new(alloc);
        row.extend_from_slice(grid.moves(c))?;
        rows.push(row)?;
    }
    Ok(rows)
}

fn no_parts(alloc: Global, cells: u8) -> Result<Vec<Vec<DriftPart>>, AllocError>
    ensures { IfOk result (λ rows. map (λ row. row.items) rows.items ≡ replicate cells []) }
{
    let mut rows = Vec::new(alloc);
    for _ in 0..cells {
        push_no_parts(alloc, &mut rows)?;
    }
    Ok(rows)
}

// The cells of this grid, with no rows but those of their moves.
fn set_cells_of(
    alloc: Global,
    draft: &mut Draft,
    rows: u8,
    cols: u8,
    grid: &Grid,
) -> Result<(), LineStop>
    requires some { (1 ≤ rows) × (1 ≤ cols) }
    requires few { rows * cols ≤ 200 }
    requires sides { grid.now ≡ side_moves rows cols }
    ensures { TakesLine draft.new result (Ok (with_cells (state_of draft.old) rows cols)) }
{
    draft.names = grid_names(alloc, rows, cols)?;
    draft.moves = rows_of(alloc, grid)?;
    draft.parts = no_parts(alloc, rows * cols)?;
    draft.overlook = vec![in alloc; None; (rows * cols) as usize]?;
    draft.gridded = true;
    draft.stage = Stage::Start;
    Ok(())
}

fn set_cells(alloc: Global, draft: &mut Draft, rows: u8, cols: u8) -> Result<(), LineStop>
    requires some { (1 ≤ rows) × (1 ≤ cols) }
    requires few { rows * cols ≤ 200 }
    ensures { TakesLine draft.new result (Ok (with_cells (state_of draft.old) rows cols)) }
{
    match Grid::four_neighbour(alloc, rows, cols) {
        Ok(grid) => set_cells_of(alloc, draft, rows, cols, &grid),
        Err(_) => Err(LineStop::NoMemory),
    }
}

fn set_grid(alloc: Global, draft: &mut Draft, rows: &[u8], cols: &[u8]) -> Result<(), LineStop>
    ensures { TakesLine draft.new result (row_at Line.Grid (state_of draft.old) (rows.now ∷ cols.now ∷ [])) }
{
    let rows = number_at(rows, MOST_SIDE);
    let cols = number_at(cols, MOST_SIDE);
    if is_bad(rows, 1) || is_bad(cols, 1) {
        return Err(LineStop::Fault(TextKind::BadNumber));
    }
    if is_over(rows) || is_over(cols) {
        return Err(LineStop::Fault(TextKind::OverLimit));
    }
    let (rows, cols) = (number_in(rows), number_in(cols));
    if rows * cols > 200 {
        return Err(LineStop::Fault(TextKind::OverLimit));
    }
    set_cells(alloc, draft, rows as u8, cols as u8)
}

/// `grid R C`
pub fn take_grid(alloc: Global, draft: &mut Draft, fields: &[&[u8]]) -> Result<(), LineStop>
    ensures { TakesLine draft.new result (row_at Line.Grid (state_of draft.old) (map (λ f. f.now) fields.now)) }
{
    match fields {
        [rows, cols] => set_grid(alloc, draft, rows, cols),
        _ => Err(LineStop::Fault(TextKind::BadLine)),
    }
}

// Whether so many side neighbours take more than the denominator.
fn takes_more(denominator: u32, part: u32, moves: usize) -> bool
    ensures { result ≡ nat_lt denominator (part * (moves - 1)) }
{
    u128::from(denominator) < u128::from(part) * (moves.saturating_sub(1) as u128)
}

fn any_takes_more(rows: &[Vec<u8>], denominator: u32, part: u32) -> bool
    ensures { result ≡ list_any (λ row. nat_lt denominator (part * (length row.items - 1))) rows.now }
{
    rows.iter()
        .any(|row| takes_more(denominator, part, row.len()))
}

fn any_parts(rows: &[Vec<DriftPart>]) -> bool
    ensures { result ≡ list_any (λ row. nat_lt 0 (length row.items)) rows.now }
{
    rows.iter().any(|row| !row.is_empty())
}

fn spread_rows(
    alloc: Global,
    denominator: u32,
    part: u32,
    moves: &[Vec<u8>],
) -> Result<Vec<Vec<DriftPart>>, AllocError>
    requires few { length moves.now ≤ 200 }
    requires enough { list_any (λ row. nat_lt denominator (part * (length row.items - 1))) moves.now ≡ false }
    ensures { IfOk result (λ rows.
        map (λ row. row.items) rows.items ≡ spread_rows_lem denominator part (map (λ row. row.items) moves.now)) }
{
    let mut rows = Vec::new(alloc);
    for (c, row) in moves.iter().enumerate() {
        rows.push(spread_row(alloc, denominator, part, c as u8, row)?)?;
    }
    Ok(rows)
}

fn set_spread(alloc: Global, draft: &mut Draft, field: &[u8]) -> Result<(), LineStop>
    requires sound { IsSound (state_of draft.old) }
    requires gridded { draft.old.gridded ≡ true }
    ensures { TakesLine draft.new result (row_at Line.Spread (state_of draft.old) (field.now ∷ [])) }
{
    let number = number_at(field, MOST_PART);
    if is_bad(number, 0) {
        return Err(LineStop::Fault(TextKind::BadNumber));
    }
    if is_over(number) {
        return Err(LineStop::Fault(TextKind::OverLimit));
    }
    let part = number_in(number);
    if any_parts(&draft.parts) {
        return Err(LineStop::Fault(TextKind::DoubleRow));
    }
    if any_takes_more(&draft.moves, draft.drift, part) {
        return Err(LineStop::Fault(TextKind::WrongSum));
    }
    draft.parts = spread_rows(alloc, draft.drift, part, &draft.moves)?;
    Ok(())
}

/// `spread PART`
pub fn take_spread(alloc: Global, draft: &mut Draft, fields: &[&[u8]]) -> Result<(), LineStop>
    requires { IsSound (state_of draft.old) }
    ensures { TakesLine draft.new result (row_at Line.Spread (state_of draft.old) (map (λ f. f.now) fields.now)) }
{
    match fields {
        [part] if draft.gridded => set_spread(alloc, draft, part),
        _ => Err(LineStop::Fault(TextKind::BadLine)),
    }
}

fn any_overlook(parts: &[Option<u32>]) -> bool
    ensures { result ≡ list_any (λ o. is_some o) parts.now }
{
    parts.iter().any(|o| o.is_some())
}

fn set_rate(alloc: Global, draft: &mut Draft, field: &[u8]) -> Result<(), LineStop>
    ensures { TakesLine draft.new result (row_at Line.Rate (state_of draft.old) (field.now ∷ [])) }
{
    let number = number_at(field, MOST_PART);
    if is_bad(number, 0) {
        return Err(LineStop::Fault(TextKind::BadNumber));
    }
    if is_over(number) {
        return Err(LineStop::Fault(TextKind::OverLimit));
    }
    let part = number_in(number);
    if any_overlook(&draft.overlook) {
        return Err(LineStop::Fault(TextKind::DoubleRow));
    }
    if part > draft.look {
        return Err(LineStop::Fault(TextKind::PartOver));
    }
    draft.overlook = vec![in alloc; Some(part); draft.names.len()]?;
    Ok(())
}

/// `rate PART`
pub fn take_rate(alloc: Global, draft: &mut Draft, fields: &[&[u8]]) -> Result<(), LineStop>
    ensures { TakesLine draft.new result (row_at Line.Rate (state_of draft.old) (map (λ f. f.now) fields.now)) }
{
    match fields {
        [part] => set_rate(alloc, draft, part),
        _ => Err(LineStop::Fault(TextKind::BadLine)),
    }
}
