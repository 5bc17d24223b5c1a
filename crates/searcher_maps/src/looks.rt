//! Looks that are given period by period.

ghost use Rattle.std.specs.Prelude.{◌≡◌, ℕ, ◌+◌, ◌<◌, ◌≤◌, ◌++◌, length, map, IfOk, OnOk, All};
ghost use Rattle.period_rows.specs.declared.part.CellPart.{CellPart as LookPart};
ghost use Rattle.sweep_table.specs.LookParts.{look_row, positions_of, cells_of, IsSweep};
ghost use Rattle.period_rows.specs.Changes.{change_of};
ghost use Rattle.searcher_maps.specs.Periods.{rows_by_period, positions_given, row_given, AreLookRows};
ghost use Rattle.searcher_maps.specs.Differing.{changes_at, changes_in, later_changes};

use exact_parts::NoMemory;
use period_rows::{GivenChange, is_same_row};
use std::alloc::Global;
use sweep_table::{LookPart, Sweep};

// The row from position `a` in period `t`.
fn row_at(periods: &[Vec<Vec<LookPart>>], t: u32, a: u8) -> &[LookPart]
    requires first { 1 ≤ t }
    requires last { t ≤ length periods.now }
    requires same { let given = rows_by_period periods.now in All (λ rows. length rows ≡ positions_given given) given }
    requires position { a < positions_given (rows_by_period periods.now) }
    ensures { result.now ≡ row_given (rows_by_period periods.now) t a }
{
    &periods[t as usize - 1][a as usize]
}

// Adds the change of a position in one period, if its row isn't that of period 1.
fn add_change(
    alloc: Global,
    changes: &mut Vec<GivenChange>,
    periods: &[Vec<Vec<LookPart>>],
    t: u32,
    a: u8,
) -> Result<(), NoMemory>
    requires first { 1 ≤ t }
    requires last { t ≤ length periods.now }
    requires same { let given = rows_by_period periods.now in All (λ rows. length rows ≡ positions_given given) given }
    requires position { a < positions_given (rows_by_period periods.now) }
    ensures { OnOk result (map change_of changes.new.items ≡
        map change_of changes.old.items ++ changes_at (row_given (rows_by_period periods.now)) t a) }
{
    let row = row_at(periods, t, a);
    if is_same_row(row, row_at(periods, 1, a)) {
        return Ok(());
    }
    changes.push(GivenChange {
        period: t,
        owner: a,
        row: Vec::from_slice(alloc, row)?,
    })?;
    Ok(())
}

// Adds the changes of one period to those of earlier ones.
fn add_period(
    alloc: Global,
    changes: &mut Vec<GivenChange>,
    periods: &[Vec<Vec<LookPart>>],
    t: u32,
    positions: u8,
) -> Result<(), NoMemory>
    requires first { 1 ≤ t }
    requires last { t ≤ length periods.now }
    requires same { let given = rows_by_period periods.now in All (λ rows. length rows ≡ positions_given given) given }
    requires positions { positions ≡ positions_given (rows_by_period periods.now) }
    ensures { OnOk result (map change_of changes.new.items ≡
        map change_of changes.old.items ++ changes_in (row_given (rows_by_period periods.now)) t positions) }
{
    for a in 0..positions {
        add_change(alloc, changes, periods, t, a)?;
    }
    Ok(())
}

// The rows of later periods that aren't those of period 1.
fn later_rows(
    alloc: Global,
    periods: &[Vec<Vec<LookPart>>],
    positions: u8,
) -> Result<Vec<GivenChange>, NoMemory>
    requires few { length periods.now ≤ 32 }
    requires same { let given = rows_by_period periods.now in All (λ rows. length rows ≡ positions_given given) given }
    requires positions { positions ≡ positions_given (rows_by_period periods.now) }
    ensures { IfOk result (λ changes. map change_of changes.items ≡
        later_changes (row_given (rows_by_period periods.now)) positions (length periods.now + 1)) }
{
    let mut changes = Vec::new(alloc);
    for t in 2..periods.len() as u32 + 1 {
        add_period(alloc, &mut changes, periods, t, positions)?;
    }
    Ok(changes)
}

/// The table of looks over so many cells whose row from position `a` in period `t` is `rows[t - 1][a]`, in each period
/// that is given.
///
/// The only error is that memory ran out.
pub fn looks_by_period(
    alloc: Global,
    denominator: u32,
    cells: u8,
    mut rows: Vec<Vec<Vec<LookPart>>>,
) -> Result<Sweep, NoMemory>
    requires some { 1 ≤ denominator }
    requires few { denominator ≤ 1000000 }
    requires some_cell { 1 ≤ cells }
    requires few_cells { cells ≤ 200 }
    requires rows { AreLookRows denominator cells (rows_by_period rows.items) }
    ensures size { IfOk result (λ sweep. positions_of sweep ≡ positions_given (rows_by_period rows.items)) }
    ensures cells { IfOk result (λ sweep. cells_of sweep ≡ cells) }
    ensures denominator { IfOk result (λ sweep. sweep.denominator ≡ denominator) }
    ensures rows { IfOk result (λ sweep. (t a : ℕ) → 1 ≤ t → t ≤ length rows.items →
        a < positions_given (rows_by_period rows.items) → look_row sweep t a ≡ row_given (rows_by_period rows.items) t a) }
    ensures sound { IfOk result IsSweep }
{
    let positions = rows[0].len() as u8;
    let changes = later_rows(alloc, &rows, positions)?;
    let base = Sweep::of_right_rows(denominator, cells, rows.swap_remove(0));
    Ok(base.with_right_rows(alloc, changes)?)
}
