//! A copy of a drift, by its public calls: the rows of period 1, and those of later periods that differ from them.

ghost use Rattle.std.specs.Prelude.{◌≡◌, ℕ, ◌<◌, ◌≤◌, ◌++◌, max, map, IfOk, OnOk};
ghost use Rattle.std.specs.List.{range_with_len};
ghost use Rattle.period_rows.specs.Changes.{change_of};
ghost use Rattle.drift_chain.specs.DriftRows.{row_of, drift_cells};
ghost use Rattle.searcher_maps.specs.Differing.{changes_at, changes_in, later_changes};

use drift_chain::{Drift, DriftPart};
use exact_parts::NoMemory;
use period_rows::{GivenChange, is_same_row};
use std::alloc::Global;

// Adds the change of a cell in one period, if its row isn't that of period 1.
fn add_change(
    alloc: Global,
    changes: &mut Vec<GivenChange>,
    drift: &Drift,
    t: u32,
    c: u8,
) -> Result<(), NoMemory>
    requires first { 1 ≤ t }
    requires last { t ≤ 31 }
    requires cell { c < drift_cells drift.now }
    ensures { OnOk result (map change_of changes.new.items ≡
        map change_of changes.old.items ++ changes_at (row_of drift.now) t c) }
{
    let row = drift.row(t, c);
    if is_same_row(row, drift.row(1, c)) {
        return Ok(());
    }
    changes.push(GivenChange {
        period: t,
        owner: c,
        row: Vec::from_slice(alloc, row)?,
    })?;
    Ok(())
}

// Adds the changes of one period to those of earlier ones.
fn add_period(
    alloc: Global,
    changes: &mut Vec<GivenChange>,
    drift: &Drift,
    t: u32,
) -> Result<(), NoMemory>
    requires first { 1 ≤ t }
    requires last { t ≤ 31 }
    ensures { OnOk result (map change_of changes.new.items ≡
        map change_of changes.old.items ++ changes_in (row_of drift.now) t (drift_cells drift.now)) }
{
    for c in 0..drift.cells() {
        add_change(alloc, changes, drift, t, c)?;
    }
    Ok(())
}

// The rows of the periods up to before the end that aren't those of period 1.
fn later_rows(alloc: Global, drift: &Drift, end: u32) -> Result<Vec<GivenChange>, NoMemory>
    requires { end ≤ 32 }
    ensures { IfOk result (λ changes.
        map change_of changes.items ≡ later_changes (row_of drift.now) (drift_cells drift.now) end) }
{
    let mut changes = Vec::new(alloc);
    for t in 2..end {
        add_period(alloc, &mut changes, drift, t)?;
    }
    Ok(changes)
}

// The rows of period 1.
fn first_rows(alloc: Global, drift: &Drift) -> Result<Vec<Vec<DriftPart>>, NoMemory>
    ensures { IfOk result (λ rows.
        map (λ row. row.items) rows.items ≡ map (row_of drift.now 1) (range_with_len 0 (drift_cells drift.now))) }
{
    let mut rows = Vec::new(alloc);
    for c in 0..drift.cells() {
        rows.push(Vec::from_slice(alloc, drift.row(1, c))?)?;
    }
    Ok(rows)
}

/// A drift with the same rows after each period before the end, and after period 1.
pub(crate) fn copy_of(alloc: Global, drift: &Drift, end: u32) -> Result<Drift, NoMemory>
    requires { end ≤ 32 }
    ensures denominator { IfOk result (λ copy. copy.denominator ≡ drift.now.denominator) }
    ensures cells { IfOk result (λ copy. drift_cells copy ≡ drift_cells drift.now) }
    ensures rows { IfOk result (λ copy. (t c : ℕ) → 1 ≤ t → t < max 2 end → c < drift_cells drift.now →
        row_of copy t c ≡ row_of drift.now t c) }
{
    let base = Drift::of_right(drift.denominator(), first_rows(alloc, drift)?);
    let changes = later_rows(alloc, drift, end)?;
    Ok(base.with_right_rows(alloc, changes)?)
}
