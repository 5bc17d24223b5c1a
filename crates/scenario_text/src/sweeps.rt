//! The sweep that a draft says.

ghost use Rattle.std.specs.Prelude.{[], ◌≡◌, ◌≤◌, map, unwrap_or, IfOk};
ghost use Rattle.std.specs.Option.{option_map};
ghost use Rattle.std.specs.List.{AllZip};
ghost use Rattle.std.specs.List.Sorted.{IsPermutation};
ghost use Rattle.sweep_table.specs.declared.faults.LookFault.{LookFault};
ghost use Rattle.sweep_table.specs.LookParts.{IsSweep, looks_over, parts_over};
ghost use Rattle.sweep_table.specs.Faults.{HasFault};
ghost use Rattle.period_rows.specs.Changes.{change_of};
ghost use Rattle.scenario_text.specs.declared.draft.Stage.{Stage};
ghost use Rattle.scenario_text.specs.declared.draft.TextVersion.{TextVersion as Version};
ghost use Rattle.scenario_text.specs.State.{period_row_of, state_of};
ghost use Rattle.scenario_text.specs.Sound.{IsSound};
ghost use Rattle.scenario_text.specs.Scenarios.{AreLooksOf, SaysLooks, look_change_of, look_parts as look_parts_lem};

use crate::draft::{Draft, TextVersion};
use drift_chain::DriftPart;
use period_rows::GivenChange;
use std::alloc::{AllocError, Global};
use sweep_table::{LookPart, Sweep};

fn overlook_of(alloc: Global, parts: &[Option<u32>]) -> Result<Vec<u32>, AllocError>
    ensures { IfOk result (λ v. v.items ≡ map (λ o. unwrap_or o 0) parts.now) }
{
    parts.iter().map(|o| o.unwrap_or(0)).collect(alloc)
}

// The entries of a row of looks, as a sweep takes them.
fn look_parts(alloc: Global, row: &[DriftPart]) -> Result<Vec<LookPart>, AllocError>
    ensures { IfOk result (λ v. v.items ≡ look_parts_lem row.now) }
{
    row.iter()
        .map(|e| LookPart {
            cell: e.cell,
            part: e.part,
        })
        .collect(alloc)
}

// Those of a position's row.
fn look_row(alloc: Global, row: &Option<Vec<DriftPart>>) -> Result<Vec<LookPart>, AllocError>
    ensures { IfOk result (λ v. v.items ≡ look_parts_lem (unwrap_or (option_map (λ r. r.items) row.now) [])) }
{
    match row {
        Some(row) => look_parts(alloc, row),
        None => Ok(Vec::new(alloc)),
    }
}

// The rows of all positions.
fn look_rows(
    alloc: Global,
    looks: &[Option<Vec<DriftPart>>],
) -> Result<Vec<Vec<LookPart>>, AllocError>
    ensures { IfOk result (λ v.
        map (λ r. r.items) v.items ≡ map (λ row.
        look_parts_lem (unwrap_or row [])) (map (option_map (λ r. r.items)) looks.now)) }
{
    let mut rows = Vec::new(alloc);
    for look in looks {
        rows.push(look_row(alloc, look)?)?;
    }
    Ok(rows)
}

// The rows of single periods.
fn look_changes(alloc: Global, rows: &[GivenChange]) -> Result<Vec<GivenChange>, AllocError>
    ensures { IfOk result (λ v. map change_of v.items ≡ map look_change_of (map period_row_of rows.now)) }
{
    let mut changes = Vec::new(alloc);
    for row in rows {
        changes.push(GivenChange {
            period: row.period,
            owner: row.owner,
            row: look_parts(alloc, &row.row)?,
        })?;
    }
    Ok(changes)
}

// The sweep of these rows in every period.
fn base_sweep(denominator: u32, cells: u8, rows: Vec<Vec<LookPart>>) -> Sweep
    requires some { 1 ≤ denominator }
    requires few { denominator ≤ 1000000 }
    requires faultless { (fault : LookFault) → HasFault denominator cells (map (λ row. row.items) rows.items) fault →
        ⊥ }
    ensures base { result ≡ looks_over denominator cells result.rows }
    ensures made { AllZip IsPermutation (map (λ row. row.items) rows.items) result.rows }
    ensures sound { IsSweep result }
{
    match Sweep::footprints(denominator, cells, rows) {
        Ok(sweep) => sweep,
        Err(_) => unreachable!(),
    }
}

// The sweep of a draft of version 1.
fn sweep_of_parts(alloc: Global, draft: &Draft) -> Result<Sweep, AllocError>
    requires sound { IsSound (state_of draft.now) }
    requires whole { draft.now.stage ≡ Stage.Ended }
    requires version { draft.now.version ≡ Version.One }
    ensures parts { IfOk result (λ sweep.
        sweep ≡ parts_over draft.now.look (map (λ o. unwrap_or o 0) draft.now.overlook.items)) }
    ensures sound { IfOk result IsSweep }
{
    let overlook = overlook_of(alloc, &draft.overlook)?;
    Ok(Sweep::of_right_parts(draft.look, overlook))
}

// And of version 2.
fn sweep_of_rows(alloc: Global, draft: &Draft) -> Result<Sweep, AllocError>
    requires sound { IsSound (state_of draft.now) }
    requires whole { draft.now.stage ≡ Stage.Ended }
    requires version { draft.now.version ≡ Version.Two }
    ensures looks { IfOk result (AreLooksOf (state_of draft.now)) }
    ensures sound { IfOk result IsSweep }
{
    let rows = look_rows(alloc, &draft.looks)?;
    let changes = look_changes(alloc, &draft.look_rows)?;
    let sweep = base_sweep(draft.look, draft.names.len() as u8, rows);
    sweep.with_right_rows(alloc, changes)
}

/// The sweep that a draft says.
pub fn sweep_of(alloc: Global, draft: &Draft) -> Result<Sweep, AllocError>
    requires sound { IsSound (state_of draft.now) }
    requires whole { draft.now.stage ≡ Stage.Ended }
    ensures looks { IfOk result (SaysLooks draft.now.version (state_of draft.now)) }
    ensures sound { IfOk result IsSweep }
{
    match draft.version {
        TextVersion::One => sweep_of_parts(alloc, draft),
        TextVersion::Two => sweep_of_rows(alloc, draft),
    }
}
