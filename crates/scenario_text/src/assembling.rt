//! The scenario that a draft says.

ghost use Rattle.std.specs.Prelude.{◌≡◌, ◌<◌, ℕ, All, map, length, slice_index, sum, sum_by, IfOk};
ghost use Rattle.std.specs.List.{AllZip};
ghost use Rattle.std.specs.List.Sorted.{IsPermutation};
ghost use Rattle.search_grid.specs.declared.faults.GridFault.{GridFault};
ghost use Rattle.search_grid.specs.Moves.{IsGrid};
ghost use Rattle.search_grid.specs.Faults.{HasSameMoves, HasFault as HasGridFault};
ghost use Rattle.drift_chain.specs.DriftRows.{IsDrift, part_in};
ghost use Rattle.period_rows.specs.Changes.{IsSameChange};
ghost use Rattle.sweep_table.specs.LookParts.{IsSweep};
ghost use Rattle.search_model.specs.Names.{IsName};
ghost use Rattle.search_model.specs.Parts.{problem_of};
ghost use Rattle.scenario_text.specs.declared.draft.Stage.{Stage};
ghost use Rattle.scenario_text.specs.State.{state_of, positions_in, period_row_of};
ghost use Rattle.scenario_text.specs.Sound.{IsSound, AreEntries};
ghost use Rattle.scenario_text.specs.Scenarios.{Says, SaysLooks, drift_change_of};

use crate::draft::{Draft, TextVersion};
use crate::drifts::drift_of;
use crate::sweeps::sweep_of;
use drift_chain::{Drift, DriftPart};
use indexmap::IndexSet;
use search_grid::Grid;
use search_model::{Name, Parts, Scenario};
use std::alloc::{AllocError, Global};
use std::mem::replace;
use sweep_table::Sweep;

// The name of these bytes.
fn name_of(bytes: &[u8]) -> Name
    requires { IsName bytes.now }
    ensures { result ≡ bytes.now }
{
    match Name::new(bytes) {
        Some(name) => name,
        None => unreachable!(),
    }
}

fn names_of(alloc: Global, keys: &IndexSet<Vec<u8>>) -> Result<Vec<Name>, AllocError>
    requires { All IsName (map (λ n. n.items) keys.now.keys) }
    ensures { IfOk result (λ v. v.items ≡ map (λ n. n.items) keys.now.keys) }
{
    let all = keys.as_slice();
    let mut names = Vec::new(alloc);
    for key in all {
        names.push(name_of(key))?;
    }
    Ok(names)
}

// Per cell the part of the entries, and 0 where none is of that cell.
fn parts_of(alloc: Global, cells: usize, entries: &[DriftPart]) -> Result<Vec<u32>, AllocError>
    requires { (total : ℕ) × AreEntries cells total entries.now }
    ensures cells { IfOk result (λ v. length v.items ≡ cells) }
    ensures parts { IfOk result (λ v. (c : ℕ) → c < cells → slice_index v.items c ≡ part_in entries.now c) }
    ensures total { IfOk result (λ v. sum v.items ≡ sum_by (λ e. e.part) entries.now) }
{
    let mut parts = vec![in alloc; 0; cells]?;
    for entry in entries {
        parts[entry.cell as usize] = entry.part;
    }
    Ok(parts)
}

fn grid_of(rows: Vec<Vec<u8>>) -> Grid
    requires { (fault : GridFault) → HasGridFault (map (λ row. row.items) rows.items) fault → ⊥ }
    ensures made { HasSameMoves (map (λ row. row.items) rows.items) result }
    ensures sound { IsGrid result }
{
    match Grid::new(rows) {
        Ok(grid) => grid,
        Err(_) => unreachable!(),
    }
}

// The names of the positions: in version 1 the positions are the cells.
fn position_names(alloc: Global, draft: &Draft) -> Result<Vec<Name>, AllocError>
    requires { IsSound (state_of draft.now) }
    ensures { IfOk result (λ v. v.items ≡ positions_in (state_of draft.now)) }
{
    match draft.version {
        TextVersion::One => names_of(alloc, &draft.names),
        TextVersion::Two => names_of(alloc, &draft.positions),
    }
}

// What is copied of a draft for its scenario: the numbers, the names of the cells and positions, and the parts of period 1.
#[derive(Drop)]
struct Copied {
    horizon: u32,
    total: u32,
    start: u8,
    names: Vec<Name>,
    positions: Vec<Name>,
    first: Vec<u32>,
}

fn copied_of(alloc: Global, draft: &Draft) -> Result<Copied, AllocError>
    requires sound { IsSound (state_of draft.now) }
    requires whole { draft.now.stage ≡ Stage.Ended }
    ensures horizon { IfOk result (λ copied. copied.horizon ≡ draft.now.horizon) }
    ensures total { IfOk result (λ copied. copied.total ≡ draft.now.total) }
    ensures start { IfOk result (λ copied. copied.start ≡ draft.now.start) }
    ensures names { IfOk result (λ copied. copied.names.items ≡ map (λ n. n.items) draft.now.names.keys) }
    ensures positions { IfOk result (λ copied. copied.positions.items ≡ positions_in (state_of draft.now)) }
    ensures cells { IfOk result (λ copied. length copied.first.items ≡ length draft.now.names.keys) }
    ensures first { IfOk result (λ copied.
        (c : ℕ) → c < length draft.now.names.keys → slice_index copied.first.items c ≡ part_in draft.now.first.items c) }
    ensures first_total { IfOk result (λ copied. sum copied.first.items ≡ sum_by (λ e. e.part) draft.now.first.items) }
{
    let names = names_of(alloc, &draft.names)?;
    let positions = position_names(alloc, draft)?;
    let first = parts_of(alloc, draft.names.len(), &draft.first)?;
    Ok(Copied {
        horizon: draft.horizon,
        total: draft.total,
        start: draft.start,
        names,
        positions,
        first,
    })
}

// The grid of the moves, which are taken out of a draft.
fn taken_grid(alloc: Global, draft: &mut Draft) -> Grid
    requires { (fault : GridFault) → HasGridFault (map (λ row. row.items) draft.old.moves.items) fault → ⊥ }
    ensures made { HasSameMoves (map (λ row. row.items) draft.old.moves.items) result }
    ensures sound { IsGrid result }
{
    grid_of(replace(&mut draft.moves, Vec::new(alloc)))
}

// The drift of the rows, which are taken out of a draft.
fn taken_drift(alloc: Global, draft: &mut Draft) -> Result<Drift, AllocError>
    requires sound { IsSound (state_of draft.old) }
    requires whole { draft.old.stage ≡ Stage.Ended }
    ensures denominator { IfOk result (λ drift. drift.denominator ≡ draft.old.drift) }
    ensures made { IfOk result (λ drift.
        AllZip IsPermutation (map (λ row. row.items) draft.old.parts.items) drift.rows) }
    ensures changes { IfOk result (λ drift.
        AllZip IsSameChange (map drift_change_of (map period_row_of draft.old.drift_rows.items)) drift.changes) }
    ensures sound { IfOk result IsDrift }
    ensures moves { draft.new.moves ≡ draft.old.moves }
{
    let rows = replace(&mut draft.parts, Vec::new(alloc));
    let later = replace(&mut draft.drift_rows, Vec::new(alloc));
    drift_of(alloc, draft.drift, rows, later)
}

// How the target drifts, and what a look misses.
#[derive(Drop)]
struct Chances {
    drift: Drift,
    sweep: Sweep,
}

fn chances_of(alloc: Global, draft: &mut Draft) -> Result<Chances, AllocError>
    requires sound { IsSound (state_of draft.old) }
    requires whole { draft.old.stage ≡ Stage.Ended }
    ensures denominator { IfOk result (λ chances. chances.drift.denominator ≡ draft.old.drift) }
    ensures parts { IfOk result (λ chances.
        AllZip IsPermutation (map (λ row. row.items) draft.old.parts.items) chances.drift.rows) }
    ensures changes { IfOk result (λ chances.
        AllZip IsSameChange (map drift_change_of (map period_row_of draft.old.drift_rows.items)) chances.drift.changes) }
    ensures drift { IfOk result (λ chances. IsDrift chances.drift) }
    ensures looks { IfOk result (λ chances. SaysLooks draft.old.version (state_of draft.old) chances.sweep) }
    ensures sweep { IfOk result (λ chances. IsSweep chances.sweep) }
    ensures moves { draft.new.moves ≡ draft.old.moves }
{
    let sweep = sweep_of(alloc, draft)?;
    match taken_drift(alloc, draft) {
        Ok(drift) => Ok(Chances { drift, sweep }),
        Err(error) => {
            // (a call, as in `read_scenario`)
            drop(sweep);
            Err(error)
        }
    }
}

fn joined(copied: Copied, grid: Grid, chances: Chances) -> Parts
    ensures { result ≡ record {
      names = copied.names;
      positions = copied.positions;
      horizon = copied.horizon;
      start = copied.start;
      total = copied.total;
      first = copied.first;
      grid = grid;
      drift = chances.drift;
      sweep = chances.sweep;
    } }
{
    Parts {
        names: copied.names,
        positions: copied.positions,
        horizon: copied.horizon,
        start: copied.start,
        total: copied.total,
        first: copied.first,
        grid,
        drift: chances.drift,
        sweep: chances.sweep,
    }
}

// The parts of the scenario that a draft says.
fn model_parts(alloc: Global, draft: &mut Draft) -> Result<Parts, AllocError>
    requires sound { IsSound (state_of draft.old) }
    requires whole { draft.old.stage ≡ Stage.Ended }
    ensures { IfOk result (λ parts. Says (state_of draft.old) (problem_of parts)) }
{
    let copied = copied_of(alloc, draft)?;
    match chances_of(alloc, draft) {
        Ok(chances) => Ok(joined(copied, taken_grid(alloc, draft), chances)),
        Err(error) => Err(error),
    }
}

/// The scenario that a draft says. Its moves, and the rows of its drift, are taken out of it.
pub fn assemble(alloc: Global, draft: &mut Draft) -> Result<Scenario, AllocError>
    requires sound { IsSound (state_of draft.old) }
    requires whole { draft.old.stage ≡ Stage.Ended }
    ensures { IfOk result (Says (state_of draft.old)) }
{
    let parts = model_parts(alloc, draft)?;
    Ok(Scenario::of_right(parts))
}
