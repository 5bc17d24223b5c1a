//! The scenario that forces a flown prefix.

ghost use Rattle.std.specs.Prelude.{◌≡◌, ℕ, ◌≤◌, ◌<◌, ◌↔◌, length, map, IfOk, IsErrOf};
ghost use Rattle.sweep_table.specs.LookParts.{positions_of, cells_of, look_row};
ghost use Rattle.search_model.specs.Legal.{IsLegal};
ghost use Rattle.search_model.specs.Problem.{IsProblem};
ghost use Rattle.residual_plan.specs.Forced.{goes_on as goes_on_lem, forced_count, forced_row, forced_moves, IsForced, IsNameTaken};
ghost use Rattle.residual_plan.specs.Rows.{forced_look, forced_looks_in, forced_looks};

use crate::naming::{is_name_taken, names};
use crate::sources::source;
use exact_parts::NoMemory;
use search_grid::Grid;
use search_model::{Path, Scenario};
use searcher_maps::{Searcher, looks_by_period, with_searcher};
use std::alloc::{AllocError, Global};
use sweep_table::{LookPart, Sweep};

/// Why there is no scenario that forces a prefix; the first of these that holds is named.
#[derive(Clone, Copy, Debug, PartialEq, Eq)]
pub enum ForceFault {
    /// The prefix doesn't follow the moves from the start, or it is longer than the horizon.
    NotLegal = 1,
    /// There would be more than 200 positions.
    TooManyPositions = 2,
    /// A position has a name that a new one would have.
    NameTaken = 3,
    /// No memory was found.
    NoMemory = 4,
}

// The most positions of a scenario.
const MOST_POSITIONS: u8 = 200;

// The number of positions that the forced scenario would have.
fn count(sc: &Scenario, flown: &Path) -> u8
    ensures value { result ≡ forced_count sc.now flown.now }
    ensures sound { IsProblem sc.now }
{
    sc.positions() + flown.len() as u8 + 1
}

// Whether the prefix goes on from a position.
fn goes_on(sc: &Scenario, flown: &Path, a: u8) -> bool
    ensures value { result ≡ goes_on_lem sc.now flown.now a }
    ensures sound { IsProblem sc.now }
{
    let own = sc.positions();
    own <= a && a < own + flown.len() as u8
}

// The moves of a position: to the next flown one alone, or those of the position that it stands for.
fn row(alloc: Global, sc: &Scenario, flown: &Path, a: u8) -> Result<Vec<u8>, AllocError>
    requires legal { IsLegal sc.now flown.now }
    requires position { a < forced_count sc.now flown.now }
    requires room { forced_count sc.now flown.now ≤ 200 }
    ensures { IfOk result (λ row. row.items ≡ forced_row sc.now flown.now a) }
{
    if goes_on(sc, flown, a) {
        return Ok(vec![in alloc; a + 1]?);
    }
    let mut row = Vec::new(alloc);
    row.extend_from_slice(sc.grid().moves(source(sc, flown, a)))?;
    Ok(row)
}

// The moves of all positions.
fn rows(alloc: Global, sc: &Scenario, flown: &Path) -> Result<Vec<Vec<u8>>, NoMemory>
    requires legal { IsLegal sc.now flown.now }
    requires room { forced_count sc.now flown.now ≤ 200 }
    ensures { IfOk result (λ rows. map (λ row. row.items) rows.items ≡ forced_moves sc.now flown.now) }
{
    let mut rows = Vec::new(alloc);
    for a in 0..count(sc, flown) {
        rows.push(row(alloc, sc, flown, a)?)?;
    }
    Ok(rows)
}

// The moves of the forced scenario.
fn grid(alloc: Global, sc: &Scenario, flown: &Path) -> Result<Grid, NoMemory>
    requires legal { IsLegal sc.now flown.now }
    requires room { forced_count sc.now flown.now ≤ 200 }
    ensures { IfOk result (λ grid. grid ≡ forced_moves sc.now flown.now) }
{
    sc.recall_sound();
    let rows = rows(alloc, sc, flown)?;
    Ok(Grid::of_right(rows))
}

// What a look from a position covers: what one from the position that it stands for covers.
fn look(
    alloc: Global,
    sc: &Scenario,
    flown: &Path,
    t: u32,
    a: u8,
) -> Result<Vec<LookPart>, AllocError>
    requires legal { IsLegal sc.now flown.now }
    requires first { 1 ≤ t }
    requires last { t ≤ sc.now.horizon }
    ensures { IfOk result (λ row. row.items ≡ forced_look sc.now flown.now t a) }
{
    let mut row = Vec::new(alloc);
    row.extend_from_slice(sc.sweep().look(t, source(sc, flown, a)).parts())?;
    Ok(row)
}

// What looks from all positions cover in a period.
fn looks_in(
    alloc: Global,
    sc: &Scenario,
    flown: &Path,
    t: u32,
) -> Result<Vec<Vec<LookPart>>, NoMemory>
    requires legal { IsLegal sc.now flown.now }
    requires room { forced_count sc.now flown.now ≤ 200 }
    requires first { 1 ≤ t }
    requires last { t ≤ sc.now.horizon }
    ensures { IfOk result (λ rows. map (λ row. row.items) rows.items ≡ forced_looks_in sc.now flown.now t) }
{
    let mut rows = Vec::new(alloc);
    for a in 0..count(sc, flown) {
        rows.push(look(alloc, sc, flown, t, a)?)?;
    }
    Ok(rows)
}

// What looks from all positions cover in all periods.
fn looks(alloc: Global, sc: &Scenario, flown: &Path) -> Result<Vec<Vec<Vec<LookPart>>>, NoMemory>
    requires legal { IsLegal sc.now flown.now }
    requires room { forced_count sc.now flown.now ≤ 200 }
    ensures { IfOk result (λ rows.
        map (λ period. map (λ row. row.items) period.items) rows.items ≡ forced_looks sc.now flown.now) }
{
    let mut rows = Vec::new(alloc);
    for t in 0..sc.horizon() {
        rows.push(looks_in(alloc, sc, flown, t + 1)?)?;
    }
    Ok(rows)
}

// The looks of the forced scenario.
fn sweep(alloc: Global, sc: &Scenario, flown: &Path) -> Result<Sweep, NoMemory>
    requires legal { IsLegal sc.now flown.now }
    requires room { forced_count sc.now flown.now ≤ 200 }
    ensures denominator { IfOk result (λ sweep. sweep.denominator ≡ sc.now.sweep.denominator) }
    ensures cells { IfOk result (λ sweep. cells_of sweep ≡ sc.now.cells) }
    ensures positions { IfOk result (λ sweep. positions_of sweep ≡ forced_count sc.now flown.now) }
    ensures looks { IfOk result (λ sweep. (t a : ℕ) → 1 ≤ t → t ≤ sc.now.horizon → a < forced_count sc.now flown.now →
        look_row sweep t a ≡ forced_look sc.now flown.now t a) }
{
    let rows = looks(alloc, sc, flown)?;
    let sweep = looks_by_period(alloc, sc.sweep().denominator(), sc.cells(), rows)?;
    Ok(sweep)
}

// The forced scenario, where nothing stands against it but memory.
fn made(alloc: Global, sc: &Scenario, flown: &Path) -> Result<Scenario, NoMemory>
    requires legal { IsLegal sc.now flown.now }
    requires room { forced_count sc.now flown.now ≤ 200 }
    requires free { ¬ IsNameTaken sc.now flown.now }
    ensures { IfOk result (IsForced sc.now flown.now) }
{
    let searcher = Searcher {
        positions: names(alloc, sc, flown)?,
        start: sc.positions(),
        grid: grid(alloc, sc, flown)?,
        sweep: sweep(alloc, sc, flown)?,
    };
    let scenario = with_searcher(alloc, sc, searcher)?;
    Ok(scenario)
}

/// The scenario that forces a flown prefix: after the scenario's own positions it has one for the start and one for
/// each flown period. There the searcher has no choice until the prefix is flown, and looks as from the flown ones.
///
/// Gives the first fault in the order of the variants, or that memory ran out.
pub fn forced(alloc: Global, sc: &Scenario, flown: &Path) -> Result<Scenario, ForceFault>
    requires { 1 ≤ length flown.now }
    ensures made { IfOk result (IsForced sc.now flown.now) }
    ensures legal { IfOk result (λ _. IsLegal sc.now flown.now) }
    ensures not_legal { IsErrOf result ForceFault.NotLegal ↔ (¬ IsLegal sc.now flown.now) }
    ensures too_many_positions { IsErrOf result ForceFault.TooManyPositions ↔
        (IsLegal sc.now flown.now × (200 < forced_count sc.now flown.now)) }
    ensures name_taken { IsErrOf result ForceFault.NameTaken ↔
        (IsLegal sc.now flown.now × (forced_count sc.now flown.now ≤ 200) × IsNameTaken sc.now flown.now) }
{
    if !sc.is_legal(flown) {
        return Err(ForceFault::NotLegal);
    }
    if count(sc, flown) > MOST_POSITIONS {
        return Err(ForceFault::TooManyPositions);
    }
    if is_name_taken(sc, flown) {
        return Err(ForceFault::NameTaken);
    }
    match made(alloc, sc, flown) {
        Ok(scenario) => Ok(scenario),
        Err(_) => Err(ForceFault::NoMemory),
    }
}
