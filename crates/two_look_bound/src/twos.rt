//! What looks find of units of mass, each of which was in one cell two periods before.

ghost use Rattle.std.specs.Prelude.{◌≡◌, ◌<◌, ◌≤◌, ◌+◌, ◌*◌, ◌-◌, ℕ, length, slice_index, sum_by, IfOk};
ghost use Rattle.std.specs.List.{range_with_len};
ghost use Rattle.drift_chain.specs.DriftRows.{part_of};
ghost use Rattle.edge_bound.specs.Units.{IsSteady};
ghost use Rattle.two_look_bound.specs.Taken.{two_of, HasGone};
ghost use Rattle.two_look_bound.specs.Rooms.{HasTwos, HasTwosBlock, HasTwosBlocks};

use crate::taken::clear;
use belief_update::spread;
use edge_bound::{Units, fill_found, is_steady};
use exact_parts::NoMemory;
use search_model::Scenario;
use std::alloc::Global;

// Writes what comes to each cell in the period after `s` of a unit that was in cell `c` in the period before it, in parts of two drifts.
fn go_twice(gone: &mut [u128], sc: &Scenario, s: u32, c: u8)
    requires first { 2 ≤ s }
    requires last { s + 1 ≤ sc.now.horizon }
    requires from { c < sc.now.cells }
    requires room { length gone.old ≡ sc.now.cells }
    ensures gone { HasGone sc.now s c gone.new }
    ensures room { length gone.new ≡ length gone.old }
{
    sc.recall_sound();
    clear(gone);
    let row = sc.drift().row(s - 1, c);
    for i in 0..row.len() {
        let next = sc.drift().row(s, row[i].cell);
        spread(gone, next, u128::from(row[i].part));
    }
}

// Writes the numbers of one cell in a period, position by position, from `here` on; `gone` is room for a row of cells.
fn fill_cell(numbers: &mut [u64], gone: &mut [u128], sc: &Scenario, here: usize, s: u32, c: u8)
    requires first { 2 ≤ s }
    requires last { s + 1 ≤ sc.now.horizon }
    requires cell { c < sc.now.cells }
    requires room { here + sc.now.positions ≤ length numbers.old }
    requires gone { length gone.old ≡ sc.now.cells }
    ensures size { length numbers.new ≡ length numbers.old }
    ensures each { (b : ℕ) → b < sc.now.positions → slice_index numbers.new (here + b) ≡ two_of sc.now s c b }
    ensures earlier { (i : ℕ) → i < here → slice_index numbers.new i ≡ slice_index numbers.old i }
    ensures gone { length gone.new ≡ length gone.old }
{
    sc.recall_sound();
    go_twice(gone, sc, s, c);
    fill_found(numbers, sc, gone, here, s + 1);
}

// Writes the numbers of a period, cell by cell, from `here` on.
fn fill_block(numbers: &mut [u64], gone: &mut [u128], sc: &Scenario, here: usize, s: u32)
    requires first { 2 ≤ s }
    requires last { s + 1 ≤ sc.now.horizon }
    requires room { here + sc.now.cells * sc.now.positions ≤ length numbers.old }
    requires gone { length gone.old ≡ sc.now.cells }
    ensures size { length numbers.new ≡ length numbers.old }
    ensures block { HasTwosBlock sc.now s numbers.new here }
    ensures earlier { (i : ℕ) → i < here → slice_index numbers.new i ≡ slice_index numbers.old i }
    ensures gone { length gone.new ≡ length gone.old }
{
    let positions = usize::from(sc.positions());
    for c in 0..sc.cells() {
        fill_cell(numbers, gone, sc, here + usize::from(c) * positions, s, c);
    }
}

// Writes the numbers of so many periods from the second on.
fn fill_blocks(numbers: &mut [u64], gone: &mut [u128], sc: &Scenario, periods: u32)
    requires last { periods ≤ sc.now.horizon - 2 }
    requires room { length numbers.old ≡ periods * (sc.now.cells * sc.now.positions) }
    requires gone { length gone.old ≡ sc.now.cells }
    ensures { HasTwosBlocks sc.now periods numbers.new }
{
    let block = usize::from(sc.cells()) * usize::from(sc.positions());
    for n in 0..periods {
        fill_block(numbers, gone, sc, n as usize * block, n + 2);
    }
}

// The numbers of so many periods from the second on.
fn blocks_of(alloc: Global, sc: &Scenario, periods: u32) -> Result<Vec<u64>, NoMemory>
    requires { periods ≤ sc.now.horizon - 2 }
    ensures { IfOk result (λ numbers. HasTwosBlocks sc.now periods numbers.items) }
{
    let block = usize::from(sc.cells()) * usize::from(sc.positions());
    let mut gone = vec![in alloc; 0; usize::from(sc.cells())]?;
    let mut numbers = vec![in alloc; 0; periods as usize * block]?;
    fill_blocks(&mut numbers, &mut gone, sc, periods);
    Ok(numbers)
}

// The table whose one block serves all periods.
fn steady(alloc: Global, sc: &Scenario) -> Result<Units, NoMemory>
    requires { IsSteady sc.now }
    ensures { IfOk result (HasTwos sc.now) }
{
    Ok(Units {
        positions: usize::from(sc.positions()),
        step: 0,
        units: blocks_of(alloc, sc, sc.horizon().saturating_sub(2).min(1))?,
    })
}

// The table with a block for each period.
fn by_period(alloc: Global, sc: &Scenario) -> Result<Units, NoMemory>
    ensures { IfOk result (HasTwos sc.now) }
{
    Ok(Units {
        positions: usize::from(sc.positions()),
        step: usize::from(sc.cells()) * usize::from(sc.positions()),
        units: blocks_of(alloc, sc, sc.horizon().saturating_sub(2))?,
    })
}

/// The table of a scenario: with one block of numbers where no later period differs, else with one a period.
pub(crate) fn twos_of(alloc: Global, sc: &Scenario) -> Result<Units, NoMemory>
    ensures { IfOk result (HasTwos sc.now) }
{
    if is_steady(sc) {
        steady(alloc, sc)
    } else {
        by_period(alloc, sc)
    }
}
