//! The looks of both.

ghost use Rattle.std.specs.Prelude.{◌≡◌, ◌<◌, ◌≤◌, ◌*◌, map, IfOk};
ghost use Rattle.std.specs.List.{range_with_len};
ghost use Rattle.searcher_maps.specs.Periods.{rows_by_period};
ghost use Rattle.duo_search.specs.Product.{product_factor};
ghost use Rattle.duo_search.specs.Refusals.{IsSmall};
ghost use Rattle.duo_search.specs.Rows.{product_look, product_looks, HasProductLooks};

use exact_parts::NoMemory;
use search_model::Scenario;
use searcher_maps::looks_by_period;
use std::alloc::Global;
use sweep_table::{LookPart, Sweep};

// What the looks of both miss together of a target in a cell.
#[tactic(auto, unfolding(crate::specs::Product::product_factor))]
fn joint_part(sc: &Scenario, t: u32, both: u8, cell: u8) -> u32
    requires first { 1 ≤ t }
    requires last { t ≤ 32 }
    requires fine { sc.now.sweep.denominator ≤ 1000 }
    requires position { both < sc.now.positions * sc.now.positions }
    requires cell { cell < sc.now.cells }
    ensures { result ≡ product_factor sc.now t both cell }
{
    let positions = sc.positions();
    let first = sc.sweep().factor(t, both / positions, cell);
    let second = sc.sweep().factor(t, both % positions, cell);
    first * second
}

// The cells that the looks of both cover, and what they miss there.
#[tactic(auto, unfolding(crate::specs::Rows::product_look))]
fn joint_look(alloc: Global, sc: &Scenario, t: u32, both: u8) -> Result<Vec<LookPart>, NoMemory>
    requires first { 1 ≤ t }
    requires last { t ≤ 32 }
    requires fine { sc.now.sweep.denominator ≤ 1000 }
    requires position { both < sc.now.positions * sc.now.positions }
    ensures { IfOk result (λ row. row.items ≡ product_look sc.now t both) }
{
    let denominator = sc.sweep().denominator();
    let mut row = Vec::new(alloc);
    for cell in 0..sc.cells() {
        let part = joint_part(sc, t, both, cell);
        if part < denominator * denominator {
            row.push(LookPart { cell, part })?;
        }
    }
    Ok(row)
}

// The rows of all positions in one period.
fn looks_in(alloc: Global, sc: &Scenario, t: u32) -> Result<Vec<Vec<LookPart>>, NoMemory>
    requires first { 1 ≤ t }
    requires last { t ≤ 32 }
    requires few { sc.now.positions ≤ 14 }
    requires fine { sc.now.sweep.denominator ≤ 1000 }
    ensures { IfOk result (λ rows. map (λ row. row.items) rows.items ≡ product_looks sc.now t) }
{
    let positions = sc.positions();
    let mut rows = Vec::new(alloc);
    for both in 0..positions * positions {
        rows.push(joint_look(alloc, sc, t, both)?)?;
    }
    Ok(rows)
}

// The rows of all periods.
fn looks_in_all(alloc: Global, sc: &Scenario) -> Result<Vec<Vec<Vec<LookPart>>>, NoMemory>
    requires few { sc.now.positions ≤ 14 }
    requires fine { sc.now.sweep.denominator ≤ 1000 }
    ensures { IfOk result (λ periods. rows_by_period periods.items ≡
        map (product_looks sc.now) (range_with_len 1 sc.now.horizon)) }
{
    let mut periods = Vec::new(alloc);
    for t in 1..sc.horizon() + 1 {
        periods.push(looks_in(alloc, sc, t)?)?;
    }
    Ok(periods)
}

/// The looks of both in all periods.
pub(crate) fn sweep_of_both(alloc: Global, sc: &Scenario) -> Result<Sweep, NoMemory>
    requires { IsSmall sc.now }
    ensures { IfOk result (HasProductLooks sc.now) }
{
    let denominator = sc.sweep().denominator();
    let rows = looks_in_all(alloc, sc)?;
    looks_by_period(alloc, denominator * denominator, sc.cells(), rows)
}
