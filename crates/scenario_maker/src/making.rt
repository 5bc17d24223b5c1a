//! The scenario of a number.

ghost use Rattle.std.specs.Prelude.{◌≡◌, IfOk};
ghost use Rattle.search_model.specs.Parts.{problem_of};
ghost use Rattle.scenario_maker.specs.Made.{made_problem};

use crate::drawing::draw;
use crate::shaping::{drift, grid, grid_names, sweep};
use crate::sizes::{HORIZON, PARTS};
use exact_parts::NoMemory;
use search_model::{Parts, Scenario};
use std::alloc::Global;

// The parts of the scenario.
fn parts_of(alloc: Global, number: u64) -> Result<Parts, NoMemory>
    ensures { IfOk result (λ parts. problem_of parts ≡ made_problem number) }
{
    let drawn = draw(alloc, number)?;
    let grid = grid(alloc)?;
    Ok(Parts {
        names: grid_names(alloc)?,
        positions: grid_names(alloc)?,
        horizon: HORIZON,
        start: drawn.start,
        total: u32::from(PARTS),
        first: drawn.first,
        drift: drift(alloc, drawn.spread, &grid)?,
        grid,
        sweep: sweep(alloc, drawn.overlook)?,
    })
}

/// Makes the scenario of a number: 5 rows of 5 cells, 8 periods and the parts 60, 12 and 6, with a start, a first
/// distribution, a drift to side neighbours and a rate that are drawn from the number.
///
/// Every number has its scenario, so the only error is that memory ran out.
pub fn make(alloc: Global, number: u64) -> Result<Scenario, NoMemory>
    ensures made { IfOk result (λ scenario. scenario ≡ made_problem number) }
{
    let parts = parts_of(alloc, number)?;
    Ok(Scenario::of_right(parts))
}
