//! Another searcher for a scenario's target.

ghost use Rattle.std.specs.Prelude.{◌≡◌, ◌<◌, length, take, IfOk};
ghost use Rattle.exact_parts.specs.Width.{Fits};
ghost use Rattle.sweep_table.specs.LookParts.{positions_of, cells_of};
ghost use Rattle.search_model.specs.declared.scenario.ModelFault.{ModelFault};
ghost use Rattle.search_model.specs.Faults.{HasFault};
ghost use Rattle.search_model.specs.Names.{AreNames};
ghost use Rattle.search_model.specs.Parts.{problem_of};
ghost use Rattle.search_model.specs.Problem.{IsProblem};
ghost use Rattle.searcher_maps.specs.Target.{HasSameTarget};
ghost use Rattle.searcher_maps.specs.Searchers.{HasSearcher};

use crate::drifting::copy_of;
use exact_parts::NoMemory;
use search_grid::Grid;
use search_model::{Name, Parts, Scenario};
use std::alloc::Global;
use sweep_table::Sweep;

/// Another searcher for a scenario's target.
#[derive(Drop)]
pub struct Searcher {
    /// One name a position.
    pub positions: Vec<Name>,
    /// The position where the searcher stands before period 1.
    pub start: u8,
    pub grid: Grid,
    pub sweep: Sweep,
}

// The names of all cells.
fn names_of(alloc: Global, sc: &Scenario) -> Result<Vec<Name>, NoMemory>
    ensures { IfOk result (λ names. names.items ≡ sc.now.names) }
{
    let mut names = Vec::new(alloc);
    for c in 0..sc.cells() {
        names.push(*sc.name(c))?;
    }
    Ok(names)
}

// The target's part in each cell in period 1.
fn first_of(alloc: Global, sc: &Scenario) -> Result<Vec<u32>, NoMemory>
    ensures { IfOk result (λ first. first.items ≡ sc.now.first) }
{
    let mut first = Vec::new(alloc);
    for c in 0..sc.cells() {
        first.push(sc.first(c))?;
    }
    Ok(first)
}

// The scenario of parts that have no fault.
fn scenario_of(parts: Parts) -> Scenario
    requires { (fault : ModelFault) → ¬ HasFault parts fault }
    ensures made { result ≡ problem_of parts }
    ensures sound { IsProblem result }
{
    let sc = match Scenario::new(parts) {
        Ok(sc) => sc,
        Err(_) => unreachable!(),
    };
    sc.recall_sound();
    sc
}

/// The scenario with the same target and this searcher.
///
/// The only error is that memory ran out.
pub fn with_searcher(alloc: Global, sc: &Scenario, searcher: Searcher) -> Result<Scenario, NoMemory>
    requires names { AreNames (length searcher.grid) searcher.positions.items }
    requires start { searcher.start < length searcher.grid }
    requires positions { positions_of searcher.sweep ≡ length searcher.grid }
    requires cells { cells_of searcher.sweep ≡ sc.now.cells }
    requires fits { Fits sc.now.total sc.now.drift.denominator searcher.sweep.denominator sc.now.horizon }
    ensures target { IfOk result (HasSameTarget sc.now) }
    ensures searcher { IfOk result (HasSearcher searcher) }
    ensures sound { IfOk result IsProblem }
{
    let Searcher {
        positions,
        start,
        grid,
        sweep,
    } = searcher;
    Ok(scenario_of(Parts {
        names: names_of(alloc, sc)?,
        positions,
        horizon: sc.horizon(),
        start,
        total: sc.total(),
        first: first_of(alloc, sc)?,
        drift: copy_of(alloc, sc.drift(), sc.horizon())?,
        grid,
        sweep,
    }))
}
