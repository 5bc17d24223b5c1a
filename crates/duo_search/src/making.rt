//! The product scenario.

ghost use Rattle.std.specs.Prelude.{◌≡◌, ◌<◌, ◌↔◌, IfOk, IsErrOf};
ghost use Rattle.search_model.specs.Problem.{IsProblem};
ghost use Rattle.duo_search.specs.Pairs.{AreOneToOne, FindsAsPair, IsBestOfPairs};
ghost use Rattle.duo_search.specs.Product.{IsProduct};
ghost use Rattle.duo_search.specs.Refusals.{IsRefused, IsSmall};
ghost use Rattle.duo_search.specs.Rows.{StandsForBoth};
ghost use Rattle.duo_search.specs.declared.faults.DuoFault.TheVariants.{TooManyPositions, TooManyMoves, TooFine, TooWide};

use crate::faults::{DuoFault, first_fault};
use crate::looks::sweep_of_both;
use crate::moves::grid_of_both;
use crate::names::pair_names;
use exact_parts::NoMemory;
use search_model::Scenario;
use searcher_maps::{Searcher, with_searcher};
use std::alloc::Global;

// The searcher who stands for both.
fn searcher_of_both(alloc: Global, sc: &Scenario, second: u8) -> Result<Searcher, NoMemory>
    requires small { IsSmall sc.now }
    requires second { second < sc.now.positions }
    ensures { IfOk result (StandsForBoth sc.now second) }
{
    let positions = sc.positions();
    Ok(Searcher {
        positions: pair_names(alloc, positions)?,
        start: sc.start() * positions + second,
        grid: grid_of_both(alloc, sc)?,
        sweep: sweep_of_both(alloc, sc)?,
    })
}

// The product of a scenario that isn't refused.
fn product_of(alloc: Global, sc: &Scenario, second: u8) -> Result<Scenario, NoMemory>
    requires small { IsSmall sc.now }
    requires second { second < sc.now.positions }
    ensures made { IfOk result (IsProduct sc.now second) }
    ensures sound { IfOk result IsProblem }
    ensures of { IsProblem sc.now }
{
    sc.recall_sound();
    let searcher = searcher_of_both(alloc, sc, second)?;
    with_searcher(alloc, sc, searcher)
}

/// The scenario whose one searcher stands for two of `sc`: the first starts where the searcher of `sc` does, the second
/// at position `second`. Both move as that searcher does, and look in each period, independently given the track.
///
/// Its position `i * P + j` says that the first is at `i` and the second at `j`, out of `P` positions. The error is the
/// first of the causes in the order of the variants, or that memory ran out.
pub fn product(alloc: Global, sc: &Scenario, second: u8) -> Result<Scenario, DuoFault>
    requires { second < sc.now.positions }
    ensures made { IfOk result (IsProduct sc.now second) }
    ensures sound { IfOk result IsProblem }
    ensures paths { IfOk result (AreOneToOne sc.now second) }
    ensures values { IfOk result (FindsAsPair sc.now) }
    ensures best { IfOk result (IsBestOfPairs sc.now second) }
    ensures too_many_positions { IsErrOf result TooManyPositions ↔ IsRefused sc.now TooManyPositions }
    ensures too_many_moves { IsErrOf result TooManyMoves ↔ IsRefused sc.now TooManyMoves }
    ensures too_fine { IsErrOf result TooFine ↔ IsRefused sc.now TooFine }
    ensures too_wide { IsErrOf result TooWide ↔ IsRefused sc.now TooWide }
{
    if let Some(fault) = first_fault(sc) {
        return Err(fault);
    }
    match product_of(alloc, sc, second) {
        Ok(made) => Ok(made),
        Err(_) => Err(DuoFault::NoMemory),
    }
}
