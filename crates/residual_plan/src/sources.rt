//! What the positions of the scenario that forces a flown prefix stand for.

ghost use Rattle.std.specs.Prelude.{◌≡◌, map};
ghost use Rattle.search_model.specs.Legal.{IsLegal, IsPath};
ghost use Rattle.search_model.specs.Order.{Starts, IsBest};
ghost use Rattle.search_model.specs.Problem.{Problem, IsProblem};
ghost use Rattle.search_model.specs.Tracks.{value_of};
ghost use Rattle.searcher_maps.specs.Carried.{IsBestAmong};
ghost use Rattle.residual_plan.specs.Forced.{source_of, IsForced, IsForcedPath};

use search_model::{Path, Scenario};

/// The position that one of the forced scenario stands for.
pub(crate) fn source(sc: &Scenario, flown: &Path, a: u8) -> u8
    ensures { result ≡ source_of sc.now flown.now a }
{
    let own = sc.positions();
    if a < own {
        return a;
    }
    let periods = flown.len().min((a - own) as usize);
    sc.last_after(&flown.first(periods))
}

/// Takes a path of the scenario that forces a flown prefix back to the path that it stands for, which is one of the
/// scenario itself and begins with the prefix. It finds the same, and the best path goes back to the best of those that
/// begin with the prefix. Takes no memory.
pub fn unforced(sc: &Scenario, flown: &Path, path: &Path) -> Path
    requires legal { IsLegal sc.now flown.now }
    requires forced { IsForcedPath sc.now flown.now path.now }
    ensures value { result ≡ map (source_of sc.now flown.now) path.now }
    ensures path { IsPath sc.now result }
    ensures begins { Starts flown.now result }
    ensures found { (q : Problem) → IsProblem q → IsForced sc.now flown.now q → IsPath q path.now →
        value_of q path.now ≡ value_of sc.now result }
    ensures best { (q : Problem) → IsProblem q → IsForced sc.now flown.now q → IsBest q path.now →
        IsBestAmong sc.now (Starts flown.now) result }
{
    sc.recall_sound();
    let mut own = Path::empty();
    for a in path.cells() {
        own.push(source(sc, flown, *a));
    }
    own
}
