//! The greedy searcher.

ghost use Rattle.std.specs.Prelude.{◌≡◌, ◌+◌, ◌<◌, ◌++◌, ◌∷◌, [], ℕ, List, Option, Some, None, map, length, sum, IfOk};
ghost use Rattle.search_model.specs.Legal.{IsLegal, moves_after};
ghost use Rattle.search_model.specs.Opening.{IsOpening};
ghost use Rattle.search_model.specs.Tracks.{value_of};
ghost use Rattle.belief_update.specs.Masses.{masses_of};
ghost use Rattle.belief_update.specs.Belief.{IsBelief, IsUnlooked};
ghost use Rattle.opening_path.specs.Greedy.{LeavesLeast, IsOpened};

use belief_update::{Belief, value_by};
use exact_parts::NoMemory;
use search_model::{Path, Scenario, Standing};
use std::alloc::Global;

// What a look from a position leaves undetected, in the period of a belief that isn't looked at yet there.
fn left_after(sc: &Scenario, here: &Belief, trial: &mut Belief, position: u8) -> u128
    requires belief { IsUnlooked sc.now here.now }
    requires cells { length trial.old.masses ≡ sc.now.cells }
    requires position { position < sc.now.positions }
    ensures left { (looks : List (Option ℕ)) → IsBelief sc.now (looks ++ None ∷ []) here.now
        → result ≡ sum (masses_of sc.now (looks ++ Some position ∷ [])) }
    ensures cells { length trial.new.masses ≡ sc.now.cells }
{
    trial.copy_from(here);
    trial.look(sc, position);
    trial.undetected()
}

// The first of the moves after a prefix that leave the least undetected. A prefix of which less is missed has the
// greater value, so no value is computed.
fn best_move(sc: &Scenario, here: &Belief, trial: &mut Belief, prefix: &Path) -> u8
    requires belief { IsBelief sc.now (map Some prefix.now ++ None ∷ []) here.now }
    requires legal { IsLegal sc.now prefix.now }
    requires cells { length trial.old.masses ≡ sc.now.cells }
    ensures least { LeavesLeast sc.now prefix.now (moves_after sc.now prefix.now) result }
    ensures cells { length trial.new.masses ≡ sc.now.cells }
{
    let moves = sc.moves_after(prefix);
    let mut best = 0;
    let mut least = left_after(sc, here, trial, moves[0]);
    for i in 1..moves.len() {
        let left = left_after(sc, here, trial, moves[i]);
        if left < least {
            best = i;
            least = left;
        }
    }
    moves[best]
}

// Makes the best move after a prefix: it looks from there, and adds it to the prefix.
fn go_on(sc: &Scenario, here: &mut Belief, trial: &mut Belief, prefix: &mut Path)
    requires belief { IsBelief sc.now (map Some prefix.old ++ None ∷ []) here.old }
    requires opened { IsOpened sc.now prefix.old }
    requires cells { length trial.old.masses ≡ sc.now.cells }
    ensures belief { IsBelief sc.now (map Some prefix.new) here.new }
    ensures opened { IsOpened sc.now prefix.new }
    ensures longer { length prefix.new ≡ length prefix.old + 1 }
    ensures cells { length trial.new.masses ≡ sc.now.cells }
{
    sc.recall_sound();
    let best = best_move(sc, here, trial, prefix);
    here.look(sc, best);
    prefix.push(best);
}

/// The path of a greedy searcher, with its value in parts of the whole weight: at each period it takes the least of the
/// moves that give the longer prefix the greatest value. Takes memory once, for two beliefs, and fails only where there
/// is none.
///
/// A belief holds what the looks so far missed, and another one tries each move from there, so a period costs one step
/// of the drift and one look for each move.
pub fn opening(alloc: Global, sc: &Scenario) -> Result<Standing, NoMemory>
    ensures path { IfOk result (λ s. IsOpening sc.now s.path) }
    ensures value { IfOk result (λ s. s.value ≡ value_of sc.now s.path) }
{
    let mut here = Belief::start(alloc, sc)?;
    let mut trial = Belief::start(alloc, sc)?;
    let mut path = Path::empty();
    go_on(sc, &mut here, &mut trial, &mut path);
    for _t in 1..sc.horizon() {
        here.drift(sc);
        go_on(sc, &mut here, &mut trial, &mut path);
    }
    let value = value_by(sc, &here, &path);
    Ok(Standing { path, value })
}
