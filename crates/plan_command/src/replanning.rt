//! Replanning behind a flown prefix.

ghost use Rattle.std.specs.Prelude.{◌≡◌, ◌≤◌, ℕ, List, length, map, string_bytes};
ghost use Rattle.search_model.specs.Legal.{IsLegal};
ghost use Rattle.plan_command.specs.Words.{IsCrew};
ghost use Rattle.plan_command.specs.Gives.{Gives};
ghost use Rattle.plan_command.specs.Flown.{IsFlown};
ghost use Rattle.plan_command.specs.Replans.{IsReplanned, IsUnreplanned};
ghost use Rattle.bound_tree.specs.declared.tree.TheConstants.{MOST_NODES};

use crate::flown::{FlownWhy, flown_from, unflown};
use crate::made_plans::made_and_planned;
use crate::status::Stop;
use residual_plan::{ForceFault, forced};
use search_model::{Path, Scenario};
use search_workers::Gate;
use std::sync::Wait;
use std::thread::Threads;

// The scenario that forces a legal prefix, and its plan.
fn replan_flown<R: AllocGlobal + Threads + Wait + Sync, G: Gate>(
    rt: &R,
    sc: &Scenario,
    flown: &Path,
    workers: u32,
    nodes: u64,
    gate: &G,
) -> Result<Vec<u8>, Stop>
    requires legal { IsLegal sc.now flown.now }
    requires some { 1 ≤ length flown.now }
    requires crew { IsCrew workers }
    requires nodes { (1 ≤ nodes) × (nodes ≤ MOST_NODES) }
    ensures { (names : List (List ℕ)) → IsFlown sc.now names flown.now
        → Gives (IsReplanned nodes sc.now names) (IsUnreplanned nodes sc.now names) result }
{
    match forced(rt.alloc(), sc, flown) {
        Ok(made) => {
            made.recall_sound();
            let text = made_and_planned(rt, &made, workers, nodes, gate);
            // (a call, as in `answer_scenario`)
            drop(made);
            text
        }
        Err(ForceFault::NotLegal) => unreachable!(),
        Err(ForceFault::TooManyPositions) => Err(unflown(FlownWhy::TooManyPositions)),
        Err(ForceFault::NameTaken) => Err(unflown(FlownWhy::NameTaken)),
        Err(ForceFault::NoMemory) => Err(Stop::NoMemory),
    }
}

/// The scenario that forces the prefix of these names, and its plan: the best path among those that begin with the
/// prefix.
pub fn replan<R: AllocGlobal + Threads + Wait + Sync, G: Gate>(
    rt: &R,
    sc: &Scenario,
    names: &[String],
    workers: u32,
    nodes: u64,
    gate: &G,
) -> Result<Vec<u8>, Stop>
    requires some { 1 ≤ length names.now }
    requires most { length names.now ≤ 32 }
    requires crew { IsCrew workers }
    requires nodes { (1 ≤ nodes) × (nodes ≤ MOST_NODES) }
    ensures { Gives (IsReplanned nodes sc.now (map string_bytes names.now))
        (IsUnreplanned nodes sc.now (map string_bytes names.now)) result }
{
    match flown_from(sc, names) {
        Ok(flown) => replan_flown(rt, sc, &flown, workers, nodes, gate),
        Err(why) => Err(unflown(why)),
    }
}
