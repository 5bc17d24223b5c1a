//! Planning for two searchers.

ghost use Rattle.std.specs.Prelude.{◌≡◌, ◌≤◌, ◌<◌, ℕ, List};
ghost use Rattle.plan_command.specs.Words.{IsCrew};
ghost use Rattle.plan_command.specs.Gives.{Gives};
ghost use Rattle.plan_command.specs.Whys.{duo_name_of};
ghost use Rattle.plan_command.specs.Duos.{Names, IsPaired, IsUnpairedFrom};
ghost use Rattle.bound_tree.specs.declared.tree.TheConstants.{MOST_NODES};

use crate::made_plans::made_and_planned;
use crate::status::{Refusal, Stop};
use duo_search::{DuoFault, product};
use search_model::{Name, Scenario};
use search_workers::Gate;
use std::sync::Wait;
use std::thread::Threads;

/// Why there is no plan for two searchers; the first of these that holds is named.
#[derive(Clone, Copy, Debug, PartialEq, Eq)]
pub enum DuoWhy {
    /// The name is no position's.
    UnknownName,
    /// There are more than 14 positions.
    TooManyPositions,
    /// The numbers of moves of two positions, or of one with itself, multiply to more than 64.
    TooManyMoves,
    /// The look denominator is above 1000.
    TooFine,
    /// The widest sum doesn't fit 127 bits.
    TooWide,
}

/// The name of a reason.
pub fn duo_why_name(why: DuoWhy) -> &'static str
    ensures { result.now ≡ duo_name_of why }
{
    match why {
        DuoWhy::UnknownName => "UnknownName",
        DuoWhy::TooManyPositions => "TooManyPositions",
        DuoWhy::TooManyMoves => "TooManyMoves",
        DuoWhy::TooFine => "TooFine",
        DuoWhy::TooWide => "TooWide",
    }
}

// There is no plan for two, for this reason.
fn unpaired(why: DuoWhy) -> Stop
    ensures { result ≡ Stop.Refused (Refusal.BadDuo why) }
{
    Stop::Refused(Refusal::BadDuo(why))
}

// The product scenario in which the second searcher starts at this position, and its plan.
fn pair_from<R: AllocGlobal + Threads + Wait + Sync, G: Gate>(
    rt: &R,
    sc: &Scenario,
    second: u8,
    workers: u32,
    nodes: u64,
    gate: &G,
) -> Result<Vec<u8>, Stop>
    requires second { second < sc.now.positions }
    requires crew { IsCrew workers }
    requires nodes { (1 ≤ nodes) × (nodes ≤ MOST_NODES) }
    ensures { (name : List ℕ) → Names sc.now name second
        → Gives (IsPaired nodes sc.now name) (IsUnpairedFrom nodes sc.now name) result }
{
    match product(rt.alloc(), sc, second) {
        Ok(made) => {
            let text = made_and_planned(rt, &made, workers, nodes, gate);
            // (a call, as in `answer_scenario`)
            drop(made);
            text
        }
        Err(DuoFault::TooManyPositions) => Err(unpaired(DuoWhy::TooManyPositions)),
        Err(DuoFault::TooManyMoves) => Err(unpaired(DuoWhy::TooManyMoves)),
        Err(DuoFault::TooFine) => Err(unpaired(DuoWhy::TooFine)),
        Err(DuoFault::TooWide) => Err(unpaired(DuoWhy::TooWide)),
        Err(DuoFault::NoMemory) => Err(Stop::NoMemory),
    }
}

/// The product scenario in which the second searcher starts at the position of this name, and its plan: the pair of
/// paths that finds most.
pub fn pair<R: AllocGlobal + Threads + Wait + Sync, G: Gate>(
    rt: &R,
    sc: &Scenario,
    name: &Name,
    workers: u32,
    nodes: u64,
    gate: &G,
) -> Result<Vec<u8>, Stop>
    requires crew { IsCrew workers }
    requires nodes { (1 ≤ nodes) × (nodes ≤ MOST_NODES) }
    ensures { Gives (IsPaired nodes sc.now name.now) (IsUnpairedFrom nodes sc.now name.now) result }
{
    match sc.position_named(name.bytes()) {
        Some(second) => pair_from(rt, sc, second, workers, nodes, gate),
        None => Err(unpaired(DuoWhy::UnknownName)),
    }
}
