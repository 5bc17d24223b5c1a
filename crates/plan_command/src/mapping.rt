//! The map of a flown prefix.

ghost use Rattle.std.specs.Prelude.{◌≡◌, ◌≤◌, length, map, string_bytes, IfOk};
ghost use Rattle.search_model.specs.Legal.{IsLegal};
ghost use Rattle.mission_report.specs.Map.{map_text};
ghost use Rattle.plan_command.specs.Gives.{Gives};
ghost use Rattle.plan_command.specs.Replans.{IsMapped, IsUnmapped};

use crate::flown::{flown_from, unflown};
use crate::status::Stop;
use exact_parts::NoMemory;
use residual_plan::push_map;
use search_model::{Path, Scenario};
use std::alloc::Global;

// The map of a legal prefix.
fn map_of(alloc: Global, sc: &Scenario, flown: &Path) -> Result<Vec<u8>, NoMemory>
    requires legal { IsLegal sc.now flown.now }
    requires some { 1 ≤ length flown.now }
    ensures { IfOk result (λ text. text.items ≡ map_text sc.now flown.now) }
{
    let mut text = Vec::new(alloc);
    push_map(&mut text, sc, flown)?;
    Ok(text)
}

/// The map of the prefix of these names: for each of its periods, what the looks up to then leave in each cell.
pub fn map_flown(alloc: Global, sc: &Scenario, names: &[String]) -> Result<Vec<u8>, Stop>
    requires some { 1 ≤ length names.now }
    requires most { length names.now ≤ 32 }
    ensures { Gives (IsMapped sc.now (map string_bytes names.now))
        (IsUnmapped sc.now (map string_bytes names.now)) result }
{
    match flown_from(sc, names) {
        Ok(flown) => Ok(map_of(alloc, sc, &flown)?),
        Err(why) => Err(unflown(why)),
    }
}
