//! Beliefs of the periods after a prefix, and after each shorter front of it.

ghost use Rattle.std.specs.Prelude.{◌≡◌, ◌<◌, ◌≤◌, ◌+◌, [], ℕ, List, length, take, IfOk, IsTrue, All};
ghost use Rattle.search_model.specs.Problem.{Problem};
ghost use Rattle.search_model.specs.Legal.{IsLegal};
ghost use Rattle.search_model.specs.Tracks.{value_of};
ghost use Rattle.belief_update.specs.Onward.{IsMadeFor, IsOnward};
ghost use Rattle.belief_update.specs.Levels.{AreLevels, AreLevelsOf, AreRooms, level_at};
ghost use Rattle.belief_update.specs.Masses.{AreBehind};
ghost use Rattle.belief_update.specs.Flows.{AreFlows, HasOwnFlow};

use crate::along::take_along;
use crate::flows::{Flow, flows_over};
use crate::onward::Onward;
use crate::taken::Taken;
use crate::trail::in_common;
use exact_parts::NoMemory;
use search_model::{Path, Scenario};
use std::alloc::Global;
use std::marker::Model;

/// The beliefs of the periods after a prefix with no look after it, and those after each shorter front of it. A prefix that
/// comes next keeps those of the fronts that both have, and each further one is made of the one before it.
#[derive(Drop)]
pub struct Levels {
    prefix: Path,
    // Per number of looks, the beliefs after so many looks of the prefix.
    levels: Vec<Onward>,
    // What the last look took, or the looks of the last prefix whose value was asked for.
    taken: Taken,
    // Where units of single cells go, if all steps of the drift are alike.
    flows: Vec<Flow>,
}

impl Model for Levels {
    ghost use Rattle.std.specs.Prelude.{◌<◌, length};
    ghost use Rattle.belief_update.specs.Levels.{LevelsState};

    ghost Value = { LevelsState };

    ghost view = { λ l. record { prefix = l.prefix; levels = l.levels.items; taken = l.taken; flows = l.flows.items } };

    ghost invariant = { λ l. length l.prefix < length l.levels.items };
}

// Room for one level a period, each for the periods after so many looks as there are before it.
fn rooms(alloc: Global, sc: &Scenario) -> Result<Vec<Onward>, NoMemory>
    ensures size { IfOk result (λ levels. length levels.items ≡ sc.now.horizon) }
    ensures first { IfOk result (λ levels. IsMadeFor sc.now (level_at levels.items 0)) }
    ensures made { IfOk result (λ levels. AreRooms sc.now levels.items) }
{
    sc.recall_sound();
    let mut levels = Vec::new(alloc);
    levels.push(Onward::tables(alloc, sc)?)?;
    for k in 1..sc.horizon() {
        levels.push(Onward::behind(alloc, sc, k)?)?;
    }
    Ok(levels)
}

// Makes the level before all looks.
fn begin(levels: &mut [Onward], sc: &Scenario)
    requires size { length levels.old ≡ sc.now.horizon }
    requires first { IsMadeFor sc.now (level_at levels.old 0) }
    requires made { AreRooms sc.now levels.old }
    ensures { AreLevels sc.now [] 0 levels.new }
{
    sc.recall_sound();
    levels[0].go_to(sc, &Path::empty());
}

// Whether the flow of a position's own cell is there, and its looks cover that cell alone.
fn has_own_flow(flows: &[Flow], sc: &Scenario, a: u8) -> bool
    requires position { a < sc.now.positions }
    requires flows { AreFlows sc.now flows.now }
    ensures { IsTrue result → HasOwnFlow sc.now flows.now a }
{
    if flows.is_empty() {
        return false;
    }
    match sc.sweep().own_part(a) {
        Some(_) => true,
        None => false,
    }
}

// Makes the level after look `i` by the one before it.
fn open(
    levels: &mut [Onward],
    taken: &mut Taken,
    flows: &mut [Flow],
    sc: &Scenario,
    looks: &[u8],
    i: usize,
)
    requires inside { i < length looks.now }
    requires short { length looks.now < sc.now.horizon }
    requires positions { All (λ a. a < sc.now.positions) looks.now }
    requires room { length taken.old.masses ≡ sc.now.cells }
    requires flows { AreFlows sc.now flows.old }
    requires levels { AreLevels sc.now looks.now i levels.old }
    ensures levels { AreLevels sc.now looks.now (i + 1) levels.new }
    ensures room { length taken.new.masses ≡ sc.now.cells }
    ensures flows { AreFlows sc.now flows.new }
{
    let (before, after) = levels.split_at_mut(i + 1);
    let a = looks[i];
    if has_own_flow(flows, sc, a) {
        after[0].look_from_own(sc, &before[i], i, a, taken, &mut flows[usize::from(a)]);
    } else {
        after[0].look_from(sc, &before[i], i, a, taken);
    }
}

// Makes the levels after all looks from the first `same` on.
fn go_on(
    levels: &mut [Onward],
    taken: &mut Taken,
    flows: &mut [Flow],
    sc: &Scenario,
    looks: &[u8],
    same: usize,
)
    requires same { same ≤ length looks.now }
    requires short { length looks.now < sc.now.horizon }
    requires positions { All (λ a. a < sc.now.positions) looks.now }
    requires room { length taken.old.masses ≡ sc.now.cells }
    requires flows { AreFlows sc.now flows.old }
    requires levels { AreLevels sc.now looks.now same levels.old }
    ensures levels { AreLevels sc.now looks.now (length looks.now) levels.new }
    ensures room { length taken.new.masses ≡ sc.now.cells }
    ensures flows { AreFlows sc.now flows.new }
{
    for i in same..looks.len() {
        open(levels, taken, flows, sc, looks, i);
    }
}

// The value of a prefix, by what its looks after the first `k` take of the level of so many.
fn value_from(taken: &mut Taken, sc: &Scenario, onward: &Onward, prefix: &Path, k: u32) -> u128
    requires room { length taken.old.masses ≡ sc.now.cells }
    requires legal { IsLegal sc.now prefix.now }
    requires inside { k ≤ length prefix.now }
    requires onward { IsOnward sc.now (take k prefix.now) onward.now }
    ensures value { result ≡ value_of sc.now prefix.now }
    ensures room { length taken.new.masses ≡ sc.now.cells }
{
    let looks = prefix.len() as u32;
    if k == looks {
        return onward.value();
    }
    take_along(sc, taken, onward, prefix, k, looks);
    taken.value(sc, onward.value(), looks)
}

// Writes the masses behind a prefix, by what its looks after the first `k` take of the level of so many.
fn leave_behind(
    left: &mut [u128],
    taken: &mut Taken,
    sc: &Scenario,
    onward: &Onward,
    prefix: &Path,
    k: u32,
)
    requires width { length left.old ≡ sc.now.cells }
    requires room { length taken.old.masses ≡ sc.now.cells }
    requires legal { IsLegal sc.now prefix.now }
    requires short { length prefix.now < sc.now.horizon }
    requires inside { k ≤ length prefix.now }
    requires onward { IsOnward sc.now (take k prefix.now) onward.now }
    ensures each { AreBehind sc.now prefix.now left.new }
    ensures room { length taken.new.masses ≡ sc.now.cells }
{
    let looks = prefix.len() as u32;
    let ahead = onward.at(looks + 1);
    if k == looks {
        left.copy_from_slice(ahead.masses());
        return;
    }
    take_along(sc, taken, onward, prefix, k, looks);
    taken.drift(sc);
    taken.leave(sc, ahead, left);
}

impl Levels {
    /// The levels of the empty prefix. Only this call takes memory.
    pub fn tables(alloc: Global, sc: &Scenario) -> Result<Levels, NoMemory>
        ensures made { IfOk result (AreLevelsOf sc.now) }
        ensures prefix { IfOk result (λ l. l.prefix ≡ []) }
    {
        sc.recall_sound();
        let mut levels = rooms(alloc, sc)?;
        begin(&mut levels, sc);
        Ok(Levels {
            prefix: Path::empty(),
            levels,
            taken: Taken::tables(alloc, sc)?,
            flows: flows_over(alloc, sc)?,
        })
    }

    /// Goes to a legal prefix that is shorter than the horizon.
    pub fn go_to(&mut self, sc: &Scenario, prefix: &Path)
        requires made { AreLevelsOf sc.now self.old }
        requires legal { IsLegal sc.now prefix.now }
        requires short { length prefix.now < sc.now.horizon }
        ensures made { AreLevelsOf sc.now self.new }
        ensures prefix { self.new.prefix ≡ prefix.now }
    {
        sc.recall_sound();
        let same = in_common(self.prefix.cells(), prefix.cells());
        go_on(
            &mut self.levels,
            &mut self.taken,
            &mut self.flows,
            sc,
            prefix.cells(),
            same,
        );
        self.prefix = *prefix;
    }

    /// The value of a legal prefix, in parts of the whole weight, by the level of what it has in common with the levels'
    /// own, which stays.
    pub fn value(&mut self, sc: &Scenario, prefix: &Path) -> u128
        requires made { AreLevelsOf sc.now self.old }
        requires legal { IsLegal sc.now prefix.now }
        ensures value { result ≡ value_of sc.now prefix.now }
        ensures made { AreLevelsOf sc.now self.new }
        ensures prefix { self.new.prefix ≡ self.old.prefix }
    {
        let same = in_common(self.prefix.cells(), prefix.cells());
        let onward = &self.levels[same];
        value_from(&mut self.taken, sc, onward, prefix, same as u32)
    }

    /// Writes the masses behind a legal prefix that is shorter than the horizon, in the period after it, by the level of what
    /// it has in common with the levels' own, which stays.
    pub fn masses_behind(&mut self, sc: &Scenario, prefix: &Path, masses: &mut [u128])
        requires made { AreLevelsOf sc.now self.old }
        requires legal { IsLegal sc.now prefix.now }
        requires short { length prefix.now < sc.now.horizon }
        requires width { length masses.old ≡ sc.now.cells }
        ensures each { AreBehind sc.now prefix.now masses.new }
        ensures made { AreLevelsOf sc.now self.new }
        ensures prefix { self.new.prefix ≡ self.old.prefix }
    {
        let same = in_common(self.prefix.cells(), prefix.cells());
        let onward = &self.levels[same];
        leave_behind(masses, &mut self.taken, sc, onward, prefix, same as u32);
    }

    /// The beliefs of the periods after the prefix.
    pub fn last(&self) -> &Onward
        ensures { (p : Problem) → AreLevelsOf p self.now → IsOnward p self.now.prefix result.now }
    {
        &self.levels[self.prefix.len()]
    }
}
