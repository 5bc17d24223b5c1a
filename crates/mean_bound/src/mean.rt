//! The tables of the mean bound.

ghost use Rattle.std.specs.Prelude.{◌≡◌, ◌<◌, ◌≤◌, ◌+◌, ◌*◌, ℕ, List, length, IfOk};
ghost use Rattle.search_model.specs.Problem.{Problem};
ghost use Rattle.search_model.specs.Legal.{IsLegal, last_of};
ghost use Rattle.search_model.specs.Tracks.{value_of};
ghost use Rattle.search_model.specs.Bounds.{mean_of, reward_of};
ghost use Rattle.longest_walk.specs.Near.{AreNear};
ghost use Rattle.longest_walk.specs.Tables.{IsFilledNear};
ghost use Rattle.belief_update.specs.Masses.{AreBehind};
ghost use Rattle.belief_update.specs.Trails.{IsPast};
ghost use Rattle.belief_update.specs.Onward.{IsOnward};
ghost use Rattle.mean_bound.specs.Rewards.{HasRewards};

use crate::rewards::fill_rewards;
use belief_update::{Belief, Levels, Onward};
use exact_parts::NoMemory;
use longest_walk::{Near, Walk};
use search_model::{Path, Scenario};
use std::alloc::Global;
use std::marker::Model;

/// Tables for the mean bound of prefixes, made for one scenario.
///
/// The bound is the value of the prefix, and the greatest sum of rewards over its continuations; the reward of a look is
/// what it finds after the looks of the prefix and no others. So it is no less than the value of each path that begins
/// with the prefix (Martins 1993).
///
/// The tables keep the beliefs of all periods after the last prefix that was bounded and after each shorter front of it,
/// and the next one uses those of the part that it has in common with it: prefixes are best asked in order, as a search in
/// depth meets them.
#[derive(Drop)]
pub struct Mean {
    near: Near,
    levels: Levels,
    rewards: Vec<u128>,
    walk: Walk,
}

impl Model for Mean {
    ghost use Rattle.mean_bound.specs.Means.{MeanState};

    ghost Value = { MeanState };

    ghost view = { λ m. record { near = m.near; levels = m.levels; rewards = m.rewards.items; walk = m.walk } };
}

// The mean bound of a prefix, by the beliefs after it. Fills in the rewards after the prefix, and their walks.
fn bound_by(
    near: &Near,
    rewards: &mut [u128],
    walk: &mut Walk,
    sc: &Scenario,
    onward: &Onward,
    prefix: &Path,
) -> u128
    requires within { AreNear sc.now.moves sc.now.horizon near.now }
    requires size { length rewards.old ≡ sc.now.horizon * sc.now.positions }
    requires positions { walk.old.positions ≡ sc.now.positions }
    requires horizon { walk.old.horizon ≡ sc.now.horizon }
    requires legal { IsLegal sc.now prefix.now }
    requires short { length prefix.now < sc.now.horizon }
    requires onward { IsOnward sc.now prefix.now onward.now }
    ensures bound { result ≡ mean_of sc.now prefix.now }
    ensures rewards { HasRewards sc.now prefix.now rewards.new }
    ensures walked { IsFilledNear walk.new sc.now.moves (reward_of sc.now prefix.now)
        (last_of sc.now.start prefix.now) (length prefix.now) }
    ensures positions { walk.new.positions ≡ sc.now.positions }
    ensures horizon { walk.new.horizon ≡ sc.now.horizon }
{
    let value = onward.value();
    fill_rewards(rewards, sc, near, onward, prefix);
    let from = sc.last_after(prefix);
    walk.fill_near(sc.grid(), near, rewards, from, prefix.len() as u32);
    value + walk.greatest()
}

impl Mean {
    ghost use Rattle.mean_bound.specs.Means.{IsMadeFor, IsAlong, IsFilledFor};
    ghost use Rattle.search_model.specs.Reference.{IsReference};

    /// Tables for a scenario. Only this call takes memory.
    pub fn tables(alloc: Global, sc: &Scenario) -> Result<Mean, NoMemory>
        ensures { IfOk result (IsMadeFor sc.now) }
    {
        let positions = sc.positions();
        let horizon = sc.horizon();
        Ok(Mean {
            near: Near::tables(alloc, sc.grid(), horizon)?,
            levels: Levels::tables(alloc, sc)?,
            rewards: vec![in alloc; 0; horizon as usize * usize::from(positions)]?,
            walk: Walk::tables(alloc, positions, horizon)?,
        })
    }

    /// Goes to a legal prefix shorter than the horizon: `onward` then has the beliefs after it. The rewards stay those of
    /// the last prefix that was bounded.
    pub fn go_to(&mut self, sc: &Scenario, prefix: &Path)
        requires made { IsMadeFor sc.now self.old }
        requires legal { IsLegal sc.now prefix.now }
        requires short { length prefix.now < sc.now.horizon }
        ensures made { IsMadeFor sc.now self.new }
        ensures there { IsAlong prefix.now self.new }
        ensures filled { (q : List ℕ) → IsFilledFor sc.now q self.old → IsFilledFor sc.now q self.new }
    {
        self.levels.go_to(sc, prefix);
    }

    /// The mean bound of a legal prefix shorter than the horizon, in parts of the whole weight. The tables then hold the
    /// rewards after this prefix.
    pub fn bound(&mut self, sc: &Scenario, prefix: &Path) -> u128
        requires made { IsMadeFor sc.now self.old }
        requires legal { IsLegal sc.now prefix.now }
        requires short { length prefix.now < sc.now.horizon }
        ensures bound { result ≡ mean_of sc.now prefix.now }
        ensures made { IsMadeFor sc.now self.new }
        ensures there { IsAlong prefix.now self.new }
        ensures filled { IsFilledFor sc.now prefix.now self.new }
    {
        self.levels.go_to(sc, prefix);
        bound_by(
            &self.near,
            &mut self.rewards,
            &mut self.walk,
            sc,
            self.levels.last(),
            prefix,
        )
    }

    /// The same bound, for who has a belief after the prefix, in the period of its last look or in the next one. The tables
    /// keep such beliefs themselves, so that it takes no time less.
    pub fn bound_after(&mut self, sc: &Scenario, row: &Belief, prefix: &Path) -> u128
        requires made { IsMadeFor sc.now self.old }
        requires legal { IsLegal sc.now prefix.now }
        requires short { length prefix.now < sc.now.horizon }
        requires row { IsPast sc.now prefix.now row.now }
        requires near { row.now.period ≤ length prefix.now + 1 }
        ensures bound { result ≡ mean_of sc.now prefix.now }
        ensures made { IsMadeFor sc.now self.new }
        ensures there { IsAlong prefix.now self.new }
        ensures filled { IsFilledFor sc.now prefix.now self.new }
    {
        let _known = row;
        self.bound(sc, prefix)
    }

    /// The value of a legal prefix, in parts of the whole weight. The rewards stay those of the last prefix that was
    /// bounded, and so do the beliefs of `onward`.
    pub fn value(&mut self, sc: &Scenario, prefix: &Path) -> u128
        requires made { IsMadeFor sc.now self.old }
        requires legal { IsLegal sc.now prefix.now }
        ensures value { result ≡ value_of sc.now prefix.now }
        ensures made { IsMadeFor sc.now self.new }
        ensures there { (q : List ℕ) → IsAlong q self.old → IsAlong q self.new }
        ensures filled { (q : List ℕ) → IsFilledFor sc.now q self.old → IsFilledFor sc.now q self.new }
    {
        self.levels.value(sc, prefix)
    }

    /// Writes the masses behind a legal prefix that is shorter than the horizon, in the period after it. The rewards stay those
    /// of the last prefix that was bounded, and so do the beliefs of `onward`.
    pub fn masses_behind(&mut self, sc: &Scenario, prefix: &Path, masses: &mut [u128])
        requires made { IsMadeFor sc.now self.old }
        requires legal { IsLegal sc.now prefix.now }
        requires short { length prefix.now < sc.now.horizon }
        requires width { length masses.old ≡ sc.now.cells }
        ensures each { AreBehind sc.now prefix.now masses.new }
        ensures made { IsMadeFor sc.now self.new }
        ensures there { (q : List ℕ) → IsAlong q self.old → IsAlong q self.new }
        ensures filled { (q : List ℕ) → IsFilledFor sc.now q self.old → IsFilledFor sc.now q self.new }
    {
        self.levels.masses_behind(sc, prefix, masses);
    }

    /// The beliefs of the periods after the prefix that the tables are along, with no look after it.
    pub fn onward(&self) -> &Onward
        ensures { (p : Problem) (q : List ℕ) → IsMadeFor p self.now → IsAlong q self.now → IsOnward p q result.now }
    {
        self.levels.last()
    }

    /// For each position the positions within reach of it, up to the horizon.
    pub fn near(&self) -> &Near
        ensures { (p : Problem) → IsMadeFor p self.now → AreNear p.moves p.horizon result.now }
    {
        &self.near
    }

    /// Adds to the last prefix that was bounded the least of its continuations that reach the greatest sum of rewards.
    pub fn reference(&self, sc: &Scenario, to: &mut Path)
        requires made { IsMadeFor sc.now self.now }
        requires filled { IsFilledFor sc.now to.old self.now }
        ensures { IsReference sc.now to.old to.new }
    {
        self.walk.least_near(sc.grid(), to);
    }
}
