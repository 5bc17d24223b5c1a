//! The tables of the edge bound for who keeps the rest.

ghost use Rattle.std.specs.Prelude.{◌≡◌, ◌<◌, ◌≤◌, ◌+◌, length, slice_index, take, IfOk};
ghost use Rattle.search_model.specs.Legal.{IsLegal, IsPath};
ghost use Rattle.search_model.specs.Edge.{edge_of};
ghost use Rattle.search_model.specs.Tracks.{value_of};
ghost use Rattle.longest_walk.specs.Near.{AreNear};
ghost use Rattle.belief_update.specs.Onward.{IsOnward};
ghost use Rattle.edge_bound.specs.Moves.{HasGains};
ghost use Rattle.edge_bound.specs.Units.{HasUnits};

use crate::along::sum_after;
use crate::rows::{best_first, go_back};
use crate::units::Units;
use belief_update::Onward;
use exact_parts::NoMemory;
use longest_walk::Near;
use search_model::{Path, Scenario};
use std::alloc::Global;
use std::marker::Model;

/// The tables of `Edge` for who keeps the beliefs of the periods after the prefix and the positions within reach, which
/// other bounds of the same scenario may read, too. Made for one scenario and filled anew for each bound.
#[derive(Drop)]
pub struct EdgeTables {
    // What looks find of units of mass, made once.
    units: Units,
    // Per position, the reward of a look from it without the look before, and the greatest sum from there on.
    gains: Vec<u128>,
    // Room for those of the period before.
    earlier: Vec<u128>,
    // What the look before finds, cell by cell of its row, in the parts of what is to come.
    shares: Vec<u128>,
}

impl Model for EdgeTables {
    ghost use Rattle.edge_bound.specs.Edges.{EdgeRoom};

    ghost Value = { EdgeRoom };

    ghost view = { λ e. record {
      units = e.units;
      gains = e.gains.items;
      earlier = e.earlier.items;
      shares = e.shares.items;
    } };
}

// The greatest of a prefix's value with the rewards of its continuations, by the beliefs after it.
fn bound_from(
    value: u128,
    onward: &Onward,
    units: &Units,
    gains: &mut [u128],
    earlier: &mut [u128],
    shares: &mut [u128],
    sc: &Scenario,
    near: &Near,
    prefix: &Path,
) -> u128
    requires near { AreNear sc.now.moves sc.now.horizon near.now }
    requires value { value ≡ value_of sc.now prefix.now }
    requires onward { IsOnward sc.now prefix.now onward.now }
    requires units { HasUnits sc.now units.now }
    requires width { length gains.old ≡ sc.now.positions }
    requires room { length earlier.old ≡ sc.now.positions }
    requires shares { length shares.old ≡ sc.now.cells }
    requires legal { IsLegal sc.now prefix.now }
    requires short { length prefix.now < sc.now.horizon }
    ensures bound { result ≡ edge_of sc.now prefix.now }
    ensures gains { HasGains sc.now prefix.now (length prefix.now + 1) gains.new }
{
    sc.recall_sound();
    go_back(gains, earlier, shares, sc, near, prefix, onward, units);
    value + best_first(sc, prefix, gains)
}

// A prefix's value with the rewards of one path that extends it, by the beliefs after it.
fn sum_from(
    value: u128,
    onward: &Onward,
    units: &Units,
    shares: &mut [u128],
    sc: &Scenario,
    prefix: &Path,
    path: &Path,
) -> u128
    requires value { value ≡ value_of sc.now prefix.now }
    requires onward { IsOnward sc.now prefix.now onward.now }
    requires units { HasUnits sc.now units.now }
    requires short { length prefix.now < sc.now.horizon }
    requires path { IsPath sc.now path.now }
    requires begins { take (length prefix.now) path.now ≡ prefix.now }
    requires shares { length shares.old ≡ sc.now.cells }
    ensures shown { result ≤ edge_of sc.now prefix.now }
    ensures shares { length shares.new ≡ length shares.old }
{
    sc.recall_sound();
    value + sum_after(sc, prefix, onward, units, shares, path.cells())
}

impl EdgeTables {
    ghost use Rattle.search_model.specs.Problem.{Problem};
    ghost use Rattle.edge_bound.specs.Edges.{AreTablesFor};

    /// Tables for a scenario. Only this call takes memory.
    pub fn tables(alloc: Global, sc: &Scenario) -> Result<EdgeTables, NoMemory>
        ensures { IfOk result (AreTablesFor sc.now) }
    {
        let positions = usize::from(sc.positions());
        Ok(EdgeTables {
            units: Units::tables(alloc, sc)?,
            gains: vec![in alloc; 0; positions]?,
            earlier: vec![in alloc; 0; positions]?,
            shares: vec![in alloc; 0; usize::from(sc.cells())]?,
        })
    }

    /// What looks find of units of mass a period after, for who makes other bounds of the same scenario.
    pub fn units(&self) -> &Units
        ensures units { (p : Problem) → AreTablesFor p self.now → HasUnits p result.now }
    {
        &self.units
    }

    /// The edge bound of a legal prefix shorter than the horizon, in parts of the whole weight, by the positions within
    /// reach and the beliefs of the periods after the prefix. The tables then hold what `gain` answers. Takes no memory.
    pub fn bound_by(&mut self, sc: &Scenario, near: &Near, onward: &Onward, prefix: &Path) -> u128
        requires made { AreTablesFor sc.now self.old }
        requires near { AreNear sc.now.moves sc.now.horizon near.now }
        requires legal { IsLegal sc.now prefix.now }
        requires short { length prefix.now < sc.now.horizon }
        requires onward { IsOnward sc.now prefix.now onward.now }
        ensures bound { result ≡ edge_of sc.now prefix.now }
        ensures gains { HasGains sc.now prefix.now (length prefix.now + 1) self.new.gains }
        ensures made { AreTablesFor sc.now self.new }
    {
        bound_from(
            onward.value(),
            onward,
            &self.units,
            &mut self.gains,
            &mut self.earlier,
            &mut self.shares,
            sc,
            near,
            prefix,
        )
    }

    /// What the last call of `bound_by` reached by way of this position: the reward of a look from there in the period
    /// after the prefix, and the greatest sum of edge rewards from there on.
    pub fn gain(&self, b: u8) -> u128
        requires { b < length self.now.gains }
        ensures { result ≡ slice_index self.now.gains b }
    {
        self.gains[usize::from(b)]
    }

    /// The same bound; or else, where a path that extends the prefix shows that the bound is at least `enough`, a number
    /// from that up to the bound, which takes less time. Takes no memory.
    pub fn bound_or_enough(
        &mut self,
        sc: &Scenario,
        near: &Near,
        onward: &Onward,
        prefix: &Path,
        path: &Path,
        enough: u128,
    ) -> u128
        requires made { AreTablesFor sc.now self.old }
        requires near { AreNear sc.now.moves sc.now.horizon near.now }
        requires legal { IsLegal sc.now prefix.now }
        requires short { length prefix.now < sc.now.horizon }
        requires onward { IsOnward sc.now prefix.now onward.now }
        requires path { IsPath sc.now path.now }
        requires begins { take (length prefix.now) path.now ≡ prefix.now }
        ensures bound { result < enough → result ≡ edge_of sc.now prefix.now }
        ensures enough { enough ≤ result → enough ≤ edge_of sc.now prefix.now }
        ensures made { AreTablesFor sc.now self.new }
    {
        let value = onward.value();
        let shown = sum_from(
            value,
            onward,
            &self.units,
            &mut self.shares,
            sc,
            prefix,
            path,
        );
        if shown < enough {
            bound_from(
                value,
                onward,
                &self.units,
                &mut self.gains,
                &mut self.earlier,
                &mut self.shares,
                sc,
                near,
                prefix,
            )
        } else {
            shown
        }
    }
}
