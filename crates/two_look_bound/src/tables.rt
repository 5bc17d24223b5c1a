//! The tables of the bound that remembers two looks.

ghost use Rattle.std.specs.Prelude.{◌≡◌, ◌<◌, ◌≤◌, ◌+◌, ◌*◌, length, take, IfOk};
ghost use Rattle.search_model.specs.Legal.{IsLegal, IsPath};
ghost use Rattle.search_model.specs.Tracks.{value_of};
ghost use Rattle.search_model.specs.Memory.{remembering_of};
ghost use Rattle.longest_walk.specs.Near.{AreNear};
ghost use Rattle.belief_update.specs.Onward.{IsOnward};
ghost use Rattle.edge_bound.specs.Units.{HasUnits};
ghost use Rattle.two_look_bound.specs.Setting.{IsSetting, three_rows};

use crate::along::sum_after;
use crate::rows::{best_first, go_back};
use crate::setting::Setting;
use crate::twos::twos_of;
use belief_update::Onward;
use edge_bound::{Units, has_own_looks};
use exact_parts::NoMemory;
use longest_walk::Near;
use search_model::{Path, Scenario};
use std::alloc::Global;
use std::marker::Model;

/// The tables of the bound that remembers two looks, for who keeps the beliefs of the periods after the prefix and the positions
/// within reach. Made for one scenario and filled anew for each bound.
///
/// The bound is the value of the prefix, and the greatest sum of rewards over its continuations, where the reward of a look is what
/// it finds after the looks of the prefix and the two looks just before it. The mean bound (Martins 1993) remembers no look, and the
/// edge bound one; two take away no less than one does, so the bound is no more than the edge bound, and no less than the value of
/// each path that begins with the prefix.
#[derive(Drop)]
pub struct TwoLookTables {
    // What looks find of units of mass two periods after, and whether each look covers its own cell alone; made once.
    twos: Units,
    own: bool,
    // Per pair of positions, a row for each first one: the edge reward of the second, and the greatest sum from there on. Of one
    // period, and room for those of the period before.
    sums: Vec<u128>,
    // What a look finds in each of its cells, what it takes of each cell a period later, and what a look finds of that in each of its
    // cells; and per position what a look from it finds with a look two periods before, and its reward with no look after the prefix.
    rows: Vec<u128>,
}

impl Model for TwoLookTables {
    ghost use Rattle.two_look_bound.specs.Rooms.{TwoLookRoom};

    ghost Value = { TwoLookRoom };

    ghost view = { λ e. record {
      twos = e.twos;
      own = e.own;
      sums = e.sums.items;
      rows = e.rows.items;
    } };
}

// The greatest of a prefix's value with the rewards of its continuations, by the beliefs after it.
fn bound_from(value: u128, sums: &mut [u128], rows: &mut [u128], given: &Setting) -> u128
    requires given { IsSetting given.now }
    requires value { value ≡ value_of given.now.sc.now given.now.prefix.now }
    requires sums { length sums.old ≡ given.now.sc.now.positions * given.now.sc.now.positions + given.now.sc.now.positions * given.now.sc.now.positions }
    requires rows { length rows.old ≡ three_rows given.now.sc.now + given.now.sc.now.positions + given.now.sc.now.positions }
    requires short { length given.now.prefix.now < given.now.sc.now.horizon }
    ensures { result ≡ remembering_of given.now.sc.now 2 given.now.prefix.now }
{
    given.sc.recall_sound();
    let positions = usize::from(given.sc.positions());
    let (pairs, earlier) = sums.split_at_mut(positions * positions);
    go_back(pairs, earlier, rows, given);
    value + best_first(given, pairs)
}

// A prefix's value with the rewards of one path that extends it, by the beliefs after it.
fn sum_from(value: u128, rows: &mut [u128], given: &Setting, path: &Path) -> u128
    requires given { IsSetting given.now }
    requires value { value ≡ value_of given.now.sc.now given.now.prefix.now }
    requires short { length given.now.prefix.now < given.now.sc.now.horizon }
    requires path { IsPath given.now.sc.now path.now }
    requires begins { take (length given.now.prefix.now) path.now ≡ given.now.prefix.now }
    requires rows { length rows.old ≡ three_rows given.now.sc.now + given.now.sc.now.positions + given.now.sc.now.positions }
    ensures shown { result ≤ remembering_of given.now.sc.now 2 given.now.prefix.now }
    ensures rows { length rows.new ≡ length rows.old }
{
    given.sc.recall_sound();
    value + sum_after(given, rows, path.cells())
}

impl TwoLookTables {
    ghost use Rattle.two_look_bound.specs.Rooms.{AreTablesFor};

    /// Tables for a scenario. Only this call takes memory.
    pub fn tables(alloc: Global, sc: &Scenario) -> Result<TwoLookTables, NoMemory>
        ensures { IfOk result (AreTablesFor sc.now) }
    {
        let positions = usize::from(sc.positions());
        let cells = usize::from(sc.cells());
        Ok(TwoLookTables {
            twos: twos_of(alloc, sc)?,
            own: has_own_looks(sc),
            sums: vec![in alloc; 0; positions * positions + positions * positions]?,
            rows: vec![in alloc; 0; cells + cells + cells + positions + positions]?,
        })
    }

    /// The bound of a legal prefix shorter than the horizon, in parts of the whole weight, by the positions within reach, what looks
    /// find of units of mass a period after, and the beliefs of the periods after the prefix. Takes no memory.
    pub fn bound(
        &mut self,
        sc: &Scenario,
        near: &Near,
        units: &Units,
        onward: &Onward,
        prefix: &Path,
    ) -> u128
        requires made { AreTablesFor sc.now self.old }
        requires near { AreNear sc.now.moves sc.now.horizon near.now }
        requires units { HasUnits sc.now units.now }
        requires legal { IsLegal sc.now prefix.now }
        requires short { length prefix.now < sc.now.horizon }
        requires onward { IsOnward sc.now prefix.now onward.now }
        ensures bound { result ≡ remembering_of sc.now 2 prefix.now }
        ensures made { AreTablesFor sc.now self.new }
    {
        let given = Setting {
            sc,
            near,
            prefix,
            onward,
            units,
            twos: &self.twos,
            own: self.own,
        };
        bound_from(onward.value(), &mut self.sums, &mut self.rows, &given)
    }

    /// The same bound; or else, where a path that extends the prefix shows that the bound is at least `enough`, a number
    /// from that up to the bound, which takes less time. Takes no memory.
    pub fn bound_or_enough(
        &mut self,
        sc: &Scenario,
        near: &Near,
        units: &Units,
        onward: &Onward,
        prefix: &Path,
        path: &Path,
        enough: u128,
    ) -> u128
        requires made { AreTablesFor sc.now self.old }
        requires near { AreNear sc.now.moves sc.now.horizon near.now }
        requires units { HasUnits sc.now units.now }
        requires legal { IsLegal sc.now prefix.now }
        requires short { length prefix.now < sc.now.horizon }
        requires onward { IsOnward sc.now prefix.now onward.now }
        requires path { IsPath sc.now path.now }
        requires begins { take (length prefix.now) path.now ≡ prefix.now }
        ensures bound { result < enough → result ≡ remembering_of sc.now 2 prefix.now }
        ensures enough { enough ≤ result → enough ≤ remembering_of sc.now 2 prefix.now }
        ensures made { AreTablesFor sc.now self.new }
    {
        let value = onward.value();
        let given = Setting {
            sc,
            near,
            prefix,
            onward,
            units,
            twos: &self.twos,
            own: self.own,
        };
        let shown = sum_from(value, &mut self.rows, &given, path);
        if shown < enough {
            bound_from(value, &mut self.sums, &mut self.rows, &given)
        } else {
            shown
        }
    }
}
