//! The tables of the bound.

ghost use Rattle.std.specs.Prelude.{◌≡◌, ℕ, ◌<◌, ◌≤◌, ◌*◌, length, take, IfOk};
ghost use Rattle.search_model.specs.Legal.{IsLegal, IsPath};
ghost use Rattle.search_model.specs.Tracks.{value_of};
ghost use Rattle.search_model.specs.Bounds.{IsRate, tangent_of};
ghost use Rattle.belief_update.specs.Onward.{IsOnward};
ghost use Rattle.backward_mass.specs.Table.{IsMadeFor as IsBackwardFor};
ghost use Rattle.longest_walk.specs.Near.{AreNear};

use crate::gains::{fill_after, sum_after};
use crate::steps::one_rate;
use backward_mass::Backward;
use belief_update::{Onward, Taken};
use exact_parts::NoMemory;
use longest_walk::{Near, Walk};
use search_model::{Path, Scenario};
use std::alloc::Global;
use std::marker::Model;

/// What the tangent bound needs beside the beliefs after a prefix and the positions within reach: made once for the sizes of
/// a scenario and its rate, and filled anew for each bound.
#[derive(Drop)]
pub struct TangentTables {
    // What the reference's looks took, which goes along it.
    taken: Taken,
    backward: Backward,
    // Per period and position, what one more look finds of what the reference misses. Only the periods after the last
    // prefix that was asked are those of its reference.
    gains: Vec<u128>,
    walk: Walk,
    // The rate of the scenario, where it has one: what its looks miss where they find something.
    rate: Option<u32>,
}

impl Model for TangentTables {
    ghost use Rattle.std.specs.Prelude.{◌≡◌, ◌*◌, length};
    ghost use Rattle.tangent_bound.specs.Room.{TangentRoom};

    ghost Value = { TangentRoom };

    ghost view = { λ w. record {
      cells = w.backward.cells;
      positions = w.walk.positions;
      horizon = w.walk.horizon;
      rate = w.rate;
    } };

    ghost invariant = { λ w. record {
      taken : length w.taken.masses ≡ w.backward.cells;
      backward_horizon : w.backward.horizon ≡ w.walk.horizon;
      gains : length w.gains.items ≡ w.walk.horizon * w.walk.positions;
    } };
}

// The bound of a front of the reference, by the value of its first `k` positions and the beliefs after them.
fn bound_from(
    value: u128,
    onward: &Onward,
    taken: &mut Taken,
    backward: &mut Backward,
    gains: &mut [u128],
    walk: &mut Walk,
    sc: &Scenario,
    near: &Near,
    rate: u32,
    k: u32,
    front: &Path,
    reference: &Path,
) -> u128
    requires within { AreNear sc.now.moves sc.now.horizon near.now }
    requires value { value ≡ value_of sc.now (take k reference.now) }
    requires onward { IsOnward sc.now (take k reference.now) onward.now }
    requires room { length taken.old.masses ≡ sc.now.cells }
    requires backward { IsBackwardFor sc.now backward.old }
    requires size { length gains.old ≡ sc.now.horizon * sc.now.positions }
    requires positions { walk.old.positions ≡ sc.now.positions }
    requires horizon { walk.old.horizon ≡ sc.now.horizon }
    requires rate { IsRate sc.now rate }
    requires prefix { IsLegal sc.now front.now }
    requires order { k ≤ length front.now }
    requires open { length front.now < sc.now.horizon }
    requires path { IsPath sc.now reference.now }
    requires begins { take (length front.now) reference.now ≡ front.now }
    ensures value { result ≡ tangent_of sc.now rate front.now reference.now }
    ensures room { length taken.new.masses ≡ sc.now.cells }
    ensures backward { IsBackwardFor sc.now backward.new }
    ensures positions { walk.new.positions ≡ sc.now.positions }
    ensures horizon { walk.new.horizon ≡ sc.now.horizon }
{
    let positions = sc.positions();
    fill_after(
        gains, sc, near, rate, onward, taken, backward, k, front, reference,
    );
    let j = front.len() as u32;
    walk.fill_near(sc.grid(), near, gains, sc.last_after(front), j);
    let own = sum_after(gains, positions, reference.cells(), j);
    let whole = taken.value(sc, value, sc.horizon());
    u128::from(sc.sweep().denominator()) * whole + walk.greatest() - own
}

impl TangentTables {
    ghost use Rattle.tangent_bound.specs.Room.{AreTablesFor};

    /// The tables of a scenario: one number for each position of each period, and the rate of the looks, for which it goes
    /// through them once. Only this call takes memory.
    pub fn tables(alloc: Global, sc: &Scenario) -> Result<TangentTables, NoMemory>
        ensures { IfOk result (AreTablesFor sc.now) }
    {
        let size = sc.horizon() as usize * usize::from(sc.positions());
        Ok(TangentTables {
            taken: Taken::tables(alloc, sc)?,
            backward: Backward::tables(alloc, sc)?,
            gains: vec![in alloc; 0; size]?,
            walk: Walk::tables(alloc, sc.positions(), sc.horizon())?,
            rate: one_rate(sc),
        })
    }

    /// The rate of the scenario, where it has one.
    pub fn rate(&self) -> Option<u32>
        ensures { result ≡ self.now.rate }
    {
        self.rate
    }

    /// The tangent bound of the first `j` positions of a reference path at that path, by the beliefs after a prefix of
    /// them. It is no more than that of the prefix, and takes the less time the greater `j` is. Takes no memory.
    pub fn bound_by(
        &mut self,
        sc: &Scenario,
        near: &Near,
        onward: &Onward,
        prefix: &Path,
        reference: &Path,
        j: u32,
    ) -> u128
        requires made { AreTablesFor sc.now self.old }
        requires near { AreNear sc.now.moves sc.now.horizon near.now }
        requires onward { IsOnward sc.now prefix.now onward.now }
        requires rate { (rate : ℕ) × IsRate sc.now rate }
        requires path { IsPath sc.now reference.now }
        requires begins { take (length prefix.now) reference.now ≡ prefix.now }
        requires order { length prefix.now ≤ j }
        requires open { j < sc.now.horizon }
        ensures value { (rate : ℕ) → IsRate sc.now rate →
            result ≡ tangent_of sc.now rate (take j reference.now) reference.now }
        ensures made { AreTablesFor sc.now self.new }
    {
        let rate = self.rate.unwrap();
        bound_from(
            onward.value(),
            onward,
            &mut self.taken,
            &mut self.backward,
            &mut self.gains,
            &mut self.walk,
            sc,
            near,
            rate,
            prefix.len() as u32,
            &reference.first(j as usize),
            reference,
        )
    }
}
