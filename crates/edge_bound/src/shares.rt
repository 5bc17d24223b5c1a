//! What one look finds in each cell that it covers, for all the looks that may come next.

ghost use Rattle.std.specs.Prelude.{◌≡◌, ◌<◌, ◌≤◌, ◌-◌, ◌*◌, length};
ghost use Rattle.sweep_table.specs.LookParts.{look_row};
ghost use Rattle.search_model.specs.Tracks.{whole_weight};
ghost use Rattle.belief_update.specs.Masses.{mass_of, looks_to};
ghost use Rattle.belief_update.specs.Onward.{IsOnward};
ghost use Rattle.edge_bound.specs.After.{parts_after, loss_of};
ghost use Rattle.belief_update.specs.Found.{found_of};
ghost use Rattle.edge_bound.specs.Moves.{IsLater, HasShares};
ghost use Rattle.edge_bound.specs.Units.{HasUnits};

use crate::moves::mass_at;
use crate::units::Units;
use belief_update::Onward;
use search_model::{Path, Scenario};
use sweep_table::LookPart;

/// Writes what a look from position `a` in the period before `t` finds in each cell of its row, with no look between it and the
/// prefix, in some parts of what is to come, and answers their sum.
pub fn fill_shares(
    shares: &mut [u128],
    sc: &Scenario,
    prefix: &Path,
    onward: &Onward,
    row: &[LookPart],
    parts: u128,
    t: u32,
    a: u8,
) -> u128
    requires row { row.now ≡ look_row sc.now.sweep (t - 1) a }
    requires fits { found_of sc.now (t - 1) a (mass_of sc.now (looks_to (t - 1) prefix.now)) * parts ≤ whole_weight sc.now }
    requires period { IsLater sc.now prefix.now t }
    requires onward { IsOnward sc.now prefix.now onward.now }
    requires room { length shares.old ≡ sc.now.cells }
    ensures sum { result ≡
        found_of sc.now (t - 1) a (mass_of sc.now (looks_to (t - 1) prefix.now)) * parts }
    ensures each { HasShares sc.now prefix.now t a parts shares.new }
    ensures room { length shares.new ≡ length shares.old }
{
    let _from = a;
    let whole = sc.sweep().denominator();
    let mut sum = 0;
    for i in 0..row.len() {
        let mass = mass_at(sc, prefix, onward, t - 1, row[i].cell);
        let found = mass * u128::from(whole - row[i].part);
        let share = found * parts;
        shares[i] = share;
        sum += share;
    }
    sum
}

/// What a look from position `a` in the period before takes of the reward of a look from `b` in period `t`, by what it finds in
/// each cell of its row, in the parts of what is to come.
pub fn taken_by_shares(
    sc: &Scenario,
    prefix: &Path,
    units: &Units,
    shares: &[u128],
    row: &[LookPart],
    t: u32,
    a: u8,
    b: u8,
) -> u128
    requires period { IsLater sc.now prefix.now t }
    requires to { b < sc.now.positions }
    requires units { HasUnits sc.now units.now }
    requires row { row.now ≡ look_row sc.now.sweep (t - 1) a }
    requires shares { HasShares sc.now prefix.now t a (parts_after sc.now prefix.now t) shares.now }
    requires room { length shares.now ≡ sc.now.cells }
    ensures { result ≡ loss_of sc.now prefix.now t a b }
{
    let _after = prefix;
    let _from = a;
    sc.recall_sound();
    let mut sum = 0;
    for i in 0..row.len() {
        let unit = units.unit(t, row[i].cell, b);
        sum += shares[i] * u128::from(unit);
    }
    sum
}
