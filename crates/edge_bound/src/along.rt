//! The edge rewards along one path.

ghost use Rattle.std.specs.Prelude.{◌≡◌, ◌<◌, ◌+◌, ◌^◌, length, drop, All};
ghost use Rattle.search_model.specs.Bounds.{reward_of};
ghost use Rattle.search_model.specs.Edge.{edge_reward_of, edge_sum};
ghost use Rattle.belief_update.specs.Onward.{IsOnward};
ghost use Rattle.belief_update.specs.Flows.{IsOwn};
ghost use Rattle.edge_bound.specs.After.{parts_after, loss_of};
ghost use Rattle.edge_bound.specs.Moves.{IsLater};
ghost use Rattle.edge_bound.specs.Units.{HasUnits};

use crate::best::taken_own;
use crate::moves::{found_by, found_first, look_from};
use crate::shares::{fill_shares, taken_by_shares};
use crate::units::Units;
use belief_update::{Onward, later_parts};
use search_model::{Path, Scenario};

/// The reward of a first look after a prefix, at `b`.
pub fn first_reward(sc: &Scenario, prefix: &Path, onward: &Onward, b: u8) -> u128
    requires short { length prefix.now < sc.now.horizon }
    requires to { b < sc.now.positions }
    requires onward { IsOnward sc.now prefix.now onward.now }
    ensures { result ≡ reward_of sc.now prefix.now (length prefix.now + 1) b }
{
    sc.recall_sound();
    let looks = prefix.len() as u32 + 1;
    found_first(sc, prefix, onward, b) * later_parts(sc, looks, looks)
}

// The reward of a look from `b` in period `t` with no look between it and the prefix, by the parts of what is to come after it
// and a look before it.
fn reward_without(sc: &Scenario, prefix: &Path, onward: &Onward, parts: u128, t: u32, b: u8) -> u128
    requires period { IsLater sc.now prefix.now t }
    requires parts { parts ≡ parts_after sc.now prefix.now t }
    requires to { b < sc.now.positions }
    requires onward { IsOnward sc.now prefix.now onward.now }
    ensures { result ≡ reward_of sc.now prefix.now t b }
{
    sc.recall_sound();
    let whole = sc.sweep().denominator();
    let found = found_by(sc, prefix, onward, t, b) * u128::from(whole);
    found * parts
}

// What a look from position `a` in the period before takes of the reward of a look from `b` in period `t`, where it covers a row
// of cells; `shares` is room for what it finds in each of them.
#[inline(never)]
fn taken_by_row(
    sc: &Scenario,
    prefix: &Path,
    onward: &Onward,
    units: &Units,
    shares: &mut [u128],
    parts: u128,
    t: u32,
    a: u8,
    b: u8,
) -> u128
    requires shares { length shares.old ≡ sc.now.cells }
    requires parts { parts ≡ parts_after sc.now prefix.now t }
    requires period { IsLater sc.now prefix.now t }
    requires from { a < sc.now.positions }
    requires to { b < sc.now.positions }
    requires onward { IsOnward sc.now prefix.now onward.now }
    requires units { HasUnits sc.now units.now }
    ensures loss { result ≡ loss_of sc.now prefix.now t a b }
    ensures shares { length shares.new ≡ length shares.old }
{
    sc.recall_sound();
    let look = look_from(sc, t - 1, a);
    fill_shares(shares, sc, prefix, onward, look.parts(), parts, t, a);
    taken_by_shares(sc, prefix, units, shares, look.parts(), t, a, b)
}

// The same where it covers the cell of its own number alone.
fn taken_alone(
    sc: &Scenario,
    prefix: &Path,
    onward: &Onward,
    units: &Units,
    parts: u128,
    t: u32,
    a: u8,
    b: u8,
) -> u128
    requires own { IsOwn sc.now a }
    requires parts { parts ≡ parts_after sc.now prefix.now t }
    requires period { IsLater sc.now prefix.now t }
    requires from { a < sc.now.positions }
    requires to { b < sc.now.positions }
    requires onward { IsOnward sc.now prefix.now onward.now }
    requires units { HasUnits sc.now units.now }
    ensures { result ≡ loss_of sc.now prefix.now t a b }
{
    sc.recall_sound();
    let share = found_by(sc, prefix, onward, t - 1, a) * parts;
    let place = units.place(t, a);
    taken_own(sc, prefix, units, share, place, t, a, b)
}

// The same, whatever it covers.
fn taken(
    sc: &Scenario,
    prefix: &Path,
    onward: &Onward,
    units: &Units,
    shares: &mut [u128],
    parts: u128,
    t: u32,
    a: u8,
    b: u8,
) -> u128
    requires shares { length shares.old ≡ sc.now.cells }
    requires parts { parts ≡ parts_after sc.now prefix.now t }
    requires period { IsLater sc.now prefix.now t }
    requires from { a < sc.now.positions }
    requires to { b < sc.now.positions }
    requires onward { IsOnward sc.now prefix.now onward.now }
    requires units { HasUnits sc.now units.now }
    ensures loss { result ≡ loss_of sc.now prefix.now t a b }
    ensures shares { length shares.new ≡ length shares.old }
{
    match sc.sweep().own_part(a) {
        Some(_) => taken_alone(sc, prefix, onward, units, parts, t, a, b),
        None => taken_by_row(sc, prefix, onward, units, shares, parts, t, a, b),
    }
}

/// The edge reward of a look at `b` in period `t`, after one at `a` in the period before; `shares` is room for a row of cells.
pub fn next_reward(
    sc: &Scenario,
    prefix: &Path,
    onward: &Onward,
    units: &Units,
    shares: &mut [u128],
    t: u32,
    a: u8,
    b: u8,
) -> u128
    requires shares { length shares.old ≡ sc.now.cells }
    requires period { IsLater sc.now prefix.now t }
    requires from { a < sc.now.positions }
    requires to { b < sc.now.positions }
    requires onward { IsOnward sc.now prefix.now onward.now }
    requires units { HasUnits sc.now units.now }
    ensures reward { result ≡ edge_reward_of sc.now prefix.now t a b }
    ensures shares { length shares.new ≡ length shares.old }
{
    sc.recall_sound();
    let parts = later_parts(sc, t, prefix.len() as u32 + 2);
    let reward = reward_without(sc, prefix, onward, parts, t, b);
    reward - taken(sc, prefix, onward, units, shares, parts, t, a, b)
}

/// The sum of the edge rewards along a path after a prefix; `shares` is room for a row of cells.
pub(crate) fn sum_after(
    sc: &Scenario,
    prefix: &Path,
    onward: &Onward,
    units: &Units,
    shares: &mut [u128],
    path: &[u8],
) -> u128
    requires short { length prefix.now < sc.now.horizon }
    requires whole { length path.now ≡ sc.now.horizon }
    requires within { All (λ a. a < sc.now.positions) path.now }
    requires onward { IsOnward sc.now prefix.now onward.now }
    requires units { HasUnits sc.now units.now }
    requires shares { length shares.old ≡ sc.now.cells }
    requires fits { edge_sum sc.now prefix.now (drop (length prefix.now) path.now) < 2 ^ 127 }
    ensures sum { result ≡ edge_sum sc.now prefix.now (drop (length prefix.now) path.now) }
    ensures shares { length shares.new ≡ length shares.old }
{
    sc.recall_sound();
    let k = prefix.len();
    let mut sum = first_reward(sc, prefix, onward, path[k]);
    for n in k + 1..path.len() {
        sum += next_reward(
            sc,
            prefix,
            onward,
            units,
            shares,
            n as u32 + 1,
            path[n - 1],
            path[n],
        );
    }
    sum
}
