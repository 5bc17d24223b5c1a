//! The rewards of looks with the greatest sums from there on, one row of positions for a period, from the last period back.

ghost use Rattle.std.specs.Prelude.{◌≡◌, ◌<◌, ◌≤◌, ◌+◌, ◌-◌, ◌*◌, ◌^◌, ℕ, length, map, slice_index, All, Contains};
ghost use Rattle.search_model.specs.Legal.{IsLegal, continuations, last_of};
ghost use Rattle.search_model.specs.Bounds.{reward_of, greatest};
ghost use Rattle.search_model.specs.Edge.{edge_reward_of, edge_sum};
ghost use Rattle.longest_walk.specs.Near.{IsNear, AreNear};
ghost use Rattle.belief_update.specs.Onward.{IsOnward};
ghost use Rattle.edge_bound.specs.Moves.{IsLater, HasGains, greatest_moves};
ghost use Rattle.edge_bound.specs.Units.{HasUnits};

use crate::best::best_move;
use crate::moves::found_by;
use crate::units::Units;
use belief_update::{Onward, later_parts};
use longest_walk::Near;
use search_model::{Path, Scenario};

// The reward of a look from `b` in period `t` with no look between it and the prefix, by the parts of what is to come.
fn reward_by(sc: &Scenario, prefix: &Path, onward: &Onward, parts: u128, t: u32, b: u8) -> u128
    requires parts { parts ≡
        sc.now.drift.denominator ^ (sc.now.horizon - t) * sc.now.sweep.denominator ^
        (sc.now.horizon - (length prefix.now + 1)) }
    requires later { length prefix.now < t }
    requires last { t ≤ sc.now.horizon }
    requires position { b < sc.now.positions }
    requires onward { IsOnward sc.now prefix.now onward.now }
    ensures { result ≡ reward_of sc.now prefix.now t b }
{
    sc.recall_sound();
    found_by(sc, prefix, onward, t, b) * parts
}

/// Writes the rewards of looks from some positions in period `t` with no look between them and the prefix.
pub fn fill_rewards(
    gains: &mut [u128],
    sc: &Scenario,
    prefix: &Path,
    onward: &Onward,
    some: &[u8],
    t: u32,
)
    requires inside { All (λ b. b < sc.now.positions) some.now }
    requires size { length gains.old ≡ sc.now.positions }
    requires later { length prefix.now < t }
    requires last { t ≤ sc.now.horizon }
    requires onward { IsOnward sc.now prefix.now onward.now }
    ensures gains { (b : ℕ) → Contains some.now b → slice_index gains.new b ≡ reward_of sc.now prefix.now t b }
    ensures size { length gains.new ≡ length gains.old }
{
    let parts = later_parts(sc, t, prefix.len() as u32 + 1);
    for b in some {
        gains[usize::from(*b)] = reward_by(sc, prefix, onward, parts, t, *b);
    }
}

// The rewards of looks from some positions that the searcher can be on in the period before `t`, each with the sum that follows
// it, by those of period `t`.
fn fill_row(
    row: &mut [u128],
    sc: &Scenario,
    prefix: &Path,
    onward: &Onward,
    units: &Units,
    shares: &mut [u128],
    gains: &[u128],
    some: &[u8],
    t: u32,
)
    requires inside { All (λ a. a < sc.now.positions) some.now }
    requires near { (a : ℕ) → Contains some.now a →
        IsNear sc.now.moves (t - 1 - length prefix.now) (last_of sc.now.start prefix.now) a }
    requires size { length row.old ≡ sc.now.positions }
    requires shares { length shares.old ≡ sc.now.cells }
    requires period { IsLater sc.now prefix.now t }
    requires onward { IsOnward sc.now prefix.now onward.now }
    requires units { HasUnits sc.now units.now }
    requires width { length gains.now ≡ sc.now.positions }
    requires gains { HasGains sc.now prefix.now t gains.now }
    ensures row { (a : ℕ) → Contains some.now a → slice_index row.new a ≡ reward_of sc.now prefix.now (t - 1) a +
        greatest_moves sc.now.moves (edge_reward_of sc.now prefix.now) (sc.now.horizon + 1 - t) t a }
    ensures size { length row.new ≡ length row.old }
    ensures shares { length shares.new ≡ length shares.old }
{
    let parts = later_parts(sc, t, prefix.len() as u32 + 2);
    for a in some {
        row[usize::from(*a)] = best_move(sc, prefix, onward, units, shares, gains, parts, t, *a);
    }
}

/// The rewards of the looks that may come first after a prefix, each with the greatest sum from there on, from the last period
/// back; `earlier` and `shares` are room for one row each.
pub(crate) fn go_back(
    gains: &mut [u128],
    earlier: &mut [u128],
    shares: &mut [u128],
    sc: &Scenario,
    near: &Near,
    prefix: &Path,
    onward: &Onward,
    units: &Units,
)
    requires near { AreNear sc.now.moves sc.now.horizon near.now }
    requires legal { IsLegal sc.now prefix.now }
    requires short { length prefix.now < sc.now.horizon }
    requires width { length gains.old ≡ sc.now.positions }
    requires room { length earlier.old ≡ sc.now.positions }
    requires shares { length shares.old ≡ sc.now.cells }
    requires onward { IsOnward sc.now prefix.now onward.now }
    requires units { HasUnits sc.now units.now }
    ensures { HasGains sc.now prefix.now (length prefix.now + 1) gains.new }
{
    let from = sc.last_after(prefix);
    let last = near.within(sc.grid(), from, sc.horizon() - prefix.len() as u32);
    fill_rewards(gains, sc, prefix, onward, last, sc.horizon());
    for t in (prefix.len() as u32 + 1..sc.horizon()).rev() {
        let before = near.within(sc.grid(), from, t - prefix.len() as u32);
        fill_row(
            earlier,
            sc,
            prefix,
            onward,
            units,
            shares,
            gains,
            before,
            t + 1,
        );
        gains.copy_from_slice(earlier);
    }
}

/// The greatest sum of edge rewards over the continuations of a prefix, by the rewards of its moves with the sums that follow
/// them.
pub(crate) fn best_first(sc: &Scenario, prefix: &Path, gains: &[u128]) -> u128
    requires legal { IsLegal sc.now prefix.now }
    requires short { length prefix.now < sc.now.horizon }
    requires width { length gains.now ≡ sc.now.positions }
    requires gains { HasGains sc.now prefix.now (length prefix.now + 1) gains.now }
    ensures { result ≡ greatest (map (edge_sum sc.now prefix.now) (continuations sc.now prefix.now)) }
{
    let moves = sc.moves_after(prefix);
    let mut best = 0;
    for b in moves {
        best = gains[usize::from(*b)].max(best);
    }
    best
}
