//! The reward of one look and the greatest sum of edge rewards from there on, by those of its moves.

ghost use Rattle.std.specs.Prelude.{◌≡◌, ◌<◌, ◌≤◌, ◌+◌, ◌-◌, ◌*◌, ℕ, length, max, slice_index, Contains};
ghost use Rattle.sweep_table.specs.LookParts.{look_row};
ghost use Rattle.search_grid.specs.Moves.{moves_from};
ghost use Rattle.search_model.specs.Legal.{last_of};
ghost use Rattle.search_model.specs.Bounds.{reward_of};
ghost use Rattle.search_model.specs.Edge.{edge_reward_of};
ghost use Rattle.longest_walk.specs.Near.{IsNear};
ghost use Rattle.belief_update.specs.Masses.{mass_of, looks_to};
ghost use Rattle.belief_update.specs.Onward.{IsOnward};
ghost use Rattle.belief_update.specs.Flows.{IsOwn};
ghost use Rattle.edge_bound.specs.After.{parts_after, loss_of};
ghost use Rattle.belief_update.specs.Found.{found_of};
ghost use Rattle.edge_bound.specs.Moves.{IsLater, HasGains, HasShares, greatest_moves, edge_and_later};
ghost use Rattle.edge_bound.specs.Units.{HasUnits, place_of};

use crate::moves::{found_by, look_from};
use crate::shares::{fill_shares, taken_by_shares};
use crate::units::Units;
use belief_update::Onward;
use longest_walk::least_move;
use search_model::{Path, Scenario};
use sweep_table::LookPart;

// The reward of a look at `b` in period `t` after one at `a`, and the greatest sum from there on, by both without the look at
// `a` and what that one takes of the reward.
fn gain_less(sc: &Scenario, prefix: &Path, gain: u128, less: u128, t: u32, a: u8, b: u8) -> u128
    requires period { IsLater sc.now prefix.now t }
    requires gain { gain ≡ reward_of sc.now prefix.now t b +
        greatest_moves sc.now.moves (edge_reward_of sc.now prefix.now) (sc.now.horizon - t) (t + 1) b }
    requires less { less ≡ loss_of sc.now prefix.now t a b }
    ensures { result ≡ edge_and_later sc.now prefix.now t a b }
{
    let _after = prefix;
    let _looks = (t, a, b);
    sc.recall_sound();
    gain - less
}

// The same, where the searcher can be on `a` before period `t`, and `b` is one of its moves.
fn sum_through(
    sc: &Scenario,
    prefix: &Path,
    gains: &[u128],
    less: u128,
    t: u32,
    a: u8,
    b: u8,
) -> u128
    requires period { IsLater sc.now prefix.now t }
    requires near { IsNear sc.now.moves (t - 1 - length prefix.now) (last_of sc.now.start prefix.now) a }
    requires to { b < sc.now.positions }
    requires step { Contains (moves_from sc.now.moves a) b }
    requires width { length gains.now ≡ sc.now.positions }
    requires gains { HasGains sc.now prefix.now t gains.now }
    requires less { less ≡ loss_of sc.now prefix.now t a b }
    ensures { result ≡ edge_and_later sc.now prefix.now t a b }
{
    let gain = gains[usize::from(b)];
    gain_less(sc, prefix, gain, less, t, a, b)
}

// The reward of a look from `a` in the period before `t` with no look between it and the prefix, and the greatest sum from
// there on, by what the look finds, in the parts of what is to come after period `t`, and that sum.
fn gain_before(sc: &Scenario, prefix: &Path, found: u128, best: u128, t: u32, a: u8) -> u128
    requires period { IsLater sc.now prefix.now t }
    requires found { found ≡
        found_of sc.now (t - 1) a (mass_of sc.now (looks_to (t - 1) prefix.now)) * parts_after sc.now prefix.now t }
    requires best { best ≡ greatest_moves sc.now.moves (edge_reward_of sc.now prefix.now) (sc.now.horizon + 1 - t) t a }
    ensures { result ≡ reward_of sc.now prefix.now (t - 1) a +
        greatest_moves sc.now.moves (edge_reward_of sc.now prefix.now) (sc.now.horizon + 1 - t) t a }
{
    let _after = prefix;
    let _look = (t, a);
    let steps = sc.drift().denominator();
    let looks = sc.sweep().denominator();
    let part = found * u128::from(steps);
    let reward = part * u128::from(looks);
    reward + best
}

/// What a look from position `a` in the period before takes of the reward of a look from `b` in period `t`, where looks from
/// `a` cover its own cell alone: by what it finds there, in the parts of what is to come, and where the numbers of that cell
/// begin.
pub fn taken_own(
    sc: &Scenario,
    prefix: &Path,
    units: &Units,
    share: u128,
    place: usize,
    t: u32,
    a: u8,
    b: u8,
) -> u128
    requires period { IsLater sc.now prefix.now t }
    requires own { IsOwn sc.now a }
    requires to { b < sc.now.positions }
    requires units { HasUnits sc.now units.now }
    requires share { share ≡
        found_of sc.now (t - 1) a (mass_of sc.now (looks_to (t - 1) prefix.now)) * parts_after sc.now prefix.now t }
    requires place { place ≡ place_of units.now t a 0 }
    ensures { result ≡ loss_of sc.now prefix.now t a b }
{
    let _after = prefix;
    let _look = (t, a);
    sc.recall_sound();
    let unit = units.at(place, b);
    share * u128::from(unit)
}

// The edge reward of a look from `b` in period `t` after one from `a`, and the greatest sum from there on, by what the look from
// `a` finds in each cell of its row.
fn sum_by_row(
    sc: &Scenario,
    prefix: &Path,
    units: &Units,
    shares: &[u128],
    row: &[LookPart],
    gains: &[u128],
    t: u32,
    a: u8,
    b: u8,
) -> u128
    requires period { IsLater sc.now prefix.now t }
    requires near { IsNear sc.now.moves (t - 1 - length prefix.now) (last_of sc.now.start prefix.now) a }
    requires to { b < sc.now.positions }
    requires step { Contains (moves_from sc.now.moves a) b }
    requires units { HasUnits sc.now units.now }
    requires shares { HasShares sc.now prefix.now t a (parts_after sc.now prefix.now t) shares.now }
    requires room { length shares.now ≡ sc.now.cells }
    requires row { row.now ≡ look_row sc.now.sweep (t - 1) a }
    requires width { length gains.now ≡ sc.now.positions }
    requires gains { HasGains sc.now prefix.now t gains.now }
    ensures { result ≡ edge_and_later sc.now prefix.now t a b }
{
    let less = taken_by_shares(sc, prefix, units, shares, row, t, a, b);
    sum_through(sc, prefix, gains, less, t, a, b)
}

// The greater of that and a number, which is no less than the same by way of `top`. It is no more than without the look from `a`,
// so where the number is no less than that, nothing is computed.
fn better_by_row(
    sc: &Scenario,
    prefix: &Path,
    units: &Units,
    shares: &[u128],
    row: &[LookPart],
    gains: &[u128],
    top: u8,
    best: u128,
    t: u32,
    a: u8,
    b: u8,
) -> u128
    requires period { IsLater sc.now prefix.now t }
    requires near { IsNear sc.now.moves (t - 1 - length prefix.now) (last_of sc.now.start prefix.now) a }
    requires to { b < sc.now.positions }
    requires step { Contains (moves_from sc.now.moves a) b }
    requires units { HasUnits sc.now units.now }
    requires shares { HasShares sc.now prefix.now t a (parts_after sc.now prefix.now t) shares.now }
    requires room { length shares.now ≡ sc.now.cells }
    requires row { row.now ≡ look_row sc.now.sweep (t - 1) a }
    requires width { length gains.now ≡ sc.now.positions }
    requires gains { HasGains sc.now prefix.now t gains.now }
    requires top { edge_and_later sc.now prefix.now t a top ≤ best }
    ensures { result ≡ max (edge_and_later sc.now prefix.now t a b) best }
{
    sc.recall_sound();
    if b == top || gains[usize::from(b)] <= best {
        return best;
    }
    sum_by_row(sc, prefix, units, shares, row, gains, t, a, b).max(best)
}

// The reward of a look from position `a` in the period before `t` with no look between it and the prefix, and the greatest
// sum from there on, where looks from there cover its own cell alone.
fn best_own(
    sc: &Scenario,
    prefix: &Path,
    onward: &Onward,
    units: &Units,
    gains: &[u128],
    parts: u128,
    t: u32,
    a: u8,
) -> u128
    requires own { IsOwn sc.now a }
    requires parts { parts ≡ parts_after sc.now prefix.now t }
    requires period { IsLater sc.now prefix.now t }
    requires from { a < sc.now.positions }
    requires near { IsNear sc.now.moves (t - 1 - length prefix.now) (last_of sc.now.start prefix.now) a }
    requires onward { IsOnward sc.now prefix.now onward.now }
    requires units { HasUnits sc.now units.now }
    requires width { length gains.now ≡ sc.now.positions }
    requires gains { HasGains sc.now prefix.now t gains.now }
    ensures { result ≡ reward_of sc.now prefix.now (t - 1) a +
        greatest_moves sc.now.moves (edge_reward_of sc.now prefix.now) (sc.now.horizon + 1 - t) t a }
{
    let moves = sc.grid().moves(a);
    let share = found_by(sc, prefix, onward, t - 1, a) * parts;
    let place = units.place(t, a);
    let mut best = 0;
    for b in moves {
        let less = taken_own(sc, prefix, units, share, place, t, a, *b);
        let sum = sum_through(sc, prefix, gains, less, t, a, *b);
        best = sum.max(best);
    }
    gain_before(sc, prefix, share, best, t, a)
}

// The same where a look from there covers a row of cells; `shares` is room for what it finds in each of them.
#[inline(never)]
fn best_by_row(
    sc: &Scenario,
    prefix: &Path,
    onward: &Onward,
    units: &Units,
    shares: &mut [u128],
    gains: &[u128],
    parts: u128,
    t: u32,
    a: u8,
) -> u128
    requires shares { length shares.old ≡ sc.now.cells }
    requires parts { parts ≡ parts_after sc.now prefix.now t }
    requires period { IsLater sc.now prefix.now t }
    requires from { a < sc.now.positions }
    requires near { IsNear sc.now.moves (t - 1 - length prefix.now) (last_of sc.now.start prefix.now) a }
    requires onward { IsOnward sc.now prefix.now onward.now }
    requires units { HasUnits sc.now units.now }
    requires width { length gains.now ≡ sc.now.positions }
    requires gains { HasGains sc.now prefix.now t gains.now }
    ensures gain { result ≡ reward_of sc.now prefix.now (t - 1) a +
        greatest_moves sc.now.moves (edge_reward_of sc.now prefix.now) (sc.now.horizon + 1 - t) t a }
    ensures shares { length shares.new ≡ length shares.old }
{
    let moves = sc.grid().moves(a);
    let look = look_from(sc, t - 1, a);
    let found = fill_shares(shares, sc, prefix, onward, look.parts(), parts, t, a);
    let row = look.parts();
    let top = least_move(gains, 0, moves);
    let mut best = sum_by_row(sc, prefix, units, shares, row, gains, t, a, top);
    for b in moves {
        best = better_by_row(sc, prefix, units, shares, row, gains, top, best, t, a, *b);
    }
    gain_before(sc, prefix, found, best, t, a)
}

/// The reward of a look from position `a` in the period before `t` with no look between it and the prefix, and the greatest sum
/// from there on, by the rewards of looks in period `t` with the sums that follow them, and the parts of what is to come;
/// `shares` is room for a row of cells.
pub(crate) fn best_move(
    sc: &Scenario,
    prefix: &Path,
    onward: &Onward,
    units: &Units,
    shares: &mut [u128],
    gains: &[u128],
    parts: u128,
    t: u32,
    a: u8,
) -> u128
    requires shares { length shares.old ≡ sc.now.cells }
    requires parts { parts ≡ parts_after sc.now prefix.now t }
    requires period { IsLater sc.now prefix.now t }
    requires from { a < sc.now.positions }
    requires near { IsNear sc.now.moves (t - 1 - length prefix.now) (last_of sc.now.start prefix.now) a }
    requires onward { IsOnward sc.now prefix.now onward.now }
    requires units { HasUnits sc.now units.now }
    requires width { length gains.now ≡ sc.now.positions }
    requires gains { HasGains sc.now prefix.now t gains.now }
    ensures gain { result ≡ reward_of sc.now prefix.now (t - 1) a +
        greatest_moves sc.now.moves (edge_reward_of sc.now prefix.now) (sc.now.horizon + 1 - t) t a }
    ensures shares { length shares.new ≡ length shares.old }
{
    match sc.sweep().own_part(a) {
        Some(_) => best_own(sc, prefix, onward, units, gains, parts, t, a),
        None => best_by_row(sc, prefix, onward, units, shares, gains, parts, t, a),
    }
}
