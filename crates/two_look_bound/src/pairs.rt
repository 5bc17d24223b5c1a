//! The greatest sums behind a pair of looks.

ghost use Rattle.std.specs.Prelude.{◌≡◌, ◌<◌, ◌≤◌, ◌+◌, ◌-◌, ◌*◌, ◌^◌, ◌⊎◌, ℕ, length, max, slice_index, slice_set, Contains};
ghost use Rattle.sweep_table.specs.LookParts.{look_row};
ghost use Rattle.search_grid.specs.Moves.{moves_from};
ghost use Rattle.search_model.specs.Legal.{last_of};
ghost use Rattle.search_model.specs.Bounds.{reward_of};
ghost use Rattle.search_model.specs.Edge.{edge_reward_of};
ghost use Rattle.longest_walk.specs.Near.{IsNear};
ghost use Rattle.edge_bound.specs.Moves.{IsLater, HasShares};
ghost use Rattle.two_look_bound.specs.Pairs.{two_reward_of, greatest_pairs, pair_sum, edge_and_rest, two_and_rest, HasPairs, IsMiddle};
ghost use Rattle.two_look_bound.specs.Taken.{parts_after_two, less_of, skip_of, joint_of, HasTaken, HasLess};
ghost use Rattle.two_look_bound.specs.Setting.{IsSetting};

use crate::setting::Setting;
use crate::taken::{fill_less, joint, skip};
use edge_bound::look_from;
use longest_walk::least_move;
use search_model::Scenario;
use sweep_table::LookPart;

/// The reward of a look after two others, with some sum, by the edge reward with it, what the first of the three and the last would
/// find, and what all three would.
pub(crate) fn gain_after(
    given: &Setting,
    gain: u128,
    all: u128,
    outer: u128,
    s: u32,
    a: u8,
    b: u8,
    c: u8,
) -> u128
    requires middle { IsMiddle given.now.sc.now given.now.prefix.now s }
    requires all { all ≡ joint_of given.now.sc.now given.now.prefix.now s a b c }
    requires outer { outer ≡ skip_of given.now.sc.now given.now.prefix.now s a c }
    requires least { edge_reward_of given.now.sc.now given.now.prefix.now (s + 1) b c ≤ gain }
    requires most { gain < 2 ^ 127 }
    ensures { result + edge_reward_of given.now.sc.now given.now.prefix.now (s + 1) b c ≡ gain + two_reward_of given.now.sc.now given.now.prefix.now (s + 1) a b c }
{
    let _looks = (s, a, b, c);
    given.sc.recall_sound();
    gain + all - outer
}

/// The number of position `b` in a row that begins at a place.
pub(crate) fn sum_at(sums: &[u128], here: usize, b: u8) -> u128
    requires { here + b < length sums.now }
    ensures { result ≡ slice_index sums.now (here + b) }
{
    sums[here + usize::from(b)]
}

/// Writes the number of position `b` in a row that begins at a place.
pub(crate) fn put_at(sums: &mut [u128], here: usize, b: u8, sum: u128)
    requires { here + b < length sums.old }
    ensures { sums.new ≡ slice_set sums.old (here + b) sum }
{
    sums[here + usize::from(b)] = sum;
}

// The reward of a look from `c` after those from `a` and `b`, with the greatest sum that follows it, by its edge reward with that sum.
fn gain_by_row(
    given: &Setting,
    shares: &[u128],
    before: &[LookPart],
    less: &[u128],
    row: &[LookPart],
    gain: u128,
    s: u32,
    a: u8,
    b: u8,
    c: u8,
) -> u128
    requires given { IsSetting given.now }
    requires middle { IsMiddle given.now.sc.now given.now.prefix.now s }
    requires to { c < given.now.sc.now.positions }
    requires before { before.now ≡ look_row given.now.sc.now.sweep (s - 1) a }
    requires shares { HasShares given.now.sc.now given.now.prefix.now s a (parts_after_two given.now.sc.now given.now.prefix.now s) shares.now }
    requires cells { length shares.now ≡ given.now.sc.now.cells }
    requires row { row.now ≡ look_row given.now.sc.now.sweep s b }
    requires less { HasLess given.now.sc.now given.now.prefix.now s a b less.now }
    requires room { length less.now ≡ given.now.sc.now.cells }
    requires gain { gain ≡ pair_sum given.now.sc.now given.now.prefix.now s b c }
    ensures { result ≡ two_and_rest given.now.sc.now given.now.prefix.now s a b c }
{
    given.sc.recall_sound();
    let all = joint(given, less, row, s, a, b, c);
    let outer = skip(given, shares, before, s, a, c);
    gain_after(given, gain, all, outer, s, a, b, c)
}

// The greater of that reward and a number, which is no less than the one of `top`. The reward is no more than the edge reward with the
// sum, so where the number is no less than that, or `c` is `top`, nothing is computed.
fn better_by_row(
    given: &Setting,
    shares: &[u128],
    before: &[LookPart],
    less: &[u128],
    row: &[LookPart],
    top: u8,
    best: u128,
    gain: u128,
    s: u32,
    a: u8,
    b: u8,
    c: u8,
) -> u128
    requires given { IsSetting given.now }
    requires middle { IsMiddle given.now.sc.now given.now.prefix.now s }
    requires to { c < given.now.sc.now.positions }
    requires before { before.now ≡ look_row given.now.sc.now.sweep (s - 1) a }
    requires shares { HasShares given.now.sc.now given.now.prefix.now s a (parts_after_two given.now.sc.now given.now.prefix.now s) shares.now }
    requires cells { length shares.now ≡ given.now.sc.now.cells }
    requires row { row.now ≡ look_row given.now.sc.now.sweep s b }
    requires less { HasLess given.now.sc.now given.now.prefix.now s a b less.now }
    requires room { length less.now ≡ given.now.sc.now.cells }
    requires top { two_and_rest given.now.sc.now given.now.prefix.now s a b top ≤ best }
    requires gain { gain ≡ pair_sum given.now.sc.now given.now.prefix.now s b c }
    ensures { result ≡ max (two_and_rest given.now.sc.now given.now.prefix.now s a b c) best }
{
    given.sc.recall_sound();
    if gain <= best || c == top {
        return best;
    }
    gain_by_row(given, shares, before, less, row, gain, s, a, b, c).max(best)
}

// The greatest sum behind looks from `a` in the period before `s` and `b` in period `s`, by the sums of the pairs that `b` begins, from
// the greatest of these on.
fn best_after(
    given: &Setting,
    pairs: &[u128],
    shares: &[u128],
    before: &[LookPart],
    less: &[u128],
    row: &[LookPart],
    s: u32,
    a: u8,
    b: u8,
) -> u128
    requires given { IsSetting given.now }
    requires middle { IsMiddle given.now.sc.now given.now.prefix.now s }
    requires near { IsNear given.now.sc.now.moves (s - 1 - length given.now.prefix.now) (last_of given.now.sc.now.start given.now.prefix.now) a }
    requires step { Contains (moves_from given.now.sc.now.moves a) b }
    requires to { b < given.now.sc.now.positions }
    requires size { length pairs.now ≡ given.now.sc.now.positions * given.now.sc.now.positions }
    requires pairs { HasPairs given.now.sc.now given.now.prefix.now s pairs.now }
    requires before { before.now ≡ look_row given.now.sc.now.sweep (s - 1) a }
    requires shares { HasShares given.now.sc.now given.now.prefix.now s a (parts_after_two given.now.sc.now given.now.prefix.now s) shares.now }
    requires cells { length shares.now ≡ given.now.sc.now.cells }
    requires row { row.now ≡ look_row given.now.sc.now.sweep s b }
    requires less { HasLess given.now.sc.now given.now.prefix.now s a b less.now }
    requires room { length less.now ≡ given.now.sc.now.cells }
    ensures { result ≡ greatest_pairs given.now.sc.now.moves (two_reward_of given.now.sc.now given.now.prefix.now) (given.now.sc.now.horizon - s) (s + 1) a b }
{
    let moves = given.sc.grid().moves(b);
    let here = usize::from(b) * usize::from(given.sc.positions());
    let top = least_move(pairs, here, moves);
    let first = sum_at(pairs, here, top);
    let mut best = gain_by_row(given, shares, before, less, row, first, s, a, b, top);
    for c in moves {
        let gain = sum_at(pairs, here, *c);
        best = better_by_row(
            given, shares, before, less, row, top, best, gain, s, a, b, *c,
        );
    }
    best
}

// The edge reward of a look from `b` in period `s` after one from `a`, with the greatest sum that follows it: by its reward without the
// look from `a`, and what that one finds in each cell of its row, and takes of each cell a period later; `less` is room for a row of
// cells, and `step` are the parts of a drift and of a look.
fn sum_by_row(
    given: &Setting,
    pairs: &[u128],
    reward: u128,
    shares: &[u128],
    before: &[LookPart],
    taken: &[u128],
    less: &mut [u128],
    step: u128,
    s: u32,
    a: u8,
    b: u8,
) -> u128
    requires given { IsSetting given.now }
    requires middle { IsMiddle given.now.sc.now given.now.prefix.now s }
    requires near { IsNear given.now.sc.now.moves (s - 1 - length given.now.prefix.now) (last_of given.now.sc.now.start given.now.prefix.now) a }
    requires next { Contains (moves_from given.now.sc.now.moves a) b }
    requires to { b < given.now.sc.now.positions }
    requires size { length pairs.now ≡ given.now.sc.now.positions * given.now.sc.now.positions }
    requires pairs { HasPairs given.now.sc.now given.now.prefix.now s pairs.now }
    requires reward { reward ≡ reward_of given.now.sc.now given.now.prefix.now s b }
    requires before { before.now ≡ look_row given.now.sc.now.sweep (s - 1) a }
    requires shares { HasShares given.now.sc.now given.now.prefix.now s a (parts_after_two given.now.sc.now given.now.prefix.now s) shares.now }
    requires room { length shares.now ≡ given.now.sc.now.cells }
    requires taken { HasTaken given.now.sc.now given.now.prefix.now s a taken.now }
    requires cells { length taken.now ≡ given.now.sc.now.cells }
    requires less { length less.old ≡ given.now.sc.now.cells }
    requires step { step ≡ given.now.sc.now.drift.denominator * given.now.sc.now.sweep.denominator }
    ensures sum { result ≡ edge_and_rest given.now.sc.now given.now.prefix.now s a b }
    ensures less { length less.new ≡ length less.old }
{
    let look = look_from(given.sc, s, b);
    let row = look.parts();
    let lost = fill_less(less, given, taken, row, s, a, b);
    let edge = edge_after(given, reward, lost, step, s, a, b);
    let best = best_after(given, pairs, shares, before, less, row, s, a, b);
    with_edge(given, edge, best, s, a, b)
}

/// The edge reward of a look from `b` in period `s` after one from `a`, by its reward without that look, and what looks from both would
/// find one after the other; `step` are the parts of a drift and of a look.
pub(crate) fn edge_after(
    given: &Setting,
    reward: u128,
    less: u128,
    step: u128,
    s: u32,
    a: u8,
    b: u8,
) -> u128
    requires middle { IsMiddle given.now.sc.now given.now.prefix.now s }
    requires reward { reward ≡ reward_of given.now.sc.now given.now.prefix.now s b }
    requires less { less ≡ less_of given.now.sc.now given.now.prefix.now s a b }
    requires step { step ≡ given.now.sc.now.drift.denominator * given.now.sc.now.sweep.denominator }
    ensures { result ≡ edge_reward_of given.now.sc.now given.now.prefix.now s a b }
{
    let _looks = (s, a, b);
    given.sc.recall_sound();
    reward - less * step
}

/// Writes, from `here` on, the edge rewards of looks in period `s` from the moves of `a`, each with the greatest sum that follows it.
pub(crate) fn fill_sums(
    earlier: &mut [u128],
    less: &mut [u128],
    given: &Setting,
    pairs: &[u128],
    rewards: &[u128],
    shares: &[u128],
    taken: &[u128],
    before: &[LookPart],
    here: usize,
    s: u32,
    a: u8,
)
    requires given { IsSetting given.now }
    requires middle { IsMiddle given.now.sc.now given.now.prefix.now s }
    requires here { here + given.now.sc.now.positions ≤ length earlier.old }
    requires from { a < given.now.sc.now.positions }
    requires near { IsNear given.now.sc.now.moves (s - 1 - length given.now.prefix.now) (last_of given.now.sc.now.start given.now.prefix.now) a }
    requires size { length pairs.now ≡ given.now.sc.now.positions * given.now.sc.now.positions }
    requires pairs { HasPairs given.now.sc.now given.now.prefix.now s pairs.now }
    requires width { length rewards.now ≡ given.now.sc.now.positions }
    requires rewards { (b : ℕ) → Contains (moves_from given.now.sc.now.moves a) b → slice_index rewards.now b ≡ reward_of given.now.sc.now given.now.prefix.now s b }
    requires before { before.now ≡ look_row given.now.sc.now.sweep (s - 1) a }
    requires shares { HasShares given.now.sc.now given.now.prefix.now s a (parts_after_two given.now.sc.now given.now.prefix.now s) shares.now }
    requires room { length shares.now ≡ given.now.sc.now.cells }
    requires taken { HasTaken given.now.sc.now given.now.prefix.now s a taken.now }
    requires cells { length taken.now ≡ given.now.sc.now.cells }
    requires less { length less.old ≡ given.now.sc.now.cells }
    ensures each { (b : ℕ) → Contains (moves_from given.now.sc.now.moves a) b → slice_index earlier.new (here + b) ≡ edge_and_rest given.now.sc.now given.now.prefix.now s a b }
    ensures kept { (i : ℕ) → (i < here) ⊎ (here + given.now.sc.now.positions ≤ i) → slice_index earlier.new i ≡ slice_index earlier.old i }
    ensures size { length earlier.new ≡ length earlier.old }
    ensures less { length less.new ≡ length less.old }
{
    let moves = given.sc.grid().moves(a);
    let step = parts_of_step(given.sc);
    for b in moves {
        let reward = rewards[usize::from(*b)];
        let sum = sum_by_row(
            given, pairs, reward, shares, before, taken, less, step, s, a, *b,
        );
        put_at(earlier, here, *b, sum);
    }
}

/// The parts of a drift and of a look.
pub(crate) fn parts_of_step(sc: &Scenario) -> u128
    ensures { result ≡ sc.now.drift.denominator * sc.now.sweep.denominator }
{
    sc.recall_sound();
    u128::from(sc.drift().denominator()) * u128::from(sc.sweep().denominator())
}

/// An edge reward with the greatest sum that follows it.
pub(crate) fn with_edge(given: &Setting, edge: u128, best: u128, s: u32, a: u8, b: u8) -> u128
    requires period { IsLater given.now.sc.now given.now.prefix.now s }
    requires edge { edge ≡ edge_reward_of given.now.sc.now given.now.prefix.now s a b }
    requires best { best ≡ greatest_pairs given.now.sc.now.moves (two_reward_of given.now.sc.now given.now.prefix.now) (given.now.sc.now.horizon - s) (s + 1) a b }
    ensures { result ≡ edge_and_rest given.now.sc.now given.now.prefix.now s a b }
{
    let _looks = (s, a, b);
    given.sc.recall_sound();
    edge + best
}
