//! The greatest sums behind a pair of looks, where looks cover their own cells alone.

ghost use Rattle.std.specs.Prelude.{◌≡◌, ◌<◌, ◌≤◌, ◌+◌, ◌-◌, ◌*◌, ◌⊎◌, ℕ, length, drop, max, slice_index, Contains};
ghost use Rattle.search_grid.specs.Moves.{moves_from};
ghost use Rattle.search_model.specs.Legal.{last_of};
ghost use Rattle.search_model.specs.Bounds.{reward_of};
ghost use Rattle.longest_walk.specs.Near.{IsNear};
ghost use Rattle.belief_update.specs.Flows.{IsOwn};
ghost use Rattle.edge_bound.specs.Units.{HasUnits, place_of};
ghost use Rattle.two_look_bound.specs.Pairs.{two_reward_of, greatest_pairs, pair_sum, edge_and_rest, two_and_rest, HasPairs, IsMiddle};
ghost use Rattle.two_look_bound.specs.Taken.{share_of, less_of, skip_of, HasSkips, IsUnitRow};
ghost use Rattle.two_look_bound.specs.Setting.{IsSetting};

use crate::pairs::{edge_after, gain_after, parts_of_step, put_at, with_edge};
use crate::setting::Setting;
use edge_bound::Units;
use search_model::Scenario;

// What looks from `a` in the period before `s` and `c` in the one after it would find one after the other, with none between them: by
// what the look from `a` finds, times the denominator of looks, and where the numbers of its cell begin.
fn skip_own(given: &Setting, scaled: u128, place: usize, s: u32, a: u8, c: u8) -> u128
    requires given { IsSetting given.now }
    requires middle { IsMiddle given.now.sc.now given.now.prefix.now s }
    requires own { IsOwn given.now.sc.now a }
    requires to { c < given.now.sc.now.positions }
    requires scaled { scaled ≡ share_of given.now.sc.now given.now.prefix.now s a * given.now.sc.now.sweep.denominator }
    requires place { place ≡ place_of given.now.twos.now s a 0 }
    ensures { result ≡ skip_of given.now.sc.now given.now.prefix.now s a c }
{
    let _look = (s, a);
    given.sc.recall_sound();
    let two = given.twos.at(place, c);
    scaled * u128::from(two)
}

/// Writes the same for all `c` within two moves of `a`, by what the look from `a` finds.
pub(crate) fn fill_skips_own(skips: &mut [u128], given: &Setting, share: u128, s: u32, a: u8)
    requires given { IsSetting given.now }
    requires middle { IsMiddle given.now.sc.now given.now.prefix.now s }
    requires own { IsOwn given.now.sc.now a }
    requires from { a < given.now.sc.now.positions }
    requires share { share ≡ share_of given.now.sc.now given.now.prefix.now s a }
    requires size { length skips.old ≡ given.now.sc.now.positions }
    ensures each { HasSkips given.now.sc.now given.now.prefix.now s a skips.new }
    ensures size { length skips.new ≡ length skips.old }
{
    given.sc.recall_sound();
    let two = given.near.within(given.sc.grid(), a, 2);
    let scaled = share * u128::from(given.sc.sweep().denominator());
    let place = given.twos.place(s, a);
    for c in two {
        skips[usize::from(*c)] = skip_own(given, scaled, place, s, a, *c);
    }
}

// What looks in period `t` find of a unit that was in cell `b` a period before.
fn unit_row<'u>(sc: &Scenario, units: &'u Units, t: u32, b: u8) -> &'u [u64]
    requires first { 2 ≤ t }
    requires last { t ≤ sc.now.horizon }
    requires own { IsOwn sc.now b }
    requires from { b < sc.now.positions }
    requires units { HasUnits sc.now units.now }
    ensures row { IsUnitRow sc.now t b result.now }
    ensures width { sc.now.positions ≤ length result.now }
{
    sc.recall_sound();
    units.from(units.place(t, b))
}

// The numbers of a table from the row of position `b` on.
fn sums_from<'p>(sc: &Scenario, pairs: &'p [u128], b: u8) -> &'p [u128]
    requires from { b < sc.now.positions }
    requires size { length pairs.now ≡ sc.now.positions * sc.now.positions }
    ensures { result.now ≡ drop (b * sc.now.positions) pairs.now }
{
    &pairs[usize::from(b) * usize::from(sc.positions())..]
}

// The greater of a number and the reward of a look from `c` after those from `a` and `b`, with the greatest sum that follows it, by
// its edge reward with that sum, what looks from `a` and `c` would find, what looks from `a` and `b` would, and what looks find of a
// unit in the cell of `b`. It is no more than the edge reward with the sum, so where the number is no less, nothing is computed.
fn better_own(
    given: &Setting,
    row: &[u64],
    less: u128,
    best: u128,
    gain: u128,
    outer: u128,
    s: u32,
    a: u8,
    b: u8,
    c: u8,
) -> u128
    requires middle { IsMiddle given.now.sc.now given.now.prefix.now s }
    requires own { IsOwn given.now.sc.now b }
    requires to { c < given.now.sc.now.positions }
    requires width { given.now.sc.now.positions ≤ length row.now }
    requires row { IsUnitRow given.now.sc.now (s + 1) b row.now }
    requires less { less ≡ less_of given.now.sc.now given.now.prefix.now s a b }
    requires outer { outer ≡ skip_of given.now.sc.now given.now.prefix.now s a c }
    requires gain { gain ≡ pair_sum given.now.sc.now given.now.prefix.now s b c }
    ensures { result ≡ max (two_and_rest given.now.sc.now given.now.prefix.now s a b c) best }
{
    given.sc.recall_sound();
    if gain <= best {
        return best;
    }
    let all = less * u128::from(row[usize::from(c)]);
    gain_after(given, gain, all, outer, s, a, b, c).max(best)
}

// The greatest sum behind looks from `a` in the period before `s` and `b` in period `s`, by the sums of the pairs that `b` begins, and
// by what both would find.
fn best_own(
    given: &Setting,
    pairs: &[u128],
    skips: &[u128],
    less: u128,
    s: u32,
    a: u8,
    b: u8,
) -> u128
    requires given { IsSetting given.now }
    requires middle { IsMiddle given.now.sc.now given.now.prefix.now s }
    requires own { IsOwn given.now.sc.now b }
    requires near { IsNear given.now.sc.now.moves (s - 1 - length given.now.prefix.now) (last_of given.now.sc.now.start given.now.prefix.now) a }
    requires step { Contains (moves_from given.now.sc.now.moves a) b }
    requires to { b < given.now.sc.now.positions }
    requires size { length pairs.now ≡ given.now.sc.now.positions * given.now.sc.now.positions }
    requires pairs { HasPairs given.now.sc.now given.now.prefix.now s pairs.now }
    requires width { length skips.now ≡ given.now.sc.now.positions }
    requires skips { HasSkips given.now.sc.now given.now.prefix.now s a skips.now }
    requires less { less ≡ less_of given.now.sc.now given.now.prefix.now s a b }
    ensures { result ≡ greatest_pairs given.now.sc.now.moves (two_reward_of given.now.sc.now given.now.prefix.now) (given.now.sc.now.horizon - s) (s + 1) a b }
{
    let moves = given.sc.grid().moves(b);
    let sums = sums_from(given.sc, pairs, b);
    let row = unit_row(given.sc, given.units, s + 1, b);
    let mut best = 0;
    for c in moves {
        let gain = sums[usize::from(*c)];
        let outer = skips[usize::from(*c)];
        best = better_own(given, row, less, best, gain, outer, s, a, b, *c);
    }
    best
}

// The edge reward of a look from `b` in period `s` after one from `a`, with the greatest sum that follows it: by its reward without the
// look from `a`, what that one finds, and where the numbers of its cell begin; `step` are the parts of a drift and of a look.
fn sum_own(
    given: &Setting,
    pairs: &[u128],
    skips: &[u128],
    reward: u128,
    share: u128,
    step: u128,
    place: usize,
    s: u32,
    a: u8,
    b: u8,
) -> u128
    requires given { IsSetting given.now }
    requires middle { IsMiddle given.now.sc.now given.now.prefix.now s }
    requires before { IsOwn given.now.sc.now a }
    requires own { IsOwn given.now.sc.now b }
    requires near { IsNear given.now.sc.now.moves (s - 1 - length given.now.prefix.now) (last_of given.now.sc.now.start given.now.prefix.now) a }
    requires next { Contains (moves_from given.now.sc.now.moves a) b }
    requires to { b < given.now.sc.now.positions }
    requires size { length pairs.now ≡ given.now.sc.now.positions * given.now.sc.now.positions }
    requires pairs { HasPairs given.now.sc.now given.now.prefix.now s pairs.now }
    requires width { length skips.now ≡ given.now.sc.now.positions }
    requires skips { HasSkips given.now.sc.now given.now.prefix.now s a skips.now }
    requires reward { reward ≡ reward_of given.now.sc.now given.now.prefix.now s b }
    requires share { share ≡ share_of given.now.sc.now given.now.prefix.now s a }
    requires step { step ≡ given.now.sc.now.drift.denominator * given.now.sc.now.sweep.denominator }
    requires place { place ≡ place_of given.now.units.now s a 0 }
    ensures { result ≡ edge_and_rest given.now.sc.now given.now.prefix.now s a b }
{
    let less = less_own(given, share, place, s, a, b);
    let edge = edge_after(given, reward, less, step, s, a, b);
    let best = best_own(given, pairs, skips, less, s, a, b);
    with_edge(given, edge, best, s, a, b)
}

// What looks from `a` in the period before `s` and `b` in period `s` would find one after the other, by what the look from `a` finds,
// and where the numbers of its cell begin.
fn less_own(given: &Setting, share: u128, place: usize, s: u32, a: u8, b: u8) -> u128
    requires given { IsSetting given.now }
    requires middle { IsMiddle given.now.sc.now given.now.prefix.now s }
    requires own { IsOwn given.now.sc.now a }
    requires to { b < given.now.sc.now.positions }
    requires share { share ≡ share_of given.now.sc.now given.now.prefix.now s a }
    requires place { place ≡ place_of given.now.units.now s a 0 }
    ensures { result ≡ less_of given.now.sc.now given.now.prefix.now s a b }
{
    let _look = (s, a);
    given.sc.recall_sound();
    let unit = given.units.at(place, b);
    share * u128::from(unit)
}

/// Writes, from `here` on, the edge rewards of looks in period `s` from the moves of `a`, each with the greatest sum that follows it, by
/// what the look from `a` finds.
pub(crate) fn fill_sums_own(
    earlier: &mut [u128],
    given: &Setting,
    pairs: &[u128],
    rewards: &[u128],
    skips: &[u128],
    share: u128,
    here: usize,
    s: u32,
    a: u8,
)
    requires given { IsSetting given.now }
    requires middle { IsMiddle given.now.sc.now given.now.prefix.now s }
    requires own { (b : ℕ) → b < given.now.sc.now.positions → IsOwn given.now.sc.now b }
    requires here { here + given.now.sc.now.positions ≤ length earlier.old }
    requires from { a < given.now.sc.now.positions }
    requires near { IsNear given.now.sc.now.moves (s - 1 - length given.now.prefix.now) (last_of given.now.sc.now.start given.now.prefix.now) a }
    requires size { length pairs.now ≡ given.now.sc.now.positions * given.now.sc.now.positions }
    requires pairs { HasPairs given.now.sc.now given.now.prefix.now s pairs.now }
    requires width { length rewards.now ≡ given.now.sc.now.positions }
    requires rewards { (b : ℕ) → Contains (moves_from given.now.sc.now.moves a) b → slice_index rewards.now b ≡ reward_of given.now.sc.now given.now.prefix.now s b }
    requires wide { length skips.now ≡ given.now.sc.now.positions }
    requires skips { HasSkips given.now.sc.now given.now.prefix.now s a skips.now }
    requires share { share ≡ share_of given.now.sc.now given.now.prefix.now s a }
    ensures each { (b : ℕ) → Contains (moves_from given.now.sc.now.moves a) b → slice_index earlier.new (here + b) ≡ edge_and_rest given.now.sc.now given.now.prefix.now s a b }
    ensures kept { (i : ℕ) → (i < here) ⊎ (here + given.now.sc.now.positions ≤ i) → slice_index earlier.new i ≡ slice_index earlier.old i }
    ensures size { length earlier.new ≡ length earlier.old }
{
    let moves = given.sc.grid().moves(a);
    let place = given.units.place(s, a);
    let step = parts_of_step(given.sc);
    for b in moves {
        let reward = rewards[usize::from(*b)];
        let sum = sum_own(given, pairs, skips, reward, share, step, place, s, a, *b);
        put_at(earlier, here, *b, sum);
    }
}
