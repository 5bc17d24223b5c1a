//! The rewards after two remembered looks, along one path.

ghost use Rattle.std.specs.Prelude.{◌≡◌, ◌<◌, ◌≤◌, ◌+◌, ◌-◌, ◌^◌, length, drop, slice_index, All};
ghost use Rattle.two_look_bound.specs.Pairs.{two_reward_of, sum_pairs, second_sum, two_sum, IsMiddle};
ghost use Rattle.two_look_bound.specs.Setting.{IsSetting, three_rows};

use crate::pairs::gain_after;
use crate::setting::Setting;
use crate::taken::{fill_less, fill_taken, joint, skip};
use belief_update::later_parts;
use edge_bound::{fill_shares, first_reward, look_from, next_reward};

// The reward of a look at `c` in the period after `s`, after one at `b` in period `s` and one at `a` before it; `rows` begins
// with room for three rows of cells.
fn two_reward(given: &Setting, rows: &mut [u128], s: u32, a: u8, b: u8, c: u8) -> u128
    requires given { IsSetting given.now }
    requires middle { IsMiddle given.now.sc.now given.now.prefix.now s }
    requires from { a < given.now.sc.now.positions }
    requires by { b < given.now.sc.now.positions }
    requires to { c < given.now.sc.now.positions }
    requires rows { three_rows given.now.sc.now ≤ length rows.old }
    ensures reward { result ≡ two_reward_of given.now.sc.now given.now.prefix.now (s + 1) a b c }
    ensures rows { length rows.new ≡ length rows.old }
{
    given.sc.recall_sound();
    let cells = usize::from(given.sc.cells());
    let (shares, others) = rows.split_at_mut(cells);
    let (taken, behind) = others.split_at_mut(cells);
    let (less, _) = behind.split_at_mut(cells);
    let edge = next_reward(
        given.sc,
        given.prefix,
        given.onward,
        given.units,
        shares,
        s + 1,
        b,
        c,
    );
    let before = look_from(given.sc, s - 1, a);
    let row = look_from(given.sc, s, b);
    let parts = later_parts(given.sc, s + 1, given.prefix.len() as u32 + 3);
    fill_shares(
        shares,
        given.sc,
        given.prefix,
        given.onward,
        before.parts(),
        parts,
        s,
        a,
    );
    fill_taken(taken, given, shares, before.parts(), s, a);
    fill_less(less, given, taken, row.parts(), s, a, b);
    let all = joint(given, less, row.parts(), s, a, b, c);
    let outer = skip(given, shares, before.parts(), s, a, c);
    gain_after(given, edge, all, outer, s, a, b, c)
}

// The sum of the rewards of the third look after a prefix and of all later ones.
fn sum_later(given: &Setting, rows: &mut [u128], path: &[u8]) -> u128
    requires given { IsSetting given.now }
    requires short { length given.now.prefix.now + 2 ≤ given.now.sc.now.horizon }
    requires whole { length path.now ≡ given.now.sc.now.horizon }
    requires within { All (λ a. a < given.now.sc.now.positions) path.now }
    requires rows { three_rows given.now.sc.now ≤ length rows.old }
    requires fits { let k = length given.now.prefix.now in
        sum_pairs (two_reward_of given.now.sc.now given.now.prefix.now) (k + 2 + 1) (slice_index path.now k) (slice_index path.now (k + 1)) (drop (k + 2) path.now) < 2 ^ 127 }
    ensures sum { let k = length given.now.prefix.now in
        result ≡ sum_pairs (two_reward_of given.now.sc.now given.now.prefix.now) (k + 2 + 1) (slice_index path.now k) (slice_index path.now (k + 1)) (drop (k + 2) path.now) }
    ensures rows { length rows.new ≡ length rows.old }
{
    given.sc.recall_sound();
    let mut sum = 0;
    for n in given.prefix.len() + 2..path.len() {
        sum += two_reward(given, rows, n as u32, path[n - 2], path[n - 1], path[n]);
    }
    sum
}

// The sum of the rewards of the second look after a prefix and of all later ones, where there are any.
fn sum_second(given: &Setting, rows: &mut [u128], path: &[u8]) -> u128
    requires given { IsSetting given.now }
    requires short { length given.now.prefix.now < given.now.sc.now.horizon }
    requires whole { length path.now ≡ given.now.sc.now.horizon }
    requires within { All (λ a. a < given.now.sc.now.positions) path.now }
    requires rows { three_rows given.now.sc.now ≤ length rows.old }
    ensures sum { let k = length given.now.prefix.now in result ≡ second_sum given.now.sc.now given.now.prefix.now (slice_index path.now k) (drop (k + 1) path.now) }
    ensures rows { length rows.new ≡ length rows.old }
{
    given.sc.recall_sound();
    let k = given.prefix.len();
    let last = path.len() - 1;
    if k == last {
        return 0;
    }
    let (shares, _) = rows.split_at_mut(usize::from(given.sc.cells()));
    let second = next_reward(
        given.sc,
        given.prefix,
        given.onward,
        given.units,
        shares,
        k as u32 + 2,
        path[k],
        path[k + 1],
    );
    second + sum_later(given, rows, path)
}

/// The sum of the rewards along a path after a prefix; `rows` begins with room for three rows of cells.
pub(crate) fn sum_after(given: &Setting, rows: &mut [u128], path: &[u8]) -> u128
    requires given { IsSetting given.now }
    requires short { length given.now.prefix.now < given.now.sc.now.horizon }
    requires whole { length path.now ≡ given.now.sc.now.horizon }
    requires within { All (λ a. a < given.now.sc.now.positions) path.now }
    requires rows { three_rows given.now.sc.now ≤ length rows.old }
    ensures sum { result ≡ two_sum given.now.sc.now given.now.prefix.now (drop (length given.now.prefix.now) path.now) }
    ensures rows { length rows.new ≡ length rows.old }
{
    given.sc.recall_sound();
    let first = first_reward(
        given.sc,
        given.prefix,
        given.onward,
        path[given.prefix.len()],
    );
    first + sum_second(given, rows, path)
}
