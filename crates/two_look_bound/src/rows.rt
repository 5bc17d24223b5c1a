//! The greatest sums behind pairs of positions, from the last period back.

ghost use Rattle.std.specs.Prelude.{◌≡◌, ◌<◌, ◌≤◌, ◌+◌, ◌-◌, ◌*◌, ◌⊎◌, ℕ, length, map, slice_index, IsTrue, All, Contains};
ghost use Rattle.search_grid.specs.Moves.{moves_from};
ghost use Rattle.search_model.specs.Legal.{continuations, last_of, walks};
ghost use Rattle.search_model.specs.Bounds.{reward_of, greatest};
ghost use Rattle.longest_walk.specs.Near.{IsNear};
ghost use Rattle.edge_bound.specs.After.{parts_after};
ghost use Rattle.edge_bound.specs.Moves.{IsLater};
ghost use Rattle.two_look_bound.specs.Pairs.{second_sum, two_sum, edge_and_rest, HasPairs, IsMiddle};
ghost use Rattle.two_look_bound.specs.Taken.{parts_after_two};
ghost use Rattle.two_look_bound.specs.Setting.{IsSetting, three_rows};

use crate::last::fill_last;
use crate::own::{fill_skips_own, fill_sums_own};
use crate::pairs::{fill_sums, sum_at};
use crate::setting::Setting;
use crate::taken::fill_taken;
use belief_update::later_parts;
use edge_bound::{fill_rewards, fill_shares, first_reward, found_by, look_from};

// The parts of what is to come after a look in the period behind `s`, with the two looks before it, where such a period comes.
fn parts_behind(given: &Setting, s: u32) -> u128
    requires { IsLater given.now.sc.now given.now.prefix.now s }
    ensures { s < given.now.sc.now.horizon → result ≡ parts_after_two given.now.sc.now given.now.prefix.now s }
{
    given.sc.recall_sound();
    if s == given.sc.horizon() {
        return 0;
    }
    later_parts(given.sc, s + 1, given.prefix.len() as u32 + 3)
}

// Writes, from `here` on, the edge rewards of looks in period `s` from the moves of `a`, each with the greatest sum that follows it, by
// the sums of the pairs that begin in period `s` and the parts of what is to come after the look behind it; `room` begins with
// three rows of cells.
fn fill_by_row(
    earlier: &mut [u128],
    room: &mut [u128],
    given: &Setting,
    pairs: &[u128],
    rewards: &[u128],
    parts: u128,
    here: usize,
    s: u32,
    a: u8,
)
    requires given { IsSetting given.now }
    requires middle { IsMiddle given.now.sc.now given.now.prefix.now s }
    requires parts { parts ≡ parts_after_two given.now.sc.now given.now.prefix.now s }
    requires here { here + given.now.sc.now.positions ≤ length earlier.old }
    requires from { a < given.now.sc.now.positions }
    requires near { IsNear given.now.sc.now.moves (s - 1 - length given.now.prefix.now) (last_of given.now.sc.now.start given.now.prefix.now) a }
    requires size { length pairs.now ≡ given.now.sc.now.positions * given.now.sc.now.positions }
    requires pairs { HasPairs given.now.sc.now given.now.prefix.now s pairs.now }
    requires width { length rewards.now ≡ given.now.sc.now.positions }
    requires rewards { (b : ℕ) → Contains (moves_from given.now.sc.now.moves a) b → slice_index rewards.now b ≡ reward_of given.now.sc.now given.now.prefix.now s b }
    requires room { length room.old ≡ three_rows given.now.sc.now + given.now.sc.now.positions }
    ensures each { (b : ℕ) → Contains (moves_from given.now.sc.now.moves a) b → slice_index earlier.new (here + b) ≡ edge_and_rest given.now.sc.now given.now.prefix.now s a b }
    ensures kept { (i : ℕ) → (i < here) ⊎ (here + given.now.sc.now.positions ≤ i) → slice_index earlier.new i ≡ slice_index earlier.old i }
    ensures size { length earlier.new ≡ length earlier.old }
    ensures room { length room.new ≡ length room.old }
{
    given.sc.recall_sound();
    let cells = usize::from(given.sc.cells());
    let (shares, others) = room.split_at_mut(cells);
    let (taken, behind) = others.split_at_mut(cells);
    let (less, _) = behind.split_at_mut(cells);
    let look = look_from(given.sc, s - 1, a);
    let row = look.parts();
    fill_shares(
        shares,
        given.sc,
        given.prefix,
        given.onward,
        row,
        parts,
        s,
        a,
    );
    fill_taken(taken, given, shares, row, s, a);
    fill_sums(
        earlier, less, given, pairs, rewards, shares, taken, row, here, s, a,
    );
}

// The same where looks cover their own cells alone.
fn fill_by_cell(
    earlier: &mut [u128],
    room: &mut [u128],
    given: &Setting,
    pairs: &[u128],
    rewards: &[u128],
    parts: u128,
    here: usize,
    s: u32,
    a: u8,
)
    requires given { IsSetting given.now }
    requires middle { IsMiddle given.now.sc.now given.now.prefix.now s }
    requires own { IsTrue given.now.own }
    requires parts { parts ≡ parts_after_two given.now.sc.now given.now.prefix.now s }
    requires here { here + given.now.sc.now.positions ≤ length earlier.old }
    requires from { a < given.now.sc.now.positions }
    requires near { IsNear given.now.sc.now.moves (s - 1 - length given.now.prefix.now) (last_of given.now.sc.now.start given.now.prefix.now) a }
    requires size { length pairs.now ≡ given.now.sc.now.positions * given.now.sc.now.positions }
    requires pairs { HasPairs given.now.sc.now given.now.prefix.now s pairs.now }
    requires width { length rewards.now ≡ given.now.sc.now.positions }
    requires rewards { (b : ℕ) → Contains (moves_from given.now.sc.now.moves a) b → slice_index rewards.now b ≡ reward_of given.now.sc.now given.now.prefix.now s b }
    requires room { length room.old ≡ three_rows given.now.sc.now + given.now.sc.now.positions }
    ensures each { (b : ℕ) → Contains (moves_from given.now.sc.now.moves a) b → slice_index earlier.new (here + b) ≡ edge_and_rest given.now.sc.now given.now.prefix.now s a b }
    ensures kept { (i : ℕ) → (i < here) ⊎ (here + given.now.sc.now.positions ≤ i) → slice_index earlier.new i ≡ slice_index earlier.old i }
    ensures size { length earlier.new ≡ length earlier.old }
    ensures room { length room.new ≡ length room.old }
{
    given.sc.recall_sound();
    let cells = usize::from(given.sc.cells());
    let (_, skips) = room.split_at_mut(cells + cells + cells);
    let share = found_by(given.sc, given.prefix, given.onward, s - 1, a) * parts;
    fill_skips_own(skips, given, share, s, a);
    fill_sums_own(earlier, given, pairs, rewards, skips, share, here, s, a);
}

// The same, also in the last period, and also where looks cover their own cells alone.
fn fill_pairs(
    earlier: &mut [u128],
    room: &mut [u128],
    given: &Setting,
    pairs: &[u128],
    rewards: &[u128],
    parts: u128,
    behind: u128,
    here: usize,
    s: u32,
    a: u8,
)
    requires given { IsSetting given.now }
    requires parts { parts ≡ parts_after given.now.sc.now given.now.prefix.now s }
    requires behind { s < given.now.sc.now.horizon → behind ≡ parts_after_two given.now.sc.now given.now.prefix.now s }
    requires period { IsLater given.now.sc.now given.now.prefix.now s }
    requires here { here + given.now.sc.now.positions ≤ length earlier.old }
    requires from { a < given.now.sc.now.positions }
    requires near { IsNear given.now.sc.now.moves (s - 1 - length given.now.prefix.now) (last_of given.now.sc.now.start given.now.prefix.now) a }
    requires size { length pairs.now ≡ given.now.sc.now.positions * given.now.sc.now.positions }
    requires pairs { s < given.now.sc.now.horizon → HasPairs given.now.sc.now given.now.prefix.now s pairs.now }
    requires width { length rewards.now ≡ given.now.sc.now.positions }
    requires rewards { (b : ℕ) → Contains (moves_from given.now.sc.now.moves a) b → slice_index rewards.now b ≡ reward_of given.now.sc.now given.now.prefix.now s b }
    requires room { length room.old ≡ three_rows given.now.sc.now + given.now.sc.now.positions }
    ensures each { (b : ℕ) → Contains (moves_from given.now.sc.now.moves a) b → slice_index earlier.new (here + b) ≡ edge_and_rest given.now.sc.now given.now.prefix.now s a b }
    ensures kept { (i : ℕ) → (i < here) ⊎ (here + given.now.sc.now.positions ≤ i) → slice_index earlier.new i ≡ slice_index earlier.old i }
    ensures size { length earlier.new ≡ length earlier.old }
    ensures room { length room.new ≡ length room.old }
{
    if s == given.sc.horizon() {
        fill_last(earlier, room, given, rewards, parts, here, s, a);
        return;
    }
    if given.own {
        fill_by_cell(earlier, room, given, pairs, rewards, behind, here, s, a);
        return;
    }
    fill_by_row(earlier, room, given, pairs, rewards, behind, here, s, a);
}

// The same for some positions that the searcher can be on in the period before `s`, each in a row of its own.
fn fill_row(
    earlier: &mut [u128],
    room: &mut [u128],
    given: &Setting,
    pairs: &[u128],
    rewards: &[u128],
    some: &[u8],
    s: u32,
)
    requires given { IsSetting given.now }
    requires inside { All (λ a. a < given.now.sc.now.positions) some.now }
    requires near { (a : ℕ) → Contains some.now a →
        IsNear given.now.sc.now.moves (s - 1 - length given.now.prefix.now) (last_of given.now.sc.now.start given.now.prefix.now) a }
    requires period { IsLater given.now.sc.now given.now.prefix.now s }
    requires size { length earlier.old ≡ given.now.sc.now.positions * given.now.sc.now.positions }
    requires square { length pairs.now ≡ given.now.sc.now.positions * given.now.sc.now.positions }
    requires pairs { s < given.now.sc.now.horizon → HasPairs given.now.sc.now given.now.prefix.now s pairs.now }
    requires width { length rewards.now ≡ given.now.sc.now.positions }
    requires rewards { (a b : ℕ) → Contains some.now a → Contains (moves_from given.now.sc.now.moves a) b → slice_index rewards.now b ≡ reward_of given.now.sc.now given.now.prefix.now s b }
    requires room { length room.old ≡ three_rows given.now.sc.now + given.now.sc.now.positions }
    ensures each { (a b : ℕ) → Contains some.now a → Contains (moves_from given.now.sc.now.moves a) b → slice_index earlier.new (a * given.now.sc.now.positions + b) ≡ edge_and_rest given.now.sc.now given.now.prefix.now s a b }
    ensures size { length earlier.new ≡ length earlier.old }
    ensures room { length room.new ≡ length room.old }
{
    given.sc.recall_sound();
    let parts = later_parts(given.sc, s, given.prefix.len() as u32 + 2);
    let behind = parts_behind(given, s);
    let positions = usize::from(given.sc.positions());
    for a in some {
        let here = usize::from(*a) * positions;
        fill_pairs(
            earlier, room, given, pairs, rewards, parts, behind, here, s, *a,
        );
    }
}

// The same for all positions that the searcher can be on in the period before `s`; `rows` is room for three rows of cells and two of
// positions.
fn step_back(earlier: &mut [u128], rows: &mut [u128], given: &Setting, pairs: &[u128], s: u32)
    requires given { IsSetting given.now }
    requires period { IsLater given.now.sc.now given.now.prefix.now s }
    requires room { length earlier.old ≡ given.now.sc.now.positions * given.now.sc.now.positions }
    requires size { length pairs.now ≡ given.now.sc.now.positions * given.now.sc.now.positions }
    requires pairs { s < given.now.sc.now.horizon → HasPairs given.now.sc.now given.now.prefix.now s pairs.now }
    requires rows { length rows.old ≡ three_rows given.now.sc.now + given.now.sc.now.positions + given.now.sc.now.positions }
    ensures pairs { (t : ℕ) → t + 1 ≡ s → HasPairs given.now.sc.now given.now.prefix.now t earlier.new }
    ensures room { length earlier.new ≡ length earlier.old }
    ensures rows { length rows.new ≡ length rows.old }
{
    let cells = usize::from(given.sc.cells());
    let (room, rewards) = rows.split_at_mut(
        cells + cells + cells + usize::from(given.sc.positions()),
    );
    let from = given.sc.last_after(given.prefix);
    let made = s - given.prefix.len() as u32;
    let here = given.near.within(given.sc.grid(), from, made);
    fill_rewards(rewards, given.sc, given.prefix, given.onward, here, s);
    let before = given.near.within(given.sc.grid(), from, made - 1);
    fill_row(earlier, room, given, pairs, rewards, before, s);
}

// The sums of the pairs that begin in period `s`, which is the last or the last but one: of the latter, by the rewards of the last.
fn start_back(pairs: &mut [u128], earlier: &mut [u128], rows: &mut [u128], given: &Setting, s: u32)
    requires given { IsSetting given.now }
    requires first { length given.now.prefix.now + 1 ≤ s }
    requires last { s ≤ given.now.sc.now.horizon }
    requires end { given.now.sc.now.horizon ≤ s + 1 }
    requires size { length pairs.old ≡ given.now.sc.now.positions * given.now.sc.now.positions }
    requires room { length earlier.old ≡ given.now.sc.now.positions * given.now.sc.now.positions }
    requires rows { length rows.old ≡ three_rows given.now.sc.now + given.now.sc.now.positions + given.now.sc.now.positions }
    ensures pairs { s < given.now.sc.now.horizon → HasPairs given.now.sc.now given.now.prefix.now s pairs.new }
    ensures size { length pairs.new ≡ length pairs.old }
    ensures room { length earlier.new ≡ length earlier.old }
    ensures rows { length rows.new ≡ length rows.old }
{
    given.sc.recall_sound();
    if s == given.sc.horizon() {
        return;
    }
    step_back(pairs, rows, given, earlier, s + 1);
}

// The sums of the pairs that begin in period `s`, by those of the pairs that begin two periods later.
fn two_back(pairs: &mut [u128], earlier: &mut [u128], rows: &mut [u128], given: &Setting, s: u32)
    requires given { IsSetting given.now }
    requires first { length given.now.prefix.now + 1 ≤ s }
    requires last { s + 2 ≤ given.now.sc.now.horizon }
    requires pairs { s + 2 < given.now.sc.now.horizon → HasPairs given.now.sc.now given.now.prefix.now (s + 2) pairs.old }
    requires size { length pairs.old ≡ given.now.sc.now.positions * given.now.sc.now.positions }
    requires room { length earlier.old ≡ given.now.sc.now.positions * given.now.sc.now.positions }
    requires rows { length rows.old ≡ three_rows given.now.sc.now + given.now.sc.now.positions + given.now.sc.now.positions }
    ensures pairs { HasPairs given.now.sc.now given.now.prefix.now s pairs.new }
    ensures size { length pairs.new ≡ length pairs.old }
    ensures room { length earlier.new ≡ length earlier.old }
    ensures rows { length rows.new ≡ length rows.old }
{
    given.sc.recall_sound();
    step_back(earlier, rows, given, pairs, s + 2);
    step_back(pairs, rows, given, earlier, s + 1);
}

/// The edge rewards of the first pairs of looks after a prefix, each with the greatest sum that follows it, from the last period back,
/// two periods at a time; all but the pairs are room.
pub(crate) fn go_back(pairs: &mut [u128], earlier: &mut [u128], rows: &mut [u128], given: &Setting)
    requires given { IsSetting given.now }
    requires short { length given.now.prefix.now < given.now.sc.now.horizon }
    requires size { length pairs.old ≡ given.now.sc.now.positions * given.now.sc.now.positions }
    requires room { length earlier.old ≡ given.now.sc.now.positions * given.now.sc.now.positions }
    requires rows { length rows.old ≡ three_rows given.now.sc.now + given.now.sc.now.positions + given.now.sc.now.positions }
    ensures pairs { length given.now.prefix.now + 2 ≤ given.now.sc.now.horizon → HasPairs given.now.sc.now given.now.prefix.now (length given.now.prefix.now + 1) pairs.new }
    ensures size { length pairs.new ≡ length pairs.old }
    ensures room { length earlier.new ≡ length earlier.old }
    ensures rows { length rows.new ≡ length rows.old }
{
    given.sc.recall_sound();
    let first = given.prefix.len() as u32 + 1;
    let twice = (given.sc.horizon() - first) / 2;
    start_back(pairs, earlier, rows, given, first + 2 * twice);
    for m in (0..twice).rev() {
        two_back(pairs, earlier, rows, given, first + 2 * m);
    }
}

// The greatest sum of a look from a move of `a` behind a first look from there, and of what follows it, where such a look comes.
fn best_second(given: &Setting, pairs: &[u128], a: u8) -> u128
    requires given { IsSetting given.now }
    requires short { length given.now.prefix.now < given.now.sc.now.horizon }
    requires from { a < given.now.sc.now.positions }
    requires step { Contains (moves_from given.now.sc.now.moves (last_of given.now.sc.now.start given.now.prefix.now)) a }
    requires size { length pairs.now ≡ given.now.sc.now.positions * given.now.sc.now.positions }
    requires pairs { length given.now.prefix.now + 2 ≤ given.now.sc.now.horizon → HasPairs given.now.sc.now given.now.prefix.now (length given.now.prefix.now + 1) pairs.now }
    ensures { result ≡
        greatest (map (second_sum given.now.sc.now given.now.prefix.now a) (walks given.now.sc.now.moves (given.now.sc.now.horizon - (length given.now.prefix.now + 1)) a)) }
{
    given.sc.recall_sound();
    let first = given.prefix.len() as u32 + 1;
    if first == given.sc.horizon() {
        return 0;
    }
    best_pair(given, pairs, a)
}

// The same where one comes.
fn best_pair(given: &Setting, pairs: &[u128], a: u8) -> u128
    requires short { length given.now.prefix.now + 2 ≤ given.now.sc.now.horizon }
    requires from { a < given.now.sc.now.positions }
    requires step { Contains (moves_from given.now.sc.now.moves (last_of given.now.sc.now.start given.now.prefix.now)) a }
    requires size { length pairs.now ≡ given.now.sc.now.positions * given.now.sc.now.positions }
    requires pairs { HasPairs given.now.sc.now given.now.prefix.now (length given.now.prefix.now + 1) pairs.now }
    ensures { result ≡
        greatest (map (second_sum given.now.sc.now given.now.prefix.now a) (walks given.now.sc.now.moves (given.now.sc.now.horizon - (length given.now.prefix.now + 1)) a)) }
{
    let moves = given.sc.grid().moves(a);
    let here = usize::from(a) * usize::from(given.sc.positions());
    let mut best = 0;
    for b in moves {
        let sum = sum_at(pairs, here, *b);
        best = sum.max(best);
    }
    best
}

// The reward of a first look from `a` after a prefix, with the greatest sum that follows it.
fn first_sum(given: &Setting, pairs: &[u128], a: u8) -> u128
    requires given { IsSetting given.now }
    requires short { length given.now.prefix.now < given.now.sc.now.horizon }
    requires from { a < given.now.sc.now.positions }
    requires step { Contains (moves_from given.now.sc.now.moves (last_of given.now.sc.now.start given.now.prefix.now)) a }
    requires size { length pairs.now ≡ given.now.sc.now.positions * given.now.sc.now.positions }
    requires pairs { length given.now.prefix.now + 2 ≤ given.now.sc.now.horizon → HasPairs given.now.sc.now given.now.prefix.now (length given.now.prefix.now + 1) pairs.now }
    ensures { result ≡ reward_of given.now.sc.now given.now.prefix.now (length given.now.prefix.now + 1) a +
        greatest (map (second_sum given.now.sc.now given.now.prefix.now a) (walks given.now.sc.now.moves (given.now.sc.now.horizon - (length given.now.prefix.now + 1)) a)) }
{
    given.sc.recall_sound();
    first_reward(given.sc, given.prefix, given.onward, a) + best_second(given, pairs, a)
}

/// The greatest sum of rewards over the continuations of a prefix, by those of the first pairs of looks after it.
pub(crate) fn best_first(given: &Setting, pairs: &[u128]) -> u128
    requires given { IsSetting given.now }
    requires short { length given.now.prefix.now < given.now.sc.now.horizon }
    requires size { length pairs.now ≡ given.now.sc.now.positions * given.now.sc.now.positions }
    requires pairs { length given.now.prefix.now + 2 ≤ given.now.sc.now.horizon → HasPairs given.now.sc.now given.now.prefix.now (length given.now.prefix.now + 1) pairs.now }
    ensures { result ≡ greatest (map (two_sum given.now.sc.now given.now.prefix.now) (continuations given.now.sc.now given.now.prefix.now)) }
{
    let moves = given.sc.moves_after(given.prefix);
    let mut best = 0;
    for a in moves {
        let sum = first_sum(given, pairs, *a);
        best = sum.max(best);
    }
    best
}
