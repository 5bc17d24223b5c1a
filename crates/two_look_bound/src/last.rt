//! The edge rewards of the last period.

ghost use Rattle.std.specs.Prelude.{◌≡◌, ◌<◌, ◌≤◌, ◌+◌, ◌-◌, ◌*◌, ◌⊎◌, ℕ, length, slice_index, Contains};
ghost use Rattle.sweep_table.specs.LookParts.{look_row};
ghost use Rattle.search_grid.specs.Moves.{moves_from};
ghost use Rattle.search_model.specs.Bounds.{reward_of};
ghost use Rattle.belief_update.specs.Flows.{IsOwn};
ghost use Rattle.edge_bound.specs.After.{parts_after, loss_of};
ghost use Rattle.edge_bound.specs.Moves.{IsLater, HasShares};
ghost use Rattle.two_look_bound.specs.Pairs.{edge_and_rest};
ghost use Rattle.two_look_bound.specs.Setting.{IsSetting};

use crate::pairs::put_at;
use crate::setting::Setting;
use edge_bound::{fill_shares, found_by, look_from, taken_by_shares, taken_own};
use sweep_table::LookPart;

// The edge reward of a look from `b` in the last period, `s`, after one from `a`, by its reward without that look, and what that one
// takes of it. Nothing follows it.
fn last_edge(given: &Setting, reward: u128, loss: u128, s: u32, a: u8, b: u8) -> u128
    requires period { IsLater given.now.sc.now given.now.prefix.now s }
    requires last { s ≡ given.now.sc.now.horizon }
    requires reward { reward ≡ reward_of given.now.sc.now given.now.prefix.now s b }
    requires loss { loss ≡ loss_of given.now.sc.now given.now.prefix.now s a b }
    ensures { result ≡ edge_and_rest given.now.sc.now given.now.prefix.now s a b }
{
    let _looks = (s, a, b);
    given.sc.recall_sound();
    reward - loss
}

// Writes, from `here` on, the edge rewards of looks in the last period, `s`, from the moves of `a`, after a look from there, by what
// that one finds in each cell of its row.
fn last_by_shares(
    earlier: &mut [u128],
    given: &Setting,
    rewards: &[u128],
    shares: &[u128],
    before: &[LookPart],
    here: usize,
    s: u32,
    a: u8,
)
    requires given { IsSetting given.now }
    requires period { IsLater given.now.sc.now given.now.prefix.now s }
    requires last { s ≡ given.now.sc.now.horizon }
    requires here { here + given.now.sc.now.positions ≤ length earlier.old }
    requires from { a < given.now.sc.now.positions }
    requires width { length rewards.now ≡ given.now.sc.now.positions }
    requires rewards { (b : ℕ) → Contains (moves_from given.now.sc.now.moves a) b → slice_index rewards.now b ≡ reward_of given.now.sc.now given.now.prefix.now s b }
    requires before { before.now ≡ look_row given.now.sc.now.sweep (s - 1) a }
    requires shares { HasShares given.now.sc.now given.now.prefix.now s a (parts_after given.now.sc.now given.now.prefix.now s) shares.now }
    requires room { length shares.now ≡ given.now.sc.now.cells }
    ensures each { (b : ℕ) → Contains (moves_from given.now.sc.now.moves a) b → slice_index earlier.new (here + b) ≡ edge_and_rest given.now.sc.now given.now.prefix.now s a b }
    ensures kept { (i : ℕ) → (i < here) ⊎ (here + given.now.sc.now.positions ≤ i) → slice_index earlier.new i ≡ slice_index earlier.old i }
    ensures size { length earlier.new ≡ length earlier.old }
{
    let moves = given.sc.grid().moves(a);
    for b in moves {
        let reward = rewards[usize::from(*b)];
        let loss = taken_by_shares(
            given.sc,
            given.prefix,
            given.units,
            shares,
            before,
            s,
            a,
            *b,
        );
        let sum = last_edge(given, reward, loss, s, a, *b);
        put_at(earlier, here, *b, sum);
    }
}

// The same by the parts of what is to come; `room` begins with a row of cells.
#[inline(never)]
fn last_by_row(
    earlier: &mut [u128],
    room: &mut [u128],
    given: &Setting,
    rewards: &[u128],
    parts: u128,
    here: usize,
    s: u32,
    a: u8,
)
    requires given { IsSetting given.now }
    requires period { IsLater given.now.sc.now given.now.prefix.now s }
    requires last { s ≡ given.now.sc.now.horizon }
    requires parts { parts ≡ parts_after given.now.sc.now given.now.prefix.now s }
    requires here { here + given.now.sc.now.positions ≤ length earlier.old }
    requires from { a < given.now.sc.now.positions }
    requires width { length rewards.now ≡ given.now.sc.now.positions }
    requires rewards { (b : ℕ) → Contains (moves_from given.now.sc.now.moves a) b → slice_index rewards.now b ≡ reward_of given.now.sc.now given.now.prefix.now s b }
    requires room { given.now.sc.now.cells ≤ length room.old }
    ensures each { (b : ℕ) → Contains (moves_from given.now.sc.now.moves a) b → slice_index earlier.new (here + b) ≡ edge_and_rest given.now.sc.now given.now.prefix.now s a b }
    ensures kept { (i : ℕ) → (i < here) ⊎ (here + given.now.sc.now.positions ≤ i) → slice_index earlier.new i ≡ slice_index earlier.old i }
    ensures size { length earlier.new ≡ length earlier.old }
    ensures room { length room.new ≡ length room.old }
{
    given.sc.recall_sound();
    let (shares, _) = room.split_at_mut(usize::from(given.sc.cells()));
    let look = look_from(given.sc, s - 1, a);
    fill_shares(
        shares,
        given.sc,
        given.prefix,
        given.onward,
        look.parts(),
        parts,
        s,
        a,
    );
    last_by_shares(earlier, given, rewards, shares, look.parts(), here, s, a);
}

// The same where looks from `a` cover its own cell alone, by the parts of what is to come.
fn last_own(
    earlier: &mut [u128],
    given: &Setting,
    rewards: &[u128],
    parts: u128,
    here: usize,
    s: u32,
    a: u8,
)
    requires given { IsSetting given.now }
    requires own { IsOwn given.now.sc.now a }
    requires period { IsLater given.now.sc.now given.now.prefix.now s }
    requires last { s ≡ given.now.sc.now.horizon }
    requires parts { parts ≡ parts_after given.now.sc.now given.now.prefix.now s }
    requires here { here + given.now.sc.now.positions ≤ length earlier.old }
    requires from { a < given.now.sc.now.positions }
    requires width { length rewards.now ≡ given.now.sc.now.positions }
    requires rewards { (b : ℕ) → Contains (moves_from given.now.sc.now.moves a) b → slice_index rewards.now b ≡ reward_of given.now.sc.now given.now.prefix.now s b }
    ensures each { (b : ℕ) → Contains (moves_from given.now.sc.now.moves a) b → slice_index earlier.new (here + b) ≡ edge_and_rest given.now.sc.now given.now.prefix.now s a b }
    ensures kept { (i : ℕ) → (i < here) ⊎ (here + given.now.sc.now.positions ≤ i) → slice_index earlier.new i ≡ slice_index earlier.old i }
    ensures size { length earlier.new ≡ length earlier.old }
{
    let moves = given.sc.grid().moves(a);
    let share = found_by(given.sc, given.prefix, given.onward, s - 1, a) * parts;
    let place = given.units.place(s, a);
    for b in moves {
        let reward = rewards[usize::from(*b)];
        let loss = taken_own(given.sc, given.prefix, given.units, share, place, s, a, *b);
        let sum = last_edge(given, reward, loss, s, a, *b);
        put_at(earlier, here, *b, sum);
    }
}

/// Writes, from `here` on, the edge rewards of looks in the last period, `s`, from the moves of `a`, after a look from there; `room`
/// begins with a row of cells.
pub(crate) fn fill_last(
    earlier: &mut [u128],
    room: &mut [u128],
    given: &Setting,
    rewards: &[u128],
    parts: u128,
    here: usize,
    s: u32,
    a: u8,
)
    requires given { IsSetting given.now }
    requires period { IsLater given.now.sc.now given.now.prefix.now s }
    requires last { s ≡ given.now.sc.now.horizon }
    requires parts { parts ≡ parts_after given.now.sc.now given.now.prefix.now s }
    requires here { here + given.now.sc.now.positions ≤ length earlier.old }
    requires from { a < given.now.sc.now.positions }
    requires width { length rewards.now ≡ given.now.sc.now.positions }
    requires rewards { (b : ℕ) → Contains (moves_from given.now.sc.now.moves a) b → slice_index rewards.now b ≡ reward_of given.now.sc.now given.now.prefix.now s b }
    requires room { given.now.sc.now.cells ≤ length room.old }
    ensures each { (b : ℕ) → Contains (moves_from given.now.sc.now.moves a) b → slice_index earlier.new (here + b) ≡ edge_and_rest given.now.sc.now given.now.prefix.now s a b }
    ensures kept { (i : ℕ) → (i < here) ⊎ (here + given.now.sc.now.positions ≤ i) → slice_index earlier.new i ≡ slice_index earlier.old i }
    ensures size { length earlier.new ≡ length earlier.old }
    ensures room { length room.new ≡ length room.old }
{
    match given.sc.sweep().own_part(a) {
        Some(_) => last_own(earlier, given, rewards, parts, here, s, a),
        None => last_by_row(earlier, room, given, rewards, parts, here, s, a),
    }
}
