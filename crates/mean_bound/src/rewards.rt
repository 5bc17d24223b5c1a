//! The rewards of looks after a prefix.

ghost use Rattle.std.specs.Prelude.{◌≡◌, ◌<◌, ◌≤◌, ◌+◌, ◌-◌, ◌*◌, ◌^◌, ℕ, length, slice_index, All, Contains};
ghost use Rattle.search_model.specs.Legal.{IsLegal, last_of};
ghost use Rattle.longest_walk.specs.Near.{AreNear};
ghost use Rattle.longest_walk.specs.Tables.{HasNear};
ghost use Rattle.belief_update.specs.Onward.{IsOnward};
ghost use Rattle.belief_update.specs.Found.{found_of};
ghost use Rattle.mean_bound.specs.Rewards.{HasRewards, reward_by};

use belief_update::{Onward, found, later_parts};
use longest_walk::Near;
use search_model::{Path, Scenario};

// Writes the rewards of some positions in period `t`, whose row begins at place `row`: what a look from each of them finds of
// masses, times the parts of what is to come.
fn fill_some(
    rewards: &mut [u128],
    sc: &Scenario,
    t: u32,
    masses: &[u128],
    some: &[u8],
    row: usize,
    parts: u128,
)
    requires inside { All (λ a. a < sc.now.positions) some.now }
    requires period { (1 ≤ t) × (t ≤ sc.now.horizon) }
    requires cells { length masses.now ≡ sc.now.cells }
    requires parts { 1 ≤ parts }
    requires row { row + sc.now.positions ≤ length rewards.old }
    requires fits { (a : ℕ) → a < sc.now.positions → found_of sc.now t a (slice_index masses.now) * parts < 2 ^ 127 }
    ensures each { (a : ℕ) → Contains some.now a →
        slice_index rewards.new (row + a) ≡ found_of sc.now t a (slice_index masses.now) * parts }
    ensures earlier { (i : ℕ) → i < row → slice_index rewards.new i ≡ slice_index rewards.old i }
{
    for a in some {
        rewards[row + usize::from(*a)] = found(sc, t, masses, *a) * parts;
    }
}

/// Writes the rewards of period `t` after a prefix behind those of the periods before it, by the masses in it, for the
/// positions that the searcher can be on then.
pub fn fill_period(
    rewards: &mut [u128],
    sc: &Scenario,
    near: &Near,
    prefix: &Path,
    t: u32,
    masses: &[u128],
)
    requires near { AreNear sc.now.moves sc.now.horizon near.now }
    requires legal { IsLegal sc.now prefix.now }
    requires later { length prefix.now < t }
    requires last { t ≤ sc.now.horizon }
    requires size { length rewards.old ≡ sc.now.horizon * sc.now.positions }
    requires cells { length masses.now ≡ sc.now.cells }
    requires fits { (a : ℕ) → a < sc.now.positions →
        reward_by sc.now (length prefix.now) t (slice_index masses.now) a < 2 ^ 127 }
    ensures { let k = length prefix.now in let from = last_of sc.now.start prefix.now in
        (r : ℕ → ℕ → ℕ)
        → ((a : ℕ) → a < sc.now.positions → reward_by sc.now k t (slice_index masses.now) a ≡ r t a)
        → HasNear sc.now.moves sc.now.positions (t - 1) r from k rewards.old
        → HasNear sc.now.moves sc.now.positions t r from k rewards.new }
{
    let positions = usize::from(sc.positions());
    let k = prefix.len() as u32;
    let from = sc.last_after(prefix);
    // A reward counts the looks of the prefix, and its own.
    fill_some(
        rewards,
        sc,
        t,
        masses,
        near.within(sc.grid(), from, t - k),
        (t as usize - 1) * positions,
        later_parts(sc, t, k + 1),
    );
}

/// Fills in the rewards of all periods after a prefix, by the beliefs in them, for the positions that the searcher can be
/// on then.
pub(crate) fn fill_rewards(
    rewards: &mut [u128],
    sc: &Scenario,
    near: &Near,
    onward: &Onward,
    prefix: &Path,
)
    requires near { AreNear sc.now.moves sc.now.horizon near.now }
    requires legal { IsLegal sc.now prefix.now }
    requires short { length prefix.now < sc.now.horizon }
    requires size { length rewards.old ≡ sc.now.horizon * sc.now.positions }
    requires onward { IsOnward sc.now prefix.now onward.now }
    ensures rewards { HasRewards sc.now prefix.now rewards.new }
{
    for t in prefix.len() as u32..sc.horizon() {
        fill_period(rewards, sc, near, prefix, t + 1, onward.at(t + 1).masses());
    }
}
