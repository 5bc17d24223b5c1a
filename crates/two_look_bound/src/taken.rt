//! What a look takes of the looks one and two periods after it.

ghost use Rattle.std.specs.Prelude.{◌≡◌, ◌<◌, ◌≤◌, ◌+◌, ◌-◌, ◌*◌, ◌^◌, ℕ, length, slice_index, All};
ghost use Rattle.sweep_table.specs.LookParts.{look_row};
ghost use Rattle.edge_bound.specs.Moves.{HasShares};
ghost use Rattle.edge_bound.specs.Units.{place_of};
ghost use Rattle.two_look_bound.specs.Pairs.{IsMiddle};
ghost use Rattle.two_look_bound.specs.Taken.{weighted_sum, parts_after_two, less_of, skip_of, joint_of, HasTaken, HasLess};
ghost use Rattle.two_look_bound.specs.Setting.{IsSetting};

use crate::setting::Setting;
use belief_update::spread;
use edge_bound::Units;
use sweep_table::LookPart;

/// The sum of some shares, one for each entry of a row, times the numbers of their cells in a table, for position `b` in period
/// `t`.
pub(crate) fn weighted(table: &Units, shares: &[u128], row: &[LookPart], t: u32, b: u8) -> u128
    requires first { 2 ≤ t }
    requires room { length row.now ≤ length shares.now }
    requires inside { All (λ e. place_of table.now t e.cell b < length table.now.units) row.now }
    requires fits { weighted_sum table.now t b row.now shares.now < 2 ^ 127 }
    ensures { result ≡ weighted_sum table.now t b row.now shares.now }
{
    let mut sum = 0;
    for i in 0..row.len() {
        let unit = table.unit(t, row[i].cell, b);
        sum += shares[i] * u128::from(unit);
    }
    sum
}

/// Writes zeros.
pub(crate) fn clear(taken: &mut [u128])
    ensures each { (e : ℕ) → e < length taken.old → slice_index taken.new e ≡ 0 }
    ensures size { length taken.new ≡ length taken.old }
{
    taken.fill(0);
}

/// Writes what a look from `a` in the period before `s` takes of the mass of each cell in period `s`, by what it finds in each cell of
/// its row, in the parts of what is to come.
pub(crate) fn fill_taken(
    taken: &mut [u128],
    given: &Setting,
    shares: &[u128],
    before: &[LookPart],
    s: u32,
    a: u8,
)
    requires middle { IsMiddle given.now.sc.now given.now.prefix.now s }
    requires before { before.now ≡ look_row given.now.sc.now.sweep (s - 1) a }
    requires shares { HasShares given.now.sc.now given.now.prefix.now s a (parts_after_two given.now.sc.now given.now.prefix.now s) shares.now }
    requires room { length shares.now ≡ given.now.sc.now.cells }
    requires size { length taken.old ≡ given.now.sc.now.cells }
    ensures each { HasTaken given.now.sc.now given.now.prefix.now s a taken.new }
    ensures size { length taken.new ≡ length taken.old }
{
    let _from = a;
    given.sc.recall_sound();
    clear(taken);
    for i in 0..before.len() {
        let share = shares[i];
        let row = given.sc.drift().row(s - 1, before[i].cell);
        spread(taken, row, share);
    }
}

/// Writes what a look from `b` in period `s` would find, in each cell of its row, of what a look from `a` in the period before takes,
/// and answers the sum.
pub(crate) fn fill_less(
    less: &mut [u128],
    given: &Setting,
    taken: &[u128],
    row: &[LookPart],
    s: u32,
    a: u8,
    b: u8,
) -> u128
    requires middle { IsMiddle given.now.sc.now given.now.prefix.now s }
    requires row { row.now ≡ look_row given.now.sc.now.sweep s b }
    requires taken { HasTaken given.now.sc.now given.now.prefix.now s a taken.now }
    requires room { length taken.now ≡ given.now.sc.now.cells }
    requires size { length less.old ≡ given.now.sc.now.cells }
    ensures sum { result ≡ less_of given.now.sc.now given.now.prefix.now s a b }
    ensures each { HasLess given.now.sc.now given.now.prefix.now s a b less.new }
    ensures size { length less.new ≡ length less.old }
{
    let _looks = (s, a, b);
    let whole = given.sc.sweep().denominator();
    let mut sum = 0;
    for i in 0..row.len() {
        let found = taken[row[i].cell as usize] * u128::from(whole - row[i].part);
        less[i] = found;
        sum += found;
    }
    sum
}

/// What looks from `a` in the period before `s`, `b` in period `s` and `c` in the one after it would find one after the other.
pub(crate) fn joint(
    given: &Setting,
    less: &[u128],
    row: &[LookPart],
    s: u32,
    a: u8,
    b: u8,
    c: u8,
) -> u128
    requires given { IsSetting given.now }
    requires middle { IsMiddle given.now.sc.now given.now.prefix.now s }
    requires to { c < given.now.sc.now.positions }
    requires row { row.now ≡ look_row given.now.sc.now.sweep s b }
    requires less { HasLess given.now.sc.now given.now.prefix.now s a b less.now }
    requires room { length less.now ≡ given.now.sc.now.cells }
    ensures { result ≡ joint_of given.now.sc.now given.now.prefix.now s a b c }
{
    let _looks = (a, b);
    given.sc.recall_sound();
    weighted(given.units, less, row, s + 1, c)
}

/// What looks from `a` in the period before `s` and `c` in the one after it would find one after the other, with none between them.
pub(crate) fn skip(
    given: &Setting,
    shares: &[u128],
    before: &[LookPart],
    s: u32,
    a: u8,
    c: u8,
) -> u128
    requires given { IsSetting given.now }
    requires middle { IsMiddle given.now.sc.now given.now.prefix.now s }
    requires to { c < given.now.sc.now.positions }
    requires before { before.now ≡ look_row given.now.sc.now.sweep (s - 1) a }
    requires shares { HasShares given.now.sc.now given.now.prefix.now s a (parts_after_two given.now.sc.now given.now.prefix.now s) shares.now }
    requires room { length shares.now ≡ given.now.sc.now.cells }
    ensures { result ≡ skip_of given.now.sc.now given.now.prefix.now s a c }
{
    let _from = a;
    given.sc.recall_sound();
    let sum = weighted(given.twos, shares, before, s, c);
    sum * u128::from(given.sc.sweep().denominator())
}
