//! The gains of one more look, over a flat table: period after period, and in each position after position.

ghost use Rattle.std.specs.Prelude.{◌≡◌, ◌<◌, ◌≤◌, ◌+◌, ◌-◌, ◌*◌, ◌^◌, ℕ, List, length, slice_index, take, drop, All};
ghost use Rattle.search_model.specs.Legal.{IsLegal, IsPath, last_of};
ghost use Rattle.search_model.specs.Bounds.{gain_of, sum_along};
ghost use Rattle.belief_update.specs.Onward.{IsOnward};
ghost use Rattle.belief_update.specs.Taken.{IsTakenTo};
ghost use Rattle.backward_mass.specs.Table.{IsMadeFor, IsFilledFrom};
ghost use Rattle.longest_walk.specs.Near.{AreNear};
ghost use Rattle.longest_walk.specs.Sums.{entry_at};
ghost use Rattle.tangent_bound.specs.Gains.{IsMet, IsGainRow, AreGains, missed_at, missed_by_look};

use backward_mass::Backward;
use belief_update::{Belief, Onward, Taken, take_along, take_on};
use longest_walk::Near;
use search_model::{Path, Scenario};
use sweep_table::LookPart;

// What the reference misses of the tracks that are in the entry's cell in period `t`, by what its looks up to that period
// took. It is counted only where a look over the entry finds something there.
fn missed(
    sc: &Scenario,
    without: &Belief,
    taken: &Taken,
    backward: &Backward,
    t: u32,
    entry: LookPart,
) -> u128
    requires met { (path : List ℕ) × IsMet sc.now path t without.now taken.now backward.now }
    requires first { 1 ≤ t }
    requires last { t ≤ sc.now.horizon }
    requires cell { entry.cell < sc.now.cells }
    ensures { (path : List ℕ) → IsMet sc.now path t without.now taken.now backward.now → result ≡ missed_at sc.now path t entry }
{
    if entry.part < sc.sweep().denominator() {
        taken.mass(sc, without, entry.cell) * backward.at(t, entry.cell)
    } else {
        0
    }
}

// What the reference misses of all tracks that a look from position `a` covers in period `t`, cell by cell of its row.
#[inline(never)]
fn covered_by_row(
    sc: &Scenario,
    without: &Belief,
    taken: &Taken,
    backward: &Backward,
    t: u32,
    a: u8,
) -> u128
    requires met { (path : List ℕ) × IsMet sc.now path t without.now taken.now backward.now }
    requires first { 1 ≤ t }
    requires last { t ≤ sc.now.horizon }
    requires position { a < sc.now.positions }
    ensures { (path : List ℕ) → IsMet sc.now path t without.now taken.now backward.now → result ≡ missed_by_look sc.now path t a }
{
    let look = sc.sweep().look(t, a);
    let mut sum = 0;
    for entry in look.parts() {
        sum += missed(sc, without, taken, backward, t, *entry);
    }
    sum
}

// What the reference misses of all tracks that a look from position `a` covers in period `t`.
fn covered(
    sc: &Scenario,
    without: &Belief,
    taken: &Taken,
    backward: &Backward,
    t: u32,
    a: u8,
) -> u128
    requires met { (path : List ℕ) × IsMet sc.now path t without.now taken.now backward.now }
    requires first { 1 ≤ t }
    requires last { t ≤ sc.now.horizon }
    requires position { a < sc.now.positions }
    ensures { (path : List ℕ) → IsMet sc.now path t without.now taken.now backward.now → result ≡ missed_by_look sc.now path t a }
{
    match sc.sweep().own_part(a) {
        Some(part) => missed(sc, without, taken, backward, t, LookPart { cell: a, part }),
        None => covered_by_row(sc, without, taken, backward, t, a),
    }
}

// What one more look from position `a` in period `t` finds of what the reference misses, by what the reference's looks up
// to that period took.
fn gain(
    sc: &Scenario,
    rate: u32,
    without: &Belief,
    taken: &Taken,
    backward: &Backward,
    t: u32,
    a: u8,
) -> u128
    requires rate { rate ≤ sc.now.sweep.denominator }
    requires met { (path : List ℕ) × IsMet sc.now path t without.now taken.now backward.now }
    requires first { 1 ≤ t }
    requires last { t ≤ sc.now.horizon }
    requires position { a < sc.now.positions }
    ensures { (path : List ℕ) → IsMet sc.now path t without.now taken.now backward.now → result ≡ gain_of sc.now rate path t a }
{
    let found = sc.sweep().denominator() - rate;
    u128::from(found) * covered(sc, without, taken, backward, t, a)
}

// Writes the gains of some positions in period `t`, by what the reference's looks up to that period took.
fn fill_row(
    gains: &mut [u128],
    sc: &Scenario,
    some: &[u8],
    rate: u32,
    without: &Belief,
    taken: &Taken,
    backward: &Backward,
    t: u32,
)
    requires size { length gains.old ≡ sc.now.horizon * sc.now.positions }
    requires inside { All (λ a. a < sc.now.positions) some.now }
    requires rate { rate ≤ sc.now.sweep.denominator }
    requires met { (path : List ℕ) × IsMet sc.now path t without.now taken.now backward.now }
    requires first { 1 ≤ t }
    requires last { t ≤ sc.now.horizon }
    ensures row { (path : List ℕ) → IsMet sc.now path t without.now taken.now backward.now →
        IsGainRow sc.now rate path t some.now gains.new }
    ensures earlier { (i : ℕ) → i < (t - 1) * sc.now.positions → slice_index gains.new i ≡ slice_index gains.old i }
{
    let here = (t as usize - 1) * usize::from(sc.positions());
    for a in some {
        gains[here + usize::from(*a)] = gain(sc, rate, without, taken, backward, t, *a);
    }
}

// Writes the gains of the periods after `j` for the positions that are within reach of one then, by the beliefs after the
// first `k` looks of the reference and by what its looks from there up to `j` took.
fn fill_rows(
    gains: &mut [u128],
    sc: &Scenario,
    near: &Near,
    rate: u32,
    onward: &Onward,
    taken: &mut Taken,
    backward: &Backward,
    reference: &Path,
    from: u8,
    k: u32,
    j: u32,
)
    requires size { length gains.old ≡ sc.now.horizon * sc.now.positions }
    requires within { AreNear sc.now.moves sc.now.horizon near.now }
    requires from { from < sc.now.positions }
    requires rate { rate ≤ sc.now.sweep.denominator }
    requires path { IsPath sc.now reference.now }
    requires backward { IsFilledFrom sc.now reference.now (j + 1) backward.now }
    requires onward { IsOnward sc.now (take k reference.now) onward.now }
    requires taken { IsTakenTo sc.now (take k reference.now) reference.now j taken.old }
    requires order { k ≤ j }
    requires period { j ≤ sc.now.horizon }
    ensures gains { AreGains sc.now rate reference.now from j sc.now.horizon gains.new }
    ensures taken { IsTakenTo sc.now (take k reference.now) reference.now sc.now.horizon taken.new }
{
    for n in j..sc.horizon() {
        take_on(sc, taken, onward, reference, k, n);
        let some = near.within(sc.grid(), from, n + 1 - j);
        fill_row(
            gains,
            sc,
            some,
            rate,
            onward.at(n + 1),
            taken,
            backward,
            n + 1,
        );
    }
}

/// Writes the gains of the periods after a front of the reference for the positions that the searcher can be on then, and
/// has what the reference's looks took after its first `k`, by the beliefs after those.
pub(crate) fn fill_after(
    gains: &mut [u128],
    sc: &Scenario,
    near: &Near,
    rate: u32,
    onward: &Onward,
    taken: &mut Taken,
    backward: &mut Backward,
    k: u32,
    front: &Path,
    reference: &Path,
)
    requires size { length gains.old ≡ sc.now.horizon * sc.now.positions }
    requires within { AreNear sc.now.moves sc.now.horizon near.now }
    requires rate { rate ≤ sc.now.sweep.denominator }
    requires onward { IsOnward sc.now (take k reference.now) onward.now }
    requires room { length taken.old.masses ≡ sc.now.cells }
    requires made { IsMadeFor sc.now backward.old }
    requires legal { IsLegal sc.now front.now }
    requires order { k ≤ length front.now }
    requires shorter { length front.now < sc.now.horizon }
    requires path { IsPath sc.now reference.now }
    requires begins { take (length front.now) reference.now ≡ front.now }
    ensures gains { AreGains sc.now rate reference.now (last_of sc.now.start front.now) (length front.now)
        sc.now.horizon gains.new }
    ensures taken { IsTakenTo sc.now (take k reference.now) reference.now sc.now.horizon taken.new }
    ensures made { IsMadeFor sc.now backward.new }
{
    let j = front.len() as u32;
    backward.fill_from(sc, reference, j + 1);
    take_along(sc, taken, onward, reference, k, j);
    let from = sc.last_after(front);
    fill_rows(
        gains, sc, near, rate, onward, taken, backward, reference, from, k, j,
    );
}

/// The sum of the gains along a path after its first `k` positions.
pub(crate) fn sum_after(gains: &[u128], positions: u8, path: &[u8], k: u32) -> u128
    requires size { length gains.now ≡ length path.now * positions }
    requires within { All (λ a. a < positions) path.now }
    requires few { length path.now ≤ 32 }
    requires period { k ≤ length path.now }
    requires fits { sum_along (entry_at positions gains.now) (k + 1) (drop k path.now) < 2 ^ 128 }
    ensures { result ≡ sum_along (entry_at positions gains.now) (k + 1) (drop k path.now) }
{
    let mut sum = 0;
    for n in k as usize..path.len() {
        sum += gains[n * usize::from(positions) + usize::from(path[n])];
    }
    sum
}
