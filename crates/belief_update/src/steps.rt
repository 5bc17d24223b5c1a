//! A look and a step of the drift, over plain lists of masses.

ghost use Rattle.std.specs.Prelude.{◌≡◌, ◌<◌, ◌≤◌, ◌+◌, ◌-◌, ◌*◌, ◌^◌, ◌∷◌, [], ℕ, length, slice_index, sum_by, All};
ghost use Rattle.std.specs.List.{range_with_len};
ghost use Rattle.drift_chain.specs.DriftRows.{part_in, part_of, drift_cells};
ghost use Rattle.sweep_table.specs.LookParts.{factor_in, factor_of, misses, positions_of, cells_of};
ghost use Rattle.belief_update.specs.Places.{IsPlaceOf};
ghost use Rattle.belief_update.specs.Flows.{held_in};

use crate::flows::UnitPart;
use drift_chain::{Drift, DriftPart};
use sweep_table::{LookPart, Sweep};

// The factor in cell `c` of a look over a row, by the place of the cell there.
fn factor_at(row: &[LookPart], i: usize, c: u8, whole: u32) -> u32
    requires { IsPlaceOf c row.now i }
    ensures { result ≡ factor_in whole row.now c }
{
    if i < row.len() && row[i].cell == c {
        row[i].part
    } else {
        whole
    }
}

// The place in a row of the cell after cell `c`, by that of cell `c`.
fn place_after(row: &[LookPart], i: usize, c: u8) -> usize
    requires { IsPlaceOf c row.now i }
    ensures { IsPlaceOf (c + 1) row.now result }
{
    if i < row.len() && row[i].cell == c {
        i + 1
    } else {
        i
    }
}

// Multiplies each mass by the factor of a look from position `a` in period `t`, going along its row.
#[inline(never)]
fn weaken_by_row(masses: &mut [u128], sweep: &Sweep, t: u32, a: u8)
    requires cells { length masses.old ≡ cells_of sweep.now }
    requires first { 1 ≤ t }
    requires last { t ≤ 32 }
    requires position { a < positions_of sweep.now }
    requires fits { (c : ℕ) → c < length masses.old → slice_index masses.old c * factor_of sweep.now t a c < 2 ^ 127 }
    ensures each { (c : ℕ) → c < length masses.old →
        slice_index masses.new c ≡ slice_index masses.old c * factor_of sweep.now t a c }
{
    let whole = sweep.denominator();
    let look = sweep.look(t, a);
    let row = look.parts();
    let mut next = 0;
    for c in 0..sweep.cells() {
        let factor = factor_at(row, next, c, whole);
        next = place_after(row, next, c);
        masses[c as usize] *= u128::from(factor);
    }
}

// The factor in cell `c` of a look that covers cell `a` alone, and misses a part of the whole there.
fn own_factor(whole: u32, a: u8, part: u32, c: usize) -> u32
    ensures { result ≡ factor_in whole (misses a part ∷ []) c }
{
    if c == usize::from(a) { part } else { whole }
}

// Multiplies each mass by the factor of a look that covers cell `a` alone, and misses a part of the whole there.
fn weaken_own(masses: &mut [u128], whole: u32, a: u8, part: u32)
    requires fits { (c : ℕ) → c < length masses.old →
        slice_index masses.old c * factor_in whole (misses a part ∷ []) c < 2 ^ 127 }
    ensures each { (c : ℕ) → c < length masses.old →
        slice_index masses.new c ≡ slice_index masses.old c * factor_in whole (misses a part ∷ []) c }
{
    for c in 0..masses.len() {
        masses[c] *= u128::from(own_factor(whole, a, part, c));
    }
}

/// Multiplies each mass by the factor of a look from position `a` in period `t`.
pub fn weaken(masses: &mut [u128], sweep: &Sweep, t: u32, a: u8)
    requires cells { length masses.old ≡ cells_of sweep.now }
    requires first { 1 ≤ t }
    requires last { t ≤ 32 }
    requires position { a < positions_of sweep.now }
    requires fits { (c : ℕ) → c < length masses.old → slice_index masses.old c * factor_of sweep.now t a c < 2 ^ 127 }
    ensures each { (c : ℕ) → c < length masses.old →
        slice_index masses.new c ≡ slice_index masses.old c * factor_of sweep.now t a c }
{
    match sweep.own_part(a) {
        Some(part) => weaken_own(masses, sweep.denominator(), a, part),
        None => weaken_by_row(masses, sweep, t, a),
    }
}

/// Adds what a row sends on of a mass.
pub fn spread(next: &mut [u128], row: &[DriftPart], mass: u128)
    requires entries { All (λ entry. entry.cell < length next.old) row.now }
    requires fits { (d : ℕ) → d < length next.old → slice_index next.old d + mass * part_in row.now d < 2 ^ 127 }
    ensures each { (d : ℕ) → d < length next.old →
        slice_index next.new d ≡ slice_index next.old d + mass * part_in row.now d }
{
    for entry in row {
        next[entry.cell as usize] += mass * u128::from(entry.part);
    }
}

/// Writes zeros.
pub fn clear(masses: &mut [u128])
    ensures { (c : ℕ) → c < length masses.old → slice_index masses.new c ≡ 0 }
{
    masses.fill(0);
}

// The first cell from `from` on that has a mass, or the number of cells, where none has.
fn next_mass(masses: &[u128], from: usize) -> usize
    requires { from ≤ length masses.now }
    ensures order { from ≤ result }
    ensures inside { result ≤ length masses.now }
    ensures none { (c : ℕ) → from ≤ c → c < result → slice_index masses.now c ≡ 0 }
{
    for c in from..masses.len() {
        if masses[c] > 0 {
            return c;
        }
    }
    masses.len()
}

/// Writes into `next` what the drift makes of the masses in the step after period `t`. No row is looked for where there is no
/// mass.
pub fn move_on(next: &mut [u128], masses: &[u128], drift: &Drift, t: u32)
    requires cells { length next.old ≡ length masses.now }
    requires rows { length masses.now ≡ drift_cells drift.now }
    requires first { 1 ≤ t }
    requires last { t ≤ 31 }
    requires fits { (d : ℕ) → d < length masses.now → sum_by (λ c.
        slice_index masses.now c * part_of drift.now t c d) (range_with_len 0 (length masses.now)) < 2 ^ 127 }
    ensures each { (d : ℕ) → d < length masses.now → slice_index next.new d ≡ sum_by (λ c.
        slice_index masses.now c * part_of drift.now t c d) (range_with_len 0 (length masses.now)) }
{
    let _cells = drift.cells();
    clear(next);
    let mut c = next_mass(masses, 0);
    while c < masses.len() {
        spread(next, drift.row(t, c as u8), masses[c]);
        c = next_mass(masses, c + 1);
    }
}

/// Writes into `left` what is left of masses without a look: each times the denominator, less what the look took of it.
pub fn leave(left: &mut [u128], masses: &[u128], whole: u32, taken: &[u128])
    requires width { length left.old ≡ length masses.now }
    requires taken { length taken.now ≡ length masses.now }
    requires fits { (c : ℕ) → c < length masses.now → slice_index masses.now c * whole < 2 ^ 127 }
    requires part { (c : ℕ) → c < length masses.now → slice_index taken.now c ≤ slice_index masses.now c * whole }
    ensures each { (c : ℕ) → c < length masses.now →
        slice_index left.new c ≡ slice_index masses.now c * whole - slice_index taken.now c }
{
    let whole = u128::from(whole);
    for c in 0..masses.len() {
        left[c] = masses[c] * whole - taken[c];
    }
}

// Writes into `scaled` the masses, each times the denominator.
fn scale(scaled: &mut [u128], masses: &[u128], whole: u32)
    requires width { length scaled.old ≡ length masses.now }
    requires fits { (c : ℕ) → c < length masses.now → slice_index masses.now c * whole < 2 ^ 127 }
    ensures each { (c : ℕ) → c < length masses.now → slice_index scaled.new c ≡ slice_index masses.now c * whole }
{
    let whole = u128::from(whole);
    for c in 0..masses.len() {
        scaled[c] = masses[c] * whole;
    }
}

// Takes off masses, cell by cell, a number of units of which entries have so much.
fn take_off(masses: &mut [u128], units: u128, entries: &[UnitPart])
    requires cells { All (λ entry. entry.cell < length masses.old) entries.now }
    requires part { (c : ℕ) → c < length masses.old → units * held_in entries.now c ≤ slice_index masses.old c }
    requires fits { (c : ℕ) → c < length masses.old → slice_index masses.old c < 2 ^ 127 }
    ensures each { (c : ℕ) → c < length masses.old →
        slice_index masses.new c ≡ slice_index masses.old c - units * held_in entries.now c }
{
    for entry in entries {
        masses[usize::from(entry.cell)] -= units * entry.part;
    }
}

/// Writes into `left` what is left of masses without a look: each times the denominator, less what the look took of it, so
/// many units, which are where entries have them.
pub fn leave_units(
    left: &mut [u128],
    masses: &[u128],
    whole: u32,
    units: u128,
    entries: &[UnitPart],
)
    requires width { length left.old ≡ length masses.now }
    requires cells { All (λ entry. entry.cell < length masses.now) entries.now }
    requires fits { (c : ℕ) → c < length masses.now → slice_index masses.now c * whole < 2 ^ 127 }
    requires part { (c : ℕ) → c < length masses.now → units * held_in entries.now c ≤ slice_index masses.now c * whole }
    ensures each { (c : ℕ) → c < length masses.now →
        slice_index left.new c ≡ slice_index masses.now c * whole - units * held_in entries.now c }
{
    scale(left, masses, whole);
    take_off(left, units, entries);
}
