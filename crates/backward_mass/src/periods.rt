//! The steps of the backward pass, over a flat table of masses: period after period, and in each cell after cell.

ghost use Rattle.std.specs.Prelude.{◌≡◌, ◌+◌, ◌-◌, ◌*◌, ◌<◌, ◌≤◌, ℕ, List, length, slice_index};
ghost use Rattle.sweep_table.specs.LookParts.{factor_of};
ghost use Rattle.search_model.specs.Legal.{IsPath};
ghost use Rattle.backward_mass.specs.Masses.{backward_of};
ghost use Rattle.backward_mass.specs.Table.{IsRow, IsMissedRow, AreRowsFrom};

use search_model::Scenario;

// How much of a target in cell `d` the look after period `t` misses, out of the denominator.
fn next_factor(sc: &Scenario, looks: &[u8], t: u32, d: u8) -> u32
    requires path { IsPath sc.now looks.now }
    requires more { t < sc.now.horizon }
    requires cell { d < sc.now.cells }
    ensures { result ≡ factor_of sc.now.sweep (t + 1) (slice_index looks.now t) d }
{
    sc.sweep().factor(t + 1, looks[t as usize], d)
}

// Writes into `missed` what the look after period `t` misses of each mass of the next period, which stand from `next` on.
fn weigh(missed: &mut [u128], sc: &Scenario, looks: &[u8], masses: &[u128], next: usize, t: u32)
    requires path { IsPath sc.now looks.now }
    requires first { 1 ≤ t }
    requires more { t < sc.now.horizon }
    requires size { length missed.old ≡ sc.now.cells }
    requires room { next + sc.now.cells ≤ length masses.now }
    requires next { IsRow sc.now looks.now (t + 1) masses.now next }
    ensures size { length missed.new ≡ sc.now.cells }
    ensures missed { IsMissedRow sc.now looks.now t missed.new }
{
    for d in 0..sc.cells() {
        let factor = next_factor(sc, looks, t, d);
        let after = masses[next + usize::from(d)];
        missed[usize::from(d)] = u128::from(factor) * after;
    }
}

// The mass of cell `c` in period `t`, by what the look after it misses of the masses of the next period.
fn mass_before(sc: &Scenario, missed: &[u128], t: u32, c: u8) -> u128
    requires missed { (q : List ℕ) × IsPath sc.now q × IsMissedRow sc.now q t missed.now }
    requires size { length missed.now ≡ sc.now.cells }
    requires first { 1 ≤ t }
    requires more { t < sc.now.horizon }
    requires cell { c < sc.now.cells }
    ensures { (q : List ℕ) → IsPath sc.now q → IsMissedRow sc.now q t missed.now → result ≡ backward_of sc.now q t c }
{
    let mut sum = 0;
    for entry in sc.drift().row(t, c) {
        sum += u128::from(entry.part) * missed[usize::from(entry.cell)];
    }
    sum
}

// Writes the masses of period `t` from `here` on, where those of the next period stand right behind them.
fn fill_period(
    masses: &mut [u128],
    missed: &mut [u128],
    sc: &Scenario,
    looks: &[u8],
    here: usize,
    t: u32,
)
    requires path { IsPath sc.now looks.now }
    requires first { 1 ≤ t }
    requires more { t < sc.now.horizon }
    requires size { length missed.old ≡ sc.now.cells }
    requires room { here + sc.now.cells + sc.now.cells ≤ length masses.old }
    requires next { IsRow sc.now looks.now (t + 1) masses.old (here + sc.now.cells) }
    ensures size { length masses.new ≡ length masses.old }
    ensures spare { length missed.new ≡ sc.now.cells }
    ensures here { IsRow sc.now looks.now t masses.new here }
    ensures later { (i : ℕ) → here + sc.now.cells ≤ i → slice_index masses.new i ≡ slice_index masses.old i }
{
    weigh(missed, sc, looks, masses, here + usize::from(sc.cells()), t);
    for c in 0..sc.cells() {
        masses[here + usize::from(c)] = mass_before(sc, missed, t, c);
    }
}

// Writes the masses of the last period, of so many cells, from `here` on: one each, since nothing follows.
fn fill_last(masses: &mut [u128], here: usize, cells: u8)
    requires { here + cells ≤ length masses.old }
    ensures size { length masses.new ≡ length masses.old }
    ensures ones { (c : ℕ) → c < cells → slice_index masses.new (here + c) ≡ 1 }
{
    for c in 0..cells {
        masses[here + usize::from(c)] = 1;
    }
}

/// Writes the masses of the periods from the last one back to `from`.
pub(crate) fn fill_periods(
    masses: &mut [u128],
    missed: &mut [u128],
    sc: &Scenario,
    looks: &[u8],
    from: u32,
)
    requires path { IsPath sc.now looks.now }
    requires size { length masses.old ≡ sc.now.horizon * sc.now.cells }
    requires spare { length missed.old ≡ sc.now.cells }
    requires first { 1 ≤ from }
    requires last { from ≤ sc.now.horizon }
    ensures size { length masses.new ≡ length masses.old }
    ensures spare { length missed.new ≡ sc.now.cells }
    ensures rows { AreRowsFrom sc.now looks.now from masses.new }
{
    let cells = usize::from(sc.cells());
    fill_last(masses, (sc.horizon() as usize - 1) * cells, sc.cells());
    for t in (from..sc.horizon()).rev() {
        fill_period(masses, missed, sc, looks, (t as usize - 1) * cells, t);
    }
}
