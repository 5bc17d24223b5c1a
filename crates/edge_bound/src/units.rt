//! What looks find of units of mass, each of which was in one cell a period before.

ghost use Rattle.std.specs.Prelude.{◌≡◌, ◌<◌, ◌≤◌, ◌+◌, ◌-◌, ◌*◌, ◌^◌, ℕ, length, drop, slice_index, IsTrue, IfOk};
ghost use Rattle.drift_chain.specs.DriftRows.{part_of};
ghost use Rattle.sweep_table.specs.LookParts.{look_row, factor_of};
ghost use Rattle.belief_update.specs.Found.{found_of};
ghost use Rattle.edge_bound.specs.Found.{one_of};
ghost use Rattle.belief_update.specs.Flows.{IsOwn};
ghost use Rattle.edge_bound.specs.Units.{HasBlock, HasBlocks, IsSteady};

use crate::moves::look_from;
use belief_update::{found, has_first_steps, spread};
use exact_parts::NoMemory;
use search_model::Scenario;
use std::alloc::Global;
use std::marker::Model;

/// Per period from the second on, cell and position, what a look from the position finds of a unit that was in the cell a
/// period before.
#[derive(Drop)]
pub struct Units {
    /// The number of positions.
    pub positions: usize,
    /// How far the numbers of a period are from those of the period before: 0 where one block of them serves all periods.
    pub step: usize,
    /// The numbers, a row of positions for each cell.
    pub units: Vec<u64>,
}

impl Model for Units {
    ghost use Rattle.edge_bound.specs.Units.{UnitTable};

    ghost Value = { UnitTable };

    ghost view = { λ u. record { positions = u.positions; step = u.step; units = u.units.items } };
}

// Whether a look from `b` covers in period `t` what it does in period 2.
fn is_same_look(sc: &Scenario, t: u32, b: u8) -> bool
    requires first { 2 ≤ t }
    requires last { t ≤ sc.now.horizon }
    requires position { b < sc.now.positions }
    ensures { IsTrue result → look_row sc.now.sweep t b ≡ look_row sc.now.sweep 2 b }
{
    let here = look_from(sc, t, b);
    let second = look_from(sc, 2, b);
    here.parts() == second.parts()
}

// Whether each look of period `t` is that of period 2.
fn has_second_looks(sc: &Scenario, t: u32) -> bool
    requires first { 2 ≤ t }
    requires last { t ≤ sc.now.horizon }
    ensures { IsTrue result → (b : ℕ) → b < sc.now.positions → look_row sc.now.sweep t b ≡ look_row sc.now.sweep 2 b }
{
    for b in 0..sc.positions() {
        if !is_same_look(sc, t, b) {
            return false;
        }
    }
    true
}

/// Whether all steps of the drift are as the first one, and all looks after a step as after the first one.
pub fn is_steady(sc: &Scenario) -> bool
    ensures { IsTrue result → IsSteady sc.now }
{
    if !sc.drift().may_change() && !sc.sweep().may_change() {
        return true;
    }
    for t in 1..sc.horizon() {
        if !has_first_steps(sc, t) || !has_second_looks(sc, t + 1) {
            return false;
        }
    }
    true
}

// Whether looks from `b` cover the cell of its number alone.
fn is_own(sc: &Scenario, b: u8) -> bool
    requires { b < sc.now.positions }
    ensures { IsTrue result → IsOwn sc.now b }
{
    match sc.sweep().own_part(b) {
        Some(_) => true,
        None => false,
    }
}

/// Whether looks from each position cover the cell of its number alone.
pub fn has_own_looks(sc: &Scenario) -> bool
    ensures { IsTrue result → (b : ℕ) → b < sc.now.positions → IsOwn sc.now b }
{
    for b in 0..sc.positions() {
        if !is_own(sc, b) {
            return false;
        }
    }
    true
}

// How much of a target in its own cell a look from `b` finds, where it covers that cell alone.
fn left_own(sc: &Scenario, t: u32, b: u8) -> u32
    requires own { IsOwn sc.now b }
    requires first { 1 ≤ t }
    requires last { t ≤ sc.now.horizon }
    requires position { b < sc.now.positions }
    ensures { result ≡ sc.now.sweep.denominator - factor_of sc.now.sweep t b b }
{
    sc.recall_sound();
    sc.sweep().denominator() - sc.sweep().factor(t, b, b)
}

// Writes what comes to each cell in period `t` of a unit that was in cell `c` a period before, in parts of a drift.
fn go_once(gone: &mut [u128], sc: &Scenario, t: u32, c: u8)
    requires first { 2 ≤ t }
    requires last { t ≤ sc.now.horizon }
    requires from { c < sc.now.cells }
    requires room { length gone.old ≡ sc.now.cells }
    ensures each { (d : ℕ) → d < sc.now.cells → slice_index gone.new d ≡ part_of sc.now.drift (t - 1) c d }
    ensures room { length gone.new ≡ length gone.old }
{
    gone.fill(0);
    spread(gone, sc.drift().row(t - 1, c), 1);
}

/// Writes what a look from each position in period `t` finds of masses, from `here` on.
pub fn fill_found(numbers: &mut [u64], sc: &Scenario, masses: &[u128], here: usize, t: u32)
    requires first { 1 ≤ t }
    requires last { t ≤ sc.now.horizon }
    requires cells { length masses.now ≡ sc.now.cells }
    requires fits { (b : ℕ) → b < sc.now.positions → found_of sc.now t b (slice_index masses.now) < 2 ^ 64 }
    requires room { here + sc.now.positions ≤ length numbers.old }
    ensures size { length numbers.new ≡ length numbers.old }
    ensures each { (b : ℕ) → b < sc.now.positions →
        slice_index numbers.new (here + b) ≡ found_of sc.now t b (slice_index masses.now) }
    ensures earlier { (i : ℕ) → i < here → slice_index numbers.new i ≡ slice_index numbers.old i }
{
    for b in 0..sc.positions() {
        numbers[here + usize::from(b)] = found(sc, t, masses, b) as u64;
    }
}

// Writes the numbers of one cell in a period, position by position, from `here` on; `gone` is room for a row of cells.
fn fill_cell_by_looks(
    units: &mut [u64],
    gone: &mut [u128],
    sc: &Scenario,
    here: usize,
    t: u32,
    c: u8,
)
    requires first { 2 ≤ t }
    requires last { t ≤ sc.now.horizon }
    requires cell { c < sc.now.cells }
    requires room { here + sc.now.positions ≤ length units.old }
    requires gone { length gone.old ≡ sc.now.cells }
    ensures size { length units.new ≡ length units.old }
    ensures each { (b : ℕ) → b < sc.now.positions → slice_index units.new (here + b) ≡ one_of sc.now t c b }
    ensures earlier { (i : ℕ) → i < here → slice_index units.new i ≡ slice_index units.old i }
    ensures gone { length gone.new ≡ length gone.old }
{
    sc.recall_sound();
    go_once(gone, sc, t, c);
    fill_found(units, sc, gone, here, t);
}

// Writes zeros for all positions from `here` on.
fn clear_cell(units: &mut [u64], sc: &Scenario, here: usize)
    requires room { here + sc.now.positions ≤ length units.old }
    ensures size { length units.new ≡ length units.old }
    ensures each { (b : ℕ) → b < sc.now.positions → slice_index units.new (here + b) ≡ 0 }
    ensures earlier { (i : ℕ) → i < here → slice_index units.new i ≡ slice_index units.old i }
{
    for b in 0..usize::from(sc.positions()) {
        units[here + b] = 0;
    }
}

// Adds to the numbers of one cell what the entries of its row give, where all looks cover their own cells alone.
fn add_entries(units: &mut [u64], sc: &Scenario, here: usize, t: u32, c: u8)
    requires own { (b : ℕ) → b < sc.now.positions → IsOwn sc.now b }
    requires first { 2 ≤ t }
    requires last { t ≤ sc.now.horizon }
    requires cell { c < sc.now.cells }
    requires room { here + sc.now.positions ≤ length units.old }
    requires zeros { (b : ℕ) → b < sc.now.positions → slice_index units.old (here + b) ≡ 0 }
    ensures size { length units.new ≡ length units.old }
    ensures each { (b : ℕ) → b < sc.now.positions → slice_index units.new (here + b) ≡ one_of sc.now t c b }
    ensures earlier { (i : ℕ) → i < here → slice_index units.new i ≡ slice_index units.old i }
{
    let row = sc.drift().row(t - 1, c);
    for entry in row {
        if entry.cell < sc.positions() {
            let left = left_own(sc, t, entry.cell);
            units[here + usize::from(entry.cell)] += u64::from(entry.part) * u64::from(left);
        }
    }
}

// Writes the numbers of one cell in a period, from `here` on, where all looks cover their own cells alone: those of the
// entries of its row, and zeros.
fn fill_cell_by_entries(units: &mut [u64], sc: &Scenario, here: usize, t: u32, c: u8)
    requires own { (b : ℕ) → b < sc.now.positions → IsOwn sc.now b }
    requires first { 2 ≤ t }
    requires last { t ≤ sc.now.horizon }
    requires cell { c < sc.now.cells }
    requires room { here + sc.now.positions ≤ length units.old }
    ensures size { length units.new ≡ length units.old }
    ensures each { (b : ℕ) → b < sc.now.positions → slice_index units.new (here + b) ≡ one_of sc.now t c b }
    ensures earlier { (i : ℕ) → i < here → slice_index units.new i ≡ slice_index units.old i }
{
    clear_cell(units, sc, here);
    add_entries(units, sc, here, t, c);
}

// Writes the numbers of one cell in a period from `here` on; `own` may say that all looks cover their own cells alone, and `gone`
// is room for a row of cells.
fn fill_cell(
    units: &mut [u64],
    gone: &mut [u128],
    sc: &Scenario,
    own: bool,
    here: usize,
    t: u32,
    c: u8,
)
    requires own { IsTrue own → (b : ℕ) → b < sc.now.positions → IsOwn sc.now b }
    requires first { 2 ≤ t }
    requires last { t ≤ sc.now.horizon }
    requires cell { c < sc.now.cells }
    requires room { here + sc.now.positions ≤ length units.old }
    requires gone { length gone.old ≡ sc.now.cells }
    ensures size { length units.new ≡ length units.old }
    ensures each { (b : ℕ) → b < sc.now.positions → slice_index units.new (here + b) ≡ one_of sc.now t c b }
    ensures earlier { (i : ℕ) → i < here → slice_index units.new i ≡ slice_index units.old i }
    ensures gone { length gone.new ≡ length gone.old }
{
    if own {
        fill_cell_by_entries(units, sc, here, t, c)
    } else {
        fill_cell_by_looks(units, gone, sc, here, t, c)
    }
}

// Writes the numbers of a period, cell by cell, from `here` on.
fn fill_block(units: &mut [u64], gone: &mut [u128], sc: &Scenario, here: usize, t: u32)
    requires first { 2 ≤ t }
    requires last { t ≤ sc.now.horizon }
    requires room { here + sc.now.cells * sc.now.positions ≤ length units.old }
    requires gone { length gone.old ≡ sc.now.cells }
    ensures size { length units.new ≡ length units.old }
    ensures block { HasBlock sc.now t units.new here }
    ensures earlier { (i : ℕ) → i < here → slice_index units.new i ≡ slice_index units.old i }
    ensures gone { length gone.new ≡ length gone.old }
{
    let positions = usize::from(sc.positions());
    let own = has_own_looks(sc);
    for c in 0..sc.cells() {
        fill_cell(
            units,
            gone,
            sc,
            own,
            here + usize::from(c) * positions,
            t,
            c,
        );
    }
}

// Writes the numbers of so many periods from the second on.
fn fill_blocks(units: &mut [u64], gone: &mut [u128], sc: &Scenario, periods: u32)
    requires last { periods < sc.now.horizon }
    requires room { length units.old ≡ periods * (sc.now.cells * sc.now.positions) }
    requires gone { length gone.old ≡ sc.now.cells }
    ensures { HasBlocks sc.now periods units.new }
{
    let block = usize::from(sc.cells()) * usize::from(sc.positions());
    for n in 0..periods {
        fill_block(units, gone, sc, n as usize * block, n + 2);
    }
}

// The numbers of so many periods from the second on.
fn blocks_of(alloc: Global, sc: &Scenario, periods: u32) -> Result<Vec<u64>, NoMemory>
    requires { periods < sc.now.horizon }
    ensures { IfOk result (λ units. HasBlocks sc.now periods units.items) }
{
    let block = usize::from(sc.cells()) * usize::from(sc.positions());
    let mut gone = vec![in alloc; 0; usize::from(sc.cells())]?;
    let mut units = vec![in alloc; 0; periods as usize * block]?;
    fill_blocks(&mut units, &mut gone, sc, periods);
    Ok(units)
}

impl Units {
    ghost use Rattle.edge_bound.specs.Units.{place_of, unit_at, HasUnits};

    /// The table of a scenario: with one block of numbers where no later period differs, else with one a period.
    pub fn tables(alloc: Global, sc: &Scenario) -> Result<Units, NoMemory>
        ensures { IfOk result (HasUnits sc.now) }
    {
        if is_steady(sc) {
            Units::steady(alloc, sc)
        } else {
            Units::by_period(alloc, sc)
        }
    }

    // The table whose one block serves all periods.
    fn steady(alloc: Global, sc: &Scenario) -> Result<Units, NoMemory>
        requires { IsSteady sc.now }
        ensures { IfOk result (HasUnits sc.now) }
    {
        Ok(Units {
            positions: usize::from(sc.positions()),
            step: 0,
            units: blocks_of(alloc, sc, (sc.horizon() - 1).min(1))?,
        })
    }

    // The table with a block for each period.
    fn by_period(alloc: Global, sc: &Scenario) -> Result<Units, NoMemory>
        ensures { IfOk result (HasUnits sc.now) }
    {
        Ok(Units {
            positions: usize::from(sc.positions()),
            step: usize::from(sc.cells()) * usize::from(sc.positions()),
            units: blocks_of(alloc, sc, sc.horizon() - 1)?,
        })
    }

    /// What a look from `b` in period `t` finds of a unit that was in cell `c` a period before.
    pub fn unit(&self, t: u32, c: u8, b: u8) -> u64
        requires first { 2 ≤ t }
        requires inside { place_of self.now t c b < length self.now.units }
        ensures { result ≡ unit_at self.now t c b }
    {
        self.units[(t as usize - 2) * self.step + usize::from(c) * self.positions + usize::from(b)]
    }

    /// Where the numbers of cell `c` in period `t` begin.
    pub fn place(&self, t: u32, c: u8) -> usize
        requires first { 2 ≤ t }
        requires inside { place_of self.now t c 0 < length self.now.units }
        ensures { result ≡ place_of self.now t c 0 }
    {
        (t as usize - 2) * self.step + usize::from(c) * self.positions
    }

    /// The numbers from a place on.
    pub fn from(&self, place: usize) -> &[u64]
        requires { place ≤ length self.now.units }
        ensures { result.now ≡ drop place self.now.units }
    {
        &self.units[place..]
    }

    /// The number of position `b`, where those of its cell and period begin at a place.
    pub fn at(&self, place: usize, b: u8) -> u64
        requires { place + b < length self.now.units }
        ensures { result ≡ slice_index self.now.units (place + b) }
    {
        self.units[place + usize::from(b)]
    }
}
