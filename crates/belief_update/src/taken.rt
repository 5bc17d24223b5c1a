//! What looks take of masses.

ghost use Rattle.std.specs.Prelude.{◌≡◌, ◌<◌, ◌≤◌, ◌+◌, ◌-◌, ◌*◌, ◌^◌, ◌++◌, ◌∷◌, [], ℕ, List, length, slice_index, sum, IfOk};
ghost use Rattle.sweep_table.specs.LookParts.{factor_in, factor_of, misses, IsLookRow};
ghost use Rattle.search_model.specs.Tracks.{value_of};
ghost use Rattle.belief_update.specs.Masses.{mass_of, looks_to};
ghost use Rattle.belief_update.specs.Belief.{IsReached};
ghost use Rattle.belief_update.specs.Trails.{IsAhead, IsAheadOfSome};
ghost use Rattle.belief_update.specs.Taken.{IsTaken, IsTakenBySome, IsBeside, IsBesideSome, IsReady, IsReadySome};

use crate::belief::Belief;
use crate::steps;
use crate::values::later_parts;
use exact_parts::NoMemory;
use search_model::Scenario;
use std::alloc::Global;
use std::marker::Model;
use sweep_table::Look;

/// What looks take of the masses of a prefix: what the first of them finds, which drifts on, and what each later one finds
/// beside it. The masses with the looks are those without them, times the denominator for each look, less what was taken.
#[derive(Drop)]
pub struct Taken {
    period: u32,
    // The denominator, for each look.
    scale: u128,
    masses: Vec<u128>,
    next: Vec<u128>,
}

impl Model for Taken {
    ghost use Rattle.std.specs.Prelude.{◌≡◌, length};
    ghost use Rattle.belief_update.specs.Taken.{TakenState};

    ghost Value = { TakenState };

    ghost view = { λ s. record { period = s.period; scale = s.scale; masses = s.masses.items } };

    ghost invariant = { λ s. length s.next.items ≡ length s.masses.items };
}

// The cells that a look from position `a` in period `t` covers, with the parts that it misses.
fn look_from(sc: &Scenario, t: u32, a: u8) -> Look<'_>
    requires first { 1 ≤ t }
    requires last { t ≤ sc.now.horizon }
    requires position { a < sc.now.positions }
    ensures row { IsLookRow sc.now.sweep.denominator sc.now.cells result }
    ensures factors { (c : ℕ) → factor_in sc.now.sweep.denominator result c ≡ factor_of sc.now.sweep t a c }
{
    sc.sweep().look(t, a)
}

// Writes into `found` what a look from position `a` finds in the period of a belief, entry by entry of its row.
#[inline(never)]
fn find_by_row(found: &mut [u128], sc: &Scenario, ahead: &Belief, a: u8)
    requires width { length found.old ≡ sc.now.cells }
    requires ahead { IsAheadOfSome sc.now ahead.now }
    requires position { a < sc.now.positions }
    ensures each { (c : ℕ) → c < sc.now.cells → slice_index found.new c ≡
        slice_index ahead.now.masses c * (sc.now.sweep.denominator - factor_of sc.now.sweep ahead.now.period a c) }
{
    sc.recall_sound();
    steps::clear(found);
    let whole = sc.sweep().denominator();
    let look = look_from(sc, ahead.period(), a);
    for entry in look.parts() {
        found[usize::from(entry.cell)] = ahead.at(entry.cell) * u128::from(whole - entry.part);
    }
}

// The same where the look covers cell `a` alone, and misses a part of the whole there.
fn find_own(found: &mut [u128], sc: &Scenario, ahead: &Belief, a: u8, part: u32)
    requires width { length found.old ≡ sc.now.cells }
    requires ahead { IsAheadOfSome sc.now ahead.now }
    requires cell { a < sc.now.cells }
    requires part { part ≤ sc.now.sweep.denominator }
    ensures each { (c : ℕ) → c < sc.now.cells → slice_index found.new c ≡
        slice_index ahead.now.masses c * (sc.now.sweep.denominator - factor_in sc.now.sweep.denominator (misses a part ∷ []) c) }
{
    steps::clear(found);
    found[usize::from(a)] = ahead.at(a) * u128::from(sc.sweep().denominator() - part);
}

// Writes into `found` what a look from position `a` finds in the period of a belief.
fn find(found: &mut [u128], sc: &Scenario, ahead: &Belief, a: u8)
    requires width { length found.old ≡ sc.now.cells }
    requires ahead { IsAheadOfSome sc.now ahead.now }
    requires position { a < sc.now.positions }
    ensures each { (c : ℕ) → c < sc.now.cells → slice_index found.new c ≡
        slice_index ahead.now.masses c * (sc.now.sweep.denominator - factor_of sc.now.sweep ahead.now.period a c) }
{
    match sc.sweep().own_part(a) {
        Some(part) => find_own(found, sc, ahead, a, part),
        None => find_by_row(found, sc, ahead, a),
    }
}

// Adds to `taken` what a look from position `a` finds in the period of a belief, entry by entry of its row, where masses
// are scaled.
#[inline(never)]
fn add_by_row(taken: &mut [u128], sc: &Scenario, belief: &Belief, scale: u128, a: u8)
    requires width { length taken.old ≡ sc.now.cells }
    requires belief { IsReached sc.now belief.now }
    requires position { a < sc.now.positions }
    requires found { (c : ℕ) → c < sc.now.cells →
        slice_index belief.now.masses c * scale * sc.now.sweep.denominator < 2 ^ 127 }
    requires fits { (c : ℕ) → c < sc.now.cells → slice_index taken.old c + slice_index belief.now.masses c * scale
        * (sc.now.sweep.denominator - factor_of sc.now.sweep belief.now.period a c) < 2 ^ 127 }
    ensures each { (c : ℕ) → c < sc.now.cells → slice_index taken.new c ≡ slice_index taken.old c
        + slice_index belief.now.masses c * scale
        * (sc.now.sweep.denominator - factor_of sc.now.sweep belief.now.period a c) }
{
    sc.recall_sound();
    let whole = sc.sweep().denominator();
    let look = look_from(sc, belief.period(), a);
    for entry in look.parts() {
        let found = u128::from(whole - entry.part);
        taken[usize::from(entry.cell)] += belief.at(entry.cell) * scale * found;
    }
}

// The same where the look covers cell `a` alone, and misses a part of the whole there.
fn add_own(taken: &mut [u128], sc: &Scenario, belief: &Belief, scale: u128, a: u8, part: u32)
    requires width { length taken.old ≡ sc.now.cells }
    requires belief { IsReached sc.now belief.now }
    requires cell { a < sc.now.cells }
    requires part { part ≤ sc.now.sweep.denominator }
    requires found { slice_index belief.now.masses a * scale * sc.now.sweep.denominator < 2 ^ 127 }
    requires fits { slice_index taken.old a + slice_index belief.now.masses a * scale
        * (sc.now.sweep.denominator - part) < 2 ^ 127 }
    ensures each { (c : ℕ) → c < sc.now.cells → slice_index taken.new c ≡ slice_index taken.old c
        + slice_index belief.now.masses c * scale
        * (sc.now.sweep.denominator - factor_in sc.now.sweep.denominator (misses a part ∷ []) c) }
{
    let found = u128::from(sc.sweep().denominator() - part);
    taken[usize::from(a)] += belief.at(a) * scale * found;
}

// Adds to `taken` what a look from position `a` finds in the period of a belief, where masses are scaled.
fn add_found(taken: &mut [u128], sc: &Scenario, belief: &Belief, scale: u128, a: u8)
    requires width { length taken.old ≡ sc.now.cells }
    requires belief { IsReached sc.now belief.now }
    requires position { a < sc.now.positions }
    requires found { (c : ℕ) → c < sc.now.cells →
        slice_index belief.now.masses c * scale * sc.now.sweep.denominator < 2 ^ 127 }
    requires fits { (c : ℕ) → c < sc.now.cells → slice_index taken.old c + slice_index belief.now.masses c * scale
        * (sc.now.sweep.denominator - factor_of sc.now.sweep belief.now.period a c) < 2 ^ 127 }
    ensures each { (c : ℕ) → c < sc.now.cells → slice_index taken.new c ≡ slice_index taken.old c
        + slice_index belief.now.masses c * scale
        * (sc.now.sweep.denominator - factor_of sc.now.sweep belief.now.period a c) }
{
    match sc.sweep().own_part(a) {
        Some(part) => add_own(taken, sc, belief, scale, a, part),
        None => add_by_row(taken, sc, belief, scale, a),
    }
}

// What is taken in all cells.
fn total(masses: &[u128]) -> u128
    requires { sum masses.now < 2 ^ 128 }
    ensures { result ≡ sum masses.now }
{
    masses.iter().sum()
}

impl Taken {
    /// Room for a scenario. Only this call takes memory.
    pub fn tables(alloc: Global, sc: &Scenario) -> Result<Taken, NoMemory>
        ensures { IfOk result (λ s. length s.masses ≡ sc.now.cells) }
    {
        let cells = usize::from(sc.cells());
        Ok(Taken {
            period: 1,
            scale: 1,
            masses: vec![in alloc; 0; cells]?,
            next: vec![in alloc; 0; cells]?,
        })
    }

    /// Becomes what a look from a position takes of the belief ahead of it.
    pub fn start(&mut self, sc: &Scenario, ahead: &Belief, a: u8)
        requires cells { length self.old.masses ≡ sc.now.cells }
        requires ahead { IsAheadOfSome sc.now ahead.now }
        requires position { a < sc.now.positions }
        ensures taken { (q : List ℕ) → IsAhead sc.now q ahead.now → IsTaken sc.now q (q ++ a ∷ []) self.new }
        ensures period { self.new.period ≡ ahead.now.period }
    {
        sc.recall_sound();
        find(&mut self.masses, sc, ahead, a);
        self.period = ahead.period();
        self.scale = u128::from(sc.sweep().denominator());
    }

    /// Drifts on to the next period.
    pub fn drift(&mut self, sc: &Scenario)
        requires taken { IsTakenBySome sc.now self.old }
        requires more { self.old.period < sc.now.horizon }
        ensures taken { (q r : List ℕ) → IsTaken sc.now q r self.old → IsTaken sc.now q r self.new }
        ensures period { self.new.period ≡ self.old.period + 1 }
    {
        steps::move_on(&mut self.next, &self.masses, sc.drift(), self.period);
        std::mem::swap(&mut self.masses, &mut self.next);
        self.period += 1;
    }

    /// Takes what one look more finds, from a position and in the period that it is in, by the belief without the looks.
    pub fn look(&mut self, sc: &Scenario, without: &Belief, a: u8)
        requires ready { IsReadySome sc.now without.now self.old }
        requires position { a < sc.now.positions }
        ensures taken { (q r : List ℕ) → IsReady sc.now q r without.now self.old →
            IsTaken sc.now q (r ++ a ∷ []) self.new }
        ensures period { self.new.period ≡ self.old.period }
    {
        sc.recall_sound();
        steps::weaken(&mut self.masses, sc.sweep(), self.period, a);
        add_found(&mut self.masses, sc, without, self.scale, a);
        self.scale *= u128::from(sc.sweep().denominator());
    }

    /// What is taken in each cell.
    pub fn masses(&self) -> &[u128]
        ensures { result.now ≡ self.now.masses }
    {
        &self.masses
    }

    /// The mass of a cell with the looks, by the belief without them.
    pub fn mass(&self, sc: &Scenario, without: &Belief, c: u8) -> u128
        requires beside { IsBesideSome sc.now without.now self.now }
        requires cell { c < sc.now.cells }
        ensures { (q r : List ℕ) → IsBeside sc.now q r without.now self.now →
            result ≡ mass_of sc.now (looks_to self.now.period r) c }
    {
        sc.recall_sound();
        let taken = self.masses();
        without.at(c) * self.scale - taken[c as usize]
    }

    /// Writes the masses of all cells with the looks, by the belief without them.
    pub fn leave(&self, sc: &Scenario, without: &Belief, left: &mut [u128])
        requires width { length left.old ≡ sc.now.cells }
        requires beside { IsBesideSome sc.now without.now self.now }
        ensures { (q r : List ℕ) → IsBeside sc.now q r without.now self.now → (c : ℕ) → c < sc.now.cells →
            slice_index left.new c ≡ mass_of sc.now (looks_to self.now.period r) c }
    {
        for c in 0..sc.cells() {
            left[usize::from(c)] = self.mass(sc, without, c);
        }
    }

    /// The value of a prefix with all its looks, in parts of the whole weight, by the value of the prefix without them.
    pub fn value(&self, sc: &Scenario, value: u128, looks: u32) -> u128
        requires taken { (q : List ℕ) × (r : List ℕ) × IsTaken sc.now q r self.now × (value ≡ value_of sc.now q)
            × (length r ≡ looks) }
        ensures { (q r : List ℕ) → IsTaken sc.now q r self.now → value ≡ value_of sc.now q → length r ≡ looks →
            result ≡ value_of sc.now r }
    {
        sc.recall_sound();
        value + total(&self.masses) * later_parts(sc, self.period, looks)
    }
}
