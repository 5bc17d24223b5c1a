//! Beliefs after a prefix, period by period.

ghost use Rattle.std.specs.Prelude.{◌≡◌, ◌<◌, ◌≤◌, ◌+◌, ◌-◌, ◌++◌, ◌∷◌, [], ℕ, List, length, IfOk, IsTrue};
ghost use Rattle.search_model.specs.Legal.{IsLegal};
ghost use Rattle.search_model.specs.Tracks.{value_of};
ghost use Rattle.belief_update.specs.Trails.{IsPast, IsAhead, HaveAllCells, row_at};
ghost use Rattle.belief_update.specs.Onward.{AreOnwardTo, IsOnward, IsOnwardBehind, HaveCellsFrom};
ghost use Rattle.belief_update.specs.Taken.{IsTaken};
ghost use Rattle.belief_update.specs.Flows.{HasStepsFor, IsFlow, IsMadeUp};

use crate::belief::Belief;
use crate::flows::Flow;
use crate::taken::Taken;
use crate::trail::first_beliefs;
use crate::values::{follow, value_by};
use exact_parts::NoMemory;
use search_model::{Path, Scenario};
use std::alloc::Global;
use std::marker::Model;

/// The beliefs of the periods after a prefix, each before the look of its period and with no look after the prefix. The
/// bounds of a prefix are made of their masses.
#[derive(Drop)]
pub struct Onward {
    // The belief that goes on from period to period.
    belief: Belief,
    // Per period, the belief in it. Only those of the periods after the prefix are right.
    rows: Vec<Belief>,
    // The value of the prefix.
    value: u128,
}

impl Model for Onward {
    ghost use Rattle.belief_update.specs.Onward.{OnwardState};

    ghost Value = { OnwardState };

    ghost view = { λ o. record { belief = o.belief; rows = o.rows.items; value = o.value } };
}

// Writes the beliefs of all periods after a prefix, by the belief ahead of its next look, which drifts on without looks.
fn fill_rows(rows: &mut [Belief], belief: &mut Belief, sc: &Scenario, prefix: &Path)
    requires short { length prefix.now < sc.now.horizon }
    requires size { length rows.old ≡ sc.now.horizon }
    requires cells { HaveAllCells sc.now rows.old }
    requires belief { IsAhead sc.now prefix.now belief.old }
    ensures rows { AreOnwardTo sc.now prefix.now sc.now.horizon rows.new }
    ensures cells { HaveAllCells sc.now rows.new }
    ensures belief { length belief.new.masses ≡ sc.now.cells }
{
    rows[prefix.len()].copy_from(belief);
    for t in prefix.len() + 1..rows.len() {
        belief.drift(sc);
        rows[t].copy_from(belief);
    }
}

// The value of a prefix with a look more, from position `a`, by the beliefs after the prefix of `k` positions. What the look
// took stays in `taken`.
fn value_with(sc: &Scenario, before: &Onward, k: usize, a: u8, taken: &mut Taken) -> u128
    requires short { k + 1 < sc.now.horizon }
    requires position { a < sc.now.positions }
    requires room { length taken.old.masses ≡ sc.now.cells }
    requires before { IsOnwardBehind sc.now k before.now }
    ensures value { (q : List ℕ) → length q ≡ k → IsOnward sc.now q before.now → result ≡ value_of sc.now (q ++ a ∷ []) }
    ensures taken { (q : List ℕ) → length q ≡ k → IsOnward sc.now q before.now →
        IsTaken sc.now q (q ++ a ∷ []) taken.new }
    ensures period { taken.new.period ≡ k + 1 }
{
    sc.recall_sound();
    let looks = k as u32 + 1;
    taken.start(sc, before.at(looks), a);
    taken.value(sc, before.value(), looks)
}

// Writes the beliefs of the periods after the first `k + 1` looks, by those after the first `k` and by what look `k` took of
// them from position `a` in its own period.
fn leave_rows(
    rows: &mut [Belief],
    taken: &mut Taken,
    sc: &Scenario,
    before: &Onward,
    k: usize,
    a: u8,
)
    requires short { k + 1 < sc.now.horizon }
    requires position { a < sc.now.positions }
    requires size { length rows.old ≡ sc.now.horizon }
    requires cells { HaveCellsFrom sc.now (k + 1) rows.old }
    requires before { IsOnwardBehind sc.now k before.now }
    requires taken { (q : List ℕ) → length q ≡ k → IsOnward sc.now q before.now →
        IsTaken sc.now q (q ++ a ∷ []) taken.old }
    requires period { taken.old.period ≡ k + 1 }
    ensures rows { (q : List ℕ) → length q ≡ k → IsOnward sc.now q before.now →
        AreOnwardTo sc.now (q ++ a ∷ []) sc.now.horizon rows.new }
    ensures cells { HaveCellsFrom sc.now (k + 1) rows.new }
    ensures room { length taken.new.masses ≡ sc.now.cells }
{
    sc.recall_sound();
    let _position = a;
    for t in k + 1..rows.len() {
        taken.drift(sc);
        rows[t].leave_from(sc, before.at(t as u32 + 1), taken);
    }
}

// Writes the same beliefs where the look took units of cell `a` alone, which go where the cell's flow has them.
fn leave_units(
    rows: &mut [Belief],
    sc: &Scenario,
    before: &Onward,
    k: usize,
    a: u8,
    units: u128,
    flow: &Flow,
)
    requires short { k + 1 < sc.now.horizon }
    requires size { length rows.old ≡ sc.now.horizon }
    requires cells { HaveCellsFrom sc.now (k + 1) rows.old }
    requires before { IsOnwardBehind sc.now k before.now }
    requires flow { IsFlow sc.now a flow.now }
    requires made { HasStepsFor units (sc.now.horizon - 1 - k) flow.now }
    requires taken { (q : List ℕ) → length q ≡ k → IsOnward sc.now q before.now → IsMadeUp sc.now q a units }
    ensures rows { (q : List ℕ) → length q ≡ k → IsOnward sc.now q before.now →
        AreOnwardTo sc.now (q ++ a ∷ []) sc.now.horizon rows.new }
    ensures cells { HaveCellsFrom sc.now (k + 1) rows.new }
{
    sc.recall_sound();
    for t in k + 1..rows.len() {
        rows[t].leave_units(sc, before.at(t as u32 + 1), units, flow.row(units, t - k));
    }
}

// A belief before the first look, where it is asked for.
fn belief_where(alloc: Global, sc: &Scenario, asked: bool) -> Result<Belief, NoMemory>
    ensures { IfOk result (λ b. IsTrue asked → length b.masses ≡ sc.now.cells) }
{
    if asked {
        Belief::start(alloc, sc)
    } else {
        Ok(Belief::none(alloc))
    }
}

// Beliefs of all periods. Those of the first `k` are none.
fn beliefs_behind(alloc: Global, sc: &Scenario, k: u32) -> Result<Vec<Belief>, NoMemory>
    ensures size { IfOk result (λ rows. length rows.items ≡ sc.now.horizon) }
    ensures cells { IfOk result (λ rows. HaveCellsFrom sc.now k rows.items) }
{
    let mut rows = Vec::new(alloc);
    for t in 0..sc.horizon() {
        rows.push(belief_where(alloc, sc, t >= k)?)?;
    }
    Ok(rows)
}

impl Onward {
    ghost use Rattle.search_model.specs.Problem.{Problem};
    ghost use Rattle.belief_update.specs.Onward.{IsMadeFor, IsMadeBehind, IsOnward, IsOnwardBehind};
    ghost use Rattle.belief_update.specs.Flows.{DriftsAlike, IsOwn};

    /// Room for the periods of a scenario. Only this call takes memory.
    pub fn tables(alloc: Global, sc: &Scenario) -> Result<Onward, NoMemory>
        ensures { IfOk result (IsMadeFor sc.now) }
    {
        Ok(Onward {
            belief: Belief::start(alloc, sc)?,
            rows: first_beliefs(alloc, sc, sc.horizon())?,
            value: 0,
        })
    }

    /// Room for the periods of a scenario after the first `k`, for those who make them of the beliefs after a look less. Only
    /// this call takes memory.
    pub(crate) fn behind(alloc: Global, sc: &Scenario, k: u32) -> Result<Onward, NoMemory>
        ensures { IfOk result (IsMadeBehind sc.now k) }
    {
        let rows = beliefs_behind(alloc, sc, k)?;
        Ok(Onward {
            belief: Belief::none(alloc),
            rows,
            value: 0,
        })
    }

    // Goes on through the periods after a prefix, where the belief is after it.
    fn go_on(&mut self, sc: &Scenario, prefix: &Path)
        requires made { IsMadeFor sc.now self.old }
        requires short { length prefix.now < sc.now.horizon }
        requires after { IsPast sc.now prefix.now self.old.belief }
        requires near { self.old.belief.period ≤ length prefix.now + 1 }
        ensures made { IsMadeFor sc.now self.new }
        ensures onward { IsOnward sc.now prefix.now self.new }
    {
        self.value = value_by(sc, &self.belief, prefix);
        self.belief.advance(sc);
        fill_rows(&mut self.rows, &mut self.belief, sc, prefix);
    }

    /// Goes to a legal prefix that is shorter than the horizon, along it from the start.
    pub fn go_to(&mut self, sc: &Scenario, prefix: &Path)
        requires made { IsMadeFor sc.now self.old }
        requires legal { IsLegal sc.now prefix.now }
        requires short { length prefix.now < sc.now.horizon }
        ensures made { IsMadeFor sc.now self.new }
        ensures onward { IsOnward sc.now prefix.now self.new }
    {
        follow(sc, &mut self.belief, prefix);
        self.go_on(sc, prefix);
    }

    /// Goes to a prefix with one position more, by the beliefs after the prefix of `k` positions. Each mass is left as it
    /// was, times the denominator, but for what the look takes.
    pub(crate) fn look_from(
        &mut self,
        sc: &Scenario,
        before: &Onward,
        k: usize,
        a: u8,
        taken: &mut Taken,
    )
        requires made { IsMadeBehind sc.now (k + 1) self.old }
        requires short { k + 1 < sc.now.horizon }
        requires position { a < sc.now.positions }
        requires room { length taken.old.masses ≡ sc.now.cells }
        requires before { IsOnwardBehind sc.now k before.now }
        ensures made { IsMadeBehind sc.now (k + 1) self.new }
        ensures onward { (q : List ℕ) → length q ≡ k → IsOnward sc.now q before.now →
            IsOnward sc.now (q ++ a ∷ []) self.new }
        ensures room { length taken.new.masses ≡ sc.now.cells }
    {
        self.value = value_with(sc, before, k, a, taken);
        leave_rows(&mut self.rows, taken, sc, before, k, a);
    }

    /// Goes to the same prefix where looks from the position cover the cell of its number alone, by the flow of that cell. Where
    /// the look takes nothing, as on the way to where the target may be, no step of the flow is made.
    pub(crate) fn look_from_own(
        &mut self,
        sc: &Scenario,
        before: &Onward,
        k: usize,
        a: u8,
        taken: &mut Taken,
        flow: &mut Flow,
    )
        requires made { IsMadeBehind sc.now (k + 1) self.old }
        requires short { k + 1 < sc.now.horizon }
        requires position { a < sc.now.positions }
        requires own { IsOwn sc.now a }
        requires alike { DriftsAlike sc.now }
        requires flow { IsFlow sc.now a flow.old }
        requires room { length taken.old.masses ≡ sc.now.cells }
        requires before { IsOnwardBehind sc.now k before.now }
        ensures made { IsMadeBehind sc.now (k + 1) self.new }
        ensures onward { (q : List ℕ) → length q ≡ k → IsOnward sc.now q before.now →
            IsOnward sc.now (q ++ a ∷ []) self.new }
        ensures room { length taken.new.masses ≡ sc.now.cells }
        ensures flow { IsFlow sc.now a flow.new }
    {
        sc.recall_sound();
        self.value = value_with(sc, before, k, a, taken);
        let units = taken.masses()[usize::from(a)];
        if flow.reach_with(sc, units, sc.horizon() as usize - 1 - k) {
            leave_units(&mut self.rows, sc, before, k, a, units, flow);
        } else {
            leave_rows(&mut self.rows, taken, sc, before, k, a);
        }
    }

    /// The belief in a period after the prefix.
    pub fn at(&self, t: u32) -> &Belief
        requires first { 1 ≤ t }
        requires last { t ≤ length self.now.rows }
        ensures { result.now ≡ row_at self.now.rows (t - 1) }
    {
        &self.rows[t as usize - 1]
    }

    /// The value of the prefix, in parts of the whole weight.
    pub fn value(&self) -> u128
        ensures { (p : Problem) (q : List ℕ) → IsOnward p q self.now → result ≡ value_of p q }
    {
        self.value
    }
}
