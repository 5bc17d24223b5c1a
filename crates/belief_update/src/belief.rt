//! Beliefs.

ghost use Rattle.std.specs.Prelude.{◌≡◌, ◌<◌, ◌≤◌, ◌+◌, ◌++◌, ◌∷◌, [], ℕ, List, Option, Some, None, length, slice_index, sum, IfOk, IsTrue};
ghost use Rattle.search_model.specs.Problem.{IsProblem, first_of};
ghost use Rattle.belief_update.specs.Belief.{IsBelief, IsReached, IsUnlooked, awaiting};
ghost use Rattle.belief_update.specs.Masses.{looks_to};
ghost use Rattle.belief_update.specs.Taken.{TakenState, IsLater, IsLaterSome};
ghost use Rattle.belief_update.specs.Flows.{IsUnits, IsUnitsOfSome};

use crate::count::Steps;
use crate::flows::UnitPart;
use crate::steps;
use crate::taken::Taken;
use exact_parts::NoMemory;
use search_model::Scenario;
use std::alloc::Global;
use std::marker::Model;
use std::sync::ledger::Ledger;

/// How much of the target stands in each cell in a period, given what the looks so far missed: whole numbers, in parts
/// of the total, of the drift for each step and of the look for each look. It is used with the scenario that it was
/// started for.
///
/// Contracts see the period, whether it is looked at, and the masses. The looks, one option for each period up to the belief's own, are a variable
/// of the contracts, so nothing of them is kept or copied.
#[derive(Drop)]
pub struct Belief {
    period: u32,
    looked: bool,
    masses: Vec<u128>,
    next: Vec<u128>,
}

impl Model for Belief {
    ghost use Rattle.std.specs.Prelude.{◌≡◌, ◌<◌, ◌^◌, sum, length};
    ghost use Rattle.belief_update.specs.Belief.{BeliefState};

    ghost Value = { BeliefState };

    ghost view = { λ b. record { period = b.period; looked = b.looked; masses = b.masses.items } };

    ghost invariant = { λ b. record {
      spare : length b.next.items ≡ length b.masses.items;
      fits : sum b.masses.items <
          2 ^ 127;
    } };
}

// The first masses: the target's parts in period 1.
fn first_masses(masses: &mut [u128], sc: &Scenario)
    requires { length masses.old ≡ sc.now.cells }
    ensures each { (c : ℕ) → c < sc.now.cells → slice_index masses.new c ≡ first_of sc.now c }
    ensures sound { IsProblem sc.now }
{
    for c in 0..sc.cells() {
        masses[c as usize] = u128::from(sc.first(c));
    }
}

impl Belief {
    /// The belief in period 1, before a look. The only call that takes memory.
    pub fn start(alloc: Global, sc: &Scenario) -> Result<Belief, NoMemory>
        ensures { IfOk result (IsBelief sc.now (None ∷ [])) }
    {
        let cells = sc.cells() as usize;
        let mut masses = vec![in alloc; 0; cells]?;
        let next = vec![in alloc; 0; cells]?;
        first_masses(&mut masses, sc);
        Ok(Belief {
            period: 1,
            looked: false,
            masses,
            next,
        })
    }

    /// No belief: over no cells, in the place of one that nobody asks for. Takes no memory.
    pub(crate) fn none(alloc: Global) -> Belief
        ensures { length result.masses ≡ 0 }
    {
        Belief {
            period: 1,
            looked: false,
            masses: Vec::new(alloc),
            next: Vec::new(alloc),
        }
    }

    /// Starts again, in period 1 before a look.
    pub fn reset(&mut self, sc: &Scenario)
        requires { length self.old.masses ≡ sc.now.cells }
        ensures { IsBelief sc.now (None ∷ []) self.new }
    {
        first_masses(&mut self.masses, sc);
        self.period = 1;
        self.looked = false;
    }

    /// Looks from a position, in a period that isn't looked at yet.
    pub fn look(&mut self, sc: &Scenario, position: u8)
        requires belief { IsUnlooked sc.now self.old }
        requires position { position < sc.now.positions }
        ensures belief { (looks : List (Option ℕ)) → IsBelief sc.now (looks ++ None ∷ []) self.old →
            IsBelief sc.now (looks ++ Some position ∷ []) self.new }
        ensures period { self.new.period ≡ self.old.period }
    {
        steps::weaken(&mut self.masses, sc.sweep(), self.period, position);
        self.looked = true;
    }

    /// Goes on to the next period, before a look there.
    pub fn drift(&mut self, sc: &Scenario)
        requires belief { IsReached sc.now self.old }
        requires period { self.old.period < sc.now.horizon }
        ensures belief { (looks : List (Option ℕ)) → IsBelief sc.now looks self.old →
            IsBelief sc.now (looks ++ None ∷ []) self.new }
        ensures period { self.new.period ≡ self.old.period + 1 }
    {
        steps::move_on(&mut self.next, &self.masses, sc.drift(), self.period);
        std::mem::swap(&mut self.masses, &mut self.next);
        self.period += 1;
        self.looked = false;
    }

    /// Gets ready for the next look: goes on to the next period, where its own is looked at.
    pub fn advance(&mut self, sc: &Scenario)
        requires belief { IsReached sc.now self.old }
        requires period { IsTrue self.old.looked → self.old.period < sc.now.horizon }
        ensures belief { (looks : List (Option ℕ)) → IsBelief sc.now looks self.old →
            IsBelief sc.now (awaiting self.old looks) self.new }
        ensures unlooked { IsUnlooked sc.now self.new }
    {
        if self.looked {
            self.drift(sc);
        }
    }

    /// Becomes another belief in the next period, before a look there.
    pub fn drift_from(&mut self, sc: &Scenario, before: &Belief)
        requires cells { length self.old.masses ≡ sc.now.cells }
        requires belief { IsReached sc.now before.now }
        requires period { before.now.period < sc.now.horizon }
        ensures belief { (looks : List (Option ℕ)) → IsBelief sc.now looks before.now →
            IsBelief sc.now (looks ++ None ∷ []) self.new }
        ensures period { self.new.period ≡ before.now.period + 1 }
    {
        steps::move_on(&mut self.masses, &before.masses, sc.drift(), before.period);
        self.period = before.period + 1;
        self.looked = false;
    }

    /// Becomes another belief, ready for the next look: a period on, where that one's own is looked at.
    pub fn advance_from(&mut self, sc: &Scenario, before: &Belief)
        requires cells { length self.old.masses ≡ sc.now.cells }
        requires belief { IsReached sc.now before.now }
        requires period { IsTrue before.now.looked → before.now.period < sc.now.horizon }
        ensures belief { (looks : List (Option ℕ)) → IsBelief sc.now looks before.now →
            IsBelief sc.now (awaiting before.now looks) self.new }
        ensures unlooked { IsUnlooked sc.now self.new }
    {
        if before.looked {
            self.drift_from(sc, before);
        } else {
            self.copy_from(before);
        }
    }

    /// Becomes another belief after one look more: from `position`, in the period of that belief where it isn't looked at,
    /// else in the next one. It counts one step.
    pub fn step_from<L: Ledger>(
        &mut self,
        sc: &Scenario,
        before: &Belief,
        position: u8,
        steps: &mut Steps<L>,
    )
        requires cells { length self.old.masses ≡ sc.now.cells }
        requires belief { IsReached sc.now before.now }
        requires period { IsTrue before.now.looked → before.now.period < sc.now.horizon }
        requires position { position < sc.now.positions }
        ensures first { (looks : List (Option ℕ)) → IsBelief sc.now (looks ++ None ∷ []) before.now →
            IsBelief sc.now (looks ++ Some position ∷ []) self.new }
        ensures later { (looks : List (Option ℕ)) (a : ℕ) → IsBelief sc.now (looks ++ Some a ∷ []) before.now
            → IsBelief sc.now (looks ++ Some a ∷ [] ++ Some position ∷ []) self.new }
        ensures counted { steps.new ≡ steps.old + 1 }
    {
        self.advance_from(sc, before);
        self.look(sc, position);
        steps.tick();
    }

    /// Becomes the belief with one look more, in a period after that look, by the belief without it and by what the look
    /// took.
    pub(crate) fn leave_from(&mut self, sc: &Scenario, before: &Belief, taken: &Taken)
        requires cells { length self.old.masses ≡ sc.now.cells }
        requires later { IsLaterSome sc.now before.now taken.now }
        ensures { (q r : List ℕ) → IsLater sc.now q r before.now taken.now →
            IsBelief sc.now (looks_to taken.now.period r) self.new }
    {
        sc.recall_sound();
        let whole = sc.sweep().denominator();
        steps::leave(&mut self.masses, &before.masses, whole, taken.masses());
        self.period = before.period;
        self.looked = false;
    }

    /// Becomes the belief with one look more, in a period after that look, by the belief without it: the look took so many
    /// units, which are where entries have them by then.
    pub(crate) fn leave_units(
        &mut self,
        sc: &Scenario,
        before: &Belief,
        units: u128,
        entries: &[UnitPart],
    )
        requires cells { length self.old.masses ≡ sc.now.cells }
        requires taken { IsUnitsOfSome sc.now before.now units entries.now }
        ensures { (q r : List ℕ) (s : TakenState) → IsUnits sc.now q r before.now units entries.now s →
            IsBelief sc.now (looks_to s.period r) self.new }
    {
        sc.recall_sound();
        let whole = sc.sweep().denominator();
        steps::leave_units(&mut self.masses, &before.masses, whole, units, entries);
        self.period = before.period;
        self.looked = false;
    }

    /// Takes over what another belief of the scenario holds.
    pub fn copy_from(&mut self, other: &Belief)
        requires { length self.old.masses ≡ length other.now.masses }
        ensures { self.new ≡ other.now }
    {
        self.period = other.period;
        self.looked = other.looked;
        self.masses.copy_from_slice(&other.masses);
    }

    /// The period, 1 to the horizon.
    pub fn period(&self) -> u32
        ensures { result ≡ self.now.period }
    {
        self.period
    }

    /// Whether its period is looked at.
    pub fn looked(&self) -> bool
        ensures { result ≡ self.now.looked }
    {
        self.looked
    }

    /// The mass of a cell.
    pub fn at(&self, c: u8) -> u128
        requires { c < length self.now.masses }
        ensures { result ≡ slice_index self.now.masses c }
    {
        self.masses[c as usize]
    }

    /// The masses of all cells.
    pub fn masses(&self) -> &[u128]
        ensures { result.now ≡ self.now.masses }
    {
        &self.masses
    }

    /// The sum of the masses of all cells.
    pub fn undetected(&self) -> u128
        ensures { result ≡ sum self.now.masses }
    {
        self.masses.iter().sum()
    }
}
