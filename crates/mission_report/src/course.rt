//! The numbers of a report: what the looks along a path find up to each period, and the belief that they leave.

ghost use Rattle.std.specs.Prelude.{◌≡◌, ◌<◌, ◌++◌, ◌∷◌, [], ℕ, List, Some, None, map, IfOk, OnOk};
ghost use Rattle.search_model.specs.Legal.{IsPath};
ghost use Rattle.search_model.specs.Tracks.{value_of};
ghost use Rattle.belief_update.specs.Belief.{IsBelief};
ghost use Rattle.mission_report.specs.Account.{values_along};
ghost use Rattle.mission_report.specs.Course.{IsCourse};

use belief_update::{Belief, later_parts};
use exact_parts::NoMemory;
use search_model::{Path, Scenario};
use std::alloc::Global;

/// What the looks along a path make of the belief.
#[derive(Drop)]
pub struct Course {
    /// The value of the path up to each period.
    pub values: Vec<u128>,
    /// The belief after the last look: its masses are what the path leaves.
    pub belief: Belief,
}

/// The value of a prefix, by the belief after the last of its looks.
pub fn value_after(sc: &Scenario, belief: &Belief) -> u128
    requires { (q : List ℕ) × IsBelief sc.now (map Some q) belief.now }
    ensures { (q : List ℕ) → IsBelief sc.now (map Some q) belief.now → result ≡ value_of sc.now q }
{
    // There was a look in each period so far.
    let t = belief.period();
    sc.weight() - belief.undetected() * later_parts(sc, t, t)
}

// Looks from a position, in a period that isn't looked at yet, and notes the value of the prefix that ends there.
fn note_look(
    sc: &Scenario,
    belief: &mut Belief,
    position: u8,
    values: &mut Vec<u128>,
) -> Result<(), NoMemory>
    requires belief { (q : List ℕ) × IsBelief sc.now (map Some q ++ None ∷ []) belief.old }
    requires position { position < sc.now.positions }
    ensures belief { (q : List ℕ) → IsBelief sc.now (map Some q ++ None ∷ []) belief.old →
        IsBelief sc.now (map Some (q ++ position ∷ [])) belief.new }
    ensures value { OnOk result ((q : List ℕ) → IsBelief sc.now (map Some q ++ None ∷ []) belief.old →
        values.new.items ≡ values.old.items ++ value_of sc.now (q ++ position ∷ []) ∷ []) }
{
    belief.look(sc, position);
    values.push(value_after(sc, belief))?;
    Ok(())
}

// Looks along a path, one position a period, while the target drifts from each period to the next, and notes the values.
fn note_looks(
    sc: &Scenario,
    path: &Path,
    belief: &mut Belief,
    values: &mut Vec<u128>,
) -> Result<(), NoMemory>
    requires path { IsPath sc.now path.now }
    requires start { IsBelief sc.now (None ∷ []) belief.old }
    requires empty { values.old.items ≡ [] }
    ensures values { OnOk result (values.new.items ≡ values_along sc.now path.now) }
    ensures belief { OnOk result (IsBelief sc.now (map Some path.now) belief.new) }
{
    sc.recall_sound();
    let looks = path.cells();
    note_look(sc, belief, looks[0], values)?;
    for t in 1..looks.len() {
        belief.drift(sc);
        note_look(sc, belief, looks[t], values)?;
    }
    Ok(())
}

/// Looks along a path, one position a period, while the target drifts from each period to the next.
pub fn follow(alloc: Global, sc: &Scenario, path: &Path) -> Result<Course, NoMemory>
    requires { IsPath sc.now path.now }
    ensures { IfOk result (IsCourse sc.now path.now) }
{
    let mut belief = Belief::start(alloc, sc)?;
    let mut values = Vec::new(alloc);
    note_looks(sc, path, &mut belief, &mut values)?;
    Ok(Course { values, belief })
}
