//! The value of a prefix, by the belief after its looks.

ghost use Rattle.std.specs.Prelude.{◌≡◌, ◌≤◌, ◌*◌, ◌^◌, ◌+◌, ◌-◌, ◌<◌, ◌++◌, ℕ, List, Option, Some, map, length, All};
ghost use Rattle.search_model.specs.Legal.{IsLegal};
ghost use Rattle.search_model.specs.Tracks.{value_of};
ghost use Rattle.belief_update.specs.Belief.{IsBelief, IsReached};
ghost use Rattle.belief_update.specs.Trails.{IsAfter, IsPast};

use crate::belief::Belief;
use search_model::{Path, Scenario};

// Goes on by a period and looks, for each of some positions.
fn follow_on(sc: &Scenario, belief: &mut Belief, later: &[u8])
    requires belief { IsReached sc.now belief.old }
    requires positions { All (λ a. a < sc.now.positions) later.now }
    requires short { belief.old.period + length later.now ≤ sc.now.horizon }
    ensures { (looks : List (Option ℕ)) → IsBelief sc.now looks belief.old →
        IsBelief sc.now (looks ++ map Some later.now) belief.new }
{
    for a in later {
        belief.drift(sc);
        belief.look(sc, *a);
    }
}

// Starts again, looks at the first of some positions, and at each later one a period later.
fn look_through(sc: &Scenario, belief: &mut Belief, looks: &[u8])
    requires cells { length belief.old.masses ≡ sc.now.cells }
    requires positions { All (λ a. a < sc.now.positions) looks.now }
    requires short { length looks.now ≤ sc.now.horizon }
    ensures { IsAfter sc.now looks.now belief.new }
{
    belief.reset(sc);
    if let [first, later @ ..] = looks {
        belief.look(sc, *first);
        follow_on(sc, belief, later);
    }
}

/// Starts a belief again, and takes it through the looks of a legal prefix, to the period of the last of them (or to
/// period 1, where the prefix is empty).
pub fn follow(sc: &Scenario, belief: &mut Belief, prefix: &Path)
    requires cells { length belief.old.masses ≡ sc.now.cells }
    requires legal { IsLegal sc.now prefix.now }
    ensures { IsAfter sc.now prefix.now belief.new }
{
    sc.recall_sound();
    look_through(sc, belief, prefix.cells());
}

/// The parts of the steps after period `t` and of the looks after the first `k`, up to the horizon.
pub fn later_parts(sc: &Scenario, t: u32, k: u32) -> u128
    requires first { 1 ≤ t }
    requires last { t ≤ sc.now.horizon }
    requires looks { k ≤ sc.now.horizon }
    ensures { result ≡
        sc.now.drift.denominator ^ (sc.now.horizon - t) * sc.now.sweep.denominator ^ (sc.now.horizon - k) }
{
    let horizon = sc.horizon();
    u128::from(sc.drift().denominator()).pow(horizon - t)
        * u128::from(sc.sweep().denominator()).pow(horizon - k)
}

/// The value of a prefix, in parts of the whole weight, by the belief after its looks and no others.
pub fn value_by(sc: &Scenario, belief: &Belief, prefix: &Path) -> u128
    requires { IsPast sc.now prefix.now belief.now }
    ensures { result ≡ value_of sc.now prefix.now }
{
    let later = later_parts(sc, belief.period(), prefix.len() as u32);
    sc.weight() - belief.undetected() * later
}

/// The value of a legal prefix, in parts of the whole weight, by a belief that follows it from the start. Takes no
/// memory.
pub fn prefix_value(sc: &Scenario, belief: &mut Belief, prefix: &Path) -> u128
    requires cells { length belief.old.masses ≡ sc.now.cells }
    requires legal { IsLegal sc.now prefix.now }
    ensures value { result ≡ value_of sc.now prefix.now }
    ensures belief { IsAfter sc.now prefix.now belief.new }
{
    follow(sc, belief, prefix);
    value_by(sc, belief, prefix)
}
