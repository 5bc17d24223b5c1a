//! The value of a prefix, by a plain recursion over the target's tracks.

ghost use Rattle.std.specs.Prelude.{◌≡◌, ◌-◌, ◌<◌, ◌≤◌, drop, All};
ghost use Rattle.search_model.specs.Legal.{IsLegal};
ghost use Rattle.search_model.specs.Tracks.{missed_weight, value_of};
ghost use Rattle.search_model.specs.Following.{look_factor as look_factor_lem, after_of};

use crate::path::Path;
use crate::scenario::Scenario;

// How much of a target in cell `c` the first of these looks misses in period `t`; the denominator where no look is left.
fn look_factor(sc: &Scenario, t: u32, looks: &[u8], c: u8) -> u32
    requires first { 1 ≤ t }
    requires last { t ≤ sc.now.horizon }
    requires looks { All (λ a. a < sc.now.positions) looks.now }
    requires cell { c < sc.now.cells }
    ensures { result ≡ look_factor_lem sc.now t looks.now c }
{
    match looks {
        [] => sc.sweep().denominator(),
        [a, ..] => sc.sweep().factor(t, *a, c),
    }
}

// All looks but the first.
fn later(looks: &[u8]) -> &[u8]
    ensures { result.now ≡ drop 1 looks.now }
{
    match looks {
        [] => looks,
        [_, rest @ ..] => rest,
    }
}

// The sum, over all that may follow cell `c` in period `t` up to the horizon, of drift parts times look factors.
fn after(sc: &Scenario, t: u32, c: u8, looks: &[u8]) -> u128
    requires first { 1 ≤ t }
    requires last { t ≤ sc.now.horizon }
    requires cell { c < sc.now.cells }
    requires looks { All (λ a. a < sc.now.positions) looks.now }
    ensures { result ≡ after_of sc.now t c looks.now (sc.now.horizon - t) }
{
    if t == sc.horizon() {
        return 1;
    }
    let mut sum = 0;
    for entry in sc.drift().row(t, c) {
        let factor = look_factor(sc, t + 1, looks, entry.cell);
        let next = u128::from(factor) * after(sc, t + 1, entry.cell, later(looks));
        sum += u128::from(entry.part) * next;
    }
    sum
}

// The weight that the looks of a legal prefix miss.
fn missed(sc: &Scenario, looks: &[u8]) -> u128
    requires { All (λ a. a < sc.now.positions) looks.now }
    ensures { result ≡ missed_weight sc.now looks.now }
{
    let mut sum = 0;
    for c in 0..sc.cells() {
        let here = u128::from(sc.first(c)) * u128::from(look_factor(sc, 1, looks, c));
        sum += here * after(sc, 1, c, later(looks));
    }
    sum
}

/// The value of a legal prefix, in parts of the whole weight. It visits every track, so it is meant for small problems.
pub fn value(sc: &Scenario, prefix: &Path) -> u128
    requires { IsLegal sc.now prefix.now }
    ensures { result ≡ value_of sc.now prefix.now }
{
    sc.weight() - missed(sc, prefix.cells())
}
