ghost use Rattle.std.specs.Prelude.{◌≡◌, ◌≤◌, ◌+◌, ◌∷◌, [], ◌<◌, IsTrue, length};
ghost use Rattle.search_model.specs.Problem.{Problem};
ghost use Rattle.belief_update.specs.Trails.{IsTrailOf, common_of};

use crate::scenarios::{asked_of, crosses_threads};
use belief_update::{Belief, Steps, Trail};
use search_model::{Path, Scenario};
use std::alloc::Global;
use std::marker::Brand;
use std::sync::ledger::{Blank, Ledger};
use std::test::Fail;
use worked_scenarios::WAITING_LONGER;

// Whether the belief after the first `k` looks has these masses.
fn has_row(trail: &Trail, k: usize, masses: [u128; 3]) -> bool
    requires prefix { k ≤ length trail.now.prefix }
    requires made { (sc : Problem) × (sc.cells ≡ 3) × IsTrailOf sc trail.now }
{
    let row = trail.row(k);
    row.at(0) == masses[0] && row.at(1) == masses[1] && row.at(2) == masses[2]
}

// Goes to a prefix that is legal: a step for each position that it hasn't in common with the one before it.
fn goes<L: Ledger>(sc: &Scenario, trail: &mut Trail, cells: &[u8], steps: &mut Steps<L>) -> bool
    requires { IsTrailOf sc.now trail.old }
    ensures made { IsTrailOf sc.now trail.new }
    ensures there { IsTrue result → trail.new.prefix ≡ cells.now }
    ensures counted { steps.new + common_of trail.old.prefix cells.now ≤ steps.old + length cells.now }
{
    match Path::of(cells) {
        Some(prefix) if sc.is_legal(&prefix) => {
            trail.go(sc, &prefix, steps);
            true
        }
        _ => false,
    }
}

// From no look to three: three steps.
fn goes_down<L: Ledger>(sc: &Scenario, trail: &mut Trail, steps: &mut Steps<L>) -> bool
    requires made { IsTrailOf sc.now trail.old }
    requires prefix { trail.old.prefix ≡ [] }
    ensures made { IsTrailOf sc.now trail.new }
    ensures there { IsTrue result → trail.new.prefix ≡ 2 ∷ 2 ∷ 1 ∷ [] }
    ensures counted { steps.new ≤ steps.old + 3 }
{
    goes(sc, trail, &[2, 2, 1], steps)
}

// To another last look: one step.
fn goes_beside<L: Ledger>(sc: &Scenario, trail: &mut Trail, steps: &mut Steps<L>) -> bool
    requires cells { sc.now.cells ≡ 3 }
    requires made { IsTrailOf sc.now trail.old }
    requires prefix { trail.old.prefix ≡ 2 ∷ 2 ∷ 1 ∷ [] }
    ensures made { IsTrailOf sc.now trail.new }
    ensures there { IsTrue result → trail.new.prefix ≡ 2 ∷ 2 ∷ 2 ∷ [] }
    ensures counted { steps.new ≤ steps.old + 1 }
{
    goes(sc, trail, &[2, 2, 2], steps) && has_row(trail, 3, [0, 0, 1])
}

// To another first look: one step.
fn goes_up<L: Ledger>(sc: &Scenario, trail: &mut Trail, steps: &mut Steps<L>) -> bool
    requires cells { sc.now.cells ≡ 3 }
    requires made { IsTrailOf sc.now trail.old }
    requires prefix { trail.old.prefix ≡ 2 ∷ 2 ∷ 2 ∷ [] }
    ensures made { IsTrailOf sc.now trail.new }
    ensures there { IsTrue result → trail.new.prefix ≡ 1 ∷ [] }
    ensures counted { steps.new ≤ steps.old + 1 }
{
    goes(sc, trail, &[1], steps) && has_row(trail, 1, [0, 0, 2])
}

// Whether the rows are right on the way.
fn rows_are_right<L: Ledger>(sc: &Scenario, trail: &mut Trail, blank: Blank) -> bool
    requires cells { sc.now.cells ≡ 3 }
    requires made { IsTrailOf sc.now trail.old }
    requires prefix { trail.old.prefix ≡ [] }
    requires name { blank.name ≡ L.name }
    requires parts { blank.parts ≡ L.parts }
    requires some { 0 < blank.parts }
{
    let mut steps = Steps::<L>::start(blank);
    if !goes_down(sc, trail, &mut steps) {
        return false;
    }
    if !goes_beside(sc, trail, &mut steps) {
        return false;
    }
    goes_up(sc, trail, &mut steps)
}

fn rows_over(alloc: Global, sc: &Scenario) -> Result<bool, Fail>
    requires { sc.now.cells ≡ 3 }
{
    let mut trail = Trail::tables(alloc, sc)?;
    Ok(rows_are_right::<Brand>(sc, &mut trail, Blank::new(1)))
}

// The same of a scenario of three cells.
fn trail_has_rows(alloc: Global, sc: &Scenario) -> Result<bool, Fail> {
    if sc.cells() != 3 {
        return Ok(false);
    }
    rows_over(alloc, sc)
}

#[test]
fn a_trail_keeps_what_prefixes_have_in_common(rt: HostRuntime) -> Result<(), Fail> {
    assert!(rt; asked_of(rt.alloc(), WAITING_LONGER, trail_has_rows)?);
    crosses_threads::<Belief>();
    crosses_threads::<Trail>();
    Ok(())
}
