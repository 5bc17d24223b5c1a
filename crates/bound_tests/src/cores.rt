ghost use Rattle.bound_tree.specs.Close.{IsExact};
ghost use Rattle.search_core.specs.Balance.{IsBalanced};

use crate::scenarios::{asked_of, standing_of};
use bound_tree::{Kind, TreeNode};
use search_core::{CoreEvent, CoreFault, CoreState};
use search_model::{Path, Scenario, Standing};
use std::alloc::Global;
use std::test::Fail;
use worked_scenarios::ONE_CELL;

fn put(core: &mut CoreState, sc: &Scenario, path: &Path) -> Result<(), CoreFault>
    requires { IsBalanced sc.now core.old }
    ensures { IsBalanced sc.now core.new }
{
    core.step(sc, CoreEvent::Put(*path))
}

fn take(core: &mut CoreState, sc: &Scenario, path: &Path) -> Result<(), CoreFault>
    requires { IsBalanced sc.now core.old }
    ensures { IsBalanced sc.now core.new }
{
    core.step(sc, CoreEvent::Take(*path))
}

// The empty prefix branches, whatever the standing.
fn branch(core: &mut CoreState, sc: &Scenario) -> Result<(), CoreFault>
    requires { IsBalanced sc.now core.old }
    ensures { IsBalanced sc.now core.new }
{
    sc.recall_sound();
    let node = TreeNode {
        prefix: Path::empty(),
        kind: Kind::Branch,
    };
    core.step(sc, CoreEvent::Close(node, 0))
}

// A path is closed by its value.
fn close_path(
    core: &mut CoreState,
    sc: &Scenario,
    whole: &Standing,
    j: usize,
) -> Result<(), CoreFault>
    requires balanced { IsBalanced sc.now core.old }
    requires exact { IsExact sc.now whole.now }
    ensures { IsBalanced sc.now core.new }
{
    let node = TreeNode {
        prefix: whole.path,
        kind: Kind::Whole(whole.value),
    };
    core.step(sc, CoreEvent::Close(node, j))
}

fn is_not_pooled(answer: Result<(), CoreFault>, path: &Path) -> bool {
    match &answer {
        Err(CoreFault::NotPooled(prefix)) => prefix.cells() == path.cells(),
        _ => false,
    }
}

fn is_not_held(answer: Result<(), CoreFault>, path: &Path) -> bool {
    match &answer {
        Err(CoreFault::NotHeld(prefix)) => prefix.cells() == path.cells(),
        _ => false,
    }
}

fn is_no_standing(answer: Result<(), CoreFault>, place: usize) -> bool {
    match answer {
        Err(CoreFault::NoStanding(j)) => j == place,
        _ => false,
    }
}

// Whether these prefixes are pooled and held, and how many records there are.
fn shows(core: &CoreState, pool: &[Path], hands: &[Path], records: usize) -> bool {
    core.pool() == pool && core.hands() == hands && core.records().len() == records
}

// Whether the steps up to the branch are taken and refused as they are due.
fn branches(core: &mut CoreState, sc: &Scenario, path: &Path) -> bool
    requires { IsBalanced sc.now core.old }
    ensures { IsBalanced sc.now core.new }
{
    let begins = shows(core, &[], &[Path::empty()], 0);
    let refused = is_not_pooled(take(core, sc, path), path);
    let stays = shows(core, &[], &[Path::empty()], 0);
    let branched = branch(core, sc).is_ok();
    begins && refused && stays && branched && shows(core, &[], &[*path], 1)
}

// Whether the path is put and taken, and isn't closed under a standing that there is not.
fn goes_round(core: &mut CoreState, sc: &Scenario, whole: &Standing) -> bool
    requires balanced { IsBalanced sc.now core.old }
    requires exact { IsExact sc.now whole.now }
    ensures { IsBalanced sc.now core.new }
{
    let kept = put(core, sc, &whole.path).is_ok();
    let pooled = shows(core, &[whole.path], &[], 1);
    let taken = take(core, sc, &whole.path).is_ok();
    let refused = is_no_standing(close_path(core, sc, whole, 1), 1);
    kept && pooled && taken && refused && shows(core, &[], &[whole.path], 1)
}

// Whether the path is closed, and not twice.
fn closes(core: &mut CoreState, sc: &Scenario, whole: &Standing) -> bool
    requires balanced { IsBalanced sc.now core.old }
    requires exact { IsExact sc.now whole.now }
{
    let closed = close_path(core, sc, whole, 0).is_ok();
    let done = shows(core, &[], &[], 2);
    let refused = is_not_held(close_path(core, sc, whole, 0), &whole.path);
    closed && done && refused && shows(core, &[], &[], 2) && core.standings().len() == 1
}

// Whether the machine closes the path of one cell, which has the value 1.
fn closes_its_path(alloc: Global, sc: &Scenario) -> Result<bool, Fail> {
    let path = Path::of(&[0]).ok_or("no path")?;
    let Some(whole) = standing_of(sc, path.cells()) else {
        return Ok(false);
    };
    let mut core = CoreState::start(alloc, sc, whole)?;
    let branched = branches(&mut core, sc, &path);
    let round = goes_round(&mut core, sc, &whole);
    Ok(branched && round && closes(&mut core, sc, &whole) && whole.value == 1)
}

#[test]
fn the_one_path_is_closed(rt: HostRuntime) -> Result<(), Fail> {
    assert!(rt; asked_of(rt.alloc(), ONE_CELL, closes_its_path)?);
    Ok(())
}
