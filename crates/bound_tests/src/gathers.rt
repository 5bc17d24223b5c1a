ghost use Rattle.bound_tree.specs.Close.{IsExact};
ghost use Rattle.search_core.specs.Balance.{IsBalanced};

use crate::scenarios::{asked_of, standing_of};
use bound_tree::{BoundTree, Kind, TreeNode};
use search_core::{CoreEvent, CoreState};
use search_model::{Path, Scenario, Standing};
use std::alloc::Global;
use std::test::Fail;
use tree_gather::gather;

// Two cells and one period; half of the looks miss.
const ONE_PERIOD: &str = "\
scenario 1
horizon 1
parts 2 1 2
grid 1 2
start r0c0
first r0c0 1 r0c1 1
spread 0
rate 1
end
";

// Closes the empty prefix as a branch.
fn branch(core: &mut CoreState, sc: &Scenario) -> bool
    requires { IsBalanced sc.now core.old }
    ensures { IsBalanced sc.now core.new }
{
    sc.recall_sound();
    let node = TreeNode {
        prefix: Path::empty(),
        kind: Kind::Branch,
    };
    core.step(sc, CoreEvent::Close(node, 0)).is_ok()
}

// Closes a path by its value.
fn close_path(core: &mut CoreState, sc: &Scenario, whole: &Standing) -> bool
    requires balanced { IsBalanced sc.now core.old }
    requires exact { IsExact sc.now whole.now }
    ensures { IsBalanced sc.now core.new }
{
    let node = TreeNode {
        prefix: whole.path,
        kind: Kind::Whole(whole.value),
    };
    core.step(sc, CoreEvent::Close(node, 0)).is_ok()
}

// The records of a search that is done, gathered.
fn tree_of(alloc: Global, sc: &Scenario, core: &CoreState) -> Result<BoundTree, Fail>
    requires { IsBalanced sc.now core.now }
{
    if !core.pool().is_empty() || !core.hands().is_empty() {
        return Err("something is left".into());
    }
    let nodes = core.records().to_vec(alloc)?;
    Ok(gather(sc, nodes))
}

// Whether the tree of two paths, of which the greater is closed first, has them in ascending order.
fn are_in_preorder(
    alloc: Global,
    sc: &Scenario,
    less: &Standing,
    more: &Standing,
) -> Result<bool, Fail>
    requires less { IsExact sc.now less.now }
    requires more { IsExact sc.now more.now }
{
    let mut core = CoreState::start(alloc, sc, *less)?;
    let branched = branch(&mut core, sc);
    let greater = close_path(&mut core, sc, more);
    let smaller = close_path(&mut core, sc, less);
    if !branched || !greater || !smaller {
        return Ok(false);
    }
    Ok(has_prefixes(&tree_of(alloc, sc, &core)?, &less.path, &more.path))
}

// Whether a tree has the records of no position, and of these prefixes.
fn has_prefixes(tree: &BoundTree, second: &Path, third: &Path) -> bool {
    match tree.nodes() {
        [first, next, last] => {
            first.prefix.is_empty() && next.prefix == *second && last.prefix == *third
        }
        _ => false,
    }
}

// Whether the records of the two paths of a scenario are gathered.
fn gathers_two_paths(alloc: Global, sc: &Scenario) -> Result<bool, Fail> {
    match (standing_of(sc, &[0]), standing_of(sc, &[1])) {
        (Some(less), Some(more)) => are_in_preorder(alloc, sc, &less, &more),
        _ => Ok(false),
    }
}

#[test]
fn records_are_gathered_in_preorder(rt: HostRuntime) -> Result<(), Fail> {
    assert!(rt; asked_of(rt.alloc(), ONE_PERIOD, gathers_two_paths)?);
    Ok(())
}
