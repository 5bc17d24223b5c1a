//! Gap plans of searches that closed the empty prefix alone, so that all its children wait.

ghost use Rattle.std.specs.Prelude.{◌≡◌, ◌∷◌, [], reverse, IfOk};
ghost use Rattle.bound_tree.specs.declared.node.Kind.TheVariants.{Branch};
ghost use Rattle.bound_tree.specs.Accepts.{expected_by};
ghost use Rattle.bound_tree.specs.Close.{IsExact};

use crate::scenarios::{asked_of, standing_of};
use bound_tree::{Kind, TreeNode, push_expected};
use exact_parts::NoMemory;
use gap_plan::{GapKind, GapNode, GapPlan, Numbers, make_gap};
use search_model::{Path, Scenario, Standing};
use std::alloc::Global;
use std::test::Fail;
use worked_scenarios as worked;

// The children of the empty prefix, the last one first.
fn children(alloc: Global, sc: &Scenario) -> Result<Vec<Path>, NoMemory>
    ensures { IfOk result (λ waiting. reverse waiting.items ≡ expected_by sc.now [] Branch) }
{
    sc.recall_sound();
    let mut waiting = Vec::with_capacity(alloc, 64)?;
    push_expected(&mut waiting, sc, &Path::empty(), &Kind::Branch);
    Ok(waiting)
}

// The record of the empty prefix as a branch, alone.
fn root_alone(alloc: Global) -> Result<Vec<TreeNode>, NoMemory>
    ensures { IfOk result (λ closed. closed.items ≡ record { prefix = []; kind = Branch } ∷ []) }
{
    let root = TreeNode {
        prefix: Path::empty(),
        kind: Kind::Branch,
    };
    Ok(vec![in alloc; root; 1]?)
}

// The gap plan where the children wait, under this standing, with such numbers.
fn branched(
    alloc: Global,
    sc: &Scenario,
    best: Standing,
    numbers: Numbers,
) -> Result<GapPlan, NoMemory>
    requires { IsExact sc.now best }
{
    sc.recall_sound();
    let waiting = children(alloc, sc)?;
    let closed = root_alone(alloc)?;
    make_gap(alloc, sc, closed, waiting, best, numbers)
}

// Whether a node is the empty prefix as a branch.
fn is_root(node: &GapNode) -> bool {
    match node.kind {
        GapKind::Closed(Kind::Branch) => node.prefix.is_empty(),
        _ => false,
    }
}

// Whether a node waits at this position with this number.
fn waits(node: &GapNode, position: u8, number: u128) -> bool {
    match node.kind {
        GapKind::Closed(_) => false,
        GapKind::Waiting(n) => n == number && node.prefix.cells() == [position].as_slice(),
    }
}

// Whether a plan's nodes are the root and what waits at these positions with these numbers, in this order.
fn shows(plan: &GapPlan, waiting: &[(u8, u128)]) -> bool {
    let [root, rest @ ..] = plan.nodes.nodes() else {
        return false;
    };
    is_root(root)
        && rest.len() == waiting.len()
        && rest.iter().zip(waiting).all(|(node, (position, number))| waits(
            node, *position, *number,
        ))
}

// Whether the gap plan under a path with such numbers says so, has this value, weight and ceiling, and what waits at these
// positions with these numbers.
fn has_over(
    alloc: Global,
    sc: &Scenario,
    path: &[u8],
    numbers: Numbers,
    (value, weight, ceiling): (u128, u128, u128),
    waiting: &[(u8, u128)],
) -> Result<bool, Fail> {
    let Some(best) = standing_of(sc, path) else {
        return Ok(false);
    };
    let plan = branched(alloc, sc, best, numbers)?;
    let heads = plan.standing.path == best.path
        && plan.standing.value == value
        && plan.weight == weight
        && plan.ceiling == ceiling
        && plan.numbers == numbers;
    Ok(heads && shows(&plan, waiting))
}

// The same over the scenario of a text.
fn has(
    alloc: Global,
    text: &str,
    path: &[u8],
    numbers: Numbers,
    heads: (u128, u128, u128),
    waiting: &[(u8, u128)],
) -> Result<bool, Fail> {
    asked_of(alloc, text, |alloc, sc| {
        has_over(alloc, sc, path, numbers, heads, waiting)
    })
}

#[test]
fn equal_paths_meet_the_ceiling(rt: HostRuntime) -> Result<(), Fail> {
    let waiting = [(0, 12), (1, 12)];
    assert!(rt;
        has(
            rt.alloc(),
            worked::TWO_CELLS,
            &[0, 0],
            Numbers::Means,
            (12, 16, 12),
            &waiting
        )?
    );
    Ok(())
}

#[test]
fn a_better_path_is_below_the_ceiling(rt: HostRuntime) -> Result<(), Fail> {
    let waiting = [(0, 3), (2, 6)];
    assert!(rt;
        has(
            rt.alloc(),
            worked::FOUR_CELLS,
            &[0, 0],
            Numbers::Means,
            (3, 9, 6),
            &waiting
        )?
    );
    Ok(())
}

#[test]
fn the_ceiling_is_at_least_the_value(rt: HostRuntime) -> Result<(), Fail> {
    let waiting = [(0, 3), (2, 6)];
    assert!(rt;
        has(
            rt.alloc(),
            worked::FOUR_CELLS,
            &[2, 3],
            Numbers::Means,
            (6, 9, 6),
            &waiting
        )?
    );
    Ok(())
}

#[test]
fn a_path_that_waits_has_its_value(rt: HostRuntime) -> Result<(), Fail> {
    assert!(rt;
        has(
            rt.alloc(),
            worked::ONE_CELL,
            &[0],
            Numbers::Means,
            (1, 2, 1),
            &[(0, 1)]
        )?
    );
    Ok(())
}

#[test]
fn numbers_are_those_that_are_asked_for(rt: HostRuntime) -> Result<(), Fail> {
    let alloc = rt.alloc();
    let (text, path) = (worked::WAITING_LONGER, [1, 2, 2]);
    let means = [(0, 4), (1, 8), (2, 8)];
    let edges = [(0, 4), (1, 6), (2, 7)];
    assert!(rt; has(alloc, text, &path, Numbers::Means, (6, 8, 8), &means)?);
    assert!(rt; has(alloc, text, &path, Numbers::Edges, (6, 8, 7), &edges)?);
    Ok(())
}
