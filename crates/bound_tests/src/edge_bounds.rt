ghost use Rattle.mean_bound.specs.Means.{IsMadeFor as IsMeanFor};
ghost use Rattle.edge_bound.specs.Edges.{IsMadeFor, AreTablesFor};

use crate::scenarios::{FOOTPRINTS, asked_of, crosses_threads};
use edge_bound::{Edge, EdgeTables};
use mean_bound::Mean;
use search_model::{Path, Scenario};
use std::alloc::Global;
use std::test::Fail;

// A target that stays in the last of three cells in a row, where a look misses 1 of 2; no look at the first cell misses, so
// there isn't one rate.
const WAITING: &str = "\
scenario 1
horizon 3
parts 1 1 2
grid 1 3
start r0c1
first r0c2 1
spread 0
overlook r0c0 0
overlook r0c1 1
overlook r0c2 1
end
";

// A target that drifts to the cells beside its own, over four periods; looks miss 1, 2 and 3 of 4.
const DRIFTING: &str = "\
scenario 1
horizon 4
parts 6 3 4
grid 1 3
start r0c1
first r0c0 2 r0c1 3 r0c2 1
spread 1
overlook r0c0 1
overlook r0c1 2
overlook r0c2 3
end
";

// Whether a prefix may be bounded, and has this bound by what the mean bound keeps along it and by going from the start.
fn has_bound(
    sc: &Scenario,
    edge: &mut Edge,
    tables: &mut EdgeTables,
    mean: &mut Mean,
    cells: &[u8],
    bound: u128,
) -> bool
    requires edge { IsMadeFor sc.now edge.old }
    requires tables { AreTablesFor sc.now tables.old }
    requires mean { IsMeanFor sc.now mean.old }
    ensures edge { IsMadeFor sc.now edge.new }
    ensures tables { AreTablesFor sc.now tables.new }
    ensures mean { IsMeanFor sc.now mean.new }
{
    match Path::of(cells) {
        Some(prefix) if sc.is_legal(&prefix) && cells.len() < sc.horizon() as usize => {
            mean.go_to(sc, &prefix);
            let after = tables.bound_by(sc, mean.near(), mean.onward(), &prefix);
            after == bound && edge.bound(sc, &prefix) == bound
        }
        _ => false,
    }
}

// A prefix and its bound.
type Bound = (&'static [u8], u128);

// Whether prefixes have their bounds, one asked after the other.
fn have_bounds(
    sc: &Scenario,
    edge: &mut Edge,
    tables: &mut EdgeTables,
    mean: &mut Mean,
    cases: &[Bound],
) -> bool
    requires edge { IsMadeFor sc.now edge.old }
    requires tables { AreTablesFor sc.now tables.old }
    requires mean { IsMeanFor sc.now mean.old }
{
    for (cells, bound) in cases {
        if !has_bound(sc, edge, tables, mean, cells, *bound) {
            return false;
        }
    }
    true
}

// Whether the prefixes of a scenario have these bounds by tables of their own and by those that others read, too.
fn are_bounded_by(
    alloc: Global,
    sc: &Scenario,
    edge: &mut Edge,
    tables: &mut EdgeTables,
    bounds: &[Bound],
) -> Result<bool, Fail>
    requires edge { IsMadeFor sc.now edge.old }
    requires tables { AreTablesFor sc.now tables.old }
{
    let mut mean = Mean::tables(alloc, sc)?;
    Ok(have_bounds(sc, edge, tables, &mut mean, bounds))
}

// The same with tables for both.
fn are_bounded_with(
    alloc: Global,
    sc: &Scenario,
    edge: &mut Edge,
    bounds: &[Bound],
) -> Result<bool, Fail>
    requires { IsMadeFor sc.now edge.old }
{
    let mut tables = EdgeTables::tables(alloc, sc)?;
    are_bounded_by(alloc, sc, edge, &mut tables, bounds)
}

// Whether the prefixes of a scenario have these bounds.
fn are_bounded_over(alloc: Global, sc: &Scenario, bounds: &[Bound]) -> Result<bool, Fail> {
    let mut edge = Edge::tables(alloc, sc)?;
    are_bounded_with(alloc, sc, &mut edge, bounds)
}

fn are_bounded(alloc: Global, text: &str, bounds: &[Bound]) -> Result<bool, Fail> {
    asked_of(alloc, text, |alloc, sc| are_bounded_over(alloc, sc, bounds))
}

// Worked by hand.
const WAITING_BOUNDS: &[Bound] = &[
    (&[1], 6),
    (&[], 8),
    (&[2], 7),
    (&[2, 2], 7),
    (&[2, 1], 6),
    (&[0], 4),
    (&[0, 0], 0),
    (&[1], 6),
];

// The bounds of the drifting target are sums over all tracks, made by a script in another language from the definition.
const DRIFTING_BOUNDS: &[Bound] = &[
    (&[], 34176),
    (&[0], 27408),
    (&[1], 30720),
    (&[2], 23280),
    (&[0, 1], 24888),
    (&[1, 1], 26616),
    (&[2, 2], 19644),
    (&[1, 2, 1], 24396),
    (&[2, 2, 2], 12512),
];

// These are such sums, too.
const FOOTPRINT_BOUNDS: &[Bound] = &[
    (&[], 485900),
    (&[1], 388700),
    (&[2], 428500),
    (&[1, 0], 360100),
    (&[1, 1], 348180),
    (&[1, 2], 343500),
    (&[2, 1], 341500),
    (&[2, 2], 297500),
    (&[1, 0, 0], 318338),
    (&[1, 1, 0], 302486),
    (&[1, 1, 2], 253590),
    (&[2, 1, 1], 341500),
    (&[2, 1, 2], 258850),
    (&[2, 2, 2], 200000),
];

#[test]
fn prefixes_have_the_worked_bounds_after_others(rt: HostRuntime) -> Result<(), Fail> {
    assert!(rt; are_bounded(rt.alloc(), WAITING, WAITING_BOUNDS)?);
    crosses_threads::<Edge>();
    Ok(())
}

#[test]
fn a_drifting_target_has_the_worked_bounds(rt: HostRuntime) -> Result<(), Fail> {
    assert!(rt; are_bounded(rt.alloc(), DRIFTING, DRIFTING_BOUNDS)?);
    Ok(())
}

#[test]
fn looks_at_several_cells_have_the_worked_bounds(rt: HostRuntime) -> Result<(), Fail> {
    assert!(rt; are_bounded(rt.alloc(), FOOTPRINTS, FOOTPRINT_BOUNDS)?);
    Ok(())
}
