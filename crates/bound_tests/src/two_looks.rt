ghost use Rattle.mean_bound.specs.Means.{IsMadeFor as IsMeanFor};
ghost use Rattle.edge_bound.specs.Units.{HasUnits};
ghost use Rattle.two_look_bound.specs.Rooms.{AreTablesFor};

use crate::scenarios::{FOOTPRINTS, asked_of, crosses_threads};
use edge_bound::{EdgeTables, Units};
use mean_bound::Mean;
use search_model::{Path, Scenario};
use std::alloc::Global;
use std::test::Fail;
use two_look_bound::TwoLookTables;

// A target that drifts to the cells beside its own, over five periods; looks miss 1, 2 and 3 of 4.
const DRIFTING: &str = "\
scenario 1
horizon 5
parts 6 3 4
grid 1 3
start r0c1
first r0c0 2 r0c1 3 r0c2 1
spread 1
overlook r0c0 1
overlook r0c1 2
overlook r0c2 3
end
";

// A prefix and its bound.
type Bound = (&'static [u8], u128);

// Whether a prefix may be bounded, and has this bound.
fn has_bound(
    sc: &Scenario,
    mean: &mut Mean,
    units: &Units,
    tables: &mut TwoLookTables,
    cells: &[u8],
    bound: u128,
) -> bool
    requires mean { IsMeanFor sc.now mean.old }
    requires units { HasUnits sc.now units.now }
    requires tables { AreTablesFor sc.now tables.old }
    ensures mean { IsMeanFor sc.now mean.new }
    ensures tables { AreTablesFor sc.now tables.new }
{
    match Path::of(cells) {
        Some(prefix) if sc.is_legal(&prefix) && cells.len() < sc.horizon() as usize => {
            mean.go_to(sc, &prefix);
            tables.bound(sc, mean.near(), units, mean.onward(), &prefix) == bound
        }
        _ => false,
    }
}

// Whether prefixes have their bounds, one asked after the other.
fn have_bounds(
    sc: &Scenario,
    mean: &mut Mean,
    units: &Units,
    tables: &mut TwoLookTables,
    cases: &[Bound],
) -> bool
    requires mean { IsMeanFor sc.now mean.old }
    requires units { HasUnits sc.now units.now }
    requires tables { AreTablesFor sc.now tables.old }
{
    for (cells, bound) in cases {
        if !has_bound(sc, mean, units, tables, cells, *bound) {
            return false;
        }
    }
    true
}

// The same with tables for them.
fn are_bounded_by(
    alloc: Global,
    sc: &Scenario,
    mean: &mut Mean,
    units: &Units,
    bounds: &[Bound],
) -> Result<bool, Fail>
    requires mean { IsMeanFor sc.now mean.old }
    requires units { HasUnits sc.now units.now }
{
    let mut tables = TwoLookTables::tables(alloc, sc)?;
    let bounded = have_bounds(sc, mean, units, &mut tables, bounds);
    drop(tables);
    Ok(bounded)
}

// The same with what looks find of units, as the edge bound has it.
fn are_bounded_beside(
    alloc: Global,
    sc: &Scenario,
    mean: &mut Mean,
    bounds: &[Bound],
) -> Result<bool, Fail>
    requires { IsMeanFor sc.now mean.old }
{
    let edge = EdgeTables::tables(alloc, sc)?;
    let bounded = are_bounded_by(alloc, sc, mean, edge.units(), bounds);
    drop(edge);
    bounded
}

// Whether the prefixes of a scenario have these bounds.
fn are_bounded_over(alloc: Global, sc: &Scenario, bounds: &[Bound]) -> Result<bool, Fail> {
    let mut mean = Mean::tables(alloc, sc)?;
    let bounded = are_bounded_beside(alloc, sc, &mut mean, bounds);
    drop(mean);
    bounded
}

// Sums over all tracks, made by a script in another language from the definition. Each is less than the edge bound of the
// prefix; of the last two looks nothing is forgotten.
const FOOTPRINT_BOUNDS: &[Bound] = &[
    (&[], 428500),
    (&[1], 360100),
    (&[2], 341500),
    (&[1, 2], 343500),
    (&[2, 1], 341500),
    (&[1, 1], 348180),
    (&[], 428500),
];

// By the same script.
const DRIFTING_BOUNDS: &[Bound] = &[
    (&[], 423168),
    (&[2], 319512),
    (&[1], 388608),
    (&[1, 2], 331320),
    (&[2, 1], 310404),
    (&[0, 1], 332664),
];

#[test]
fn prefixes_have_the_worked_bounds_of_two_looks(rt: HostRuntime) -> Result<(), Fail> {
    for (text, bounds) in [(FOOTPRINTS, FOOTPRINT_BOUNDS), (DRIFTING, DRIFTING_BOUNDS)] {
        assert!(rt;
            asked_of(
                rt.alloc(),
                text,
                |alloc, sc| are_bounded_over(alloc, sc, bounds),
            )?
        );
    }
    crosses_threads::<TwoLookTables>();
    Ok(())
}
