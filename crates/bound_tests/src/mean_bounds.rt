ghost use Rattle.mean_bound.specs.Means.{IsMadeFor};

use crate::scenarios::{WIDE_LOOKS, asked_of, crosses_threads};
use mean_bound::Mean;
use search_model::{Path, Scenario};
use std::alloc::Global;
use std::test::Fail;

// A prefix, its bound, and the path of the greatest sum that it begins.
type Bound = (&'static [u8], u128, &'static [u8]);

// A prefix and its value.
type Value = (&'static [u8], u128);

// Whether a prefix may be bounded, and has this bound and this path of the greatest sum.
fn has_bound(sc: &Scenario, mean: &mut Mean, cells: &[u8], bound: u128, reference: &[u8]) -> bool
    requires { IsMadeFor sc.now mean.old }
    ensures { IsMadeFor sc.now mean.new }
{
    match Path::of(cells) {
        Some(mut prefix) if sc.is_legal(&prefix) && cells.len() < sc.horizon() as usize => {
            let is = mean.bound(sc, &prefix);
            mean.reference(sc, &mut prefix);
            is == bound && prefix.cells() == reference
        }
        _ => false,
    }
}

// Whether a prefix is legal and has this value.
fn has_value(sc: &Scenario, mean: &mut Mean, cells: &[u8], value: u128) -> bool
    requires { IsMadeFor sc.now mean.old }
    ensures { IsMadeFor sc.now mean.new }
{
    match Path::of(cells) {
        Some(prefix) if sc.is_legal(&prefix) => mean.value(sc, &prefix) == value,
        _ => false,
    }
}

// Whether prefixes have their bounds and references, one asked after the other.
fn have_bounds(sc: &Scenario, mean: &mut Mean, cases: &[Bound]) -> bool
    requires { IsMadeFor sc.now mean.old }
    ensures { IsMadeFor sc.now mean.new }
{
    for (cells, bound, reference) in cases {
        if !has_bound(sc, mean, cells, *bound, reference) {
            return false;
        }
    }
    true
}

// Whether prefixes have their values, one asked after the other.
fn have_values(sc: &Scenario, mean: &mut Mean, cases: &[Value]) -> bool
    requires { IsMadeFor sc.now mean.old }
    ensures { IsMadeFor sc.now mean.new }
{
    for (cells, value) in cases {
        if !has_value(sc, mean, cells, *value) {
            return false;
        }
    }
    true
}

// Whether the prefixes of a scenario have these bounds, then these values, and then the first bound again.
fn are_bounded_over(
    alloc: Global,
    sc: &Scenario,
    bounds: &[Bound],
    values: &[Value],
) -> Result<bool, Fail> {
    let mut mean = Mean::tables(alloc, sc)?;
    let first = have_bounds(sc, &mut mean, bounds);
    let valued = have_values(sc, &mut mean, values);
    Ok(first && valued && have_bounds(sc, &mut mean, bounds))
}

fn are_bounded(
    alloc: Global,
    text: &str,
    bounds: &[Bound],
    values: &[Value],
) -> Result<bool, Fail> {
    asked_of(
        alloc,
        text,
        |alloc, sc| are_bounded_over(alloc, sc, bounds, values),
    )
}

// In parts of 24. A first look from position 0 finds half of 5 of 6, which is 10. A second one then finds 5 from either
// position. A first look from position 1 finds 2 alone, and then the one from position 0 still finds 10.
const WIDE_BOUNDS: &[Bound] = &[(&[], 20, &[0, 0]), (&[0], 15, &[0, 0]), (&[1], 12, &[1, 0])];

const WIDE_VALUES: &[Value] = &[(&[1, 1], 9)];

#[test]
fn looks_at_two_cells_have_the_worked_bounds(rt: HostRuntime) -> Result<(), Fail> {
    assert!(rt; are_bounded(rt.alloc(), WIDE_LOOKS, WIDE_BOUNDS, WIDE_VALUES)?);
    crosses_threads::<Mean>();
    Ok(())
}
