ghost use Rattle.exchange_bound.specs.Exchanges.{IsMadeFor};
ghost use Rattle.mean_bound.specs.Means.{IsMadeFor as IsMeanFor};

use crate::scenarios::{FOOTPRINTS, asked_of, crosses_threads};
use exchange_bound::ExchangeTables;
use mean_bound::Mean;
use search_model::{Path, Scenario};
use std::alloc::Global;
use std::test::Fail;

// A prefix, another one, the exchange bound of the one over the other, and the value of the other.
type Exchanged = (&'static [u8], &'static [u8], u128, u128);

// Whether a prefix has this exchange bound over another as long, and the other has this value.
fn is_exchanged(
    sc: &Scenario,
    mean: &mut Mean,
    tables: &mut ExchangeTables,
    prefix: &Path,
    other: &Path,
    bound: u128,
    value: u128,
) -> bool
    requires mean { IsMeanFor sc.now mean.old }
    requires tables { IsMadeFor sc.now tables.old }
    ensures mean { IsMeanFor sc.now mean.new }
    ensures tables { IsMadeFor sc.now tables.new }
{
    if !sc.is_legal(prefix) || !sc.is_legal(other) || prefix.len() != other.len() {
        return false;
    }
    if prefix.len() >= sc.horizon() as usize {
        return false;
    }
    mean.go_to(sc, prefix);
    let is = tables.bound(sc, mean, prefix, other);
    is == bound && mean.value(sc, other) == value
}

// Whether prefixes have their exchange bounds, one asked after the other.
fn have_bounds(
    sc: &Scenario,
    mean: &mut Mean,
    tables: &mut ExchangeTables,
    cases: &[Exchanged],
) -> bool
    requires mean { IsMeanFor sc.now mean.old }
    requires tables { IsMadeFor sc.now tables.old }
    ensures mean { IsMeanFor sc.now mean.new }
    ensures tables { IsMadeFor sc.now tables.new }
{
    for (cells, others, bound, value) in cases {
        let right = match (Path::of(cells), Path::of(others)) {
            (Some(prefix), Some(other)) => {
                is_exchanged(sc, mean, tables, &prefix, &other, *bound, *value)
            }
            _ => false,
        };
        if !right {
            return false;
        }
    }
    true
}

// A prefix, and what stands in for it best: its position, its value, and the exchange bound of the prefix.
type Replaced = (&'static [u8], Option<(u8, u128, u128)>);

// Whether this stands in best for a prefix, or nothing does.
fn is_replaced(
    sc: &Scenario,
    mean: &mut Mean,
    tables: &mut ExchangeTables,
    prefix: &Path,
    by: &Option<(u8, u128, u128)>,
) -> bool
    requires mean { IsMeanFor sc.now mean.old }
    requires tables { IsMadeFor sc.now tables.old }
    ensures mean { IsMeanFor sc.now mean.new }
    ensures tables { IsMadeFor sc.now tables.new }
{
    if sc.horizon() < 4 || prefix.len() < 2 || prefix.len() >= sc.horizon() as usize {
        return false;
    }
    if !sc.is_legal(prefix) {
        return false;
    }
    mean.go_to(sc, prefix);
    match (tables.best_stand_in(sc, mean, prefix), by) {
        (None, None) => true,
        (Some(is), Some((position, value, bound))) => {
            is.position == *position && is.value == *value && is.bound == *bound
        }
        _ => false,
    }
}

// Whether prefixes have their best stand-ins, one asked after the other.
fn have_stand_ins(
    sc: &Scenario,
    mean: &mut Mean,
    tables: &mut ExchangeTables,
    cases: &[Replaced],
) -> bool
    requires mean { IsMeanFor sc.now mean.old }
    requires tables { IsMadeFor sc.now tables.old }
{
    for (cells, by) in cases {
        let right = match Path::of(cells) {
            Some(prefix) => is_replaced(sc, mean, tables, &prefix, by),
            None => false,
        };
        if !right {
            return false;
        }
    }
    true
}

fn are_bounded_by(
    alloc: Global,
    sc: &Scenario,
    mean: &mut Mean,
    bounds: &[Exchanged],
    replaced: &[Replaced],
) -> Result<bool, Fail>
    requires { IsMeanFor sc.now mean.old }
{
    let mut tables = ExchangeTables::tables(alloc, sc)?;
    let bounded = have_bounds(sc, mean, &mut tables, bounds);
    Ok(bounded && have_stand_ins(sc, mean, &mut tables, replaced))
}

// Whether the prefixes of a scenario have these exchange bounds, and these best stand-ins.
fn are_bounded_over(
    alloc: Global,
    sc: &Scenario,
    bounds: &[Exchanged],
    replaced: &[Replaced],
) -> Result<bool, Fail> {
    let mut mean = Mean::tables(alloc, sc)?;
    are_bounded_by(alloc, sc, &mut mean, bounds, replaced)
}

fn are_bounded(
    alloc: Global,
    text: &str,
    bounds: &[Exchanged],
    replaced: &[Replaced],
) -> Result<bool, Fail> {
    asked_of(
        alloc,
        text,
        |alloc, sc| are_bounded_over(alloc, sc, bounds, replaced),
    )
}

// Sums over all tracks, made by a script in another language from the definitions. Some of the others rule the prefix out,
// and some have no less of the target in any cell, so that nothing is left to find of a lead.
const FOOTPRINT_EXCHANGES: &[Exchanged] = &[
    (&[1, 1], &[2, 1], 246200, 220000),
    (&[2, 2], &[1, 2], 178000, 224000),
    (&[1, 2], &[2, 2], 224000, 80000),
    (&[1, 2, 1], &[1, 0, 1], 321100, 337700),
    (&[2, 1, 1], &[1, 1, 1], 316700, 321900),
    (&[1, 1, 2], &[2, 1, 2], 217420, 220000),
    (&[1, 1], &[2, 1], 246200, 220000),
];

// By the same script. Two stand in for the third prefix.
const FOOTPRINT_STAND_INS: &[Replaced] = &[
    (&[2, 2], Some((1, 224000, 178000))),
    (&[1, 0], None),
    (&[1, 2, 1], Some((0, 337700, 321100))),
    (&[2, 1, 1], None),
    (&[2, 2, 2], Some((1, 220000, 167000))),
    (&[1, 1, 2], Some((2, 224000, 218220))),
];

#[test]
fn prefixes_have_the_worked_exchange_bounds(rt: HostRuntime) -> Result<(), Fail> {
    assert!(rt;
        are_bounded(
            rt.alloc(),
            FOOTPRINTS,
            FOOTPRINT_EXCHANGES,
            FOOTPRINT_STAND_INS
        )?
    );
    crosses_threads::<ExchangeTables>();
    Ok(())
}
