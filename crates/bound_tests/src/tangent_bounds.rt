ghost use Rattle.std.specs.Prelude.{◌≡◌, ◌<◌, length, take, IsTrue};
ghost use Rattle.search_model.specs.Legal.{IsLegal, IsPath};
ghost use Rattle.mean_bound.specs.Means.{IsMadeFor as IsMeanFor};
ghost use Rattle.tangent_bound.specs.Room.{IsMadeFor, AreTablesFor};

use crate::scenarios::{WIDE_LOOKS, asked_of, crosses_threads};
use mean_bound::Mean;
use search_model::{Path, Scenario};
use std::alloc::Global;
use std::test::Fail;
use tangent_bound::{Tangent, TangentTables};
use worked_scenarios::WAITING_LONGER;

// A prefix, the reference at which it is bounded, and the bound.
type Bound = (&'static [u8], &'static [u8], u128);

// Whether a prefix and a reference are within the conditions of a bound.
fn may_be_bounded(sc: &Scenario, prefix: &Path, reference: &Path) -> bool
    ensures legal { IsTrue result → IsLegal sc.now prefix.now }
    ensures shorter { IsTrue result → length prefix.now < sc.now.horizon }
    ensures path { IsTrue result → IsPath sc.now reference.now }
    ensures begins { IsTrue result → take (length prefix.now) reference.now ≡ prefix.now }
{
    prefix.len() < sc.horizon() as usize
        && reference.len() == sc.horizon() as usize
        && sc.is_legal(prefix)
        && sc.is_legal(reference)
        && reference.first(prefix.len()).cells() == prefix.cells()
}

// Whether a prefix has this bound at a reference, where both are within its conditions: by going from the start, by what the
// mean bound keeps along it, and, as a front of the reference, by what that keeps along no prefix at all.
fn has_bound(
    sc: &Scenario,
    tangent: &mut Tangent,
    tables: &mut TangentTables,
    mean: &mut Mean,
    case: &Bound,
) -> Option<bool>
    requires tangent { IsMadeFor sc.now tangent.old }
    requires tables { AreTablesFor sc.now tables.old }
    requires mean { IsMeanFor sc.now mean.old }
    ensures tangent { IsMadeFor sc.now tangent.new }
    ensures tables { AreTablesFor sc.now tables.new }
    ensures mean { IsMeanFor sc.now mean.new }
{
    let prefix = Path::of(case.0)?;
    let reference = Path::of(case.1)?;
    let _kept = tables.rate()?;
    let _rate = tangent.rate()?;
    if !may_be_bounded(sc, &prefix, &reference) {
        return None;
    }
    let k = prefix.len() as u32;
    mean.go_to(sc, &prefix);
    let along = tables.bound_by(sc, mean.near(), mean.onward(), &prefix, &reference, k);
    let none = Path::empty();
    mean.go_to(sc, &none);
    let front = tables.bound_by(sc, mean.near(), mean.onward(), &none, &reference, k);
    let bound = tangent.bound(sc, &prefix, &reference);
    Some(along == case.2 && front == case.2 && bound == case.2)
}

// Whether prefixes have their bounds, each at its reference.
fn have_bounds(
    sc: &Scenario,
    tangent: &mut Tangent,
    tables: &mut TangentTables,
    mean: &mut Mean,
    cases: &[Bound],
) -> bool
    requires tangent { IsMadeFor sc.now tangent.old }
    requires tables { AreTablesFor sc.now tables.old }
    requires mean { IsMeanFor sc.now mean.old }
{
    for case in cases {
        if has_bound(sc, tangent, tables, mean, case) != Some(true) {
            return false;
        }
    }
    true
}

// Whether the prefixes of a scenario have these bounds by tables of their own and by those that others read, too.
fn are_bounded_by(
    alloc: Global,
    sc: &Scenario,
    tangent: &mut Tangent,
    tables: &mut TangentTables,
    bounds: &[Bound],
) -> Result<bool, Fail>
    requires tangent { IsMadeFor sc.now tangent.old }
    requires tables { AreTablesFor sc.now tables.old }
{
    let mut mean = Mean::tables(alloc, sc)?;
    Ok(have_bounds(sc, tangent, tables, &mut mean, bounds))
}

// The same with tables for both.
fn are_bounded_with(
    alloc: Global,
    sc: &Scenario,
    tangent: &mut Tangent,
    bounds: &[Bound],
) -> Result<bool, Fail>
    requires { IsMadeFor sc.now tangent.old }
{
    let mut tables = TangentTables::tables(alloc, sc)?;
    are_bounded_by(alloc, sc, tangent, &mut tables, bounds)
}

// Whether the prefixes of a scenario have these bounds.
fn are_bounded_over(alloc: Global, sc: &Scenario, bounds: &[Bound]) -> Result<bool, Fail> {
    let mut tangent = Tangent::tables(alloc, sc)?;
    are_bounded_with(alloc, sc, &mut tangent, bounds)
}

fn are_bounded(alloc: Global, text: &str, bounds: &[Bound]) -> Result<bool, Fail> {
    asked_of(alloc, text, |alloc, sc| are_bounded_over(alloc, sc, bounds))
}

// Out of twice 8. The path that waits with the target finds 7, which is 14. The reference 2, 1, 0
// looks at the target once and has the value 4, and each look at the last cell gains the other 4: twice 4, and the two such
// looks below the prefix 2, with no gain of the reference's own there.
const WAITING_BOUNDS: &[Bound] = &[(&[], &[2, 2, 2], 14), (&[2], &[2, 1, 0], 16)];

#[test]
fn a_target_that_waits_has_these_bounds(rt: HostRuntime) -> Result<(), Fail> {
    assert!(rt; are_bounded(rt.alloc(), WAITING_LONGER, WAITING_BOUNDS)?);
    crosses_threads::<Tangent>();
    Ok(())
}

// Out of twice 24. The reference 1, 1 misses 1, 8 and 6 of 24 in the cells, so its value is 9. From position 0 a look gains
// 8 + 6 in either period, from position 1 it gains 1, and in period 2 it gains 1 + 6.
const WIDE_BOUNDS: &[Bound] = &[
    (&[], &[1, 1], 18 + 28 - 8),
    (&[1], &[1, 1], 18 + 14 - 7),
    (&[0], &[0, 1], 32),
    (&[1], &[1, 0], 24),
];

#[test]
fn looks_at_two_cells_have_these_bounds(rt: HostRuntime) -> Result<(), Fail> {
    assert!(rt; are_bounded(rt.alloc(), WIDE_LOOKS, WIDE_BOUNDS)?);
    Ok(())
}
