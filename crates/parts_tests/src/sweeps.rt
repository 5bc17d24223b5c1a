ghost use Rattle.std.specs.Prelude.{◌≡◌, [], IfOk};

use crate::tables::{Entries, Told, is_made, row_of, rows_of};
use crate::threads::crosses_threads;
use std::alloc::{AllocError, Global};
use std::test::Fail;
use sweep_table::{LookChange, LookChangeFault, LookFault, LookPart, Sweep, SweepFault};

// What is made of rows over a denominator of 2.
fn halves(
    alloc: Global,
    cells: u8,
    lists: &[Entries],
) -> Result<Result<Sweep, LookFault>, AllocError>
    ensures { IfOk result (λ made. IfOk made (λ sweep. sweep.changes ≡ [])) }
{
    Ok(Sweep::footprints(2, cells, rows_of(alloc, lists)?))
}

fn change_of(alloc: Global, told: &Told) -> Result<LookChange, AllocError> {
    let (period, position, entries) = *told;
    Ok(LookChange {
        period,
        position,
        row: row_of(alloc, entries)?,
    })
}

fn changes_of(alloc: Global, told: &[Told]) -> Result<Vec<LookChange>, AllocError> {
    told.iter()
        .map(|change| change_of(alloc, change))
        .try_collect(alloc)
}

// Two positions over two cells, the first covering both and the second none.
fn one_covers_both(alloc: Global) -> Result<Sweep, Fail>
    ensures { IfOk result (λ sweep. sweep.changes ≡ []) }
{
    match halves(alloc, 2, &[&[(0, 1), (1, 1)], &[]])? {
        Ok(sweep) => Ok(sweep),
        Err(_) => Err(Fail::from("no sweep")),
    }
}

// What is made of looks with these changes.
fn with_changes(
    alloc: Global,
    sweep: Sweep,
    told: &[Told],
) -> Result<Result<Sweep, LookChangeFault>, Fail>
    requires { sweep.changes ≡ [] }
{
    match changes_of(alloc, told) {
        Ok(changes) => Ok(sweep.in_periods(alloc, changes)),
        Err(refused) => {
            drop(sweep);
            Err(Fail::from(refused))
        }
    }
}

// What is made of these two positions with changes.
fn changed(alloc: Global, told: &[Told]) -> Result<Result<Sweep, LookChangeFault>, Fail> {
    with_changes(alloc, one_covers_both(alloc)?, told)
}

// What is made of looks at the cells of these parts, out of 2.
fn looks_of(alloc: Global, parts: &[u32]) -> Result<Result<Sweep, SweepFault>, AllocError>
    ensures { IfOk result (λ made. IfOk made (λ sweep. sweep.changes ≡ [])) }
{
    Ok(Sweep::new(2, Vec::from_slice(alloc, parts)?))
}

fn looks_at_its_own_cells(sweep: &Sweep) -> bool {
    sweep.denominator() == 2
        && sweep.positions() == 3
        && sweep.cells() == 3
        && sweep.factor(1, 0, 0) == 1
        && sweep.factor(32, 1, 1) == 2
        && sweep.factor(1, 0, 1) == 2
        && sweep.look(1, 2).parts() == [LookPart { cell: 2, part: 1 }].as_slice()
}

#[test]
fn a_part_may_be_the_whole_denominator(rt: HostRuntime) -> Result<(), Fail> {
    let made = looks_of(rt.alloc(), &[1, 2, 1])?;
    assert!(rt; is_made(made, looks_at_its_own_cells));
    crosses_threads::<Sweep>();
    Ok(())
}

#[test]
fn the_least_cell_over_is_named(rt: HostRuntime) -> Result<(), Fail> {
    let made = looks_of(rt.alloc(), &[2, 3, 4])?;
    assert_eq!(rt; made.err(), Some(SweepFault::PartOver(1)));
    Ok(())
}

// The one rate of looks at cells of these parts.
fn one_rate_of(alloc: Global, parts: &[u32]) -> Result<Option<u32>, Fail> {
    match looks_of(alloc, parts)? {
        Ok(sweep) => {
            let rate = sweep.one_rate(1);
            drop(sweep);
            Ok(rate)
        }
        Err(_) => Err(Fail::from("no sweep")),
    }
}

const RATES: [(&[u32], Option<u32>); 3] = [
    (&[1, 2, 1], Some(1)),
    (&[0, 1, 1], None),
    (&[2, 2, 2], Some(2)),
];

#[test]
fn one_rate_is_the_least_part_or_none(rt: HostRuntime) -> Result<(), Fail> {
    for (parts, rate) in RATES {
        assert_eq!(rt; one_rate_of(rt.alloc(), parts)?, rate);
    }
    Ok(())
}

fn fault_of_rows(
    alloc: Global,
    cells: u8,
    lists: &[Entries],
) -> Result<Option<LookFault>, AllocError> {
    Ok(halves(alloc, cells, lists)?.err())
}

const ROWS: [(u8, &[Entries], LookFault); 7] = [
    (2, &[], LookFault::Count),
    (0, &[&[(0, 3)]], LookFault::Count),
    (201, &[&[(0, 3)]], LookFault::Count),
    (2, &[&[(0, 1)], &[(2, 3), (2, 3)]], LookFault::OutOfRange(1)),
    (
        2,
        &[&[(1, 3), (1, 0)], &[(2, 0)]],
        LookFault::DoubleEntry(0),
    ),
    (2, &[&[(1, 2)], &[], &[(0, 3)]], LookFault::PartOver(2)),
    (1, &[&[(0, 3)], &[(1, 0)]], LookFault::PartOver(0)),
];

// Count goes before all else, then the least position with a fault, and of its faults the first.
#[test]
fn faults_have_their_order(rt: HostRuntime) -> Result<(), Fail> {
    for (cells, lists, fault) in ROWS {
        assert_eq!(rt; fault_of_rows(rt.alloc(), cells, lists)?, Some(fault));
    }
    Ok(())
}

fn looks_at_the_same_cells(sweep: &Sweep) -> bool {
    let parts = [LookPart { cell: 1, part: 0 }, LookPart { cell: 3, part: 1 }];
    sweep.positions() == 3
        && sweep.cells() == 4
        && sweep.factor(1, 0, 1) == 0
        && sweep.factor(32, 1, 3) == 1
        && sweep.factor(1, 1, 0) == 2
        && sweep.factor(1, 2, 2) == 2
        && sweep.look(1, 0).parts() == parts.as_slice()
        && sweep.look(32, 2).parts().is_empty()
        && sweep.one_rate(1).is_none()
}

// Two positions cover the same cells, and a third covers none.
#[test]
fn positions_need_not_be_cells(rt: HostRuntime) -> Result<(), Fail> {
    let made = halves(rt.alloc(), 4, &[&[(3, 1), (1, 0)], &[(1, 0), (3, 1)], &[]])?;
    assert!(rt; is_made(made, looks_at_the_same_cells));
    Ok(())
}

// A row in force: its period, its position and its entries.
const IN_FORCE: [(u32, u8, &[LookPart]); 5] = [
    (
        1,
        0,
        &[LookPart { cell: 0, part: 1 }, LookPart { cell: 1, part: 1 }],
    ),
    (
        1,
        1,
        &[LookPart { cell: 0, part: 2 }, LookPart { cell: 1, part: 1 }],
    ),
    (2, 1, &[]),
    (
        31,
        0,
        &[LookPart { cell: 0, part: 1 }, LookPart { cell: 1, part: 1 }],
    ),
    (32, 0, &[LookPart { cell: 1, part: 0 }]),
];

fn are_in_force(sweep: &Sweep, rows: &[(u32, u8, &[LookPart])]) -> bool {
    for (period, position, row) in rows {
        if *period < 1 || *period > 32 || *position >= sweep.positions() {
            return false;
        }
        if sweep.look(*period, *position).parts() != *row {
            return false;
        }
    }
    true
}

fn changes_in_single_periods(sweep: &Sweep) -> bool {
    are_in_force(sweep, &IN_FORCE) && sweep.one_rate(31) == Some(1) && sweep.one_rate(32).is_none()
}

// A change holds in its period alone, the first and the last included, and one rate is that of the rows in force.
#[test]
fn looks_change_in_single_periods(rt: HostRuntime) -> Result<(), Fail> {
    let made = changed(rt.alloc(), &[(32, 0, &[(1, 0)]), (1, 1, &[(1, 1), (0, 2)])])?;
    assert!(rt; is_made(made, changes_in_single_periods));
    Ok(())
}

fn fault_of_changes(alloc: Global, told: &[Told]) -> Result<Option<LookChangeFault>, Fail> {
    Ok(changed(alloc, told)?.err())
}

const CHANGES: [(&[Told], LookChangeFault); 7] = [
    (
        &[(1, 1, &[]), (0, 2, &[(2, 0)])],
        LookChangeFault::PeriodOutOfRange(1),
    ),
    (&[(33, 0, &[])], LookChangeFault::PeriodOutOfRange(0)),
    (
        &[(32, 2, &[(0, 3)]), (0, 0, &[])],
        LookChangeFault::PositionOutOfRange(0),
    ),
    (
        &[(1, 0, &[]), (2, 0, &[]), (1, 0, &[(2, 0)])],
        LookChangeFault::DoubleChange(2),
    ),
    (&[(1, 0, &[(2, 0)])], LookChangeFault::BadRow(0)),
    (
        &[(1, 0, &[]), (1, 1, &[(1, 0), (1, 0)])],
        LookChangeFault::BadRow(1),
    ),
    (&[(1, 0, &[(1, 3)])], LookChangeFault::BadRow(0)),
];

// The first change with a fault is named, and of its faults the first.
#[test]
fn faults_of_changes_have_their_order(rt: HostRuntime) -> Result<(), Fail> {
    for (lists, fault) in CHANGES {
        assert_eq!(rt; fault_of_changes(rt.alloc(), lists)?, Some(fault));
    }
    Ok(())
}

fn changes_in_the_second_period(sweep: &Sweep) -> bool {
    sweep.positions() == 2
        && sweep.cells() == 2
        && sweep.factor(1, 0, 0) == 1
        && sweep.factor(2, 0, 0) == 2
        && sweep.factor(2, 0, 1) == 0
        && sweep.factor(3, 1, 1) == 2
}

// What is made of a plain sweep with a change.
fn plain_changed(alloc: Global) -> Result<Result<Sweep, LookChangeFault>, Fail> {
    match looks_of(alloc, &[1, 2])? {
        Ok(plain) => with_changes(alloc, plain, &[(2, 0, &[(1, 0)])]),
        Err(_) => Err(Fail::from("no sweep")),
    }
}

#[test]
fn a_plain_sweep_may_change(rt: HostRuntime) -> Result<(), Fail> {
    let made = plain_changed(rt.alloc())?;
    assert!(rt; is_made(made, changes_in_the_second_period));
    Ok(())
}
