ghost use Rattle.std.specs.Prelude.{◌≡◌, ◌≤◌, [], IfOk};

use crate::tables::{Entries, Told, is_made, row_of, rows_of};
use crate::threads::crosses_threads;
use drift_chain::{ChangeFault, Drift, DriftChange, DriftFault, DriftPart};
use std::alloc::{AllocError, Global};
use std::test::Fail;

// What is made of so many rows as a drift may have.
fn drift_of(
    alloc: Global,
    denominator: u32,
    lists: &[Entries],
) -> Result<Result<Drift, DriftFault>, Fail>
    requires { (1 ≤ denominator) × (denominator ≤ 1000000) }
    ensures { IfOk result (λ made. IfOk made (λ drift. drift.changes ≡ [])) }
{
    let rows = rows_of(alloc, lists)?;
    if rows.is_empty() || rows.len() > 200 {
        drop(rows);
        return Err(Fail::from("no drift of so many cells"));
    }
    Ok(Drift::new(denominator, rows))
}

fn has_entries_in_order(drift: &Drift) -> bool {
    let entries = [
        DriftPart { cell: 0, part: 2 },
        DriftPart { cell: 1, part: 1 },
    ];
    drift.denominator() == 3
        && drift.cells() == 2
        && drift.row(1, 0) == entries.as_slice()
        && drift.part(31, 0, 1) == 1
        && drift.part(31, 1, 0) == 0
}

#[test]
fn entries_come_in_ascending_order(rt: HostRuntime) -> Result<(), Fail> {
    let made = drift_of(rt.alloc(), 3, &[&[(1, 1), (0, 2)], &[(1, 3)]])?;
    assert!(rt; is_made(made, has_entries_in_order));
    crosses_threads::<Drift>();
    Ok(())
}

fn fault_of_rows(alloc: Global, lists: &[Entries]) -> Result<Option<DriftFault>, Fail> {
    Ok(drift_of(alloc, 2, lists)?.err())
}

const ROWS: [(&[Entries], DriftFault); 6] = [
    (&[&[(0, 1)]], DriftFault::WrongSum(0)),
    (&[&[]], DriftFault::WrongSum(0)),
    (
        &[&[(0, u32::MAX), (1, 3)], &[(0, 2)]],
        DriftFault::WrongSum(0),
    ),
    (
        &[&[(0, 2)], &[(2, 0), (2, 1)], &[(9, 1)]],
        DriftFault::ZeroPart(1),
    ),
    (&[&[(0, 1), (0, 1)]], DriftFault::DoubleEntry(0)),
    (&[&[(1, 0)]], DriftFault::OutOfRange(0)),
];

// The least row that has a fault is named, and of its faults the first; the sum of a row may exceed 32 bits.
#[test]
fn faults_have_their_order(rt: HostRuntime) -> Result<(), Fail> {
    for (lists, fault) in ROWS {
        assert_eq!(rt; fault_of_rows(rt.alloc(), lists)?, Some(fault));
    }
    Ok(())
}

fn change_of(alloc: Global, told: &Told) -> Result<DriftChange, AllocError> {
    let (period, cell, entries) = *told;
    Ok(DriftChange {
        period,
        cell,
        row: row_of(alloc, entries)?,
    })
}

fn changes_of(alloc: Global, told: &[Told]) -> Result<Vec<DriftChange>, AllocError> {
    told.iter()
        .map(|change| change_of(alloc, change))
        .try_collect(alloc)
}

// What is made of a drift with these changes.
fn with_changes(
    alloc: Global,
    drift: Drift,
    told: &[Told],
) -> Result<Result<Drift, ChangeFault>, Fail>
    requires { drift.changes ≡ [] }
{
    match changes_of(alloc, told) {
        Ok(changes) => Ok(drift.in_periods(alloc, changes)),
        Err(refused) => {
            drop(drift);
            Err(Fail::from(refused))
        }
    }
}

// What is made of these changes of a drift over two cells, each of which keeps the target.
fn changed(alloc: Global, told: &[Told]) -> Result<Result<Drift, ChangeFault>, Fail> {
    match drift_of(alloc, 2, &[&[(0, 2)], &[(1, 2)]])? {
        Ok(drift) => with_changes(alloc, drift, told),
        Err(_) => Err(Fail::from("no drift")),
    }
}

fn has_changes_in_their_periods(drift: &Drift) -> bool {
    let even = [
        DriftPart { cell: 0, part: 1 },
        DriftPart { cell: 1, part: 1 },
    ];
    drift.cells() == 2
        && drift.row(2, 0) == even.as_slice()
        && drift.row(1, 1) == even.as_slice()
        && drift.part(1, 0, 0) == 2
        && drift.part(3, 0, 0) == 2
        && drift.part(30, 1, 0) == 0
        && drift.part(31, 1, 0) == 2
}

const TOLD: [Told; 3] = [
    (2, 0, &[(1, 1), (0, 1)]),
    (31, 1, &[(0, 2)]),
    (1, 1, &[(0, 1), (1, 1)]),
];

#[test]
fn changes_are_of_their_period_and_cell(rt: HostRuntime) -> Result<(), Fail> {
    let made = changed(rt.alloc(), &TOLD)?;
    assert!(rt; is_made(made, has_changes_in_their_periods));
    Ok(())
}

const CHANGES: [(&[Told], Option<ChangeFault>); 8] = [
    (&[], None),
    (&[(31, 0, &[(0, 2)]), (1, 0, &[(1, 2)])], None),
    (&[(0, 0, &[(0, 2)])], Some(ChangeFault::PeriodOutOfRange(0))),
    (&[(32, 2, &[])], Some(ChangeFault::PeriodOutOfRange(0))),
    (
        &[(1, 0, &[(0, 2)]), (1, 2, &[])],
        Some(ChangeFault::CellOutOfRange(1)),
    ),
    (
        &[(1, 0, &[(0, 2)]), (1, 0, &[])],
        Some(ChangeFault::DoubleChange(1)),
    ),
    (
        &[(1, 0, &[(0, 1), (0, 1)]), (0, 0, &[])],
        Some(ChangeFault::BadRow(0)),
    ),
    (
        &[(1, 0, &[(0, 2)]), (1, 1, &[(2, 2)])],
        Some(ChangeFault::BadRow(1)),
    ),
];

fn fault_of_changes(alloc: Global, told: &[Told]) -> Result<Option<ChangeFault>, Fail> {
    Ok(changed(alloc, told)?.err())
}

// The least place that has a fault is named, and of its faults the first.
#[test]
fn faults_of_changes_have_their_order(rt: HostRuntime) -> Result<(), Fail> {
    for (told, fault) in CHANGES {
        assert_eq!(rt; fault_of_changes(rt.alloc(), told)?, fault);
    }
    Ok(())
}
