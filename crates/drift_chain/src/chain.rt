//! The rows of the drift.

ghost use Rattle.std.specs.Prelude.{◌≡◌, ◌<◌, ◌≤◌, ◌↔◌, length, map, false, IsOk, IfOk, IfErr};
ghost use Rattle.std.specs.List.{AllZip};
ghost use Rattle.std.specs.List.Sorted.{IsPermutation};
ghost use Rattle.period_rows.specs.Rows.{IsAscending};
ghost use Rattle.drift_chain.specs.DriftRows.{part_in};

use crate::changes::{ChangeFault, DriftChange, as_given, changes_over};
use crate::faults::{DriftFault, put_in_order};
use period_rows::{CellPart, GivenChange, RowChanges};
use std::alloc::{AllocError, Global};
use std::marker::Model;

/// Per period and cell, its row: the parts of the next step, in ascending order of their cells. A cell has one row for
/// all periods, and for a period that differs one of its own.
#[derive(Debug, Drop)]
pub struct Drift {
    denominator: u32,
    rows: Vec<Vec<CellPart>>,
    changes: Option<RowChanges>,
}

impl Model for Drift {
    ghost use Rattle.std.specs.Prelude.{map};
    ghost use Rattle.drift_chain.specs.DriftRows.{DriftRows, IsDrift};
    ghost use Rattle.drift_chain.specs.Changes.{drift_by};

    ghost Value = { DriftRows };

    ghost view = { λ d. drift_by d.denominator (map (λ row. row.items) d.rows.items) d.changes };

    ghost invariant = { λ d. IsDrift (drift_by d.denominator (map (λ row. row.items) d.rows.items) d.changes) };
}

impl Drift {
    ghost use Rattle.std.specs.Prelude.{Ok, Err, [], ◌⊎◌};
    ghost use Rattle.drift_chain.specs.DriftRows.{drift_cells, row_of, part_of, drift_over, drift_with, IsDrift};
    ghost use Rattle.period_rows.specs.Changes.{change_of, IsSameChange};
    ghost use Rattle.drift_chain.specs.Faults.{HasFault, IsFirstFault};
    ghost use Rattle.drift_chain.specs.ChangeFaults.{row_change, HasChangeFault, IsRefusal};
    ghost use Rattle.drift_chain.specs.declared.changes.ChangeFault.TheVariants.{NoMemory};

    /// Makes the drift whose row of cell `c` is `rows[c]`, which it puts in ascending order of cells.
    ///
    /// The error is the fault of the least row that has one, and of its faults the first in the order of
    /// the variants. Takes no memory.
    pub fn new(denominator: u32, mut rows: Vec<Vec<CellPart>>) -> Result<Drift, DriftFault>
        requires some_denominator { 1 ≤ denominator }
        requires most_denominator { denominator ≤ 1000000 }
        requires some_row { 1 ≤ length rows.items }
        requires most_rows { length rows.items ≤ 200 }
        ensures denominator { IfOk result (λ drift. drift.denominator ≡ denominator) }
        ensures made { let given = map (λ row. row.items) rows.items in IfOk result (λ drift.
            AllZip IsPermutation given drift.rows) }
        ensures plain { IfOk result (λ drift. drift.changes ≡ []) }
        ensures sound { IfOk result IsDrift }
        ensures faultless { let given = map (λ row.
            row.items) rows.items in IsOk result ↔ ((fault : DriftFault) → HasFault denominator given fault → ⊥) }
        ensures fault { let given = map (λ row. row.items) rows.items in IfErr result (IsFirstFault denominator given) }
        ensures kept { let given = drift_over denominator (map (λ row. row.items) rows.items) in IsDrift given →
            result ≡ Ok given }
    {
        put_in_order(denominator, &mut rows)?;
        Ok(Drift {
            denominator,
            rows,
            changes: None,
        })
    }

    /// The drift of rows that are right as they stand.
    pub fn of_right(denominator: u32, rows: Vec<Vec<CellPart>>) -> Drift
        requires { IsDrift (drift_over denominator (map (λ row. row.items) rows.items)) }
        ensures { result ≡ drift_over denominator (map (λ row. row.items) rows.items) }
    {
        Drift {
            denominator,
            rows,
            changes: None,
        }
    }

    /// The drift with rows for single periods, 1 to 31, each of which it puts in ascending order of cells.
    ///
    /// The error is the fault of the first change that has one, and of its faults the first in the order of the
    /// variants; or `NoMemory`.
    pub fn in_periods(self, alloc: Global, changes: Vec<DriftChange>) -> Result<Drift, ChangeFault>
        requires { self.changes ≡ [] }
        ensures base { IfOk result (λ drift. drift ≡ drift_with self drift.changes) }
        ensures made { let given = map row_change changes.items in IfOk result (λ drift.
            AllZip IsSameChange given drift.changes) }
        ensures sound { IfOk result IsDrift }
        ensures faultless { let given = map row_change changes.items in
            IsOk result → (fault : ChangeFault) → HasChangeFault self.denominator (drift_cells self) given fault → ⊥ }
        ensures fault { let given = map row_change changes.items in
            IfErr result (IsRefusal self.denominator (drift_cells self) given) }
        ensures kept { let given = drift_with self (map row_change changes.items) in
            IsDrift given → (result ≡ Ok given) ⊎ (result ≡ Err NoMemory) }
    {
        let changes = as_given(alloc, changes)?;
        self.with_rows(alloc, changes)
    }

    /// The drift with rows for single periods, 1 to 31, whose owners are cells. It puts each row in
    /// ascending order of cells.
    ///
    /// The error is the fault of the first change that has one, and of its faults the first in the order of the
    /// variants; or `NoMemory`.
    pub fn with_rows(self, alloc: Global, changes: Vec<GivenChange>) -> Result<Drift, ChangeFault>
        requires { self.changes ≡ [] }
        ensures base { IfOk result (λ drift. drift ≡ drift_with self drift.changes) }
        ensures made { let given = map change_of changes.items in IfOk result (λ drift.
            AllZip IsSameChange given drift.changes) }
        ensures sound { IfOk result IsDrift }
        ensures faultless { let given = map change_of changes.items in
            IsOk result → (fault : ChangeFault) → HasChangeFault self.denominator (drift_cells self) given fault → ⊥ }
        ensures fault { let given = map change_of changes.items in
            IfErr result (IsRefusal self.denominator (drift_cells self) given) }
        ensures kept { let given = drift_with self (map change_of changes.items) in
            IsDrift given → (result ≡ Ok given) ⊎ (result ≡ Err NoMemory) }
    {
        if changes.is_empty() {
            return Ok(self);
        }
        let Drift {
            denominator,
            rows,
            ..
        } = self;
        let changes = changes_over(alloc, denominator, rows.len() as u8, changes)?;
        Ok(Drift {
            denominator,
            rows,
            changes: Some(changes),
        })
    }

    /// The drift with rows for single periods that have no fault. The only error is that no memory was found.
    pub fn with_right_rows(
        self,
        alloc: Global,
        changes: Vec<GivenChange>,
    ) -> Result<Drift, AllocError>
        requires steady { self.changes ≡ [] }
        requires faultless { let given = map change_of changes.items in
            (fault : ChangeFault) → HasChangeFault self.denominator (drift_cells self) given fault → ⊥ }
        ensures base { IfOk result (λ drift. drift ≡ drift_with self drift.changes) }
        ensures made { let given = map change_of changes.items in IfOk result (λ drift.
            AllZip IsSameChange given drift.changes) }
        ensures sound { IfOk result IsDrift }
        ensures kept { let given = drift_with self (map change_of changes.items) in
            IsDrift given → IfOk result (λ drift. drift ≡ given) }
    {
        match self.with_rows(alloc, changes) {
            Ok(drift) => Ok(drift),
            Err(ChangeFault::NoMemory) => Err(AllocError),
            Err(_) => unreachable!(),
        }
    }

    /// What the parts of each row sum to.
    pub fn denominator(&self) -> u32
        ensures value { result ≡ self.now.denominator }
        ensures sound { IsDrift self.now }
    {
        self.denominator
    }

    /// The number of cells.
    pub fn cells(&self) -> u8
        ensures value { result ≡ drift_cells self.now }
        ensures sound { IsDrift self.now }
    {
        self.rows.len() as u8
    }

    /// Whether steps may differ from period to period.
    pub fn may_change(&self) -> bool
        ensures { result ≡ false → self.now.changes ≡ [] }
    {
        self.changes.is_some()
    }

    /// The row of cell `c` for the step after period `t`, in ascending order of cells.
    pub fn row(&self, t: u32, c: u8) -> &[CellPart]
        requires first { 1 ≤ t }
        requires last { t ≤ 31 }
        requires cell { c < drift_cells self.now }
        ensures value { result.now ≡ row_of self.now t c }
        ensures sound { IsDrift self.now }
    {
        let own: &[CellPart] = &self.rows[c as usize];
        match &self.changes {
            Some(changes) => changes.row_or(t, c, own),
            None => own,
        }
    }

    /// The part of the step from cell `c` to cell `d` after period `t`: 0 where `d` isn't in the row.
    pub fn part(&self, t: u32, c: u8, d: u8) -> u32
        requires first { 1 ≤ t }
        requires last { t ≤ 31 }
        requires from { c < drift_cells self.now }
        requires to { d < drift_cells self.now }
        ensures value { result ≡ part_of self.now t c d }
        ensures sound { IsDrift self.now }
    {
        part_in_row(self.row(t, c), d)
    }
}

// The part that an ascending row gives to cell `d`.
fn part_in_row(row: &[CellPart], d: u8) -> u32
    requires { IsAscending row.now }
    ensures { result ≡ part_in row.now d }
{
    match row.binary_search_by_key(&d, |entry| entry.cell) {
        Ok(place) => row[place].part,
        Err(_) => 0,
    }
}
