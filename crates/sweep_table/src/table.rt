//! The table of look factors.

ghost use Rattle.std.specs.Prelude.{◌≡◌, ℕ, ◌<◌, ◌≤◌, ◌↔◌, [], ◌∷◌, map, false, IfSome, IfOk, IfErr, IsOk, IsErrOf};
ghost use Rattle.std.specs.List.{AllZip};
ghost use Rattle.std.specs.List.Sorted.{IsPermutation};
ghost use Rattle.sweep_table.specs.LookParts.{IsSweep};
ghost use Rattle.sweep_table.specs.Forms.{seen, prints_seen};

use crate::changes::{LookChange, LookChangeFault, as_given, changes_over};
use crate::faults::{LookFault, MOST_CELLS, SweepFault, first_over, put_in_order};
use crate::footprints::{Footprints, factor_in_row, own_rows, row_in_force};
use crate::look::Look;
use period_rows::{CellPart, GivenChange};
use std::alloc::{AllocError, Global};
use std::marker::Model;

/// The look factors, as parts of one denominator.
#[derive(Debug, Drop)]
pub struct Sweep {
    denominator: u32,
    looks: Looks,
}

// What looks cover: each the searcher's own cell alone with that cell's part, or rows of cells.
#[derive(Debug, Drop)]
enum Looks {
    Plain(Vec<u32>),
    Footprints(Footprints),
}

impl Model for Sweep {
    ghost use Rattle.sweep_table.specs.LookParts.{LookParts};

    ghost Value = { LookParts };

    ghost use Rattle.sweep_table.specs.LookParts.{IsSweep};
    ghost use Rattle.sweep_table.specs.Forms.{seen};

    ghost view = { λ s. seen s.denominator s.looks };

    ghost invariant = { λ s. IsSweep (seen s.denominator s.looks) };
}

impl Sweep {
    ghost use Rattle.std.specs.Prelude.{Ok};
    ghost use Rattle.sweep_table.specs.LookParts.{factor_of, look_row, misses, positions_of, cells_of, parts_over, looks_over, IsLookRow};
    ghost use Rattle.period_rows.specs.Rows.{IsAscending};
    ghost use Rattle.period_rows.specs.Changes.{change_of as given_change, IsSameChange, HaveRows};
    ghost use Rattle.sweep_table.specs.Faults.{HasWrongCount, IsFirstOver, HasFault, IsFirstFault};
    ghost use Rattle.sweep_table.specs.Changes.{change_of, with_changes, HasChangeFault, IsRefusal};

    /// Makes the table of looks that each cover the searcher's own cell alone: a look there misses that cell's part,
    /// out of `denominator`.
    ///
    /// Gives the fault with the smaller number: `CellCount`, then `PartOver` at the least cell. Takes no memory.
    pub fn new(denominator: u32, overlook: Vec<u32>) -> Result<Sweep, SweepFault>
        requires some { 1 ≤ denominator }
        requires few { denominator ≤ 1000000 }
        ensures made { IfOk result (λ sweep. sweep ≡ parts_over denominator overlook.items) }
        ensures right { IsOk result ↔ IsSweep (parts_over denominator overlook.items) }
        ensures wrong_count { IsErrOf result SweepFault.CellCount ↔ HasWrongCount overlook.items }
        ensures part_over { (c : ℕ) → IsErrOf result (SweepFault.PartOver c) ↔
            IsFirstOver denominator overlook.items c }
    {
        if overlook.is_empty() || overlook.len() > MOST_CELLS {
            return Err(SweepFault::CellCount);
        }
        match first_over(denominator, &overlook) {
            Some(cell) => Err(SweepFault::PartOver(cell as u8)),
            None => Ok(Sweep {
                denominator,
                looks: Looks::Plain(overlook),
            }),
        }
    }

    /// Makes the table whose looks from position `p` cover the cells of `rows[p]`, which it puts in ascending order, and
    /// miss each cell's part out of `denominator`, and all of a target elsewhere.
    ///
    /// The error is `Count`, or else the fault of the least position that has one, and of its faults the first in the order
    /// of the variants. Takes no memory.
    pub fn footprints(
        denominator: u32,
        cells: u8,
        mut rows: Vec<Vec<CellPart>>,
    ) -> Result<Sweep, LookFault>
        requires some { 1 ≤ denominator }
        requires few { denominator ≤ 1000000 }
        ensures base { IfOk result (λ sweep. sweep ≡ looks_over denominator cells sweep.rows) }
        ensures made { let given = map (λ row. row.items) rows.items in IfOk result (λ sweep.
            AllZip IsPermutation given sweep.rows) }
        ensures sound { IfOk result IsSweep }
        ensures faultless { let given = map (λ row.
            row.items) rows.items in IsOk result ↔
            ((fault : LookFault) → HasFault denominator cells given fault → ⊥) }
        ensures fault { let given = map (λ row.
            row.items) rows.items in IfErr result (IsFirstFault denominator cells given) }
        ensures kept { let given = looks_over denominator cells (map (λ row. row.items) rows.items) in IsSweep given →
            result ≡ Ok given }
    {
        put_in_order(denominator, cells, &mut rows)?;
        Ok(Sweep {
            denominator,
            looks: Looks::Footprints(Footprints {
                cells,
                rows,
                changes: None,
            }),
        })
    }

    /// The table of looks that each cover the searcher's own cell alone, of parts that are right.
    pub fn of_right_parts(denominator: u32, overlook: Vec<u32>) -> Sweep
        requires { IsSweep (parts_over denominator overlook.items) }
        ensures { result ≡ parts_over denominator overlook.items }
    {
        Sweep {
            denominator,
            looks: Looks::Plain(overlook),
        }
    }

    /// The table of looks over so many cells, of rows that are right as they stand.
    pub fn of_right_rows(denominator: u32, cells: u8, rows: Vec<Vec<CellPart>>) -> Sweep
        requires { IsSweep (looks_over denominator cells (map (λ row. row.items) rows.items)) }
        ensures value { result ≡ looks_over denominator cells (map (λ row. row.items) rows.items) }
        ensures sound { IsSweep result }
    {
        Sweep {
            denominator,
            looks: Looks::Footprints(Footprints {
                cells,
                rows,
                changes: None,
            }),
        }
    }

    /// Gives looks other rows in single periods, which it puts in ascending order of cells.
    ///
    /// The error is the fault of the first change that has one, and of its faults the first in the order of the variants,
    /// or that memory ran out.
    pub fn in_periods(
        self,
        alloc: Global,
        changes: Vec<LookChange>,
    ) -> Result<Sweep, LookChangeFault>
        requires { self.changes ≡ [] }
        ensures base { IfOk result (λ sweep. sweep ≡ with_changes self sweep.changes) }
        ensures made { let given = map change_of changes.items in IfOk result (λ sweep.
            AllZip IsSameChange given sweep.changes) }
        ensures right { IfOk result (λ sweep. HaveRows (IsLookRow self.denominator (cells_of self)) sweep.changes) }
        ensures sound { IfOk result IsSweep }
        ensures faultless { let given = map change_of changes.items in IsOk result → (fault : LookChangeFault) →
            HasChangeFault self.denominator (cells_of self) (positions_of self) given fault → ⊥ }
        ensures refusal { let given = map change_of changes.items in IfErr result
            (IsRefusal self.denominator (cells_of self) (positions_of self) given) }
        ensures kept { let given = map change_of changes.items in HaveRows IsAscending given →
            IfOk result (λ sweep. sweep ≡ with_changes self given) }
    {
        let changes = as_given(alloc, changes)?;
        self.with_rows(alloc, changes)
    }

    /// Gives looks other rows in single periods, whose owners are positions. It puts each row in ascending order of cells.
    ///
    /// The error is the fault of the first change that has one, and of its faults the first in the order of the variants,
    /// or that memory ran out.
    pub fn with_rows(
        self,
        alloc: Global,
        changes: Vec<GivenChange>,
    ) -> Result<Sweep, LookChangeFault>
        requires { self.changes ≡ [] }
        ensures base { IfOk result (λ sweep. sweep ≡ with_changes self sweep.changes) }
        ensures made { let given = map given_change changes.items in IfOk result (λ sweep.
            AllZip IsSameChange given sweep.changes) }
        ensures right { IfOk result (λ sweep. HaveRows (IsLookRow self.denominator (cells_of self)) sweep.changes) }
        ensures sound { IfOk result IsSweep }
        ensures faultless { let given = map given_change changes.items in IsOk result → (fault : LookChangeFault) →
            HasChangeFault self.denominator (cells_of self) (positions_of self) given fault → ⊥ }
        ensures refusal { let given = map given_change changes.items in IfErr result
            (IsRefusal self.denominator (cells_of self) (positions_of self) given) }
        ensures kept { let given = map given_change changes.items in HaveRows IsAscending given →
            IfOk result (λ sweep. sweep ≡ with_changes self given) }
    {
        if changes.is_empty() {
            return Ok(self);
        }
        let Sweep { denominator, looks } = self;
        let Footprints {
            cells,
            rows,
            changes: _,
        } = as_footprints(alloc, looks)?;
        let changes = changes_over(alloc, denominator, cells, rows.len() as u8, changes)?;
        Ok(Sweep {
            denominator,
            looks: Looks::Footprints(Footprints {
                cells,
                rows,
                changes: Some(changes),
            }),
        })
    }

    /// Gives looks rows in single periods that have no fault. The only error is that memory ran out.
    pub fn with_right_rows(
        self,
        alloc: Global,
        changes: Vec<GivenChange>,
    ) -> Result<Sweep, AllocError>
        requires steady { self.changes ≡ [] }
        requires faultless { let given = map given_change changes.items in (fault : LookChangeFault) →
            HasChangeFault self.denominator (cells_of self) (positions_of self) given fault → ⊥ }
        ensures base { IfOk result (λ sweep. sweep ≡ with_changes self sweep.changes) }
        ensures made { let given = map given_change changes.items in IfOk result (λ sweep.
            AllZip IsSameChange given sweep.changes) }
        ensures ascending { IfOk result (λ sweep. HaveRows IsAscending sweep.changes) }
        ensures sound { IfOk result IsSweep }
        ensures kept { let given = map given_change changes.items in HaveRows IsAscending given →
            IfOk result (λ sweep. sweep ≡ with_changes self given) }
    {
        match self.with_rows(alloc, changes) {
            Ok(sweep) => Ok(sweep),
            Err(LookChangeFault::NoMemory) => Err(AllocError),
            Err(_) => unreachable!(),
        }
    }

    /// What the factors are parts of.
    pub fn denominator(&self) -> u32
        ensures value { result ≡ self.now.denominator }
        ensures sound { IsSweep self.now }
    {
        self.denominator
    }

    /// The number of positions to look from.
    pub fn positions(&self) -> u8
        ensures value { result ≡ positions_of self.now }
        ensures sound { IsSweep self.now }
    {
        match &self.looks {
            Looks::Plain(overlook) => overlook.len() as u8,
            Looks::Footprints(prints) => prints.rows.len() as u8,
        }
    }

    /// The number of cells that are looked at.
    pub fn cells(&self) -> u8
        ensures value { result ≡ cells_of self.now }
        ensures sound { IsSweep self.now }
    {
        match &self.looks {
            Looks::Plain(overlook) => overlook.len() as u8,
            Looks::Footprints(prints) => prints.cells,
        }
    }

    /// Whether looks may differ from period to period.
    pub fn may_change(&self) -> bool
        ensures { result ≡ false → self.now.changes ≡ [] }
    {
        match &self.looks {
            Looks::Plain(_) => false,
            Looks::Footprints(prints) => prints.changes.is_some(),
        }
    }

    /// The overlook part of position `p`, where each look from there covers the cell of the position's number alone. It
    /// spares who asks the row: `None` says nothing of what is covered.
    pub fn own_part(&self, p: u8) -> Option<u32>
        requires { p < positions_of self.now }
        ensures row { IfSome result (λ part. (t : ℕ) → look_row self.now t p ≡ misses p part ∷ []) }
    {
        match &self.looks {
            Looks::Plain(overlook) => Some(overlook[p as usize]),
            Looks::Footprints(_) => None,
        }
    }

    /// What a look from position `p` in period `t` covers: the row in force, without a copy.
    pub fn look(&self, t: u32, p: u8) -> Look<'_>
        requires first { 1 ≤ t }
        requires last { t ≤ 32 }
        requires position { p < positions_of self.now }
        ensures value { result ≡ look_row self.now t p }
        ensures sound { IsSweep self.now }
    {
        match &self.looks {
            Looks::Plain(overlook) => Look::one(CellPart {
                cell: p,
                part: overlook[p as usize],
            }),
            Looks::Footprints(prints) => Look::row(row_in_force(prints, t, p)),
        }
    }

    /// How much of a target in cell `c` a look from position `p` in period `t` misses, out of the denominator.
    pub fn factor(&self, t: u32, p: u8, c: u8) -> u32
        requires first { 1 ≤ t }
        requires last { t ≤ 32 }
        requires position { p < positions_of self.now }
        requires cell { c < cells_of self.now }
        ensures value { result ≡ factor_of self.now t p c }
        ensures sound { IsSweep self.now }
    {
        match &self.looks {
            Looks::Plain(overlook) if p == c => overlook[p as usize],
            Looks::Plain(_) => self.denominator,
            Looks::Footprints(prints) => {
                factor_in_row(self.denominator, row_in_force(prints, t, p), c)
            }
        }
    }
}

// Looks as footprints.
fn as_footprints(alloc: Global, looks: Looks) -> Result<Footprints, AllocError>
    requires { (denominator : ℕ) × IsSweep (seen denominator looks) }
    ensures { IfOk result (λ prints. (denominator : ℕ) → prints_seen denominator prints ≡ seen denominator looks) }
{
    match looks {
        Looks::Footprints(prints) => Ok(prints),
        Looks::Plain(overlook) => Ok(Footprints {
            cells: overlook.len() as u8,
            rows: own_rows(alloc, &overlook)?,
            changes: None,
        }),
    }
}
