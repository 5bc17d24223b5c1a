//! Rows of single periods, in place of the rows that hold else.

ghost use Rattle.std.specs.Prelude.{◌≡◌, ◌↔◌, List, [], ◌∷◌, ◌++◌, map, Contains, IsTrue, IsOk, IfOk, IfErr, IfSome, IfNone, OnOk, MatchBool};
ghost use Rattle.std.specs.List.{AllZip};
ghost use Rattle.std.specs.List.Sorted.{IsPermutation};
ghost use Rattle.period_rows.specs.Rows.{IsInOrder};
ghost use Rattle.period_rows.specs.Changes.{change_of, key_of, row_in_force, IsSameChange, AreChanges, HaveRows};
ghost use Rattle.period_rows.specs.Faults.{HasRowFault, IsRowRefusal, IsRightChange, IsFirstOfChange};

use crate::fault::RowFault;
use crate::part::CellPart;
use indexmap::IndexSet;
use std::alloc::{AllocError, Global};
use std::marker::Model;

/// The row of an owner in one period.
#[derive(Debug, Drop)]
pub struct GivenChange {
    pub period: u32,
    pub owner: u8,
    pub row: Vec<CellPart>,
}

/// What a row has to pass.
pub trait RowTest {
    ghost use Rattle.std.specs.Prelude.{List, MatchBool};
    ghost use Rattle.period_rows.specs.declared.part.CellPart.{CellPart};
    ghost use Rattle.period_rows.specs.Rows.{IsInOrder};

    /// What a right row is.
    ghost right: { Self → List CellPart → Type 0 };

    /// What a wrong row is.
    ghost wrong: { Self → List CellPart → Type 0 };

    /// Whether a row in order of cells is wrong.
    fn is_wrong(&self, row: &[CellPart]) -> bool
        requires { IsInOrder row.now }
        ensures { MatchBool result (wrong self.now row.now) (right self.now row.now) };
}

/// Rows of single periods, no two for one period and one owner.
#[derive(Debug, Drop)]
pub struct RowChanges {
    list: Vec<GivenChange>,
    index: IndexSet<(u32, u8)>,
}

impl Model for RowChanges {
    ghost use Rattle.std.specs.Prelude.{◌≡◌, List, map};
    ghost use Rattle.period_rows.specs.Changes.{RowChange, change_of, key_of};

    ghost Value = { List RowChange };

    ghost view = { λ c. map change_of c.list.items };

    // the index has the period and the owner of each change at its place
    ghost invariant = { λ c. c.index.keys ≡ map key_of (map change_of c.list.items) };
}

impl RowChanges {
    /// Takes changes for the periods 1 to the last one and for so many owners, each row of which it puts in order of
    /// cells.
    ///
    /// The error is the fault of the first change that has one, and of its faults the first in the order of the
    /// variants; or that no memory was found.
    pub fn new<T: RowTest>(
        alloc: Global,
        last: u32,
        owners: u8,
        test: &T,
        mut list: Vec<GivenChange>,
    ) -> Result<RowChanges, RowFault>
        requires apart { (row : List CellPart) → T.right test.now row → T.wrong test.now row → ⊥ }
        requires any_order { (xs ys : List CellPart) → IsPermutation xs ys → T.wrong test.now xs → T.wrong test.now ys }
        ensures same { let given = map change_of list.items in IfOk result (AllZip IsSameChange given) }
        ensures changes { IfOk result (AreChanges last owners) }
        ensures right { IfOk result (HaveRows (T.right test.now)) }
        ensures faultless { let given = map change_of list.items in IsOk result → (fault : RowFault) →
            HasRowFault (T.wrong test.now) last owners given fault → ⊥ }
        ensures refusal { let given = map change_of list.items in
            IfErr result (IsRowRefusal (T.wrong test.now) last owners given) }
    {
        sort_changes(&mut list);
        let index = index_of(alloc, last, owners, test, &list)?;
        Ok(RowChanges { list, index })
    }

    /// The row in force for an owner in a period: that of the change for both, or else the base row.
    // It stands out of line, so that a loop over the rows of a caller without changes stays tight.
    #[inline(never)]
    pub fn row_or<'a>(&'a self, t: u32, owner: u8, base: &'a [CellPart]) -> &'a [CellPart]
        ensures { result.now ≡ row_in_force self.now base.now t owner }
    {
        match self.index.get_index_of(&(t, owner)) {
            Some(place) => &self.list[place].row,
            None => base,
        }
    }
}

// Puts the row of each change in order of cells.
fn sort_changes(changes: &mut [GivenChange])
    ensures same { AllZip IsSameChange (map change_of changes.old) (map change_of changes.new) }
    ensures in_order { HaveRows IsInOrder (map change_of changes.new) }
{
    for change in changes.iter_mut() {
        change.row.sort_unstable_by_key(|entry| entry.cell);
    }
}

// The periods and owners of changes whose rows are in order of cells, if none has a fault.
fn index_of<T: RowTest>(
    alloc: Global,
    last: u32,
    owners: u8,
    test: &T,
    changes: &[GivenChange],
) -> Result<IndexSet<(u32, u8)>, RowFault>
    requires apart { (row : List CellPart) → T.right test.now row → T.wrong test.now row → ⊥ }
    requires in_order { HaveRows IsInOrder (map change_of changes.now) }
    ensures index { IfOk result (λ index. index.keys ≡ map key_of (map change_of changes.now)) }
    ensures changes { OnOk result (AreChanges last owners (map change_of changes.now)) }
    ensures right { OnOk result (HaveRows (T.right test.now) (map change_of changes.now)) }
    ensures refusal { IfErr result (IsRowRefusal (T.wrong test.now) last owners (map change_of changes.now)) }
{
    let mut index = IndexSet::new(alloc);
    for (i, change) in changes.iter().enumerate() {
        if let Some(fault) = change_fault(last, owners, test, &index, i, change) {
            return Err(fault);
        }
        add_key(&mut index, change)?;
    }
    Ok(index)
}

// Whether a change's period and owner are among those of an index.
fn has_key(index: &IndexSet<(u32, u8)>, change: &GivenChange) -> bool
    ensures { IsTrue result ↔ Contains index.now.keys (key_of (change_of change.now)) }
{
    index.contains(&(change.period, change.owner))
}

// Puts the period and owner of a change last, which no earlier change is for.
fn add_key(index: &mut IndexSet<(u32, u8)>, change: &GivenChange) -> Result<(), AllocError>
    requires { ¬ Contains index.old.keys (key_of (change_of change.now)) }
    ensures { OnOk result (index.new.keys ≡ index.old.keys ++ key_of (change_of change.now) ∷ []) }
{
    index.insert((change.period, change.owner))?;
    Ok(())
}

// What is wrong with the change at place `i`, whose row is in order of cells, behind those that the index has.
fn change_fault<T: RowTest>(
    last: u32,
    owners: u8,
    test: &T,
    before: &IndexSet<(u32, u8)>,
    i: usize,
    change: &GivenChange,
) -> Option<RowFault>
    requires { IsInOrder change.now.row.items }
    ensures none { IfNone result (IsRightChange (T.right test.now) last owners before.now.keys (change_of change.now)) }
    ensures some { IfSome result
        (IsFirstOfChange (T.wrong test.now) last owners before.now.keys i (change_of change.now)) }
{
    if change.period == 0 || change.period > last {
        Some(RowFault::PeriodOutOfRange(i))
    } else if change.owner >= owners {
        Some(RowFault::OwnerOutOfRange(i))
    } else if has_key(before, change) {
        Some(RowFault::DoubleChange(i))
    } else if test.is_wrong(&change.row) {
        Some(RowFault::BadRow(i))
    } else {
        None
    }
}
