//! The drift that a draft says.

ghost use Rattle.std.specs.Prelude.{[], ◌≡◌, ◌≤◌, map, length, IfOk};
ghost use Rattle.drift_chain.specs.declared.faults.DriftFault.{DriftFault};
ghost use Rattle.drift_chain.specs.declared.changes.ChangeFault.{ChangeFault as ChangeFaultLem};
ghost use Rattle.drift_chain.specs.DriftRows.{IsDrift};
ghost use Rattle.std.specs.List.{AllZip};
ghost use Rattle.std.specs.List.Sorted.{IsPermutation};
ghost use Rattle.drift_chain.specs.Faults.{HasFault};
ghost use Rattle.period_rows.specs.Changes.{IsSameChange};
ghost use Rattle.drift_chain.specs.ChangeFaults.{HasChangeFault};
ghost use Rattle.scenario_text.specs.State.{period_row_of};
ghost use Rattle.scenario_text.specs.Scenarios.{drift_change_of};

use drift_chain::{Drift, DriftPart};
use period_rows::GivenChange;
use std::alloc::{AllocError, Global};

// The drift of these rows in every period.
fn base_drift(denominator: u32, rows: Vec<Vec<DriftPart>>) -> Drift
    requires some_denominator { 1 ≤ denominator }
    requires most_denominator { denominator ≤ 1000000 }
    requires some_row { 1 ≤ length rows.items }
    requires most_rows { length rows.items ≤ 200 }
    requires faultless { (fault : DriftFault) → HasFault denominator (map (λ row. row.items) rows.items) fault → ⊥ }
    ensures denominator { result.denominator ≡ denominator }
    ensures made { AllZip IsPermutation (map (λ row. row.items) rows.items) result.rows }
    ensures steady { result.changes ≡ [] }
    ensures sound { IsDrift result }
{
    match Drift::new(denominator, rows) {
        Ok(drift) => drift,
        Err(_) => unreachable!(),
    }
}

/// The drift of these rows in every period, but for those of single periods.
pub fn drift_of(
    alloc: Global,
    denominator: u32,
    rows: Vec<Vec<DriftPart>>,
    later: Vec<GivenChange>,
) -> Result<Drift, AllocError>
    requires some_denominator { 1 ≤ denominator }
    requires most_denominator { denominator ≤ 1000000 }
    requires some_row { 1 ≤ length rows.items }
    requires most_rows { length rows.items ≤ 200 }
    requires faultless { (fault : DriftFault) → HasFault denominator (map (λ row. row.items) rows.items) fault → ⊥ }
    requires changes { (fault : ChangeFaultLem) → HasChangeFault denominator (length rows.items)
        (map drift_change_of (map period_row_of later.items)) fault → ⊥ }
    ensures denominator { IfOk result (λ drift. drift.denominator ≡ denominator) }
    ensures made { IfOk result (λ drift. AllZip IsPermutation (map (λ row. row.items) rows.items) drift.rows) }
    ensures changes { IfOk result (λ drift.
        AllZip IsSameChange (map drift_change_of (map period_row_of later.items)) drift.changes) }
    ensures sound { IfOk result IsDrift }
{
    base_drift(denominator, rows).with_right_rows(alloc, later)
}
