//! The rows of one period: drift and look.

ghost use Rattle.std.specs.Prelude.{◌≡◌, ◌<◌, ◌∷◌, ◌-◌, ◌==◌, ◌&&◌, ℕ, true, List, map, take};
ghost use Rattle.std.specs.List.{list_any};
ghost use Rattle.text_rows.specs.Fields.{fields_of as fields_lem};
ghost use Rattle.exact_parts.specs.Decimal.{number_at as number_at_lem};
ghost use Rattle.scenario_text.specs.State.{state_of, positions_in};
ghost use Rattle.scenario_text.specs.Sound.{IsSound};
ghost use Rattle.scenario_text.specs.Gives.{TakesLine};
ghost use Rattle.scenario_text.specs.Scanning.{HasSeen};
ghost use Rattle.scenario_text.specs.Grammar.{row_at};
ghost use Rattle.scenario_text.specs.Fields.{are_even, are_pairs, number_in as number_in_lem, cell_named as cell_named_lem};
ghost use Rattle.scenario_text.specs.ByCells.{pairs_of};

use crate::cell_names::{cell_named, positions_of};
use crate::draft::Draft;
use crate::kind::TextKind;
use crate::line::Line;
use crate::number_field::{is_bad, is_over, number_at, number_in};
use crate::pairs::{Scan, row_owner, scan_pairs, scan_some_pairs, total_of};
use crate::rows::any_above;
use crate::stop::LineStop;
use exact_parts::Number;
use period_rows::GivenChange;
use std::alloc::Global;
use text_rows::after_field;

// Whether one of the rows is of this period and this cell or position.
fn has_row_in(rows: &[GivenChange], period: u32, own: u8) -> bool
    ensures { result ≡ list_any (λ r. r.period == period && r.owner == own) rows.now }
{
    rows.iter().any(|r| r.period == period && r.owner == own)
}

fn add_drift_row(
    draft: &mut Draft,
    period: Number,
    cell: Option<u8>,
    pairs: Scan,
) -> Result<(), LineStop>
    requires { number_in_lem period < 4294967296 }
    ensures { (t name : List ℕ) (fields : List (List ℕ)) → period ≡ number_at_lem ((state_of draft.old).horizon - 1) t →
        cell ≡ cell_named_lem (state_of draft.old).names name → are_pairs fields ≡ true →
        HasSeen 1 (pairs_of (state_of draft.old).names fields) pairs →
        TakesLine draft.new result (row_at Line.DriftIn (state_of draft.old) (t ∷ name ∷ fields)) }
{
    let own = match row_owner(is_bad(period, 1), is_over(period), cell, &pairs) {
        Ok(own) => own,
        Err(kind) => return Err(LineStop::Fault(kind)),
    };
    let period = number_in(period);
    if has_row_in(&draft.drift_rows, period, own) {
        return Err(LineStop::Fault(TextKind::DoubleRow));
    }
    if total_of(&pairs.entries) != u128::from(draft.drift) {
        return Err(LineStop::Fault(TextKind::WrongSum));
    }
    draft.drift_rows.push(GivenChange {
        period,
        owner: own,
        row: pairs.entries,
    })?;
    Ok(())
}

fn take_drift_row(
    alloc: Global,
    draft: &mut Draft,
    period: &[u8],
    name: &[u8],
    text: &[u8],
) -> Result<(), LineStop>
    requires { IsSound (state_of draft.old) }
    ensures { TakesLine draft.new result (row_at Line.DriftIn (state_of draft.old)
        (period.now ∷ name.now ∷ fields_lem text.now)) }
{
    let last = draft.horizon.saturating_sub(1);
    let period = number_at(period, u128::from(last));
    let cell = cell_named(&draft.names, name);
    match scan_some_pairs(alloc, &draft.names, text)? {
        None => Err(LineStop::Fault(TextKind::BadLine)),
        Some(pairs) => add_drift_row(draft, period, cell, pairs),
    }
}

/// `driftin T NAME NAME PART NAME PART ..`: of its fields the first are given beside their text
#[tactic(auto, using(crate::proofs::EntryRows::no_row))]
pub fn take_drift_in(
    alloc: Global,
    draft: &mut Draft,
    fields: &[&[u8]],
    text: &[u8],
) -> Result<(), LineStop>
    requires sound { IsSound (state_of draft.old) }
    requires front { map (λ f. f.now) fields.now ≡ take 66 (fields_lem text.now) }
    ensures { TakesLine draft.new result (row_at Line.DriftIn (state_of draft.old) (fields_lem text.now)) }
{
    match fields {
        [period, name, ..] => {
            take_drift_row(alloc, draft, period, name, after_field(after_field(text)))
        }
        _ => Err(LineStop::Fault(TextKind::BadLine)),
    }
}

fn add_look_row(
    draft: &mut Draft,
    period: Number,
    position: Option<u8>,
    pairs: Scan,
) -> Result<(), LineStop>
    requires { number_in_lem period < 4294967296 }
    ensures { (t name : List ℕ) (fields : List (List ℕ)) → period ≡ number_at_lem (state_of draft.old).horizon t →
        position ≡ cell_named_lem (positions_in (state_of draft.old)) name → are_even fields ≡ true →
        HasSeen 0 (pairs_of (state_of draft.old).names fields) pairs →
        TakesLine draft.new result (row_at Line.LookIn (state_of draft.old) (t ∷ name ∷ fields)) }
{
    let own = match row_owner(is_bad(period, 1), is_over(period), position, &pairs) {
        Ok(own) => own,
        Err(kind) => return Err(LineStop::Fault(kind)),
    };
    let period = number_in(period);
    if has_row_in(&draft.look_rows, period, own) {
        return Err(LineStop::Fault(TextKind::DoubleRow));
    }
    if any_above(&pairs.entries, draft.look) {
        return Err(LineStop::Fault(TextKind::PartOver));
    }
    draft.look_rows.push(GivenChange {
        period,
        owner: own,
        row: pairs.entries,
    })?;
    Ok(())
}

fn take_look_row(
    alloc: Global,
    draft: &mut Draft,
    period: &[u8],
    name: &[u8],
    text: &[u8],
) -> Result<(), LineStop>
    requires { IsSound (state_of draft.old) }
    ensures { TakesLine draft.new result (row_at Line.LookIn (state_of draft.old)
        (period.now ∷ name.now ∷ fields_lem text.now)) }
{
    let period = number_at(period, u128::from(draft.horizon));
    let position = cell_named(positions_of(draft), name);
    match scan_pairs(alloc, &draft.names, text, 0)? {
        None => Err(LineStop::Fault(TextKind::BadLine)),
        Some(pairs) => add_look_row(draft, period, position, pairs),
    }
}

/// `lookin T NAME NAME PART NAME PART ..`: of its fields the first are given beside their text
#[tactic(auto, using(crate::proofs::EntryRows::no_row))]
pub fn take_look_in(
    alloc: Global,
    draft: &mut Draft,
    fields: &[&[u8]],
    text: &[u8],
) -> Result<(), LineStop>
    requires sound { IsSound (state_of draft.old) }
    requires front { map (λ f. f.now) fields.now ≡ take 66 (fields_lem text.now) }
    ensures { TakesLine draft.new result (row_at Line.LookIn (state_of draft.old) (fields_lem text.now)) }
{
    match fields {
        [period, name, ..] => {
            take_look_row(alloc, draft, period, name, after_field(after_field(text)))
        }
        _ => Err(LineStop::Fault(TextKind::BadLine)),
    }
}
