//! The rows of single cells and positions: moves, drift, overlook part and look.

ghost use Rattle.std.specs.Prelude.{◌≡◌, ◌∷◌, [], ◌<◌, ◌≤◌, ℕ, true, nat_lt, length, List, Some, map, take, slice_set, vec_len, IfSome};
ghost use Rattle.std.specs.List.{list_any};
ghost use Rattle.std.specs.Option.{option_map};
ghost use Rattle.scenario_text.specs.declared.draft.TextVersion.{TextVersion};
ghost use Rattle.text_rows.specs.Fields.{fields_of as fields_lem};
ghost use Rattle.scenario_text.specs.State.{state_of, positions_in};
ghost use Rattle.scenario_text.specs.Sound.{IsSound};
ghost use Rattle.scenario_text.specs.Gives.{TakesLine};
ghost use Rattle.scenario_text.specs.Scanning.{HasSeen};
ghost use Rattle.scenario_text.specs.Grammar.{row_at};
ghost use Rattle.scenario_text.specs.Fields.{are_even, are_pairs, cell_named as cell_named_lem};
ghost use Rattle.scenario_text.specs.ByCells.{pairs_of};

use crate::cell_names::{cell_named, positions_of};
use crate::cells::{cells_named, has_double, numbers_of};
use crate::draft::Draft;
use crate::kind::TextKind;
use crate::line::Line;
use crate::lists::any_none;
use crate::number_field::{MOST_PART, is_bad, is_over, number_at, number_in};
use crate::pairs::{Scan, row_owner, scan_pairs, scan_some_pairs, total_of};
use crate::stop::LineStop;
use drift_chain::DriftPart;
use std::alloc::Global;
use text_rows::after_field;

fn write_moves(rows: &mut Vec<Vec<u8>>, c: u8, row: Vec<u8>)
    requires { c < vec_len rows.old }
    ensures { map (λ r. r.items) rows.new.items ≡ slice_set (map (λ r. r.items) rows.old.items) c row.items }
{
    rows[c as usize] = row;
}

fn set_moves(
    alloc: Global,
    draft: &mut Draft,
    cell: Option<u8>,
    moves: &[Option<u8>],
) -> Result<(), LineStop>
    requires { IfSome cell (λ c. c < vec_len draft.old.moves) }
    ensures { (name : List ℕ) (fields : List (List ℕ)) → length fields ≤ 64 →
        cell ≡ cell_named_lem (positions_in (state_of draft.old)) name →
        moves.now ≡ map (cell_named_lem (positions_in (state_of draft.old))) fields →
        TakesLine draft.new result (row_at Line.Moves (state_of draft.old) (name ∷ fields)) }
{
    let Some(c) = cell else {
        return Err(LineStop::Fault(TextKind::UnknownName));
    };
    if any_none(moves) {
        return Err(LineStop::Fault(TextKind::UnknownName));
    }
    if has_double(moves) {
        return Err(LineStop::Fault(TextKind::DoubleName));
    }
    if !draft.moves[c as usize].is_empty() {
        return Err(LineStop::Fault(TextKind::DoubleRow));
    }
    if moves.is_empty() {
        return Err(LineStop::Fault(TextKind::NoMove));
    }
    let row = numbers_of(alloc, moves)?;
    write_moves(&mut draft.moves, c, row);
    Ok(())
}

fn take_moves_of(
    alloc: Global,
    draft: &mut Draft,
    name: &[u8],
    moves: &[&[u8]],
) -> Result<(), LineStop>
    requires { IsSound (state_of draft.old) }
    ensures { TakesLine draft.new result (row_at Line.Moves (state_of draft.old)
        (name.now ∷ map (λ f. f.now) moves.now)) }
{
    if moves.len() > 64 {
        return Err(LineStop::Fault(TextKind::OverLimit));
    }
    let positions = positions_of(draft);
    let cell = cell_named(positions, name);
    let moves = cells_named(alloc, positions, moves)?;
    set_moves(alloc, draft, cell, &moves)
}

/// `moves NAME NAME NAME ..`
pub fn take_moves(alloc: Global, draft: &mut Draft, fields: &[&[u8]]) -> Result<(), LineStop>
    requires { IsSound (state_of draft.old) }
    ensures { TakesLine draft.new result (row_at Line.Moves (state_of draft.old) (map (λ f. f.now) fields.now)) }
{
    match fields {
        [] => Err(LineStop::Fault(TextKind::BadLine)),
        [name, moves @ ..] => take_moves_of(alloc, draft, name, moves),
    }
}

fn write_parts(rows: &mut Vec<Vec<DriftPart>>, c: u8, row: Vec<DriftPart>)
    requires { c < vec_len rows.old }
    ensures { map (λ r. r.items) rows.new.items ≡ slice_set (map (λ r. r.items) rows.old.items) c row.items }
{
    rows[c as usize] = row;
}

fn set_parts_of(draft: &mut Draft, cell: Option<u8>, pairs: Scan) -> Result<(), LineStop>
    requires { IfSome cell (λ c. c < vec_len draft.old.parts) }
    ensures { (name : List ℕ) (fields : List (List ℕ)) → cell ≡ cell_named_lem (state_of draft.old).names name →
        are_pairs fields ≡ true → HasSeen 1 (pairs_of (state_of draft.old).names fields) pairs →
        TakesLine draft.new result (row_at Line.Drift (state_of draft.old) (name ∷ fields)) }
{
    let c = match row_owner(false, false, cell, &pairs) {
        Ok(c) => c,
        Err(kind) => return Err(LineStop::Fault(kind)),
    };
    if !draft.parts[c as usize].is_empty() {
        return Err(LineStop::Fault(TextKind::DoubleRow));
    }
    if total_of(&pairs.entries) != u128::from(draft.drift) {
        return Err(LineStop::Fault(TextKind::WrongSum));
    }
    write_parts(&mut draft.parts, c, pairs.entries);
    Ok(())
}

fn take_drift_pairs(
    alloc: Global,
    draft: &mut Draft,
    name: &[u8],
    text: &[u8],
) -> Result<(), LineStop>
    requires { IsSound (state_of draft.old) }
    ensures { TakesLine draft.new result (row_at Line.Drift (state_of draft.old) (name.now ∷ fields_lem text.now)) }
{
    let cell = cell_named(&draft.names, name);
    match scan_some_pairs(alloc, &draft.names, text)? {
        None => Err(LineStop::Fault(TextKind::BadLine)),
        Some(pairs) => set_parts_of(draft, cell, pairs),
    }
}

/// `drift NAME NAME PART NAME PART ..`: of its fields the first are given beside their text
#[tactic(auto, using(crate::proofs::EntryRows::no_row))]
pub fn take_drift(
    alloc: Global,
    draft: &mut Draft,
    fields: &[&[u8]],
    text: &[u8],
) -> Result<(), LineStop>
    requires sound { IsSound (state_of draft.old) }
    requires front { map (λ f. f.now) fields.now ≡ take 66 (fields_lem text.now) }
    ensures { TakesLine draft.new result (row_at Line.Drift (state_of draft.old) (fields_lem text.now)) }
{
    match fields {
        [name, ..] => take_drift_pairs(alloc, draft, name, after_field(text)),
        [] => Err(LineStop::Fault(TextKind::BadLine)),
    }
}

fn set_overlook(draft: &mut Draft, name: &[u8], field: &[u8]) -> Result<(), LineStop>
    requires sound { IsSound (state_of draft.old) }
    requires version { draft.old.version ≡ TextVersion.One }
    ensures { TakesLine draft.new result (row_at Line.Overlook (state_of draft.old) (name.now ∷ field.now ∷ [])) }
{
    let number = number_at(field, MOST_PART);
    if is_bad(number, 0) {
        return Err(LineStop::Fault(TextKind::BadNumber));
    }
    if is_over(number) {
        return Err(LineStop::Fault(TextKind::OverLimit));
    }
    let part = number_in(number);
    let Some(c) = cell_named(&draft.names, name) else {
        return Err(LineStop::Fault(TextKind::UnknownName));
    };
    if draft.overlook[c as usize].is_some() {
        return Err(LineStop::Fault(TextKind::DoubleRow));
    }
    if part > draft.look {
        return Err(LineStop::Fault(TextKind::PartOver));
    }
    draft.overlook[c as usize] = Some(part);
    Ok(())
}

/// `overlook NAME PART`
pub fn take_overlook(draft: &mut Draft, fields: &[&[u8]]) -> Result<(), LineStop>
    requires sound { IsSound (state_of draft.old) }
    requires version { draft.old.version ≡ TextVersion.One }
    ensures { TakesLine draft.new result (row_at Line.Overlook (state_of draft.old) (map (λ f. f.now) fields.now)) }
{
    match fields {
        [name, part] => set_overlook(draft, name, part),
        _ => Err(LineStop::Fault(TextKind::BadLine)),
    }
}

/// Whether a part is above the denominator.
pub fn any_above(entries: &[DriftPart], denominator: u32) -> bool
    ensures { result ≡ list_any (λ e. nat_lt denominator e.part) entries.now }
{
    entries.iter().any(|e| e.part > denominator)
}

fn write_look(rows: &mut Vec<Option<Vec<DriftPart>>>, q: u8, row: Vec<DriftPart>)
    requires { q < vec_len rows.old }
    ensures { map (option_map (λ r. r.items)) rows.new.items ≡
        slice_set (map (option_map (λ r. r.items)) rows.old.items) q (Some row.items) }
{
    rows[q as usize] = Some(row);
}

fn set_look_of(draft: &mut Draft, position: Option<u8>, pairs: Scan) -> Result<(), LineStop>
    requires { IfSome position (λ q. q < vec_len draft.old.looks) }
    ensures { (name : List ℕ) (fields : List (List ℕ)) →
        position ≡ cell_named_lem (positions_in (state_of draft.old)) name → are_even fields ≡ true →
        HasSeen 0 (pairs_of (state_of draft.old).names fields) pairs →
        TakesLine draft.new result (row_at Line.Look (state_of draft.old) (name ∷ fields)) }
{
    let q = match row_owner(false, false, position, &pairs) {
        Ok(q) => q,
        Err(kind) => return Err(LineStop::Fault(kind)),
    };
    if draft.looks[q as usize].is_some() {
        return Err(LineStop::Fault(TextKind::DoubleRow));
    }
    if any_above(&pairs.entries, draft.look) {
        return Err(LineStop::Fault(TextKind::PartOver));
    }
    write_look(&mut draft.looks, q, pairs.entries);
    Ok(())
}

fn take_look_pairs(
    alloc: Global,
    draft: &mut Draft,
    name: &[u8],
    text: &[u8],
) -> Result<(), LineStop>
    requires sound { IsSound (state_of draft.old) }
    requires version { draft.old.version ≡ TextVersion.Two }
    ensures { TakesLine draft.new result (row_at Line.Look (state_of draft.old) (name.now ∷ fields_lem text.now)) }
{
    let position = cell_named(positions_of(draft), name);
    match scan_pairs(alloc, &draft.names, text, 0)? {
        None => Err(LineStop::Fault(TextKind::BadLine)),
        Some(pairs) => set_look_of(draft, position, pairs),
    }
}

/// `look NAME NAME PART NAME PART ..`: of its fields the first are given beside their text
#[tactic(auto, using(crate::proofs::EntryRows::no_row))]
pub fn take_look(
    alloc: Global,
    draft: &mut Draft,
    fields: &[&[u8]],
    text: &[u8],
) -> Result<(), LineStop>
    requires sound { IsSound (state_of draft.old) }
    requires version { draft.old.version ≡ TextVersion.Two }
    requires front { map (λ f. f.now) fields.now ≡ take 66 (fields_lem text.now) }
    ensures { TakesLine draft.new result (row_at Line.Look (state_of draft.old) (fields_lem text.now)) }
{
    match fields {
        [name, ..] => take_look_pairs(alloc, draft, name, after_field(text)),
        [] => Err(LineStop::Fault(TextKind::BadLine)),
    }
}
