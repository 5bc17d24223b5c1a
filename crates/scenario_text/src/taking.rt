//! The lines above the rows: each function takes a line by the fields behind its keyword.

ghost use Rattle.std.specs.Prelude.{◌≡◌, ◌≤◌, ◌∷◌, ◌++◌, [], ℕ, List, Some, None, Ok, OnOk, map, length, true, codes, if◌then◌else◌};
ghost use Rattle.scenario_text.specs.declared.draft.TextVersion.{TextVersion as Version};
ghost use Rattle.text_rows.specs.Fields.{fields_of as fields_lem, is_word};
ghost use Rattle.scenario_text.specs.State.{state_of};
ghost use Rattle.scenario_text.specs.Sound.{IsSound};
ghost use Rattle.scenario_text.specs.Gives.{TakesLine};
ghost use Rattle.scenario_text.specs.Scanning.{HasSeen};
ghost use Rattle.scenario_text.specs.Fields.{are_pairs, cell_named as cell_named_lem};
ghost use Rattle.scenario_text.specs.ByCells.{pairs_of};
ghost use Rattle.scenario_text.specs.NewNames.{name_fault as name_fault_lem};
ghost use Rattle.scenario_text.specs.Grammar.{row_at, with_name, with_position};

use crate::cell_names::{are_name_bytes, cell_named, positions_of};
use crate::draft::{Draft, Stage, TextVersion};
use crate::kind::TextKind;
use crate::line::Line;
use crate::number_field::{MOST_PART, is_bad, is_over, number_at, number_in};
use crate::pairs::{Scan, check_pairs, scan_some_pairs, total_of};
use crate::stop::LineStop;
use drift_chain::DriftPart;
use indexmap::IndexSet;
use std::alloc::{AllocError, Global};

// The version that a field says.
fn version_said(field: &[u8]) -> Option<TextVersion>
    ensures { result ≡ (if is_word field.now (codes "1") then Some Version.One
        else (if is_word field.now (codes "2") then Some Version.Two else None)) }
{
    if field == b"1".as_slice() {
        Some(TextVersion::One)
    } else if field == b"2".as_slice() {
        Some(TextVersion::Two)
    } else {
        None
    }
}

// Sets the version that a field says.
fn set_version(draft: &mut Draft, field: &[u8]) -> Result<(), LineStop>
    ensures { TakesLine draft.new result (row_at Line.Scenario (state_of draft.old) (field.now ∷ [])) }
{
    match version_said(field) {
        None => Err(LineStop::Fault(TextKind::BadLine)),
        Some(version) => {
            draft.stage = Stage::Horizon;
            draft.version = version;
            Ok(())
        }
    }
}

/// `scenario 1`, or `scenario 2`
pub fn take_version(draft: &mut Draft, fields: &[&[u8]]) -> Result<(), LineStop>
    ensures { TakesLine draft.new result (row_at Line.Scenario (state_of draft.old) (map (λ f. f.now) fields.now)) }
{
    match fields {
        [version] => set_version(draft, version),
        _ => Err(LineStop::Fault(TextKind::BadLine)),
    }
}

fn set_horizon(draft: &mut Draft, field: &[u8]) -> Result<(), LineStop>
    ensures { TakesLine draft.new result (row_at Line.Horizon (state_of draft.old) (field.now ∷ [])) }
{
    let t = number_at(field, 32);
    if is_bad(t, 1) {
        return Err(LineStop::Fault(TextKind::BadNumber));
    }
    if is_over(t) {
        return Err(LineStop::Fault(TextKind::OverLimit));
    }
    draft.stage = Stage::Parts;
    draft.horizon = number_in(t);
    Ok(())
}

/// `horizon T`
pub fn take_horizon(draft: &mut Draft, fields: &[&[u8]]) -> Result<(), LineStop>
    ensures { TakesLine draft.new result (row_at Line.Horizon (state_of draft.old) (map (λ f. f.now) fields.now)) }
{
    match fields {
        [t] => set_horizon(draft, t),
        _ => Err(LineStop::Fault(TextKind::BadLine)),
    }
}

fn set_parts(draft: &mut Draft, a: &[u8], d: &[u8], g: &[u8]) -> Result<(), LineStop>
    ensures { TakesLine draft.new result (row_at Line.Parts (state_of draft.old) (a.now ∷ d.now ∷ g.now ∷ [])) }
{
    let total = number_at(a, MOST_PART);
    let drift = number_at(d, MOST_PART);
    let look = number_at(g, MOST_PART);
    if is_bad(total, 1) || is_bad(drift, 1) || is_bad(look, 1) {
        return Err(LineStop::Fault(TextKind::BadNumber));
    }
    if is_over(total) || is_over(drift) || is_over(look) {
        return Err(LineStop::Fault(TextKind::OverLimit));
    }
    draft.stage = Stage::Cells;
    draft.total = number_in(total);
    draft.drift = number_in(drift);
    draft.look = number_in(look);
    Ok(())
}

/// `parts A D G`
pub fn take_parts(draft: &mut Draft, fields: &[&[u8]]) -> Result<(), LineStop>
    ensures { TakesLine draft.new result (row_at Line.Parts (state_of draft.old) (map (λ f. f.now) fields.now)) }
{
    match fields {
        [a, d, g] => set_parts(draft, a, d, g),
        _ => Err(LineStop::Fault(TextKind::BadLine)),
    }
}

// Adds a name behind the others.
fn push_name(alloc: Global, names: &mut IndexSet<Vec<u8>>, name: &[u8]) -> Result<(), AllocError>
    requires { cell_named_lem (map (λ n. n.items) names.old.keys) name.now ≡ None }
    ensures { OnOk result (map (λ n. n.items) names.new.keys ≡ map (λ n. n.items) names.old.keys ++ name.now ∷ []) }
{
    let mut bytes = Vec::new(alloc);
    bytes.extend_from_slice(name)?;
    names.insert(bytes)?;
    Ok(())
}

// Adds a row without moves.
fn push_no_moves(alloc: Global, rows: &mut Vec<Vec<u8>>) -> Result<(), AllocError>
    ensures { OnOk result (map (λ row. row.items) rows.new.items ≡ map (λ row. row.items) rows.old.items ++ [] ∷ []) }
{
    rows.push(Vec::new(alloc))?;
    Ok(())
}

/// Adds a row without parts.
pub fn push_no_parts(alloc: Global, rows: &mut Vec<Vec<DriftPart>>) -> Result<(), AllocError>
    ensures { OnOk result (map (λ row. row.items) rows.new.items ≡ map (λ row. row.items) rows.old.items ++ [] ∷ []) }
{
    rows.push(Vec::new(alloc))?;
    Ok(())
}

// Adds a cell that is a position, too, and has no rows yet.
fn push_place(alloc: Global, draft: &mut Draft, name: &[u8]) -> Result<(), LineStop>
    requires new { cell_named_lem (state_of draft.old).names name.now ≡ None }
    requires version { draft.old.version ≡ Version.One }
    ensures { TakesLine draft.new result (Ok (with_name (state_of draft.old) name.now)) }
{
    push_name(alloc, &mut draft.names, name)?;
    push_no_moves(alloc, &mut draft.moves)?;
    push_no_parts(alloc, &mut draft.parts)?;
    draft.overlook.push(None)?;
    Ok(())
}

// Adds a cell that has no row yet.
fn push_target(alloc: Global, draft: &mut Draft, name: &[u8]) -> Result<(), LineStop>
    requires new { cell_named_lem (state_of draft.old).names name.now ≡ None }
    requires version { draft.old.version ≡ Version.Two }
    ensures { TakesLine draft.new result (Ok (with_name (state_of draft.old) name.now)) }
{
    push_name(alloc, &mut draft.names, name)?;
    push_no_parts(alloc, &mut draft.parts)?;
    Ok(())
}

fn push_cell(alloc: Global, draft: &mut Draft, name: &[u8]) -> Result<(), LineStop>
    requires { cell_named_lem (state_of draft.old).names name.now ≡ None }
    ensures { TakesLine draft.new result (Ok (with_name (state_of draft.old) name.now)) }
{
    match draft.version {
        TextVersion::One => push_place(alloc, draft, name),
        TextVersion::Two => push_target(alloc, draft, name),
    }
}

// What is wrong with a name that is to be added to others, if anything is.
#[tactic(auto, unfolding(crate::specs::NewNames::name_fault))]
fn name_fault(names: &IndexSet<Vec<u8>>, name: &[u8]) -> Option<TextKind>
    requires { length names.now.keys ≤ 200 }
    ensures { result ≡ name_fault_lem (map (λ n. n.items) names.now.keys) name.now }
{
    if !are_name_bytes(name) {
        return Some(TextKind::BadLine);
    }
    if name.len() > 24 || names.len() >= 200 {
        return Some(TextKind::OverLimit);
    }
    if cell_named(names, name).is_some() {
        return Some(TextKind::DoubleName);
    }
    None
}

fn add_cell(alloc: Global, draft: &mut Draft, name: &[u8]) -> Result<(), LineStop>
    requires { IsSound (state_of draft.old) }
    ensures { TakesLine draft.new result (row_at Line.Cell (state_of draft.old) (name.now ∷ [])) }
{
    match name_fault(&draft.names, name) {
        Some(kind) => Err(LineStop::Fault(kind)),
        None => push_cell(alloc, draft, name),
    }
}

/// `cell NAME`
pub fn take_cell(alloc: Global, draft: &mut Draft, fields: &[&[u8]]) -> Result<(), LineStop>
    requires { IsSound (state_of draft.old) }
    ensures { TakesLine draft.new result (row_at Line.Cell (state_of draft.old) (map (λ f. f.now) fields.now)) }
{
    match fields {
        [name] => add_cell(alloc, draft, name),
        _ => Err(LineStop::Fault(TextKind::BadLine)),
    }
}

// Adds a position that has no rows yet.
fn push_position(alloc: Global, draft: &mut Draft, name: &[u8]) -> Result<(), LineStop>
    requires { cell_named_lem (state_of draft.old).positions name.now ≡ None }
    ensures { TakesLine draft.new result (Ok (with_position (state_of draft.old) name.now)) }
{
    push_name(alloc, &mut draft.positions, name)?;
    push_no_moves(alloc, &mut draft.moves)?;
    draft.looks.push(None)?;
    draft.stage = Stage::Positions;
    Ok(())
}

fn add_position(alloc: Global, draft: &mut Draft, name: &[u8]) -> Result<(), LineStop>
    requires { IsSound (state_of draft.old) }
    ensures { TakesLine draft.new result (row_at Line.Position (state_of draft.old) (name.now ∷ [])) }
{
    match name_fault(&draft.positions, name) {
        Some(kind) => Err(LineStop::Fault(kind)),
        None => push_position(alloc, draft, name),
    }
}

/// `position NAME`
pub fn take_position(alloc: Global, draft: &mut Draft, fields: &[&[u8]]) -> Result<(), LineStop>
    requires { IsSound (state_of draft.old) }
    ensures { TakesLine draft.new result (row_at Line.Position (state_of draft.old) (map (λ f. f.now) fields.now)) }
{
    match fields {
        [name] => add_position(alloc, draft, name),
        _ => Err(LineStop::Fault(TextKind::BadLine)),
    }
}

fn set_start(draft: &mut Draft, name: &[u8]) -> Result<(), LineStop>
    requires { IsSound (state_of draft.old) }
    ensures { TakesLine draft.new result (row_at Line.Start (state_of draft.old) (name.now ∷ [])) }
{
    match cell_named(positions_of(draft), name) {
        None => Err(LineStop::Fault(TextKind::UnknownName)),
        Some(c) => {
            draft.stage = Stage::First;
            draft.start = c;
            Ok(())
        }
    }
}

/// `start NAME`
pub fn take_start(draft: &mut Draft, fields: &[&[u8]]) -> Result<(), LineStop>
    requires { IsSound (state_of draft.old) }
    ensures { TakesLine draft.new result (row_at Line.Start (state_of draft.old) (map (λ f. f.now) fields.now)) }
{
    match fields {
        [name] => set_start(draft, name),
        _ => Err(LineStop::Fault(TextKind::BadLine)),
    }
}

fn set_first(draft: &mut Draft, pairs: Scan) -> Result<(), LineStop>
    ensures { (fields : List (List ℕ)) → are_pairs fields ≡ true →
        HasSeen 1 (pairs_of (state_of draft.old).names fields) pairs →
        TakesLine draft.new result (row_at Line.First (state_of draft.old) fields) }
{
    if let Err(kind) = check_pairs(&pairs) {
        return Err(LineStop::Fault(kind));
    }
    if total_of(&pairs.entries) != u128::from(draft.total) {
        return Err(LineStop::Fault(TextKind::WrongSum));
    }
    draft.first = pairs.entries;
    draft.stage = Stage::Rows;
    Ok(())
}

/// `first NAME PART NAME PART ..`, of which the text behind the keyword is given
pub fn take_first(alloc: Global, draft: &mut Draft, text: &[u8]) -> Result<(), LineStop>
    requires { IsSound (state_of draft.old) }
    ensures { TakesLine draft.new result (row_at Line.First (state_of draft.old) (fields_lem text.now)) }
{
    match scan_some_pairs(alloc, &draft.names, text)? {
        None => Err(LineStop::Fault(TextKind::BadLine)),
        Some(pairs) => set_first(draft, pairs),
    }
}
