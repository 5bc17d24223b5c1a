//! One line, by its keyword.

ghost use Rattle.std.specs.Prelude.{◌≡◌, ◌∷◌, [], map, take, length, nat_lt};
ghost use Rattle.std.specs.List.{list_all};
ghost use Rattle.text_rows.specs.Fields.{fields_of as fields_lem, is_text_byte as is_text_byte_lem};
ghost use Rattle.scenario_text.specs.Fields.{says_nothing as says_nothing_lem};
ghost use Rattle.scenario_text.specs.State.{state_of};
ghost use Rattle.scenario_text.specs.Sound.{IsSound};
ghost use Rattle.scenario_text.specs.Order.{IsPlace};
ghost use Rattle.scenario_text.specs.Gives.{TakesLine};
ghost use Rattle.scenario_text.specs.Reading.{line_at};
ghost use Rattle.scenario_text.specs.KindTable.{lacks_row as lacks_row_lem};
ghost use Rattle.scenario_text.specs.Grammar.{row_at, fields_at};

use crate::draft::{Draft, Stage};
use crate::kind::TextKind;
use crate::line::{Line, line_due};
use crate::lists::{any_empty, any_none};
use crate::rows::{take_drift, take_look, take_moves, take_overlook};
use crate::rows_in_period::{take_drift_in, take_look_in};
use crate::shorthands::{take_grid, take_rate, take_spread};
use crate::stop::LineStop;
use crate::taking::{
    take_cell, take_first, take_horizon, take_parts, take_position, take_start, take_version,
};
use exact_parts::fits;
use std::alloc::Global;
use text_rows::{after_field, first_fields};

// How many fields of a line are looked at, but for those of pairs: a row of 64 moves has 66.
const MOST_FIELDS: usize = 67;

fn is_text_byte(c: u8) -> bool
    ensures { result ≡ is_text_byte_lem c }
{
    c == b'\t' || c == b'\r' || (b' '..=b'~').contains(&c)
}

fn is_text(line: &[u8]) -> bool
    ensures { result ≡ list_all is_text_byte_lem line.now }
{
    line.iter().all(|c| is_text_byte(*c))
}

fn says_nothing(fields: &[&[u8]]) -> bool
    ensures { result ≡ says_nothing_lem (map (λ f. f.now) fields.now) }
{
    match fields {
        [] => true,
        [first, ..] => first.first() == Some(&b'#'),
    }
}

fn lacks_row(draft: &Draft) -> bool
    ensures { result ≡ lacks_row_lem (state_of draft.now) }
{
    any_empty(&draft.moves)
        || any_empty(&draft.parts)
        || any_none(&draft.overlook)
        || any_none(&draft.looks)
}

/// `end`
pub fn take_end(draft: &mut Draft, fields: &[&[u8]]) -> Result<(), LineStop>
    requires sound { IsSound (state_of draft.old) }
    requires due { draft.old.stage ≡ Stage.Rows }
    ensures { TakesLine draft.new result (row_at Line.End (state_of draft.old) (map (λ f. f.now) fields.now)) }
{
    if !fields.is_empty() {
        return Err(LineStop::Fault(TextKind::BadLine));
    }
    if lacks_row(draft) {
        return Err(LineStop::Fault(TextKind::MissingRow));
    }
    if !fits(draft.total, draft.drift, draft.look, draft.horizon) {
        return Err(LineStop::Fault(TextKind::TooWide));
    }
    draft.stage = Stage::Ended;
    Ok(())
}

// The line that is due, of which the first fields behind the keyword are given beside their text
fn take_due(
    alloc: Global,
    draft: &mut Draft,
    line: Line,
    fields: &[&[u8]],
    text: &[u8],
) -> Result<(), LineStop>
    requires sound { IsSound (state_of draft.old) }
    requires due { IsPlace line draft.old.version draft.old.stage }
    requires front { map (λ f. f.now) fields.now ≡ take 66 (fields_lem text.now) }
    ensures { TakesLine draft.new result (row_at line (state_of draft.old) (fields_lem text.now)) }
{
    match line {
        Line::Scenario => take_version(draft, fields),
        Line::Horizon => take_horizon(draft, fields),
        Line::Parts => take_parts(draft, fields),
        Line::Cell => take_cell(alloc, draft, fields),
        Line::Position => take_position(alloc, draft, fields),
        Line::Grid => take_grid(alloc, draft, fields),
        Line::Start => take_start(draft, fields),
        Line::First => take_first(alloc, draft, text),
        Line::Moves => take_moves(alloc, draft, fields),
        Line::Drift => take_drift(alloc, draft, fields, text),
        Line::DriftIn => take_drift_in(alloc, draft, fields, text),
        Line::Overlook => take_overlook(draft, fields),
        Line::Spread => take_spread(alloc, draft, fields),
        Line::Rate => take_rate(alloc, draft, fields),
        Line::Look => take_look(alloc, draft, fields, text),
        Line::LookIn => take_look_in(alloc, draft, fields, text),
        Line::End => take_end(draft, fields),
    }
}

fn has_cells(draft: &Draft) -> bool
    ensures { result ≡ nat_lt 0 (length (state_of draft.now).names) }
{
    !draft.names.is_empty()
}

// The line that a word begins, of which the first fields behind it are given beside their text
#[tactic(auto, using(crate::proofs::Due::place_due))]
fn take_word(
    alloc: Global,
    draft: &mut Draft,
    word: &[u8],
    fields: &[&[u8]],
    text: &[u8],
) -> Result<(), LineStop>
    requires sound { IsSound (state_of draft.old) }
    requires front { map (λ f. f.now) fields.now ≡ take 66 (fields_lem text.now) }
    ensures { TakesLine draft.new result (fields_at (state_of draft.old) (word.now ∷ fields_lem text.now)) }
{
    match line_due(draft.version, draft.stage, has_cells(draft), word) {
        Some(line) => take_due(alloc, draft, line, fields, text),
        None => Err(LineStop::Fault(TextKind::BadLine)),
    }
}

// The fields of a line, of which the first are given beside the line
#[tactic(auto, using(crate::proofs::FirstFields::fields_steps))]
fn take_fields(
    alloc: Global,
    draft: &mut Draft,
    fields: &[&[u8]],
    line: &[u8],
) -> Result<(), LineStop>
    requires sound { IsSound (state_of draft.old) }
    requires front { map (λ f. f.now) fields.now ≡ take 67 (fields_lem line.now) }
    ensures { TakesLine draft.new result (fields_at (state_of draft.old) (fields_lem line.now)) }
{
    match fields {
        [word, fields @ ..] => take_word(alloc, draft, word, fields, after_field(line)),
        [] => Err(LineStop::Fault(TextKind::BadLine)),
    }
}

/// Takes a line, or says what is wrong with it.
#[tactic(auto, unfolding(crate::specs::Reading::line_at))]
pub fn take_line(alloc: Global, draft: &mut Draft, line: &[u8]) -> Result<(), LineStop>
    requires { IsSound (state_of draft.old) }
    ensures { TakesLine draft.new result (line_at (state_of draft.old) line.now) }
{
    let fields = first_fields(alloc, line, MOST_FIELDS)?;
    if says_nothing(&fields) {
        return Ok(());
    }
    if !is_text(line) {
        return Err(LineStop::Fault(TextKind::NotText));
    }
    take_fields(alloc, draft, &fields, line)
}
