//! The lines of the format, by keyword and place.

ghost use Rattle.std.specs.Prelude.{◌≡◌, None};
ghost use Rattle.scenario_text.specs.KindTable.{with_keyword, head_due as head_due_lem, cell_due as cell_due_lem, position_due as position_due_lem, row_due as row_due_lem, period_row_due as period_row_due_lem, line_due as line_due_lem};

use crate::draft::{Stage, TextVersion};

/// The lines.
#[derive(Clone, Copy)]
pub enum Line {
    Scenario,
    Horizon,
    Parts,
    Cell,
    Position,
    Grid,
    Start,
    First,
    Moves,
    Drift,
    DriftIn,
    Overlook,
    Spread,
    Rate,
    Look,
    LookIn,
    End,
}

// The line, where this word is its keyword.
fn if_keyword(word: &[u8], keyword: &[u8], line: Line) -> Option<Line>
    ensures { result ≡ with_keyword word.now keyword.now line None }
{
    if word == keyword { Some(line) } else { None }
}

// What goes before the rows in version 1.
fn head_due(named: bool, word: &[u8]) -> Option<Line>
    ensures { result ≡ head_due_lem named word.now }
{
    if word == b"cell".as_slice() {
        Some(Line::Cell)
    } else if named {
        if_keyword(word, b"start", Line::Start)
    } else {
        if_keyword(word, b"grid", Line::Grid)
    }
}

// In version 2, where cells were named or not.
fn cell_due(named: bool, word: &[u8]) -> Option<Line>
    ensures { result ≡ cell_due_lem named word.now }
{
    if word == b"cell".as_slice() {
        Some(Line::Cell)
    } else if named {
        if_keyword(word, b"position", Line::Position)
    } else {
        None
    }
}

// And where a position was named.
fn position_due(word: &[u8]) -> Option<Line>
    ensures { result ≡ position_due_lem word.now }
{
    if word == b"position".as_slice() {
        Some(Line::Position)
    } else {
        if_keyword(word, b"start", Line::Start)
    }
}

// The rows and the end in version 1.
fn row_due(word: &[u8]) -> Option<Line>
    ensures { result ≡ row_due_lem word.now }
{
    if word == b"moves".as_slice() {
        Some(Line::Moves)
    } else if word == b"drift".as_slice() {
        Some(Line::Drift)
    } else if word == b"overlook".as_slice() {
        Some(Line::Overlook)
    } else if word == b"spread".as_slice() {
        Some(Line::Spread)
    } else if word == b"rate".as_slice() {
        Some(Line::Rate)
    } else {
        if_keyword(word, b"end", Line::End)
    }
}

// And in version 2.
fn period_row_due(word: &[u8]) -> Option<Line>
    ensures { result ≡ period_row_due_lem word.now }
{
    if word == b"moves".as_slice() {
        Some(Line::Moves)
    } else if word == b"drift".as_slice() {
        Some(Line::Drift)
    } else if word == b"driftin".as_slice() {
        Some(Line::DriftIn)
    } else if word == b"look".as_slice() {
        Some(Line::Look)
    } else if word == b"lookin".as_slice() {
        Some(Line::LookIn)
    } else {
        if_keyword(word, b"end", Line::End)
    }
}

/// The line that this keyword begins at this stage, where cells were named or not.
pub fn line_due(version: TextVersion, stage: Stage, named: bool, word: &[u8]) -> Option<Line>
    ensures { result ≡ line_due_lem version stage named word.now }
{
    match stage {
        Stage::Version => if_keyword(word, b"scenario", Line::Scenario),
        Stage::Horizon => if_keyword(word, b"horizon", Line::Horizon),
        Stage::Parts => if_keyword(word, b"parts", Line::Parts),
        Stage::Cells => match version {
            TextVersion::One => head_due(named, word),
            TextVersion::Two => cell_due(named, word),
        },
        Stage::Positions => match version {
            TextVersion::One => None,
            TextVersion::Two => position_due(word),
        },
        Stage::Start => if_keyword(word, b"start", Line::Start),
        Stage::First => if_keyword(word, b"first", Line::First),
        Stage::Rows => match version {
            TextVersion::One => row_due(word),
            TextVersion::Two => period_row_due(word),
        },
        Stage::Ended => None,
    }
}
