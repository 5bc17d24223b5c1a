//! The lines of a text, one after the other.

ghost use Rattle.std.specs.Prelude.{◌≡◌, ◌<◌, ◌+◌, ◌^◌, length};
ghost use Rattle.std.specs.List.{list_all};
ghost use Rattle.text_rows.specs.Lines.{lines_of};
ghost use Rattle.text_rows.specs.Fields.{is_blank as is_blank_lem};
ghost use Rattle.scenario_text.specs.Reading.{is_ended as is_ended_lem, first_said as first_said_lem};
ghost use Rattle.scenario_text.specs.State.{state_of, blank_state};
ghost use Rattle.scenario_text.specs.Gives.{ReadsDraft, stop_at};

use crate::draft::{Draft, Stage, TextVersion};
use crate::kind::{TextFault, TextKind};
use crate::stop::{LineStop, TextStop};
use crate::taking_line::take_line;
use indexmap::IndexSet;
use std::alloc::Global;
use text_rows::{cut_line, is_blank};

/// The number of the line `end`, and what follows its line feed.
#[derive(Drop)]
pub struct DraftEnd<'a> {
    pub line: u64,
    pub rest: &'a [u8],
}

fn at_number(number: u64, stop: LineStop) -> TextStop
    ensures { result ≡ stop_at number stop }
{
    match stop {
        LineStop::Fault(kind) => TextStop::Fault(TextFault { line: number, kind }),
        LineStop::NoMemory => TextStop::NoMemory,
    }
}

fn is_ended(stage: Stage) -> bool
    ensures { result ≡ is_ended_lem stage }
{
    matches!(stage, Stage::Ended)
}

/// A draft of which nothing was read.
pub fn blank_draft(alloc: Global) -> Draft
    ensures { state_of result ≡ blank_state }
{
    Draft {
        stage: Stage::Version,
        version: TextVersion::One,
        horizon: 0,
        total: 0,
        drift: 0,
        look: 0,
        names: IndexSet::new(alloc),
        positions: IndexSet::new(alloc),
        gridded: false,
        start: 0,
        first: Vec::new(alloc),
        moves: Vec::new(alloc),
        parts: Vec::new(alloc),
        overlook: Vec::new(alloc),
        looks: Vec::new(alloc),
        drift_rows: Vec::new(alloc),
        look_rows: Vec::new(alloc),
    }
}

/// Reads into a blank draft what the text says, up to its line `end`.
#[tactic(auto, using(crate::proofs::Loop::loop_steps))]
pub fn read_draft<'a>(
    alloc: Global,
    draft: &mut Draft,
    text: &'a [u8],
) -> Result<DraftEnd<'a>, TextStop>
    requires { state_of draft.old ≡ blank_state }
    ensures { ReadsDraft text.now draft.new result }
{
    let mut rest = text;
    let mut number = 1u64;
    while !rest.is_empty() {
        let (line, after) = cut_line(rest);
        match take_line(alloc, draft, line) {
            Ok(()) => {}
            Err(stop) => return Err(at_number(number, stop)),
        }
        rest = after;
        if is_ended(draft.stage) {
            return Ok(DraftEnd { line: number, rest });
        }
        number += 1;
    }
    Err(TextStop::Fault(TextFault {
        line: number,
        kind: TextKind::EarlyEnd,
    }))
}

fn is_all_blank(line: &[u8]) -> bool
    ensures { result ≡ list_all is_blank_lem line.now }
{
    line.iter().all(|c| is_blank(*c))
}

/// The number of the first line that holds a byte other than blanks, where the first line has this number.
#[tactic(auto, using(crate::proofs::Loop::said_steps))]
pub fn first_said(text: &[u8], first: u64) -> Option<u64>
    requires { first + length text.now < 2 ^ 64 }
    ensures { result ≡ first_said_lem first (lines_of text.now) }
{
    let mut rest = text;
    let mut number = first;
    while !rest.is_empty() {
        let (line, after) = cut_line(rest);
        if !is_all_blank(line) {
            return Some(number);
        }
        rest = after;
        number += 1;
    }
    None
}
