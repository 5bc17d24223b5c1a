//! Pairs of a cell and its part, read off a line one after the other: however many there are, no more entries are kept
//! than there are cells.

ghost use Rattle.std.specs.Prelude.{◌≡◌, ◌≤◌, ◌||◌, ◌==◌, false, List, ◌++◌, ◌∷◌, [], map, length, sum_by, IfOk, OnOk};
ghost use Rattle.std.specs.List.{list_any};
ghost use Rattle.period_rows.specs.declared.part.CellPart.{CellPart as DriftPart};
ghost use Rattle.text_rows.specs.Fields.{fields_of as fields_lem};
ghost use Rattle.scenario_text.specs.declared.pair.Pair.{Pair};
ghost use Rattle.scenario_text.specs.Fields.{number_in as number_in_lem};
ghost use Rattle.scenario_text.specs.ByCells.{owner_of, right_pairs};
ghost use Rattle.scenario_text.specs.Gives.{Scans, ScansSome};
ghost use Rattle.scenario_text.specs.Scanning.{HasSeen, IsAdded, IsMarked};

use crate::cell_names::cell_named;
use crate::kind::TextKind;
use crate::number_field::{MOST_PART, is_bad, is_over, number_at, number_in};
use crate::pair::Pair;
use drift_chain::DriftPart;
use indexmap::IndexSet;
use std::alloc::{AllocError, Global};
use text_rows::{cut_field, skip_blanks};

/// What was seen of the pairs of a line. No entry is added once one of the four holds.
#[derive(Drop)]
pub struct Scan {
    /// A number is no plain decimal, or below the least.
    pub bad: bool,
    /// A number is above its limit.
    pub over: bool,
    /// A name isn't a cell's.
    pub unknown: bool,
    /// A cell stands twice; told where nothing else is wrong.
    pub double: bool,
    pub entries: Vec<DriftPart>,
}

fn has_entry(entries: &[DriftPart], cell: u8) -> bool
    ensures { result ≡ list_any (λ e. e.cell == cell) entries.now }
{
    entries.iter().any(|e| e.cell == cell)
}

// Marks what is wrong with a pair by itself.
fn mark_pair(scan: &mut Scan, pair: Pair, least: u128)
    ensures { IsMarked least scan.old pair scan.new }
{
    scan.bad |= is_bad(pair.part, least);
    scan.over |= is_over(pair.part);
    scan.unknown |= pair.cell.is_none();
}

// Adds an entry, or marks that its cell stands twice.
fn add_entry(scan: &mut Scan, entry: DriftPart) -> Result<(), AllocError>
    requires { scan.old.double ≡ false }
    ensures { OnOk result (IsAdded scan.old entry scan.new) }
{
    if has_entry(&scan.entries, entry.cell) {
        scan.double = true;
        return Ok(());
    }
    scan.entries.push(entry)?;
    Ok(())
}

fn has_fault(scan: &Scan) -> bool
    ensures { result ≡ (scan.now.bad || (scan.now.over || (scan.now.unknown || scan.now.double))) }
{
    scan.bad || scan.over || scan.unknown || scan.double
}

fn add_pair(scan: &mut Scan, pair: Pair, least: u128) -> Result<(), AllocError>
    requires { number_in_lem pair.part ≤ 1000000 }
    ensures { OnOk result ((done : List Pair) → HasSeen least done scan.old →
        HasSeen least (done ++ pair ∷ []) scan.new) }
{
    mark_pair(scan, pair, least);
    match pair.cell {
        Some(cell) => {
            if has_fault(scan) {
                return Ok(());
            }
            add_entry(
                scan,
                DriftPart {
                    cell,
                    part: number_in(pair.part),
                },
            )
        }
        None => Ok(()),
    }
}

/// The pairs `NAME PART NAME PART ..` that a text is, or `None` where its fields aren't pairs. A part is `least` at least.
pub fn scan_pairs(
    alloc: Global,
    names: &IndexSet<Vec<u8>>,
    text: &[u8],
    least: u128,
) -> Result<Option<Scan>, AllocError>
    requires { length names.now.keys ≤ 200 }
    ensures { IfOk result (Scans (map (λ n. n.items) names.now.keys) least (fields_lem text.now)) }
{
    let mut scan = Scan {
        bad: false,
        over: false,
        unknown: false,
        double: false,
        entries: Vec::new(alloc),
    };
    let mut rest = skip_blanks(text);
    while !rest.is_empty() {
        let (name, after) = cut_field(rest);
        let after = skip_blanks(after);
        if after.is_empty() {
            return Ok(None);
        }
        let (part, more) = cut_field(after);
        add_pair(
            &mut scan,
            Pair {
                cell: cell_named(names, name),
                part: number_at(part, MOST_PART),
            },
            least,
        )?;
        rest = skip_blanks(more);
    }
    Ok(Some(scan))
}

/// The pairs, of which there has to be one, with positive parts.
pub fn scan_some_pairs(
    alloc: Global,
    names: &IndexSet<Vec<u8>>,
    text: &[u8],
) -> Result<Option<Scan>, AllocError>
    requires { length names.now.keys ≤ 200 }
    ensures { IfOk result (ScansSome (map (λ n. n.items) names.now.keys) (fields_lem text.now)) }
{
    if skip_blanks(text).is_empty() {
        return Ok(None);
    }
    scan_pairs(alloc, names, text, 1)
}

/// Nothing, or the first kind of fault among the numbers and the names of pairs.
pub fn check_pairs(pairs: &Scan) -> Result<(), TextKind>
    ensures { result ≡ right_pairs pairs.now.bad pairs.now.over pairs.now.unknown pairs.now.double }
{
    if pairs.bad {
        return Err(TextKind::BadNumber);
    }
    if pairs.over {
        return Err(TextKind::OverLimit);
    }
    if pairs.unknown {
        return Err(TextKind::UnknownName);
    }
    if pairs.double {
        return Err(TextKind::DoubleName);
    }
    Ok(())
}

/// The cell or the position of a row with pairs, or the first kind of fault among the numbers and the names of its line:
/// before the pairs a number may be bad or over its limit.
pub fn row_owner(bad: bool, over: bool, own: Option<u8>, pairs: &Scan) -> Result<u8, TextKind>
    ensures { result ≡ owner_of (bad || pairs.now.bad) (over || pairs.now.over) own pairs.now.unknown pairs.now.double }
{
    if bad || pairs.bad {
        return Err(TextKind::BadNumber);
    }
    if over || pairs.over {
        return Err(TextKind::OverLimit);
    }
    let Some(own) = own else {
        return Err(TextKind::UnknownName);
    };
    if pairs.unknown {
        return Err(TextKind::UnknownName);
    }
    if pairs.double {
        return Err(TextKind::DoubleName);
    }
    Ok(own)
}

/// What the parts of entries sum to.
pub fn total_of(entries: &[DriftPart]) -> u128
    ensures { result ≡ sum_by (λ e. e.part) entries.now }
{
    let mut sum = 0u128;
    for entry in entries {
        sum += u128::from(entry.part);
    }
    sum
}
