//! The judge of a line: what it says, or its first fault.

ghost use Rattle.std.specs.Prelude.{◌≡◌, ◌==◌, map, length};
ghost use Rattle.std.specs.List.{list_any};
ghost use Rattle.tree_format.specs.Reading.{is_end as is_end_lem, ended_at as ended_at_lem, end_said, placed_at as placed_at_lem, placed as placed_lem, node_said, record_line, stage_line, line_at};
ghost use Rattle.tree_format.specs.Dialects.{prefixes_in as prefixes_in_lem};

use crate::dialects::{family_of, most_records, prefixes_in};
use crate::due::Due;
use crate::head_lines::{read_ceiling, read_chance, read_count, read_path, read_version};
use crate::kind::PlanKind;
use crate::plan_line::{PlanLine, Prefixes, Stage};
use crate::record_lines::read_node;
use bound_tree::GapNode;
use search_model::{Path, Scenario};

fn is_end(fields: &[&[u8]]) -> bool
    ensures { result ≡ is_end_lem (map (λ f. f.now) fields.now) }
{
    match fields {
        [word] => *word == b"end".as_slice(),
        _ => false,
    }
}

// The end, where this prefix is expected next.
fn ended_at(next: Option<Path>) -> Result<PlanLine, PlanKind>
    ensures { result ≡ ended_at_lem next }
{
    match next {
        None => Ok(PlanLine::End),
        Some(_) => Err(PlanKind::StillOpen),
    }
}

fn ending(due: &Due, left: u64) -> Result<PlanLine, PlanKind>
    ensures { result ≡ end_said (prefixes_in_lem due.now.dialect) left due.now.expected }
{
    if left != 0 {
        return Err(PlanKind::WrongCount);
    }
    match prefixes_in(due.dialect) {
        Prefixes::Written => Ok(PlanLine::End),
        Prefixes::LeftOut => ended_at(due.expected.first()),
    }
}

// A record, where this prefix is expected next.
fn placed_at(next: Option<Path>, node: GapNode) -> Result<PlanLine, PlanKind>
    ensures { result ≡ placed_at_lem next node }
{
    match next {
        None => Err(PlanKind::NoPlace),
        Some(prefix) => Ok(PlanLine::Node(GapNode {
            prefix,
            kind: node.kind,
        })),
    }
}

fn placed(due: &Due, node: GapNode) -> Result<PlanLine, PlanKind>
    ensures { result ≡ placed_lem (prefixes_in_lem due.now.dialect) due.now.expected node }
{
    match prefixes_in(due.dialect) {
        Prefixes::Written => Ok(PlanLine::Node(node)),
        Prefixes::LeftOut => placed_at(due.expected.first(), node),
    }
}

fn record_among(due: &Due, left: u64, node: Result<GapNode, PlanKind>) -> Result<PlanLine, PlanKind>
    ensures { result ≡ node_said (prefixes_in_lem due.now.dialect) left due.now.expected node }
{
    match node {
        Err(kind) => Err(kind),
        Ok(_) if left == 0 => Err(PlanKind::WrongCount),
        Ok(node) => placed(due, node),
    }
}

// A record, or `end`
fn read_record(sc: &Scenario, due: &Due, left: u64, fields: &[&[u8]]) -> Result<PlanLine, PlanKind>
    ensures { result ≡ record_line sc.now due.now.dialect left due.now.expected (map (λ f. f.now) fields.now) }
{
    if is_end(fields) {
        ending(due, left)
    } else {
        record_among(due, left, read_node(sc, due.dialect, fields))
    }
}

fn read_stage(sc: &Scenario, due: &Due, fields: &[&[u8]]) -> Result<PlanLine, PlanKind>
    ensures { result ≡ stage_line sc.now due.now.dialect due.now.stage due.now.expected (map (λ f. f.now) fields.now) }
{
    match due.stage {
        Stage::Version(family) => read_version(family, fields),
        Stage::Path => read_path(sc, fields),
        Stage::Chance => read_chance(fields),
        Stage::Ceiling => read_ceiling(fields),
        Stage::Count => read_count(most_records(family_of(due.dialect)), fields),
        Stage::Records(left) => read_record(sc, due, left, fields),
        Stage::Ended => Err(PlanKind::BadLine),
    }
}

#[tactic(auto, using(crate::proofs::FieldSteps::empty_steps))]
fn has_empty(fields: &[&[u8]]) -> bool
    ensures { result ≡ list_any (λ f. length f == 0) (map (λ f. f.now) fields.now) }
{
    for f in fields {
        if f.is_empty() {
            return true;
        }
    }
    false
}

/// What a line says by its fields where this is due, or its first fault. It takes no memory.
#[tactic(auto, unfolding(crate::specs::Reading::line_at))]
pub fn read_line(sc: &Scenario, due: &Due, fields: &[&[u8]]) -> Result<PlanLine, PlanKind>
    ensures { result ≡ line_at sc.now due.now (map (λ f. f.now) fields.now) }
{
    if has_empty(fields) {
        Err(PlanKind::BadLine)
    } else {
        read_stage(sc, due, fields)
    }
}
