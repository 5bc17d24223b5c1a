//! The lines of records.

ghost use Rattle.std.specs.Prelude.{◌≡◌, ◌++◌, ◌∷◌, [], map, OnOk, OnErr, All};
ghost use Rattle.exact_parts.specs.Appending.{Begins};
ghost use Rattle.text_rows.specs.Rows.{text_of, spaced};
ghost use Rattle.bound_tree.specs.Gaps.{closed_node};
ghost use Rattle.tree_format.specs.Dialects.{prefixes_in as prefixes_in_lem};
ghost use Rattle.tree_format.specs.PlanText.{numbers, written, node_fields, node_row, IsNarrowKind, IsNarrowNode};
ghost use Rattle.tree_format.specs.RecordParts.{letter_of, bound_fields, reference_of};

use crate::dialects::prefixes_in;
use crate::plan_line::{Dialect, Prefixes};
use crate::writing::push_positions;
use bound_tree::{GapKind, GapNode, Kind, TreeNode};
use exact_parts::NoMemory;
use search_model::Path;
use text_rows::{Field, push_field};

// The letter of a kind of record.
fn letter(kind: &GapKind) -> u8
    ensures { result ≡ letter_of kind.now }
{
    match kind {
        GapKind::Closed(Kind::Branch) => b'B',
        GapKind::Closed(Kind::Whole(_)) => b'W',
        GapKind::Closed(Kind::Mean(_)) => b'M',
        GapKind::Closed(Kind::Tangent(_, _)) => b'T',
        GapKind::Closed(Kind::Edge(_)) => b'E',
        GapKind::Closed(Kind::Exchange(..)) => b'X',
        GapKind::Closed(Kind::TwoLooks(_)) => b'D',
        GapKind::Waiting(_) => b'O',
    }
}

// Appends the number of a record, where it has one.
fn push_bound(out: &mut Vec<u8>, kind: &GapKind) -> Result<(), NoMemory>
    ensures ok { OnOk result (out.new.items ≡ out.old.items ++ spaced (bound_fields kind.now)) }
    ensures err { OnErr result (Begins out.old.items out.new.items) }
    ensures narrow { IsNarrowNode kind.now }
{
    match kind {
        GapKind::Closed(Kind::Branch) => Ok(()),
        GapKind::Closed(
            Kind::Whole(n)
            | Kind::Mean(n)
            | Kind::Tangent(n, _)
            | Kind::Edge(n)
            | Kind::Exchange(n, _)
            | Kind::TwoLooks(n),
        ) => push_field(out, Field::Number(*n)),
        GapKind::Waiting(n) => push_field(out, Field::Number(*n)),
    }
}

// Appends the positions that a record refers to, where there are any.
fn push_reference(out: &mut Vec<u8>, kind: &GapKind) -> Result<(), NoMemory>
    ensures ok { OnOk result (out.new.items ≡ out.old.items ++ spaced (numbers (reference_of kind.now))) }
    ensures err { OnErr result (Begins out.old.items out.new.items) }
{
    match kind {
        GapKind::Closed(Kind::Tangent(_, reference)) => push_positions(out, reference.cells()),
        GapKind::Closed(Kind::Exchange(_, u)) => push_positions(out, &[*u]),
        GapKind::Closed(
            Kind::Branch | Kind::Whole(_) | Kind::Mean(_) | Kind::Edge(_) | Kind::TwoLooks(_),
        ) => Ok(()),
        GapKind::Waiting(_) => Ok(()),
    }
}

// Appends the prefix of a record, where the text has it.
fn push_prefix(out: &mut Vec<u8>, prefixes: Prefixes, prefix: &Path) -> Result<(), NoMemory>
    ensures ok { OnOk result (out.new.items ≡ out.old.items ++ spaced (numbers (written prefixes prefix.now))) }
    ensures err { OnErr result (Begins out.old.items out.new.items) }
{
    match prefixes {
        Prefixes::Written => push_positions(out, prefix.cells()),
        Prefixes::LeftOut => Ok(()),
    }
}

// Appends the line of a record.
fn push_record(
    out: &mut Vec<u8>,
    prefixes: Prefixes,
    prefix: &Path,
    kind: &GapKind,
) -> Result<(), NoMemory>
    ensures ok { OnOk result (out.new.items ≡ out.old.items ++
        text_of (node_fields (written prefixes prefix.now) kind.now ∷ [])) }
    ensures err { OnErr result (Begins out.old.items out.new.items) }
    ensures narrow { OnOk result (IsNarrowNode kind.now) }
{
    out.push(letter(kind))?;
    push_bound(out, kind)?;
    push_prefix(out, prefixes, prefix)?;
    push_reference(out, kind)?;
    out.push(b'\n')?;
    Ok(())
}

// Appends the line of a node.
fn push_node(out: &mut Vec<u8>, dialect: Dialect, node: &GapNode) -> Result<(), NoMemory>
    ensures ok { OnOk result (out.new.items ≡ out.old.items ++ text_of (node_row dialect node.now ∷ [])) }
    ensures err { OnErr result (Begins out.old.items out.new.items) }
    ensures narrow { OnOk result (IsNarrowNode node.now.kind) }
{
    push_record(out, prefixes_in(dialect), &node.prefix, &node.kind)
}

// Appends the line of a record that is closed.
fn push_closed(out: &mut Vec<u8>, dialect: Dialect, r: &TreeNode) -> Result<(), NoMemory>
    ensures ok { OnOk result (out.new.items ≡ out.old.items ++ text_of (node_row dialect (closed_node r.now) ∷ [])) }
    ensures err { OnErr result (Begins out.old.items out.new.items) }
    ensures narrow { OnOk result (IsNarrowKind r.now.kind) }
{
    push_record(
        out,
        prefixes_in(dialect),
        &r.prefix,
        &GapKind::Closed(r.kind),
    )
}

/// Appends the lines of records.
pub fn push_records(
    out: &mut Vec<u8>,
    dialect: Dialect,
    records: &[TreeNode],
) -> Result<(), NoMemory>
    ensures ok { OnOk result (out.new.items ≡ out.old.items ++
        text_of (map (λ r. node_row dialect (closed_node r)) records.now)) }
    ensures err { OnErr result (Begins out.old.items out.new.items) }
    ensures narrow { OnOk result (All (λ r. IsNarrowKind r.kind) records.now) }
{
    for r in records {
        push_closed(out, dialect, r)?;
    }
    Ok(())
}

/// Appends the lines of nodes.
pub fn push_nodes(out: &mut Vec<u8>, dialect: Dialect, nodes: &[GapNode]) -> Result<(), NoMemory>
    ensures ok { OnOk result (out.new.items ≡ out.old.items ++ text_of (map (node_row dialect) nodes.now)) }
    ensures err { OnErr result (Begins out.old.items out.new.items) }
    ensures narrow { OnOk result (All (λ r. IsNarrowNode r.kind) nodes.now) }
{
    for r in nodes {
        push_node(out, dialect, r)?;
    }
    Ok(())
}
