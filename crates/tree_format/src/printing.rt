//! The whole text.

ghost use Rattle.std.specs.Prelude.{◌≡◌, ◌∷◌, [], ◌++◌, map, OnOk, OnErr};
ghost use Rattle.exact_parts.specs.Appending.{Begins};
ghost use Rattle.bound_tree.specs.Places.{AreInPlace};
ghost use Rattle.tree_format.specs.PlanText.{IsPrintable, IsNarrow, HasLetters, HavePlaces, IsPlanTextIn, IsWrittenPlan, IsPrintableGap, IsNarrowGap, IsGapText, plan_text, gap_text};
ghost use Rattle.bound_tree.specs.Gaps.{shape_of, gap_of, numbers_for as numbers_for_lem};
ghost use Rattle.tree_format.specs.Dialects.{prefixes_in, dialect_with, plan_dialect_for};

use crate::dialects::{gap_dialect, plan_dialect};
use crate::head::push_head;
use crate::plan_line::Dialect;
use crate::records::{push_nodes, push_records};
use bound_tree::{GapPlan, Plan, numbers_for};
use exact_parts::{NoMemory, cut_if_refused};
use search_model::Scenario;
use text_rows::push_row;

// Appends the text of a plan of this dialect.
fn push_plan(
    out: &mut Vec<u8>,
    dialect: Dialect,
    sc: &Scenario,
    plan: &Plan,
) -> Result<(), NoMemory>
    requires { IsPrintable sc.now plan.now }
    ensures ok { OnOk result (out.new.items ≡ out.old.items ++ plan_text dialect sc.now plan.now) }
    ensures err { OnErr result (Begins out.old.items out.new.items) }
    ensures narrow { OnOk result (IsNarrow plan.now) }
{
    let records = plan.tree.nodes();
    push_head(
        out,
        dialect,
        sc,
        &plan.standing,
        plan.weight,
        plan.standing.value,
        records.len(),
    )?;
    push_records(out, dialect, records)?;
    push_row(out, b"end", &[])?;
    Ok(())
}

/// Appends the text of this dialect of a plan for whose records it has letters, the one spelling that the plan has in it; of
/// a dialect that leaves prefixes out, the records have those that are expected. A text of plans reads back as that plan, one
/// of gap plans as the gap plan that the plan is.
///
/// # Errors
///
/// `NoMemory`: `out` is then as it was.
pub fn print_plan_in(
    out: &mut Vec<u8>,
    dialect: Dialect,
    sc: &Scenario,
    plan: &Plan,
) -> Result<(), NoMemory>
    requires printable { IsPrintable sc.now plan.now }
    requires letters { HasLetters dialect plan.now }
    requires in_place { HavePlaces (prefixes_in dialect) sc.now ([] ∷ []) plan.now.tree }
    ensures ok { OnOk result (out.new.items ≡ out.old.items ++ plan_text dialect sc.now plan.now) }
    ensures err { OnErr result (out.new.items ≡ out.old.items) }
    ensures spelled { OnOk result (IsPlanTextIn dialect sc.now plan.now (plan_text dialect sc.now plan.now)) }
{
    let len = out.len();
    let appended = push_plan(out, dialect, sc, plan);
    cut_if_refused(out, len, appended)
}

/// Appends the text of version 1 of a plan that has letters for its records there, the one spelling that it has in this
/// version. It reads back as that plan.
///
/// # Errors
///
/// `NoMemory`: `out` is then as it was.
pub fn print_plan(out: &mut Vec<u8>, sc: &Scenario, plan: &Plan) -> Result<(), NoMemory>
    requires printable { IsPrintable sc.now plan.now }
    requires letters { HasLetters Dialect.PlanOne plan.now }
    ensures ok { OnOk result (out.new.items ≡ out.old.items ++ plan_text Dialect.PlanOne sc.now plan.now) }
    ensures err { OnErr result (out.new.items ≡ out.old.items) }
    ensures spelled { OnOk result (IsPlanTextIn Dialect.PlanOne sc.now plan.now (plan_text Dialect.PlanOne sc.now plan.now)) }
{
    print_plan_in(out, Dialect::PlanOne, sc, plan)
}

/// Appends the text of a plan in the version that plans of the scenario are written in, whose records have letters there and
/// the prefixes that are expected: the one spelling that it has in this version. It reads back as that plan.
///
/// # Errors
///
/// `NoMemory`: `out` is then as it was.
pub fn print_plan_for(out: &mut Vec<u8>, sc: &Scenario, plan: &Plan) -> Result<(), NoMemory>
    requires printable { IsPrintable sc.now plan.now }
    requires letters { HasLetters (plan_dialect_for sc.now) plan.now }
    requires in_place { AreInPlace sc.now ([] ∷ []) plan.now.tree }
    ensures ok { OnOk result (out.new.items ≡ out.old.items ++ plan_text (plan_dialect_for sc.now) sc.now plan.now) }
    ensures err { OnErr result (out.new.items ≡ out.old.items) }
    ensures spelled { OnOk result (IsWrittenPlan sc.now plan.now (plan_text (plan_dialect_for sc.now) sc.now plan.now)) }
{
    print_plan_in(out, plan_dialect(sc), sc, plan)
}

/// Appends the text of the gap plan that a plan is, whose records have letters there and the prefixes that are expected: all
/// nodes are closed, and the ceiling is the value. The scenario says by which numbers it is written. It reads back as that gap
/// plan.
///
/// # Errors
///
/// `NoMemory`: `out` is then as it was.
#[tactic(auto, using(crate::proofs::ClosedNodes::closed_text))]
pub fn print_plan_as_gap(out: &mut Vec<u8>, sc: &Scenario, plan: &Plan) -> Result<(), NoMemory>
    requires printable { IsPrintable sc.now plan.now }
    requires letters { HasLetters (dialect_with (numbers_for_lem sc.now)) plan.now }
    requires in_place { AreInPlace sc.now ([] ∷ []) plan.now.tree }
    ensures ok { OnOk result (out.new.items ≡ out.old.items ++ gap_text sc.now (gap_of (numbers_for_lem sc.now) plan.now)) }
    ensures err { OnErr result (out.new.items ≡ out.old.items) }
    ensures spelled { OnOk result (IsGapText sc.now (gap_of (numbers_for_lem sc.now) plan.now)
        (gap_text sc.now (gap_of (numbers_for_lem sc.now) plan.now))) }
{
    print_plan_in(out, gap_dialect(numbers_for(sc)), sc, plan)
}

// Appends the text of a gap plan.
fn push_gap(out: &mut Vec<u8>, sc: &Scenario, plan: &GapPlan) -> Result<(), NoMemory>
    requires { IsPrintableGap sc.now plan.now }
    ensures ok { OnOk result (out.new.items ≡ out.old.items ++ gap_text sc.now plan.now) }
    ensures err { OnErr result (Begins out.old.items out.new.items) }
    ensures narrow { OnOk result (IsNarrowGap plan.now) }
{
    let dialect = gap_dialect(plan.numbers);
    let nodes = plan.nodes.nodes();
    push_head(
        out,
        dialect,
        sc,
        &plan.standing,
        plan.weight,
        plan.ceiling,
        nodes.len(),
    )?;
    push_nodes(out, dialect, nodes)?;
    push_row(out, b"end", &[])?;
    Ok(())
}

/// Appends the text of a gap plan whose nodes have the prefixes that are expected, a waiting node taken as a leaf: the one
/// spelling that it has, in the version of its numbers. It reads back as that gap plan.
///
/// # Errors
///
/// `NoMemory`: `out` is then as it was.
pub fn print_gap(out: &mut Vec<u8>, sc: &Scenario, plan: &GapPlan) -> Result<(), NoMemory>
    requires printable { IsPrintableGap sc.now plan.now }
    requires in_place { AreInPlace sc.now ([] ∷ []) (map shape_of plan.now.nodes) }
    ensures ok { OnOk result (out.new.items ≡ out.old.items ++ gap_text sc.now plan.now) }
    ensures err { OnErr result (out.new.items ≡ out.old.items) }
    ensures spelled { OnOk result (IsGapText sc.now plan.now (gap_text sc.now plan.now)) }
{
    let len = out.len();
    let appended = push_gap(out, sc, plan);
    cut_if_refused(out, len, appended)
}
