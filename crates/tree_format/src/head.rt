//! The lines before the records.

ghost use Rattle.std.specs.Prelude.{◌≡◌, ◌<◌, ◌^◌, ◌++◌, ◌∷◌, [], map, codes, OnOk, OnErr};
ghost use Rattle.exact_parts.specs.Appending.{Begins};
ghost use Rattle.text_rows.specs.Rows.{text_of};
ghost use Rattle.search_model.specs.Problem.{position_name};
ghost use Rattle.tree_format.specs.Dialects.{version_row};
ghost use Rattle.tree_format.specs.PlanText.{ArePositions, chance_row, ceiling_rows, head_rows};

use crate::dialects::has_open;
use crate::plan_line::Dialect;
use crate::writing::push_names;
use exact_parts::{NoMemory, cut_if_refused};
use search_model::{Path, Scenario, Standing};
use text_rows::{Field, push_row};

// Appends the first line.
fn push_version(out: &mut Vec<u8>, dialect: Dialect) -> Result<(), NoMemory>
    ensures ok { OnOk result (out.new.items ≡ out.old.items ++ text_of (version_row dialect ∷ [])) }
    ensures err { OnErr result (Begins out.old.items out.new.items) }
{
    match dialect {
        Dialect::PlanOne => push_row(out, b"plan", &[Field::Word(b"1")]),
        Dialect::PlanTwo => push_row(out, b"plan", &[Field::Word(b"2")]),
        Dialect::PlanThree => push_row(out, b"plan", &[Field::Word(b"3")]),
        Dialect::GapOne => push_row(out, b"gap", &[Field::Word(b"1")]),
        Dialect::GapTwo => push_row(out, b"gap", &[Field::Word(b"2")]),
    }
}

// Appends the line `path NAME ..`.
fn push_places(out: &mut Vec<u8>, sc: &Scenario, path: &Path) -> Result<(), NoMemory>
    requires { ArePositions sc.now path.now }
    ensures ok { OnOk result (out.new.items ≡ out.old.items ++
        text_of ((codes "path" ∷ map (position_name sc.now) path.now) ∷ [])) }
    ensures err { OnErr result (Begins out.old.items out.new.items) }
{
    out.extend_from_slice(b"path")?;
    push_names(out, sc, path.cells())?;
    out.push(b'\n')?;
    Ok(())
}

/// Appends the line `path NAME ..` of a path.
///
/// # Errors
///
/// `NoMemory`: `out` is then as it was.
pub fn push_path(out: &mut Vec<u8>, sc: &Scenario, path: &Path) -> Result<(), NoMemory>
    requires { ArePositions sc.now path.now }
    ensures ok { OnOk result (out.new.items ≡ out.old.items ++
        text_of ((codes "path" ∷ map (position_name sc.now) path.now) ∷ [])) }
    ensures err { OnErr result (out.new.items ≡ out.old.items) }
{
    let len = out.len();
    let appended = push_places(out, sc, path);
    cut_if_refused(out, len, appended)
}

// Appends the line `chance V W`.
fn push_chance(out: &mut Vec<u8>, value: u128, weight: u128) -> Result<(), NoMemory>
    ensures ok { OnOk result (out.new.items ≡ out.old.items ++ text_of (chance_row value weight ∷ [])) }
    ensures err { OnErr result (Begins out.old.items out.new.items) }
{
    push_row(
        out,
        b"chance",
        &[Field::Number(value), Field::Number(weight)],
    )
}

// Appends the line `ceiling N` where the text has it.
fn push_ceiling(out: &mut Vec<u8>, dialect: Dialect, ceiling: u128) -> Result<(), NoMemory>
    ensures ok { OnOk result (out.new.items ≡ out.old.items ++ text_of (ceiling_rows dialect ceiling)) }
    ensures err { OnErr result (Begins out.old.items out.new.items) }
{
    if has_open(dialect) {
        push_row(out, b"ceiling", &[Field::Number(ceiling)])
    } else {
        Ok(())
    }
}

/// Appends all lines before the records, of which so many follow.
pub fn push_head(
    out: &mut Vec<u8>,
    dialect: Dialect,
    sc: &Scenario,
    standing: &Standing,
    weight: u128,
    ceiling: u128,
    nodes: usize,
) -> Result<(), NoMemory>
    requires { ArePositions sc.now standing.now.path }
    ensures ok { OnOk result (out.new.items ≡ out.old.items ++
        text_of (head_rows dialect sc.now standing.now weight ceiling nodes)) }
    ensures err { OnErr result (Begins out.old.items out.new.items) }
    ensures narrow { OnOk result (standing.now.value < 2 ^ 128) }
{
    push_version(out, dialect)?;
    push_places(out, sc, &standing.path)?;
    push_chance(out, standing.value, weight)?;
    push_ceiling(out, dialect, ceiling)?;
    push_row(out, b"nodes", &[Field::Number(nodes as u128)])?;
    Ok(())
}
