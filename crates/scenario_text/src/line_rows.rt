//! The rows of the canonical text, one by one.
#![tactic(auto, using(text_rows::proofs::RowSteps::row_steps))]

ghost use Rattle.std.specs.Prelude.{◌≡◌, ◌<◌, ◌≤◌, ◌++◌, ◌∷◌, [], All, map, OnOk, OnErr};
ghost use Rattle.std.specs.List.{flat_map};
ghost use Rattle.exact_parts.specs.Appending.{Begins};
ghost use Rattle.text_rows.specs.Rows.{text_of, spaced};
ghost use Rattle.text_rows.specs.RowFields.{IsField, field_text};
ghost use Rattle.drift_chain.specs.DriftRows.{row_of};
ghost use Rattle.search_grid.specs.Moves.{moves_from};
ghost use Rattle.sweep_table.specs.LookParts.{factor_of};
ghost use Rattle.search_model.specs.Names.{name_in};
ghost use Rattle.search_model.specs.Problem.{IsProblem};
ghost use Rattle.scenario_text.specs.Canonical.{first_entries, covered};
ghost use Rattle.scenario_text.specs.RowFields.{entry_fields, first_row, moves_of};
ghost use Rattle.scenario_text.specs.Printing.{sort_row, sort_owners, in_force, change_owners, change_limit, change_row, first_entry, covered_entry};

use crate::row_sorts::{ChangeSort, RowSort};
use drift_chain::DriftPart;
use exact_parts::NoMemory;
use search_model::Scenario;
use sweep_table::LookPart;
use text_rows::{Field, begin_row, push_field, push_fields, push_row};

// The fields of one entry.
fn push_entry(out: &mut Vec<u8>, sc: &Scenario, entry: DriftPart) -> Result<(), NoMemory>
    requires { entry.cell < sc.now.cells }
    ensures ok { OnOk result (out.new.items ≡ out.old.items ++ spaced (entry_fields sc.now.names (entry ∷ []))) }
    ensures err { OnErr result (Begins out.old.items out.new.items) }
{
    let name = sc.name(entry.cell);
    push_fields(
        out,
        &[Field::Word(name.bytes()), Field::Number(entry.part as u128)],
    )
}

// The fields of these entries.
fn push_entries(out: &mut Vec<u8>, sc: &Scenario, entries: &[DriftPart]) -> Result<(), NoMemory>
    requires { All (λ entry. entry.cell < sc.now.cells) entries.now }
    ensures ok { OnOk result (out.new.items ≡ out.old.items ++ spaced (entry_fields sc.now.names entries.now)) }
    ensures err { OnErr result (Begins out.old.items out.new.items) }
{
    for entry in entries {
        push_entry(out, sc, *entry)?;
    }
    Ok(())
}

// The fields of a cell's first part, where it is positive.
fn push_first_of(out: &mut Vec<u8>, sc: &Scenario, c: u8) -> Result<(), NoMemory>
    requires { c < sc.now.cells }
    ensures ok { OnOk result (out.new.items ≡ out.old.items ++
        spaced (entry_fields sc.now.names (first_entry sc.now c))) }
    ensures err { OnErr result (Begins out.old.items out.new.items) }
{
    let part = sc.first(c);
    if part == 0 {
        Ok(())
    } else {
        push_entry(out, sc, DriftPart { cell: c, part })
    }
}

// The fields of the first parts.
fn push_first(out: &mut Vec<u8>, sc: &Scenario) -> Result<(), NoMemory>
    ensures ok { OnOk result (out.new.items ≡ out.old.items ++
        spaced (entry_fields sc.now.names (first_entries sc.now))) }
    ensures err { OnErr result (Begins out.old.items out.new.items) }
{
    for c in 0..sc.cells() {
        push_first_of(out, sc, c)?;
    }
    Ok(())
}

// The line feed behind a row that was begun.
fn end_row(out: &mut Vec<u8>) -> Result<(), NoMemory>
    ensures ok { OnOk result (out.new.items ≡ out.old.items ++ 10 ∷ []) }
    ensures err { OnErr result (Begins out.old.items out.new.items) }
{
    Ok(out.push(b'\n')?)
}

/// Appends the row of the first parts.
pub fn push_first_row(out: &mut Vec<u8>, sc: &Scenario) -> Result<(), NoMemory>
    ensures ok { OnOk result (out.new.items ≡ out.old.items ++
        text_of (first_row sc.now.names (first_entries sc.now) ∷ [])) }
    ensures err { OnErr result (Begins out.old.items out.new.items) }
{
    begin_row(out, b"first", &[])?;
    push_first(out, sc)?;
    end_row(out)
}

// The fields of a cell that a look covers, where it doesn't miss all of it.
fn push_covered_part(out: &mut Vec<u8>, sc: &Scenario, entry: LookPart) -> Result<(), NoMemory>
    requires { entry.cell < sc.now.cells }
    ensures ok { OnOk result (out.new.items ≡ out.old.items ++
        spaced (entry_fields sc.now.names (covered_entry sc.now entry))) }
    ensures err { OnErr result (Begins out.old.items out.new.items) }
{
    let LookPart { cell, part } = entry;
    if part == sc.sweep().denominator() {
        Ok(())
    } else {
        push_entry(out, sc, DriftPart { cell, part })
    }
}

// The fields of the cells that a look covers.
fn push_covered(out: &mut Vec<u8>, sc: &Scenario, entries: &[LookPart]) -> Result<(), NoMemory>
    requires { All (λ entry. entry.cell < sc.now.cells) entries.now }
    ensures ok { OnOk result (out.new.items ≡ out.old.items ++
        spaced (flat_map (λ e. entry_fields sc.now.names (covered_entry sc.now e)) entries.now)) }
    ensures err { OnErr result (Begins out.old.items out.new.items) }
{
    for entry in entries {
        push_covered_part(out, sc, *entry)?;
    }
    Ok(())
}

// The row of a cell's drift that is in force in one period, behind a word and fields.
fn push_drift_row(
    out: &mut Vec<u8>,
    sc: &Scenario,
    word: &[u8],
    fields: &[Field],
    t: u32,
    c: u8,
) -> Result<(), NoMemory>
    requires problem { IsProblem sc.now }
    requires fields { All IsField fields.now }
    requires period { (1 ≤ t) × (t ≤ 31) }
    requires cell { c < sc.now.cells }
    ensures ok { OnOk result (out.new.items ≡ out.old.items ++
        text_of ((word.now ∷ (map field_text fields.now ++ entry_fields sc.now.names (row_of sc.now.drift t c))) ∷ [])) }
    ensures err { OnErr result (Begins out.old.items out.new.items) }
{
    begin_row(out, word, fields)?;
    push_entries(out, sc, sc.drift().row(t, c))?;
    end_row(out)
}

// The fields of the cells that a look of one period covers.
fn push_look(out: &mut Vec<u8>, sc: &Scenario, t: u32, q: u8) -> Result<(), NoMemory>
    requires problem { IsProblem sc.now }
    requires period { (1 ≤ t) × (t ≤ 32) }
    requires position { q < sc.now.positions }
    ensures ok { OnOk result (out.new.items ≡ out.old.items ++
        spaced (entry_fields sc.now.names (covered sc.now t q))) }
    ensures err { OnErr result (Begins out.old.items out.new.items) }
{
    let look = sc.sweep().look(t, q);
    push_covered(out, sc, look.parts())
}

// The row of the looks from a position in one period, behind a word and fields.
fn push_look_row(
    out: &mut Vec<u8>,
    sc: &Scenario,
    word: &[u8],
    fields: &[Field],
    t: u32,
    q: u8,
) -> Result<(), NoMemory>
    requires problem { IsProblem sc.now }
    requires fields { All IsField fields.now }
    requires period { (1 ≤ t) × (t ≤ 32) }
    requires position { q < sc.now.positions }
    ensures ok { OnOk result (out.new.items ≡ out.old.items ++
        text_of ((word.now ∷ (map field_text fields.now ++ entry_fields sc.now.names (covered sc.now t q))) ∷ [])) }
    ensures err { OnErr result (Begins out.old.items out.new.items) }
{
    begin_row(out, word, fields)?;
    push_look(out, sc, t, q)?;
    end_row(out)
}

// The names of positions.
fn push_names(out: &mut Vec<u8>, sc: &Scenario, positions: &[u8]) -> Result<(), NoMemory>
    requires { All (λ q. q < sc.now.positions) positions.now }
    ensures ok { OnOk result (out.new.items ≡ out.old.items ++
        spaced (map (name_in sc.now.position_names) positions.now)) }
    ensures err { OnErr result (Begins out.old.items out.new.items) }
{
    for q in positions {
        push_field(out, Field::Word(sc.position(*q).bytes()))?;
    }
    Ok(())
}

// The row of a position's moves.
fn push_moves(out: &mut Vec<u8>, sc: &Scenario, q: u8) -> Result<(), NoMemory>
    requires problem { IsProblem sc.now }
    requires position { q < sc.now.positions }
    ensures ok { OnOk result (out.new.items ≡ out.old.items ++
        text_of (moves_of sc.now.position_names q (moves_from sc.now.moves q) ∷ [])) }
    ensures err { OnErr result (Begins out.old.items out.new.items) }
{
    begin_row(out, b"moves", &[Field::Word(sc.position(q).bytes())])?;
    push_names(out, sc, sc.grid().moves(q))?;
    end_row(out)
}

// How much of a target in the cell of a position's number a look from there misses in period 1: all of it, where there is no
// such cell.
fn own_part(sc: &Scenario, q: u8) -> u32
    requires { q < sc.now.positions }
    ensures { result ≡ factor_of sc.now.sweep 1 q q }
{
    if q < sc.cells() {
        sc.sweep().factor(1, q, q)
    } else {
        sc.sweep().denominator()
    }
}

/// Appends the row of a sort that a cell or a position has.
pub fn push_sort_row(out: &mut Vec<u8>, sc: &Scenario, sort: RowSort, n: u8) -> Result<(), NoMemory>
    requires problem { IsProblem sc.now }
    requires owner { n < sort_owners sc.now sort }
    ensures ok { OnOk result (out.new.items ≡ out.old.items ++ text_of (sort_row sc.now sort n ∷ [])) }
    ensures err { OnErr result (Begins out.old.items out.new.items) }
{
    match sort {
        RowSort::Cells => push_row(out, b"cell", &[Field::Word(sc.name(n).bytes())]),
        RowSort::Positions => push_row(out, b"position", &[Field::Word(sc.position(n).bytes())]),
        RowSort::Moves => push_moves(out, sc, n),
        RowSort::Drift => {
            push_drift_row(out, sc, b"drift", &[Field::Word(sc.name(n).bytes())], 1, n)
        }
        RowSort::Overlook => push_row(
            out,
            b"overlook",
            &[
                Field::Word(sc.position(n).bytes()),
                Field::Number(own_part(sc, n) as u128),
            ],
        ),
        RowSort::Looks => {
            push_look_row(
                out,
                sc,
                b"look",
                &[Field::Word(sc.position(n).bytes())],
                1,
                n,
            )
        }
    }
}

/// Appends the row of one period that a cell or a position has.
pub fn push_in_period(
    out: &mut Vec<u8>,
    sc: &Scenario,
    sort: ChangeSort,
    t: u32,
    n: u8,
) -> Result<(), NoMemory>
    requires problem { IsProblem sc.now }
    requires period { (1 ≤ t) × (t ≤ change_limit sort) }
    requires owner { n < change_owners sc.now sort }
    ensures ok { OnOk result (out.new.items ≡ out.old.items ++
        text_of (change_row sc.now sort (record { period = t; own = n; row = in_force sc.now sort t n }) ∷ [])) }
    ensures err { OnErr result (Begins out.old.items out.new.items) }
{
    let period = Field::Number(t as u128);
    match sort {
        ChangeSort::DriftIn => {
            let name = Field::Word(sc.name(n).bytes());
            push_drift_row(out, sc, b"driftin", &[period, name], t, n)
        }
        ChangeSort::LookIn => {
            let name = Field::Word(sc.position(n).bytes());
            push_look_row(out, sc, b"lookin", &[period, name], t, n)
        }
    }
}
