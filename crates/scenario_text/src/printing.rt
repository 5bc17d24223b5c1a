//! The canonical text of a scenario.
#![tactic(auto, using(text_rows::proofs::RowSteps::row_steps))]

ghost use Rattle.std.specs.Prelude.{◌≡◌, ◌<◌, ◌≤◌, ◌++◌, ◌+◌, ◌∷◌, [], map, OnOk, OnErr};
ghost use Rattle.text_rows.specs.Rows.{text_of};
ghost use Rattle.exact_parts.specs.Appending.{Begins};
ghost use Rattle.search_model.specs.Problem.{IsProblem};
ghost use Rattle.period_rows.specs.Rows.{is_same_row};
ghost use Rattle.scenario_text.specs.Canonical.{canonical_text, other_rows};
ghost use Rattle.scenario_text.specs.StateRows.{version_row};
ghost use Rattle.scenario_text.specs.Printing.{sort_owners, sort_rows, in_force, change_owners, change_last, change_limit, change_row, change_at, change_rows, horizon_row, wholes_row, head_rows, front_rows, start_row, start_rows, body_rows, later_change_rows, plain_rows, full_rows, chosen_rows};

use crate::draft::TextVersion;
use crate::line_rows::{push_first_row, push_in_period, push_sort_row};
use crate::row_sorts::{ChangeSort, RowSort};
use crate::steady::{is_plain, is_same_drift, is_same_look};
use exact_parts::{NoMemory, cut_if_refused};
use search_model::Scenario;
use text_rows::{Field, push_row};

// How many cells or positions have a row of a sort.
fn owners(sc: &Scenario, sort: RowSort) -> u8
    ensures { result ≡ sort_owners sc.now sort }
{
    match sort {
        RowSort::Cells | RowSort::Drift => sc.cells(),
        RowSort::Positions | RowSort::Moves | RowSort::Overlook | RowSort::Looks => sc.positions(),
    }
}

// The rows of a sort.
fn print_sort(out: &mut Vec<u8>, sc: &Scenario, sort: RowSort) -> Result<(), NoMemory>
    requires { IsProblem sc.now }
    ensures ok { OnOk result (out.new.items ≡ out.old.items ++ text_of (sort_rows sc.now sort)) }
    ensures err { OnErr result (Begins out.old.items out.new.items) }
{
    for c in 0..owners(sc, sort) {
        push_sort_row(out, sc, sort, c)?;
    }
    Ok(())
}

// Whether what is in force in one period is what is in force in period 1.
fn is_as_in_first(sc: &Scenario, sort: ChangeSort, t: u32, c: u8) -> bool
    requires problem { IsProblem sc.now }
    requires period { (1 ≤ t) × (t ≤ change_limit sort) }
    requires owner { c < change_owners sc.now sort }
    ensures { result ≡ is_same_row (in_force sc.now sort t c) (in_force sc.now sort 1 c) }
{
    match sort {
        ChangeSort::DriftIn => is_same_drift(sc, t, c),
        ChangeSort::LookIn => is_same_look(sc, t, c),
    }
}

// The row of one period, where it isn't that of period 1.
fn push_change(
    out: &mut Vec<u8>,
    sc: &Scenario,
    sort: ChangeSort,
    t: u32,
    c: u8,
) -> Result<(), NoMemory>
    requires problem { IsProblem sc.now }
    requires period { (1 ≤ t) × (t ≤ change_limit sort) }
    requires owner { c < change_owners sc.now sort }
    ensures ok { OnOk result (out.new.items ≡ out.old.items ++
        text_of (map (change_row sc.now sort) (change_at sc.now sort t c))) }
    ensures err { OnErr result (Begins out.old.items out.new.items) }
{
    if is_as_in_first(sc, sort, t, c) {
        Ok(())
    } else {
        push_in_period(out, sc, sort, t, c)
    }
}

// How many cells or positions can have a row of one period.
fn owners_in(sc: &Scenario, sort: ChangeSort) -> u8
    ensures { result ≡ change_owners sc.now sort }
{
    match sort {
        ChangeSort::DriftIn => sc.cells(),
        ChangeSort::LookIn => sc.positions(),
    }
}

// All such rows of one period.
fn print_period(out: &mut Vec<u8>, sc: &Scenario, sort: ChangeSort, t: u32) -> Result<(), NoMemory>
    requires problem { IsProblem sc.now }
    requires period { (1 ≤ t) × (t ≤ change_limit sort) }
    ensures ok { OnOk result (out.new.items ≡ out.old.items ++
        text_of (map (change_row sc.now sort) (other_rows (in_force sc.now sort) (change_owners sc.now sort) t))) }
    ensures err { OnErr result (Begins out.old.items out.new.items) }
{
    for c in 0..owners_in(sc, sort) {
        push_change(out, sc, sort, t, c)?;
    }
    Ok(())
}

// The period behind the last one that can have a row of its own.
fn behind_last(sc: &Scenario, sort: ChangeSort) -> u32
    ensures value { result ≡ change_last sc.now sort + 1 }
    ensures limit { result ≤ change_limit sort + 1 }
{
    match sort {
        ChangeSort::DriftIn => sc.horizon(),
        ChangeSort::LookIn => sc.horizon() + 1,
    }
}

// And those of all periods but the first.
fn print_changes(out: &mut Vec<u8>, sc: &Scenario, sort: ChangeSort) -> Result<(), NoMemory>
    requires { IsProblem sc.now }
    ensures ok { OnOk result (out.new.items ≡ out.old.items ++ text_of (change_rows sc.now sort)) }
    ensures err { OnErr result (Begins out.old.items out.new.items) }
{
    for t in 2..behind_last(sc, sort) {
        print_period(out, sc, sort, t)?;
    }
    Ok(())
}

// The first row.
fn push_version(out: &mut Vec<u8>, version: TextVersion) -> Result<(), NoMemory>
    ensures ok { OnOk result (out.new.items ≡ out.old.items ++ text_of (version_row version ∷ [])) }
    ensures err { OnErr result (Begins out.old.items out.new.items) }
{
    match version {
        TextVersion::One => push_row(out, b"scenario", &[Field::Word(b"1")]),
        TextVersion::Two => push_row(out, b"scenario", &[Field::Word(b"2")]),
    }
}

// The row of the horizon.
fn push_horizon(out: &mut Vec<u8>, sc: &Scenario) -> Result<(), NoMemory>
    ensures ok { OnOk result (out.new.items ≡ out.old.items ++ text_of (horizon_row sc.now ∷ [])) }
    ensures err { OnErr result (Begins out.old.items out.new.items) }
{
    push_row(out, b"horizon", &[Field::Number(sc.horizon() as u128)])
}

// The row of what first parts, drift parts and parts that are missed are parts of.
fn push_wholes(out: &mut Vec<u8>, sc: &Scenario) -> Result<(), NoMemory>
    ensures ok { OnOk result (out.new.items ≡ out.old.items ++ text_of (wholes_row sc.now ∷ [])) }
    ensures err { OnErr result (Begins out.old.items out.new.items) }
{
    push_row(
        out,
        b"parts",
        &[
            Field::Number(sc.total() as u128),
            Field::Number(sc.drift().denominator() as u128),
            Field::Number(sc.sweep().denominator() as u128),
        ],
    )
}

// The first three rows.
fn print_head(out: &mut Vec<u8>, sc: &Scenario, version: TextVersion) -> Result<(), NoMemory>
    ensures ok { OnOk result (out.new.items ≡ out.old.items ++ text_of (head_rows version sc.now)) }
    ensures err { OnErr result (Begins out.old.items out.new.items) }
{
    push_version(out, version)?;
    push_horizon(out, sc)?;
    push_wholes(out, sc)
}

// The rows up to the cells.
fn print_front(out: &mut Vec<u8>, sc: &Scenario, version: TextVersion) -> Result<(), NoMemory>
    requires { IsProblem sc.now }
    ensures ok { OnOk result (out.new.items ≡ out.old.items ++ text_of (front_rows version sc.now)) }
    ensures err { OnErr result (Begins out.old.items out.new.items) }
{
    print_head(out, sc, version)?;
    print_sort(out, sc, RowSort::Cells)
}

// The row of the start.
fn push_start(out: &mut Vec<u8>, sc: &Scenario) -> Result<(), NoMemory>
    ensures ok { OnOk result (out.new.items ≡ out.old.items ++ text_of (start_row sc.now ∷ [])) }
    ensures err { OnErr result (Begins out.old.items out.new.items) }
{
    let name = sc.position(sc.start());
    push_row(out, b"start", &[Field::Word(name.bytes())])
}

// The rows of the start and of the first parts.
fn print_start(out: &mut Vec<u8>, sc: &Scenario) -> Result<(), NoMemory>
    ensures ok { OnOk result (out.new.items ≡ out.old.items ++ text_of (start_rows sc.now)) }
    ensures err { OnErr result (Begins out.old.items out.new.items) }
{
    push_start(out, sc)?;
    push_first_row(out, sc)
}

// The rows from the start to the drift rows.
fn print_body(out: &mut Vec<u8>, sc: &Scenario) -> Result<(), NoMemory>
    requires { IsProblem sc.now }
    ensures ok { OnOk result (out.new.items ≡ out.old.items ++ text_of (body_rows sc.now)) }
    ensures err { OnErr result (Begins out.old.items out.new.items) }
{
    print_start(out, sc)?;
    print_sort(out, sc, RowSort::Moves)?;
    print_sort(out, sc, RowSort::Drift)
}

// The rows behind them in version 2.
fn print_later(out: &mut Vec<u8>, sc: &Scenario) -> Result<(), NoMemory>
    requires { IsProblem sc.now }
    ensures ok { OnOk result (out.new.items ≡ out.old.items ++ text_of (later_change_rows sc.now)) }
    ensures err { OnErr result (Begins out.old.items out.new.items) }
{
    print_changes(out, sc, ChangeSort::DriftIn)?;
    print_sort(out, sc, RowSort::Looks)?;
    print_changes(out, sc, ChangeSort::LookIn)
}

// The rows of version 1 but the last one.
fn print_plain(out: &mut Vec<u8>, sc: &Scenario) -> Result<(), NoMemory>
    requires { IsProblem sc.now }
    ensures ok { OnOk result (out.new.items ≡ out.old.items ++ text_of (plain_rows sc.now)) }
    ensures err { OnErr result (Begins out.old.items out.new.items) }
{
    print_front(out, sc, TextVersion::One)?;
    print_body(out, sc)?;
    print_sort(out, sc, RowSort::Overlook)
}

// The rows of version 2 but the last one.
fn print_full(out: &mut Vec<u8>, sc: &Scenario) -> Result<(), NoMemory>
    requires { IsProblem sc.now }
    ensures ok { OnOk result (out.new.items ≡ out.old.items ++ text_of (full_rows sc.now)) }
    ensures err { OnErr result (Begins out.old.items out.new.items) }
{
    print_front(out, sc, TextVersion::Two)?;
    print_sort(out, sc, RowSort::Positions)?;
    print_body(out, sc)?;
    print_later(out, sc)
}

// The rows of the version that can say it, but the last one.
fn print_either(out: &mut Vec<u8>, sc: &Scenario) -> Result<(), NoMemory>
    requires { IsProblem sc.now }
    ensures ok { OnOk result (out.new.items ≡ out.old.items ++ text_of (chosen_rows sc.now)) }
    ensures err { OnErr result (Begins out.old.items out.new.items) }
{
    if is_plain(sc) {
        print_plain(out, sc)
    } else {
        print_full(out, sc)
    }
}

// All rows.
fn print_rows(out: &mut Vec<u8>, sc: &Scenario) -> Result<(), NoMemory>
    ensures ok { OnOk result (out.new.items ≡ out.old.items ++ canonical_text sc.now) }
    ensures err { OnErr result (Begins out.old.items out.new.items) }
{
    sc.recall_sound();
    print_either(out, sc)?;
    push_row(out, b"end", &[])
}

/// Appends the canonical text of a scenario: of version 1 where such a text can say it, or else of version 2.
/// At `NoMemory` `out` is as it was.
#[tactic(auto, using(exact_parts::proofs::Beginnings::begins_steps))]
pub fn print_scenario(out: &mut Vec<u8>, sc: &Scenario) -> Result<(), NoMemory>
    ensures ok { OnOk result (out.new.items ≡ out.old.items ++ canonical_text sc.now) }
    ensures err { OnErr result (out.new.items ≡ out.old.items) }
{
    let len = out.len();
    let printed = print_rows(out, sc);
    cut_if_refused(out, len, printed)
}
