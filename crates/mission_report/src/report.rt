//! The report as text.

ghost use Rattle.std.specs.Prelude.{◌≡◌, ◌≤◌, ◌<◌, ◌++◌, ◌∷◌, [], ℕ, List, Some, map, OnOk, OnErr};
ghost use Rattle.exact_parts.specs.Appending.{Begins};
ghost use Rattle.text_rows.specs.Rows.{text_of};
ghost use Rattle.search_model.specs.Legal.{IsPath};
ghost use Rattle.search_model.specs.Tracks.{whole_weight};
ghost use Rattle.belief_update.specs.Belief.{IsBelief};
ghost use Rattle.mission_report.specs.Account.{values_along};
ghost use Rattle.mission_report.specs.Course.{IsCourse};
ghost use Rattle.mission_report.specs.Report.{chance_row, period_row, period_rows, left_row, mass_rows, report_text};

use crate::course::{Course, follow, value_after};
use belief_update::{Belief, later_parts};
use exact_parts::{NoMemory, cut_if_refused};
use search_model::{Path, Scenario};
use text_rows::{Field, push_row};

/// Appends the line `chance VALUE WEIGHT SHARE` of a value: a part of the whole weight.
///
/// # Errors
///
/// `NoMemory`: `out` is then as it was.
pub fn push_chance(out: &mut Vec<u8>, sc: &Scenario, value: u128) -> Result<(), NoMemory>
    requires { value ≤ whole_weight sc.now }
    ensures ok { OnOk result (out.new.items ≡ out.old.items ++ text_of (chance_row sc.now value ∷ [])) }
    ensures err { OnErr result (out.new.items ≡ out.old.items) }
{
    let whole = sc.weight();
    let len = out.len();
    let appended = push_row(
        out,
        b"chance",
        &[
            Field::Number(value),
            Field::Number(whole),
            Field::Share(value, whole),
        ],
    );
    cut_if_refused(out, len, appended)
}

// Appends the line of a period: the position that is looked from, and the value up to then.
fn push_period(
    out: &mut Vec<u8>,
    sc: &Scenario,
    t: u32,
    position: u8,
    value: u128,
) -> Result<(), NoMemory>
    requires position { position < sc.now.positions }
    requires value { value ≤ whole_weight sc.now }
    ensures ok { OnOk result (out.new.items ≡ out.old.items ++ text_of (period_row sc.now t position value ∷ [])) }
    ensures err { OnErr result (Begins out.old.items out.new.items) }
{
    push_row(
        out,
        b"period",
        &[
            Field::Number(u128::from(t)),
            Field::Word(sc.position(position).bytes()),
            Field::Number(value),
            Field::Share(value, sc.weight()),
        ],
    )
}

// Appends the line of a cell: the mass that is left there.
fn push_left(out: &mut Vec<u8>, sc: &Scenario, c: u8, mass: u128) -> Result<(), NoMemory>
    requires cell { c < sc.now.cells }
    requires mass { mass ≤ whole_weight sc.now }
    ensures ok { OnOk result (out.new.items ≡ out.old.items ++ text_of (left_row sc.now c mass ∷ [])) }
    ensures err { OnErr result (Begins out.old.items out.new.items) }
{
    push_row(
        out,
        b"left",
        &[
            Field::Word(sc.name(c).bytes()),
            Field::Number(mass),
            Field::Share(mass, sc.weight()),
        ],
    )
}

// Appends a line for each period of a path, by the path's value up to it.
#[tactic(auto, using(text_rows::proofs::RowSteps::row_steps))]
fn push_periods(
    out: &mut Vec<u8>,
    sc: &Scenario,
    path: &Path,
    values: &[u128],
) -> Result<(), NoMemory>
    requires path { IsPath sc.now path.now }
    requires values { values.now ≡ values_along sc.now path.now }
    ensures ok { OnOk result (out.new.items ≡ out.old.items ++ text_of (period_rows sc.now path.now)) }
    ensures err { OnErr result (Begins out.old.items out.new.items) }
{
    sc.recall_sound();
    let looks = path.cells();
    for i in 0..looks.len() {
        push_period(out, sc, i as u32 + 1, looks[i], values[i])?;
    }
    Ok(())
}

/// Appends a line for each cell: its mass in the belief's period, by the belief after the looks up to then.
#[tactic(auto, using(text_rows::proofs::RowSteps::row_steps))]
pub fn push_masses(out: &mut Vec<u8>, sc: &Scenario, belief: &Belief) -> Result<(), NoMemory>
    requires { (q : List ℕ) × IsBelief sc.now (map Some q) belief.now }
    ensures ok { OnOk result ((q : List ℕ) → IsBelief sc.now (map Some q) belief.now →
        out.new.items ≡ out.old.items ++ text_of (mass_rows sc.now q belief.now.period)) }
    ensures err { OnErr result (Begins out.old.items out.new.items) }
{
    let t = belief.period();
    let later = later_parts(sc, t, t);
    for c in 0..sc.cells() {
        push_left(out, sc, c, belief.at(c) * later)?;
    }
    Ok(())
}

// Appends the lines of a report, by the numbers along its path.
#[tactic(auto, using(text_rows::proofs::RowSteps::row_steps))]
fn push_course(
    out: &mut Vec<u8>,
    sc: &Scenario,
    path: &Path,
    course: &Course,
) -> Result<(), NoMemory>
    requires path { IsPath sc.now path.now }
    requires course { IsCourse sc.now path.now course.now }
    ensures ok { OnOk result (out.new.items ≡ out.old.items ++ report_text sc.now path.now) }
    ensures err { OnErr result (Begins out.old.items out.new.items) }
{
    sc.recall_sound();
    push_row(out, b"report", &[Field::Word(b"1")])?;
    push_chance(out, sc, value_after(sc, &course.belief))?;
    push_periods(out, sc, path, &course.values)?;
    push_masses(out, sc, &course.belief)?;
    push_row(out, b"end", &[])
}

/// Appends the report of a path: its value, the value up to each period, and the mass that it leaves in each cell, each
/// with its share of the whole weight in percent.
///
/// # Errors
///
/// `NoMemory`: `out` is then as it was.
pub fn push_report(out: &mut Vec<u8>, sc: &Scenario, path: &Path) -> Result<(), NoMemory>
    requires { IsPath sc.now path.now }
    ensures ok { OnOk result (out.new.items ≡ out.old.items ++ report_text sc.now path.now) }
    ensures err { OnErr result (out.new.items ≡ out.old.items) }
{
    let course = follow(*out.allocator(), sc, path)?;
    let len = out.len();
    let appended = push_course(out, sc, path, &course);
    cut_if_refused(out, len, appended)
}
