//! The map of a prefix: where the target may be in each of its periods.

ghost use Rattle.std.specs.Prelude.{◌≡◌, ◌≤◌, ◌<◌, ◌++◌, ◌∷◌, [], ℕ, List, Some, map, length, OnOk, OnErr};
ghost use Rattle.exact_parts.specs.Appending.{Begins};
ghost use Rattle.text_rows.specs.Rows.{text_of};
ghost use Rattle.search_model.specs.Legal.{IsLegal};
ghost use Rattle.belief_update.specs.Belief.{IsBelief};
ghost use Rattle.belief_update.specs.Trails.{IsTrailOf};
ghost use Rattle.mission_report.specs.Report.{mass_rows};
ghost use Rattle.mission_report.specs.Map.{looked_row, period_blocks, map_text};

use crate::report::push_masses;
use belief_update::{Belief, Trail};
use exact_parts::{NoMemory, cut_if_refused};
use search_model::{Path, Scenario};
use text_rows::{Field, push_row};

// Appends the line of a period: the position that is looked from.
fn push_looked(out: &mut Vec<u8>, sc: &Scenario, t: u32, position: u8) -> Result<(), NoMemory>
    requires { position < sc.now.positions }
    ensures ok { OnOk result (out.new.items ≡ out.old.items ++ text_of (looked_row sc.now t position ∷ [])) }
    ensures err { OnErr result (Begins out.old.items out.new.items) }
{
    push_row(
        out,
        b"period",
        &[
            Field::Number(u128::from(t)),
            Field::Word(sc.position(position).bytes()),
        ],
    )
}

// Appends what a map says of a period, by the belief after its look: the position looked from, and the mass of each cell.
#[tactic(auto, using(text_rows::proofs::RowSteps::row_steps))]
fn push_look(
    out: &mut Vec<u8>,
    sc: &Scenario,
    position: u8,
    belief: &Belief,
) -> Result<(), NoMemory>
    requires position { position < sc.now.positions }
    requires belief { (q : List ℕ) × IsBelief sc.now (map Some q) belief.now }
    ensures ok { OnOk result ((q : List ℕ) → IsBelief sc.now (map Some q) belief.now →
        out.new.items ≡ out.old.items ++
        text_of (looked_row sc.now belief.now.period position ∷ mass_rows sc.now q belief.now.period)) }
    ensures err { OnErr result (Begins out.old.items out.new.items) }
{
    push_looked(out, sc, belief.period(), position)?;
    push_masses(out, sc, belief)
}

// Appends what a map says of each period, by the beliefs along the prefix.
#[tactic(auto, using(text_rows::proofs::RowSteps::row_steps))]
fn push_looks(out: &mut Vec<u8>, sc: &Scenario, flown: &Path, trail: &Trail) -> Result<(), NoMemory>
    requires legal { IsLegal sc.now flown.now }
    requires trail { IsTrailOf sc.now trail.now }
    requires prefix { trail.now.prefix ≡ flown.now }
    ensures ok { OnOk result (out.new.items ≡ out.old.items ++ text_of (period_blocks sc.now flown.now)) }
    ensures err { OnErr result (Begins out.old.items out.new.items) }
{
    sc.recall_sound();
    let looks = flown.cells();
    for i in 0..looks.len() {
        push_look(out, sc, looks[i], trail.row(i + 1))?;
    }
    Ok(())
}

// Appends the lines of a map.
#[tactic(auto, using(text_rows::proofs::RowSteps::row_steps))]
fn push_lines(out: &mut Vec<u8>, sc: &Scenario, flown: &Path) -> Result<(), NoMemory>
    requires legal { IsLegal sc.now flown.now }
    requires some { 1 ≤ length flown.now }
    ensures ok { OnOk result (out.new.items ≡ out.old.items ++ map_text sc.now flown.now) }
    ensures err { OnErr result (Begins out.old.items out.new.items) }
{
    let mut trail = Trail::tables(*out.allocator(), sc)?;
    trail.go_to(sc, flown);
    push_row(out, b"map", &[Field::Word(b"1")])?;
    push_looks(out, sc, flown, &trail)?;
    push_row(out, b"end", &[])
}

/// Appends the map of a prefix that was flown: for each of its periods the position looked from, and the mass of each cell
/// that the looks up to then leave, with its share of the whole weight in percent.
///
/// # Errors
///
/// `NoMemory`: `out` is then as it was.
pub fn push_map(out: &mut Vec<u8>, sc: &Scenario, flown: &Path) -> Result<(), NoMemory>
    requires legal { IsLegal sc.now flown.now }
    requires some { 1 ≤ length flown.now }
    ensures ok { OnOk result (out.new.items ≡ out.old.items ++ map_text sc.now flown.now) }
    ensures err { OnErr result (out.new.items ≡ out.old.items) }
{
    let len = out.len();
    let appended = push_lines(out, sc, flown);
    cut_if_refused(out, len, appended)
}
