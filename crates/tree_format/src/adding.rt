//! A line more.

ghost use Rattle.std.specs.Prelude.{◌≡◌, All};
ghost use Rattle.search_model.specs.Legal.{IsLegal};
ghost use Rattle.tree_format.specs.Reading.{next, places_behind, behind_chance as behind_chance_lem, one_less as one_less_lem};
ghost use Rattle.tree_format.specs.Dialects.{prefixes_in as prefixes_in_lem};

use crate::dialects::{has_open, prefixes_in};
use crate::due::Due;
use crate::plan_line::{Dialect, PlanLine, Prefixes, Stage};
use bound_tree::GapKind;
use search_model::Scenario;

// One record less is left.
fn one_less(stage: Stage) -> Stage
    ensures { result ≡ one_less_lem stage }
{
    match stage {
        Stage::Records(left) => Stage::Records(left.saturating_sub(1)),
        Stage::Version(_)
        | Stage::Path
        | Stage::Chance
        | Stage::Ceiling
        | Stage::Count
        | Stage::Ended => stage,
    }
}

// A record of this kind was read.
fn pass_record(due: &mut Due, sc: &Scenario, kind: &GapKind)
    ensures dialect { due.new.dialect ≡ due.old.dialect }
    ensures stage { due.new.stage ≡ one_less_lem due.old.stage }
    ensures expected { All (IsLegal sc.now) due.old.expected →
        due.new.expected ≡ places_behind sc.now (prefixes_in_lem due.old.dialect) due.old.expected kind.now }
{
    due.stage = one_less(due.stage);
    match prefixes_in(due.dialect) {
        Prefixes::Written => {}
        Prefixes::LeftOut => due.expected.go_on(sc, kind),
    }
}

// The line behind `chance V W`.
fn behind_chance(dialect: Dialect) -> Stage
    ensures { result ≡ behind_chance_lem dialect }
{
    if has_open(dialect) {
        Stage::Ceiling
    } else {
        Stage::Count
    }
}

/// Goes on behind a line that says this.
pub fn pass_line(due: &mut Due, sc: &Scenario, said: &PlanLine)
    ensures dialect { due.new.dialect ≡ (next sc.now due.old said.now).dialect }
    ensures stage { due.new.stage ≡ (next sc.now due.old said.now).stage }
    ensures due { All (IsLegal sc.now) due.old.expected → due.new ≡ next sc.now due.old said.now }
{
    match said {
        PlanLine::Version(dialect) => {
            due.dialect = *dialect;
            due.stage = Stage::Path;
        }
        PlanLine::Path(_) => due.stage = Stage::Chance,
        PlanLine::Chance(..) => due.stage = behind_chance(due.dialect),
        PlanLine::Ceiling(_) => due.stage = Stage::Count,
        PlanLine::Count(count) => due.stage = Stage::Records(*count),
        PlanLine::Node(node) => pass_record(due, sc, &node.kind),
        PlanLine::End => due.stage = Stage::Ended,
    }
}
