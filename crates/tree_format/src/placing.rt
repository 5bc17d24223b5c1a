//! Whether a plan has a text of a dialect.

ghost use Rattle.std.specs.Prelude.{◌≡◌, ◌↔◌, ◌∷◌, [], IsTrue, IfOk, All};
ghost use Rattle.bound_tree.specs.Places.{AreInPlace};
ghost use Rattle.tree_format.specs.Dialects.{prefixes_in as prefixes_in_lem};
ghost use Rattle.tree_format.specs.PlanText.{HasLetter, HasLetters, HavePlaces};

use crate::dialects::{has_edges, has_exchanges, prefixes_in};
use crate::places::Places;
use crate::plan_line::{Dialect, Prefixes};
use bound_tree::{Kind, Plan, TreeNode};
use exact_parts::NoMemory;
use search_model::Scenario;
use std::alloc::Global;

// Whether records have the prefixes that are expected, the empty one first.
fn have_places(places: Places, sc: &Scenario, records: &[TreeNode]) -> bool
    requires { places ≡ [] ∷ [] }
    ensures { IsTrue result ↔ AreInPlace sc.now ([] ∷ []) records.now }
{
    let mut places = places;
    for node in records {
        if !places.takes(sc, node) {
            return false;
        }
    }
    places.first().is_none()
}

/// Whether the records of a plan have the prefixes that are expected, where a dialect leaves these out.
pub fn are_in_place(
    alloc: Global,
    sc: &Scenario,
    dialect: Dialect,
    plan: &Plan,
) -> Result<bool, NoMemory>
    ensures { IfOk result (λ yes. IsTrue yes ↔ HavePlaces (prefixes_in_lem dialect) sc.now ([] ∷ []) plan.now.tree) }
{
    match prefixes_in(dialect) {
        Prefixes::Written => Ok(true),
        Prefixes::LeftOut => {
            let places = Places::start(alloc)?;
            Ok(have_places(places, sc, plan.tree.nodes()))
        }
    }
}

// Whether a dialect has a letter for records of this kind.
fn has_letter(dialect: Dialect, kind: &Kind) -> bool
    ensures { IsTrue result ↔ HasLetter dialect kind.now }
{
    match kind {
        Kind::Branch | Kind::Whole(_) | Kind::Mean(_) | Kind::Tangent(..) => true,
        Kind::Edge(_) => has_edges(dialect),
        Kind::Exchange(..) | Kind::TwoLooks(_) => has_exchanges(dialect),
    }
}

fn have_letters(dialect: Dialect, records: &[TreeNode]) -> bool
    ensures { IsTrue result ↔ All (λ r. HasLetter dialect r.kind) records.now }
{
    for node in records {
        if !has_letter(dialect, &node.kind) {
            return false;
        }
    }
    true
}

/// Whether a dialect has letters for all records of a plan.
pub fn has_letters(dialect: Dialect, plan: &Plan) -> bool
    ensures { IsTrue result ↔ HasLetters dialect plan.now }
{
    have_letters(dialect, plan.tree.nodes())
}
