//! Fields in the place of a number or a name.

ghost use Rattle.std.specs.Prelude.{◌≡◌, ◌≤◌, ◌<◌, map, length};
ghost use Rattle.search_model.specs.Problem.{position_named};
ghost use Rattle.tree_format.specs.Reading.{amount_in as amount_in_lem, place_in as place_in_lem, all_of};

use exact_parts::{Number, number_of};
use search_model::{Path, Scenario};

/// The number below 2 to the power 128 that a field spells.
pub fn amount_in(field: &[u8]) -> Option<u128>
    ensures { result ≡ amount_in_lem field.now }
{
    match number_of(field, u128::MAX) {
        Number::Of(n) => Some(n),
        Number::NotPlain | Number::Above => None,
    }
}

// The position whose number a field spells.
fn place_in(sc: &Scenario, field: &[u8]) -> Option<u8>
    ensures { result ≡ place_in_lem sc.now field.now }
{
    match number_of(field, u128::from(sc.positions() - 1)) {
        Number::Of(n) => Some(n as u8),
        Number::NotPlain | Number::Above => None,
    }
}

/// The positions whose numbers these fields spell, where each spells one.
#[tactic(auto, using(crate::proofs::FieldSteps::all_steps))]
pub fn places_in(sc: &Scenario, fields: &[&[u8]]) -> Option<Path>
    requires { length fields.now ≤ 32 }
    ensures { result ≡ all_of (place_in_lem sc.now) (map (λ f. f.now) fields.now) }
{
    let mut path = Path::empty();
    for field in fields {
        path.push(place_in(sc, field)?);
    }
    Some(path)
}

/// The positions of these names, where each is one's.
#[tactic(auto, using(crate::proofs::FieldSteps::all_steps))]
pub fn positions_named(sc: &Scenario, names: &[&[u8]]) -> Option<Path>
    requires { length names.now ≤ 32 }
    ensures { result ≡ all_of (position_named sc.now) (map (λ f. f.now) names.now) }
{
    let mut path = Path::empty();
    for name in names {
        path.push(sc.position_named(name)?);
    }
    Some(path)
}
