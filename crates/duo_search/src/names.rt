//! The names of the positions of both.

ghost use Rattle.std.specs.Prelude.{◌≡◌, ◌<◌, ◌≤◌, IfOk};
ghost use Rattle.duo_search.specs.Product.{product_name, product_names};

use exact_parts::{NoMemory, push_u128};
use search_model::Name;
use std::alloc::Global;

// The name of the position at which the first and the second are at these.
fn pair_name(alloc: Global, first: u8, second: u8) -> Result<Name, NoMemory>
    ensures { IfOk result (λ name. name ≡ product_name first second) }
{
    let mut text = Vec::new(alloc);
    text.push(b'p')?;
    push_u128(&mut text, u128::from(first))?;
    text.push(b'-')?;
    push_u128(&mut text, u128::from(second))?;
    match Name::new(&text) {
        Some(name) => Ok(name),
        None => unreachable!(),
    }
}

/// The names of all pairs of so many positions.
pub(crate) fn pair_names(alloc: Global, positions: u8) -> Result<Vec<Name>, NoMemory>
    requires some { 1 ≤ positions }
    requires few { positions ≤ 14 }
    ensures { IfOk result (λ names. names.items ≡ product_names positions) }
{
    let mut names = Vec::new(alloc);
    for both in 0..positions * positions {
        names.push(pair_name(alloc, both / positions, both % positions)?)?;
    }
    Ok(names)
}
