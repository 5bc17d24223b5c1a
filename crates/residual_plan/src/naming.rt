//! The names of the positions of the scenario that forces a flown prefix.

ghost use Rattle.std.specs.Prelude.{◌≡◌, ◌≤◌, ◌+◌, ◌++◌, ◌↔◌, length, IsTrue, IfOk};
ghost use Rattle.search_model.specs.Names.{IsName};
ghost use Rattle.residual_plan.specs.Forced.{forced_name as forced_name_lem, forced_names, IsNameTaken};

use exact_parts::NoMemory;
use search_model::{Name, Path, Scenario};
use std::alloc::Global;

// The name of bytes that make one.
fn name_of(bytes: &[u8]) -> Name
    requires { IsName bytes.now }
    ensures { result ≡ bytes.now }
{
    match Name::new(bytes) {
        Some(name) => name,
        None => unreachable!(),
    }
}

// `flown-` and a number of periods in decimals.
fn forced_name(i: u8) -> Name
    requires { i ≤ 32 }
    ensures { result ≡ forced_name_lem i }
{
    let last = b'0' + i % 10;
    if i < 10 {
        return name_of(&[b'f', b'l', b'o', b'w', b'n', b'-', last]);
    }
    name_of(&[b'f', b'l', b'o', b'w', b'n', b'-', b'0' + i / 10, last])
}

// How many new positions there are: one for the start, and one for each flown period.
fn new_positions(flown: &Path) -> u8
    ensures value { result ≡ length flown.now + 1 }
    ensures few { result ≤ 33 }
{
    flown.len() as u8 + 1
}

/// Whether a position has a name that the forced scenario needs for a new one.
pub(crate) fn is_name_taken(sc: &Scenario, flown: &Path) -> bool
    ensures { IsTrue result ↔ IsNameTaken sc.now flown.now }
{
    for i in 0..new_positions(flown) {
        if sc.is_position(forced_name(i).bytes()) {
            return true;
        }
    }
    false
}

// The names of all positions.
fn own_names(alloc: Global, sc: &Scenario) -> Result<Vec<Name>, NoMemory>
    ensures { IfOk result (λ names. names.items ≡ sc.now.position_names) }
{
    let mut names = Vec::new(alloc);
    for a in 0..sc.positions() {
        names.push(*sc.position(a))?;
    }
    Ok(names)
}

/// The names of all positions, and of the new ones.
pub(crate) fn names(alloc: Global, sc: &Scenario, flown: &Path) -> Result<Vec<Name>, NoMemory>
    ensures { IfOk result (λ names. names.items ≡ sc.now.position_names ++ forced_names (length flown.now)) }
{
    let mut names = own_names(alloc, sc)?;
    for i in 0..new_positions(flown) {
        names.push(forced_name(i))?;
    }
    Ok(names)
}
