//! Names of cells and of positions, and the numbers that they name.

ghost use Rattle.std.specs.Prelude.{◌≡◌, ◌≤◌, ◌<◌, map, length, vec_len, IfSome};
ghost use Rattle.std.specs.List.{list_all};
ghost use Rattle.search_model.specs.Names.{is_name_byte as is_name_byte_lem};
ghost use Rattle.scenario_text.specs.Fields.{cell_named as cell_named_lem};
ghost use Rattle.scenario_text.specs.State.{state_of, positions_in};
ghost use Rattle.scenario_text.specs.Sound.{IsSound};

use crate::draft::{Draft, TextVersion};
use indexmap::IndexSet;

/// Whether all bytes are those that names have.
pub fn are_name_bytes(name: &[u8]) -> bool
    ensures { result ≡ list_all is_name_byte_lem name.now }
{
    name.iter().all(|c| c.is_ascii_lowercase()
        || c.is_ascii_uppercase()
        || c.is_ascii_digit()
        || *c == b'_'
        || *c == b'-')
}

/// The names of the positions.
pub fn positions_of(draft: &Draft) -> &IndexSet<Vec<u8>>
    requires { IsSound (state_of draft.now) }
    ensures names { map (λ n. n.items) result.now.keys ≡ positions_in (state_of draft.now) }
    ensures few { length result.now.keys ≤ 200 }
    ensures rows { length result.now.keys ≡ vec_len draft.now.moves }
{
    match draft.version {
        TextVersion::One => &draft.names,
        TextVersion::Two => &draft.positions,
    }
}

/// The number of the cell, or of the position, of this name.
pub fn cell_named(names: &IndexSet<Vec<u8>>, name: &[u8]) -> Option<u8>
    requires { length names.now.keys ≤ 200 }
    ensures value { result ≡ cell_named_lem (map (λ n. n.items) names.now.keys) name.now }
    ensures within { IfSome result (λ c. c < length names.now.keys) }
{
    match names.get_index_of(name) {
        Some(c) => Some(c as u8),
        None => None,
    }
}
