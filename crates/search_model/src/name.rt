//! Names of cells and of positions.

ghost use Rattle.std.specs.Prelude.{◌≡◌, length, IfSome, IfNone};
ghost use Rattle.std.specs.List.{list_all};
ghost use Rattle.search_model.specs.Names.{IsName, is_name_byte as is_name_byte_lem};

use std::marker::Model;

// The most bytes of a name.
const LONGEST: usize = 24;

/// The name of a cell or of a position: 1 to 24 bytes of `a-z A-Z 0-9 _ -`, in place.
#[derive(Clone, Copy)]
pub struct Name {
    places: [u8; LONGEST],
    len: usize,
}

impl Model for Name {
    ghost use Rattle.std.specs.Prelude.{List, ℕ, take, length};
    ghost use Rattle.search_model.specs.PathPlaces.{padded};
    ghost use Rattle.search_model.specs.NamePlaces.{IsNamePlaces};

    ghost Value = { List ℕ };

    ghost view = { λ n. take n.len n.places };

    ghost invariant = { λ n. IsNamePlaces n.places n.len };

    ghost inverse = { λ xs. record { places = padded 24 xs; len = length xs } };
}

fn is_name_byte(b: u8) -> bool
    ensures { result ≡ is_name_byte_lem b }
{
    b.is_ascii_lowercase() || b.is_ascii_uppercase() || b.is_ascii_digit() || b == b'_' || b == b'-'
}

fn are_name_bytes(bytes: &[u8]) -> bool
    ensures { result ≡ list_all is_name_byte_lem bytes.now }
{
    bytes.iter().all(|b| is_name_byte(*b))
}

impl Name {
    /// The name of these bytes, or `None` where they are none, too many, or not all name bytes.
    pub fn new(bytes: &[u8]) -> Option<Name>
        ensures some { IfSome result (λ n. (n ≡ bytes.now) × IsName bytes.now) }
        ensures none { IfNone result (¬ IsName bytes.now) }
    {
        if bytes.is_empty() || bytes.len() > LONGEST || !are_name_bytes(bytes) {
            return None;
        }
        let mut places = [0; LONGEST];
        places[..bytes.len()].copy_from_slice(bytes);
        Some(Name {
            places,
            len: bytes.len(),
        })
    }

    /// The bytes.
    pub fn bytes(&self) -> &[u8]
        ensures value { result.now ≡ self.now }
        ensures sound { IsName self.now }
    {
        &self.places[..self.len]
    }
}
