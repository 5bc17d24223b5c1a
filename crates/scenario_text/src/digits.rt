//! Decimal text in place.

ghost use Rattle.std.specs.Prelude.{◌≡◌};
ghost use Rattle.std.specs.Fmt.{decimal};

use exact_parts::digits;
use std::marker::Model;

/// The decimal text of a number.
#[derive(Drop)]
pub struct Digits {
    places: [u8; 39],
    len: usize,
}

impl Model for Digits {
    ghost use Rattle.std.specs.Prelude.{List, ℕ, take, ◌≤◌};

    ghost Value = { List ℕ };

    ghost view = { λ d. take d.len d.places };

    ghost invariant = { λ d. d.len ≤ 39 };
}

impl Digits {
    /// The text of this number.
    pub fn of(n: u32) -> Digits
        ensures { result ≡ decimal n }
    {
        let mut places = [0; 39];
        let len = digits(u128::from(n), &mut places);
        Digits { places, len }
    }

    /// The digits.
    pub fn bytes(&self) -> &[u8]
        ensures { result.now ≡ self.now }
    {
        &self.places[..self.len]
    }
}
