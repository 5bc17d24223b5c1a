//! Fields in the place of a number.

ghost use Rattle.std.specs.Prelude.{◌≡◌, ◌≤◌, ◌<◌};
ghost use Rattle.scenario_text.specs.Fields.{is_bad as is_bad_lem, is_over as is_over_lem, number_in as number_in_lem};
ghost use Rattle.exact_parts.specs.Decimal.{number_at as number_at_lem};

use exact_parts::{Number, number_of};

/// The most of a part, and of a denominator.
pub const MOST_PART: u128 = 1_000_000;

/// What a field says in the place of a number of at most `most`.
#[tactic(auto, using(crate::proofs::Numbers::number_steps))]
pub fn number_at(field: &[u8], most: u128) -> Number
    ensures value { result ≡ number_at_lem most field.now }
    ensures within { number_in_lem result ≤ most }
{
    number_of(field, most)
}

/// Whether it is no plain decimal, or below the least.
pub fn is_bad(number: Number, least: u128) -> bool
    ensures { result ≡ is_bad_lem least number }
{
    match number {
        Number::NotPlain => true,
        Number::Above => false,
        Number::Of(n) => n < least,
    }
}

/// Whether it is above its limit.
pub fn is_over(number: Number) -> bool
    ensures { result ≡ is_over_lem number }
{
    matches!(number, Number::Above)
}

/// The number, or 0 where there is none.
pub fn number_in(number: Number) -> u32
    requires { number_in_lem number < 4294967296 }
    ensures { result ≡ number_in_lem number }
{
    match number {
        Number::Of(n) => n as u32,
        Number::NotPlain | Number::Above => 0,
    }
}
