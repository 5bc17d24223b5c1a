ghost use Rattle.std.specs.Prelude.{◌≡◌, ◌≢◌, ◌<◌, ◌^◌, ◌+◌, ◌*◌, ℕ, IfSome, IfNone, true};
ghost use Rattle.std.specs.Fmt.{decimal};
ghost use Rattle.std.specs.Char.{digit_value, is_ascii_digit};
ghost use Rattle.std.specs.Int.{IsInRange};
ghost use Rattle.std.specs.Option.{SomeIff};
ghost use Rattle.std.specs.List.{list_all};
ghost use Rattle.std.specs.Str.Parse.{digits_value};
ghost use Rattle.exact_parts.specs.Decimal.{is_plain, Spells, number_at};

use crate::number::Number;

fn are_digits(text: &[u8]) -> bool
    ensures { result ≡ list_all is_ascii_digit text.now }
{
    text.iter().all(|d| d.is_ascii_digit())
}

#[tactic(auto, unfolding(crate::specs::Decimal::is_plain))]
fn is_plain_decimal(text: &[u8]) -> bool
    ensures { result ≡ is_plain text.now }
{
    match text {
        [] => false,
        [first, rest @ ..] => {
            if *first == b'0' {
                rest.is_empty()
            } else {
                first.is_ascii_digit() && are_digits(rest)
            }
        }
    }
}

// The number with one digit more at its end, where that is below 2 to the power 128.
fn with_digit(n: u128, digit: u8) -> Option<u128>
    requires { IsInRange 48 57 digit }
    ensures { SomeIff result (n * 10 + digit_value digit < 2 ^ 128) (n * 10 + digit_value digit) }
{
    let tens = n.checked_mul(10)?;
    tens.checked_add(u128::from(digit - b'0'))
}

/// The number that a field spells, where it is at most `most`. It is exact for a field of any length.
#[tactic(auto, using(crate::proofs::PlainDigits::plain_steps), unfolding(crate::specs::Decimal::number_at))]
pub fn number_of(text: &[u8], most: u128) -> Number
    ensures spells { Spells most text.now result }
    ensures same { result ≡ number_at most text.now }
{
    if !is_plain_decimal(text) {
        return Number::NotPlain;
    }
    let mut n: u128 = 0;
    for d in text {
        match with_digit(n, *d) {
            None => return Number::Above,
            Some(more) => n = more,
        }
    }
    if n > most {
        Number::Above
    } else {
        Number::Of(n)
    }
}

/// The number below 2 to the power 128 whose decimal text this is: `0`, or a digit from 1 to 9 followed by digits.
#[tactic(auto, using(crate::proofs::Canonical::decimal_texts))]
pub fn read_u128(text: &[u8]) -> Option<u128>
    ensures spelled { IfSome result (λ n. text.now ≡ decimal n) }
    ensures unspelled { IfNone result ((n : ℕ) → n < 2 ^ 128 → text.now ≢ decimal n) }
    ensures plain { SomeIff result ((is_plain text.now ≡ true) ×
        (digits_value 10 text.now < 2 ^ 128)) (digits_value 10 text.now) }
{
    match number_of(text, u128::MAX) {
        Number::Of(n) => Some(n),
        Number::NotPlain | Number::Above => None,
    }
}
