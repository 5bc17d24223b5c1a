//! The options of a command, and the numbers in words.

ghost use Rattle.std.specs.Prelude.{◌≡◌, ◌≤◌, ◌⊎◌, map, string_bytes, take, drop, IfSome};
ghost use Rattle.std.specs.Str.{bytes_eq};
ghost use Rattle.plan_command.specs.WordReading.{number_within, option_at, workers_at, nodes_at, begins_with, options_at};

use crate::request::{MOST_WORKERS, WORKERS};
use exact_parts::{Number, number_of};

/// Whether a word is this one.
pub fn is_word(word: &str, name: &str) -> bool
    ensures { result ≡ bytes_eq word.now name.now }
{
    word == name
}

/// The number that a word spells, where it is within these limits.
pub fn number_between(word: &str, least: u64, most: u64) -> Option<u64>
    ensures value { result ≡ number_within least most word.now }
    ensures within { IfSome result (λ n. n ≤ most) }
{
    match number_of(word.as_bytes(), u128::from(most)) {
        Number::Of(n) if n >= u128::from(least) => Some(n as u64),
        _ => None,
    }
}

// The number of an option up to the most, or the default where there are no words.
#[tactic(auto, using(crate::proofs::WordLists::word_steps))]
fn option_from(words: &[String], name: &str, most: u64, default: u64) -> Option<u64>
    ensures value { result ≡ option_at name.now most default (map string_bytes words.now) }
    ensures within { IfSome result (λ n. (n ≤ most) ⊎ (n ≤ default)) }
{
    match words {
        [] => Some(default),
        [word, value] => {
            if is_word(word.as_str(), name) {
                number_between(value.as_str(), 1, most)
            } else {
                None
            }
        }
        _ => None,
    }
}

// A number of workers.
fn workers_from(words: &[String]) -> Option<u32>
    ensures { result ≡ workers_at (map string_bytes words.now) }
{
    let workers = option_from(
        words,
        "--workers",
        u64::from(MOST_WORKERS),
        u64::from(WORKERS),
    )?;
    Some(workers as u32)
}

// A number of records.
fn nodes_from(words: &[String], most: u64) -> Option<u64>
    ensures { result ≡ nodes_at most (map string_bytes words.now) }
{
    option_from(words, "--nodes", most, most)
}

// Whether the first word is this one.
#[tactic(auto, using(crate::proofs::WordLists::word_steps))]
fn begins(words: &[String], name: &str) -> bool
    ensures { result ≡ begins_with name.now (map string_bytes words.now) }
{
    match words {
        [word, ..] => is_word(word.as_str(), name),
        [] => false,
    }
}

/// The words in front of a place, and those from there on.
pub fn cut(words: &[String], place: usize) -> (&[String], &[String])
    ensures front { map string_bytes result.0.now ≡ take place (map string_bytes words.now) }
    ensures behind { map string_bytes result.1.now ≡ drop place (map string_bytes words.now) }
{
    words.split_at(place.min(words.len()))
}

/// How many workers, and how many records up to the most, the options say.
#[tactic(auto, unfolding(crate::specs::WordReading::options_at))]
pub fn options_from(words: &[String], most: u64) -> Option<(u32, u64)>
    ensures { result ≡ options_at most (map string_bytes words.now) }
{
    let (first, others) = cut(words, 2);
    if begins(words, "--nodes") {
        let nodes = nodes_from(first, most)?;
        let workers = workers_from(others)?;
        Some((workers, nodes))
    } else {
        let workers = workers_from(first)?;
        let nodes = nodes_from(others, most)?;
        Some((workers, nodes))
    }
}
