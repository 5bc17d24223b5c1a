//! The words of the command line.

ghost use Rattle.std.specs.Prelude.{◌≡◌, ◌≤◌, ◌<◌, ◌+◌, [], ◌∷◌, map, length, position, string_bytes, IfSome, IfNone};
ghost use Rattle.std.specs.List.{list_all};
ghost use Rattle.std.specs.Str.{bytes_eq};
ghost use Rattle.plan_command.specs.Words.{Spells, SpellNone};
ghost use Rattle.search_model.specs.Names.{is_name as is_name_lem};
ghost use Rattle.plan_command.specs.WordReading.{plan_at, gap_at, alone_at, report_at, make_at, drill_at, are_flown as are_flown_lem, place_of as place_of_lem, replan_at, map_at, name_in, duo_with as duo_with_lem, duo_at, options_at, request_at};

use crate::options::{cut, is_word, number_between, options_from};
use crate::request::{MOST_CLOSED, MOST_FLOWN, Request};
use bound_tree::MOST_NODES;
use search_model::Name;

// The words behind `plan`.
fn plan_request(words: &[String]) -> Option<Request>
    ensures { result ≡ plan_at (map string_bytes words.now) }
{
    let (workers, nodes) = options_from(words, MOST_NODES)?;
    Some(Request::Plan { workers, nodes })
}

// The words behind `gap`.
fn gap_request(words: &[String]) -> Option<Request>
    ensures { result ≡ gap_at (map string_bytes words.now) }
{
    let (workers, nodes) = options_from(words, MOST_CLOSED)?;
    Some(Request::Gap { workers, nodes })
}

// A request that has no words behind its command.
#[tactic(auto, using(crate::proofs::WordLists::word_steps))]
fn request_alone(request: Request, words: &[String]) -> Option<Request>
    ensures { result ≡ alone_at request (map string_bytes words.now) }
{
    if words.is_empty() {
        Some(request)
    } else {
        None
    }
}

// The words behind `report`.
#[tactic(auto, using(crate::proofs::WordLists::word_steps))]
fn report_request(words: &[String]) -> Option<Request>
    ensures { result ≡ report_at (map string_bytes words.now) }
{
    match words {
        [] => Some(Request::Report { json: false }),
        [name, value] => {
            if is_word(name.as_str(), "--json") && is_word(value.as_str(), "yes") {
                Some(Request::Report { json: true })
            } else {
                None
            }
        }
        _ => None,
    }
}

// The words behind `make`.
#[tactic(auto, using(crate::proofs::WordLists::word_steps))]
fn make_request(words: &[String]) -> Option<Request>
    ensures { result ≡ make_at (map string_bytes words.now) }
{
    match words {
        [number] => {
            let number = number_between(number.as_str(), 0, u64::MAX)?;
            Some(Request::Make { number })
        }
        _ => None,
    }
}

// `drill` with a number, and options behind it.
fn drill_with(number: &str, options: &[String]) -> Option<Request>
    ensures { result ≡ drill_at (number.now ∷ map string_bytes options.now) }
{
    let number = number_between(number, 0, u64::MAX)?;
    let (workers, _) = options_from(options, 0)?;
    Some(Request::Drill { number, workers })
}

// The words behind `drill`.
#[tactic(auto, using(crate::proofs::WordLists::word_steps))]
fn drill_request(words: &[String]) -> Option<Request>
    ensures { result ≡ drill_at (map string_bytes words.now) }
{
    match words {
        [number, options @ ..] => drill_with(number.as_str(), options),
        [] => None,
    }
}

// The first place of a word.
fn first_place(words: &[String], name: &str) -> Option<usize>
    ensures place { result ≡ position (λ word. bytes_eq (string_bytes word) name.now) words.now }
    ensures inside { IfSome result (λ k. k < length words.now) }
{
    words.iter().position(|word| is_word(word.as_str(), name))
}

// The same, by the texts of the words.
#[tactic(auto, using(crate::proofs::WordLists::place_steps))]
fn place_of(words: &[String], name: &str) -> Option<usize>
    ensures place { result ≡ place_of_lem name.now (map string_bytes words.now) }
    ensures inside { IfSome result (λ k. k < length words.now) }
{
    first_place(words, name)
}

// The name that a word is.
#[tactic(auto, using(crate::proofs::WordLists::name_steps))]
fn name_from(word: &str) -> Option<Name>
    ensures { result ≡ name_in word.now }
{
    Name::new(word.as_bytes())
}

// Whether a word is a name.
fn is_name(word: &str) -> bool
    ensures { result ≡ is_name_lem word.now }
{
    name_from(word).is_some()
}

// Whether all words are names.
fn are_names(names: &[String]) -> bool
    ensures { result ≡ list_all (λ name. is_name_lem (string_bytes name)) names.now }
{
    names.iter().all(|name| is_name(name.as_str()))
}

// Whether words are 1 to 32 names.
#[tactic(auto, using(crate::proofs::WordLists::name_steps), unfolding(crate::specs::WordReading::are_flown))]
fn are_flown(names: &[String]) -> bool
    ensures { result ≡ are_flown_lem (map string_bytes names.now) }
{
    !names.is_empty() && names.len() <= MOST_FLOWN && are_names(names)
}

// The words behind `replan`.
fn replan_request(words: &[String]) -> Option<Request>
    ensures { result ≡ replan_at (map string_bytes words.now) }
{
    let place = place_of(words, "flown")?;
    let (options, _) = cut(words, place);
    let (_, names) = cut(words, place + 1);
    if !are_flown(names) {
        return None;
    }
    let (workers, nodes) = options_from(options, MOST_NODES)?;
    Some(Request::Replan {
        workers,
        nodes,
        flown: place + 2,
    })
}

// The words behind `map`.
#[tactic(auto, using(crate::proofs::WordLists::word_steps))]
fn map_request(words: &[String]) -> Option<Request>
    ensures { result ≡ map_at (map string_bytes words.now) }
{
    match words {
        [word, names @ ..] if is_word(word.as_str(), "flown") && are_flown(names) => {
            Some(Request::Map { flown: 2 })
        }
        _ => None,
    }
}

// The options of `duo`, and the words behind `start`.
#[tactic(auto, using(crate::proofs::WordLists::word_steps))]
fn duo_with(options: &[String], names: &[String]) -> Option<Request>
    ensures { result ≡ duo_with_lem (options_at MOST_NODES (map string_bytes options.now))
        (map string_bytes names.now) }
{
    match names {
        [name] => {
            let second = name_from(name.as_str())?;
            let (workers, nodes) = options_from(options, MOST_NODES)?;
            Some(Request::Duo {
                workers,
                nodes,
                second,
            })
        }
        _ => None,
    }
}

// The words behind `duo`.
fn duo_request(words: &[String]) -> Option<Request>
    ensures { result ≡ duo_at (map string_bytes words.now) }
{
    let place = place_of(words, "start")?;
    let (options, _) = cut(words, place);
    let (_, names) = cut(words, place + 1);
    duo_with(options, names)
}

// The request of a command and the words behind it.
#[tactic(auto, unfolding(crate::specs::WordReading::request_at))]
fn command_request(command: &str, words: &[String]) -> Option<Request>
    ensures { result ≡ request_at (command.now ∷ map string_bytes words.now) }
{
    if is_word(command, "plan") {
        plan_request(words)
    } else if is_word(command, "check") {
        request_alone(Request::Check, words)
    } else if is_word(command, "report") {
        report_request(words)
    } else if is_word(command, "make") {
        make_request(words)
    } else if is_word(command, "drill") {
        drill_request(words)
    } else if is_word(command, "convert") {
        request_alone(Request::Convert, words)
    } else if is_word(command, "gap") {
        gap_request(words)
    } else if is_word(command, "checkgap") {
        request_alone(Request::CheckGap, words)
    } else if is_word(command, "replan") {
        replan_request(words)
    } else if is_word(command, "map") {
        map_request(words)
    } else if is_word(command, "duo") {
        duo_request(words)
    } else {
        None
    }
}

// The words, read one after the other.
#[tactic(auto, using(crate::proofs::WordLists::word_steps), unfolding(crate::specs::WordReading::request_at))]
fn read_each(words: &[String]) -> Option<Request>
    ensures { result ≡ request_at (map string_bytes words.now) }
{
    match words {
        [command, rest @ ..] => command_request(command.as_str(), rest),
        [] => None,
    }
}

/// The request that the words spell.
#[tactic(auto, using(crate::proofs::WordForms::form_steps))]
pub fn read_words(words: &[String]) -> Option<Request>
    ensures some { IfSome result (Spells (map string_bytes words.now)) }
    ensures none { IfNone result (SpellNone (map string_bytes words.now)) }
{
    read_each(words)
}
