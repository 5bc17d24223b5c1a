//! The scenarios that plans are read over: texts whose cells have the names of the positions the other way round.

use crate::scenario_texts::asked_of;
use search_model::Scenario;
use std::alloc::Global;
use std::test::Fail;
use worked_scenarios::{BASE_AND_AIR, FOUR_CELLS};

// One position.
const ONE: &str = "\
parts 1 1 2
cell a
position a
start a
first a 1
moves a a
drift a a 1
look a a 0
end
";

// Two positions, each a move of each; from each cell the target goes to each with the same part.
const TWO: &str = "\
parts 2 2 2
cell b
cell a
position a
position b
start b
first b 1 a 1
moves a a b
moves b a b
drift b b 1 a 1
drift a b 1 a 1
look a b 0
look b a 0
end
";

// Three of that kind.
const THREE: &str = "\
parts 3 3 2
cell c
cell b
cell a
position a
position b
position c
start b
first c 1 b 1 a 1
moves a a b c
moves b a b c
moves c a b c
drift c c 1 b 1 a 1
drift b c 1 b 1 a 1
drift a c 1 b 1 a 1
look a c 0
look b b 0
look c a 0
end
";

// Three, of which the last has another name.
const OTHERS: &str = "\
parts 3 3 2
cell z
cell b
cell a
position a
position b
position z
start b
first z 1 b 1 a 1
moves a a b z
moves b a b z
moves z a b z
drift z z 1 b 1 a 1
drift b z 1 b 1 a 1
drift a z 1 b 1 a 1
look a z 0
look b b 0
look z a 0
end
";

// Four.
const FOUR: &str = "\
parts 4 4 2
cell d
cell c
cell b
cell a
position a
position b
position c
position d
start b
first d 1 c 1 b 1 a 1
moves a a b c d
moves b a b c d
moves c a b c d
moves d a b c d
drift d d 1 c 1 b 1 a 1
drift c d 1 c 1 b 1 a 1
drift b d 1 c 1 b 1 a 1
drift a d 1 c 1 b 1 a 1
look a d 0
look b c 0
look c b 0
look d a 0
end
";

// Three positions in a row, from each of which the searcher stays or goes to the next.
const ROW: &str = "\
parts 3 3 2
cell c
cell b
cell a
position a
position b
position c
start b
first c 1 b 1 a 1
moves a a b
moves b a b c
moves c b c
drift c c 1 b 1 a 1
drift b c 1 b 1 a 1
drift a c 1 b 1 a 1
look a c 0
look b b 0
look c a 0
end
";

// What follows the number of periods in the text of a scenario of these positions.
fn rest_of(positions: &str) -> &'static str {
    match positions {
        "a" => ONE,
        "ab" => TWO,
        "abc" => THREE,
        "abz" => OTHERS,
        "abcd" => FOUR,
        _ => ROW,
    }
}

// The text of a scenario of these positions and periods.
fn text_of(alloc: Global, words: &str) -> Result<String, Fail> {
    let (positions, periods) = words.split_once(' ').ok_or("no periods")?;
    let rest = rest_of(positions);
    Ok(format!(in alloc; "scenario 2\nhorizon {periods}\n{rest}")?)
}

/// What is asked of the scenario of these words: positions and periods, or one that has a name.
pub(crate) fn asked<T, F: FnOnce(&Scenario) -> Result<T, Fail>>(
    alloc: Global,
    words: &str,
    ask: F,
) -> Result<T, Fail>
    requires { F.IsAlwaysCallable ask }
{
    match words {
        "the air" => asked_of(alloc, BASE_AND_AIR.as_bytes(), ask),
        "four cells" => asked_of(alloc, FOUR_CELLS.as_bytes(), ask),
        _ => match text_of(alloc, words) {
            Ok(text) => asked_of(alloc, text.as_bytes(), ask),
            Err(fail) => Err(fail),
        },
    }
}
