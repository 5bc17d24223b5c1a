//! Scenarios that files of tests share, what is asked of the scenario of a text, and a standing of its path.

ghost use Rattle.std.specs.Prelude.{IfSome};
ghost use Rattle.bound_tree.specs.Close.{IsExact};

use scenario_text::read_scenario_alone;
use search_model::{Path, Scenario, Standing, value};
use std::alloc::Global;
use std::test::Fail;

/// Two periods; the target stays: 1 of 6 in the first cell, 2 in the next, 3 in the last. From `a` a look covers the last
/// two cells, from `b` the first, and in period 2 the last, too; each misses 1 of 2.
pub(crate) const WIDE_LOOKS: &str = "\
scenario 2
horizon 2
parts 6 1 2
cell a
cell b
cell c
position a
position b
start a
first a 1 b 2 c 3
moves a a b
moves b a b
drift a a 1
drift b b 1
drift c c 1
look a b 1 c 1
look b a 1
lookin 2 b a 1 c 1
end
";

/// Looks from three positions at four cells, over four periods. Those from the first two overlap; the first differs in the
/// second period, and the others in the third, where the last one covers nothing. The drift differs after the second period
/// in the third cell, and after the third in the first.
pub(crate) const FOOTPRINTS: &str = "\
scenario 2
horizon 4
parts 10 4 5
cell a
cell b
cell c
cell d
position b
position c
position d
start d
first a 4 b 1 c 2 d 3
moves b b c
moves c b c d
moves d c d
drift a a 3 b 1
drift b a 1 b 2 d 1
drift c c 4
drift d b 1 d 3
driftin 2 c b 1 c 1 d 2
driftin 3 a c 4
look b b 2 d 4
look c a 1 b 3 c 4
look d c 0
lookin 2 b a 3 b 1 c 2
lookin 3 c d 0
lookin 3 d
end
";

/// What is asked of the scenario of a text.
pub(crate) fn asked_of<T, F: FnOnce(Global, &Scenario) -> Result<T, Fail>>(
    alloc: Global,
    text: &str,
    ask: F,
) -> Result<T, Fail>
    requires { F.IsAlwaysCallable ask }
{
    match read_scenario_alone(alloc, text.as_bytes()) {
        Ok(sc) => ask(alloc, &sc),
        Err(_) => Err(Fail::from("no scenario")),
    }
}

/// A path with its exact value.
pub(crate) fn standing_of(sc: &Scenario, cells: &[u8]) -> Option<Standing>
    ensures { IfSome result (IsExact sc.now) }
{
    let path = Path::of(cells)?;
    if path.len() != sc.horizon() as usize || !sc.is_legal(&path) {
        return None;
    }
    Some(Standing {
        path,
        value: value(sc, &path),
    })
}

/// Holds of what may be shared between threads and moved to one.
pub(crate) fn crosses_threads<T: Send + Sync>() {}
