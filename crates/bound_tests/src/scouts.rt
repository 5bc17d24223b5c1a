//! The scout's path held against a second program, `bench/scouted`, which computes it on small scenarios. It printed the
//! rows of the table.

ghost use Rattle.std.specs.Prelude.{IfOk};
ghost use Rattle.bound_tree.specs.Close.{IsExact};

use crate::scenarios::asked_of;
use mean_bound::Mean;
use opening_path::opening;
use path_node::Scratch;
use scout_path::scout;
use search_model::{Scenario, Standing};
use std::alloc::Global;
use std::test::Fail;

// A scenario, and the path that the scout answers, with its value.
type Row = (&'static str, &'static [u8], u128);

fn is(standing: &Standing, path: &[u8], value: u128) -> bool {
    standing.path.cells() == path && standing.value == value
}

// Whether the scout answers this path by the tables of the mean bound alone.
fn answers_alone(
    alloc: Global,
    sc: &Scenario,
    first: &Standing,
    path: &[u8],
    value: u128,
) -> Result<bool, Fail>
    requires exact { IsExact sc.now first.now }
{
    let mut mean = Mean::tables(alloc, sc)?;
    Ok(is(&scout(&mut mean, sc, first), path, value))
}

// Whether it does so by the tables of a worker.
fn answers_a_worker(
    alloc: Global,
    sc: &Scenario,
    first: &Standing,
    path: &[u8],
    value: u128,
) -> Result<bool, Fail>
    requires exact { IsExact sc.now first.now }
{
    let mut scratch = Scratch::tables(alloc, sc)?;
    Ok(is(&scratch.scout(sc, first), path, value))
}

// The opening, which is exact.
fn first_of(alloc: Global, sc: &Scenario) -> Result<Standing, Fail>
    ensures { IfOk result (IsExact sc.now) }
{
    sc.recall_sound();
    Ok(opening(alloc, sc)?)
}

fn is_scouted_over(alloc: Global, sc: &Scenario, path: &[u8], value: u128) -> Result<bool, Fail> {
    let first = first_of(alloc, sc)?;
    let alone = answers_alone(alloc, sc, &first, path, value)?;
    Ok(alone && answers_a_worker(alloc, sc, &first, path, value)?)
}

fn is_scouted(alloc: Global, text: &str, path: &[u8], value: u128) -> Result<bool, Fail> {
    asked_of(
        alloc,
        text,
        |alloc, sc| is_scouted_over(alloc, sc, path, value),
    )
}

// The rows that `bench/scouted` printed.
const ROWS: [Row; 10] = [
    // One cell.
    (
        "scenario 1\nhorizon 4\nparts 1 1 2\ncell a\nstart a\nfirst a 1\nmoves a a\ndrift a a 1\nrate 1\nend\n",
        &[0, 0, 0, 0],
        15,
    ),
    // Nothing is found.
    (
        "scenario 1\nhorizon 4\nparts 6 4 4\ncell a\ncell b\ncell c\ncell d\ncell e\nstart c\nfirst a 2 b 2 e 2\nmoves a a b d e\nmoves b b c d\nmoves c a d\nmoves d e\nmoves e a b\ndrift a a 1 b 1 c 2\ndrift b d 1 e 3\ndrift c b 1 e 3\ndrift d b 1 c 2 e 1\ndrift e c 3 e 1\nrate 4\nend\n",
        &[0, 0, 0, 0],
        0,
    ),
    // The opening is the best.
    (
        "scenario 1\nhorizon 6\nparts 6 4 4\ncell a\ncell b\ncell c\ncell d\nstart a\nfirst a 3 b 2 c 1\nmoves a a b c d\nmoves b b c d\nmoves c b d\nmoves d a d\ndrift a a 1 b 1 d 2\ndrift b a 2 c 1 d 1\ndrift c a 2 b 1 d 1\ndrift d b 1 c 1 d 2\noverlook a 0\noverlook b 3\noverlook c 0\noverlook d 0\nend\n",
        &[0, 0, 3, 0, 3, 0],
        24330240,
    ),
    // The scout finds the best.
    (
        "scenario 1\nhorizon 4\nparts 6 4 4\ncell a\ncell b\ncell c\ncell d\ncell e\nstart b\nfirst a 3 c 1 e 2\nmoves a b c e\nmoves b a c\nmoves c c d\nmoves d c d e\nmoves e a c e\ndrift a c 1 d 3\ndrift b a 1 b 1 c 1 e 1\ndrift c a 1 b 1 d 1 e 1\ndrift d a 2 b 1 c 1\ndrift e b 1 d 2 e 1\nrate 1\nend\n",
        &[2, 3, 3, 3],
        70164,
    ),
    // The scout misses the best.
    (
        "scenario 1\nhorizon 6\nparts 6 4 4\ncell a\ncell b\ncell c\ncell d\nstart c\nfirst a 3 b 2 c 1\nmoves a b d\nmoves b b c\nmoves c b d\nmoves d a\ndrift a a 2 b 1 d 1\ndrift b b 3 d 1\ndrift c a 2 c 1 d 1\ndrift d b 2 c 2\noverlook a 2\noverlook b 1\noverlook c 2\noverlook d 3\nend\n",
        &[1, 1, 2, 1, 1, 1],
        20078408,
    ),
    // Two paths are the best.
    (
        "scenario 1\nhorizon 6\nparts 6 4 4\ncell a\ncell b\ncell c\ncell d\ncell e\nstart d\nfirst a 1 d 1 e 4\nmoves a b d\nmoves b b c e\nmoves c a b d\nmoves d c e\nmoves e a b e\ndrift a a 1 c 3\ndrift b a 1 d 1 e 2\ndrift c a 1 c 3\ndrift d a 3 d 1\ndrift e b 1 e 3\nrate 0\nend\n",
        &[4, 0, 3, 2, 1, 2],
        24920064,
    ),
    // Footprints.
    (
        "scenario 2\nhorizon 4\nparts 6 4 4\ncell a\ncell b\ncell c\nposition z\nposition y\nposition x\nposition w\nstart x\nfirst b 1 c 5\nmoves z y\nmoves y x\nmoves x y w\nmoves w z y\ndrift a a 2 b 2\ndrift b a 1 b 1 c 2\ndrift c a 1 b 3\nlook z a 0 b 0 c 1\nlook y a 3 b 2 c 2\nlook x a 4 b 4 c 2\nlook w c 2\nend\n",
        &[3, 0, 1, 2],
        97344,
    ),
    // The best is met on the way.
    (
        "scenario 2\nhorizon 5\nparts 6 4 4\ncell a\ncell b\ncell c\ncell d\nposition z\nposition y\nposition x\nposition w\nstart x\nfirst a 4 b 1 d 1\nmoves z y w\nmoves y x w\nmoves x z x w\nmoves w z x\ndrift a b 2 c 1 d 1\ndrift b a 1 b 2 d 1\ndrift c a 2 b 1 d 1\ndrift d b 3 d 1\nlook z a 4 b 4 d 0\nlook y a 3 b 3 c 1 d 4\nlook x a 0 b 4 c 1 d 1\nlook w a 1 b 2 c 3 d 2\nend\n",
        &[2, 3, 2, 2, 3],
        1548416,
    ),
    // Looks and drift by period.
    (
        "scenario 2\nhorizon 5\nparts 6 4 4\ncell a\ncell b\ncell c\ncell d\nposition z\nposition y\nposition x\nposition w\nstart w\nfirst a 2 b 3 c 1\nmoves z y\nmoves y z x\nmoves x x w\nmoves w z y\ndrift a b 2 c 1 d 1\ndrift b a 1 b 2 d 1\ndrift c a 3 c 1\ndrift d b 1 c 2 d 1\ndriftin 1 b a 2 b 2\ndriftin 1 d b 3 d 1\ndriftin 3 c a 2 b 1 c 1\nlook z a 0 b 2 d 3\nlook y a 4 c 3 d 1\nlook x a 3 b 4 c 4 d 1\nlook w a 0 b 3 c 4 d 3\nlookin 2 z a 0 b 2 c 4 d 1\nlookin 2 x a 2 b 1 c 3 d 1\nlookin 2 w a 3 b 3 d 4\nlookin 4 z a 1 b 2 c 4\nend\n",
        &[0, 1, 2, 3, 0],
        1425876,
    ),
    // Of equal moves the least.
    (
        "scenario 2\nhorizon 5\nparts 6 4 4\ncell a\ncell b\ncell c\nposition z\nposition y\nposition x\nposition w\nstart z\nfirst a 1 b 2 c 3\nmoves z z y\nmoves y z x w\nmoves x z w\nmoves w z y\ndrift a a 1 b 3\ndrift b a 1 b 2 c 1\ndrift c a 2 b 1 c 1\ndriftin 1 a a 3 b 1\ndriftin 1 b a 3 c 1\ndriftin 3 c a 2 b 1 c 1\nlook z c 1\nlook y a 1 b 1 c 0\nlook x a 1 c 4\nlook w a 3 b 1\nlookin 2 z b 2 c 2\nlookin 2 x a 0 b 3 c 2\nlookin 2 w b 1 c 2\nlookin 4 z\nlookin 4 x a 0 b 0 c 0\nend\n",
        &[1, 0, 1, 2, 0],
        1572864,
    ),
];

#[test]
fn scouts_answer_as_the_second_program(rt: HostRuntime) -> Result<(), Fail> {
    for (text, path, value) in &ROWS {
        assert!(rt; is_scouted(rt.alloc(), text, path, *value)?);
    }
    Ok(())
}
