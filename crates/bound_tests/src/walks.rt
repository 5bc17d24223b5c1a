ghost use Rattle.std.specs.Prelude.{◌≡◌, ◌*◌, ◌<◌, ◌≤◌, length, All, IsTrue};

use longest_walk::Walk;
use search_grid::Grid;
use search_model::Path;
use std::alloc::Global;
use std::test::Fail;

// Holds of what may be shared between threads and moved to one.
fn crosses_threads<T: Send + Sync + Drop>(_value: T) {}

// What the tables are asked: moves, number of periods and rewards, the cell from which the walks go on, and the cells
// of the path so far.
#[derive(Drop)]
struct Question<'a> {
    moves: &'a [&'a [u8]],
    horizon: u32,
    rewards: &'a [u128],
    from: u8,
    path: &'a [u8],
}

fn grid_of(alloc: Global, lists: &[&[u8]]) -> Result<Grid, Fail> {
    let rows = lists
        .iter()
        .map(|list| Vec::from_slice(alloc, list))
        .try_collect(alloc)?;
    Ok(Grid::new(rows)?)
}

// Whether the tables may be asked this: rewards up to 1000 sum to less than 2 ^ 127 over 32 periods.
fn is_within(asked: &Question, cells: u8) -> bool
    ensures horizon { IsTrue result → (1 ≤ asked.now.horizon) × (asked.now.horizon ≤ 32) }
    ensures path { IsTrue result → length asked.now.path.now < asked.now.horizon }
    ensures from { IsTrue result → asked.now.from < cells }
    ensures size { IsTrue result → length asked.now.rewards.now ≡ asked.now.horizon * cells }
    ensures small { IsTrue result → All (λ reward. reward ≤ 1000) asked.now.rewards.now }
{
    (1..=32).contains(&asked.horizon)
        && asked.path.len() < asked.horizon as usize
        && asked.from < cells
        && asked.rewards.len() == asked.horizon as usize * usize::from(cells)
        && asked.rewards.iter().all(|reward| *reward <= 1000)
}

// The greatest sum, and the path with the least walk of that sum appended.
fn answer_to(alloc: Global, asked: &Question) -> Result<(u128, Path), Fail> {
    let grid = grid_of(alloc, asked.moves)?;
    if !is_within(asked, grid.cells()) {
        return Err(Fail::from("not within the conditions"));
    }
    let mut path = Path::of(asked.path).ok_or("a long path")?;
    let mut walk = Walk::tables(alloc, grid.cells(), asked.horizon)?;
    walk.fill(&grid, asked.rewards, asked.from, path.len() as u32);
    walk.least_best(&grid, asked.rewards, &mut path);
    Ok((walk.greatest(), path))
}

// Three cells in a row.
const ROW: [&[u8]; 3] = [&[0, 1], &[0, 1, 2], &[1, 2]];

const LAST_CELL: &[u128] = &[0, 0, 2, 0, 0, 2];

// One at once at the first cell, or five later at the last.
const LATER: &[u128] = &[1, 0, 0, 0, 0, 5];

// Rewards, the cell from which the walks go on, the path so far, the greatest sum, and the path of the least such walk.
type Walked = (&'static [u128], u8, &'static [u8], u128, &'static [u8]);

const WALKS: [Walked; 3] = [
    (LATER, 1, &[], 5, &[1, 2]),
    (LATER, 0, &[], 5, &[1, 2]),
    (LAST_CELL, 2, &[2], 2, &[2, 2]),
];

#[test]
fn the_least_walk_of_the_greatest_sum_is_appended(rt: HostRuntime) -> Result<(), Fail> {
    for (rewards, from, path, greatest, least_best) in WALKS {
        let answer = answer_to(
            rt.alloc(),
            &Question {
                moves: &ROW,
                horizon: 2,
                rewards,
                from,
                path,
            },
        )?;
        assert_eq!(rt; answer.0, greatest);
        assert_eq!(rt; answer.1.cells(), least_best);
    }
    crosses_threads(Walk::tables(rt.alloc(), 200, 32)?);
    Ok(())
}
