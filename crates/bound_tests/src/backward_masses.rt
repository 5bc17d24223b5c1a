ghost use Rattle.std.specs.Prelude.{◌≡◌, IfSome};
ghost use Rattle.search_model.specs.Legal.{IsPath};
ghost use Rattle.backward_mass.specs.Table.{IsMadeFor};

use crate::scenarios::{asked_of, crosses_threads};
use backward_mass::Backward;
use search_model::{Path, Scenario};
use std::alloc::Global;
use std::test::Fail;
use worked_scenarios::WAITING_LONGER;

// The path of a scenario that has these positions.
fn path_of(sc: &Scenario, positions: &[u8]) -> Option<Path>
    ensures { IfSome result (IsPath sc.now) }
{
    let path = Path::of(positions)?;
    if path.len() == sc.horizon() as usize && sc.is_legal(&path) {
        Some(path)
    } else {
        None
    }
}

// Whether the table has these masses of a path after it was filled for another one, and of the other one's later periods.
fn has_masses(sc: &Scenario, backward: &mut Backward, path: &Path, other: &Path) -> bool
    requires cells { sc.now.cells ≡ 3 }
    requires horizon { sc.now.horizon ≡ 3 }
    requires made { IsMadeFor sc.now backward.old }
    requires path { IsPath sc.now path.now }
    requires other { IsPath sc.now other.now }
{
    backward.fill(sc, other);
    backward.fill(sc, path);
    let filled = backward.at(1, 2) == 1 && backward.at(1, 0) == 4 && backward.at(2, 0) == 2;
    backward.fill_from(sc, other, 2);
    filled && backward.at(2, 2) == 2
}

// The target that waits: the path that goes to it after another one.
fn is_filled_again(alloc: Global, sc: &Scenario) -> Result<bool, Fail>
    requires cells { sc.now.cells ≡ 3 }
    requires horizon { sc.now.horizon ≡ 3 }
{
    match (path_of(sc, &[1, 2, 2]), path_of(sc, &[1, 0, 0])) {
        (Some(path), Some(other)) => {
            let mut backward = Backward::tables(alloc, sc)?;
            Ok(has_masses(sc, &mut backward, &path, &other))
        }
        _ => Ok(false),
    }
}

// The same of a scenario of three cells and periods.
fn is_filled_again_over(alloc: Global, sc: &Scenario) -> Result<bool, Fail> {
    if sc.cells() != 3 || sc.horizon() != 3 {
        return Ok(false);
    }
    is_filled_again(alloc, sc)
}

fn table_is_filled_again(alloc: Global) -> Result<bool, Fail> {
    asked_of(alloc, WAITING_LONGER, is_filled_again_over)
}

#[test]
fn a_table_is_filled_again(rt: HostRuntime) -> Result<(), Fail> {
    assert!(rt; table_is_filled_again(rt.alloc())?);
    crosses_threads::<Backward>();
    Ok(())
}
