//! The two paths that one of a product scenario stands for.

ghost use Rattle.std.specs.Prelude.{◌*◌, ◌<◌, All, IsTrue};

use crate::makers::made;
use duo_search::{first_of, second_of};
use search_model::{Path, Scenario};
use std::test::Fail;

// Whether each of these is a pair of so many positions.
fn are_pairs(positions: u8, pairs: &[u8]) -> bool
    ensures { IsTrue result → All (λ both. both < positions * positions) pairs.now }
{
    let count = u32::from(positions) * u32::from(positions);
    pairs.iter().all(|both| u32::from(*both) < count)
}

// Whether a path of the product goes apart into these.
fn goes_apart(sc: &Scenario, both: &Path, first: &[u8], second: &[u8]) -> bool {
    are_pairs(sc.positions(), both.cells())
        && first_of(sc, both).cells() == first
        && second_of(sc, both).cells() == second
}

// Of 25 positions: 57 is 2 times 25 and 7, and 255 is 10 times 25 and 5.
#[test]
fn a_path_for_two_goes_apart(rt: HostRuntime) -> Result<(), Fail> {
    let both = Path::of(&[57, 24, 0, 255]).ok_or("no path")?;
    let sc = made(rt.alloc(), 0)?;
    let apart = goes_apart(&sc, &both, &[2, 0, 0, 10], &[7, 24, 0, 5]);
    drop(sc);
    assert!(rt; apart);
    Ok(())
}
