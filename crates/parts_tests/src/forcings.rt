//! What a path of the scenario that forces a flown prefix stands for.

ghost use Rattle.std.specs.Prelude.{◌≤◌, length};
ghost use Rattle.search_model.specs.Legal.{IsLegal};
ghost use Rattle.residual_plan.specs.Forced.{IsForced};

use crate::makers::made;
use residual_plan::{forced, unforced};
use search_model::{Path, Scenario};
use std::alloc::Global;
use std::test::Fail;

// Whether a path of the scenario that forces the prefix goes back to this one.
fn goes_back(sc: &Scenario, forcing: &Scenario, flown: &Path, path: &Path, own: &[u8]) -> bool
    requires legal { IsLegal sc.now flown.now }
    requires forcing { IsForced sc.now flown.now forcing.now }
{
    forcing.is_legal(path)
        && path.len() == forcing.horizon() as usize
        && unforced(sc, flown, path).cells() == own
}

// Whether the prefix can be forced, and a path that does so goes back to this one.
fn is_flown_on(
    alloc: Global,
    sc: &Scenario,
    flown: &Path,
    path: &Path,
    own: &[u8],
) -> Result<bool, Fail>
    requires { 1 ≤ length flown.now }
{
    match forced(alloc, sc, flown) {
        Ok(forcing) => {
            let back = goes_back(sc, &forcing, flown, path, own);
            drop(forcing);
            Ok(back)
        }
        Err(_) => Ok(false),
    }
}

// Of 5 times 5 cells: from 7 the searcher stays, and flies down to 12; 26 and 27 stand for these two. Then it goes on freely.
#[test]
fn a_forced_path_goes_back(rt: HostRuntime) -> Result<(), Fail> {
    let flown = Path::of(&[7, 12]).ok_or("no path")?;
    let path = Path::of(&[26, 27, 13, 14, 14, 9, 4, 3]).ok_or("no path")?;
    let sc = made(rt.alloc(), 0)?;
    assert!(rt;
        is_flown_on(
            rt.alloc(),
            &sc,
            &flown,
            &path,
            &[7, 12, 13, 14, 14, 9, 4, 3]
        )?
    );
    Ok(())
}
