//! What the looks of a path take, look by look.

ghost use Rattle.std.specs.Prelude.{◌≡◌, ◌<◌, ◌≤◌, ◌+◌, take, length};
ghost use Rattle.search_model.specs.Legal.{IsLegal};
ghost use Rattle.belief_update.specs.Onward.{IsOnward};
ghost use Rattle.belief_update.specs.Taken.{IsTakenTo};

use crate::onward::Onward;
use crate::taken::Taken;
use search_model::{Path, Scenario};

/// Takes the next look of a path as well, after those from the first `k` up to the first `looks`, by the beliefs after the
/// first `k`.
pub fn take_on(sc: &Scenario, taken: &mut Taken, onward: &Onward, path: &Path, k: u32, looks: u32)
    requires path { IsLegal sc.now path.now }
    requires onward { IsOnward sc.now (take k path.now) onward.now }
    requires taken { IsTakenTo sc.now (take k path.now) path.now looks taken.old }
    requires order { k ≤ looks }
    requires more { looks < length path.now }
    ensures { IsTakenTo sc.now (take k path.now) path.now (looks + 1) taken.new }
{
    sc.recall_sound();
    let ahead = onward.at(looks + 1);
    let a = path.cells()[looks as usize];
    if looks == k {
        taken.start(sc, ahead, a);
    } else {
        taken.drift(sc);
        taken.look(sc, ahead, a);
    }
}

/// Takes the looks of a path from the first `k` up to the first `to`, by the beliefs after the first `k`.
pub fn take_along(sc: &Scenario, taken: &mut Taken, onward: &Onward, path: &Path, k: u32, to: u32)
    requires path { IsLegal sc.now path.now }
    requires onward { IsOnward sc.now (take k path.now) onward.now }
    requires room { length taken.old.masses ≡ sc.now.cells }
    requires order { k ≤ to }
    requires inside { to ≤ length path.now }
    ensures { IsTakenTo sc.now (take k path.now) path.now to taken.new }
{
    for n in k..to {
        take_on(sc, taken, onward, path, k, n);
    }
}
