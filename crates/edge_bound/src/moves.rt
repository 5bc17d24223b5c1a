//! What looks find of the masses after a prefix.

ghost use Rattle.std.specs.Prelude.{◌≡◌, ◌<◌, ◌≤◌, ◌+◌, ◌-◌, ◌*◌, ◌^◌, length, All};
ghost use Rattle.sweep_table.specs.LookParts.{look_row};
ghost use Rattle.search_model.specs.Bounds.{reward_of};
ghost use Rattle.belief_update.specs.Masses.{mass_of, looks_to};
ghost use Rattle.belief_update.specs.Onward.{IsOnward};
ghost use Rattle.belief_update.specs.Found.{found_of};

use belief_update::{Onward, found};
use search_model::{Path, Scenario};
use sweep_table::Look;

/// The mass of cell `c` in period `t`, with no look after the prefix.
pub fn mass_at(sc: &Scenario, prefix: &Path, onward: &Onward, t: u32, c: u8) -> u128
    requires later { length prefix.now < t }
    requires last { t ≤ sc.now.horizon }
    requires cell { c < sc.now.cells }
    requires onward { IsOnward sc.now prefix.now onward.now }
    ensures { result ≡ mass_of sc.now (looks_to t prefix.now) c }
{
    onward.at(t).at(c)
}

/// The cells that a look from position `a` in period `t` covers, with the parts that it misses.
pub fn look_from(sc: &Scenario, t: u32, a: u8) -> Look<'_>
    requires first { 1 ≤ t }
    requires last { t ≤ sc.now.horizon }
    requires position { a < sc.now.positions }
    ensures row { result ≡ look_row sc.now.sweep t a }
    ensures cells { All (λ entry. entry.cell < sc.now.cells) result }
    ensures parts { All (λ entry. entry.part ≤ sc.now.sweep.denominator) result }
{
    sc.sweep().look(t, a)
}

/// What a look from `b` in period `t` finds with no look between it and the prefix, in all cells that it covers.
pub fn found_by(sc: &Scenario, prefix: &Path, onward: &Onward, t: u32, b: u8) -> u128
    requires later { length prefix.now < t }
    requires last { t ≤ sc.now.horizon }
    requires position { b < sc.now.positions }
    requires onward { IsOnward sc.now prefix.now onward.now }
    ensures { result ≡ found_of sc.now t b (mass_of sc.now (looks_to t prefix.now)) }
{
    sc.recall_sound();
    found(sc, t, onward.at(t).masses(), b)
}

/// What the first look after a prefix finds from `b`, in all cells that it covers; times the parts of what is to come it
/// is the reward.
pub(crate) fn found_first(sc: &Scenario, prefix: &Path, onward: &Onward, b: u8) -> u128
    requires short { length prefix.now < sc.now.horizon }
    requires to { b < sc.now.positions }
    requires onward { IsOnward sc.now prefix.now onward.now }
    ensures { let k = length prefix.now in
        result * (sc.now.drift.denominator ^ (sc.now.horizon - (k + 1)) * sc.now.sweep.denominator ^
        (sc.now.horizon - (k + 1)))
        ≡ reward_of sc.now prefix.now (k + 1) b }
{
    sc.recall_sound();
    let t = prefix.len() as u32 + 1;
    found_by(sc, prefix, onward, t, b)
}
