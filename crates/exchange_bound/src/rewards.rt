//! The rewards of looks for a lead.

ghost use Rattle.std.specs.Prelude.{◌≡◌, ◌<◌, ◌+◌, ◌-◌, ◌*◌, ℕ, List, length};
ghost use Rattle.search_model.specs.Legal.{IsLegal};
ghost use Rattle.longest_walk.specs.Near.{AreNear};
ghost use Rattle.exchange_bound.specs.Leads.{IsLead, IsLeadOf, HasLeadRewards};

use crate::lead::Lead;
use longest_walk::Near;
use mean_bound::fill_period;
use search_model::{Path, Scenario};

// Writes the rewards of the period that a lead is in, behind those of the periods before it.
fn fill_now(rewards: &mut [u128], lead: &Lead, sc: &Scenario, near: &Near, prefix: &Path)
    requires near { AreNear sc.now.moves sc.now.horizon near.now }
    requires legal { IsLegal sc.now prefix.now }
    requires size { length rewards.old ≡ sc.now.horizon * sc.now.positions }
    requires lead { IsLeadOf sc.now prefix.now lead.now }
    ensures { (r : List ℕ) → IsLead sc.now prefix.now r lead.now →
        HasLeadRewards sc.now prefix.now r (lead.now.period - 1) rewards.old →
        HasLeadRewards sc.now prefix.now r lead.now.period rewards.new }
{
    sc.recall_sound();
    fill_period(rewards, sc, near, prefix, lead.period(), lead.masses());
}

/// Fills in the rewards of all periods after a prefix by its lead, which drifts on through them, for the positions that the
/// searcher can be on then.
pub(crate) fn fill_rewards(
    rewards: &mut [u128],
    lead: &mut Lead,
    sc: &Scenario,
    near: &Near,
    prefix: &Path,
)
    requires near { AreNear sc.now.moves sc.now.horizon near.now }
    requires legal { IsLegal sc.now prefix.now }
    requires size { length rewards.old ≡ sc.now.horizon * sc.now.positions }
    requires lead { IsLeadOf sc.now prefix.now lead.old }
    requires first { lead.old.period ≡ length prefix.now + 1 }
    ensures rewards { (r : List ℕ) → IsLead sc.now prefix.now r lead.old →
        HasLeadRewards sc.now prefix.now r sc.now.horizon rewards.new }
    ensures cells { length lead.new.masses ≡ sc.now.cells }
{
    fill_now(rewards, lead, sc, near, prefix);
    for _ in prefix.len() as u32 + 1..sc.horizon() {
        lead.drift(sc);
        fill_now(rewards, lead, sc, near, prefix);
    }
}
