//! The tables of exchange bounds.

ghost use Rattle.std.specs.Prelude.{◌≡◌, ◌<◌, ◌≤◌, ◌+◌, ◌*◌, ℕ, List, length, IfOk};
ghost use Rattle.search_model.specs.Legal.{IsLegal, last_of};
ghost use Rattle.search_model.specs.Exchange.{exchange_of};
ghost use Rattle.mean_bound.specs.Means.{IsMadeFor as IsMeanFor, IsAlong, IsFilledFor};
ghost use Rattle.exchange_bound.specs.Leads.{IsLead, IsLeadOf};

use crate::lead::Lead;
use crate::rewards::fill_rewards;
use crate::stand_in::{Exchange, best_among};
use exact_parts::NoMemory;
use longest_walk::Walk;
use mean_bound::Mean;
use search_model::{Path, Scenario};
use std::alloc::Global;
use std::marker::Model;

/// Tables for the exchange bounds of prefixes, made for one scenario.
///
/// The bound is the value of a prefix, and the greatest sum over its continuations of what each look would find of its lead
/// over another prefix, if that look were the only one. Where the other one ends where the prefix does and finds more than
/// that, no best path begins with the prefix.
///
/// All masses and values go by the beliefs that the mean bound keeps along the prefix, those of the other one by what both
/// have in common.
#[derive(Drop)]
pub struct ExchangeTables {
    lead: Lead,
    rewards: Vec<u128>,
    walk: Walk,
}

impl Model for ExchangeTables {
    ghost use Rattle.exchange_bound.specs.Exchanges.{ExchangeState};

    ghost Value = { ExchangeState };

    ghost view = { λ e. record { lead = e.lead; rewards = e.rewards.items; walk = e.walk } };
}

// The exchange bound of a prefix, by the beliefs after it and its lead. Fills in the rewards of the lead, and their walks.
fn bound_by(
    rewards: &mut [u128],
    lead: &mut Lead,
    walk: &mut Walk,
    sc: &Scenario,
    mean: &Mean,
    prefix: &Path,
) -> u128
    requires size { length rewards.old ≡ sc.now.horizon * sc.now.positions }
    requires positions { walk.old.positions ≡ sc.now.positions }
    requires horizon { walk.old.horizon ≡ sc.now.horizon }
    requires mean { IsMeanFor sc.now mean.now }
    requires along { IsAlong prefix.now mean.now }
    requires legal { IsLegal sc.now prefix.now }
    requires lead { IsLeadOf sc.now prefix.now lead.old }
    requires first { lead.old.period ≡ length prefix.now + 1 }
    ensures bound { (r : List ℕ) → IsLead sc.now prefix.now r lead.old → result ≡ exchange_of sc.now prefix.now r }
    ensures cells { length lead.new.masses ≡ sc.now.cells }
    ensures positions { walk.new.positions ≡ sc.now.positions }
    ensures horizon { walk.new.horizon ≡ sc.now.horizon }
{
    let near = mean.near();
    fill_rewards(rewards, lead, sc, near, prefix);
    let from = sc.last_after(prefix);
    walk.fill_near(sc.grid(), near, rewards, from, prefix.len() as u32);
    mean.onward().value() + walk.greatest()
}

impl ExchangeTables {
    ghost use Rattle.std.specs.Prelude.{IfSome, IfNone};
    ghost use Rattle.bound_tree.specs.Exchanges.{StandsIn, HasExchanges, IsBestStandIn, exchanged};
    ghost use Rattle.exchange_bound.specs.Exchanges.{IsMadeFor};
    ghost use Rattle.exchange_bound.specs.StandIns.{IsExchange};

    /// Tables for a scenario. Only this call takes memory.
    pub fn tables(alloc: Global, sc: &Scenario) -> Result<ExchangeTables, NoMemory>
        ensures { IfOk result (IsMadeFor sc.now) }
    {
        let positions = sc.positions();
        let horizon = sc.horizon();
        Ok(ExchangeTables {
            lead: Lead::tables(alloc, sc)?,
            rewards: vec![in alloc; 0; horizon as usize * usize::from(positions)]?,
            walk: Walk::tables(alloc, positions, horizon)?,
        })
    }

    /// The exchange bound of a legal prefix shorter than the horizon over another as long that ends where it does, in parts
    /// of the whole weight. The mean bound's tables are along the prefix, and stay so.
    pub fn bound(&mut self, sc: &Scenario, mean: &mut Mean, prefix: &Path, other: &Path) -> u128
        requires made { IsMadeFor sc.now self.old }
        requires mean { IsMeanFor sc.now mean.old }
        requires along { IsAlong prefix.now mean.old }
        requires legal { IsLegal sc.now prefix.now }
        requires short { length prefix.now < sc.now.horizon }
        requires other { IsLegal sc.now other.now }
        requires long { length other.now ≡ length prefix.now }
        ensures bound { result ≡ exchange_of sc.now prefix.now other.now }
        ensures made { IsMadeFor sc.now self.new }
        ensures mean { IsMeanFor sc.now mean.new }
        ensures along { IsAlong prefix.now mean.new }
        ensures filled { (q : List ℕ) → IsFilledFor sc.now q mean.old → IsFilledFor sc.now q mean.new }
    {
        self.lead.start(sc, mean, prefix, other);
        bound_by(
            &mut self.rewards,
            &mut self.lead,
            &mut self.walk,
            sc,
            mean,
            prefix,
        )
    }

    /// The best of the legal prefixes that stand in for a prefix with another position in place of its last but one, or `None`
    /// where none stands in: of the greatest value, and of several the one with the least position. The mean bound's tables
    /// are along the prefix, and stay so.
    pub fn best_stand_in(
        &mut self,
        sc: &Scenario,
        mean: &mut Mean,
        prefix: &Path,
    ) -> Option<Exchange>
        requires made { IsMadeFor sc.now self.old }
        requires mean { IsMeanFor sc.now mean.old }
        requires along { IsAlong prefix.now mean.old }
        requires legal { IsLegal sc.now prefix.now }
        requires exchanges { HasExchanges sc.now prefix.now }
        ensures some { IfSome result (λ e. IsExchange sc.now prefix.now e × IsBestStandIn sc.now prefix.now e.position) }
        ensures none { IfNone result ((u : ℕ) → ¬ StandsIn sc.now (exchanged u prefix.now) prefix.now) }
        ensures made { IsMadeFor sc.now self.new }
        ensures mean { IsMeanFor sc.now mean.new }
        ensures along { IsAlong prefix.now mean.new }
        ensures filled { (q : List ℕ) → IsFilledFor sc.now q mean.old → IsFilledFor sc.now q mean.new }
    {
        best_among(self, sc, mean, prefix)
    }
}
