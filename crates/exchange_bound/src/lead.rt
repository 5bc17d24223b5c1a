//! The lead of a prefix over another, period by period.

ghost use Rattle.std.specs.Prelude.{◌≡◌, ◌<◌, ◌+◌, ◌-◌, ℕ, List, length, slice_index, IfOk};
ghost use Rattle.search_model.specs.Legal.{IsLegal};
ghost use Rattle.mean_bound.specs.Means.{IsMadeFor as IsMeanFor, IsAlong, IsFilledFor};
ghost use Rattle.exchange_bound.specs.Leads.{IsLead, IsSomeLead};

use belief_update::move_on;
use exact_parts::NoMemory;
use mean_bound::Mean;
use search_model::{Path, Scenario};
use std::alloc::Global;
use std::marker::Model;

/// How much more mass there is in each cell behind a prefix than behind another, in a period to which it drifted with no
/// look.
#[derive(Drop)]
pub(crate) struct Lead {
    period: u32,
    masses: Vec<u128>,
    next: Vec<u128>,
}

impl Model for Lead {
    ghost use Rattle.std.specs.Prelude.{◌≡◌, length};
    ghost use Rattle.exchange_bound.specs.Leads.{LeadState};

    ghost Value = { LeadState };

    ghost view = { λ l. record { period = l.period; masses = l.masses.items } };

    ghost invariant = { λ l. length l.next.items ≡ length l.masses.items };
}

// Writes by how much masses lead over others, cell by cell; 0 where they don't.
fn subtract(lead: &mut [u128], masses: &[u128], others: &[u128])
    requires width { length lead.old ≡ length masses.now }
    requires others { length others.now ≡ length masses.now }
    ensures each { (c : ℕ) → c < length masses.now →
        slice_index lead.new c ≡ slice_index masses.now c - slice_index others.now c }
{
    for c in 0..masses.len() {
        lead[c] = masses[c].saturating_sub(others[c]);
    }
}

impl Lead {
    /// Room for a scenario. Only this call takes memory.
    pub(crate) fn tables(alloc: Global, sc: &Scenario) -> Result<Lead, NoMemory>
        ensures { IfOk result (λ l. length l.masses ≡ sc.now.cells) }
    {
        let cells = usize::from(sc.cells());
        Ok(Lead {
            period: 1,
            masses: vec![in alloc; 0; cells]?,
            next: vec![in alloc; 0; cells]?,
        })
    }

    /// Becomes the lead of a prefix over another as long, by the beliefs of the mean bound, which are along the prefix.
    pub(crate) fn start(&mut self, sc: &Scenario, mean: &mut Mean, prefix: &Path, other: &Path)
        requires cells { length self.old.masses ≡ sc.now.cells }
        requires mean { IsMeanFor sc.now mean.old }
        requires along { IsAlong prefix.now mean.old }
        requires short { length prefix.now < sc.now.horizon }
        requires other { IsLegal sc.now other.now }
        requires long { length other.now ≡ length prefix.now }
        ensures lead { IsLead sc.now prefix.now other.now self.new }
        ensures period { self.new.period ≡ length prefix.now + 1 }
        ensures mean { IsMeanFor sc.now mean.new }
        ensures along { IsAlong prefix.now mean.new }
        ensures filled { (q : List ℕ) → IsFilledFor sc.now q mean.old → IsFilledFor sc.now q mean.new }
    {
        mean.masses_behind(sc, other, &mut self.next);
        let ahead = mean.onward().at(prefix.len() as u32 + 1);
        subtract(&mut self.masses, ahead.masses(), &self.next);
        self.period = ahead.period();
    }

    /// Drifts on to the next period.
    pub(crate) fn drift(&mut self, sc: &Scenario)
        requires lead { IsSomeLead sc.now self.old }
        requires more { self.old.period < sc.now.horizon }
        ensures lead { (q r : List ℕ) → IsLead sc.now q r self.old → IsLead sc.now q r self.new }
        ensures period { self.new.period ≡ self.old.period + 1 }
    {
        move_on(&mut self.next, &self.masses, sc.drift(), self.period);
        std::mem::swap(&mut self.masses, &mut self.next);
        self.period += 1;
    }

    /// The period that it is in.
    pub(crate) fn period(&self) -> u32
        ensures { result ≡ self.now.period }
    {
        self.period
    }

    /// By how much each cell leads.
    pub(crate) fn masses(&self) -> &[u128]
        ensures { result.now ≡ self.now.masses }
    {
        &self.masses
    }
}
