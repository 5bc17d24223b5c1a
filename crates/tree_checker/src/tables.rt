//! The tables of the bounds.

ghost use Rattle.std.specs.Prelude.{◌≡◌, ◌<◌, length, take, IfOk};
ghost use Rattle.search_model.specs.Problem.{Problem};
ghost use Rattle.search_model.specs.Legal.{IsLegal, IsPath};
ghost use Rattle.search_model.specs.Tracks.{value_of};
ghost use Rattle.search_model.specs.Bounds.{mean_of, IsRate, tangent_of};
ghost use Rattle.search_model.specs.Edge.{edge_of};
ghost use Rattle.search_model.specs.Exchange.{exchange_of};
ghost use Rattle.search_model.specs.Memory.{remembering_of};
ghost use Rattle.bound_tree.specs.Gaps.{ceiling_of};
ghost use Rattle.tree_checker.specs.Rate.{one_rate_of};
ghost use Rattle.tree_checker.specs.Tables.{AreMadeFor};

use bound_tree::Numbers;
use ceiling_bound::Ceilings;
use exact_parts::NoMemory;
use exchange_bound::ExchangeTables;
use search_model::{Path, Scenario};
use std::alloc::Global;
use tangent_bound::TangentTables;
use two_look_bound::TwoLookTables;

/// The tables of the bounds. All values and bounds go by what the mean bound keeps: the positions within reach, and the
/// beliefs, of which a prefix uses those of the part that it has in common with the one before it.
#[derive(Drop)]
pub(crate) struct BoundTables {
    pub(crate) ceilings: Ceilings,
    pub(crate) tangent: TangentTables,
    pub(crate) exchange: ExchangeTables,
    pub(crate) two_looks: TwoLookTables,
}

impl BoundTables {
    /// The tables of a scenario. Only this call takes memory.
    pub(crate) fn start(alloc: Global, sc: &Scenario) -> Result<BoundTables, NoMemory>
        ensures { IfOk result (AreMadeFor sc.now) }
    {
        let tangent = TangentTables::tables(alloc, sc)?;
        let exchange = ExchangeTables::tables(alloc, sc)?;
        let two_looks = TwoLookTables::tables(alloc, sc)?;
        let ceilings = Ceilings::tables(alloc, sc)?;
        Ok(BoundTables {
            ceilings,
            tangent,
            exchange,
            two_looks,
        })
    }

    /// The value of a legal prefix.
    pub(crate) fn value(&mut self, sc: &Scenario, prefix: &Path) -> u128
        requires made { AreMadeFor sc.now self.old }
        requires legal { IsLegal sc.now prefix.now }
        ensures value { result ≡ value_of sc.now prefix.now }
        ensures made { AreMadeFor sc.now self.new }
    {
        self.ceilings.mean.value(sc, prefix)
    }

    /// The mean bound of a legal prefix that is shorter than the horizon.
    pub(crate) fn mean_bound(&mut self, sc: &Scenario, prefix: &Path) -> u128
        requires made { AreMadeFor sc.now self.old }
        requires legal { IsLegal sc.now prefix.now }
        requires open { length prefix.now < sc.now.horizon }
        ensures value { result ≡ mean_of sc.now prefix.now }
        ensures made { AreMadeFor sc.now self.new }
    {
        self.ceilings.mean.bound(sc, prefix)
    }

    /// What no path below a legal prefix exceeds: the value of a path, the bound of a shorter prefix by these numbers.
    pub(crate) fn ceiling(&mut self, numbers: Numbers, sc: &Scenario, prefix: &Path) -> u128
        requires made { AreMadeFor sc.now self.old }
        requires legal { IsLegal sc.now prefix.now }
        ensures value { result ≡ ceiling_of numbers sc.now prefix.now }
        ensures made { AreMadeFor sc.now self.new }
    {
        self.ceilings.ceiling(numbers, sc, prefix)
    }

    /// The rate of all looks of the scenario that the tables were made for, where they have one. It was found when they
    /// were made.
    pub(crate) fn one_rate(&self) -> Option<u32>
        ensures { (p : Problem) → AreMadeFor p self.now → result ≡ one_rate_of p }
    {
        self.tangent.rate()
    }

    /// The tangent bound of a legal prefix that is shorter than the horizon, at a path that begins with it, where the
    /// looks have this rate.
    pub(crate) fn tangent_bound(
        &mut self,
        sc: &Scenario,
        rate: u32,
        prefix: &Path,
        reference: &Path,
    ) -> u128
        requires made { AreMadeFor sc.now self.old }
        requires rate { IsRate sc.now rate }
        requires legal { IsLegal sc.now prefix.now }
        requires open { length prefix.now < sc.now.horizon }
        requires path { IsPath sc.now reference.now }
        requires begins { take (length prefix.now) reference.now ≡ prefix.now }
        ensures value { result ≡ tangent_of sc.now rate prefix.now reference.now }
        ensures made { AreMadeFor sc.now self.new }
    {
        let _known = rate;
        self.ceilings.mean.go_to(sc, prefix);
        let (near, onward) = (self.ceilings.mean.near(), self.ceilings.mean.onward());
        let k = prefix.len() as u32;
        self.tangent
            .bound_by(sc, near, onward, prefix, reference, k)
    }

    /// The edge bound of a legal prefix that is shorter than the horizon.
    pub(crate) fn edge_bound(&mut self, sc: &Scenario, prefix: &Path) -> u128
        requires made { AreMadeFor sc.now self.old }
        requires legal { IsLegal sc.now prefix.now }
        requires open { length prefix.now < sc.now.horizon }
        ensures value { result ≡ edge_of sc.now prefix.now }
        ensures made { AreMadeFor sc.now self.new }
    {
        self.ceilings.edge_bound(sc, prefix)
    }

    /// The bound that remembers two looks, of a legal prefix that is shorter than the horizon.
    pub(crate) fn two_look_bound(&mut self, sc: &Scenario, prefix: &Path) -> u128
        requires made { AreMadeFor sc.now self.old }
        requires legal { IsLegal sc.now prefix.now }
        requires open { length prefix.now < sc.now.horizon }
        ensures value { result ≡ remembering_of sc.now 2 prefix.now }
        ensures made { AreMadeFor sc.now self.new }
    {
        self.ceilings.mean.go_to(sc, prefix);
        let (near, onward) = (self.ceilings.mean.near(), self.ceilings.mean.onward());
        let units = self.ceilings.edge.units();
        self.two_looks.bound(sc, near, units, onward, prefix)
    }

    /// The exchange bound of a legal prefix that is shorter than the horizon over another as long.
    pub(crate) fn exchange_bound(&mut self, sc: &Scenario, prefix: &Path, other: &Path) -> u128
        requires made { AreMadeFor sc.now self.old }
        requires legal { IsLegal sc.now prefix.now }
        requires open { length prefix.now < sc.now.horizon }
        requires other { IsLegal sc.now other.now }
        requires long { length other.now ≡ length prefix.now }
        ensures value { result ≡ exchange_of sc.now prefix.now other.now }
        ensures made { AreMadeFor sc.now self.new }
    {
        self.ceilings.mean.go_to(sc, prefix);
        self.exchange
            .bound(sc, &mut self.ceilings.mean, prefix, other)
    }
}
