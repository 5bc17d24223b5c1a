//! The tables of the ceilings.

ghost use Rattle.std.specs.Prelude.{◌≡◌, ◌<◌, length, IfOk};
ghost use Rattle.search_model.specs.Legal.{IsLegal};
ghost use Rattle.search_model.specs.Edge.{edge_of};
ghost use Rattle.bound_tree.specs.Gaps.{ceiling_of};
ghost use Rattle.ceiling_bound.specs.Ceilings.{AreCeilingsFor};

use bound_tree::Numbers;
use edge_bound::EdgeTables;
use exact_parts::NoMemory;
use mean_bound::Mean;
use search_model::{Path, Scenario};
use std::alloc::Global;

/// Tables for what no path below a prefix exceeds, made for one scenario.
///
/// The edge bound goes by what the mean bound keeps: the positions within reach, and the beliefs, of which a prefix uses
/// those of the part that it has in common with the one before it. So prefixes are best asked in order.
#[derive(Drop)]
pub struct Ceilings {
    /// The tables of the mean bound, which has the values of prefixes, too.
    pub mean: Mean,
    /// What the edge bound has besides these.
    pub edge: EdgeTables,
}

impl Ceilings {
    /// Tables for a scenario. Only this call takes memory.
    pub fn tables(alloc: Global, sc: &Scenario) -> Result<Ceilings, NoMemory>
        ensures { IfOk result (AreCeilingsFor sc.now) }
    {
        let edge = EdgeTables::tables(alloc, sc)?;
        let mean = Mean::tables(alloc, sc)?;
        Ok(Ceilings { mean, edge })
    }

    /// The edge bound of a legal prefix shorter than the horizon, in parts of the whole weight.
    pub fn edge_bound(&mut self, sc: &Scenario, prefix: &Path) -> u128
        requires made { AreCeilingsFor sc.now self.old }
        requires legal { IsLegal sc.now prefix.now }
        requires short { length prefix.now < sc.now.horizon }
        ensures bound { result ≡ edge_of sc.now prefix.now }
        ensures made { AreCeilingsFor sc.now self.new }
    {
        self.mean.go_to(sc, prefix);
        self.edge
            .bound_by(sc, self.mean.near(), self.mean.onward(), prefix)
    }

    /// What no path below a legal prefix exceeds, in parts of the whole weight: the value of a path, the bound of a shorter
    /// prefix by these numbers. The tables of the edge bound aren't asked where these are mean bounds.
    pub fn ceiling(&mut self, numbers: Numbers, sc: &Scenario, prefix: &Path) -> u128
        requires made { AreCeilingsFor sc.now self.old }
        requires legal { IsLegal sc.now prefix.now }
        ensures ceiling { result ≡ ceiling_of numbers sc.now prefix.now }
        ensures made { AreCeilingsFor sc.now self.new }
    {
        if prefix.len() == sc.horizon() as usize {
            return self.mean.value(sc, prefix);
        }
        match numbers {
            Numbers::Means => self.mean.bound(sc, prefix),
            Numbers::Edges => self.edge_bound(sc, prefix).min(sc.weight()),
        }
    }
}
