//! The edge bound of single prefixes.

ghost use Rattle.std.specs.Prelude.{◌≡◌, ◌<◌, length, IfOk};
ghost use Rattle.search_model.specs.Legal.{IsLegal};
ghost use Rattle.search_model.specs.Edge.{edge_of};

use crate::tables::EdgeTables;
use belief_update::Onward;
use exact_parts::NoMemory;
use longest_walk::Near;
use search_model::{Path, Scenario};
use std::alloc::Global;
use std::marker::Model;

/// The edge bound of prefixes of one scenario, filled anew for each bound.
///
/// The bound is the value of the prefix, and the greatest sum of rewards over its continuations, where the reward of a
/// look is what it finds after the looks of the prefix and the look just before it. It is the mean bound (Martins 1993)
/// with this discount: there a look finds what it would if no other look came after the prefix. One look takes away no
/// more than all that come before do, so the bound is no less than the value of each path that begins with the prefix;
/// and it is no more than the mean bound.
///
/// Who keeps the beliefs of the periods after the prefix and the positions within reach asks `EdgeTables`; here both are
/// kept, and `bound` goes along the prefix from the start.
#[derive(Drop)]
pub struct Edge {
    near: Near,
    // The beliefs of the periods after the last prefix that `bound` was asked.
    onward: Onward,
    tables: EdgeTables,
}

impl Model for Edge {
    ghost use Rattle.edge_bound.specs.Edges.{EdgeState};

    ghost Value = { EdgeState };

    ghost view = { λ e. record { near = e.near; onward = e.onward; tables = e.tables } };
}

impl Edge {
    ghost use Rattle.edge_bound.specs.Edges.{IsMadeFor};

    /// Tables for a scenario. Only this call takes memory.
    pub fn tables(alloc: Global, sc: &Scenario) -> Result<Edge, NoMemory>
        ensures { IfOk result (IsMadeFor sc.now) }
    {
        Ok(Edge {
            near: Near::tables(alloc, sc.grid(), sc.horizon())?,
            onward: Onward::tables(alloc, sc)?,
            tables: EdgeTables::tables(alloc, sc)?,
        })
    }

    /// The edge bound of a legal prefix shorter than the horizon, in parts of the whole weight.
    pub fn bound(&mut self, sc: &Scenario, prefix: &Path) -> u128
        requires made { IsMadeFor sc.now self.old }
        requires legal { IsLegal sc.now prefix.now }
        requires short { length prefix.now < sc.now.horizon }
        ensures bound { result ≡ edge_of sc.now prefix.now }
        ensures made { IsMadeFor sc.now self.new }
    {
        self.onward.go_to(sc, prefix);
        self.tables.bound_by(sc, &self.near, &self.onward, prefix)
    }
}
