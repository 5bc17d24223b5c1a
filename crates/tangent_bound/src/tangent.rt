//! The bound.

ghost use Rattle.std.specs.Prelude.{◌≡◌, ℕ, ◌<◌, length, take, IfOk};
ghost use Rattle.search_model.specs.Legal.{IsLegal, IsPath};
ghost use Rattle.search_model.specs.Bounds.{IsRate, tangent_of};

use crate::tables::TangentTables;
use belief_update::Onward;
use exact_parts::NoMemory;
use longest_walk::Near;
use search_model::{Path, Scenario};
use std::alloc::Global;
use std::marker::Model;

/// Tables for the tangent bound of a scenario's prefixes, made once for its sizes, its moves and its rate and filled anew for each
/// bound. The bound is this project's own, by convexity; it is for scenarios of one rate.
///
/// Where each look misses all of a target or one rate of it, what is missed of a track is convex in the number of looks
/// that cover the track. The bound goes along the tangent at a reference path: one more look gains what it would find of
/// what the reference misses, and the gains add up.
///
/// `TangentTables` is for who keeps the beliefs of the periods after the prefix; this goes along the prefix from the start.
#[derive(Drop)]
pub struct Tangent {
    near: Near,
    // The beliefs of the periods after the last prefix that was asked.
    onward: Onward,
    tables: TangentTables,
}

impl Model for Tangent {
    ghost use Rattle.tangent_bound.specs.Room.{TangentState};

    ghost Value = { TangentState };

    ghost view = { λ t. record { near = t.near; onward = t.onward; tables = t.tables } };
}

impl Tangent {
    ghost use Rattle.tangent_bound.specs.Room.{IsMadeFor};

    /// The tables of a scenario. Only this call takes memory.
    pub fn tables(alloc: Global, sc: &Scenario) -> Result<Tangent, NoMemory>
        ensures { IfOk result (IsMadeFor sc.now) }
    {
        Ok(Tangent {
            near: Near::tables(alloc, sc.grid(), sc.horizon())?,
            onward: Onward::tables(alloc, sc)?,
            tables: TangentTables::tables(alloc, sc)?,
        })
    }

    /// The rate of the scenario, where it has one.
    pub fn rate(&self) -> Option<u32>
        ensures { result ≡ self.now.tables.rate }
    {
        self.tables.rate()
    }

    /// The tangent bound of a prefix at a reference path that begins with it, in parts of the looks' denominator times
    /// the whole weight.
    ///
    /// It is the denominator times the reference's value, and the greatest sum of gains over the walks that go on from
    /// the prefix, less the gains of the reference itself after the prefix. The prefix is legal and shorter than the
    /// horizon. Takes no memory.
    pub fn bound(&mut self, sc: &Scenario, prefix: &Path, reference: &Path) -> u128
        requires made { IsMadeFor sc.now self.old }
        requires rate { (rate : ℕ) × IsRate sc.now rate }
        requires prefix { IsLegal sc.now prefix.now }
        requires open { length prefix.now < sc.now.horizon }
        requires path { IsPath sc.now reference.now }
        requires begins { take (length prefix.now) reference.now ≡ prefix.now }
        ensures value { (rate : ℕ) → IsRate sc.now rate → result ≡ tangent_of sc.now rate prefix.now reference.now }
        ensures made { IsMadeFor sc.now self.new }
    {
        self.onward.go_to(sc, prefix);
        let j = prefix.len() as u32;
        self.tables
            .bound_by(sc, &self.near, &self.onward, prefix, reference, j)
    }
}
