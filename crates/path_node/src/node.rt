//! Closing a prefix.

ghost use Rattle.std.specs.Prelude.{◌≡◌, ◌<◌, ◌≤◌, ◌+◌, ℕ, length, Contains, IfOk, IfSome, IfNone, IsTrue, IsFalse};
ghost use Rattle.search_model.specs.Problem.{Problem};
ghost use Rattle.search_model.specs.Legal.{IsLegal, moves_after};
ghost use Rattle.search_model.specs.Bounds.{IsRate, mean_of, tangent_of};
ghost use Rattle.search_model.specs.Edge.{edge_of};
ghost use Rattle.search_model.specs.Reference.{IsReference};
ghost use Rattle.bound_tree.specs.Close.{IsClosed, IsExact, IsAtLeast, IsLeftOpen, IsLeftOver};
ghost use Rattle.bound_tree.specs.Cut.{is_cut};
ghost use Rattle.bound_tree.specs.Exchanges.{HasNoStandIn};
ghost use Rattle.mean_bound.specs.Means.{IsMadeFor as IsMeanFor, IsAlong, IsFilledFor};
ghost use Rattle.tangent_bound.specs.Room.{AreTablesFor as AreTangentTablesFor};
ghost use Rattle.edge_bound.specs.Moves.{through_of};
ghost use Rattle.path_node.specs.Room.{IsMadeFor, TellsRate, LooksThrough};

use bound_tree::{Kind, TreeNode, cuts, in_parts};
use edge_bound::EdgeTables;
use exact_parts::NoMemory;
use exchange_bound::ExchangeTables;
use mean_bound::Mean;
use scout_path::scout;
use search_model::{Path, Scenario, Standing};
use std::alloc::Global;
use std::marker::Model;
use tangent_bound::TangentTables;
use two_look_bound::TwoLookTables;

/// Tables with which prefixes of one scenario are closed: those of the bounds. All bounds and values go by what the mean bound
/// keeps: the positions within reach, and the beliefs after the prefix that is closed and after each shorter front of it.
#[derive(Drop)]
pub struct Scratch {
    mean: Mean,
    tangent: TangentTables,
    edge: EdgeTables,
    exchange: ExchangeTables,
    two_looks: TwoLookTables,
}

impl Model for Scratch {
    ghost use Rattle.path_node.specs.Room.{NodeTables};

    ghost Value = { NodeTables };

    ghost view = { λ s. record {
      mean = s.mean;
      tangent = s.tangent;
      edge = s.edge;
      exchange = s.exchange;
      two_looks = s.two_looks;
    } };
}

// Whether the looks of the scenario that the tables of a tangent bound were made for have one rate, which they keep.
fn has_rate(tangent: &TangentTables) -> bool
    ensures { (p : Problem) → AreTangentTablesFor p tangent.now → TellsRate p result }
{
    tangent.rate().is_some()
}

impl Scratch {
    /// Tables for a scenario. Only this call takes memory.
    pub fn tables(alloc: Global, sc: &Scenario) -> Result<Scratch, NoMemory>
        ensures { IfOk result (IsMadeFor sc.now) }
    {
        let edge = EdgeTables::tables(alloc, sc)?;
        let exchange = ExchangeTables::tables(alloc, sc)?;
        let two_looks = TwoLookTables::tables(alloc, sc)?;
        let tangent = TangentTables::tables(alloc, sc)?;
        let mean = Mean::tables(alloc, sc)?;
        Ok(Scratch {
            mean,
            tangent,
            edge,
            exchange,
            two_looks,
        })
    }

    /// The best of a standing and of all paths that a scout looks at, which goes to the end once by the mean bound
    /// (`scout_path::scout`). Takes no memory.
    pub fn scout(&mut self, sc: &Scenario, first: &Standing) -> Standing
        requires made { IsMadeFor sc.now self.old }
        requires exact { IsExact sc.now first.now }
        ensures exact { IsExact sc.now result }
        ensures not_worse { IsAtLeast result first.now }
        ensures made { IsMadeFor sc.now self.new }
    {
        scout(&mut self.mean, sc, first)
    }

    /// Goes to a legal prefix that is shorter than the horizon, and bounds it by way of each of its moves. Takes no memory.
    pub fn look_through(&mut self, sc: &Scenario, prefix: &Path)
        requires made { IsMadeFor sc.now self.old }
        requires legal { IsLegal sc.now prefix.now }
        requires shorter { length prefix.now < sc.now.horizon }
        ensures made { IsMadeFor sc.now self.new }
        ensures looks { LooksThrough sc.now prefix.now self.new }
    {
        self.mean.go_to(sc, prefix);
        let near = self.mean.near();
        let onward = self.mean.onward();
        self.edge.bound_by(sc, near, onward, prefix);
    }

    /// The edge bound of the prefix that was looked through last by way of one of its moves.
    pub fn through(&self, sc: &Scenario, prefix: &Path, b: u8) -> u128
        requires made { IsMadeFor sc.now self.now }
        requires looks { LooksThrough sc.now prefix.now self.now }
        requires legal { IsLegal sc.now prefix.now }
        requires shorter { length prefix.now < sc.now.horizon }
        requires step { Contains (moves_after sc.now prefix.now) b }
        ensures { result ≡ through_of sc.now prefix.now b }
    {
        let _after = prefix;
        sc.recall_sound();
        self.mean.onward().value() + self.edge.gain(b)
    }
}

// The least path of the greatest sum of rewards after a prefix, by the rewards that its mean bound took.
fn reference_of(mean: &Mean, sc: &Scenario, prefix: &Path) -> Path
    requires made { IsMeanFor sc.now mean.now }
    requires filled { IsFilledFor sc.now prefix.now mean.now }
    ensures { IsReference sc.now prefix.now result }
{
    let mut reference = *prefix;
    mean.reference(sc, &mut reference);
    reference
}

// Closes a prefix whose bounds the standing leaves open, whichever it is: by the best of the prefixes that stand in for it,
// where it is asked for one and has one.
fn close_by_exchange(scratch: &mut Scratch, sc: &Scenario, prefix: &Path) -> Option<Kind>
    requires made { IsMadeFor sc.now scratch.old }
    requires there { IsAlong prefix.now scratch.old.mean }
    requires legal { IsLegal sc.now prefix.now }
    requires shorter { length prefix.now < sc.now.horizon }
    ensures closed { IfSome result (λ kind. (s : Standing) → IsLeftOpen sc.now s prefix.now →
        IsFalse (is_cut (edge_of sc.now prefix.now) prefix.now s) → IsClosed sc.now s prefix.now kind) }
    ensures none { IfNone result (HasNoStandIn sc.now prefix.now) }
    ensures made { IsMadeFor sc.now scratch.new }
    ensures there { IsAlong prefix.now scratch.new.mean }
{
    if sc.horizon() < 4 || prefix.len() < 2 {
        return None;
    }
    let found = scratch
        .exchange
        .best_stand_in(sc, &mut scratch.mean, prefix)?;
    Some(Kind::Exchange(found.bound, found.position))
}

// Closes a prefix that is left over where no other bound closes it: by its bound that remembers two looks, where it is asked for
// that and the standing cuts it.
fn close_by_two_looks(
    scratch: &mut Scratch,
    sc: &Scenario,
    prefix: &Path,
    reference: &Path,
    standing: &Standing,
) -> Kind
    requires made { IsMadeFor sc.now scratch.old }
    requires there { IsAlong prefix.now scratch.old.mean }
    requires legal { IsLegal sc.now prefix.now }
    requires shorter { length prefix.now < sc.now.horizon }
    requires reference { IsReference sc.now prefix.now reference.now }
    requires left { IsLeftOver sc.now standing.now prefix.now }
    requires exact { IsExact sc.now standing.now }
    ensures closed { IsClosed sc.now standing.now prefix.now result }
    ensures made { IsMadeFor sc.now scratch.new }
{
    sc.recall_sound();
    if sc.horizon() < 4 {
        return Kind::Branch;
    }
    let near = scratch.mean.near();
    let onward = scratch.mean.onward();
    let units = scratch.edge.units();
    let enough = standing.value + 1;
    let bound = scratch
        .two_looks
        .bound_or_enough(sc, near, units, onward, prefix, reference, enough);
    if cuts(standing, bound, prefix) {
        Kind::TwoLooks(bound)
    } else {
        Kind::Branch
    }
}

// Closes a prefix that neither its mean bound, nor a tangent bound, nor its edge bound rules out.
fn close_past_edge(
    scratch: &mut Scratch,
    sc: &Scenario,
    prefix: &Path,
    reference: &Path,
    standing: &Standing,
) -> Kind
    requires made { IsMadeFor sc.now scratch.old }
    requires there { IsAlong prefix.now scratch.old.mean }
    requires legal { IsLegal sc.now prefix.now }
    requires shorter { length prefix.now < sc.now.horizon }
    requires reference { IsReference sc.now prefix.now reference.now }
    requires open { IsLeftOpen sc.now standing.now prefix.now }
    requires edge { IsFalse (is_cut (edge_of sc.now prefix.now) prefix.now standing.now) }
    requires exact { IsExact sc.now standing.now }
    ensures closed { IsClosed sc.now standing.now prefix.now result }
    ensures made { IsMadeFor sc.now scratch.new }
{
    match close_by_exchange(scratch, sc, prefix) {
        Some(kind) => kind,
        None => close_by_two_looks(scratch, sc, prefix, reference, standing),
    }
}

// Closes a prefix that neither its mean bound nor a tangent bound rules out: by its edge bound, if the standing cuts
// that. No standing cuts a bound above its value, and mostly the reference alone shows that the bound is.
fn close_by_edge(
    scratch: &mut Scratch,
    sc: &Scenario,
    prefix: &Path,
    reference: &Path,
    standing: &Standing,
) -> Kind
    requires made { IsMadeFor sc.now scratch.old }
    requires there { IsAlong prefix.now scratch.old.mean }
    requires legal { IsLegal sc.now prefix.now }
    requires shorter { length prefix.now < sc.now.horizon }
    requires reference { IsReference sc.now prefix.now reference.now }
    requires open { IsLeftOpen sc.now standing.now prefix.now }
    requires exact { IsExact sc.now standing.now }
    ensures closed { IsClosed sc.now standing.now prefix.now result }
    ensures made { IsMadeFor sc.now scratch.new }
{
    sc.recall_sound();
    let near = scratch.mean.near();
    let onward = scratch.mean.onward();
    let enough = standing.value + 1;
    let edge = scratch
        .edge
        .bound_or_enough(sc, near, onward, prefix, reference, enough);
    if cuts(standing, edge, prefix) {
        Kind::Edge(edge)
    } else {
        close_past_edge(scratch, sc, prefix, reference, standing)
    }
}

// Whether the first `j` positions of the reference show that the standing doesn't cut the prefix's tangent bound: theirs is
// no more than that, and takes the less time the more positions they are. Where they aren't longer than the prefix, nothing
// is asked.
fn is_shown_open(
    tangent: &mut TangentTables,
    sc: &Scenario,
    mean: &Mean,
    prefix: &Path,
    reference: &Path,
    finer: &Standing,
    j: u32,
) -> bool
    requires made { AreTangentTablesFor sc.now tangent.old }
    requires mean { IsMeanFor sc.now mean.now }
    requires there { IsAlong prefix.now mean.now }
    requires rate { (rate : ℕ) × IsRate sc.now rate }
    requires legal { IsLegal sc.now prefix.now }
    requires reference { IsReference sc.now prefix.now reference.now }
    requires long { length finer.now.path ≡ sc.now.horizon }
    requires front { j < sc.now.horizon }
    ensures open { IsTrue result → (rate : ℕ) → IsRate sc.now rate →
        IsFalse (is_cut (tangent_of sc.now rate prefix.now reference.now) prefix.now finer.now) }
    ensures made { AreTangentTablesFor sc.now tangent.new }
{
    sc.recall_sound();
    if j as usize <= prefix.len() {
        return false;
    }
    let shown = tangent.bound_by(sc, mean.near(), mean.onward(), prefix, reference, j);
    !cuts(finer, shown, prefix)
}

// Whether the reference without its last look, or without its last two, shows that the standing doesn't cut the prefix's
// tangent bound. Mostly one of them does.
fn is_seen_open(
    tangent: &mut TangentTables,
    sc: &Scenario,
    mean: &Mean,
    prefix: &Path,
    reference: &Path,
    finer: &Standing,
) -> bool
    requires made { AreTangentTablesFor sc.now tangent.old }
    requires mean { IsMeanFor sc.now mean.now }
    requires there { IsAlong prefix.now mean.now }
    requires rate { (rate : ℕ) × IsRate sc.now rate }
    requires legal { IsLegal sc.now prefix.now }
    requires shorter { length prefix.now < sc.now.horizon }
    requires reference { IsReference sc.now prefix.now reference.now }
    requires long { length finer.now.path ≡ sc.now.horizon }
    ensures open { IsTrue result → (rate : ℕ) → IsRate sc.now rate →
        IsFalse (is_cut (tangent_of sc.now rate prefix.now reference.now) prefix.now finer.now) }
    ensures made { AreTangentTablesFor sc.now tangent.new }
{
    let most = sc.horizon() - 1;
    is_shown_open(tangent, sc, mean, prefix, reference, finer, most)
        || is_shown_open(
            tangent,
            sc,
            mean,
            prefix,
            reference,
            finer,
            most.saturating_sub(1),
        )
}

// Closes a prefix whose mean bound isn't cut, where the looks have one rate: by its tangent bound at the reference, if
// the standing cuts that.
fn close_by_tangent(
    scratch: &mut Scratch,
    sc: &Scenario,
    prefix: &Path,
    reference: &Path,
    standing: &Standing,
) -> Kind
    requires made { IsMadeFor sc.now scratch.old }
    requires there { IsAlong prefix.now scratch.old.mean }
    requires filled { IsFilledFor sc.now prefix.now scratch.old.mean }
    requires rate { (rate : ℕ) × IsRate sc.now rate }
    requires legal { IsLegal sc.now prefix.now }
    requires shorter { length prefix.now < sc.now.horizon }
    requires reference { IsReference sc.now prefix.now reference.now }
    requires free { IsFalse (is_cut (mean_of sc.now prefix.now) prefix.now standing.now) }
    requires exact { IsExact sc.now standing.now }
    ensures closed { IsClosed sc.now standing.now prefix.now result }
    ensures made { IsMadeFor sc.now scratch.new }
{
    let whole = sc.sweep().denominator();
    let finer = in_parts(standing, whole);
    let mean = &scratch.mean;
    if is_seen_open(&mut scratch.tangent, sc, mean, prefix, reference, &finer) {
        return close_by_edge(scratch, sc, prefix, reference, standing);
    }
    let (near, onward) = (mean.near(), mean.onward());
    let k = prefix.len() as u32;
    let tangent = scratch
        .tangent
        .bound_by(sc, near, onward, prefix, reference, k);
    if cuts(&finer, tangent, prefix) {
        Kind::Tangent(tangent, *reference)
    } else {
        close_by_edge(scratch, sc, prefix, reference, standing)
    }
}

// Closes a prefix that is shorter than the horizon.
fn close_shorter(scratch: &mut Scratch, sc: &Scenario, prefix: &Path, standing: &Standing) -> Kind
    requires made { IsMadeFor sc.now scratch.old }
    requires legal { IsLegal sc.now prefix.now }
    requires shorter { length prefix.now < sc.now.horizon }
    requires exact { IsExact sc.now standing.now }
    ensures closed { IsClosed sc.now standing.now prefix.now result }
    ensures made { IsMadeFor sc.now scratch.new }
{
    let mean = scratch.mean.bound(sc, prefix);
    if cuts(standing, mean, prefix) {
        return Kind::Mean(mean);
    }
    let reference = reference_of(&scratch.mean, sc, prefix);
    if has_rate(&scratch.tangent) {
        close_by_tangent(scratch, sc, prefix, &reference, standing)
    } else {
        close_by_edge(scratch, sc, prefix, &reference, standing)
    }
}

/// The record of a legal prefix, closed under a standing: a path by its value; a shorter prefix by its mean bound
/// (Martins 1993) where the standing cuts that, else by its tangent bound where the looks have one rate and the standing
/// cuts it, else by its edge bound where the standing cuts that, else, where it has two positions and the horizon is 4 or
/// more, by the best of the prefixes that stand in for it with another position in place of its last but one, else, where the
/// horizon is 4 or more, by its bound that remembers two looks where the standing cuts that, and else it branches. A bound is
/// computed only where those before it rule nothing out. Takes no memory.
pub fn close(scratch: &mut Scratch, sc: &Scenario, prefix: &Path, standing: &Standing) -> TreeNode
    requires made { IsMadeFor sc.now scratch.old }
    requires legal { IsLegal sc.now prefix.now }
    requires exact { IsExact sc.now standing.now }
    ensures prefix { result.prefix ≡ prefix.now }
    ensures closed { IsClosed sc.now standing.now prefix.now result.kind }
    ensures made { IsMadeFor sc.now scratch.new }
{
    let kind = if prefix.len() == sc.horizon() as usize {
        Kind::Whole(scratch.mean.value(sc, prefix))
    } else {
        close_shorter(scratch, sc, prefix, standing)
    };
    TreeNode {
        prefix: *prefix,
        kind,
    }
}

/// The last positions of the legal children of a legal prefix that is shorter than the horizon, ascending.
pub fn children<'a>(sc: &'a Scenario, prefix: &Path) -> &'a [u8]
    requires legal { IsLegal sc.now prefix.now }
    requires shorter { length prefix.now < sc.now.horizon }
    ensures { result.now ≡ moves_after sc.now prefix.now }
{
    sc.moves_after(prefix)
}
