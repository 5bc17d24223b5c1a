//! The tests of bounds.

ghost use Rattle.std.specs.Prelude.{◌≡◌, ◌≤◌, ◌<◌, length};
ghost use Rattle.search_model.specs.Legal.{IsLegal};
ghost use Rattle.bound_tree.specs.declared.node.Kind.{Kind};
ghost use Rattle.bound_tree.specs.Close.{IsExact};
ghost use Rattle.bound_tree.specs.Cut.{times};
ghost use Rattle.tree_checker.specs.Rate.{one_rate_of};
ghost use Rattle.tree_checker.specs.Reasons.{first_failed, bound_tests, kind_tests, tangent_tests, exchange_tests};
ghost use Rattle.tree_checker.specs.Tables.{AreMadeFor};

use crate::path_tests::{has_exchanges, has_two_looks, is_path_from, takes_place};
use crate::tables::BoundTables;
use crate::verdict::Why;
use bound_tree::{cuts, in_parts};
use exchange_bound::exchanged;
use search_model::{Path, Scenario, Standing};

// The first reason against a bound's number, where the right one is known.
fn bound_reason(standing: &Standing, prefix: &Path, bound: u128, right: u128) -> Option<Why>
    requires { length prefix.now ≤ length standing.now.path }
    ensures { result ≡ first_failed (bound_tests standing.now prefix.now bound right) }
{
    if bound != right {
        Some(Why::BoundWrong)
    } else if !cuts(standing, bound, prefix) {
        Some(Why::NotCut)
    } else {
        None
    }
}

/// The first reason against a mean bound at a legal prefix.
pub(crate) fn mean_reason(
    sc: &Scenario,
    tables: &mut BoundTables,
    standing: &Standing,
    prefix: &Path,
    bound: u128,
) -> Option<Why>
    requires made { AreMadeFor sc.now tables.old }
    requires legal { IsLegal sc.now prefix.now }
    requires exact { IsExact sc.now standing.now }
    ensures reason { result ≡ first_failed (kind_tests sc.now standing.now prefix.now (Kind.Mean bound)) }
    ensures made { AreMadeFor sc.now tables.new }
{
    if prefix.len() < sc.horizon() as usize {
        bound_reason(standing, prefix, bound, tables.mean_bound(sc, prefix))
    } else {
        Some(Why::WholeWrong)
    }
}

/// The first reason against an edge bound at a legal prefix.
pub(crate) fn edge_reason(
    sc: &Scenario,
    tables: &mut BoundTables,
    standing: &Standing,
    prefix: &Path,
    bound: u128,
) -> Option<Why>
    requires made { AreMadeFor sc.now tables.old }
    requires legal { IsLegal sc.now prefix.now }
    requires exact { IsExact sc.now standing.now }
    ensures reason { result ≡ first_failed (kind_tests sc.now standing.now prefix.now (Kind.Edge bound)) }
    ensures made { AreMadeFor sc.now tables.new }
{
    if prefix.len() < sc.horizon() as usize {
        bound_reason(standing, prefix, bound, tables.edge_bound(sc, prefix))
    } else {
        Some(Why::WholeWrong)
    }
}

/// The first reason against a bound that remembers two looks, at a legal prefix.
pub(crate) fn two_look_reason(
    sc: &Scenario,
    tables: &mut BoundTables,
    standing: &Standing,
    prefix: &Path,
    bound: u128,
) -> Option<Why>
    requires made { AreMadeFor sc.now tables.old }
    requires legal { IsLegal sc.now prefix.now }
    requires exact { IsExact sc.now standing.now }
    ensures reason { result ≡ first_failed (kind_tests sc.now standing.now prefix.now (Kind.TwoLooks bound)) }
    ensures made { AreMadeFor sc.now tables.new }
{
    if has_two_looks(sc, prefix) {
        bound_reason(standing, prefix, bound, tables.two_look_bound(sc, prefix))
    } else {
        Some(Why::WholeWrong)
    }
}

// A path with its value, that in parts of the looks' denominator for each.
fn finer(sc: &Scenario, standing: &Standing) -> Standing
    requires exact { IsExact sc.now standing.now }
    ensures { result ≡ times sc.now.sweep.denominator standing.now }
{
    in_parts(standing, sc.sweep().denominator())
}

// The first reason against a tangent bound at a legal prefix that is shorter than the horizon, and at a reference path.
fn tangent_reason_at(
    sc: &Scenario,
    tables: &mut BoundTables,
    standing: &Standing,
    prefix: &Path,
    bound: u128,
    reference: &Path,
) -> Option<Why>
    requires made { AreMadeFor sc.now tables.old }
    requires legal { IsLegal sc.now prefix.now }
    requires exact { IsExact sc.now standing.now }
    requires open { length prefix.now < sc.now.horizon }
    ensures reason { result ≡
        first_failed (tangent_tests sc.now standing.now prefix.now bound reference.now (one_rate_of sc.now)) }
    ensures made { AreMadeFor sc.now tables.new }
{
    let Some(rate) = tables.one_rate() else {
        return Some(Why::NoOneRate);
    };
    if !is_path_from(sc, prefix, reference) {
        return Some(Why::ReferenceWrong);
    }
    let right = tables.tangent_bound(sc, rate, prefix, reference);
    bound_reason(&finer(sc, standing), prefix, bound, right)
}

/// The first reason against a tangent bound at a legal prefix.
pub(crate) fn tangent_reason(
    sc: &Scenario,
    tables: &mut BoundTables,
    standing: &Standing,
    prefix: &Path,
    bound: u128,
    reference: &Path,
) -> Option<Why>
    requires made { AreMadeFor sc.now tables.old }
    requires legal { IsLegal sc.now prefix.now }
    requires exact { IsExact sc.now standing.now }
    ensures reason { result ≡
        first_failed (kind_tests sc.now standing.now prefix.now (Kind.Tangent bound reference.now)) }
    ensures made { AreMadeFor sc.now tables.new }
{
    if prefix.len() < sc.horizon() as usize {
        tangent_reason_at(sc, tables, standing, prefix, bound, reference)
    } else {
        Some(Why::WholeWrong)
    }
}

/// The first reason against an exchange at a legal prefix, with position `u` in place of its last but one. What comes of
/// that is to cut the bound with its own value: the plan's path isn't asked.
pub(crate) fn exchange_reason(
    sc: &Scenario,
    tables: &mut BoundTables,
    prefix: &Path,
    bound: u128,
    u: u8,
) -> Option<Why>
    requires made { AreMadeFor sc.now tables.old }
    requires legal { IsLegal sc.now prefix.now }
    ensures reason { result ≡ first_failed (exchange_tests sc.now prefix.now bound u) }
    ensures made { AreMadeFor sc.now tables.new }
{
    if !has_exchanges(sc, prefix) {
        return Some(Why::WholeWrong);
    }
    let other = exchanged(prefix, u);
    if !takes_place(sc, prefix, u, &other) {
        return Some(Why::ReferenceWrong);
    }
    let right = tables.exchange_bound(sc, prefix, &other);
    let value = tables.value(sc, &other);
    bound_reason(&Standing { path: other, value }, prefix, bound, right)
}
