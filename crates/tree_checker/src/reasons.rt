//! The tests of a plan's parts.

ghost use Rattle.std.specs.Prelude.{◌≡◌, IfNone};
ghost use Rattle.search_model.specs.Legal.{IsLegal};
ghost use Rattle.bound_tree.specs.Close.{IsExact};
ghost use Rattle.tree_checker.specs.Reasons.{first_failed, value_tests, kind_tests, open_tests, node_tests, head_reason as head_reason_lem};
ghost use Rattle.tree_checker.specs.Tables.{AreMadeFor};

use crate::bounds::{edge_reason, exchange_reason, mean_reason, tangent_reason, two_look_reason};
use crate::gap_verdict::{GapRejectAt, GapWhy};
use crate::path_tests::is_path;
use crate::tables::BoundTables;
use crate::verdict::Why;
use bound_tree::{GapKind, GapNode, Kind, Numbers};
use search_model::{Path, Scenario, Standing, better};

// The first reason against the value and the weight of a path.
fn value_reason(
    sc: &Scenario,
    tables: &mut BoundTables,
    standing: &Standing,
    weight: u128,
) -> Option<Why>
    requires made { AreMadeFor sc.now tables.old }
    requires legal { IsLegal sc.now standing.now.path }
    ensures reason { result ≡ first_failed (value_tests sc.now standing.now weight) }
    ensures made { AreMadeFor sc.now tables.new }
{
    if standing.value != tables.value(sc, &standing.path) {
        Some(Why::ValueWrong)
    } else if weight != sc.weight() {
        Some(Why::WeightWrong)
    } else {
        None
    }
}

/// The first reason against a plan's path, value and weight.
pub(crate) fn head_reason(
    sc: &Scenario,
    tables: &mut BoundTables,
    standing: &Standing,
    weight: u128,
) -> Option<GapRejectAt>
    requires made { AreMadeFor sc.now tables.old }
    ensures reason { result ≡ head_reason_lem sc.now standing.now weight }
    ensures exact { IfNone result (IsExact sc.now standing.now) }
    ensures made { AreMadeFor sc.now tables.new }
{
    if !is_path(sc, &standing.path) {
        return Some(GapRejectAt {
            line: 2,
            why: GapWhy::Plain(Why::PathIllegal),
        });
    }
    let why = value_reason(sc, tables, standing, weight)?;
    Some(GapRejectAt {
        line: 3,
        why: GapWhy::Plain(why),
    })
}

// The first reason against a path as a record.
fn whole_reason(
    sc: &Scenario,
    tables: &mut BoundTables,
    standing: &Standing,
    whole: &Standing,
) -> Option<Why>
    requires made { AreMadeFor sc.now tables.old }
    requires legal { IsLegal sc.now whole.now.path }
    ensures reason { result ≡
        first_failed (kind_tests sc.now standing.now whole.now.path (Kind.Whole whole.now.value)) }
    ensures made { AreMadeFor sc.now tables.new }
{
    if whole.path.len() != sc.horizon() as usize || whole.value != tables.value(sc, &whole.path) {
        Some(Why::WholeWrong)
    } else if better(whole, standing) {
        Some(Why::NotCut)
    } else {
        None
    }
}

// The first reason against a kind at a legal prefix.
fn kind_reason(
    sc: &Scenario,
    tables: &mut BoundTables,
    standing: &Standing,
    prefix: &Path,
    kind: &Kind,
) -> Option<Why>
    requires made { AreMadeFor sc.now tables.old }
    requires legal { IsLegal sc.now prefix.now }
    requires exact { IsExact sc.now standing.now }
    ensures reason { result ≡ first_failed (kind_tests sc.now standing.now prefix.now kind.now) }
    ensures made { AreMadeFor sc.now tables.new }
{
    match kind {
        Kind::Branch => {
            if prefix.len() < sc.horizon() as usize {
                None
            } else {
                Some(Why::WholeWrong)
            }
        }
        Kind::Whole(number) => {
            let whole = Standing {
                path: *prefix,
                value: *number,
            };
            whole_reason(sc, tables, standing, &whole)
        }
        Kind::Mean(bound) => mean_reason(sc, tables, standing, prefix, *bound),
        Kind::Tangent(bound, reference) => {
            tangent_reason(sc, tables, standing, prefix, *bound, reference)
        }
        Kind::Edge(bound) => edge_reason(sc, tables, standing, prefix, *bound),
        Kind::Exchange(bound, u) => exchange_reason(sc, tables, prefix, *bound, *u),
        Kind::TwoLooks(bound) => two_look_reason(sc, tables, standing, prefix, *bound),
    }
}

// The first reason against a node at a legal prefix, by how far the search came below it.
fn open_reason(
    numbers: Numbers,
    sc: &Scenario,
    tables: &mut BoundTables,
    standing: &Standing,
    prefix: &Path,
    kind: &GapKind,
) -> Option<GapWhy>
    requires made { AreMadeFor sc.now tables.old }
    requires legal { IsLegal sc.now prefix.now }
    requires exact { IsExact sc.now standing.now }
    ensures reason { result ≡ first_failed (open_tests numbers sc.now standing.now prefix.now kind.now) }
    ensures made { AreMadeFor sc.now tables.new }
{
    match kind {
        GapKind::Closed(kind) => {
            let why = kind_reason(sc, tables, standing, prefix, kind)?;
            Some(GapWhy::Plain(why))
        }
        GapKind::Waiting(number) => {
            if *number != tables.ceiling(numbers, sc, prefix) {
                Some(GapWhy::WaitingWrong)
            } else {
                None
            }
        }
    }
}

/// The first reason against a node where a legal prefix is expected, in a gap plan with these numbers.
pub(crate) fn node_reason(
    numbers: Numbers,
    sc: &Scenario,
    tables: &mut BoundTables,
    standing: &Standing,
    expected: &Path,
    node: &GapNode,
) -> Option<GapWhy>
    requires made { AreMadeFor sc.now tables.old }
    requires legal { IsLegal sc.now expected.now }
    requires exact { IsExact sc.now standing.now }
    ensures reason { result ≡ first_failed (node_tests numbers sc.now standing.now expected.now node.now) }
    ensures made { AreMadeFor sc.now tables.new }
{
    if expected.cells().cmp(node.prefix.cells()).is_lt() {
        Some(GapWhy::Plain(Why::MissingChild))
    } else if node.prefix.cells().cmp(expected.cells()).is_lt() {
        Some(GapWhy::Plain(Why::NotChild))
    } else {
        open_reason(numbers, sc, tables, standing, expected, &node.kind)
    }
}
