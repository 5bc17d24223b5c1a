//! What the dialects differ in.

ghost use Rattle.std.specs.Prelude.{◌≡◌, ◌≤◌};
ghost use Rattle.tree_format.specs.Dialects.{family_of as family_of_lem, most_records as most_records_lem, first_line as first_line_lem, has_edges as has_edges_lem, has_exchanges as has_exchanges_lem, has_open as has_open_lem, prefixes_in as prefixes_in_lem, numbers_in as numbers_in_lem, dialect_with, plan_dialect_for};

use crate::plan_line::{Dialect, Family, Prefixes};
use bound_tree::{MOST_NODES, Numbers};
use search_model::Scenario;

/// The most nodes that a gap plan may have: as many as 65,536 records of 64 children each leave.
pub const MOST_GAP_NODES: u64 = 4_194_305;

/// The family of a dialect.
pub fn family_of(dialect: Dialect) -> Family
    ensures { result ≡ family_of_lem dialect }
{
    match dialect {
        Dialect::PlanOne | Dialect::PlanTwo | Dialect::PlanThree => Family::Plans,
        Dialect::GapOne | Dialect::GapTwo => Family::Gaps,
    }
}

/// The most records that a text of a family may have.
pub fn most_records(family: Family) -> u64
    ensures value { result ≡ most_records_lem family }
    ensures few { result ≤ 4194305 }
{
    match family {
        Family::Plans => MOST_NODES,
        Family::Gaps => MOST_GAP_NODES,
    }
}

/// The line of the first record of a text of a family.
pub fn first_line(family: Family) -> u64
    ensures { result ≡ first_line_lem family }
{
    match family {
        Family::Plans => 5,
        Family::Gaps => 6,
    }
}

/// Whether a text may have records of edge bounds.
pub fn has_edges(dialect: Dialect) -> bool
    ensures { result ≡ has_edges_lem dialect }
{
    match dialect {
        Dialect::PlanOne => false,
        Dialect::PlanTwo | Dialect::PlanThree | Dialect::GapOne | Dialect::GapTwo => true,
    }
}

/// Whether it may have records of exchanges, and of bounds that remember two looks.
pub fn has_exchanges(dialect: Dialect) -> bool
    ensures { result ≡ has_exchanges_lem dialect }
{
    match dialect {
        Dialect::PlanOne | Dialect::PlanTwo | Dialect::GapOne => false,
        Dialect::PlanThree | Dialect::GapTwo => true,
    }
}

/// Whether it may have nodes that wait, and has the line `ceiling N`.
pub fn has_open(dialect: Dialect) -> bool
    ensures { result ≡ has_open_lem dialect }
{
    match dialect {
        Dialect::PlanOne | Dialect::PlanTwo | Dialect::PlanThree => false,
        Dialect::GapOne | Dialect::GapTwo => true,
    }
}

/// Where it has the prefixes of its records.
pub fn prefixes_in(dialect: Dialect) -> Prefixes
    ensures { result ≡ prefixes_in_lem dialect }
{
    match dialect {
        Dialect::PlanOne => Prefixes::Written,
        Dialect::PlanTwo | Dialect::PlanThree | Dialect::GapOne | Dialect::GapTwo => {
            Prefixes::LeftOut
        }
    }
}

/// Which bounds the numbers of its nodes that wait are; of a dialect in which none waits, mean bounds.
pub fn numbers_in(dialect: Dialect) -> Numbers
    ensures { result ≡ numbers_in_lem dialect }
{
    match dialect {
        Dialect::PlanOne | Dialect::PlanTwo | Dialect::PlanThree | Dialect::GapOne => {
            Numbers::Means
        }
        Dialect::GapTwo => Numbers::Edges,
    }
}

/// The dialect of the gap plans with these numbers.
pub fn gap_dialect(numbers: Numbers) -> Dialect
    ensures { result ≡ dialect_with numbers }
{
    match numbers {
        Numbers::Means => Dialect::GapOne,
        Numbers::Edges => Dialect::GapTwo,
    }
}

/// The dialect that the plans of a scenario are written in: from horizon 4 on version 3, else version 2.
pub fn plan_dialect(sc: &Scenario) -> Dialect
    ensures { result ≡ plan_dialect_for sc.now }
{
    if sc.horizon() < 4 {
        Dialect::PlanTwo
    } else {
        Dialect::PlanThree
    }
}
