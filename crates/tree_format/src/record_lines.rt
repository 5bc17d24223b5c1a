//! The fields of a record's line.

ghost use Rattle.std.specs.Prelude.{◌≡◌, ◌≤◌, ◌∷◌, map, Some};
ghost use Rattle.tree_format.specs.Letters.{referred as referred_lem, only_of as only_of_lem, kind_with as kind_with_lem, numbered_by as numbered_by_lem};
ghost use Rattle.tree_format.specs.Reading.{most_positions as most_positions_lem, branch_line, bounded_of as bounded_of_lem, bounded_at as bounded_at_lem, bounded_line, numbered_line, node_line};

use crate::dialects::{has_edges, has_exchanges, has_open, prefixes_in};
use crate::fields::{amount_in, places_in};
use crate::kind::PlanKind;
use crate::plan_line::{Dialect, Prefixes};
use bound_tree::{GapKind, GapNode, Kind};
use search_model::{Path, Scenario};

/// A number, the prefix behind it, and the positions behind that.
#[derive(Clone, Copy)]
pub struct Bounded {
    pub bound: u128,
    pub prefix: Path,
    pub reference: Path,
}

/// The records that have a number, by their letters.
#[derive(Clone, Copy)]
pub enum Numbered {
    /// `W`
    Whole,
    /// `M`
    Mean,
    /// `T`, behind whose prefix stands a path.
    Tangent,
    /// `E`
    Edge,
    /// `X`, behind whose prefix stands one position.
    Exchange,
    /// `D`
    TwoLooks,
    /// `O`
    Waiting,
}

// The most positions that the prefix on a record's line may have.
fn most_positions(sc: &Scenario, prefixes: Prefixes) -> usize
    ensures value { result ≡ most_positions_lem sc.now prefixes }
    ensures few { result ≤ 32 }
{
    match prefixes {
        Prefixes::Written => sc.horizon() as usize,
        Prefixes::LeftOut => 0,
    }
}

fn read_branch(sc: &Scenario, most: usize, positions: &[&[u8]]) -> Result<GapNode, PlanKind>
    requires { most ≤ 32 }
    ensures { result ≡ branch_line sc.now most (map (λ f. f.now) positions.now) }
{
    if positions.len() > most {
        return Err(PlanKind::BadLine);
    }
    match places_in(sc, positions) {
        None => Err(PlanKind::BadNumber),
        Some(prefix) => Ok(GapNode {
            prefix,
            kind: GapKind::Closed(Kind::Branch),
        }),
    }
}

fn bounded_of(
    bound: Option<u128>,
    prefix: Option<Path>,
    reference: Option<Path>,
) -> Result<Bounded, PlanKind>
    ensures { result ≡ bounded_of_lem bound prefix reference }
{
    match (bound, prefix, reference) {
        (Some(bound), Some(prefix), Some(reference)) => Ok(Bounded {
            bound,
            prefix,
            reference,
        }),
        _ => Err(PlanKind::BadNumber),
    }
}

// A number and the positions behind it, of which the last so many are those that the record refers to.
fn bounded_at(
    sc: &Scenario,
    most: usize,
    long: usize,
    bound: &[u8],
    positions: &[&[u8]],
) -> Result<Bounded, PlanKind>
    requires most { most ≤ 32 }
    requires long { long ≤ 32 }
    ensures { result ≡ bounded_at_lem sc.now most long bound.now (map (λ f. f.now) positions.now) }
{
    if positions.len() < long || positions.len() > most + long {
        return Err(PlanKind::BadLine);
    }
    let own = positions.len() - long;
    bounded_of(
        amount_in(bound),
        places_in(sc, &positions[..own]),
        places_in(sc, &positions[own..]),
    )
}

fn read_bounded(
    sc: &Scenario,
    most: usize,
    long: usize,
    fields: &[&[u8]],
) -> Result<Bounded, PlanKind>
    requires most { most ≤ 32 }
    requires long { long ≤ 32 }
    ensures { result ≡ bounded_line sc.now most long (map (λ f. f.now) fields.now) }
{
    match fields {
        [] => Err(PlanKind::BadLine),
        [bound, positions @ ..] => bounded_at(sc, most, long, bound, positions),
    }
}

// How many positions a record refers to.
fn referred(sc: &Scenario, numbered: Numbered) -> usize
    ensures value { result ≡ referred_lem sc.now numbered }
    ensures few { result ≤ 32 }
{
    match numbered {
        Numbered::Tangent => sc.horizon() as usize,
        Numbered::Exchange => 1,
        Numbered::Whole
        | Numbered::Mean
        | Numbered::Edge
        | Numbered::TwoLooks
        | Numbered::Waiting => 0,
    }
}

// The position that an exchange refers to.
fn only_of(reference: &Path) -> u8
    ensures { result ≡ only_of_lem reference.now }
{
    match reference.cells() {
        [] => 0,
        [u, ..] => *u,
    }
}

// The record with this number and the positions that it refers to.
fn kind_with(numbered: Numbered, bound: u128, reference: &Path) -> GapKind
    ensures { result ≡ kind_with_lem numbered bound reference.now }
{
    match numbered {
        Numbered::Whole => GapKind::Closed(Kind::Whole(bound)),
        Numbered::Mean => GapKind::Closed(Kind::Mean(bound)),
        Numbered::Tangent => GapKind::Closed(Kind::Tangent(bound, *reference)),
        Numbered::Edge => GapKind::Closed(Kind::Edge(bound)),
        Numbered::Exchange => GapKind::Closed(Kind::Exchange(bound, only_of(reference))),
        Numbered::TwoLooks => GapKind::Closed(Kind::TwoLooks(bound)),
        Numbered::Waiting => GapKind::Waiting(bound),
    }
}

// A record that has a number, from the fields behind its letter.
fn read_numbered(
    sc: &Scenario,
    most: usize,
    numbered: Numbered,
    fields: &[&[u8]],
) -> Result<GapNode, PlanKind>
    requires { most ≤ 32 }
    ensures { result ≡ numbered_line sc.now most (Some numbered) (map (λ f. f.now) fields.now) }
{
    let Bounded {
        bound,
        prefix,
        reference,
    } = read_bounded(sc, most, referred(sc, numbered), fields)?;
    Ok(GapNode {
        prefix,
        kind: kind_with(numbered, bound, &reference),
    })
}

// Which record with a number has this letter in a dialect.
fn numbered_by(dialect: Dialect, letter: &[u8]) -> Option<Numbered>
    ensures { result ≡ numbered_by_lem dialect letter.now }
{
    match letter {
        b"W" => Some(Numbered::Whole),
        b"M" => Some(Numbered::Mean),
        b"T" => Some(Numbered::Tangent),
        b"E" if has_edges(dialect) => Some(Numbered::Edge),
        b"X" if has_exchanges(dialect) => Some(Numbered::Exchange),
        b"D" if has_exchanges(dialect) => Some(Numbered::TwoLooks),
        b"O" if has_open(dialect) => Some(Numbered::Waiting),
        _ => None,
    }
}

// A record, from its letter and the fields behind it.
fn read_lettered(
    sc: &Scenario,
    dialect: Dialect,
    letter: &[u8],
    fields: &[&[u8]],
) -> Result<GapNode, PlanKind>
    ensures { result ≡ node_line sc.now dialect (letter.now ∷ map (λ f. f.now) fields.now) }
{
    let most = most_positions(sc, prefixes_in(dialect));
    if letter == b"B".as_slice() {
        return read_branch(sc, most, fields);
    }
    match numbered_by(dialect, letter) {
        Some(numbered) => read_numbered(sc, most, numbered, fields),
        None => Err(PlanKind::BadLine),
    }
}

/// A record, from the fields of its line.
pub fn read_node(sc: &Scenario, dialect: Dialect, fields: &[&[u8]]) -> Result<GapNode, PlanKind>
    ensures { result ≡ node_line sc.now dialect (map (λ f. f.now) fields.now) }
{
    match fields {
        [] => Err(PlanKind::BadLine),
        [letter, fields @ ..] => read_lettered(sc, dialect, letter, fields),
    }
}
