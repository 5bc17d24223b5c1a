ghost use Rattle.path_node.specs.Room.{IsMadeFor};

use crate::scenarios::{asked_of, crosses_threads};
use bound_tree::Kind;
use path_node::{Scratch, close};
use search_model::{Path, Scenario, Standing, value};
use std::alloc::Global;
use std::test::Fail;
use worked_scenarios::{BASE_AND_AIR, TWO_RATES, WAITING_FOUR, WAITING_LONGER};

// A record's letter, its number, and the reference of a tangent or the position of an exchange.
type Told = (char, u128, Path);

fn alone(u: u8) -> Path {
    let mut path = Path::empty();
    path.push(u);
    path
}

fn told(kind: &Kind) -> Told {
    match kind {
        Kind::Branch => ('B', 0, Path::empty()),
        Kind::Whole(value) => ('W', *value, Path::empty()),
        Kind::Mean(bound) => ('M', *bound, Path::empty()),
        Kind::Tangent(bound, reference) => ('T', *bound, *reference),
        Kind::Edge(bound) => ('E', *bound, Path::empty()),
        Kind::Exchange(bound, u) => ('X', *bound, alone(*u)),
        Kind::TwoLooks(bound) => ('D', *bound, Path::empty()),
    }
}

// What the record of a prefix tells under the standing of a path, where both are legal.
fn closed(sc: &Scenario, scratch: &mut Scratch, prefix: &[u8], best: &[u8]) -> Option<Told>
    requires { IsMadeFor sc.now scratch.old }
    ensures { IsMadeFor sc.now scratch.new }
{
    let prefix = Path::of(prefix)?;
    let path = Path::of(best)?;
    if sc.is_legal(&prefix) && sc.is_legal(&path) && path.len() == sc.horizon() as usize {
        let standing = Standing {
            path,
            value: value(sc, &path),
        };
        Some(told(&close(scratch, sc, &prefix, &standing).kind))
    } else {
        None
    }
}

// A prefix, and what its record tells: the letter, the number, and the reference of a tangent or the position of an exchange.
type Row = (&'static [u8], char, u128, &'static [u8]);

// Whether the records of some prefixes tell this under the standing of a path.
fn tell(sc: &Scenario, scratch: &mut Scratch, best: &[u8], rows: &[Row]) -> bool
    requires { IsMadeFor sc.now scratch.old }
{
    for (prefix, letter, number, reference) in rows {
        match closed(sc, scratch, prefix, best) {
            Some((is, n, x)) if is == *letter && n == *number && x.cells() == *reference => {}
            _ => return false,
        }
    }
    true
}

// Whether the records of a scenario's prefixes tell this under the standing of a path.
fn are_closed_over(alloc: Global, sc: &Scenario, best: &[u8], rows: &[Row]) -> Result<bool, Fail> {
    let mut scratch = Scratch::tables(alloc, sc)?;
    Ok(tell(sc, &mut scratch, best, rows))
}

fn are_closed(alloc: Global, text: &str, best: &[u8], rows: &[Row]) -> Result<bool, Fail> {
    asked_of(
        alloc,
        text,
        |alloc, sc| are_closed_over(alloc, sc, best, rows),
    )
}

// The path that waits with the target, which finds 7 of 8.
const WAITS: &[u8] = &[2, 2, 2];

const LONGER_ROWS: &[Row] = &[
    (&[], 'B', 0, &[]),
    (&[0], 'M', 4, &[]),
    (&[1], 'T', 12, &[1, 2, 2]),
    (&[2], 'B', 0, &[]),
    (&[2, 2, 1], 'W', 6, &[]),
];

#[test]
fn prefixes_are_closed_by_each_kind(rt: HostRuntime) -> Result<(), Fail> {
    assert!(rt; are_closed(rt.alloc(), WAITING_LONGER, WAITS, LONGER_ROWS)?);
    Ok(())
}

const TWO_RATES_ROWS: &[Row] = &[
    (&[0], 'M', 4, &[]),
    (&[1], 'E', 6, &[]),
    (&[2], 'B', 0, &[]),
];

#[test]
fn looks_of_two_rates_have_no_tangent(rt: HostRuntime) -> Result<(), Fail> {
    assert!(rt; are_closed(rt.alloc(), TWO_RATES, WAITS, TWO_RATES_ROWS)?);
    crosses_threads::<Scratch>();
    Ok(())
}

// Under a path that finds nothing all is left open but what another prefix rules out. For 111 both 101 and 121 stand in, and
// the one that finds 8 is taken. 22 finds as much as the bound of 12 over it, and is greater.
const EXCHANGE_ROWS: &[Row] = &[
    (&[1], 'B', 0, &[]),
    (&[1, 1], 'X', 0, &[0]),
    (&[1, 2], 'B', 0, &[]),
    (&[2, 2], 'B', 0, &[]),
    (&[1, 1, 1], 'X', 4, &[2]),
    (&[2, 1, 1], 'X', 10, &[2]),
    (&[2, 2, 2, 1], 'W', 14, &[]),
];

#[test]
fn prefixes_are_closed_by_exchanges(rt: HostRuntime) -> Result<(), Fail> {
    assert!(rt; are_closed(rt.alloc(), WAITING_FOUR, &[1, 1, 1, 1], EXCHANGE_ROWS)?);
    Ok(())
}

const AIR_ROWS: &[Row] = &[(&[], 'B', 0, &[]), (&[0], 'W', 0, &[]), (&[1], 'W', 1, &[])];

// The look from the air finds 1 of 2, which is the whole of each bound of the empty prefix.
#[test]
fn more_positions_than_cells_are_closed(rt: HostRuntime) -> Result<(), Fail> {
    assert!(rt; are_closed(rt.alloc(), BASE_AND_AIR, &[1], AIR_ROWS)?);
    Ok(())
}
