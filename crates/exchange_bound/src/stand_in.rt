//! The best of the prefixes that stand in for one.

ghost use Rattle.std.specs.Prelude.{◌≡◌, ◌<◌, ◌≤◌, ◌+◌, ◌++◌, ◌∷◌, [], ℕ, List, length, IfSome, IfNone, IsTrue, IsFalse};
ghost use Rattle.search_model.specs.Problem.{Problem};
ghost use Rattle.search_model.specs.Legal.{IsLegal};
ghost use Rattle.mean_bound.specs.Means.{IsMadeFor as IsMeanFor, IsAlong, IsFilledFor};
ghost use Rattle.bound_tree.specs.Exchanges.{StandsIn, IsBestStandIn, exchanged as exchanged_lem};
ghost use Rattle.exchange_bound.specs.Exchanges.{IsMadeFor};
ghost use Rattle.exchange_bound.specs.StandIns.{IsExchange, IsCandidate, AreCandidates, AreLeft, Precedes, Yields, place_at, candidate_of};

use crate::exchange::ExchangeTables;
use bound_tree::cuts;
use mean_bound::Mean;
use search_model::{Path, Scenario, Standing};

// The most moves of a position.
const MOST_MOVES: usize = 64;

/// A prefix that stands in for another: it has `position` in place of the last position but one.
#[derive(Clone, Copy)]
pub struct Exchange {
    /// The exchange bound of the prefix for which it stands in, in parts of the whole weight.
    pub bound: u128,
    /// Its own value, in such parts.
    pub value: u128,
    pub position: u8,
}

/// A position that may take the place of a prefix's last but one, and the value of what comes of it, in such parts.
#[derive(Clone, Copy)]
pub(crate) struct Candidate {
    pub(crate) value: u128,
    pub(crate) position: u8,
}

/// A prefix of two positions or more with position `u` in place of its last but one.
pub fn exchanged(prefix: &Path, u: u8) -> Path
    requires { 2 ≤ length prefix.now }
    ensures prefix { result ≡ exchanged_lem u prefix.now }
    ensures long { length result ≡ length prefix.now }
{
    let k = prefix.len();
    let mut other = prefix.first(k - 2);
    other.push(u);
    other.push(prefix.cells()[k - 1]);
    other
}

// Whether a candidate goes before another: it has the greater value, or of equals the smaller position.
fn precedes(left: Candidate, right: Candidate) -> bool
    ensures yes { IsTrue result → Precedes left right }
    ensures no { IsFalse result → Yields left right }
{
    left.value > right.value || (left.value == right.value && left.position < right.position)
}

// The candidate at position `u`, or `None` where what comes of it doesn't stand in. No bound is asked for: what is of less
// value than the prefix, or of the same and not smaller, cuts no bound of it.
fn candidate_at(mean: &mut Mean, sc: &Scenario, prefix: &Path, u: u8) -> Option<Candidate>
    requires mean { IsMeanFor sc.now mean.old }
    requires along { IsAlong prefix.now mean.old }
    requires long { 2 ≤ length prefix.now }
    ensures some { IfSome result (λ e. IsCandidate sc.now prefix.now e × (e.position ≡ u)) }
    ensures none { IfNone result (¬ StandsIn sc.now (exchanged_lem u prefix.now) prefix.now) }
    ensures mean { IsMeanFor sc.now mean.new }
    ensures along { IsAlong prefix.now mean.new }
    ensures filled { (q : List ℕ) → IsFilledFor sc.now q mean.old → IsFilledFor sc.now q mean.new }
{
    let other = exchanged(prefix, u);
    if !sc.is_legal(&other) {
        return None;
    }
    let value = mean.value(sc, &other);
    let least = mean.onward().value();
    if !cuts(&Standing { path: other, value }, least, prefix) {
        return None;
    }
    Some(Candidate { value, position: u })
}

// Notes down the candidate at position `u`, where there is one, behind the first `n` of a row. It says how many there are
// then.
fn note(
    row: &mut [Candidate],
    n: usize,
    mean: &mut Mean,
    sc: &Scenario,
    prefix: &Path,
    u: u8,
) -> usize
    requires room { n < length row.old }
    requires mean { IsMeanFor sc.now mean.old }
    requires along { IsAlong prefix.now mean.old }
    requires long { 2 ≤ length prefix.now }
    ensures noted { (tried : List ℕ) → AreCandidates sc.now prefix.now tried n row.old →
        AreCandidates sc.now prefix.now (tried ++ u ∷ []) result row.new }
    ensures mean { IsMeanFor sc.now mean.new }
    ensures along { IsAlong prefix.now mean.new }
    ensures filled { (q : List ℕ) → IsFilledFor sc.now q mean.old → IsFilledFor sc.now q mean.new }
{
    match candidate_at(mean, sc, prefix, u) {
        Some(found) => {
            row[n] = found;
            n + 1
        }
        None => n,
    }
}

// Notes down all candidates from the start of a row. It says how many there are.
fn note_all(row: &mut [Candidate], mean: &mut Mean, sc: &Scenario, prefix: &Path) -> usize
    requires room { length row.old ≡ 64 }
    requires mean { IsMeanFor sc.now mean.old }
    requires along { IsAlong prefix.now mean.old }
    requires legal { IsLegal sc.now prefix.now }
    requires long { 2 ≤ length prefix.now }
    ensures left { AreLeft sc.now prefix.now 0 result row.new }
    ensures mean { IsMeanFor sc.now mean.new }
    ensures along { IsAlong prefix.now mean.new }
    ensures filled { (q : List ℕ) → IsFilledFor sc.now q mean.old → IsFilledFor sc.now q mean.new }
{
    let front = prefix.first(prefix.len() - 2);
    let mut n = 0;
    for u in sc.moves_after(&front) {
        n = note(row, n, mean, sc, prefix, *u);
    }
    n
}

// The place of the candidate that goes before all others between two places of a row.
fn first_place(row: &[Candidate], from: usize, to: usize) -> usize
    requires some { from < to }
    requires inside { to ≤ length row.now }
    ensures from { from ≤ result }
    ensures to { result < to }
    ensures first { (j : ℕ) → from ≤ j → j < to → Yields (place_at row.now j) (place_at row.now result) }
{
    let mut first = from;
    for j in from + 1..to {
        if precedes(row[j], row[first]) {
            first = j;
        }
    }
    first
}

// Takes the candidate that goes before all others between two places of a row. The others are left behind the first of them.
fn take_first(row: &mut [Candidate], from: usize, to: usize) -> Candidate
    requires some { from < to }
    requires inside { to ≤ length row.old }
    ensures candidate { (p : Problem) (q : List ℕ) → AreLeft p q from to row.old → IsCandidate p q result }
    ensures first { (p : Problem) (q : List ℕ) → AreLeft p q from to row.old →
        (u : ℕ) → StandsIn p (exchanged_lem u q) q → Yields (candidate_of p q u) result }
    ensures left { (p : Problem) (q : List ℕ) → AreLeft p q from to row.old →
        ¬ StandsIn p (exchanged_lem result.position q) q → AreLeft p q (from + 1) to row.new }
{
    let j = first_place(row, from, to);
    let first = row[j];
    row[j] = row[from];
    first
}

// The exchange of a candidate, where it stands in.
fn stand_in(
    tables: &mut ExchangeTables,
    sc: &Scenario,
    mean: &mut Mean,
    prefix: &Path,
    candidate: Candidate,
) -> Option<Exchange>
    requires made { IsMadeFor sc.now tables.old }
    requires mean { IsMeanFor sc.now mean.old }
    requires along { IsAlong prefix.now mean.old }
    requires legal { IsLegal sc.now prefix.now }
    requires long { 2 ≤ length prefix.now }
    requires short { length prefix.now < sc.now.horizon }
    requires candidate { IsCandidate sc.now prefix.now candidate }
    ensures some { IfSome result (λ e. IsExchange sc.now prefix.now e × (e.position ≡ candidate.position)) }
    ensures none { IfNone result (¬ StandsIn sc.now (exchanged_lem candidate.position prefix.now) prefix.now) }
    ensures made { IsMadeFor sc.now tables.new }
    ensures mean { IsMeanFor sc.now mean.new }
    ensures along { IsAlong prefix.now mean.new }
    ensures filled { (q : List ℕ) → IsFilledFor sc.now q mean.old → IsFilledFor sc.now q mean.new }
{
    let other = exchanged(prefix, candidate.position);
    let bound = tables.bound(sc, mean, prefix, &other);
    let value = candidate.value;
    if !cuts(&Standing { path: other, value }, bound, prefix) {
        return None;
    }
    Some(Exchange {
        bound,
        value,
        position: candidate.position,
    })
}

// The first that stands in of all candidates, `n` in a row, which are asked in their order. So it is the best.
fn first_that_stands(
    tables: &mut ExchangeTables,
    sc: &Scenario,
    mean: &mut Mean,
    prefix: &Path,
    row: &mut [Candidate],
    n: usize,
) -> Option<Exchange>
    requires made { IsMadeFor sc.now tables.old }
    requires mean { IsMeanFor sc.now mean.old }
    requires along { IsAlong prefix.now mean.old }
    requires legal { IsLegal sc.now prefix.now }
    requires long { 2 ≤ length prefix.now }
    requires short { length prefix.now < sc.now.horizon }
    requires left { AreLeft sc.now prefix.now 0 n row.old }
    ensures some { IfSome result (λ e. IsExchange sc.now prefix.now e × IsBestStandIn sc.now prefix.now e.position) }
    ensures none { IfNone result ((u : ℕ) → ¬ StandsIn sc.now (exchanged_lem u prefix.now) prefix.now) }
    ensures made { IsMadeFor sc.now tables.new }
    ensures mean { IsMeanFor sc.now mean.new }
    ensures along { IsAlong prefix.now mean.new }
    ensures filled { (q : List ℕ) → IsFilledFor sc.now q mean.old → IsFilledFor sc.now q mean.new }
{
    for i in 0..n {
        let candidate = take_first(row, i, n);
        if let Some(found) = stand_in(tables, sc, mean, prefix, candidate) {
            return Some(found);
        }
    }
    None
}

/// The best of the prefixes that stand in for a prefix with another position in place of its last but one, or `None` where
/// none stands in: of the greatest value, and of several the one with the least position. They are asked in this order, so
/// that few bounds are.
pub(crate) fn best_among(
    tables: &mut ExchangeTables,
    sc: &Scenario,
    mean: &mut Mean,
    prefix: &Path,
) -> Option<Exchange>
    requires made { IsMadeFor sc.now tables.old }
    requires mean { IsMeanFor sc.now mean.old }
    requires along { IsAlong prefix.now mean.old }
    requires legal { IsLegal sc.now prefix.now }
    requires long { 2 ≤ length prefix.now }
    requires short { length prefix.now < sc.now.horizon }
    ensures some { IfSome result (λ e. IsExchange sc.now prefix.now e × IsBestStandIn sc.now prefix.now e.position) }
    ensures none { IfNone result ((u : ℕ) → ¬ StandsIn sc.now (exchanged_lem u prefix.now) prefix.now) }
    ensures made { IsMadeFor sc.now tables.new }
    ensures mean { IsMeanFor sc.now mean.new }
    ensures along { IsAlong prefix.now mean.new }
    ensures filled { (q : List ℕ) → IsFilledFor sc.now q mean.old → IsFilledFor sc.now q mean.new }
{
    let none = Candidate {
        value: 0,
        position: 0,
    };
    let mut row = [none; MOST_MOVES];
    let n = note_all(&mut row, mean, sc, prefix);
    first_that_stands(tables, sc, mean, prefix, &mut row, n)
}
