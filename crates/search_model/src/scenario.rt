//! Scenarios.

ghost use Rattle.std.specs.Prelude.{◌≡◌, ◌<◌, ◌≤◌, ◌↔◌, ℕ, length, sum, IsTrue, IfOk, IfErr, IfSome, IfNone, Contains, All};
ghost use Rattle.search_model.specs.Faults.{WithinLimits, SizesAgree, IsFirstFault};
ghost use Rattle.search_model.specs.Legal.{last_of};
ghost use Rattle.search_model.specs.Names.{IsName, IsRepeated, name_in};
ghost use Rattle.search_model.specs.Parts.{problem_of};
ghost use Rattle.search_model.specs.Problem.{IsProblem};

use crate::name::Name;
use crate::path::Path;
use drift_chain::Drift;
use exact_parts::{fits, weight_of};
use search_grid::Grid;
use std::marker::Model;
use sweep_table::Sweep;

/// What a scenario is made of.
#[derive(Drop)]
pub struct Parts {
    /// One name a cell.
    pub names: Vec<Name>,
    /// One name a position; cells and positions may have the same names.
    pub positions: Vec<Name>,
    /// The number of periods.
    pub horizon: u32,
    /// The position where the searcher stands before period 1.
    pub start: u8,
    /// What `first` sums to.
    pub total: u32,
    /// Per cell, the target's part in period 1.
    pub first: Vec<u32>,
    pub grid: Grid,
    pub drift: Drift,
    pub sweep: Sweep,
}

/// A search problem within the limits, whose sums fit 128 bits.
#[derive(Drop)]
pub struct Scenario {
    parts: Parts,
}

impl Model for Scenario {
    ghost use Rattle.search_model.specs.Problem.{Problem, IsProblem};
    ghost use Rattle.search_model.specs.Parts.{problem_of};

    ghost Value = { Problem };

    ghost view = { λ s. problem_of s.parts };

    ghost invariant = { λ s. IsProblem (problem_of s.parts) };
}

/// Why parts make no scenario; the first of these that holds is named.
#[derive(Clone, Copy, Debug, PartialEq, Eq)]
pub enum ModelFault {
    /// The horizon isn't 1 to 32, or the total isn't 1 to 1,000,000.
    OutOfLimits,
    /// Names, first parts, drift and looks don't agree on the number of cells, or names, moves and looks on the number of
    /// positions.
    SizesDiffer,
    /// The start isn't a position.
    StartOutOfRange,
    /// The first parts don't sum to the total.
    WrongFirstSum,
    /// This is the least cell whose name stands before it.
    DoubleName(u8),
    /// The widest sum doesn't fit 127 bits.
    TooWide,
    /// This is the least position whose name stands before it.
    DoublePosition(u8),
}

// The sum of a few parts.
fn sum_of(parts: &[u32]) -> u64
    requires { length parts.now ≤ 200 }
    ensures { result ≡ sum parts.now }
{
    let mut total = 0;
    for part in parts {
        total += u64::from(*part);
    }
    total
}

// Whether the horizon and the total are within their limits.
fn within_limits(parts: &Parts) -> bool
    ensures { IsTrue result ↔ WithinLimits parts.now }
{
    (1..=32).contains(&parts.horizon) && (1..=1_000_000).contains(&parts.total)
}

// Whether all parts are of the same number of cells and of the same number of positions.
fn sizes_agree(parts: &Parts) -> bool
    ensures agree { IsTrue result ↔ SizesAgree parts.now }
    ensures few { IsTrue result → let s = parts.now in
        (length s.names.items ≤ 200) × (length s.first.items ≤ 200) × (length s.positions.items ≤ 200) }
{
    let cells = parts.drift.cells();
    let positions = parts.grid.cells();
    parts.names.len() == cells as usize
        && parts.first.len() == cells as usize
        && parts.sweep.cells() == cells
        && parts.positions.len() == positions as usize
        && parts.sweep.positions() == positions
}

// Whether a name is one of these.
fn stands_in(name: &[u8], names: &[Name]) -> bool
    ensures { IsTrue result ↔ Contains names.now name.now }
{
    names.iter().any(|n| n.bytes() == name)
}

// Whether the name at a place stands before it.
fn is_repeated(names: &[Name], c: usize) -> bool
    requires { c < length names.now }
    ensures value { IsTrue result ↔ IsRepeated names.now c }
    ensures name { IsName (name_in names.now c) }
{
    let name = &names[c];
    stands_in(name.bytes(), &names[..c])
}

// The least place of a name that stands before it.
fn first_repeated(names: &[Name]) -> Option<u8>
    requires { length names.now ≤ 200 }
    ensures some { IfSome result (λ c. IsRepeated names.now c × ((d : ℕ) → d < c → ¬ IsRepeated names.now d)) }
    ensures none { IfNone result ((c : ℕ) → ¬ IsRepeated names.now c) }
    ensures names { IfNone result (All IsName names.now) }
{
    for c in 0..names.len() {
        if is_repeated(names, c) {
            return Some(c as u8);
        }
    }
    None
}

// The first fault of parts, where they have one.
fn first_fault(parts: &Parts) -> Option<ModelFault>
    ensures some { IfSome result (IsFirstFault parts.now) }
    ensures none { IfNone result (IsProblem (problem_of parts.now)) }
{
    if !within_limits(parts) {
        return Some(ModelFault::OutOfLimits);
    }
    if !sizes_agree(parts) {
        return Some(ModelFault::SizesDiffer);
    }
    if parts.start >= parts.grid.cells() {
        return Some(ModelFault::StartOutOfRange);
    }
    if sum_of(&parts.first) != u64::from(parts.total) {
        return Some(ModelFault::WrongFirstSum);
    }
    if let Some(c) = first_repeated(&parts.names) {
        return Some(ModelFault::DoubleName(c));
    }
    let d = parts.drift.denominator();
    let g = parts.sweep.denominator();
    if !fits(parts.total, d, g, parts.horizon) {
        return Some(ModelFault::TooWide);
    }
    if let Some(p) = first_repeated(&parts.positions) {
        return Some(ModelFault::DoublePosition(p));
    }
    None
}

impl Scenario {
    ghost use Rattle.search_model.specs.declared.scenario.ModelFault.{ModelFault};
    ghost use Rattle.search_model.specs.Faults.{HasFault};

    /// The scenario of these parts, or the first fault.
    pub fn new(parts: Parts) -> Result<Scenario, ModelFault>
        ensures made { IfOk result (λ made. made ≡ problem_of parts) }
        ensures sound { IfOk result (λ _. (fault : ModelFault) → ¬ HasFault parts fault) }
        ensures fault { IfErr result (IsFirstFault parts) }
    {
        match first_fault(&parts) {
            Some(fault) => Err(fault),
            None => Ok(Scenario { parts }),
        }
    }

    /// The scenario of parts that are right.
    pub fn of_right(parts: Parts) -> Scenario
        requires { IsProblem (problem_of parts) }
        ensures value { result ≡ problem_of parts }
        ensures sound { IsProblem result }
    {
        Scenario { parts }
    }

    ghost use Rattle.search_model.specs.Problem.{first_of, cell_name, position_name, position_named as position_named_lem};
    ghost use Rattle.search_model.specs.Legal.{IsLegal, moves_after};
    ghost use Rattle.search_model.specs.Tracks.{whole_weight};

    /// Tells a caller's proof what holds of every scenario. Nothing is done.
    pub fn recall_sound(&self)
        ensures { IsProblem self.now }
    {
        let _ = &self.parts;
    }

    /// The number of cells, 1 to 200.
    pub fn cells(&self) -> u8
        ensures value { result ≡ self.now.cells }
        ensures sound { IsProblem self.now }
    {
        self.parts.drift.cells()
    }

    /// The number of positions of the searcher, 1 to 200.
    pub fn positions(&self) -> u8
        ensures value { result ≡ self.now.positions }
        ensures sound { IsProblem self.now }
    {
        self.parts.grid.cells()
    }

    /// The number of periods, 1 to 32.
    pub fn horizon(&self) -> u32
        ensures value { result ≡ self.now.horizon }
        ensures sound { IsProblem self.now }
    {
        self.parts.horizon
    }

    /// The position where the searcher stands before period 1.
    pub fn start(&self) -> u8
        ensures value { result ≡ self.now.start }
        ensures sound { IsProblem self.now }
    {
        self.parts.start
    }

    /// What the first parts sum to.
    pub fn total(&self) -> u32
        ensures { result ≡ self.now.total }
    {
        self.parts.total
    }

    /// The target's part in cell `c` in period 1, out of the total.
    pub fn first(&self, c: u8) -> u32
        requires { c < self.now.cells }
        ensures { result ≡ first_of self.now c }
    {
        self.parts.first[c as usize]
    }

    /// The name of cell `c`.
    pub fn name(&self, c: u8) -> &Name
        requires { c < self.now.cells }
        ensures value { result.now ≡ cell_name self.now c }
        ensures sound { IsProblem self.now }
    {
        &self.parts.names[c as usize]
    }

    /// The name of position `p`.
    pub fn position(&self, p: u8) -> &Name
        requires { p < self.now.positions }
        ensures value { result.now ≡ position_name self.now p }
        ensures sound { IsProblem self.now }
    {
        &self.parts.positions[p as usize]
    }

    /// The position that has this name.
    pub fn position_named(&self, name: &[u8]) -> Option<u8>
        ensures value { result ≡ position_named_lem self.now name.now }
        ensures position { IfSome result (λ a. a < self.now.positions) }
        ensures named { IfSome result (λ a. position_name self.now a ≡ name.now) }
        ensures none { IfNone result (¬ Contains self.now.position_names name.now) }
    {
        for a in 0..self.positions() {
            if self.position(a).bytes() == name {
                return Some(a);
            }
        }
        None
    }

    /// Whether a position has this name.
    pub fn is_position(&self, name: &[u8]) -> bool
        ensures { IsTrue result ↔ Contains self.now.position_names name.now }
    {
        self.position_named(name).is_some()
    }

    /// The searcher's moves.
    pub fn grid(&self) -> &Grid
        ensures value { result.now ≡ self.now.moves }
        ensures sound { IsProblem self.now }
    {
        &self.parts.grid
    }

    /// The target's drift.
    pub fn drift(&self) -> &Drift
        ensures value { result.now ≡ self.now.drift }
        ensures sound { IsProblem self.now }
    {
        &self.parts.drift
    }

    /// The searcher's looks.
    pub fn sweep(&self) -> &Sweep
        ensures value { result.now ≡ self.now.sweep }
        ensures sound { IsProblem self.now }
    {
        &self.parts.sweep
    }

    /// The whole weight, of which a value is a part: below 2 ^ 127.
    pub fn weight(&self) -> u128
        ensures value { result ≡ whole_weight self.now }
        ensures sound { IsProblem self.now }
    {
        weight_of(
            self.parts.total,
            self.parts.drift.denominator(),
            self.parts.sweep.denominator(),
            self.parts.horizon,
        )
    }

    /// Where the searcher is after a prefix: at its last position, or at the start.
    pub fn last_after(&self, prefix: &Path) -> u8
        ensures value { result ≡ last_of self.now.start prefix.now }
        ensures sound { IsProblem self.now }
    {
        prefix.cells().last().copied().unwrap_or(self.parts.start)
    }

    /// The moves after a legal prefix: those of its last position, or of the start.
    pub fn moves_after(&self, prefix: &Path) -> &[u8]
        requires { IsLegal self.now prefix.now }
        ensures value { result.now ≡ moves_after self.now prefix.now }
        ensures sound { IsProblem self.now }
    {
        self.parts.grid.moves(self.last_after(prefix))
    }

    /// Whether a prefix is legal: it follows the moves from the start and isn't longer than the horizon.
    pub fn is_legal(&self, prefix: &Path) -> bool
        ensures { IsTrue result ↔ IsLegal self.now prefix.now }
    {
        if prefix.len() > self.parts.horizon as usize {
            return false;
        }
        let mut last = self.parts.start;
        for c in prefix.cells() {
            if !self.parts.grid.is_move(last, *c) {
                return false;
            }
            last = *c;
        }
        true
    }
}
