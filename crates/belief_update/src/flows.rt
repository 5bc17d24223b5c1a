//! Where a unit of the target that was in one cell is, step by step: what a look took of its own cell goes that way, too.

ghost use Rattle.std.specs.Prelude.{◌≡◌, ◌<◌, ◌≤◌, ◌+◌, ◌*◌, ◌++◌, ℕ, List, length, IsTrue, IsFalse, IfOk};
ghost use Rattle.drift_chain.specs.DriftRows.{row_of};
ghost use Rattle.search_model.specs.Problem.{Problem};
ghost use Rattle.belief_update.specs.Flows.{entry_of, AreFlows, DriftsAlike, HasStepsFor, HoldMasses, HoldUnits, IsFlow};
ghost use Rattle.belief_update.specs.declared.flows.UnitPart.{UnitPart as UnitPartLem};

use crate::steps;
use exact_parts::NoMemory;
use search_model::Scenario;
use std::alloc::Global;
use std::marker::Model;

/// A cell, and how much of a unit is in it.
#[derive(Clone, Copy)]
pub struct UnitPart {
    pub cell: u8,
    pub part: u128,
}

/// The entries of a step: from a first one to before a last.
#[derive(Clone, Copy)]
pub struct Span {
    pub from: usize,
    pub to: usize,
}

/// Where a unit that was in one cell is after each number of steps, and how much of it, where all steps of the drift are as
/// the first one. Steps are made when they are first asked for, in room that is there from the start.
#[derive(Drop)]
pub struct Flow {
    // The unit after the last step that was made, cell by cell.
    unit: Vec<u128>,
    next: Vec<u128>,
    // The cells that have some of it, step after step.
    entries: Vec<UnitPart>,
    // Per step, which of them are its own.
    spans: Vec<Span>,
}

impl Model for Flow {
    ghost use Rattle.std.specs.Prelude.{◌≡◌, length};
    ghost use Rattle.belief_update.specs.Flows.{FlowState};

    ghost Value = { FlowState };

    ghost view = { λ f. record { unit = f.unit.items; entries = f.entries.items; spans = f.spans.items } };

    ghost invariant = { λ f. length f.next.items ≡ length f.unit.items };
}

// Notes down a cell that has a mass, behind what stands there. It says whether there was room for it.
fn note_cell(entries: &mut Vec<UnitPart>, cell: u8, part: u128) -> bool
    ensures noted { IsTrue result → entries.new.items ≡ entries.old.items ++ entry_of cell part }
    ensures full { IsFalse result → entries.new.items ≡ entries.old.items }
{
    if part == 0 {
        return true;
    }
    match entries.push(UnitPart { cell, part }) {
        Ok(()) => true,
        Err(_) => false,
    }
}

// Notes down all cells that have a mass. It says whether there was room for them.
fn note(entries: &mut Vec<UnitPart>, masses: &[u128]) -> bool
    requires { length masses.now ≤ 256 }
    ensures { (rest : List UnitPartLem) × (entries.new.items ≡ entries.old.items ++ rest)
        × (IsTrue result → HoldMasses masses.now rest) }
{
    for c in 0..masses.len() {
        if !note_cell(entries, c as u8, masses[c]) {
            return false;
        }
    }
    true
}

impl Flow {
    /// A unit in a cell, and room for its steps. Only this call takes memory.
    pub fn tables(alloc: Global, sc: &Scenario, cell: u8) -> Result<Flow, NoMemory>
        requires { cell < sc.now.cells }
        ensures { IfOk result (IsFlow sc.now cell) }
    {
        let cells = usize::from(sc.cells());
        let steps = sc.horizon() as usize;
        let mut unit = vec![in alloc; 0; cells]?;
        unit[usize::from(cell)] = 1;
        Ok(Flow {
            unit,
            next: vec![in alloc; 0; cells]?,
            entries: Vec::with_capacity(alloc, cells * steps)?,
            spans: Vec::with_capacity(alloc, steps)?,
        })
    }

    // Makes one step more. It says whether there was room for it.
    fn step(&mut self, sc: &Scenario) -> bool
        requires flow { (a : ℕ) × IsFlow sc.now a self.old }
        requires more { length self.old.spans + 1 < sc.now.horizon }
        ensures flow { (a : ℕ) → IsFlow sc.now a self.old → IsFlow sc.now a self.new }
        ensures made { IsTrue result → length self.new.spans ≡ length self.old.spans + 1 }
    {
        steps::move_on(&mut self.next, &self.unit, sc.drift(), 1);
        let from = self.entries.len();
        if !note(&mut self.entries, &self.next) {
            return false;
        }
        let to = self.entries.len();
        match self.spans.push(Span { from, to }) {
            Ok(()) => {
                std::mem::swap(&mut self.unit, &mut self.next);
                true
            }
            Err(_) => false,
        }
    }

    // Makes all steps up to the `n`-th. It says whether there was room for them.
    fn reach(&mut self, sc: &Scenario, n: usize) -> bool
        requires flow { (a : ℕ) × IsFlow sc.now a self.old }
        requires last { n < sc.now.horizon }
        ensures flow { (a : ℕ) → IsFlow sc.now a self.old → IsFlow sc.now a self.new }
        ensures made { IsTrue result → n ≤ length self.new.spans }
    {
        for _ in self.spans.len()..n {
            if !self.step(sc) {
                return false;
            }
        }
        true
    }

    /// Makes all steps up to the `n`-th, where there are units that go them. It says whether there was room for them, as
    /// there is from the start.
    pub fn reach_with(&mut self, sc: &Scenario, units: u128, n: usize) -> bool
        requires flow { (a : ℕ) × IsFlow sc.now a self.old }
        requires last { n < sc.now.horizon }
        ensures flow { (a : ℕ) → IsFlow sc.now a self.old → IsFlow sc.now a self.new }
        ensures made { IsTrue result → HasStepsFor units n self.new }
    {
        units == 0 || self.reach(sc, n)
    }

    /// The cells that have some of so many units after `n` steps. Where there are no units, none has, and no step is asked for.
    pub fn row(&self, units: u128, n: usize) -> &[UnitPart]
        requires first { 1 ≤ n }
        requires made { HasStepsFor units n self.now }
        requires flow { (p : Problem) × (a : ℕ) × IsFlow p a self.now }
        ensures { (p : Problem) (a : ℕ) → IsFlow p a self.now → HoldUnits p a units n result.now }
    {
        if units == 0 {
            return &[];
        }
        let span = self.spans[n - 1];
        &self.entries[span.from..span.to]
    }
}

// Whether the step from cell `c` after period `t` is that after period 1.
fn is_same_step(sc: &Scenario, t: u32, c: u8) -> bool
    requires first { 1 ≤ t }
    requires last { t < sc.now.horizon }
    requires cell { c < sc.now.cells }
    ensures { IsTrue result → row_of sc.now.drift t c ≡ row_of sc.now.drift 1 c }
{
    sc.recall_sound();
    sc.drift().row(t, c) == sc.drift().row(1, c)
}

/// Whether each step after period `t` is that after period 1.
pub fn has_first_steps(sc: &Scenario, t: u32) -> bool
    requires first { 1 ≤ t }
    requires last { t < sc.now.horizon }
    ensures { IsTrue result → (c : ℕ) → c < sc.now.cells → row_of sc.now.drift t c ≡ row_of sc.now.drift 1 c }
{
    for c in 0..sc.cells() {
        if !is_same_step(sc, t, c) {
            return false;
        }
    }
    true
}

// Whether all steps of the drift are as the first one.
fn drifts_alike(sc: &Scenario) -> bool
    ensures { IsTrue result → DriftsAlike sc.now }
{
    if !sc.drift().may_change() {
        return true;
    }
    for t in 1..sc.horizon() {
        if !has_first_steps(sc, t) {
            return false;
        }
    }
    true
}

/// A flow for each cell, where all steps of the drift are as the first one, and else none. Only this call takes memory.
pub fn flows_over(alloc: Global, sc: &Scenario) -> Result<Vec<Flow>, NoMemory>
    ensures { IfOk result (λ flows. AreFlows sc.now flows.items) }
{
    if !drifts_alike(sc) {
        return Ok(Vec::new(alloc));
    }
    let mut flows = Vec::new(alloc);
    for c in 0..sc.cells() {
        flows.push(Flow::tables(alloc, sc, c)?)?;
    }
    Ok(flows)
}
