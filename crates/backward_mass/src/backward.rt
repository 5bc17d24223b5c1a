//! The backward pass.

ghost use Rattle.std.specs.Prelude.{◌≡◌, ◌<◌, ◌≤◌, ◌^◌, List, ℕ, IfOk};
ghost use Rattle.search_model.specs.Problem.{Problem, IsProblem};
ghost use Rattle.search_model.specs.Legal.{IsPath};
ghost use Rattle.backward_mass.specs.Masses.{backward_of};
ghost use Rattle.backward_mass.specs.Table.{IsMadeFor, IsFilled, IsFilledFrom};

use crate::periods::fill_periods;
use exact_parts::NoMemory;
use search_model::{Path, Scenario};
use std::alloc::Global;
use std::marker::Model;

/// Per period and cell, the sum over all that may follow the cell of drift parts times the factors of a path's later
/// looks.
#[derive(Drop)]
pub struct Backward {
    cells: u8,
    horizon: u32,
    masses: Vec<u128>,
    // A period's masses as the look there leaves them.
    missed: Vec<u128>,
}

impl Model for Backward {
    ghost use Rattle.std.specs.Prelude.{◌≡◌, ◌*◌, length};
    ghost use Rattle.backward_mass.specs.Table.{BackwardTable};

    ghost Value = { BackwardTable };

    ghost view = { λ b. record { cells = b.cells; horizon = b.horizon; masses = b.masses.items } };

    ghost invariant = { λ b. record {
      size : length b.masses.items ≡
          b.horizon * b.cells;
      spare : length b.missed.items ≡ b.cells;
    } };
}

impl Backward {
    /// Room for the masses of a scenario's paths: one for each cell of each period.
    pub fn tables(alloc: Global, sc: &Scenario) -> Result<Backward, NoMemory>
        ensures { IfOk result (IsMadeFor sc.now) }
    {
        let size = sc.horizon() as usize * usize::from(sc.cells());
        Ok(Backward {
            cells: sc.cells(),
            horizon: sc.horizon(),
            masses: vec![in alloc; 0; size]?,
            missed: vec![in alloc; 0; usize::from(sc.cells())]?,
        })
    }

    /// Computes the masses of a path, in place of those that stood there. Takes no memory.
    pub fn fill(&mut self, sc: &Scenario, path: &Path)
        requires made { IsMadeFor sc.now self.old }
        requires path { IsPath sc.now path.now }
        ensures { IsFilled sc.now path.now self.new }
    {
        sc.recall_sound();
        self.fill_from(sc, path, 1);
    }

    /// Computes the masses of a path in period `from` and later, in place of those that stood there. Takes no memory.
    pub fn fill_from(&mut self, sc: &Scenario, path: &Path, from: u32)
        requires made { IsMadeFor sc.now self.old }
        requires path { IsPath sc.now path.now }
        requires first { 1 ≤ from }
        requires last { from ≤ sc.now.horizon }
        ensures { IsFilledFrom sc.now path.now from self.new }
    {
        fill_periods(&mut self.masses, &mut self.missed, sc, path.cells(), from);
    }

    /// The mass of cell `c` in period `t`, under the looks after period `t` of the path that the masses were last
    /// computed of: below 2 ^ 127.
    pub fn at(&self, t: u32, c: u8) -> u128
        requires first { 1 ≤ t }
        requires last { t ≤ self.now.horizon }
        requires cell { c < self.now.cells }
        ensures mass { (p : Problem) (q : List ℕ) (k : ℕ) → IsFilledFrom p q k self.now → k ≤ t →
            result ≡ backward_of p q t c }
        ensures fits { (p : Problem) (q : List ℕ) (k : ℕ) → IsProblem p → IsFilledFrom p q k self.now → k ≤ t →
            result < 2 ^ 127 }
    {
        self.masses[(t as usize - 1) * usize::from(self.cells) + usize::from(c)]
    }
}
