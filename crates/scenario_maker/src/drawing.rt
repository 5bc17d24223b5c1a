//! What is drawn for a scenario.

ghost use Rattle.std.specs.Prelude.{◌≡◌, replicate, IfOk};
ghost use Rattle.scenario_maker.specs.Generator.{state_after, draws_below};
ghost use Rattle.scenario_maker.specs.Made.{start_of, part_cells, counts_of, spread_of, overlook_of};

use crate::generator::Generator;
use crate::sizes::{CELLS, PARTS};
use exact_parts::NoMemory;
use std::alloc::Global;

/// What the draws of a scenario stand for.
#[derive(Drop)]
pub struct Drawn {
    /// The cell where the searcher starts.
    pub start: u8,
    /// Per cell, the target's part in period 1.
    pub first: Vec<u32>,
    /// The part that drifts from a cell to each side neighbour.
    pub spread: u32,
    /// The part of a target that a look at its cell misses.
    pub overlook: u32,
}

// Draws a cell for each of so many parts, and counts the parts of each cell.
fn draw_first(alloc: Global, generator: &mut Generator, parts: u8) -> Result<Vec<u32>, NoMemory>
    ensures state { IfOk result (λ _. generator.new.state ≡ state_after parts generator.old.state) }
    ensures first { IfOk result (λ first.
        first.items ≡ counts_of CELLS (draws_below (replicate parts CELLS) generator.old.state)) }
{
    let mut first = vec![in alloc; 0; CELLS as usize]?;
    for _ in 0..parts {
        let cell = generator.draw_below(CELLS);
        first[cell as usize] += 1;
    }
    Ok(first)
}

/// All draws of a number.
pub fn draw(alloc: Global, number: u64) -> Result<Drawn, NoMemory>
    ensures start { IfOk result (λ drawn. drawn.start ≡ start_of number) }
    ensures first { IfOk result (λ drawn. drawn.first.items ≡ counts_of CELLS (part_cells number)) }
    ensures spread { IfOk result (λ drawn. drawn.spread ≡ spread_of number) }
    ensures overlook { IfOk result (λ drawn. drawn.overlook ≡ overlook_of number) }
{
    let mut generator = Generator { state: number };
    let start = generator.draw_below(CELLS);
    let first = draw_first(alloc, &mut generator, PARTS)?;
    let spread = 1 + u32::from(generator.draw_below(3));
    let overlook = 1 + u32::from(generator.draw_below(4));
    Ok(Drawn {
        start,
        first,
        spread,
        overlook,
    })
}
