//! The line that is due.

ghost use Rattle.std.specs.Prelude.{◌≡◌, ◌↔◌, IsTrue, IfOk};
ghost use Rattle.tree_format.specs.Reading.{at_start};

use crate::places::Places;
use crate::plan_line::{Dialect, Family, Stage};
use exact_parts::NoMemory;
use std::alloc::Global;

/// The line that is due: the dialect that was read, where the line stands, and the prefixes that are expected.
#[derive(Drop)]
pub struct Due {
    pub dialect: Dialect,
    pub stage: Stage,
    pub expected: Places,
}

/// The first line of a text of the family.
pub fn first_due(alloc: Global, family: Family) -> Result<Due, NoMemory>
    ensures { IfOk result (λ due. due ≡ at_start family) }
{
    Ok(Due {
        dialect: Dialect::PlanOne,
        stage: Stage::Version(family),
        expected: Places::start(alloc)?,
    })
}

/// Whether the last line was read.
pub fn is_ended(stage: Stage) -> bool
    ensures { IsTrue result ↔ (stage ≡ Stage.Ended) }
{
    matches!(stage, Stage::Ended)
}
