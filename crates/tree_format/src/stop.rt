ghost use Rattle.std.specs.Prelude.{◌≡◌};

use crate::kind::PlanFault;

/// Why no plan was read.
#[derive(Clone, Copy, Debug, PartialEq, Eq)]
pub enum PlanStop {
    /// The text is no plan's.
    Fault(PlanFault),
    NoMemory,
}

impl From<exact_parts::NoMemory> for PlanStop {
    ghost use Rattle.tree_format.specs.declared.stop.PlanStop.TheVariants.{NoMemory};

    ghost from_gives = { λ _ e. e ≡ NoMemory };

    fn from(_refused: exact_parts::NoMemory) -> PlanStop {
        PlanStop::NoMemory
    }
}
