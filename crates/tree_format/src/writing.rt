//! Positions as fields, each with a blank before it.

ghost use Rattle.std.specs.Prelude.{◌≡◌, ◌++◌, ◌<◌, map, OnOk, OnErr};
ghost use Rattle.exact_parts.specs.Appending.{Begins};
ghost use Rattle.text_rows.specs.Rows.{spaced};
ghost use Rattle.search_model.specs.Problem.{position_name};
ghost use Rattle.tree_format.specs.PlanText.{numbers, ArePositions};

use exact_parts::NoMemory;
use search_model::Scenario;
use text_rows::{Field, push_field};

/// Appends position numbers, each with a blank before it.
pub fn push_positions(out: &mut Vec<u8>, positions: &[u8]) -> Result<(), NoMemory>
    ensures ok { OnOk result (out.new.items ≡ out.old.items ++ spaced (numbers positions.now)) }
    ensures err { OnErr result (Begins out.old.items out.new.items) }
{
    for q in positions {
        push_field(out, Field::Number(*q as u128))?;
    }
    Ok(())
}

/// Appends the names of positions, each with a blank before it.
pub fn push_names(out: &mut Vec<u8>, sc: &Scenario, positions: &[u8]) -> Result<(), NoMemory>
    requires { ArePositions sc.now positions.now }
    ensures ok { OnOk result (out.new.items ≡ out.old.items ++ spaced (map (position_name sc.now) positions.now)) }
    ensures err { OnErr result (Begins out.old.items out.new.items) }
{
    for q in positions {
        push_field(out, Field::Word(sc.position(*q).bytes()))?;
    }
    Ok(())
}
