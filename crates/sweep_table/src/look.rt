//! The row in force for a look.

ghost use Rattle.std.specs.Prelude.{◌≡◌, [], ◌∷◌};

use period_rows::CellPart;
use std::marker::Model;

/// The cells that one look covers, each with the part that it misses, in ascending order.
#[derive(Debug, Drop)]
pub struct Look<'a> {
    covers: Covers<'a>,
}

// What a look covers: one cell, or a row of them.
#[derive(Debug, Drop)]
enum Covers<'a> {
    One([CellPart; 1]),
    Row(&'a [CellPart]),
}

impl<'a> Model for Look<'a> {
    ghost use Rattle.std.specs.Prelude.{List};
    ghost use Rattle.period_rows.specs.declared.part.CellPart.{CellPart};

    ghost Value = { List CellPart };

    ghost use Rattle.sweep_table.specs.Covered.{parts_in};

    ghost view = { λ l. parts_in l.covers };
}

impl<'a> Look<'a> {
    /// The look that covers one cell.
    pub(crate) fn one(part: CellPart) -> Look<'a>
        ensures { result ≡ part ∷ [] }
    {
        Look {
            covers: Covers::One([part]),
        }
    }

    /// The look that covers a row of cells.
    pub(crate) fn row(row: &'a [CellPart]) -> Look<'a>
        ensures { result ≡ row.now }
    {
        Look {
            covers: Covers::Row(row),
        }
    }

    /// The cells with their parts.
    pub fn parts(&self) -> &[CellPart]
        ensures { result.now ≡ self.now }
    {
        match &self.covers {
            Covers::One(part) => part,
            Covers::Row(row) => row,
        }
    }
}
