//! The sorts of rows of the canonical text.

/// The rows that cells or positions have, one each.
#[derive(Clone, Copy)]
pub enum RowSort {
    /// Names of cells.
    Cells,
    /// Names of positions.
    Positions,
    /// Where a searcher may go.
    Moves,
    /// How the target drifts.
    Drift,
    /// What a look misses of the cell of its position's number.
    Overlook,
    /// What a look misses of each cell that it covers.
    Looks,
}

/// The rows of one period, of which only those are printed that aren't those of period 1.
#[derive(Clone, Copy)]
pub enum ChangeSort {
    /// How the target drifts after that period.
    DriftIn,
    /// What a look of that period misses.
    LookIn,
}
