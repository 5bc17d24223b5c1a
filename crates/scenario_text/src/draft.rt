use drift_chain::DriftPart;
use indexmap::IndexSet;
use period_rows::GivenChange;

/// The version of a text.
#[derive(Clone, Copy)]
pub enum TextVersion {
    /// The positions of the searcher are the cells.
    One,
    /// Positions have names of their own, a look may cover several cells, and rows may be of one period.
    Two,
}

/// The line that is due.
#[derive(Clone, Copy)]
pub enum Stage {
    Version,
    Horizon,
    Parts,
    /// A cell; or, in version 1, the grid before any cell, or the start behind a cell; or, in version 2, a position
    /// behind a cell.
    Cells,
    /// A position more, or the start.
    Positions,
    /// The start behind a grid.
    Start,
    First,
    /// A row, a shorthand, or the end.
    Rows,
    Ended,
}

/// What was read so far. The number of a cell, or of a position, is its name's place in its set. `moves` has an element
/// a position, `parts` and, in version 1, `overlook` one a cell, and, in version 2, `looks` one a position; one that has
/// no row of moves or of parts yet has an empty one, which no line gives.
#[derive(Drop)]
pub struct Draft {
    pub stage: Stage,
    pub version: TextVersion,
    pub horizon: u32,
    pub total: u32,
    pub drift: u32,
    pub look: u32,
    pub names: IndexSet<Vec<u8>>,
    /// The names of the positions in version 2. In version 1 there are none: the positions are the cells.
    pub positions: IndexSet<Vec<u8>>,
    /// Whether the cells are those of a line `grid`.
    pub gridded: bool,
    pub start: u8,
    pub first: Vec<DriftPart>,
    pub moves: Vec<Vec<u8>>,
    pub parts: Vec<Vec<DriftPart>>,
    pub overlook: Vec<Option<u32>>,
    pub looks: Vec<Option<Vec<DriftPart>>>,
    /// The rows of single periods, whose owners are cells and positions.
    pub drift_rows: Vec<GivenChange>,
    pub look_rows: Vec<GivenChange>,
}
