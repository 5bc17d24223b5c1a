//! What is the same in every made scenario.

/// The number of rows, and of columns.
pub const SIDE: u8 = 5;

/// The number of cells.
pub const CELLS: u8 = SIDE * SIDE;

/// The number of periods.
pub const HORIZON: u32 = 8;

/// The number of parts of the first distribution; a cell is drawn for each.
pub const PARTS: u8 = 60;

/// What the parts of a drift row sum to.
pub const DRIFT: u32 = 12;

/// What an overlook part is a part of.
pub const LOOK: u32 = 6;
