//! One entry of a row.

/// A cell, and the part that a row gives to it.
#[derive(Clone, Copy, Debug, PartialEq, Eq)]
pub struct CellPart {
    pub cell: u8,
    pub part: u32,
}
