//! Rows of cells with a part each, as tables have them: a row of a drift and one of looks are of one type. And what holds
//! of what is made of them.

use std::alloc::{AllocError, Global};
use sweep_table::LookPart;

/// The entries of a row: a cell and its part.
pub(crate) type Entries = &'static [(u8, u32)];

/// A change as data: its period, the cell or the position that it is for, and the entries of its row.
pub(crate) type Told = (u32, u8, Entries);

/// The row of these entries, in the order in which they stand.
pub(crate) fn row_of(alloc: Global, entries: Entries) -> Result<Vec<LookPart>, AllocError> {
    entries
        .iter()
        .map(|(cell, part)| LookPart {
            cell: *cell,
            part: *part,
        })
        .collect(alloc)
}

/// The rows of these lists.
pub(crate) fn rows_of(alloc: Global, lists: &[Entries]) -> Result<Vec<Vec<LookPart>>, AllocError> {
    lists
        .iter()
        .map(|list| row_of(alloc, list))
        .try_collect(alloc)
}

/// Whether something was made, and this holds of it.
pub(crate) fn is_made<T: Drop, E: Drop, F: FnOnce(&T) -> bool>(made: Result<T, E>, holds: F) -> bool
    requires { F.IsAlwaysCallable holds }
{
    match made {
        Ok(thing) => {
            let is = holds(&thing);
            drop(thing);
            is
        }
        Err(_) => false,
    }
}
