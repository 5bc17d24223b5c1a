//! What a search answers.

ghost use Rattle.std.specs.Prelude.{◌≡◌};

use bound_tree::{BoundTree, TreeNode};
use exact_parts::NoMemory;
use search_model::{Path, Standing};

/// The best path with its value, and the bound tree that shows it.
#[derive(Drop)]
pub struct Found {
    pub best: Standing,
    pub tree: BoundTree,
}

/// What a search has whose nodes ran out: the records that it made, the prefixes that wait, in any order, and the best
/// standing that it knows.
#[derive(Drop)]
pub struct Partial {
    pub closed: Vec<TreeNode>,
    pub waiting: Vec<Path>,
    pub best: Standing,
}

/// Why a search has no answer.
#[derive(Drop)]
pub enum SearchStop {
    /// Memory ran out.
    NoMemory,
    /// The nodes ran out.
    Full(Partial),
}

impl From<NoMemory> for SearchStop {
    ghost use Rattle.search_workers.specs.declared.answer.SearchStop.TheVariants.{NoMemory};

    ghost from_gives = { λ _ e. e ≡ NoMemory };

    fn from(_refused: NoMemory) -> SearchStop {
        SearchStop::NoMemory
    }
}
