//! The order of standings.

ghost use Rattle.std.specs.Prelude.{◌≡◌, ◌↔◌, IsTrue};
ghost use Rattle.search_model.specs.Order.{better as better_lem, Starts};

use crate::path::Path;

/// A path, or a prefix, with its value.
#[derive(Clone, Copy)]
pub struct Standing {
    pub path: Path,
    /// In parts of the scenario's whole weight.
    pub value: u128,
}

/// Whether a standing is better than another: of greater value, or of the same value with the smaller path.
pub fn better(a: &Standing, b: &Standing) -> bool
    ensures { result ≡ better_lem a.now b.now }
{
    a.value > b.value || (a.value == b.value && a.path < b.path)
}

/// Whether a path begins with a prefix.
pub fn starts(prefix: &Path, path: &Path) -> bool
    ensures { IsTrue result ↔ Starts prefix.now path.now }
{
    path.cells().starts_with(prefix.cells())
}
