//! The tests of paths.

ghost use Rattle.std.specs.Prelude.{◌≡◌, ◌≤◌, ◌&&◌, IsTrue, nat_eq, length, take};
ghost use Rattle.std.specs.List.{starts_with};
ghost use Rattle.search_model.specs.Legal.{IsLegal, IsPath};
ghost use Rattle.bound_tree.specs.Exchanges.{exchanged};
ghost use Rattle.tree_checker.specs.Reasons.{is_path as is_path_lem, has_exchanges as has_exchanges_lem, has_two_looks as has_two_looks_lem, takes_place as takes_place_lem};

use search_model::{Path, Scenario};

/// Whether a prefix is legal and as long as the horizon.
#[tactic(auto, using(crate::proofs::Paths::legal_is_path))]
pub(crate) fn is_path(sc: &Scenario, path: &Path) -> bool
    ensures legal { IsTrue result → IsLegal sc.now path.now }
    ensures path { IsTrue result → IsPath sc.now path.now }
    ensures value { result ≡ is_path_lem sc.now path.now }
{
    path.len() == sc.horizon() as usize && sc.is_legal(path)
}

/// Whether positions are a path that begins with a prefix.
pub(crate) fn is_path_from(sc: &Scenario, prefix: &Path, path: &Path) -> bool
    ensures path { IsTrue result → IsPath sc.now path.now }
    ensures begins { IsTrue result → take (length prefix.now) path.now ≡ prefix.now }
    ensures value { result ≡ (is_path_lem sc.now path.now && starts_with nat_eq path.now prefix.now) }
{
    is_path(sc, path) && path.cells().starts_with(prefix.cells())
}

/// Whether a prefix is asked for one that stands in for it.
pub(crate) fn has_exchanges(sc: &Scenario, prefix: &Path) -> bool
    ensures { result ≡ has_exchanges_lem sc.now prefix.now }
{
    sc.horizon() >= 4 && prefix.len() >= 2 && prefix.len() < sc.horizon() as usize
}

/// Whether a prefix is asked for its bound that remembers two looks.
pub(crate) fn has_two_looks(sc: &Scenario, prefix: &Path) -> bool
    ensures { result ≡ has_two_looks_lem sc.now prefix.now }
{
    sc.horizon() >= 4 && prefix.len() < sc.horizon() as usize
}

/// Whether position `u` may take the place of a prefix's last but one, where `other` is what comes of it.
pub(crate) fn takes_place(sc: &Scenario, prefix: &Path, u: u8, other: &Path) -> bool
    requires long { 2 ≤ length prefix.now }
    requires other { other.now ≡ exchanged u prefix.now }
    ensures legal { IsTrue result → IsLegal sc.now other.now }
    ensures value { result ≡ takes_place_lem sc.now prefix.now u }
{
    u != prefix.cells()[prefix.len() - 2] && sc.is_legal(other)
}
