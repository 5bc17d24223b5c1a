//! The numbers of the nodes that wait.

ghost use Rattle.std.specs.Prelude.{◌≡◌, ◌∷◌, map, All};
ghost use Rattle.search_model.specs.Legal.{IsLegal};
ghost use Rattle.search_model.specs.Bounds.{greatest};
ghost use Rattle.bound_tree.specs.Gaps.{open_number, open_numbers};
ghost use Rattle.ceiling_bound.specs.Ceilings.{AreCeilingsFor};
ghost use Rattle.gap_plan.specs.Nodes.{numbered};

use bound_tree::{GapKind, GapNode, Numbers};
use ceiling_bound::Ceilings;
use search_model::Scenario;

// Sets the number of a node, where it waits, and answers the greater of it and `most`.
fn set_number(
    ceilings: &mut Ceilings,
    numbers: Numbers,
    sc: &Scenario,
    node: &mut GapNode,
    most: u128,
) -> u128
    requires made { AreCeilingsFor sc.now ceilings.old }
    requires legal { IsLegal sc.now node.old.prefix }
    ensures node { node.new ≡ numbered numbers sc.now node.old }
    ensures most { result ≡ greatest (most ∷ open_number node.new.kind) }
    ensures made { AreCeilingsFor sc.now ceilings.new }
{
    match node.kind {
        GapKind::Closed(_) => most,
        GapKind::Waiting(_) => {
            let number = ceilings.ceiling(numbers, sc, &node.prefix);
            node.kind = GapKind::Waiting(number);
            most.max(number)
        }
    }
}

/// Sets the numbers of all nodes that wait, and answers the greatest of them and of a value. Neighbours in preorder
/// share beliefs, so this is the order that costs least.
pub(crate) fn set_numbers(
    ceilings: &mut Ceilings,
    numbers: Numbers,
    sc: &Scenario,
    nodes: &mut [GapNode],
    value: u128,
) -> u128
    requires made { AreCeilingsFor sc.now ceilings.old }
    requires legal { All (λ node. IsLegal sc.now node.prefix) nodes.old }
    ensures nodes { nodes.new ≡ map (numbered numbers sc.now) nodes.old }
    ensures ceiling { result ≡ greatest (value ∷ open_numbers nodes.new) }
{
    let mut most = value;
    for node in nodes.iter_mut() {
        most = set_number(ceilings, numbers, sc, node, most);
    }
    most
}
