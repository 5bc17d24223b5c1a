//! What the recursion over pairs of positions computes.

ghost use Rattle.std.specs.Prelude.{◌≡◌, ℕ, List};
ghost use Rattle.search_model.specs.Problem.{Problem};
ghost use Rattle.search_model.specs.Memory.{remembering_of};
ghost use Rattle.two_look_bound.specs.Pairs.{two_look_of};

/// The sums over pairs of positions are those of the bound that remembers two looks.
#[tactic(auto, using(crate::proofs::Recursion::remembering_two))]
pub fn two_looks_remembered()
    ensures { (p : Problem) (q : List ℕ) → two_look_of p q ≡ remembering_of p 2 q }
{}
