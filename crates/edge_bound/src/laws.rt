//! The edge bound by way of moves, and the edge bounds of small problems.

ghost use Rattle.edge_bound.specs.Moves.{EdgeIsByMoves};
ghost use Rattle.edge_bound.specs.Worked.{WorkedEdges};

/// The edge bounds of small problems, worked by hand.
#[tactic(auto, using(crate::proofs::Examples::worked_edges_hold))]
pub fn worked_edges()
    ensures { WorkedEdges }
{}

/// The edge bound of a prefix is the greatest by way of its moves.
#[tactic(auto, using(crate::proofs::Walking::edge_by_moves))]
pub fn edge_is_by_moves()
    ensures { EdgeIsByMoves }
{}
