//! Laws of the product problem.

ghost use Rattle.duo_search.specs.Laws.{ProductStandsFor, PathsArePairs, PairIsValue, NoPairFindsMore, ProductIsOne, SameIsProduct};

/// The product problem stands for both: each of its positions says where they are.
pub fn product_stands_for()
    ensures { ProductStandsFor }
{}

/// Pairs of paths and paths of the product problem correspond one to one, period by period.
pub fn paths_are_pairs()
    ensures { PathsArePairs }
{}

/// The value of a path of the product problem is what its pair of paths finds together.
pub fn pair_is_value()
    ensures { PairIsValue }
{}

/// No pair of paths finds more together than that of the product problem's best path.
pub fn no_pair_finds_more()
    ensures { NoPairFindsMore }
{}

/// The product problem for a second start is one search, however it is written down.
pub fn product_is_one()
    ensures one { ProductIsOne }
    ensures same { SameIsProduct }
{}

ghost use Rattle.duo_search.specs.Worked.{WorkedPairs};

/// What pairs of paths find in small problems, worked by hand.
pub fn worked_pairs()
    ensures { WorkedPairs }
{}
