//! The law of openings.

ghost use Rattle.opening_path.specs.Laws.{OneOpening};

/// There is an opening, and no second one.
pub fn one_opening()
    ensures { OneOpening }
{}
