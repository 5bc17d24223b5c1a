//! What the definitions of the text say together.

ghost use Rattle.scenario_text.specs.Laws.{OneProblem, EveryTextSpellsOne, CanonicalVersion, CanonicalReadsBack, CanonicalFrontReadsBack, FrontIgnoresRest};
ghost use Rattle.scenario_text.specs.Worked.{WorkedTexts};
ghost use Rattle.scenario_text.specs.WorkedTwo.{WorkedTwo};
ghost use Rattle.scenario_text.specs.InRows.{GridInRows, GridReadsOn, RateInRows, SpreadInRows};
ghost use Rattle.scenario_text.specs.ReadingLaws.{SilentLinesAddNothing, KindsInOrder, FirstFaultDecides, FirstFaultDecidesAlone};

/// What was read is one problem: no text spells two.
#[tactic(auto, using(crate::proofs::Determined::one_problem))]
pub fn one_problem_a_text()
    ensures { OneProblem }
{}

/// The canonical text is of version 1 exactly where such a text can say the problem.
#[tactic(auto, using(crate::proofs::Plain::canonical_version))]
pub fn canonical_version()
    ensures { CanonicalVersion }
{}

/// The canonical text of a problem is a text of the same problem.
#[tactic(auto, using(crate::proofs::Back::canonical_reads_back))]
pub fn canonical_text_reads_back()
    ensures { CanonicalReadsBack }
{}

/// It is read so, with all of its bytes, whatever follows it.
#[tactic(auto, using(crate::proofs::Back::canonical_front_reads_back))]
pub fn canonical_front_reads_back()
    ensures { CanonicalFrontReadsBack }
{}

/// A line of blanks alone and a comment add nothing.
#[tactic(auto, using(crate::proofs::FirstFaults::silent_lines_add_nothing))]
pub fn silent_lines_add_nothing()
    ensures { SilentLinesAddNothing }
{}

/// The fault that reading gives is the first: the lines before it are right.
#[tactic(auto, using(crate::proofs::FirstFaults::first_fault_decides))]
pub fn first_fault_decides()
    ensures { FirstFaultDecides }
{}

/// So it is for a text that ends with its line `end`, behind which the first line that says anything is a fault.
#[tactic(auto, using(crate::proofs::FirstFaults::first_fault_decides_alone))]
pub fn first_fault_decides_alone()
    ensures { FirstFaultDecidesAlone }
{}

/// The kinds of a line are asked in the order of the format: the first whose test holds has the least number.
#[tactic(auto, using(crate::proofs::KindOrder::kinds_in_order))]
pub fn kinds_in_order()
    ensures { KindsInOrder }
{}

/// Two texts with what they say, and a fault of each kind, worked by hand.
pub fn worked_texts()
    ensures { WorkedTexts }
{}

/// Texts of version 2 with what they say, and faults of each kind, worked by hand.
pub fn worked_texts_of_version_2()
    ensures { WorkedTwo }
{}

/// The line `rate` says what an `overlook` line for each cell says.
#[tactic(auto, using(crate::proofs::InRows::rate_in_rows))]
pub fn rate_in_rows()
    ensures { RateInRows }
{}

/// The line `spread` says what a `drift` line for each cell says.
#[tactic(auto, using(crate::proofs::InRows::spread_in_rows))]
pub fn spread_in_rows()
    ensures { SpreadInRows }
{}

/// The line `grid` says what lines with the cells and with their moves say.
#[tactic(auto, using(crate::proofs::GridRows::grid_in_rows))]
pub fn grid_in_rows()
    ensures { GridInRows }
{}

/// A text that reads up to its end spells a scenario, and no other.
#[tactic(auto, using(crate::proofs::OneScenario::every_text_spells_one))]
pub fn every_text_spells_one()
    ensures { EveryTextSpellsOne }
{}

/// Behind the moves of its cells a grid only lets `spread` in: what else is right adds the same.
#[tactic(auto, using(crate::proofs::GridRows::grid_reads_on))]
pub fn grid_reads_on()
    ensures { GridReadsOn }
{}

/// What follows a line with the one word `end` isn't looked at, whatever stands before it.
pub fn front_ignores_rest()
    ensures { FrontIgnoresRest }
{}
