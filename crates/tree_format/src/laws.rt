//! Laws over the definitions.

ghost use Rattle.tree_format.specs.KindTable.{KindsByTable};
ghost use Rattle.tree_format.specs.ReadingLaws.{PlanTextReadsBack, GapTextReadsBack, OneTextAPlan, OneTextAGap, OnePlanAText, OneGapAText, FirstFaultDecides, SummaryDecides};
ghost use Rattle.tree_format.specs.TextLaws.{PlanTextIsShort, SameSearchSameTexts, SameSearchSameGapText};

/// A text of a plan, in whichever dialect of plans, reads back as that plan.
pub fn plan_text_reads_back()
    ensures { PlanTextReadsBack }
{}

/// And so does the text of a gap plan whose nodes have the prefixes that are expected.
#[tactic(auto, using(crate::proofs::ReadsBack::gap_text_reads_back))]
pub fn gap_text_reads_back()
    ensures { GapTextReadsBack }
{}

/// What is read as a plan is the text of that plan in one of the dialects of plans: a plan has at most one in each.
#[tactic(auto, using(crate::proofs::Spelled::one_text_a_plan))]
pub fn one_text_a_plan()
    ensures { OneTextAPlan }
{}

/// What is read as a gap plan is the text of that gap plan, which has one.
#[tactic(auto, using(crate::proofs::Spelled::one_text_a_gap))]
pub fn one_text_a_gap()
    ensures { OneTextAGap }
{}

/// Two plans of one text are one plan.
#[tactic(auto, using(crate::proofs::ReadsBack::one_plan_a_text))]
pub fn one_plan_a_text()
    ensures { OnePlanAText }
{}

/// And two gap plans of one text are one.
#[tactic(auto, using(crate::proofs::ReadsBack::one_gap_a_text))]
pub fn one_gap_a_text()
    ensures { OneGapAText }
{}

/// The fault that reading gives is the first: the lines before it are right.
#[tactic(auto, using(crate::proofs::FirstFaults::first_fault_decides))]
pub fn first_fault_decides()
    ensures { FirstFaultDecides }
{}

/// The judge of a line needs no more of it than the first 40 bytes of each of its first 70 fields.
#[tactic(auto, using(crate::proofs::Summaries::summary_decides))]
pub fn summary_decides()
    ensures { SummaryDecides }
{}

/// A line has the fault that the table of kinds gives: the first kind whose test holds.
#[tactic(auto, using(crate::proofs::Tables::kinds_by_table))]
pub fn kinds_by_table()
    ensures { KindsByTable }
{}

/// A plan's text has at most 298 bytes for each record, and 949 besides.
pub fn plan_text_is_short()
    ensures { PlanTextIsShort }
{}

/// A text of a plan is one for each scenario that is the same search, and so is the text of a gap plan.
pub fn same_search_same_texts()
    ensures plans { SameSearchSameTexts }
    ensures gaps { SameSearchSameGapText }
{}
