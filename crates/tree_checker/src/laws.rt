//! Laws of acceptance and of the one rate.

ghost use Rattle.tree_checker.specs.Laws.{AcceptedWithNoReason, GapAcceptedWithNoReason, FindsOneRate};
ghost use Rattle.tree_checker.specs.Records.{ReasonByRecords, ReasonIsPlain};

/// A plan is accepted exactly where there is no reason against it.
#[tactic(auto, using(crate::proofs::Reason::no_reason_is_accepted))]
pub fn accepted_with_no_reason()
    ensures { AcceptedWithNoReason }
{}

/// A gap plan is accepted exactly where there is no reason against it.
#[tactic(auto, using(crate::proofs::Reason::no_reason_is_accepted_gap))]
pub fn gap_accepted_with_no_reason()
    ensures { GapAcceptedWithNoReason }
{}

/// The rate that is found among a problem's look factors is their one rate, and where none is found there is none.
pub fn finds_one_rate()
    ensures { FindsOneRate }
{}

/// The first reason against a plan is that of its path, of its value and weight, and of its records one by one; and a plan as a
/// gap plan is rejected for no other reason.
pub fn first_reason_by_records()
    ensures by_records { ReasonByRecords }
    ensures plain { ReasonIsPlain }
{}
