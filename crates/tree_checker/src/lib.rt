//! The checker of plans and of gap plans: the first reason against one, or that there is none.
#![tactic(auto)]

mod bounds;
mod checker;
mod checking;
mod gap_verdict;
mod laws;
mod path_tests;
mod reasons;
mod tables;
mod verdict;

pub use checker::Checker;
pub use checking::{check, check_gap};
pub use gap_verdict::{GapRejectAt, GapVerdict, GapWhy, as_plain, gap_why_name, plain_verdict};
pub use laws::{
    accepted_with_no_reason, finds_one_rate, first_reason_by_records, gap_accepted_with_no_reason,
};
pub use verdict::{RejectAt, Verdict, Why, why_name};
