//! Verdicts on gap plans.

ghost use Rattle.std.specs.Prelude.{◌≡◌};
ghost use Rattle.tree_checker.specs.Whys.{gap_name_of};
ghost use Rattle.tree_checker.specs.Reasons.{plain_why as plain_why_lem, as_plain as as_plain_lem};
ghost use Rattle.tree_checker.specs.GapReasons.{plain_verdict as plain_verdict_lem};

use crate::verdict::{RejectAt, Verdict, Why, why_name};

/// Why a gap plan is rejected.
#[derive(Clone, Copy, Debug, PartialEq, Eq)]
pub enum GapWhy {
    /// For a reason for which a plan is.
    Plain(Why),
    /// The number of a waiting node isn't the ceiling of its prefix.
    WaitingWrong,
    /// The ceiling isn't the greatest of the value and the numbers of all waiting nodes.
    CeilingWrong,
}

/// Where and why a gap plan is rejected; lines of its text count from 1.
#[derive(Clone, Copy, Debug, PartialEq, Eq)]
pub struct GapRejectAt {
    pub line: u64,
    pub why: GapWhy,
}

/// What is said of a gap plan.
#[derive(Clone, Copy, Debug, PartialEq, Eq)]
pub enum GapVerdict {
    Accepted,
    Rejected(GapRejectAt),
}

/// The name of a reason, as the variant is spelled; that of a plan's reason is the one that it has there.
pub fn gap_why_name(why: GapWhy) -> &'static str
    ensures { result.now ≡ gap_name_of why }
{
    match why {
        GapWhy::Plain(why) => why_name(why),
        GapWhy::WaitingWrong => "WaitingWrong",
        GapWhy::CeilingWrong => "CeilingWrong",
    }
}

// A reason as one against a plan: a number that has no place there is a wrong bound.
fn plain_why(why: GapWhy) -> Why
    ensures { result ≡ plain_why_lem why }
{
    match why {
        GapWhy::Plain(why) => why,
        GapWhy::WaitingWrong | GapWhy::CeilingWrong => Why::BoundWrong,
    }
}

/// A rejection as one of a plan.
pub fn as_plain(at: GapRejectAt) -> RejectAt
    ensures { result ≡ as_plain_lem at }
{
    RejectAt {
        line: at.line,
        why: plain_why(at.why),
    }
}

/// A verdict as one on a plan.
pub fn plain_verdict(verdict: GapVerdict) -> Verdict
    ensures { result ≡ plain_verdict_lem verdict }
{
    match verdict {
        GapVerdict::Accepted => Verdict::Accepted,
        GapVerdict::Rejected(at) => Verdict::Rejected(as_plain(at)),
    }
}
