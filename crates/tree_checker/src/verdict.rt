//! Verdicts on plans.

ghost use Rattle.std.specs.Prelude.{◌≡◌};
ghost use Rattle.tree_checker.specs.Whys.{name_of};

/// Why a plan is rejected.
#[derive(Clone, Copy, Debug, PartialEq, Eq)]
pub enum Why {
    /// The path doesn't follow the moves from the start, or isn't as long as the horizon.
    PathIllegal,
    /// The value isn't that of the path.
    ValueWrong,
    /// The weight isn't the whole weight.
    WeightWrong,
    /// The record's prefix is smaller than the expected one, or none is expected.
    NotChild,
    /// The record's prefix is greater than the expected one, or the records end before it.
    MissingChild,
    /// A whole path is shorter than the horizon or has another value, or another record is as long as the horizon; or an
    /// exchange stands where there is none: the horizon is below 4, or the prefix has fewer than two positions.
    WholeWrong,
    /// The bound isn't that of the prefix.
    BoundWrong,
    /// The record leaves something better than the plan's path, or than the prefix of an exchange that is to be better.
    NotCut,
    /// A tangent where looks don't have one rate.
    NoOneRate,
    /// The path of a tangent isn't a path that begins with the prefix, or the position of an exchange stands in the prefix
    /// there, or makes it illegal.
    ReferenceWrong,
}

/// Where and why a plan is rejected; lines of its text count from 1.
#[derive(Clone, Copy, Debug, PartialEq, Eq)]
pub struct RejectAt {
    pub line: u64,
    pub why: Why,
}

/// What is said of a plan.
#[derive(Clone, Copy, Debug, PartialEq, Eq)]
pub enum Verdict {
    Accepted,
    Rejected(RejectAt),
}

/// The name of a reason, as the variant is spelled.
pub fn why_name(why: Why) -> &'static str
    ensures { result.now ≡ name_of why }
{
    match why {
        Why::PathIllegal => "PathIllegal",
        Why::ValueWrong => "ValueWrong",
        Why::WeightWrong => "WeightWrong",
        Why::NotChild => "NotChild",
        Why::MissingChild => "MissingChild",
        Why::WholeWrong => "WholeWrong",
        Why::BoundWrong => "BoundWrong",
        Why::NotCut => "NotCut",
        Why::NoOneRate => "NoOneRate",
        Why::ReferenceWrong => "ReferenceWrong",
    }
}
