use bound_tree::GapNode;
use search_model::Path;

/// Which texts are read.
#[derive(Clone, Copy, Debug, PartialEq, Eq)]
pub enum Family {
    /// The texts of plans.
    Plans,
    /// The texts of gap plans.
    Gaps,
}

/// The dialect of a text. What dialects differ in stands in `specs/Dialects.antt`.
#[derive(Clone, Copy, Debug, PartialEq, Eq)]
pub enum Dialect {
    /// `plan 1`: each record has its prefix.
    PlanOne,
    /// `plan 2`: a record's prefix is the one that is expected.
    PlanTwo,
    /// `plan 3`: as `plan 2`, with records of exchanges.
    PlanThree,
    /// `gap 1`: as `plan 2`, with a ceiling and nodes that wait, whose numbers are mean bounds.
    GapOne,
    /// `gap 2`: as `gap 1`, with records of exchanges, and the numbers of nodes that wait are edge bounds.
    GapTwo,
}

/// Where a text has the prefixes of its records.
#[derive(Clone, Copy, Debug, PartialEq, Eq)]
pub enum Prefixes {
    /// On the line of each.
    Written,
    /// Nowhere: each is the one that is expected.
    LeftOut,
}

/// The line that is due.
#[derive(Clone, Copy, Debug, PartialEq, Eq)]
pub enum Stage {
    /// The first line: `plan 1`, `plan 2`, `plan 3`, `gap 1` or `gap 2`
    Version(Family),
    /// `path NAME ..`
    Path,
    /// `chance V W`
    Chance,
    /// `ceiling N`
    Ceiling,
    /// `nodes N`
    Count,
    /// So many records, and then `end`.
    Records(u64),
    /// No more.
    Ended,
}

/// What a line says.
#[derive(Clone, Copy)]
pub enum PlanLine {
    /// `plan 1`, `plan 2`, `plan 3`, `gap 1` or `gap 2`
    Version(Dialect),
    /// The path of the standing.
    Path(Path),
    /// The value of the standing, and the weight.
    Chance(u128, u128),
    /// The value that no path exceeds.
    Ceiling(u128),
    /// The number of records.
    Count(u64),
    /// A record.
    Node(GapNode),
    /// `end`
    End,
}
