ghost use Rattle.std.specs.Prelude.{◌≡◌};
ghost use Rattle.tree_format.specs.Kinds.{name_of};

/// What is wrong with a line of a plan text; in one line the first of these that holds is named, `EarlyEnd` before all.
#[derive(Clone, Copy, Debug, PartialEq, Eq)]
pub enum PlanKind {
    /// The keyword or letter is wrong for this line, or the number of its fields is, or a field is empty.
    BadLine,
    /// A field in a number's place is no plain decimal below 2 to the power 128, or no position's number.
    BadNumber,
    /// A name of the path is no position's.
    UnknownName,
    /// More records are announced than the text may have.
    TooManyNodes,
    /// A record past the last, or the end before it.
    WrongCount,
    /// The bytes end before the line feed of the line that is due.
    EarlyEnd,
    /// A byte follows the last line.
    Rest,
    /// Where prefixes are left out, a record where none is expected.
    NoPlace,
    /// Where prefixes are left out, the end where one is expected.
    StillOpen,
}

/// The first line with a fault, counted from 1.
#[derive(Clone, Copy, Debug, PartialEq, Eq)]
pub struct PlanFault {
    pub line: u64,
    pub kind: PlanKind,
}

/// The kind's name, as it is told beside the line.
pub fn plan_kind_name(kind: PlanKind) -> &'static str
    ensures { result.now ≡ name_of kind }
{
    match kind {
        PlanKind::BadLine => "BadLine",
        PlanKind::BadNumber => "BadNumber",
        PlanKind::UnknownName => "UnknownName",
        PlanKind::TooManyNodes => "TooManyNodes",
        PlanKind::WrongCount => "WrongCount",
        PlanKind::EarlyEnd => "EarlyEnd",
        PlanKind::Rest => "Rest",
        PlanKind::NoPlace => "NoPlace",
        PlanKind::StillOpen => "StillOpen",
    }
}
