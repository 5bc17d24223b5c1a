ghost use Rattle.std.specs.Prelude.{◌≡◌};
ghost use Rattle.scenario_text.specs.Kinds.{name_of};

/// What is wrong with a line; in one line the first of these that holds is named.
#[derive(Clone, Copy, Debug, PartialEq, Eq)]
pub enum TextKind {
    /// A line that says something holds a byte other than tab, carriage return and 0x20 to 0x7E.
    NotText,
    /// The keyword is unknown or out of its place, the number of fields or the version is wrong, or a name holds a
    /// byte that names don't have.
    BadLine,
    /// A field in a number's place isn't a plain decimal, or is below the least.
    BadNumber,
    /// A number, a name, a row of moves or the list of cells is above its limit.
    OverLimit,
    /// A name isn't a cell's.
    UnknownName,
    /// A name stands twice where it may stand once.
    DoubleName,
    /// At the line `end` a cell lacks a row.
    MissingRow,
    /// A second row of one sort for a cell.
    DoubleRow,
    /// Parts don't sum to their denominator.
    WrongSum,
    /// An overlook part above its denominator.
    PartOver,
    /// A row of moves without moves.
    NoMove,
    /// At the line `end` the numbers are too wide for 128 bits.
    TooWide,
    /// There is no line `end`.
    EarlyEnd,
    /// Something follows the line `end`.
    Rest,
}

/// The first line with a fault, counted from 1.
#[derive(Clone, Copy, Debug, PartialEq, Eq)]
pub struct TextFault {
    pub line: u64,
    pub kind: TextKind,
}

/// The kind's name, as it is told beside the line.
pub fn text_kind_name(kind: TextKind) -> &'static str
    ensures { result.now ≡ name_of kind }
{
    match kind {
        TextKind::NotText => "NotText",
        TextKind::BadLine => "BadLine",
        TextKind::BadNumber => "BadNumber",
        TextKind::OverLimit => "OverLimit",
        TextKind::UnknownName => "UnknownName",
        TextKind::DoubleName => "DoubleName",
        TextKind::MissingRow => "MissingRow",
        TextKind::DoubleRow => "DoubleRow",
        TextKind::WrongSum => "WrongSum",
        TextKind::PartOver => "PartOver",
        TextKind::NoMove => "NoMove",
        TextKind::TooWide => "TooWide",
        TextKind::EarlyEnd => "EarlyEnd",
        TextKind::Rest => "Rest",
    }
}
