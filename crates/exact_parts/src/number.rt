/// What a field in a number's place says, measured by a limit.
#[derive(Clone, Copy, Debug, PartialEq, Eq)]
pub enum Number {
    /// The field is no plain decimal.
    NotPlain,
    /// A plain decimal of a number above the limit, however long it is.
    Above,
    /// A plain decimal of this number, which the limit admits.
    Of(u128),
}
