use exact_parts::Number;

/// `NAME PART` of a line: the cell of that name, if it is one, and what stands in the part's place.
#[derive(Clone, Copy)]
pub struct Pair {
    pub cell: Option<u8>,
    pub part: Number,
}
