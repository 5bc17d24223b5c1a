//! Small scenarios whose values are worked by hand, as texts, for the tests of other crates.

/// One cell and one period; a look misses 1 of 2.
pub const ONE_CELL: &str = "\
scenario 1
horizon 1
parts 1 1 2
cell a
start a
first a 1
moves a a
drift a a 1
rate 1
end
";

/// Two cells and two periods; each step goes to either cell alike, and no look at the target's cell misses. All paths are
/// equal.
pub const TWO_CELLS: &str = "\
scenario 1
horizon 2
parts 2 2 2
cell a
cell b
start a
first a 1 b 1
moves a a b
moves b a b
drift a a 1 b 1
drift b a 1 b 1
rate 0
end
";

/// Three cells in a row, and a target that waits in the last one, over two periods; the searcher starts in the middle. A look
/// misses 1 of 2.
pub const WAITING: &str = "\
scenario 1
horizon 2
parts 1 1 2
cell a
cell b
cell c
start b
first c 1
moves a a b
moves b a b c
moves c b c
drift a a 1
drift b b 1
drift c c 1
rate 1
end
";

/// The same target over three periods.
pub const WAITING_LONGER: &str = "\
scenario 1
horizon 3
parts 1 1 2
cell a
cell b
cell c
start b
first c 1
moves a a b
moves b a b c
moves c b c
drift a a 1
drift b b 1
drift c c 1
rate 1
end
";

/// The same target over four periods, from which on gap plans are written with edge bounds.
pub const WAITING_FOUR: &str = "\
scenario 1
horizon 4
parts 1 1 2
cell a
cell b
cell c
start b
first c 1
moves a a b
moves b a b c
moves c b c
drift a a 1
drift b b 1
drift c c 1
rate 1
end
";

/// The same target over three periods, where no look in the middle misses: looks have two rates.
pub const TWO_RATES: &str = "\
scenario 1
horizon 3
parts 1 1 2
cell a
cell b
cell c
start b
first c 1
moves a a b
moves b a b c
moves c b c
drift a a 1
drift b b 1
drift c c 1
overlook a 1
overlook b 0
overlook c 1
end
";

/// Four cells and two periods; the target stays, and no look misses. From `b`, where the searcher starts, `a` promises more
/// than `c`, but only `c` leads on to `d`, where most of the target stands.
pub const FOUR_CELLS: &str = "\
scenario 1
horizon 2
parts 9 1 1
cell a
cell b
cell c
cell d
start b
first a 3 c 2 d 4
moves a a b
moves b a c
moves c c d
moves d c d
drift a a 1
drift b b 1
drift c c 1
drift d d 1
rate 0
end
";

/// Three cells and four periods; the target stays, and no look misses. Who comes to `a` by `b` finds what a second look at `a`
/// doesn't, and neither gets to `b` after it.
pub const BY_THE_WAY: &str = "\
scenario 1
horizon 4
parts 13 1 1
cell a
cell b
cell c
start b
first a 6 b 1 c 6
moves a a c
moves b a b
moves c a
drift a a 1
drift b b 1
drift c c 1
rate 0
end
";

/// One cell, one period, and two positions: a look from the base covers nothing, and one from the air covers the cell and
/// misses 1 of 2.
pub const BASE_AND_AIR: &str = "\
scenario 2
horizon 1
parts 1 1 2
cell a
position base
position air
start base
first a 1
moves base base air
moves air air
drift a a 1
look base
look air a 1
end
";
