//! Texts whose canonical text is read back, and what scenarios hold: tables as `scenario_texts` reads them.

/// Texts whose canonical text reads as the same scenario.
pub const READ_BACK: &[u8] = b"scenario 2
horizon 3
parts 1 2 2
cell a
cell b
position a
position b
start b
first a 1
moves a a b
moves b a b
=@drift a a 1 b 1
drift b b 2
driftin 1 a a 2
look a a 1
look b b 1
end
=the same
@drift a a 1 b 1
drift b b 2
driftin 2 a a 2
look a b 1
look b b 1
lookin 1 a a 0
end
=the same
@drift a a 1 b 1
drift b b 2
look a b 0 a 1
look b b 1
lookin 2 a
end
=the same
@drift a a 1 b 1
drift b b 2
look a a 0 b 2
look b b 1
lookin 3 a b 0
end
=the same
";

/// Texts with what their scenarios hold. Behind the counts stand the looks of two periods, from two positions of two
/// cells, and the steps after them; `-` where there is no such cell or position. In order: a row of one period is in force
/// there alone; rows stand in any order; a cell and a position may have one name, also that of a line; the widest
/// scenarios of both versions; a grid of 200 cells.
pub const VALUES: &[u8] = b"=@scenario 2
horizon 2
parts 1 2 2
cell a
cell b
position w
start w
first a 1
moves w w
drift a a 1 b 1
drift b b 2
look w a 1 b 1
lookin 2 w b 0
driftin 1 a a 2
end
=cells 2, positions 1, start 0, weight 8
 1 1 - -
 2 0 - -
 2 0 0 2
 1 1 0 2
@scenario 2
horizon 2
parts 1 2 2
cell a
cell b
position w
start w
first a 1
lookin 2 w
driftin 1 b b 1 a 1
look w b 0 a 2
drift b b 2
# x
moves w w
drift a b 1 a 1
end=cells 2, positions 1, start 0, weight 8
 2 0 - -
 2 2 - -
 1 1 1 1
 1 1 0 2
@scenario 2
horizon 1
parts 1 1 2
cell end
position -
position end
start end
first end 1
moves end end -
moves - -
drift end end 1
look end end 0
look -
end
=cells 1, positions 2, start 1, weight 2
 2 - 0 -
 2 - 0 -
 1 - - -
 1 - - -
@scenario 1
horizon 6
parts 4 1024 1024
cell a
start a
first a 4
moves a a
drift a a 1024
rate 512
end
=cells 1, positions 1, start 0, weight 5192296858534827628530496329220096
 512 - - -
 512 - - -
 1024 - - -
 1024 - - -
@scenario 2
horizon 6
parts 4 1024 1024
cell a
position a
start a
first a 4
moves a a
drift a a 1024
look a a 512
end
=cells 1, positions 1, start 0, weight 5192296858534827628530496329220096
 512 - - -
 512 - - -
 1024 - - -
 1024 - - -
@scenario 1
horizon 1
parts 1 1 1
grid 200 1
start r0c0
first r199c0 1
spread 0
rate 1
end
=cells 200, positions 200, start 0, weight 1
 1 1 1 1
 1 1 1 1
 1 0 0 1
 1 0 0 1
";

/// A text with what the scenario at its front holds, and how many bytes that takes: a grid of 49 cells before a plan.
pub const FRONT: &[u8] = b"=@scenario 1
horizon 8
parts 1 20 10
grid 7 7
start r0c0
first r3c3 1
spread 4
rate 3
end
plan 1
=bytes 88, cells 49, positions 49, start 0, weight 128000000000000000
";
