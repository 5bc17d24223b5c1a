//! The table of the tests.

/// Texts that print back, each below its scenario.
pub(crate) const TEXTS: &str = "\
== a 1
plan 2
path a
chance 1 2
nodes 2
B
W 1
end
== ab 2
plan 2
path a a
chance 12 16
nodes 5
B
B
W 12
W 12
M 12
end
== abc 3
plan 2
path c c c
chance 7 8
nodes 10
B
M 4
T 12 1 2 2
B
M 6
M 6
B
W 6
B
W 7
end
== ab 2
plan 2
path a a
chance 12 16
nodes 1
M 12
end
== ab 1
plan 2
path a
chance 12 16
nodes 3
B
B
B
end
== a 1
plan 1
path a
chance 1 2
nodes 2
B
W 1 0
end
== ab 2
plan 1
path a a
chance 12 16
nodes 5
B
B 0
W 12 0 0
W 12 0 1
M 12 1
end
== abc 2
plan 1
path c c
chance 3 4
nodes 6
B
M 0 0
M 2 1
B 2
W 2 2 1
W 3 2 2
end
== abc 3
plan 1
path c c c
chance 7 8
nodes 8
B
M 4 0
T 12 1 1 2 2
B 2
M 6 2 1
B 2 2
W 6 2 2 1
W 7 2 2 2
end
== abcd 2
plan 1
path c d
chance 6 9
nodes 7
B
B 0
W 3 0 0
W 3 0 1
B 2
W 2 2 2
W 6 2 3
end
== abcd 2
plan 1
path c d
chance 6 9
nodes 5
B
M 3 0
B 2
W 2 2 2
W 6 2 3
end
== abz 2
plan 1
path a a
chance 0 4
nodes 5
B
B 0
W 0 0 0
W 0 0 1
M 0 1
end
== ab 2
plan 1
path a
chance 0 0
nodes 0
end
== ab 2
plan 1
path a a a
chance 0 340282366920938463463374607431768211455
nodes 2
T 12 0 0
T 340282366920938463463374607431768211455 1 0 1 1
end
== row 3
plan 2
path c c c
chance 7 8
nodes 8
B
M 4
T 12 1 2 2
B
M 6
B
W 6
W 7
end
== row 3
plan 2
path c c c
chance 7 8
nodes 8
B
M 4
E 6
B
M 6
B
W 6
W 7
end
== the air
plan 1
path air
chance 1 2
nodes 3
B
W 0 0
W 1 1
end
== the air
plan 2
path air
chance 1 2
nodes 3
B
W 0
W 1
end
== ab 2
plan 3
path a a
chance 12 16
nodes 5
B
B
X 12 1
W 12
E 12
end
== ab 4
plan 3
path a a a a
chance 12 16
nodes 1
M 12
end
== row 4
plan 3
path c c c c
chance 9 16
nodes 7
B
M 4
B
X 6 2
E 5
T 12 1 1 2 2
X 340282366920938463463374607431768211455 0
end
== row 4
plan 3
path c c c c
chance 15 16
nodes 10
B
E 12
D 14
B
E 14
B
M 14
B
W 14
W 15
end
== row 3
plan 3
path c c c
chance 7 8
nodes 8
B
M 4
E 6
B
M 6
B
W 6
W 7
end
";
