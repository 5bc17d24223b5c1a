//! Prefixes and paths of the searcher.

ghost use Rattle.std.specs.Prelude.{◌≡◌, ◌-◌, ◌<◌, ◌≤◌, ◌++◌, ◌∷◌, [], ◌↔◌, length, take, nat_eq, refl, IsTrue, MatchOption};
ghost use Rattle.std.specs.Ordering.{nat_cmp, as_partial_cmp};
ghost use Rattle.std.specs.Cmp.Lexicographic.{pointwise, slice_cmp};
ghost use Rattle.std.specs.Cmp.{partial_order_from_own_ties};
ghost use Rattle.std.specs.Cmp.Rules.{comparing};
ghost use Rattle.std.proofs.Common.{rules};

use std::cmp::Ordering;
use std::marker::Model;

// The most positions of a path.
const LONGEST: usize = 32;

/// Up to 32 position numbers, in place. Paths compare as their lists of positions: the smaller number at the first place
/// of difference decides, and a proper prefix is smaller.
/// What `cells` answers are positions: the name is older than positions that are no cells.
#[derive(Clone, Copy)]
pub struct Path {
    places: [u8; LONGEST],
    len: usize,
}

impl Model for Path {
    ghost use Rattle.std.specs.Prelude.{List, ℕ, take, length};
    ghost use Rattle.search_model.specs.PathPlaces.{IsPadded, padded};

    ghost Value = { List ℕ };

    ghost view = { λ p. take p.len p.places };

    ghost invariant = { λ p. IsPadded 32 p.places p.len };

    ghost inverse = { λ xs. record { places = padded 32 xs; len = length xs } };
}

impl Path {
    /// No positions.
    pub fn empty() -> Path
        ensures { result ≡ [] }
    {
        Path {
            places: [0; LONGEST],
            len: 0,
        }
    }

    /// These positions, or `None` where there are more than 32.
    pub fn of(cells: &[u8]) -> Option<Path>
        ensures { MatchOption result (32 < length cells.now) (λ p. (length cells.now ≤ 32) × (p ≡ cells.now)) }
    {
        if cells.len() > LONGEST {
            return None;
        }
        let mut path = Path::empty();
        for c in cells {
            path.push(*c);
        }
        Some(path)
    }

    /// The number of positions.
    pub fn len(&self) -> usize
        ensures value { result ≡ length self.now }
        ensures small { result ≤ 32 }
    {
        self.len
    }

    /// Whether there is no position.
    pub fn is_empty(&self) -> bool
        ensures { IsTrue result ↔ (self.now ≡ []) }
    {
        self.len == 0
    }

    /// The position numbers, in order of period.
    pub fn cells(&self) -> &[u8]
        ensures value { result.now ≡ self.now }
        ensures small { length self.now ≤ 32 }
    {
        &self.places[..self.len]
    }

    /// Adds a position at the end.
    pub fn push(&mut self, c: u8)
        requires { length self.old < 32 }
        ensures { self.new ≡ self.old ++ c ∷ [] }
    {
        self.places[self.len] = c;
        self.len += 1;
    }

    /// Removes the last position.
    pub fn pop(&mut self)
        requires { 1 ≤ length self.old }
        ensures { self.new ≡ take (length self.old - 1) self.old }
    {
        self.len -= 1;
        self.places[self.len] = 0;
    }

    /// The first `k` positions.
    pub fn first(&self, k: usize) -> Path
        requires { k ≤ length self.now }
        ensures { result ≡ take k self.now }
    {
        let mut path = Path::empty();
        for c in &self.cells()[..k] {
            path.push(*c);
        }
        path
    }
}

impl PartialEq for Path {
    ghost eq = { pointwise nat_eq };

    ghost laws = { Prim.search (comparing, rules) };

    fn eq(&self, other: &Path) -> bool {
        self.cells() == other.cells()
    }
}

impl Eq for Path {
    ghost laws = { Prim.search (comparing, rules) };
}

impl PartialOrd for Path {
    ghost partial_cmp = { as_partial_cmp (slice_cmp nat_cmp) };

    ghost laws = { partial_order_from_own_ties (Prim.search (comparing, rules)) (Prim.search (comparing, rules)) };

    fn partial_cmp(&self, other: &Path) -> Option<Ordering> {
        Some(self.cmp(other))
    }
}

impl Ord for Path {
    ghost cmp = { slice_cmp nat_cmp };

    ghost total = { Prim.search (comparing, rules) };

    ghost matches_partial_cmp = { λ x y. refl };

    ghost matches_eq = { Prim.search (comparing, rules) };

    fn cmp(&self, other: &Path) -> Ordering {
        self.cells().cmp(other.cells())
    }
}
