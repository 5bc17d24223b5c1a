//! The ticket word: its rule, and what each kind of step tells.

use crate::hand::Hand;
use atomic_table::{Join, Play, Seat, Split, Table, TableRule};
use std::alloc::Global;

/// The rule of the word: the numbers that all seats drew are those below it, each once.
pub struct EachOnce;

impl TableRule<(), Hand, u64> for EachOnce {
    ghost use Rattle.std.specs.Prelude.{[]};
    ghost use Rattle.node_tickets.specs.Rule.{hand, IsCounted};
    ghost use Rattle.node_tickets.specs.Seats.{ALL_SEATS};

    ghost holds = { IsCounted };

    ghost first = { λ limit. hand ALL_SEATS limit [] };
}

/// How a seat gives one of those that it stands for away, and takes others back.
pub struct Deals;

impl Split<Hand> for Deals {
    ghost use Rattle.std.specs.Prelude.{[], ◌-◌};
    ghost use Rattle.node_tickets.specs.Rule.{hand};

    ghost left = { λ v. hand (v.stands_for - 1) v.limit v.drawn };

    ghost right = { λ v. hand 1 v.limit [] };
}

impl Join<Hand> for Deals {
    ghost use Rattle.std.specs.Prelude.{[], ◌+◌, ◌++◌};
    ghost use Rattle.node_tickets.specs.Rule.{hand};

    ghost both = { λ v w. hand (v.stands_for + w.stands_for) v.limit (v.drawn ++ w.drawn) };

    ghost spent = { hand 0 0 [] };
}

/// What a draw tells: the number found is one more that the seat drew, greater than all that it drew before.
pub struct Draws;

impl Play<(), Hand> for Draws {
    ghost use Rattle.std.specs.Prelude.{[], ◌≡◌, ◌<◌, ◌++◌, ◌∷◌, All};
    ghost use Rattle.node_tickets.specs.Rule.{hand};

    ghost then = { λ step before n after. let v = before.0 in
        (after ≡ (hand v.stands_for v.limit (v.drawn ++ n ∷ []), before.1)) × All (λ x. x < n) v.drawn };
}

/// What a load between draws tells: at least the numbers that the seat drew are below the word, and nothing changed.
pub struct Reads;

impl Play<(), Hand> for Reads {
    ghost use Rattle.std.specs.Prelude.{◌≡◌, ◌+◌, ◌<◌, ◌≤◌, length, All};
    ghost use Rattle.node_tickets.specs.Seats.{ALL_SEATS};

    ghost then = { λ step before n after. let v = before.0 in
        (after ≡ before) × (n ≤ v.limit + ALL_SEATS) × All (λ x. x < n) v.drawn × (length v.drawn ≤ n) };
}

/// What the closing load tells a seat that stands for all: the numbers that it has are those below the word.
pub struct Closes;

impl Play<(), Hand> for Closes {
    ghost use Rattle.std.specs.Prelude.{[], ◌≡◌, ◌+◌, ◌≤◌, IsPermutation};
    ghost use Rattle.std.specs.List.{range_with_len};
    ghost use Rattle.node_tickets.specs.Seats.{ALL_SEATS};

    ghost then = { λ step before n after. let v = before.0 in
        (after ≡ before) × (n ≤ v.limit + ALL_SEATS) ×
        (v.stands_for ≡ ALL_SEATS → IsPermutation v.drawn (range_with_len 0 n)) };
}

/// The word.
pub type Word = Table<(), Hand, u64, EachOnce, Global>;

/// A seat at the word.
pub type Place = Seat<(), Hand>;
