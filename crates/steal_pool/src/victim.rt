//! Another worker's deque.

ghost use Rattle.std.specs.Prelude.{◌≡◌, length};
ghost use Rattle.crossbeam_deque.specs.Handles.{view, IsPassOf, stealer_deque, stealer_flavor};

use crate::deque::Thief;
use crate::hand::Hand;
use crossbeam_deque::Pass;

/// A thief's end of another worker's deque, with one pass for it.
#[derive(Drop)]
pub struct Victim<T: Drop> {
    pub thief: Thief<T>,
    pub pass: Pass<T, Hand<T>>,
    ghost fits: { IsPassOf (stealer_deque thief) pass },
    ghost fifo: { stealer_flavor thief ≡ 0 },
    ghost one: { (view pass).passes ≡ 1 },
    ghost no_puts: { length (view pass).put ≡ 0 },
}

/// The victims of one worker: those whose place comes before its own, and those after it.
#[derive(Drop)]
pub struct Rest<T: Drop> {
    pub before: Vec<Victim<T>>,
    pub after: Vec<Victim<T>>,
}
