//! A steal.

ghost use Rattle.std.specs.Prelude.{◌≡◌, ◌<◌, ◌∷◌, [], length};
ghost use Rattle.crossbeam_deque.specs.Handles.{view, stealer_deque};
ghost use Rattle.steal_pool.specs.Rule.{with_task, FirstAtOneMoment, EmptyAtOneMoment};
ghost use Rattle.steal_pool.specs.Pools.{robbed_deques, robbed_hands};
ghost use Rattle.steal_pool.specs.Thefts.{MatchTheft, RobsAt, misses_after as misses_after_lem};

use crate::deque::steal_task;
use crate::victim::Victim;
use crossbeam_deque::Steal;

/// What a steal gave.
#[derive(Drop)]
pub enum Theft<T: Drop> {
    /// The task that stood first in the victim's deque.
    Got(T),
    /// The victim's deque was empty.
    Empty,
    /// Another worker was faster.
    Beaten,
}

// Tries to take the first task of a victim.
fn rob<T: Drop>(victim: &mut Victim<T>) -> Theft<T>
    ensures same { stealer_deque victim.new.thief ≡ stealer_deque victim.old.thief }
    ensures took { let v = view victim.old.pass in MatchTheft result
        (λ x. (view victim.new.pass ≡ with_task v x) × FirstAtOneMoment v (x ∷ []))
        ((view victim.new.pass ≡ v) × EmptyAtOneMoment v)
        (view victim.new.pass ≡ v) }
{
    match steal_task(&victim.thief, &mut victim.pass) {
        Steal::Success(task) => Theft::Got(task),
        Steal::Empty => Theft::Empty,
        Steal::Retry => Theft::Beaten,
    }
}

/// The same at one of several victims.
pub fn rob_at<T: Drop>(victims: &mut Vec<Victim<T>>, at: usize) -> Theft<T>
    requires { at < length victims.old.items }
    ensures same { robbed_deques victims.new.items ≡ robbed_deques victims.old.items }
    ensures took { RobsAt (robbed_hands victims.old.items) at result (robbed_hands victims.new.items) }
{
    let victim = &mut victims[at];
    rob(victim)
}

/// How many steals in a row got no task, after a further steal: none once it got one, else one more, as far as it fits.
pub fn misses_after<T: Drop>(misses: u64, theft: &Theft<T>) -> u64
    ensures { result ≡ misses_after_lem misses theft.now }
{
    match theft {
        Theft::Got(_) => 0,
        Theft::Empty | Theft::Beaten => misses.saturating_add(1),
    }
}
