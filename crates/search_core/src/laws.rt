//! Laws of the machine: the balance over any list of events, and what balanced records show.

ghost use Rattle.search_core.specs.Laws.{StartIsBalanced, EventsKeepBalance, RunsAreBalanced, RunsAreGood, BalancedIsPlaced, BalancedIsAccepted, BalancedIsLive, RunsAreLive, DistinctLiveAreMany};

/// The balance holds at the start, each event keeps it, and so it holds after any list of events.
#[tactic(auto, using(crate::proofs::Kept::start_is_balanced, crate::proofs::Kept::kept, crate::proofs::Kept::runs_are_balanced))]
pub fn runs_are_balanced()
    ensures start { StartIsBalanced }
    ensures events { EventsKeepBalance }
    ensures runs { RunsAreBalanced }
{}

/// After any list of events each record is good in itself under the best standing that is known.
pub fn runs_are_good()
    ensures { RunsAreGood }
{}

/// Balanced records that branch only below the horizon stand, in preorder, where those of a whole tree do.
#[tactic(auto, using(crate::proofs::Preorder::balanced_is_placed))]
pub fn balanced_is_placed()
    ensures { BalancedIsPlaced }
{}

/// Balanced records that are good in themselves are, in preorder, the tree of an accepted plan.
#[tactic(auto, using(crate::proofs::Preorder::balanced_is_accepted))]
pub fn balanced_is_accepted()
    ensures { BalancedIsAccepted }
{}

/// All that stands somewhere in a balance is distinct and live under a standing that lets its Branch records branch.
pub fn balanced_is_live()
    ensures { BalancedIsLive }
{}

/// What a search that learns nothing worse than its first standing pools, holds and records is live under it.
pub fn runs_are_live()
    ensures { RunsAreLive }
{}

/// Distinct live prefixes, in whatever order, show that there are more live prefixes than any number below theirs.
pub fn distinct_live_are_many()
    ensures { DistinctLiveAreMany }
{}
