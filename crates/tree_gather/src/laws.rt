//! Laws of hauls: what those of a whole search come to, and what a whole tree shows.

ghost use Rattle.tree_gather.specs.Laws.{AllHaulsAreEven, EvenHaulsAreJoined, JoinedAreLive, WaitingHaveMore, DoneAreAccepted};

/// What all hauls of a search bring back meets the balance equation, with nothing pooled, and is joined.
pub fn all_hauls_are_joined()
    ensures even { AllHaulsAreEven }
    ensures joined { EvenHaulsAreJoined }
{}

/// All that was closed or waits is distinct, and live under the first standing of the search; so where something waits there
/// are more live prefixes than records.
pub fn joined_are_live()
    ensures live { JoinedAreLive }
    ensures more { WaitingHaveMore }
{}

/// Where nothing waits, the records are the tree of an accepted plan of the best standing.
pub fn done_are_accepted()
    ensures { DoneAreAccepted }
{}
