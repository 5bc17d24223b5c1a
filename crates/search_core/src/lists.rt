//! Lists of prefixes whose order is free.

ghost use Rattle.std.specs.Prelude.{◌≡◌, ◌+◌, ◌<◌, ◌∷◌, length, vec_len, vec_capacity, slice_get, MatchOption, Contains, Some};
ghost use Rattle.search_core.specs.Counts.{SameItems};

use search_model::Path;

/// The first place of a prefix in a list.
pub(crate) fn place_of(list: &[Path], prefix: &Path) -> Option<usize>
    ensures { MatchOption result (¬ Contains list.now prefix.now) (λ i. slice_get list.now i ≡ Some prefix.now) }
{
    for i in 0..list.len() {
        if list[i].cells() == prefix.cells() {
            return Some(i);
        }
    }
    None
}

/// Takes the prefix at a place out of a list.
pub(crate) fn take_out(list: &mut Vec<Path>, place: usize) -> Path
    requires { place < length list.old.items }
    ensures value { slice_get list.old.items place ≡ Some result }
    ensures items { SameItems list.old.items (result ∷ list.new.items) }
    ensures capacity { vec_capacity list.new ≡ vec_capacity list.old }
    ensures len { vec_len list.new + 1 ≡ vec_len list.old }
{
    list.swap_remove(place)
}
