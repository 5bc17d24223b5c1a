//! The flight of the scout.

ghost use Rattle.std.specs.Prelude.{◌≡◌, ◌<◌, ◌⊎◌, length};
ghost use Rattle.search_model.specs.Legal.{IsLegal, IsPath};
ghost use Rattle.bound_tree.specs.Close.{IsExact, IsAtLeast};
ghost use Rattle.mean_bound.specs.Means.{IsMadeFor};

use bound_tree::extended;
use mean_bound::Mean;
use search_model::{Path, Scenario, Standing, better};

// The better of two standings.
fn better_of(s: &Standing, t: &Standing) -> Standing
    ensures either { (result ≡ s.now) ⊎ (result ≡ t.now) }
    ensures first { IsAtLeast result s.now }
    ensures second { IsAtLeast result t.now }
{
    if better(t, s) { *t } else { *s }
}

// The path by which the mean bound of a prefix reaches its greatest sum, the least of those; a path is its own.
fn reached(mean: &mut Mean, sc: &Scenario, prefix: &Path) -> Path
    requires made { IsMadeFor sc.now mean.old }
    requires legal { IsLegal sc.now prefix.now }
    ensures path { IsPath sc.now result }
    ensures made { IsMadeFor sc.now mean.new }
{
    if prefix.len() == sc.horizon() as usize {
        return *prefix;
    }
    let _bound = mean.bound(sc, prefix);
    let mut path = *prefix;
    mean.reference(sc, &mut path);
    path
}

// That path with its value.
fn tried(mean: &mut Mean, sc: &Scenario, prefix: &Path) -> Standing
    requires made { IsMadeFor sc.now mean.old }
    requires legal { IsLegal sc.now prefix.now }
    ensures exact { IsExact sc.now result }
    ensures made { IsMadeFor sc.now mean.new }
{
    let path = reached(mean, sc, prefix);
    let value = mean.value(sc, &path);
    Standing { path, value }
}

// The best of these paths over the moves after a prefix. Of equal values that is the one with the least of these moves.
fn best_ahead(mean: &mut Mean, sc: &Scenario, prefix: &Path) -> Standing
    requires made { IsMadeFor sc.now mean.old }
    requires legal { IsLegal sc.now prefix.now }
    requires shorter { length prefix.now < sc.now.horizon }
    ensures exact { IsExact sc.now result }
    ensures made { IsMadeFor sc.now mean.new }
{
    let moves = sc.moves_after(prefix);
    let mut best = tried(mean, sc, &extended(prefix, moves[0]));
    for i in 1..moves.len() {
        let next = tried(mean, sc, &extended(prefix, moves[i]));
        best = better_of(&best, &next);
    }
    best
}

/// Goes to the end once, and answers the best of a standing and of all paths that it looks at on the way. At each
/// period it looks, for each move, at the path by which the mean bound after that move reaches its greatest sum, and
/// makes the move of the best of these paths. So it computes at most 64 bounds and 64 values a period. Takes no memory.
pub fn scout(mean: &mut Mean, sc: &Scenario, first: &Standing) -> Standing
    requires made { IsMadeFor sc.now mean.old }
    requires exact { IsExact sc.now first.now }
    ensures exact { IsExact sc.now result }
    ensures not_worse { IsAtLeast result first.now }
    ensures made { IsMadeFor sc.now mean.new }
{
    let mut best = *first;
    let mut prefix = Path::empty();
    for t in 0..sc.horizon() as usize {
        let ahead = best_ahead(mean, sc, &prefix);
        best = better_of(&best, &ahead);
        prefix = ahead.path.first(t + 1);
    }
    best
}
