//! The two paths that one of the product scenario stands for.

ghost use Rattle.std.specs.Prelude.{◌≡◌, ◌<◌, ◌*◌, map, All};
ghost use Rattle.duo_search.specs.Product.{first_at, second_at};

use search_model::{Path, Scenario};

/// Where the first searcher is, period by period, as a path of the product of `sc` says.
pub fn first_of(sc: &Scenario, path: &Path) -> Path
    requires { All (λ both. both < sc.now.positions * sc.now.positions) path.now }
    ensures { result ≡ map (first_at sc.now.positions) path.now }
{
    let positions = sc.positions();
    let mut first = Path::empty();
    for both in path.cells() {
        first.push(*both / positions);
    }
    first
}

/// Where the second searcher is, period by period, as a path of the product of `sc` says.
pub fn second_of(sc: &Scenario, path: &Path) -> Path
    requires { All (λ both. both < sc.now.positions * sc.now.positions) path.now }
    ensures { result ≡ map (second_at sc.now.positions) path.now }
{
    let positions = sc.positions();
    let mut second = Path::empty();
    for both in path.cells() {
        second.push(*both % positions);
    }
    second
}
