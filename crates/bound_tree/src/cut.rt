//! What a standing rules out.

ghost use Rattle.std.specs.Prelude.{◌≡◌, ◌*◌, ◌<◌, ◌≤◌, ◌^◌, length};
ghost use Rattle.bound_tree.specs.Cut.{is_cut, times};

use search_model::{Path, Standing};

/// Whether a bound of a prefix leaves nothing better than the standing below the prefix: it is less than the standing's
/// value, or equal, and the prefix is greater than the standing's first positions.
pub fn cuts(standing: &Standing, bound: u128, prefix: &Path) -> bool
    requires { length prefix.now ≤ length standing.now.path }
    ensures { result ≡ is_cut bound prefix.now standing.now }
{
    let first = standing.path.first(prefix.len());
    bound < standing.value || (bound == standing.value && first < *prefix)
}

/// The standing with its value in finer parts, so many for each, as a tangent is compared with.
pub fn in_parts(standing: &Standing, parts: u32) -> Standing
    requires { parts * standing.now.value < 2 ^ 128 }
    ensures { result ≡ times parts standing.now }
{
    Standing {
        path: standing.path,
        value: u128::from(parts) * standing.value,
    }
}
