//! A standing in six words.

ghost use Rattle.std.specs.Prelude.{◌≡◌, ◌≤◌, ◌<◌, length, drop, All};
ghost use Rattle.std.specs.Int.{to_be_bytes, w64};
ghost use Rattle.std.specs.List.{flat_map};
ghost use Rattle.search_model.specs.PathPlaces.{padded};
ghost use Rattle.incumbent_board.specs.Words.{words_of, spelled_by, eight_from};

use search_model::{Path, Standing};

/// The words of a board on which no offer was placed: no standing has them. A board isn't started with the words of its
/// first standing, since only a step that may wait could tell the cell's rule that they are there.
pub const BLANK: [u64; 6] = [u64::MAX; 6];

// The positions, with zeros after the last.
fn places_of(path: &Path) -> [u8; 32]
    ensures value { result ≡ padded 32 path.now }
    ensures short { length path.now ≤ 32 }
    ensures bytes { All (λ c. c < 256) path.now }
{
    let mut places = [0; 32];
    let cells = path.cells();
    places[..cells.len()].copy_from_slice(cells);
    places
}

// The eight positions from a place on, in one word.
fn eight_at(places: &[u8; 32], from: usize) -> u64
    requires { from ≤ 24 }
    ensures { result ≡ eight_from places.now from }
{
    u64::from_be_bytes([
        places[from],
        places[from + 1],
        places[from + 2],
        places[from + 3],
        places[from + 4],
        places[from + 5],
        places[from + 6],
        places[from + 7],
    ])
}

/// The six words of a standing.
pub fn pack(standing: &Standing) -> [u64; 6]
    ensures value { result ≡ words_of standing.now }
    ensures short { length standing.now.path ≤ 32 }
    ensures bytes { All (λ c. c < 256) standing.now.path }
{
    let places = places_of(&standing.path);
    [
        (standing.value >> 64) as u64,
        (standing.value % (1 << 64)) as u64,
        eight_at(&places, 0),
        eight_at(&places, 8),
        eight_at(&places, 16),
        eight_at(&places, 24),
    ]
}

// The positions that four words spell.
fn places_in(words: &[u64; 6]) -> [u8; 32]
    ensures { result ≡ flat_map (to_be_bytes w64) (drop 2 words.now) }
{
    let mut places = [0; 32];
    places[..8].copy_from_slice(&words[2].to_be_bytes());
    places[8..16].copy_from_slice(&words[3].to_be_bytes());
    places[16..24].copy_from_slice(&words[4].to_be_bytes());
    places[24..].copy_from_slice(&words[5].to_be_bytes());
    places
}

/// The standing with a path of `size` positions that six words spell.
pub fn unpack(words: &[u64; 6], size: usize) -> Standing
    requires { size ≤ 32 }
    ensures { result ≡ spelled_by size words.now }
{
    let places = places_in(words);
    let Some(path) = Path::of(&places[..size]) else {
        unreachable!()
    };
    Standing {
        path,
        value: (u128::from(words[0]) << 64) + u128::from(words[1]),
    }
}
