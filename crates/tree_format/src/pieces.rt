//! The first fields of a line.

ghost use Rattle.std.specs.Prelude.{◌≡◌, ◌≤◌, take, map, length};
ghost use Rattle.text_rows.specs.Fields.{exact_fields};
ghost use Rattle.tree_format.specs.Reading.{summary_of};

use text_rows::cut;

/// The most fields of a line that are looked at: more than any line has that is right.
pub const MOST_FIELDS: usize = 70;

/// The most bytes of a field that are looked at: more than any field has that is right.
pub const MOST_BYTES: usize = 40;

// The first bytes of a field.
fn front(field: &[u8]) -> &[u8]
    ensures { result.now ≡ take 40 field.now }
{
    if field.len() > MOST_BYTES {
        &field[..MOST_BYTES]
    } else {
        field
    }
}

/// The first bytes of each of the first fields of a line, in place: how many there are. They stand first in `items`.
#[tactic(auto, using(crate::proofs::FirstFields::first_steps))]
pub fn first_fields<'a>(line: &'a [u8], items: &mut [&'a [u8]; MOST_FIELDS]) -> usize
    ensures few { result ≤ 70 }
    ensures room { length items.new ≡ 70 }
    ensures value { map (λ f. f.now) (take result items.new) ≡ summary_of (exact_fields line.now) }
{
    let mut rest = line;
    let mut len = 0;
    while len < MOST_FIELDS {
        let Some((field, after)) = cut(rest, b' ') else {
            items[len] = front(rest);
            return len + 1;
        };
        items[len] = front(field);
        len += 1;
        rest = after;
    }
    len
}
