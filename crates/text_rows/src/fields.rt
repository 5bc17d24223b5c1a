//! A line as fields, between which any number of blanks stands.

ghost use Rattle.std.specs.Prelude.{◌≡◌, true, false, ◌∷◌, [], ◌<◌, ◌≤◌, drop, take, map, length, IfOk, All};
ghost use Rattle.text_rows.specs.Fields.{is_blank as is_blank_lem, ends_field, fields_of as fields_lem};

use crate::lines::rest_from;
use std::alloc::{AllocError, Global};

/// A blank, a tab or a carriage return.
pub fn is_blank(c: u8) -> bool
    ensures { result ≡ is_blank_lem c }
{
    c == b' ' || c == b'\t' || c == b'\r'
}

/// What follows the blanks at the front.
#[tactic(auto, using(crate::proofs::FieldCuts::skip_steps))]
pub fn skip_blanks(line: &[u8]) -> &[u8]
    ensures fields { fields_lem line.now ≡ fields_lem result.now }
    ensures starts { ends_field result.now ≡ true → result.now ≡ [] }
    ensures shorter { length result.now ≤ length line.now }
{
    for (i, c) in line.iter().enumerate() {
        if !is_blank(*c) {
            return rest_from(line, i);
        }
    }
    &[]
}

/// The field at the front, and what follows it.
#[tactic(auto, using(crate::proofs::FieldCuts::word_steps))]
pub fn cut_field(line: &[u8]) -> (&[u8], &[u8])
    requires { ends_field line.now ≡ false }
    ensures fields { fields_lem line.now ≡ result.0.now ∷ fields_lem result.1.now }
    ensures shorter { length result.1.now < length line.now }
{
    for (i, c) in line.iter().enumerate() {
        if is_blank(*c) {
            return (&line[..i], rest_from(line, i));
        }
    }
    (line, rest_from(line, line.len()))
}

/// The first fields of a line, so many at most.
#[tactic(auto, using(crate::proofs::FieldCuts::field_steps))]
pub fn first_fields(alloc: Global, line: &[u8], most: usize) -> Result<Vec<&[u8]>, AllocError>
    ensures value { IfOk result (λ v. map (λ f. f.now) v.items ≡ take most (fields_lem line.now)) }
    ensures some { IfOk result (λ v. All (λ f. 1 ≤ length f.now) v.items) }
{
    let mut fields = Vec::new(alloc);
    let mut rest = skip_blanks(line);
    while !rest.is_empty() && fields.len() < most {
        let (field, after) = cut_field(rest);
        fields.push(field)?;
        rest = skip_blanks(after);
    }
    Ok(fields)
}

/// What follows the first field of a line that has one.
pub fn after_field(line: &[u8]) -> &[u8]
    ensures { fields_lem result.now ≡ drop 1 (fields_lem line.now) }
{
    let line = skip_blanks(line);
    if line.is_empty() {
        return line;
    }
    cut_field(line).1
}
