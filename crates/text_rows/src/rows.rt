//! Rows of fields, as text: the fields with one blank between, and a line feed.
#![tactic(auto, using(crate::proofs::RowSteps::row_steps))]

ghost use Rattle.std.specs.Prelude.{◌≡◌, ◌++◌, ◌∷◌, [], All, map, OnOk, OnErr};
ghost use Rattle.exact_parts.specs.Appending.{Begins};
ghost use Rattle.text_rows.specs.Rows.{text_of, spaced};
ghost use Rattle.text_rows.specs.RowFields.{IsField, field_text};

use exact_parts::{NoMemory, push_percent, push_u128};

/// A field of a row.
#[derive(Clone, Copy)]
pub enum Field<'a> {
    /// These bytes.
    Word(&'a [u8]),
    /// A number in decimal.
    Number(u128),
    /// The share of a number in a whole, in percent.
    Share(u128, u128),
}

// Appends what a field is in the text. At `NoMemory` nothing is appended.
fn push_text(out: &mut Vec<u8>, field: Field) -> Result<(), NoMemory>
    requires { IsField field }
    ensures ok { OnOk result (out.new.items ≡ out.old.items ++ field_text field.entry) }
    ensures err { OnErr result (out.new.items ≡ out.old.items) }
{
    match field {
        Field::Word(bytes) => Ok(out.extend_from_slice(bytes)?),
        Field::Number(n) => push_u128(out, n),
        Field::Share(n, whole) => push_percent(out, n, whole),
    }
}

/// Appends a blank and a field.
pub fn push_field(out: &mut Vec<u8>, field: Field) -> Result<(), NoMemory>
    requires { IsField field }
    ensures ok { OnOk result (out.new.items ≡ out.old.items ++ spaced (field_text field.entry ∷ [])) }
    ensures err { OnErr result (Begins out.old.items out.new.items) }
{
    out.push(b' ')?;
    push_text(out, field)
}

/// Appends fields, each with a blank before it.
pub fn push_fields(out: &mut Vec<u8>, fields: &[Field]) -> Result<(), NoMemory>
    requires { All IsField fields.now }
    ensures ok { OnOk result (out.new.items ≡ out.old.items ++ spaced (map field_text fields.now)) }
    ensures err { OnErr result (Begins out.old.items out.new.items) }
{
    for field in fields {
        push_field(out, *field)?;
    }
    Ok(())
}

/// Begins a row of any length: a word, and the first fields behind it. A line feed ends the row.
pub fn begin_row(out: &mut Vec<u8>, word: &[u8], fields: &[Field]) -> Result<(), NoMemory>
    requires { All IsField fields.now }
    ensures ok { OnOk result (out.new.items ≡ out.old.items ++ (word.now ++ spaced (map field_text fields.now))) }
    ensures err { OnErr result (Begins out.old.items out.new.items) }
{
    out.extend_from_slice(word)?;
    push_fields(out, fields)
}

/// Appends a row: a word, and fields behind it.
pub fn push_row(out: &mut Vec<u8>, word: &[u8], fields: &[Field]) -> Result<(), NoMemory>
    requires { All IsField fields.now }
    ensures ok { OnOk result (out.new.items ≡ out.old.items ++ text_of ((word.now ∷ map field_text fields.now) ∷ [])) }
    ensures err { OnErr result (Begins out.old.items out.new.items) }
{
    begin_row(out, word, fields)?;
    out.push(b'\n')?;
    Ok(())
}
