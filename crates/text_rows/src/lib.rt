//! Text as lines and fields, which texts of scenarios, plans and reports share.
#![tactic(auto)]

mod fields;
mod lines;
mod rows;

pub use fields::{after_field, cut_field, first_fields, is_blank, skip_blanks};
pub use lines::{cut, cut_line, rest_from};
pub use rows::{Field, begin_row, push_field, push_fields, push_row};
