//! Where the text of a scenario ends.

ghost use Rattle.std.specs.Prelude.{◌≡◌, ◌≢◌, ◌↔◌, ◌++◌, ℕ, List, IsTrue, MatchOption};
ghost use Rattle.scenario_text.specs.Laws.{EndsWithEnd};
ghost use Rattle.plan_command.specs.Ends.{EndsInBlanks, BeginsLine};

use text_rows::is_blank;

// What stands before all the blanks at the end.
#[tactic(auto, using(crate::proofs::EndWords::blank_steps))]
fn before_blanks(text: &[u8]) -> &[u8]
    ensures { EndsInBlanks text.now result.now }
{
    let mut len = text.len();
    while len > 0 && is_blank(text[len - 1]) {
        len -= 1;
    }
    &text[..len]
}

// What stands before these bytes at the end: `None` exactly where the text doesn't end with them.
fn without<'a>(text: &'a [u8], end: &[u8]) -> Option<&'a [u8]>
    ensures { MatchOption result ((rest : List ℕ) → text.now ≢ rest ++ end.now) (λ rest.
        text.now ≡ rest.now ++ end.now) }
{
    text.strip_suffix(end)
}

// Whether a line begins behind the text.
fn begins_line(text: &[u8]) -> bool
    ensures { IsTrue result ↔ BeginsLine text.now }
{
    text.is_empty() || without(text, b"\n").is_some()
}

/// Whether the last line has the one word `end`, and its line feed.
pub fn ends_with_end(text: &[u8]) -> bool
    ensures exact { IsTrue result ↔ EndsWithEnd text.now }
{
    let Some(line) = without(text, b"\n") else {
        return false;
    };
    let Some(before) = without(before_blanks(line), b"end") else {
        return false;
    };
    begins_line(before_blanks(before))
}
