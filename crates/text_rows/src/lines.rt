//! Text as lines.

ghost use Rattle.std.specs.Prelude.{◌≡◌, ◌<◌, ◌≤◌, ◌++◌, ◌∷◌, [], drop, length, IfSome, IfNone};
ghost use Rattle.text_rows.specs.Lines.{HasNo, split_at, lines_of, after_lines};

/// What follows the first `at` bytes.
pub fn rest_from(text: &[u8], at: usize) -> &[u8]
    requires { at ≤ length text.now }
    ensures { result.now ≡ drop at text.now }
{
    &text[at..]
}

/// What stands before the first byte of this kind, and what follows it.
#[tactic(auto, using(crate::proofs::LineCuts::cut_steps))]
pub fn cut(text: &[u8], at: u8) -> Option<(&[u8], &[u8])>
    ensures found { IfSome result (λ cut. text.now ≡ cut.0.now ++ at ∷ cut.1.now) }
    ensures first { IfSome result (λ cut. HasNo at cut.0.now) }
    ensures whole { IfNone result (HasNo at text.now) }
    ensures pieces { IfSome result (λ cut. split_at at text.now ≡ cut.0.now ∷ split_at at cut.1.now) }
    ensures piece { IfNone result (split_at at text.now ≡ text.now ∷ []) }
    ensures shorter { IfSome result (λ cut. length cut.1.now < length text.now) }
{
    for (i, c) in text.iter().enumerate() {
        if *c == at {
            return Some((&text[..i], rest_from(text, i + 1)));
        }
    }
    None
}

/// The first line, and what follows its line feed.
#[tactic(auto, using(crate::proofs::LineCuts::line_steps))]
pub fn cut_line(text: &[u8]) -> (&[u8], &[u8])
    requires { 0 < length text.now }
    ensures lines { lines_of text.now ≡ result.0.now ∷ lines_of result.1.now }
    ensures rest { result.1.now ≡ after_lines 1 text.now }
    ensures shorter { length result.1.now < length text.now }
{
    match cut(text, b'\n') {
        Some((line, rest)) => (line, rest),
        None => (text, &[]),
    }
}
