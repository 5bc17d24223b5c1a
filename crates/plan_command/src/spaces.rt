ghost use Rattle.std.specs.Prelude.{◌≡◌};
ghost use Rattle.plan_command.specs.Spaces.{is_space as is_space_lem, SkipsSpaces};

use text_rows::rest_from;

fn is_space(c: u8) -> bool
    ensures { result ≡ is_space_lem c }
{
    c == b' ' || c == b'\t' || c == b'\r' || c == b'\n'
}

/// What follows the blanks and line feeds at the front.
pub fn skip_spaces(text: &[u8]) -> &[u8]
    ensures { SkipsSpaces text.now result.now }
{
    for (i, c) in text.iter().enumerate() {
        if !is_space(*c) {
            return rest_from(text, i);
        }
    }
    rest_from(text, text.len())
}
