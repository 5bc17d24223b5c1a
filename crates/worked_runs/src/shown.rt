//! Which lines of a text are shown.

use exact_parts::NoMemory;

/// All lines of what is written, or so many at its beginning or its end: where several workers make records, their order is
/// not determined.
#[derive(Clone, Copy)]
pub(crate) enum Shown {
    All,
    Head(usize),
    Tail(usize),
}

/// What a case says is shown.
pub(crate) fn shown_by(side: &str, count: &str) -> Shown {
    let count = count.parse::<usize>().unwrap_or(0);
    match side {
        "head" => Shown::Head(count),
        "tail" => Shown::Tail(count),
        _ => Shown::All,
    }
}

// The first line that is shown of so many, and the line behind the last one.
fn bounds(shown: Shown, count: usize) -> (usize, usize) {
    match shown {
        Shown::All => (0, count),
        Shown::Head(lines) => (0, lines),
        Shown::Tail(lines) => (count.saturating_sub(lines), count),
    }
}

fn push_between(to: &mut Vec<u8>, lines: &[u8], first: usize, end: usize) -> Result<(), NoMemory> {
    for (i, line) in lines.split(|c| *c == b'\n').enumerate() {
        if i > first && i < end {
            to.extend_from_slice(b" | ")?;
        }
        if i >= first && i < end {
            to.extend_from_slice(line)?;
        }
    }
    Ok(())
}

/// Adds what is shown of a text in one line: ` | ` stands between its lines, and `\` behind it where it ends without a line
/// feed.
pub(crate) fn push_shown(to: &mut Vec<u8>, text: &[u8], shown: Shown) -> Result<(), NoMemory> {
    let lines = text.strip_suffix(b"\n").unwrap_or(text);
    let count = lines.split(|c| *c == b'\n').count();
    let (first, end) = bounds(shown, count);
    push_between(to, lines, first, end)?;
    if lines.len() == text.len() {
        to.push(b'\\')?;
    }
    Ok(())
}
