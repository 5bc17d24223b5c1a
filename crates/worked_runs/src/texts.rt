//! Texts that are written in one line, and bytes in one line again.
//!
//! ` | ` stands between the lines of a text. A line such as `@two_cells` stands for the text of this name. `\` and two
//! hexadecimal digits are one byte, and a line that ends with `\` has no line feed behind it.

use exact_parts::NoMemory;
use std::alloc::Global;

// What a hexadecimal digit says; anything else says 0.
fn digit(c: u8) -> u8 {
    match c {
        b'0'..=b'9' => c - b'0',
        b'a'..=b'f' => c - b'a' + 10,
        _ => 0,
    }
}

// Adds what stands behind a `\`: the byte of two digits, and the rest.
fn push_escaped(to: &mut Vec<u8>, piece: &[u8]) -> Result<(), NoMemory> {
    if let [high, low, rest @ ..] = piece {
        to.push(digit(*high).wrapping_mul(16).wrapping_add(digit(*low)))?;
        to.extend_from_slice(rest)?;
    }
    Ok(())
}

/// Adds bytes, of which `\` and two digits are one.
pub(crate) fn push_bytes(to: &mut Vec<u8>, line: &str) -> Result<(), NoMemory> {
    for (i, piece) in line.split('\\').enumerate() {
        if i == 0 {
            to.extend_from_slice(piece.as_bytes())?;
        } else {
            push_escaped(to, piece.as_bytes())?;
        }
    }
    Ok(())
}

// Adds a line, and a line feed where it doesn't end with `\`.
fn push_line(to: &mut Vec<u8>, line: &str) -> Result<(), NoMemory> {
    match line.strip_suffix('\\') {
        Some(front) => push_bytes(to, front),
        None => {
            push_bytes(to, line)?;
            to.push(b'\n')?;
            Ok(())
        }
    }
}

fn push_lines(to: &mut Vec<u8>, lines: &str) -> Result<(), NoMemory> {
    for line in lines.split(" | ") {
        push_line(to, line)?;
    }
    Ok(())
}

// The text that a name has among the cases; the name itself where it has none.
fn named<'a>(cases: &'a str, name: &'a str) -> &'a str {
    for line in cases.lines() {
        if let Some((found, text)) = line.split_once(" = ")
            && found == name
        {
            return text;
        }
    }
    name
}

/// Adds the text of a line, which may be empty.
pub(crate) fn push_text(to: &mut Vec<u8>, cases: &str, text: &str) -> Result<(), NoMemory> {
    if text.is_empty() {
        return Ok(());
    }
    for line in text.split(" | ") {
        match line.strip_prefix('@') {
            Some(name) => push_lines(to, named(cases, name))?,
            None => push_line(to, line)?,
        }
    }
    Ok(())
}

/// The text of a line, alone.
pub(crate) fn text_of(alloc: Global, cases: &str, text: &str) -> Result<Vec<u8>, NoMemory> {
    let mut bytes = Vec::new(alloc);
    push_text(&mut bytes, cases, text)?;
    Ok(bytes)
}

fn push_words(alloc: Global, words: &mut Vec<String>, line: &str) -> Result<(), NoMemory> {
    for word in line.split(' ').skip(1) {
        let mut bytes = Vec::new(alloc);
        push_bytes(&mut bytes, word)?;
        words.push(String::from_utf8_lossy(alloc, &bytes)?)?;
    }
    Ok(())
}

/// The words of a line, with a blank before each.
pub(crate) fn words_of(alloc: Global, line: &str) -> Result<Vec<String>, NoMemory> {
    let mut words = Vec::new(alloc);
    push_words(alloc, &mut words, line)?;
    Ok(words)
}
