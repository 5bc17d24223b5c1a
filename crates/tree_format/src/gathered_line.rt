//! A line that comes in pieces, of any number of bytes each.

ghost use Rattle.std.specs.Prelude.{◌≡◌, ◌↔◌, IfOk, IsTrue};
ghost use Rattle.tree_format.specs.Gathering.{nothing_gathered, with_blank, with_other, with_byte, gathered};

use crate::pieces::{MOST_BYTES, MOST_FIELDS};
use exact_parts::NoMemory;
use std::alloc::Global;
use std::marker::Model;

// The most bytes that are kept: 70 fields of 40 bytes, and the blanks between them.
const ROOM: usize = MOST_FIELDS * MOST_BYTES + MOST_FIELDS - 1;

/// The front of a line: the first 40 bytes of each of its first 70 fields. The judge of a line needs no more of it.
#[derive(Drop)]
pub struct GatheredLine {
    text: Vec<u8>,
    len: usize,
    blanks: usize,
    width: usize,
}

impl Model for GatheredLine {
    ghost use Rattle.std.specs.Prelude.{◌≡◌, ◌≤◌, ◌+◌, ◌*◌, length, take};
    ghost use Rattle.tree_format.specs.Gathering.{Gathered};

    ghost Value = { Gathered };

    ghost view = { λ g. record { text = take g.len g.text.items; blanks = g.blanks; width = g.width } };

    ghost invariant = { λ g. record {
      room : length g.text.items ≡ 2869;
      short : g.len ≤ 2869;
      fields : g.len ≤ 41 * g.blanks + g.width;
      blanks : g.blanks ≤ 70;
      width : g.width ≤ 40;
    } };
}

impl GatheredLine {
    ghost use Rattle.std.specs.Prelude.{◌<◌, ◌≤◌};

    /// No bytes, and room for all that will be kept.
    pub fn empty(alloc: Global) -> Result<GatheredLine, NoMemory>
        ensures { IfOk result (λ line. line ≡ nothing_gathered) }
    {
        let text = vec![in alloc; 0; ROOM]?;
        Ok(GatheredLine {
            text,
            len: 0,
            blanks: 0,
            width: 0,
        })
    }

    /// The bytes that are kept.
    pub fn text(&self) -> &[u8]
        ensures { result.now ≡ self.now.text }
    {
        &self.text[..self.len]
    }

    /// Whether no byte came.
    pub fn is_empty(&self) -> bool
        ensures { IsTrue result ↔ (self.now ≡ nothing_gathered) }
    {
        self.blanks == 0 && self.width == 0
    }

    /// Begins another line.
    pub fn clear(&mut self)
        ensures { self.new ≡ nothing_gathered }
    {
        self.len = 0;
        self.blanks = 0;
        self.width = 0;
    }

    // A blank more.
    fn push_blank(&mut self)
        ensures { self.new ≡ with_blank self.old }
    {
        if self.blanks < MOST_FIELDS - 1 {
            self.text[self.len] = b' ';
            self.len += 1;
            self.blanks += 1;
        } else {
            self.blanks = MOST_FIELDS;
        }
        self.width = 0;
    }

    // Another byte more.
    fn push_other(&mut self, byte: u8)
        ensures { self.new ≡ with_other byte self.old }
    {
        if self.blanks < MOST_FIELDS && self.width < MOST_BYTES {
            self.text[self.len] = byte;
            self.len += 1;
            self.width += 1;
        }
    }

    /// A byte more of the line. It takes no memory.
    pub fn push(&mut self, byte: u8)
        ensures { self.new ≡ with_byte byte self.old }
    {
        if byte == b' ' {
            self.push_blank();
        } else {
            self.push_other(byte);
        }
    }

    /// Bytes more of the line, one after the other. It takes no memory.
    pub fn push_run(&mut self, bytes: &[u8])
        ensures { self.new ≡ gathered self.old bytes.now }
    {
        for byte in bytes {
            self.push(*byte);
        }
    }
}
